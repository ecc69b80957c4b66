// The pieces that a format is made of.
ghost use Rattle.std.specs.Prelude.{◌≡◌, ◌++◌, ◌∷◌, [], ℕ, List, OnErr, OnOk};
ghost use Rattle.record_formats.specs.declared.pieces.Piece.{Piece};

use std::alloc::{AllocError, Global};
use std::marker::Model;
use texts::Bytes;

/// A field, by its name in lower case, and how wide its value is shown: as it is where the width is 0.
#[derive(Drop)]
pub struct Shown {
    pub name: Bytes,
    pub width: u32,
    /// The value stands to the left of the blanks that fill its width.
    pub left: bool,
}

/// What stands in a format: a byte for itself, or a field.
#[derive(Drop)]
pub enum Piece {
    Byte(u8),
    Field(Shown),
}

/// A list of these.
#[derive(Drop)]
pub struct Pieces {
    items: Vec<Piece>,
}

impl Model for Pieces {
    ghost Value = { List Piece };

    ghost view = { λ p. p.items.items };
}

impl Pieces {
    pub(crate) fn new(alloc: Global) -> Pieces
        ensures { result ≡ [] }
    {
        Pieces {
            items: Vec::new(alloc),
        }
    }

    pub(crate) fn push(&mut self, piece: Piece) -> Result<(), AllocError>
        ensures ok { OnOk result (self.new ≡ self.old ++ piece ∷ []) }
        ensures err { OnErr result (self.new ≡ self.old) }
    {
        self.items.push(piece)?;
        Ok(())
    }

    pub fn as_slice(&self) -> &[Piece]
        ensures { result.now ≡ self.now }
    {
        self.items.as_slice()
    }
}

/// The letters of a name, as they are read.
#[derive(Drop)]
pub(crate) struct Letters {
    items: Vec<u8>,
}

impl Model for Letters {
    ghost Value = { List ℕ };

    ghost view = { λ l. l.items.items };
}

impl Letters {
    pub(crate) fn new(alloc: Global) -> Letters
        ensures { result ≡ [] }
    {
        Letters {
            items: Vec::new(alloc),
        }
    }

    pub(crate) fn push(&mut self, letter: u8) -> Result<(), AllocError>
        ensures ok { OnOk result (self.new ≡ self.old ++ letter ∷ []) }
        ensures err { OnErr result (self.new ≡ self.old) }
    {
        self.items.push(letter)?;
        Ok(())
    }

    pub(crate) fn into_bytes(self) -> Bytes
        ensures { result ≡ self }
    {
        Bytes::new(self.items)
    }
}
