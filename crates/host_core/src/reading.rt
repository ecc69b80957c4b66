// A file that is read in pieces.
ghost use Rattle.std.specs.Prelude.{◌≡◌, ◌<◌, ◌++◌, ◌^◌, [], ℕ, List, false, true, length};
ghost use Rattle.md5.specs.Md5.{Holds, md5};

use crate::heard::{Heard, Piece};
use crate::lent::Lent;
use md5::{Digest, Md5};
use std::alloc::Global;
use std::marker::Model;

/// The bytes of a file that were read so far, in pieces of which none is kept.
#[derive(Drop)]
pub struct Reading {
    hasher: Md5,
    count: u64,
    heard: Heard,
}

impl Model for Reading {
    ghost Value = { List ℕ };

    ghost view = { λ r. r.heard.bytes };

    ghost invariant = { λ r. Holds r.hasher r.heard.bytes × (r.count ≡ length r.heard.bytes) };
}

impl Reading {
    /// Of a file of which nothing was read.
    pub fn new() -> Reading
        ensures { result ≡ [] }
    {
        Reading {
            hasher: Md5::new(),
            count: 0,
            heard: Heard::new(),
        }
    }

    /// How many bytes they are.
    pub fn length(&self) -> u64
        ensures { result ≡ length self.now }
    {
        self.count
    }

    /// Adds what was read behind them; false where they are too many to be counted.
    pub fn take(&mut self, piece: &Piece) -> bool
        ensures taken { result ≡ true → self.new ≡ self.old ++ piece.now.bytes.items }
        ensures left { result ≡ false → self.new ≡ self.old }
    {
        let Some(count) = self.count.checked_add(piece.bytes.len() as u64) else {
            return false;
        };
        self.hasher.update(piece.bytes.as_slice());
        self.heard = self.heard.with(piece);
        self.count = count;
        true
    }

    /// The file that has these bytes, of which there are many, and which can be read at this place of the system.
    pub fn at(self, alloc: Global, place: String) -> Lent
        requires { 2 ^ 26 < length self }
        ensures { result ≡ self }
    {
        Lent::new(alloc, place, self.count, self.hasher.finalize(), self.heard)
    }
}
