// What was read of a file and isn't kept. It takes no memory, and only clauses read it.
ghost use Rattle.std.specs.Prelude.{◌≡◌, ◌++◌, [], ℕ, List};
ghost use Rattle.std.specs.Borrow.{ftrue};

use std::marker::Model;

/// A part of a file's bytes.
#[derive(Drop)]
pub struct Piece {
    pub bytes: Vec<u8>,
}

/// All bytes so far.
#[derive(Drop)]
pub struct Heard {
    pub ghost bytes: { List ℕ },
}

impl Model for Heard {
    ghost also_owns = { λ _. ftrue };
}

impl Heard {
    pub(crate) fn new() -> Heard
        ensures { result.bytes ≡ [] }
    {
        Heard {}
    }

    pub(crate) fn with(&self, _piece: &Piece) -> Heard
        ensures { result.bytes ≡ self.now.bytes ++ _piece.now.bytes.items }
    {
        Heard {}
    }
}
