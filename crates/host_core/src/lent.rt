// A file whose bytes aren't in memory.
ghost use Rattle.std.specs.Prelude.{◌≡◌, ◌<◌, ◌++◌, ◌^◌, [], ℕ, List, IfOk, length};
ghost use Rattle.md5.specs.Md5.{md5};

use crate::heard::{Heard, Piece};
use std::alloc::{AllocError, Global};
use std::marker::Model;

/// A file that is lent has more bytes than this.
pub const LEAST_LENT: u64 = 1 << 26;

/// A file that was read and isn't in memory. Whoever wants its bytes reads it once more, and nobody is to write it meanwhile.
#[derive(Drop)]
pub struct Lent {
    alloc: Global,
    place: String,
    count: u64,
    digest: [u8; 16],
    heard: Heard,
}

impl Model for Lent {
    ghost Value = { List ℕ };

    ghost view = { λ l. l.heard.bytes };

    ghost invariant = { λ l. (l.digest ≡ md5 l.heard.bytes) × ((l.count ≡ length l.heard.bytes)
        × (2 ^ 26 < length l.heard.bytes)) };
}

impl Lent {
    pub(crate) fn new(
        alloc: Global,
        place: String,
        count: u64,
        digest: [u8; 16],
        heard: Heard,
    ) -> Lent
        requires digest { digest ≡ md5 heard.bytes }
        requires count { count ≡ length heard.bytes }
        requires large { 2 ^ 26 < length heard.bytes }
        ensures { result ≡ heard.bytes }
    {
        Lent {
            alloc,
            place,
            count,
            digest,
            heard,
        }
    }

    /// What holds of each such file.
    pub(crate) fn law(&self)
        ensures { 2 ^ 26 < length self.now }
    {
        let _ = &self.heard;
    }

    /// Its path, as the system reads it.
    pub fn place(&self) -> &str {
        self.place.as_str()
    }

    /// How many bytes it has.
    pub fn length(&self) -> u64
        ensures { result ≡ length self.now }
    {
        self.count
    }

    /// Their digest (RFC 1321).
    pub fn digest(&self) -> [u8; 16]
        ensures { result ≡ md5 self.now }
    {
        self.digest
    }

    pub fn copy(&self) -> Result<Lent, AllocError>
        ensures { IfOk result (λ l. l ≡ self.now) }
    {
        let nothing = Piece {
            bytes: Vec::new(self.alloc),
        };
        Ok(Lent {
            alloc: self.alloc,
            place: self.place.clone()?,
            count: self.count,
            digest: self.digest,
            heard: self.heard.with(&nothing),
        })
    }
}
