// What a file holds.
ghost use Rattle.std.specs.Prelude.{◌≡◌, ◌<◌, ◌^◌, ℕ, List, IfErr, IfOk, IfSome, length, option_map, unwrap_or};
ghost use Rattle.md5.specs.Md5.{md5};

use crate::lent::Lent;
use md5::{Digest, Md5};
use std::alloc::{AllocError, Global};
use std::marker::Model;
use texts::Bytes;

/// When a file was last modified: seconds since the beginning of 1970, and nanoseconds.
#[derive(Clone, Copy, Debug, PartialEq)]
pub struct Modified {
    pub seconds: i64,
    pub nanoseconds: u32,
}

/// The bytes of a file, in memory or lent, and when it was last modified, where that is to be kept. Nothing compares times.
#[derive(Drop)]
pub struct Content {
    // none where the file is lent
    bytes: Bytes,
    lent: Option<Lent>,
    modified: Option<Modified>,
}

impl Model for Content {
    ghost Value = { List ℕ };

    ghost view = { λ c. unwrap_or c.lent c.bytes };
}

impl Content {
    /// What is written now.
    pub fn new(items: Vec<u8>) -> Content
        ensures { result ≡ items.items }
    {
        Content {
            bytes: Bytes::new(items),
            lent: None,
            modified: None,
        }
    }

    /// What was last modified then.
    pub fn dated(items: Vec<u8>, modified: Modified) -> Content
        ensures { result ≡ items.items }
    {
        Content {
            bytes: Bytes::new(items),
            lent: None,
            modified: Some(modified),
        }
    }

    /// The same of a file that isn't in memory.
    pub fn lent(alloc: Global, lent: Lent, modified: Modified) -> Content
        ensures { result ≡ lent }
    {
        Content {
            bytes: Bytes::new(Vec::new(alloc)),
            lent: Some(lent),
            modified: Some(modified),
        }
    }

    pub fn from_slice(alloc: Global, bytes: &[u8]) -> Result<Content, AllocError>
        ensures { IfOk result (λ c. c ≡ bytes.now) }
    {
        Ok(Content::new(Vec::from_slice(alloc, bytes)?))
    }

    /// The bytes, where they are in memory; else it counts as want of memory for them.
    pub fn held(&self) -> Result<&[u8], AllocError>
        ensures bytes { IfOk result (λ bytes. bytes.now ≡ self.now) }
        ensures many { IfErr result (λ fault. 2 ^ 26 < length self.now) }
    {
        match &self.lent {
            None => Ok(self.bytes.as_slice()),
            Some(lent) => {
                lent.law();
                Err(AllocError)
            }
        }
    }

    /// The file that has the bytes, where they aren't in memory.
    pub fn source(&self) -> Option<&Lent>
        ensures { IfSome result (λ lent. lent.now ≡ self.now) }
    {
        self.lent.as_ref()
    }

    /// How many bytes they are.
    pub fn length(&self) -> u64
        ensures { result ≡ length self.now }
    {
        match &self.lent {
            Some(lent) => lent.length(),
            None => self.bytes.as_slice().len() as u64,
        }
    }

    /// Their digest (RFC 1321).
    pub fn digest(&self) -> [u8; 16]
        ensures { result ≡ md5 self.now }
    {
        match &self.lent {
            Some(lent) => lent.digest(),
            None => <Md5 as Digest>::digest(self.bytes.as_slice()),
        }
    }

    /// When it was last modified, where a file that is written with it is to keep that.
    pub fn modified(&self) -> Option<Modified> {
        self.modified
    }

    pub fn copy(&self) -> Result<Content, AllocError>
        ensures { IfOk result (λ c. c ≡ self.now) }
    {
        let lent = match &self.lent {
            Some(lent) => Some(lent.copy()?),
            None => None,
        };
        Ok(Content {
            bytes: self.bytes.copy()?,
            lent,
            modified: self.modified,
        })
    }
}
