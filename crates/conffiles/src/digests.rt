// MD5 digests of conffiles, as records keep them.
ghost use Rattle.std.specs.Prelude.{◌≡◌, ℕ, List, IfOk, IfSome, is_some};
ghost use Rattle.std.specs.List.{list_all};
ghost use Rattle.md5.specs.Md5.{md5};
ghost use Rattle.hex.specs.Hex.{encode_lower};
ghost use Rattle.conffiles.specs.Digests.{IsDigest, is_lower_digit, is_digest_text};
ghost use Rattle.conffiles.specs.Settling.{digest_at};

use hex::FromHex;
use host_core::{Content, Node};
use md5::Md5;
use std::alloc::{AllocError, Global};
use std::marker::Model;
use texts::Text;

/// The MD5 digest of a file (RFC 1321).
#[derive(Clone, Copy, Debug, PartialEq)]
pub struct Digest {
    bytes: [u8; 16],
}

impl Model for Digest {
    ghost Value = { List ℕ };

    ghost view = { λ d. d.bytes };

    ghost invariant = { λ d. IsDigest d.bytes };

    ghost inverse = { λ bytes. record { bytes = bytes } };
}

fn is_lower_digit(digit: u8) -> bool
    ensures { result ≡ is_lower_digit digit }
{
    digit.is_ascii_digit() || (b'a'..=b'f').contains(&digit)
}

fn are_lower_digits(text: &[u8]) -> bool
    ensures { result ≡ list_all is_lower_digit text.now }
{
    text.iter().all(|digit| is_lower_digit(*digit))
}

impl Digest {
    /// That of a file with these bytes.
    pub fn of(bytes: &[u8]) -> Digest
        ensures { result ≡ md5 bytes.now }
    {
        Digest {
            bytes: <Md5 as md5::Digest>::digest(bytes),
        }
    }

    /// That of what a file holds.
    pub fn of_content(content: &Content) -> Digest
        ensures { result ≡ md5 content.now }
    {
        Digest {
            bytes: content.digest(),
        }
    }

    /// The digest that a text of 32 digits, in lower case, stands for.
    pub fn parse(text: &str) -> Option<Digest>
        ensures exact { is_some result ≡ is_digest_text text.now }
        ensures value { IfSome result (λ d. encode_lower d ≡ text.now) }
        ensures back { (d : List ℕ) → IsDigest d → text.now ≡ encode_lower d → result ≡ Some d }
    {
        if !are_lower_digits(text.as_bytes()) {
            return None;
        }
        match <[u8; 16] as FromHex>::from_hex(text) {
            Ok(bytes) => Some(Digest { bytes }),
            Err(_) => None,
        }
    }

    /// Its 32 digits, in lower case.
    pub fn text(&self, alloc: Global) -> Result<Text, AllocError>
        ensures { IfOk result (λ text. text ≡ encode_lower self.now) }
    {
        Ok(Text::new(hex::encode(alloc, &self.bytes)?))
    }

    /// What holds of each digest.
    pub fn law(&self)
        ensures { IsDigest self.now }
    {
        let _ = &self.bytes;
    }
}

/// The digest of what stands at a path, where that is a file.
pub fn digest_of(node: &Option<Node>) -> Option<Digest>
    ensures { result ≡ digest_at node.now }
{
    match node {
        Some(Node::File { bytes, .. }) => Some(Digest::of_content(bytes)),
        Some(Node::Dir { .. }) => None,
        Some(Node::Link { .. }) => None,
        None => None,
    }
}
