// The numbers of users and groups.
ghost use Rattle.std.specs.Prelude.{◌≡◌};
ghost use Rattle.diversions.specs.Lines.{lines_in};
ghost use Rattle.stat_overrides.specs.Owners.{id_of, number_at, number_behind, number_in};

use crate::lines::Owner;
use crate::words::{cut_at, id_in};
use diversions::cut_line;

// The number behind a name.
fn number_behind(rest: &[u8]) -> Option<u32>
    ensures { result ≡ number_behind rest.now }
{
    let Some((_, behind)) = cut_at(b':', rest) else {
        return None;
    };
    let Some((number, _)) = cut_at(b':', behind) else {
        return None;
    };
    id_in(number)
}

// The number that a line gives a name.
fn number_at(line: &[u8], name: &[u8]) -> Option<u32>
    ensures { result ≡ number_at line.now name.now }
{
    let Some((own, rest)) = cut_at(b':', line) else {
        return None;
    };
    if own != name {
        return None;
    }
    number_behind(rest)
}

// The number that a text gives a name.
fn number_in(text: &[u8], name: &[u8]) -> Option<u32>
    ensures { result ≡ number_in (lines_in text.now) name.now }
{
    let mut rest = text;
    while !rest.is_empty() {
        let (line, after) = cut_line(rest);
        if let Some(number) = number_at(line, name) {
            return Some(number);
        }
        rest = after;
    }
    None
}

/// The number of a user or group, by the text that gives names theirs.
pub(crate) fn id_of(owner: &Owner, text: &[u8]) -> Option<u32>
    ensures { result ≡ id_of text.now owner.now }
{
    match owner {
        Owner::Number(number) => Some(*number),
        Owner::Name(name) => number_in(text, name.as_slice()),
    }
}
