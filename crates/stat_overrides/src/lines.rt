// What a line of the file says.
ghost use Rattle.std.specs.Prelude.{◌≡◌, IfOk, option_map};
ghost use Rattle.stat_overrides.specs.Lines.{is_listed, override_of, owner_of, path_in, words_in, words_of};

use crate::words::{cut_at, id_in, mode_in};
use name_tables::Named;
use std::alloc::{AllocError, Global};
use std::str;
use texts::{Bytes, Text};

/// A user or a group, by number or by name.
#[derive(Drop)]
pub enum Owner {
    Number(u32),
    Name(Bytes),
}

/// The access of a path. A mode has the 12 bits for permissions, those for set-id among them.
#[derive(Drop)]
pub struct Override {
    pub path: Text,
    pub user: Owner,
    pub group: Owner,
    pub mode: u16,
}

impl Named for Override {
    ghost called = { λ o. o.path };

    fn name(&self) -> &Text {
        &self.path
    }
}

// The parts of a line.
#[derive(Clone, Copy)]
struct Words<'a> {
    user: &'a [u8],
    group: &'a [u8],
    mode: &'a [u8],
    path: &'a [u8],
}

fn words_in(line: &[u8]) -> Option<Words<'_>>
    ensures { option_map words_of result ≡ words_in line.now }
{
    let Some((user, behind)) = cut_at(b' ', line) else {
        return None;
    };
    let Some((group, behind)) = cut_at(b' ', behind) else {
        return None;
    };
    let Some((mode, path)) = cut_at(b' ', behind) else {
        return None;
    };
    Some(Words {
        user,
        group,
        mode,
        path,
    })
}

// `#` and a number, or else a name.
fn owner_of(alloc: Global, word: &[u8]) -> Result<Option<Owner>, AllocError>
    ensures { IfOk result (λ owner. owner ≡ owner_of word.now) }
{
    if let Some((first, digits)) = word.split_first() {
        if *first == b'#' {
            return match id_in(digits) {
                Some(number) => Ok(Some(Owner::Number(number))),
                None => Ok(None),
            };
        }
    }
    Ok(Some(Owner::Name(Bytes::from_slice(alloc, word)?)))
}

// Whether a path is written as lists write them.
fn is_listed(path: &[u8]) -> bool
    ensures { result ≡ is_listed path.now }
{
    path.starts_with(b"/") && !path.starts_with(b"//") && !path.starts_with(b"/./")
}

fn path_in(alloc: Global, path: &[u8]) -> Result<Option<Text>, AllocError>
    ensures { IfOk result (λ p. p ≡ path_in path.now) }
{
    if !is_listed(path) {
        return Ok(None);
    }
    match str::from_utf8(path) {
        Ok(path) => Ok(Some(Text::from_str(alloc, path)?)),
        Err(_) => Ok(None),
    }
}

/// What a line says, if it says anything.
pub(crate) fn override_of(alloc: Global, line: &[u8]) -> Result<Option<Override>, AllocError>
    ensures { IfOk result (λ o. o ≡ override_of line.now) }
{
    let Some(words) = words_in(line) else {
        return Ok(None);
    };
    let Some(mode) = mode_in(words.mode) else {
        return Ok(None);
    };
    let Some(user) = owner_of(alloc, words.user)? else {
        return Ok(None);
    };
    let Some(group) = owner_of(alloc, words.group)? else {
        return Ok(None);
    };
    let Some(path) = path_in(alloc, words.path)? else {
        return Ok(None);
    };
    Ok(Some(Override {
        path,
        user,
        group,
        mode,
    }))
}
