// The overrides that were read, by their paths.
ghost use Rattle.std.specs.Prelude.{◌≡◌, ◌+◌, None, Some, length, MatchBool, IfOk};
ghost use Rattle.diversions.specs.Lines.{lines_in};
ghost use Rattle.stat_overrides.specs.Overrides.{access_with, is_name, names_group, names_user};
ghost use Rattle.stat_overrides.specs.Reading.{is_ended, table_in, taken};

use crate::lines::{Override, Owner, override_of};
use crate::owners::id_of;
use diversions::cut_line;
use host_core::Access;
use name_tables::{NameTable, find};
use std::alloc::{AllocError, Global};
use texts::Bytes;

/// The overrides of a root, and the texts that give names their numbers: each is empty where no name of
/// its kind stands in them.
#[derive(Drop)]
pub struct Overrides {
    pub table: NameTable<Override>,
    pub users: Bytes,
    pub groups: Bytes,
}

fn is_ended(text: &[u8]) -> bool
    ensures { result ≡ is_ended text.now }
{
    text.is_empty() || text.ends_with(b"\n")
}

fn count_lines(text: &[u8]) -> u64
    ensures { result ≡ length (lines_in text.now) }
{
    let mut rest = text;
    let mut count: u64 = 0;
    while !rest.is_empty() {
        let (_, after) = cut_line(rest);
        rest = after;
        count += 1;
    }
    count
}

// Takes what a line says, where it isn't faulty and its path has none.
fn take_line(
    alloc: Global,
    line: &[u8],
    table: &mut NameTable<Override>,
) -> Result<bool, AllocError>
    ensures { IfOk result (λ b. MatchBool b (taken line.now table.old ≡ Some table.new)
        (taken line.now table.old ≡ None)) }
{
    let Some(found) = override_of(alloc, line)? else {
        return Ok(false);
    };
    if table.get(&found.path).is_some() {
        return Ok(false);
    }
    table.put(found)?;
    Ok(true)
}

/// The overrides of a text, or the number of its first faulty line.
pub(crate) fn table_in(
    alloc: Global,
    text: &[u8],
) -> Result<Result<NameTable<Override>, u64>, AllocError>
    ensures { IfOk result (λ read. read ≡ table_in text.now) }
{
    if !is_ended(text) {
        return Ok(Err(count_lines(text)));
    }
    let mut table = NameTable::new(alloc);
    let mut rest = text;
    let mut number: u64 = 1;
    while !rest.is_empty() {
        let (line, after) = cut_line(rest);
        if !take_line(alloc, line, &mut table)? {
            return Ok(Err(number));
        }
        rest = after;
        number += 1;
    }
    Ok(Ok(table))
}

fn is_name(owner: &Owner) -> bool
    ensures { result ≡ is_name owner.now }
{
    match owner {
        Owner::Number(_) => false,
        Owner::Name(_) => true,
    }
}

/// Whether a user is given by name.
pub(crate) fn names_user(table: &NameTable<Override>) -> bool
    ensures { result ≡ names_user table.now }
{
    for entry in table.as_slice() {
        if is_name(&entry.user) {
            return true;
        }
    }
    false
}

/// Whether a group is given by name.
pub(crate) fn names_group(table: &NameTable<Override>) -> bool
    ensures { result ≡ names_group table.now }
{
    for entry in table.as_slice() {
        if is_name(&entry.group) {
            return true;
        }
    }
    false
}

fn access_with(mode: u16, user: Option<u32>, group: Option<u32>) -> Option<Access>
    ensures { result ≡ access_with mode user group }
{
    match (user, group) {
        (Some(user), Some(group)) => Some(Access { mode, user, group }),
        (Some(_), None) => None,
        (None, _) => None,
    }
}

impl Overrides {
    ghost use Rattle.std.specs.Prelude.{◌≡◌, option_copied};
    ghost use Rattle.name_tables.specs.Tables.{value_in};
    ghost use Rattle.stat_overrides.specs.Overrides.{access_by};
    ghost use Rattle.stat_overrides.specs.Reading.{path_of};

    /// The override of a path as it is listed.
    pub fn entry_at(&self, path: &str) -> Option<&Override>
        ensures { option_copied result ≡ value_in path_of self.now.table path.now }
    {
        self.table.law();
        let entries = self.table.as_slice();
        let at = find(entries, path.as_bytes())?;
        Some(&entries[at])
    }

    /// The access of an override; none where the number of an owner isn't known.
    pub fn access_by(&self, entry: &Override) -> Option<Access>
        ensures { result ≡ access_by self.now entry.now }
    {
        let user = id_of(&entry.user, self.users.as_slice());
        let group = id_of(&entry.group, self.groups.as_slice());
        access_with(entry.mode, user, group)
    }
}
