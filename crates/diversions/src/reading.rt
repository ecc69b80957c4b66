// Reading the file.
ghost use Rattle.std.specs.Prelude.{◌≡◌, ◌≢◌, ◌≤◌, ◌+◌, ℕ, List, [], ◌∷◌, ◌++◌, length, true, IfOk, IfErr, IfSome, IfNone, MatchOption, MatchBool};
ghost use Rattle.diversions.specs.declared.entry.Owner.{Owner as AnOwner};
ghost use Rattle.diversions.specs.declared.entry.Diversion.{Diversion as ADiversion};
ghost use Rattle.diversions.specs.declared.reading.TableFault.TheVariants.{NoMemory};
ghost use Rattle.diversions.specs.Entries.{is_owner, IsShipLine, IsEntry, IsTable};
ghost use Rattle.diversions.specs.Lines.{lines_in, owner_line, entry_lines, ReadsAs};
ghost use Rattle.diversions.specs.Reading.{IsTextFault, IsNext};

use crate::entry::{Diversion, Owner};
use crate::lines::cut_line;
use crate::table::Table;
use host_core::ShipPath;
use std::alloc::{AllocError, AllocFailed, Global};
use std::str;
use texts::{Text, package_name};

/// Why a text is no table: a faulty entry, told by its first line.
#[derive(Clone, Copy)]
pub(crate) enum TableFault {
    Line(u64),
    NoMemory,
}

impl From<AllocError> for TableFault {
    ghost from_gives = { λ _ e. e ≡ NoMemory };

    fn from(_: AllocError) -> Self {
        TableFault::NoMemory
    }
}

impl<T: Drop> From<AllocFailed<T>> for TableFault {
    ghost from_gives = { λ _ e. e ≡ NoMemory };

    fn from(_: AllocFailed<T>) -> Self {
        TableFault::NoMemory
    }
}

// The three lines of an entry, and what follows them.
#[derive(Clone, Copy)]
struct EntryLines<'a> {
    path: &'a [u8],
    target: &'a [u8],
    owner: &'a [u8],
    after: &'a [u8],
}

fn first_line(text: &[u8]) -> Option<(&[u8], &[u8])>
    ensures some { IfSome result (λ cut. lines_in text.now ≡ cut.0.now ∷ lines_in cut.1.now) }
    ensures less { IfSome result (λ cut. length cut.1.now + 1 ≤ length text.now) }
    ensures none { IfNone result (lines_in text.now ≡ []) }
{
    if text.is_empty() {
        return None;
    }
    Some(cut_line(text))
}

fn cut_entry(text: &[u8]) -> Option<EntryLines<'_>>
    ensures some { IfSome result
        (λ e. lines_in text.now ≡ e.path.now ∷ e.target.now ∷ e.owner.now ∷ lines_in e.after.now) }
    ensures less { IfSome result (λ e. length e.after.now + 3 ≤ length text.now) }
    ensures none { IfNone result
        ((path target owner : List ℕ) (rest : List (List ℕ))
        → lines_in text.now ≢ path ∷ target ∷ owner ∷ rest) }
{
    let (path, behind) = first_line(text)?;
    let (target, behind) = first_line(behind)?;
    let (owner, after) = first_line(behind)?;
    Some(EntryLines {
        path,
        target,
        owner,
        after,
    })
}

fn ship_path(alloc: Global, line: &[u8]) -> Result<Option<ShipPath>, AllocError>
    ensures { IfOk result
        (λ o. MatchOption o (IsShipLine line.now → ⊥) (λ p. IsShipLine line.now × (p ≡ line.now))) }
{
    let Ok(text) = str::from_utf8(line) else {
        return Ok(None);
    };
    ShipPath::parse(alloc, text)
}

fn owner_of(alloc: Global, line: &[u8]) -> Result<Option<Owner>, AllocError>
    ensures { IfOk result
        (λ o.
        MatchOption o ((owner : AnOwner) → is_owner owner ≡ true → owner_line owner ≢ line.now)
        (λ owner. (is_owner owner ≡ true) × (owner_line owner ≡ line.now))) }
{
    if line == b":".as_slice() {
        return Ok(Some(Owner::Local));
    }
    let Some(name) = package_name(line) else {
        return Ok(None);
    };
    Ok(Some(Owner::Package(Text::from_str(alloc, name)?)))
}

// The entry of three lines, if they are one.
fn entry_of(alloc: Global, lines: &EntryLines<'_>) -> Result<Option<Diversion>, AllocError>
    ensures { IfOk result (λ o. MatchOption o ((d : ADiversion) → IsEntry d
        → entry_lines d ≢ lines.now.path.now ∷ lines.now.target.now ∷ lines.now.owner.now ∷ [])
        (λ d. IsEntry d × (entry_lines d ≡ lines.now.path.now ∷ lines.now.target.now
        ∷ lines.now.owner.now ∷ []))) }
{
    let Some(path) = ship_path(alloc, lines.path)? else {
        return Ok(None);
    };
    let Some(target) = ship_path(alloc, lines.target)? else {
        return Ok(None);
    };
    let Some(owner) = owner_of(alloc, lines.owner)? else {
        return Ok(None);
    };
    if path.as_str() == target.as_str() {
        return Ok(None);
    }
    Ok(Some(Diversion {
        path,
        target,
        owner,
    }))
}

// Whether an entry may stand in the table after those that do.
fn may_follow(table: &Table, entry: &Diversion) -> bool
    requires { IsEntry entry.now }
    ensures { MatchBool result (IsTable (table.now ++ entry.now ∷ []))
        (IsTable (table.now ++ entry.now ∷ []) → ⊥) }
{
    table.law();
    table.is_free(entry.path.as_str()) && table.is_free(entry.target.as_str())
}

// Takes the entry of three lines, if the table may have it.
fn take_entry(alloc: Global, lines: &EntryLines<'_>, table: &mut Table) -> Result<bool, AllocError>
    ensures { IfOk result
        (λ taken.
        IsNext lines.now.path.now lines.now.target.now lines.now.owner.now table.old table.new
        taken) }
{
    let Some(entry) = entry_of(alloc, lines)? else {
        return Ok(false);
    };
    if !may_follow(table, &entry) {
        return Ok(false);
    }
    table.push(entry)?;
    Ok(true)
}

/// The table of a text.
pub(crate) fn read_text(alloc: Global, text: &[u8]) -> Result<Table, TableFault>
    ensures reads { IfOk result (λ table. ReadsAs text.now table) }
    ensures fault { IfErr result (IsTextFault text.now) }
{
    let mut table = Table::new(alloc);
    let mut rest = text;
    let mut number: u64 = 1;
    while !rest.is_empty() {
        let Some(lines) = cut_entry(rest) else {
            return Err(TableFault::Line(number));
        };
        if !take_entry(alloc, &lines, &mut table)? {
            return Err(TableFault::Line(number));
        }
        rest = lines.after;
        number += 3;
    }
    table.law();
    Ok(table)
}
