// Reading the directory of notes.
ghost use Rattle.std.specs.Prelude.{◌≡◌, ◌<◌, ◌≤◌, ◌+◌, ◌++◌, false, true, get_or, ℕ, List, Some, IfOk, IfErr, IfSome, IsTrue, OnOk, length};
ghost use Rattle.host_core.specs.Tree.{IsListing};
ghost use Rattle.host_core.specs.Host.{Needs, Reads, Silent, Tells};
ghost use Rattle.host_core.specs.World.{World};
ghost use Rattle.administration.specs.Fault.{CountsAdministration};
ghost use Rattle.administration.specs.Directories.{HasBadName};
ghost use Rattle.administration.specs.Files.{NoDirectory};
ghost use Rattle.administration.specs.Places.{temporary, updates_path};
ghost use Rattle.administration.specs.declared.fault.AdministrationFault.TheVariants.{Device, Declined};
ghost use Rattle.status_db.specs.Notes as place;
ghost use Rattle.status_db.specs.Notes.{IsNoteTaken, digits};
ghost use Rattle.status_db.specs.NoteReading.{AreMarked, AreNumbersTaken, HasMarks, HasNone, IsNext, IsFileDamage, IsNameDamage, IsNotesDamage, IsNumberDamage, IsNumberTaken, IsNumbersDamage, IsSpareDamage};

use crate::note_paths::{note_path, note_spare};
use crate::note_reading::take_note;
use crate::table::Table;
use administration::{AdministrationFault, Standing, UPDATES, look};
use host_core::{Host, Listing, RootPath};
use std::alloc::{AllocError, Global};
use texts::Text;

// How many numbers four digits give.
const NUMBERS: usize = 10000;

// The number that a name begins with. What follows is not looked at: a number too many does no harm,
// since only its own file is read.
fn number_in(name: &[u8]) -> Option<usize>
    ensures some { IfSome result (λ n. n < 10000) }
    ensures none { (n : ℕ) (tail : List ℕ) → n < 10000 → name.now ≡ digits n ++ tail
        → result ≡ Some n }
{
    if name.len() < 4 {
        return None;
    }
    let thousands = name[0].wrapping_sub(b'0');
    let hundreds = name[1].wrapping_sub(b'0');
    let tens = name[2].wrapping_sub(b'0');
    let ones = name[3].wrapping_sub(b'0');
    if thousands > 9 || hundreds > 9 || tens > 9 || ones > 9 {
        return None;
    }
    Some(thousands as usize * 1000 + hundreds as usize * 100 + tens as usize * 10 + ones as usize)
}

// Marks the number that a name begins with.
fn mark(marks: &mut Vec<bool>, name: &[u8])
    requires { length marks.old.items ≡ 10000 }
    ensures length { length marks.new.items ≡ 10000 }
    ensures less { (n : ℕ) → get_or marks.new.items n false ≡ false → get_or marks.old.items n false
        ≡ false }
    ensures marked { (n : ℕ) (tail : List ℕ) → n < 10000 → name.now ≡ digits n ++ tail
        → get_or marks.new.items n false ≡ true }
{
    match number_in(name) {
        Some(number) => {
            marks[number] = true;
        }
        None => {}
    }
}

// A mark for each number that a name begins with.
fn marks_of(alloc: Global, names: &[Text]) -> Result<Vec<bool>, AllocError>
    ensures { IfOk result (λ marks. HasMarks marks.items names.now) }
{
    let mut marks = vec![in alloc; false; NUMBERS]?;
    for name in names {
        mark(&mut marks, name.as_str().as_bytes());
    }
    Ok(marks)
}

// The numbers that the names in the directory begin with.
fn marks_in(
    alloc: Global,
    directory: RootPath,
    listing: &Listing,
) -> Result<Vec<bool>, AdministrationFault>
    requires { directory ≡ updates_path }
    ensures marks { (w : World) → IsListing w updates_path listing.now.names listing.now.bad → IfOk
        result (λ marks. AreMarked marks.items w) }
    ensures all { IfOk result (λ marks. length marks.items ≡ 10000) }
    ensures text { (w : World) → IsListing w updates_path listing.now.names listing.now.bad → OnOk
        result (HasBadName w updates_path → ⊥) }
    ensures damage { (w : World) → IsListing w updates_path listing.now.names listing.now.bad
        → IfErr result (IsNameDamage w) }
    ensures device { IfErr result (λ fault. fault ≡ Device → ⊥) }
    ensures declined { IfErr result (λ fault. fault ≡ Declined → ⊥) }
{
    if listing.bad {
        return Err(AdministrationFault::Damaged {
            file: directory,
            line: 0,
        });
    }
    Ok(marks_of(alloc, listing.names.as_slice())?)
}

fn list_notes<H: Host>(alloc: Global, host: &mut H) -> Result<Vec<bool>, AdministrationFault>
    ensures marks { Tells result (λ marks w. AreMarked marks.items w) (H.state host.old)
        (H.state host.new) }
    ensures all { IfOk result (λ marks. length marks.items ≡ 10000) }
    ensures text { Tells result (λ marks w. HasBadName w updates_path → ⊥) (H.state host.old)
        (H.state host.new) }
    ensures damage { IsTrue (H.state host.new).honest
        → IfErr result (IsNameDamage (H.state host.old).world) }
    ensures reads { Reads (H.state host.old) (H.state host.new) }
    ensures silent { Silent (H.state host.old) (H.state host.new) }
    ensures counts { CountsAdministration (H.state host.old) (H.state host.new) result }
{
    let directory = RootPath::from_str(alloc, UPDATES)?;
    let listing = host.list(&directory)?;
    marks_in(alloc, directory, &listing)
}

// Takes what stands at a note's place into the table.
fn read_at<H: Host>(
    alloc: Global,
    host: &mut H,
    path: RootPath,
    table: &mut Table,
) -> Result<(), AdministrationFault>
    ensures taken { IsTrue (H.state host.new).honest → OnOk
        result (IsNoteTaken ((H.state host.old).world path) table.old table.new) }
    ensures damage { IsTrue (H.state host.new).honest
        → IfErr result (IsFileDamage (H.state host.old).world path) }
    ensures reads { Reads (H.state host.old) (H.state host.new) }
    ensures silent { Silent (H.state host.old) (H.state host.new) }
    ensures counts { CountsAdministration (H.state host.old) (H.state host.new) result }
{
    let node = host.node(&path)?;
    take_note(alloc, path, node, table)
}

// No directory may be where a note is written aside.
fn check_aside<H: Host>(host: &mut H, path: RootPath) -> Result<(), AdministrationFault>
    ensures free { IsTrue (H.state host.new).honest → OnOk
        result (NoDirectory ((H.state host.old).world path)) }
    ensures damage { IsTrue (H.state host.new).honest
        → IfErr result (IsSpareDamage (H.state host.old).world path) }
    ensures reads { Reads (H.state host.old) (H.state host.new) }
    ensures silent { Silent (H.state host.old) (H.state host.new) }
    ensures counts { CountsAdministration (H.state host.old) (H.state host.new) result }
{
    match look(host, &path)? {
        Standing::Directory => Err(AdministrationFault::Damaged {
            file: path,
            line: 0,
        }),
        Standing::Nothing => Ok(()),
        Standing::Loose => Ok(()),
    }
}

// Takes the note of a number into the table.
#[tactic(auto, using(host_core::proofs::Moments::reads_then))]
fn read_number<H: Host>(
    alloc: Global,
    host: &mut H,
    number: u16,
    table: &mut Table,
) -> Result<(), AdministrationFault>
    requires { number < 10000 }
    ensures taken { IsTrue (H.state host.new).honest → OnOk
        result (IsNumberTaken (H.state host.old).world number table.old table.new) }
    ensures damage { IsTrue (H.state host.new).honest
        → IfErr result (IsNumberDamage (H.state host.old).world number) }
    ensures reads { Reads (H.state host.old) (H.state host.new) }
    ensures silent { Silent (H.state host.old) (H.state host.new) }
    ensures counts { CountsAdministration (H.state host.old) (H.state host.new) result }
{
    let path = note_path(alloc, number)?;
    read_at(alloc, host, path, table)?;
    let spare = note_spare(alloc, number)?;
    check_aside(host, spare)
}

// Takes the note of a number into the table, if it is marked, and tells the number of the next one.
fn read_if_marked<H: Host>(
    alloc: Global,
    host: &mut H,
    marked: bool,
    number: u16,
    count: u16,
    table: &mut Table,
) -> Result<u16, AdministrationFault>
    requires number { number < 10000 }
    requires count { count ≤ number }
    requires none { marked ≡ false → Needs (H.state host.old) (HasNone number) }
    ensures taken { IsTrue (H.state host.new).honest → IfOk
        result (λ next. IsNext (H.state host.old).world number count next table.old table.new) }
    ensures within { IfOk result (λ next. next ≤ number + 1) }
    ensures damage { IsTrue (H.state host.new).honest
        → IfErr result (IsNumberDamage (H.state host.old).world number) }
    ensures reads { Reads (H.state host.old) (H.state host.new) }
    ensures silent { Silent (H.state host.old) (H.state host.new) }
    ensures counts { CountsAdministration (H.state host.old) (H.state host.new) result }
{
    if !marked {
        return Ok(count);
    }
    read_number(alloc, host, number, table)?;
    Ok(number + 1)
}

// Takes all notes into the table, the greater number over the smaller, and tells the number of the
// next one.
#[tactic(auto, using(host_core::proofs::Moments::reads_then))]
fn read_marked<H: Host>(
    alloc: Global,
    host: &mut H,
    marks: &[bool],
    table: &mut Table,
) -> Result<u16, AdministrationFault>
    requires marked { Needs (H.state host.old) (AreMarked marks.now) }
    requires all { length marks.now ≡ 10000 }
    ensures taken { IsTrue (H.state host.new).honest → IfOk
        result (λ count. AreNumbersTaken (H.state host.old).world count 10000 table.old table.new) }
    ensures within { IfOk result (λ count. count ≤ 10000) }
    ensures damage { IsTrue (H.state host.new).honest
        → IfErr result (IsNumbersDamage (H.state host.old).world) }
    ensures reads { Reads (H.state host.old) (H.state host.new) }
    ensures silent { Silent (H.state host.old) (H.state host.new) }
    ensures counts { CountsAdministration (H.state host.old) (H.state host.new) result }
{
    let mut count = 0;
    for number in 0..10000 {
        let marked = marks[number as usize];
        count = read_if_marked(alloc, host, marked, number, count, table)?;
    }
    Ok(count)
}

/// Takes all notes into a table, and tells the number of the next one.
#[tactic(auto, using(host_core::proofs::Moments::reads_then))]
pub(crate) fn read_notes<H: Host>(
    alloc: Global,
    host: &mut H,
    table: &mut Table,
) -> Result<u16, AdministrationFault>
    ensures taken { IsTrue (H.state host.new).honest → IfOk
        result (λ count. AreNumbersTaken (H.state host.old).world count 10000 table.old table.new) }
    ensures text { Tells result (λ count w. HasBadName w updates_path → ⊥) (H.state host.old)
        (H.state host.new) }
    ensures within { IfOk result (λ count. count ≤ 10000) }
    ensures damage { IsTrue (H.state host.new).honest
        → IfErr result (IsNotesDamage (H.state host.old).world) }
    ensures reads { Reads (H.state host.old) (H.state host.new) }
    ensures silent { Silent (H.state host.old) (H.state host.new) }
    ensures counts { CountsAdministration (H.state host.old) (H.state host.new) result }
{
    let marks = list_notes(alloc, host)?;
    read_marked(alloc, host, marks.as_slice(), table)
}
