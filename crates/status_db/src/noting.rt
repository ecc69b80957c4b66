// Noting a record in a file of its own.
ghost use Rattle.std.specs.Prelude.{◌≡◌, ◌+◌, ◌<◌, ◌≤◌, List, true, false, OnOk, OnErr, cond, is_some};
ghost use Rattle.host_core.specs.World.{IsFile, World};
ghost use Rattle.host_core.specs.Host.{AtEachMoment, Counts, Leaves, Needs, Silent, State};
ghost use Rattle.host_core.specs.Loss.{IsOnDisk, IsLater};
ghost use Rattle.administration.specs.Files.{IsReplaced, IsReplacing, NoDirectory};
ghost use Rattle.texts.specs.PackageNames.{is_package_name};
ghost use Rattle.status_records.specs.declared.record.Record.{Record as ARecord};
ghost use Rattle.status_db.specs.Notes as place;
ghost use Rattle.status_db.specs.Notes.{Note};
ghost use Rattle.status_db.specs.Noting.{AreNoted, IsEntered, IsNoteFile, IsNoting, IsPlaced, entered_in, note_number, writes_note};
ghost use Rattle.status_records.specs.Records.{record_in, put_record, drop_record};
ghost use Rattle.status_db.specs.Held.{AreKept, IsUnblocked, is_record_place};
ghost use Rattle.status_records.specs.Words.{is_not_installed};
ghost use Rattle.scattered_losses.specs.Apart.{GoBehindBarrier, WorksApart};
ghost use Rattle.scattered_losses.specs.Turns.{GoByTurns, TakeTurns};

use crate::note_paths::note_path;
use crate::note_text::{gone_node, note_node};
use crate::room::make_room;
use crate::table::Table;
use administration::replace;
use host_core::{Host, HostFault, Node};
use status_records::Record;
use std::alloc::Global;
use texts::Text;

// Writes the note of a number.
fn replace_note<H: Host>(
    alloc: Global,
    host: &mut H,
    number: u16,
    node: &Node,
) -> Result<(), HostFault>
    requires file { IsFile node.now }
    requires number { number < 10000 }
    requires unblocked { Needs (H.state host.old) IsUnblocked }
    requires target { Needs (H.state host.old) (λ w. NoDirectory (w (place.note_path number))) }
    ensures replaced { Leaves result (IsReplaced (place.note_path number) node.now)
        (H.state host.old) (H.state host.new) }
    ensures any_moment { AtEachMoment (IsReplacing (place.note_path number) node.now)
        (H.state host.old) (H.state host.new) }
    ensures silent { Silent (H.state host.old) (H.state host.new) }
    ensures counts { Counts (H.state host.old) (H.state host.new) result }
{
    let path = note_path(alloc, number)?;
    replace(host, &path, node)
}

// Writes the note of a number. All that was done is on the disk before the note says so, and the note
// before anything more is done.
fn write_note<H: Host>(
    alloc: Global,
    host: &mut H,
    number: u16,
    node: &Node,
) -> Result<(), HostFault>
    requires file { IsFile node.now }
    requires number { number < 10000 }
    requires unblocked { Needs (H.state host.old) IsUnblocked }
    requires target { Needs (H.state host.old) (λ w. NoDirectory (w (place.note_path number))) }
    ensures replaced { Leaves result (IsReplaced (place.note_path number) node.now)
        (H.state host.old) (H.state host.new) }
    ensures any_moment { AtEachMoment (IsReplacing (place.note_path number) node.now)
        (H.state host.old) (H.state host.new) }
    ensures on_disk { OnOk result (IsOnDisk (H.state host.new).events) }
    ensures turns { (begun : State) → IsLater begun (H.state host.old)
        → TakeTurns is_record_place begun (H.state host.old)
        → GoByTurns is_record_place begun (H.state host.new) }
    ensures waits { GoBehindBarrier is_record_place (H.state host.old) (H.state host.new) }
    ensures silent { Silent (H.state host.old) (H.state host.new) }
    ensures counts { Counts (H.state host.old) (H.state host.new) result }
{
    host.barrier()?;
    replace_note(alloc, host, number, node)?;
    host.barrier()
}

// Writes the next note.
fn write_next<H: Host>(
    alloc: Global,
    host: &mut H,
    table: &Table,
    notes: &mut u16,
    node: &Node,
) -> Result<(), HostFault>
    requires file { IsFile node.now }
    requires count { notes.old ≤ 10000 }
    requires kept { Needs (H.state host.old) (AreKept table.now notes.old) }
    ensures number { OnOk result (notes.new ≡ note_number notes.old + 1) }
    ensures within { notes.new ≤ 10000 }
    ensures noted { (note : Note) (after : List ARecord) → IsNoteFile node.now note
        → IsEntered note table.now after → Leaves result (AreNoted after notes.new)
        (H.state host.old) (H.state host.new) }
    ensures placed { Leaves result (IsPlaced table.now notes.old) (H.state host.old)
        (H.state host.new) }
    ensures any_moment { (note : Note) (after : List ARecord) → IsNoteFile node.now note
        → IsEntered note table.now after → AtEachMoment (IsNoting table.now after)
        (H.state host.old) (H.state host.new) }
    ensures on_disk { OnOk result (IsOnDisk (H.state host.new).events) }
    ensures turns { GoByTurns is_record_place (H.state host.old) (H.state host.new) }
    ensures waits { GoBehindBarrier is_record_place (H.state host.old) (H.state host.new) }
    ensures silent { Silent (H.state host.old) (H.state host.new) }
    ensures counts { Counts (H.state host.old) (H.state host.new) result }
{
    make_room(alloc, host, table, notes)?;
    write_note(alloc, host, *notes, node)?;
    *notes += 1;
    Ok(())
}

// Writes the note of a record.
fn write_record<H: Host>(
    alloc: Global,
    host: &mut H,
    table: &Table,
    notes: &mut u16,
    entry: &Record,
) -> Result<(), HostFault>
    requires stands { is_not_installed entry.now.state ≡ false }
    requires count { notes.old ≤ 10000 }
    requires kept { Needs (H.state host.old) (AreKept table.now notes.old) }
    ensures number { OnOk result (notes.new ≡ note_number notes.old + 1) }
    ensures within { notes.new ≤ 10000 }
    ensures noted { Leaves result (AreNoted (put_record entry.now table.now) notes.new)
        (H.state host.old) (H.state host.new) }
    ensures placed { Leaves result (IsPlaced table.now notes.old) (H.state host.old)
        (H.state host.new) }
    ensures any_moment { AtEachMoment (IsNoting table.now (put_record entry.now table.now))
        (H.state host.old) (H.state host.new) }
    ensures on_disk { OnOk result (IsOnDisk (H.state host.new).events) }
    ensures turns { GoByTurns is_record_place (H.state host.old) (H.state host.new) }
    ensures apart { WorksApart result is_record_place (H.state host.old) (H.state host.new) }
    ensures silent { Silent (H.state host.old) (H.state host.new) }
    ensures counts { Counts (H.state host.old) (H.state host.new) result }
{
    table.law();
    let node = note_node(alloc, entry)?;
    write_next(alloc, host, table, notes, &node)
}

// Writes the note that a package has no record any more.
fn write_gone<H: Host>(
    alloc: Global,
    host: &mut H,
    table: &Table,
    notes: &mut u16,
    name: &Text,
) -> Result<(), HostFault>
    requires named { is_package_name name.now ≡ true }
    requires count { notes.old ≤ 10000 }
    requires kept { Needs (H.state host.old) (AreKept table.now notes.old) }
    ensures number { OnOk result (notes.new ≡ note_number notes.old + 1) }
    ensures within { notes.new ≤ 10000 }
    ensures noted { Leaves result (AreNoted (drop_record name.now table.now) notes.new)
        (H.state host.old) (H.state host.new) }
    ensures placed { Leaves result (IsPlaced table.now notes.old) (H.state host.old)
        (H.state host.new) }
    ensures any_moment { AtEachMoment (IsNoting table.now (drop_record name.now table.now))
        (H.state host.old) (H.state host.new) }
    ensures on_disk { OnOk result (IsOnDisk (H.state host.new).events) }
    ensures turns { GoByTurns is_record_place (H.state host.old) (H.state host.new) }
    ensures apart { WorksApart result is_record_place (H.state host.old) (H.state host.new) }
    ensures silent { Silent (H.state host.old) (H.state host.new) }
    ensures counts { Counts (H.state host.old) (H.state host.new) result }
{
    table.law();
    let node = gone_node(alloc, name)?;
    write_next(alloc, host, table, notes, &node)
}

// Writes the note of a record, and puts it into the table.
fn note_record<H: Host>(
    alloc: Global,
    host: &mut H,
    table: &mut Table,
    notes: &mut u16,
    entry: Record,
) -> Result<(), HostFault>
    requires stands { is_not_installed entry.state ≡ false }
    requires count { notes.old ≤ 10000 }
    requires kept { Needs (H.state host.old) (AreKept table.old notes.old) }
    ensures table { OnOk result (table.new ≡ put_record entry table.old) }
    ensures err { OnErr result (table.new ≡ table.old) }
    ensures number { OnOk result (notes.new ≡ note_number notes.old + 1) }
    ensures within { notes.new ≤ 10000 }
    ensures noted { Leaves result (AreNoted table.new notes.new) (H.state host.old)
        (H.state host.new) }
    ensures placed { Leaves result (IsPlaced table.old notes.old) (H.state host.old)
        (H.state host.new) }
    ensures any_moment { AtEachMoment (IsNoting table.old (put_record entry table.old))
        (H.state host.old) (H.state host.new) }
    ensures on_disk { OnOk result (IsOnDisk (H.state host.new).events) }
    ensures turns { GoByTurns is_record_place (H.state host.old) (H.state host.new) }
    ensures apart { WorksApart result is_record_place (H.state host.old) (H.state host.new) }
    ensures silent { Silent (H.state host.old) (H.state host.new) }
    ensures counts { Counts (H.state host.old) (H.state host.new) result }
{
    write_record(alloc, host, table, notes, &entry)?;
    table.put(entry)?;
    Ok(())
}

/// Writes the note that a package has no record any more, and takes it out of the table; nothing is
/// done where it has none.
pub(crate) fn forget_record<H: Host>(
    alloc: Global,
    host: &mut H,
    table: &mut Table,
    notes: &mut u16,
    name: &Text,
) -> Result<(), HostFault>
    requires count { notes.old ≤ 10000 }
    requires kept { Needs (H.state host.old) (AreKept table.old notes.old) }
    ensures table { OnOk result (table.new ≡ drop_record name.now table.old) }
    ensures err { OnErr result (table.new ≡ table.old) }
    ensures number { OnOk result (notes.new ≡ cond (is_some (record_in table.old name.now))
        (note_number notes.old + 1) notes.old) }
    ensures within { notes.new ≤ 10000 }
    ensures noted { Leaves result (AreNoted table.new notes.new) (H.state host.old)
        (H.state host.new) }
    ensures placed { is_some (record_in table.old name.now) ≡ true
        → Leaves result (IsPlaced table.old notes.old) (H.state host.old) (H.state host.new) }
    ensures any_moment { AtEachMoment (IsNoting table.old (drop_record name.now table.old))
        (H.state host.old) (H.state host.new) }
    ensures on_disk { is_some (record_in table.old name.now) ≡ true
        → OnOk result (IsOnDisk (H.state host.new).events) }
    ensures turns { GoByTurns is_record_place (H.state host.old) (H.state host.new) }
    ensures apart { WorksApart result is_record_place (H.state host.old) (H.state host.new) }
    ensures silent { Silent (H.state host.old) (H.state host.new) }
    ensures counts { Counts (H.state host.old) (H.state host.new) result }
{
    if !table.has(name) {
        return Ok(());
    }
    write_gone(alloc, host, table, notes, name)?;
    table.remove(name);
    Ok(())
}

/// Notes a record: one with not-installed takes the package's record out of the table, each other is put
/// into it.
pub(crate) fn enter_record<H: Host>(
    alloc: Global,
    host: &mut H,
    table: &mut Table,
    notes: &mut u16,
    entry: Record,
) -> Result<(), HostFault>
    requires count { notes.old ≤ 10000 }
    requires kept { Needs (H.state host.old) (AreKept table.old notes.old) }
    ensures table { OnOk result (table.new ≡ entered_in entry table.old) }
    ensures err { OnErr result (table.new ≡ table.old) }
    ensures number { OnOk result (notes.new ≡ cond (writes_note entry table.old)
        (note_number notes.old + 1) notes.old) }
    ensures within { notes.new ≤ 10000 }
    ensures noted { Leaves result (AreNoted table.new notes.new) (H.state host.old)
        (H.state host.new) }
    ensures placed { writes_note entry table.old ≡ true
        → Leaves result (IsPlaced table.old notes.old) (H.state host.old) (H.state host.new) }
    ensures any_moment { AtEachMoment (IsNoting table.old (entered_in entry table.old))
        (H.state host.old) (H.state host.new) }
    ensures on_disk { writes_note entry table.old ≡ true
        → OnOk result (IsOnDisk (H.state host.new).events) }
    ensures turns { GoByTurns is_record_place (H.state host.old) (H.state host.new) }
    ensures apart { WorksApart result is_record_place (H.state host.old) (H.state host.new) }
    ensures silent { Silent (H.state host.old) (H.state host.new) }
    ensures counts { Counts (H.state host.old) (H.state host.new) result }
{
    match entry.state.is_not_installed() {
        true => forget_record(alloc, host, table, notes, &entry.name),
        false => note_record(alloc, host, table, notes, entry),
    }
}
