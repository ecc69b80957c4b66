// Merging all notes into the status file.
ghost use Rattle.std.specs.Prelude.{◌≡◌, ◌<◌, ◌≤◌, ℕ};
ghost use Rattle.host_core.specs.World.{IsFile};
ghost use Rattle.host_core.specs.Host.{AtEachMoment, Counts, Leaves, Needs, Silent, State};
ghost use Rattle.administration.specs.Files.{NoDirectory, IsDropped, IsDropping};
ghost use Rattle.administration.specs.Places.{status_path};
ghost use Rattle.status_db.specs.Notes as place;
ghost use Rattle.status_db.specs.Noting.{AreMerged, IsMerging};
ghost use Rattle.status_db.specs.Held.{AreKept, IsUnblocked, is_record_place};
ghost use Rattle.status_db.specs.Taking.{HasReplacedNotes, IsReplacingNotes, IsTaken, IsTakingNotes};
ghost use Rattle.host_core.specs.Loss.{IsLater};
ghost use Rattle.scattered_losses.specs.Turns.{GoByTurns, TakeTurns};

use crate::note_paths::note_path;
use crate::table::Table;
use administration::{STATUS, discard, replace};
use host_core::{Host, HostFault, Node, RootPath};
use status_records::status_node;
use std::alloc::Global;

fn discard_note<H: Host>(alloc: Global, host: &mut H, number: u16) -> Result<(), HostFault>
    requires number { number < 10000 }
    requires file { Needs (H.state host.old) (λ w. NoDirectory (w (place.note_path number))) }
    ensures dropped { Leaves result (IsDropped (place.note_path number)) (H.state host.old)
        (H.state host.new) }
    ensures any_moment { AtEachMoment (IsDropping (place.note_path number)) (H.state host.old)
        (H.state host.new) }
    ensures silent { Silent (H.state host.old) (H.state host.new) }
    ensures counts { Counts (H.state host.old) (H.state host.new) result }
{
    let path = note_path(alloc, number)?;
    discard(host, &path)
}

// Takes the notes below a number away, the smallest first.
fn take_notes<H: Host>(alloc: Global, host: &mut H, count: u16) -> Result<(), HostFault>
    requires count { count ≤ 10000 }
    requires files { Needs (H.state host.old) (λ w. (n : ℕ) → n < count
        → NoDirectory (w (place.note_path n))) }
    ensures taken { Leaves result (IsTaken count) (H.state host.old) (H.state host.new) }
    ensures any_moment { AtEachMoment IsTakingNotes (H.state host.old) (H.state host.new) }
    ensures silent { Silent (H.state host.old) (H.state host.new) }
    ensures counts { Counts (H.state host.old) (H.state host.new) result }
{
    for number in 0..count {
        discard_note(alloc, host, number)?;
    }
    Ok(())
}

// Takes the notes below a number away, once what was written in their place is on the disk.
fn take_merged<H: Host>(alloc: Global, host: &mut H, count: u16) -> Result<(), HostFault>
    requires count { count ≤ 10000 }
    requires files { Needs (H.state host.old) (λ w. (n : ℕ) → n < count
        → NoDirectory (w (place.note_path n))) }
    ensures taken { Leaves result (IsTaken count) (H.state host.old) (H.state host.new) }
    ensures any_moment { AtEachMoment IsTakingNotes (H.state host.old) (H.state host.new) }
    ensures turns { (begun : State) → IsLater begun (H.state host.old)
        → TakeTurns is_record_place begun (H.state host.old)
        → GoByTurns is_record_place begun (H.state host.new) }
    ensures silent { Silent (H.state host.old) (H.state host.new) }
    ensures counts { Counts (H.state host.old) (H.state host.new) result }
{
    host.barrier()?;
    take_notes(alloc, host, count)
}

// Writes the status file, and takes the notes away that it now has.
fn replace_notes<H: Host>(
    alloc: Global,
    host: &mut H,
    status: &Node,
    count: u16,
) -> Result<(), HostFault>
    requires file { IsFile status.now }
    requires count { count ≤ 10000 }
    requires unblocked { Needs (H.state host.old) IsUnblocked }
    requires target { Needs (H.state host.old) (λ w. NoDirectory (w status_path)) }
    requires files { Needs (H.state host.old) (λ w. (n : ℕ) → n < count
        → NoDirectory (w (place.note_path n))) }
    ensures merged { Leaves result (HasReplacedNotes status.now count) (H.state host.old)
        (H.state host.new) }
    ensures any_moment { AtEachMoment (IsReplacingNotes status.now) (H.state host.old)
        (H.state host.new) }
    ensures turns { GoByTurns is_record_place (H.state host.old) (H.state host.new) }
    ensures silent { Silent (H.state host.old) (H.state host.new) }
    ensures counts { Counts (H.state host.old) (H.state host.new) result }
{
    let path = RootPath::from_str(alloc, STATUS)?;
    replace(host, &path, status)?;
    take_merged(alloc, host, count)
}

/// Writes the status file of a table, and takes the notes away, the smallest number first.
pub(crate) fn merge<H: Host>(
    alloc: Global,
    host: &mut H,
    table: &Table,
    notes: u16,
) -> Result<(), HostFault>
    requires count { notes ≤ 10000 }
    requires kept { Needs (H.state host.old) (AreKept table.now notes) }
    ensures merged { Leaves result (AreMerged table.now) (H.state host.old) (H.state host.new) }
    ensures any_moment { AtEachMoment (IsMerging table.now) (H.state host.old) (H.state host.new) }
    ensures turns { GoByTurns is_record_place (H.state host.old) (H.state host.new) }
    ensures silent { Silent (H.state host.old) (H.state host.new) }
    ensures counts { Counts (H.state host.old) (H.state host.new) result }
{
    table.law();
    let node = status_node(alloc, table.as_slice())?;
    replace_notes(alloc, host, &node, notes)
}
