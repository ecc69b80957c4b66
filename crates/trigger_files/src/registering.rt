// The files are brought to the interests of the packages.
ghost use Rattle.std.specs.Prelude.{IfOk, OnOk};
ghost use Rattle.host_core.specs.Host.{AtEachMoment, Counts, Gives, Leaves, Needs, Silent};
ghost use Rattle.host_core.specs.Looks.{Looks};
ghost use Rattle.host_core.specs.Loss.{IsAnswered};
ghost use Rattle.host_core.specs.World.{IsDirectory};
ghost use Rattle.trigger_files.specs.Entries.{entries_of};
ghost use Rattle.trigger_files.specs.Registered.{HasRegistered, IsRegistering};
ghost use Rattle.trigger_files.specs.Steps.{AreBeingWritten, AreOpen, AreRegisters, AreWritten, IsPlan};
ghost use Rattle.trigger_journal.specs.Places.{triggers_directory};

use crate::due::{read_open, read_unsettled};
use crate::entries::read_entries;
use crate::places::triggers_directory;
use crate::writing::write_each;
use administration::{Standing, look};
use host_core::{Host, HostFault};
use status_db::NotedDatabase;
use status_records::Record;
use std::alloc::Global;
use texts::Text;
use trigger_interests::Interest;

// What is to be done: the interests, the names whose files haven't their lines, and those of them at which
// a file can be written.
#[derive(Drop)]
struct Plan {
    entries: Vec<Interest>,
    due: Vec<Text>,
    free: Vec<Text>,
}

fn read_names<H: Host>(
    alloc: Global,
    host: &mut H,
    entries: Vec<Interest>,
) -> Result<Plan, HostFault>
    ensures registers { IfOk result (λ plan. AreRegisters plan.free.items) }
    ensures looks { Looks result (λ plan w. IsPlan entries.items plan w) (H.state host.old)
        (H.state host.new) }
{
    let due = read_unsettled(alloc, host, entries.as_slice())?;
    let free = read_open(alloc, host, due.as_slice())?;
    Ok(Plan { entries, due, free })
}

fn read_plan<H: Host>(alloc: Global, host: &mut H, records: &[Record]) -> Result<Plan, HostFault>
    ensures registers { IfOk result (λ plan. AreRegisters plan.free.items) }
    ensures looks { Looks result (λ plan w. IsPlan (entries_of w records.now) plan w)
        (H.state host.old) (H.state host.new) }
{
    let entries = read_entries(alloc, host, records)?;
    read_names(alloc, host, entries)
}

// They are written, and that is on the disk.
fn write_to_disk<H: Host>(
    alloc: Global,
    host: &mut H,
    entries: &[Interest],
    names: &[Text],
) -> Result<(), HostFault>
    requires registers { AreRegisters names.now }
    requires there { Needs (H.state host.old) (λ w. IsDirectory (w triggers_directory)) }
    requires free { Needs (H.state host.old) (λ w. AreOpen w names.now) }
    ensures written { Leaves result (AreWritten entries.now names.now) (H.state host.old)
        (H.state host.new) }
    ensures any_moment { AtEachMoment (AreBeingWritten entries.now names.now) (H.state host.old)
        (H.state host.new) }
    ensures on_disk { OnOk result (IsAnswered (H.state host.old) (H.state host.new)) }
    ensures silent { Silent (H.state host.old) (H.state host.new) }
    ensures counts { Counts (H.state host.old) (H.state host.new) result }
{
    if names.is_empty() {
        return Ok(());
    }
    write_each(alloc, host, entries, names)?;
    host.barrier()
}

// The same where there is a directory for them.
fn register<H: Host>(alloc: Global, host: &mut H, records: &[Record]) -> Result<bool, HostFault>
    requires there { Needs (H.state host.old) (λ w. IsDirectory (w triggers_directory)) }
    ensures registered { Gives result (HasRegistered records.now) (H.state host.old)
        (H.state host.new) }
    ensures any_moment { AtEachMoment (IsRegistering records.now) (H.state host.old)
        (H.state host.new) }
    ensures on_disk { OnOk result (IsAnswered (H.state host.old) (H.state host.new)) }
    ensures silent { Silent (H.state host.old) (H.state host.new) }
    ensures counts { Counts (H.state host.old) (H.state host.new) result }
{
    let plan = read_plan(alloc, host, records)?;
    write_to_disk(alloc, host, plan.entries.as_slice(), plan.free.as_slice())?;
    Ok(plan.free.len() == plan.due.len())
}

/// Brings the files to the interests of the packages with files, in the order of the records and of their lines, where a file
/// doesn't say the same already. That is on the disk then. Or tells that something is in the way of one; the others are written.
pub fn write_interests<H: Host>(
    alloc: Global,
    host: &mut H,
    database: &NotedDatabase,
) -> Result<bool, HostFault>
    ensures registered { Gives result (HasRegistered database.now.records) (H.state host.old)
        (H.state host.new) }
    ensures any_moment { AtEachMoment (IsRegistering database.now.records) (H.state host.old)
        (H.state host.new) }
    ensures on_disk { OnOk result (IsAnswered (H.state host.old) (H.state host.new)) }
    ensures silent { Silent (H.state host.old) (H.state host.new) }
    ensures counts { Counts (H.state host.old) (H.state host.new) result }
{
    let directory = triggers_directory(alloc)?;
    match look(host, &directory)? {
        Standing::Directory => register(alloc, host, database.records()),
        Standing::Nothing => Ok(true),
        Standing::Loose => Ok(false),
    }
}
