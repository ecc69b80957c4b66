// One part.
ghost use Rattle.std.specs.Prelude.{◌≡◌, [], ◌∷◌, IsTrue, OnOk, true, false};
ghost use Rattle.host_core.specs.Host.{AtEachMoment, Counts, Leaves, Needs, Silent, WasDenied};
ghost use Rattle.texts.specs.PackageNames.{is_package_name};
ghost use Rattle.unit_stages.specs.Doing.{IsDoing};
ghost use Rattle.unit_stages.specs.PartFitting.{AreSettleable, IsFit};
ghost use Rattle.held_administration.specs.Order.{IsInOrder};
ghost use Rattle.unit_stages.specs.Parts.{HasDone, part_lists, part_records};
ghost use Rattle.scattered_losses.specs.Apart.{WorksApart};
ghost use Rattle.status_db.specs.Held.{is_record_place};

use crate::listing::write_list;
use crate::members::drop_members;
use crate::noting::note_copy;
use crate::part::Part;
use conffiles::apply;
use file_lists::FileLists;
use file_removal::{clear_names, remove_directories, remove_owned};
use host_core::{Host, HostFault};
use listed_files::drop_list;
use status_db::{NotedDatabase, note_no_record};
use std::alloc::Global;
use texts::Text;

/// Does one part of a unit.
pub(crate) fn do_part<H: Host>(
    alloc: Global,
    host: &mut H,
    database: &mut NotedDatabase,
    lists: &mut FileLists,
    name: &Text,
    part: &Part,
) -> Result<(), HostFault>
    requires noting { database.old.closed ≡ false }
    requires listing { lists.old.closed ≡ false }
    requires named { is_package_name name.now ≡ true }
    requires fit { IsFit name.now part.now database.old.records lists.old.lists }
    requires order { Needs (H.state host.old) (IsInOrder database.old lists.old.lists) }
    requires settleable { Needs (H.state host.old) (AreSettleable (part.now ∷ [])) }
    ensures records { OnOk result
        (database.new.records ≡ part_records name.now part.now database.old.records) }
    ensures lists { OnOk result (lists.new.lists ≡ part_lists name.now part.now lists.old.lists) }
    ensures noting { OnOk result (database.new.closed ≡ false) }
    ensures listing { OnOk result (lists.new.closed ≡ false) }
    ensures done { IsTrue (H.state host.new).honest
        → OnOk result (HasDone name.now (WasDenied (H.state host.old) (H.state host.new)) part.now
        database.old.records (H.state host.old).world (H.state host.new).world) }
    ensures order { Leaves result (λ old new. IsInOrder database.new lists.new.lists new)
        (H.state host.old) (H.state host.new) }
    ensures any_moment { AtEachMoment (IsDoing name.now part.now database.old.records)
        (H.state host.old) (H.state host.new) }
    ensures apart { WorksApart result is_record_place (H.state host.old) (H.state host.new) }
    ensures silent { Silent (H.state host.old) (H.state host.new) }
    ensures counts { Counts (H.state host.old) (H.state host.new) result }
{
    match part {
        Part::Note(entry) => {
            return note_copy(alloc, host, database, entry);
        }
        Part::Forget => {
            return note_no_record(alloc, host, database, name);
        }
        Part::Settle(settled) => {
            return apply(host, settled.as_slice());
        }
        Part::Remove(leaving) => {
            return remove_owned(host, leaving.as_slice());
        }
        Part::RemoveDirectories(leaving) => {
            return remove_directories(host, leaving.as_slice());
        }
        Part::Clear(names) => {
            return clear_names(host, names.as_slice());
        }
        Part::List(paths) => {
            return write_list(alloc, host, lists, name, paths);
        }
        Part::DropList => {
            return drop_list(alloc, host, name);
        }
        Part::DropMembers { keep_postrm } => {
            return drop_members(alloc, host, name, *keep_postrm);
        }
    }
}
