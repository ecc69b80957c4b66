// The unit that removes or purges a package.
ghost use Rattle.std.specs.Prelude.{◌≡◌, true, IfOk, OnOk};
ghost use Rattle.texts.specs.PackageNames.{is_package_name};
ghost use Rattle.host_core.specs.Host.{AtEachMomentOf, Counts, Needs, Reads, Silent};
ghost use Rattle.scattered_losses.specs.Apart.{WorksApart};
ghost use Rattle.status_db.specs.Held.{is_record_place};
ghost use Rattle.held_administration.specs.Open.{IsOpen};
ghost use Rattle.held_administration.specs.Order.{IsInOrder};
ghost use Rattle.unit_stages.specs.Holding.{holding_of};
ghost use Rattle.removal_engine.specs.Units.{HasCalled, HasEnded, HasRemoved, IsAmidUnit, IsPlanFor, IsRemovable, given};

use crate::extent::Extent;
use crate::lists::list_to_come;
use crate::scripts::{Stored, stored_scripts};
use crate::stages::removal_stages;
use diversions::Diversions;
use held_administration::Administration;
use host_core::{Call, Host, HostFault};
use status_records::Record;
use texts::Text;
use undo_rows::Called;
use unit_stages::{Stage, run_stages};

// Plans: nothing but looking.
fn plan<H: Host>(
    host: &mut H,
    administration: &Administration,
    diversions: &Diversions,
    entry: &Record,
    extent: Extent,
) -> Result<Vec<Stage>, HostFault>
    requires named { is_package_name entry.now.name ≡ true }
    ensures planned { IfOk result
        (λ stages. IsPlanFor diversions.now.ways administration.now.lists.lists
        entry.now extent (H.state host.old).world (H.state host.new).honest stages.items) }
    ensures reads { Reads (H.state host.old) (H.state host.new) }
    ensures silent { Silent (H.state host.old) (H.state host.new) }
    ensures counts { Counts (H.state host.old) (H.state host.new) result }
{
    let alloc = administration.alloc;
    match stored_scripts(alloc, host, &entry.name) {
        Ok(stored) => {
            let to_come = list_to_come(alloc, entry, stored)?;
            let paths = to_come.as_slice();
            Ok(removal_stages(administration, diversions, entry, stored, extent, paths)?)
        }
        Err(fault) => Err(fault),
    }
}

/// Removes a package, or purges it: its prerm is called, its files go, its postrm is called; of a package that has neither postrm nor
/// conffiles nothing is left then. A purge goes on with its conffiles, the postrm and the directories. A removal in favour of another
/// package begins with the files. The answer is the call that failed, if one did.
pub fn remove<H: Host>(
    host: &mut H,
    administration: &mut Administration,
    diversions: &Diversions,
    name: &Text,
    extent: Extent,
    told: &mut Vec<Called>,
) -> Result<Option<Call>, HostFault>
    requires open { IsOpen diversions.now.ways administration.old }
    requires removable { IsRemovable extent administration.old.database.records name.now }
    requires order { Needs (H.state host.old)
        (IsInOrder administration.old.database administration.old.lists.lists) }
    ensures unit { IfOk result
        (λ failed. HasRemoved
        (given extent name.now diversions.now.ways (holding_of administration.old)) failed
        (holding_of administration.new) (H.state host.old) (H.state host.new)
        told.old.items told.new.items) }
    ensures end { IfOk result
        (λ failed. HasEnded extent name.now failed
        administration.old.database.records administration.new.database.records) }
    ensures order { IfOk result
        (λ failed. Needs (H.state host.new)
        (IsInOrder administration.new.database administration.new.lists.lists)) }
    ensures open { OnOk result (IsOpen diversions.now.ways administration.new) }
    ensures told { HasCalled
        (given extent name.now diversions.now.ways (holding_of administration.old))
        (H.state host.old) (H.state host.new) told.old.items told.new.items }
    ensures any_moment { AtEachMomentOf
        (IsAmidUnit (given extent name.now diversions.now.ways (holding_of administration.old)))
        (H.state host.old) (H.state host.new) }
    ensures apart { WorksApart result is_record_place (H.state host.old) (H.state host.new) }
    ensures counts { Counts (H.state host.old) (H.state host.new) result }
{
    let alloc = administration.alloc;
    administration.lists.index(alloc, diversions)?;
    let entry = administration.database.get(name).unwrap();
    match plan(host, administration, diversions, entry, extent) {
        Ok(stages) => run_stages(host, administration, diversions, name, stages, told),
        Err(fault) => Err(fault),
    }
}
