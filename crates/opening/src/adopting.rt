// The conffiles that another program unpacked are taken up, once the administration is open and the aliases of its root are read.
ghost use Rattle.std.specs.Prelude.{◌≡◌, [], IfErr, IfOk, IsTrue, None, false};
ghost use Rattle.administration.specs.Fault.{CountsAdministration};
ghost use Rattle.adopted_conffiles.specs.Adopted.{all_adopted, all_taken};
ghost use Rattle.adopted_conffiles.specs.Adopting.{IsAdopting};
ghost use Rattle.host_core.specs.Host.{AtEachMoment, Gives, Leaves, Needs, Silent};
ghost use Rattle.host_core.specs.World.{KeepsBut};
ghost use Rattle.opening.specs.Architectures.{AreOfOne};
ghost use Rattle.opening.specs.Followed.{IsFollowed};
ghost use Rattle.opening.specs.Leaving.{IsOpeningOrMerging};
ghost use Rattle.opening.specs.Opened.{IsOpened};
ghost use Rattle.opening.specs.Parts.{IsDamaged, OpensAndMerges, fault_in};
ghost use Rattle.opening.specs.Stopped.{AfterAStop, IsBrought};
ghost use Rattle.opening.specs.TakenUp.{IsOpeningOrAdopting, IsShut, IsTakenUp, OpensAndAdopts};
ghost use Rattle.status_db.specs.Held.{is_record_place};

use crate::architectures::keep_of_one;
use crate::following::open_followed;
use crate::open::{Opened, settle_notes};
use administration::AdministrationFault;
use adopted_conffiles::adopt;
use host_core::Host;
use std::alloc::Global;

// Takes them up in what was opened, and merges the notes of that.
fn take_up<H: Host>(
    alloc: Global,
    host: &mut H,
    opened: Opened,
) -> Result<Opened, AdministrationFault>
    requires opened { Needs (H.state host.old)
        (IsOpened opened.database.records opened.lists.lists opened.diversions.ways.entries) }
    requires number { opened.database.notes ≡ 0 }
    requires open { opened.database.closed ≡ false }
    ensures records { Gives result (λ kept old new. kept.database.records
        ≡ all_adopted old opened.diversions.ways opened.database.records)
        (H.state host.old) (H.state host.new) }
    ensures opened { Gives result
        (λ kept old new. IsOpened kept.database.records kept.lists.lists kept.diversions.ways.entries
        new)
        (H.state host.old) (H.state host.new) }
    ensures still { Leaves result
        (λ old new. all_taken old opened.diversions.ways opened.database.records ≡ []
        → new ≡ old)
        (H.state host.old) (H.state host.new) }
    ensures rest { Leaves result (KeepsBut is_record_place) (H.state host.old)
        (H.state host.new) }
    ensures number { IfOk result (λ kept. kept.database.notes ≡ 0) }
    ensures open { IfOk result (λ kept. kept.database.closed ≡ false) }
    ensures lists { IfOk result (λ kept. kept.lists ≡ opened.lists) }
    ensures diversions { IfOk result (λ kept. kept.diversions ≡ opened.diversions) }
    ensures sound { IsDamaged (fault_in result) → ⊥ }
    ensures any_moment { AtEachMoment
        (IsAdopting opened.diversions.ways opened.database.records)
        (H.state host.old) (H.state host.new) }
    ensures silent { Silent (H.state host.old) (H.state host.new) }
    ensures counts { CountsAdministration (H.state host.old) (H.state host.new) result }
{
    let Opened {
        mut database,
        lists,
        diversions,
    } = opened;
    match adopt(alloc, host, &mut database, &diversions) {
        Ok(()) => settle_notes(
            alloc,
            host,
            Opened {
                database,
                lists,
                diversions,
            },
        ),
        Err(fault) => Err(AdministrationFault::from(fault)),
    }
}

// Opens the administration, as `open_followed` does, where its packages are of one architecture.
fn open_of_one<H: Host>(alloc: Global, host: &mut H) -> Result<Opened, AdministrationFault>
    ensures opens { Gives result (λ opened old new. OpensAndMerges None old new)
        (H.state host.old) (H.state host.new) }
    ensures shut { IsTrue (H.state host.new).honest
        → IfErr result (λ fault. IsShut fault (H.state host.old).world (H.state host.new).world) }
    ensures opened { Gives result
        (λ opened old new. IsOpened opened.database.records opened.lists.lists
        opened.diversions.ways.entries new)
        (H.state host.old) (H.state host.new) }
    ensures followed { IfOk result
        (λ opened. Needs (H.state host.new)
        (IsFollowed opened.lists.lists opened.diversions.ways)) }
    ensures one { IfOk result (λ opened. AreOfOne opened.database.records) }
    ensures number { IfOk result (λ opened. opened.database.notes ≡ 0) }
    ensures open { IfOk result (λ opened. opened.database.closed ≡ false) }
    ensures listing { IfOk result (λ opened. opened.lists.closed ≡ false) }
    ensures writable { IfOk result (λ opened. opened.diversions.closed ≡ false) }
    ensures any_moment { AtEachMoment IsOpeningOrMerging (H.state host.old) (H.state host.new) }
    ensures silent { Silent (H.state host.old) (H.state host.new) }
    ensures counts { CountsAdministration (H.state host.old) (H.state host.new) result }
    ensures brought { AfterAStop (IsBrought result) (H.state host.old) (H.state host.new) }
{
    match open_followed(alloc, host) {
        Ok(opened) => keep_of_one(alloc, host, opened),
        Err(fault) => Err(fault),
    }
}

/// Opens the administration, as `open_followed` does, and then takes up the conffiles that another program unpacked and didn't
/// settle: by the files that stand beside their places. Where its packages are of two architectures it is told as damage of the
/// status file, and nothing is taken up.
pub fn open_adopted<H: Host>(alloc: Global, host: &mut H) -> Result<Opened, AdministrationFault>
    ensures opens { IsTrue (H.state host.new).honest
        → OpensAndAdopts (fault_in result) (H.state host.old).world (H.state host.new).world }
    ensures opened { Gives result
        (λ opened old new. IsOpened opened.database.records opened.lists.lists
        opened.diversions.ways.entries new)
        (H.state host.old) (H.state host.new) }
    ensures taken_up { Gives result
        (λ opened old new. IsTakenUp opened.database.records opened.lists.lists
        opened.diversions.ways old new)
        (H.state host.old) (H.state host.new) }
    ensures number { IfOk result (λ opened. opened.database.notes ≡ 0) }
    ensures open { IfOk result (λ opened. opened.database.closed ≡ false) }
    ensures listing { IfOk result (λ opened. opened.lists.closed ≡ false) }
    ensures writable { IfOk result (λ opened. opened.diversions.closed ≡ false) }
    ensures any_moment { AtEachMoment IsOpeningOrAdopting (H.state host.old) (H.state host.new) }
    ensures silent { Silent (H.state host.old) (H.state host.new) }
    ensures counts { CountsAdministration (H.state host.old) (H.state host.new) result }
    ensures brought { AfterAStop (IsBrought result) (H.state host.old) (H.state host.new) }
{
    match open_of_one(alloc, host) {
        Ok(opened) => take_up(alloc, host, opened),
        Err(fault) => Err(fault),
    }
}
