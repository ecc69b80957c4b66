// What an unpack displaces.
ghost use Rattle.std.specs.Prelude.{◌≡◌, ◌++◌, ◌⊎◌, ℕ, List, IfOk, OnOk, Contains};
ghost use Rattle.conflict_removal.specs.Removals.{HaveBeenRemoved, HaveCalled as HaveCalledRemoving, IsAmidRemovals, first_failed};
ghost use Rattle.host_core.specs.Host.{Counts, Does, Needs, Silent, Since};
ghost use Rattle.host_core.specs.Loss.{IsAnswered};
ghost use Rattle.host_core.specs.World.{Barrier};
ghost use Rattle.held_administration.specs.Open.{IsOpen};
ghost use Rattle.recorded_packages.specs.Packages.{ArePackagesOf};
ghost use Rattle.status_records.specs.Records.{record_in};
ghost use Rattle.held_administration.specs.Order.{IsInOrder};
ghost use Rattle.unit_stages.specs.Holding.{holding_of};
ghost use Rattle.displaced_packages.specs.Displacing.{AreGoing, HasCalled, HasCalledFirst, HaveBeenDisplaced, HaveBeenRemovedBehind, HaveGone, IsAmidDisplacing, IsBroughtToDisk, is_nothing};

use conflict_removal::remove_in_favour;
use disappearance::{Disappeared, Losing, disappear_packages};
use diversions::Diversions;
use held_administration::Administration;
use host_core::{Call, Host, HostFault};
use recorded_packages::renew;
use relation_index::Packages;
use std::alloc::AllocError;
use texts::{Text, Texts};
use undo_rows::Called;
use version_order::Version;

/// What an unpack displaced: who disappeared or was removed, and the first call that failed.
#[derive(Drop)]
pub struct Displaced {
    pub names: Texts,
    pub failed: Option<Call>,
}

// The call that failed first.
fn first_failed(first: Option<Call>, later: Option<Call>) -> Option<Call>
    ensures { result ≡ first_failed first later }
{
    match first {
        None => later,
        Some(call) => Some(call),
    }
}

fn push_all(names: &mut Texts, more: &[Text]) -> Result<(), AllocError>
    ensures { OnOk result (names.new ≡ names.old ++ more.now) }
{
    for name in more {
        names.push(name.copy()?)?;
    }
    Ok(())
}

// Those that disappeared, and behind them the conflicting ones.
fn displaced_with(
    disappeared: Disappeared,
    conflicting: &[Text],
    later: Option<Call>,
) -> Result<Displaced, AllocError>
    ensures names { IfOk result (λ d. d.names ≡ disappeared.names ++ conflicting.now) }
    ensures first { IfOk result (λ d. d.failed ≡ first_failed disappeared.failed later) }
{
    let Disappeared { mut names, failed } = disappeared;
    push_all(&mut names, conflicting)?;
    Ok(Displaced {
        names,
        failed: first_failed(failed, later),
    })
}

// Removes the conflicting packages, and brings the packages of the records up to date.
fn remove_conflicting<H: Host>(
    host: &mut H,
    administration: &mut Administration,
    packages: &mut Packages,
    diversions: &Diversions,
    conflicting: &[Text],
    told: &mut Vec<Called>,
) -> Result<Option<Call>, HostFault>
    requires order { Needs (H.state host.old)
        (IsInOrder administration.old.database administration.old.lists.lists) }
    requires open { IsOpen diversions.now.ways administration.old }
    requires indexed { ArePackagesOf administration.old.database.records packages.old }
    ensures removed { IfOk result (λ failed. HaveBeenRemoved diversions.now.ways conflicting.now
        failed (holding_of administration.old) (holding_of administration.new) (H.state host.old)
        (H.state host.new) told.old.items told.new.items) }
    ensures others { OnOk result ((q : List ℕ) → (Contains conflicting.now q → ⊥)
        → record_in administration.new.database.records q
        ≡ record_in administration.old.database.records q) }
    ensures order { OnOk result
        (Needs (H.state host.new)
        (IsInOrder administration.new.database administration.new.lists.lists)) }
    ensures open { OnOk result (IsOpen diversions.now.ways administration.new) }
    ensures indexed { OnOk result (ArePackagesOf administration.new.database.records packages.new) }
    ensures told { HaveCalledRemoving diversions.now.ways conflicting.now
        (holding_of administration.old) (H.state host.old) (H.state host.new) told.old.items
        told.new.items }
    ensures any_moment { Since (IsAmidRemovals diversions.now.ways conflicting.now
        (holding_of administration.old) (H.state host.old)) (H.state host.old) (H.state host.new) }
    ensures counts { Counts (H.state host.old) (H.state host.new) result }
{
    let alloc = administration.alloc;
    administration.database.law();
    let failed = remove_in_favour(host, administration, diversions, conflicting, told)?;
    renew(alloc, packages, &administration.database, conflicting)?;
    Ok(failed)
}

// Removes the conflicting packages behind those that disappeared.
fn remove_behind<H: Host>(
    host: &mut H,
    administration: &mut Administration,
    packages: &mut Packages,
    diversions: &Diversions,
    disappeared: Disappeared,
    conflicting: &[Text],
    told: &mut Vec<Called>,
) -> Result<Displaced, HostFault>
    requires order { Needs (H.state host.old)
        (IsInOrder administration.old.database administration.old.lists.lists) }
    requires open { IsOpen diversions.now.ways administration.old }
    requires indexed { ArePackagesOf administration.old.database.records packages.old }
    ensures removed { IfOk result (λ d. HaveBeenRemovedBehind diversions.now.ways conflicting.now
        disappeared.names disappeared.failed d.names d.failed (holding_of administration.old)
        (holding_of administration.new) (H.state host.old) (H.state host.new) told.old.items
        told.new.items) }
    ensures others { OnOk result ((q : List ℕ) → (Contains conflicting.now q → ⊥)
        → record_in administration.new.database.records q
        ≡ record_in administration.old.database.records q) }
    ensures order { OnOk result
        (Needs (H.state host.new)
        (IsInOrder administration.new.database administration.new.lists.lists)) }
    ensures open { OnOk result (IsOpen diversions.now.ways administration.new) }
    ensures indexed { OnOk result (ArePackagesOf administration.new.database.records packages.new) }
    ensures told { HaveCalledRemoving diversions.now.ways conflicting.now
        (holding_of administration.old) (H.state host.old) (H.state host.new) told.old.items
        told.new.items }
    ensures any_moment { Since (IsAmidRemovals diversions.now.ways conflicting.now
        (holding_of administration.old) (H.state host.old)) (H.state host.old) (H.state host.new) }
    ensures counts { Counts (H.state host.old) (H.state host.new) result }
{
    match remove_conflicting(
        host,
        administration,
        packages,
        diversions,
        conflicting,
        told,
    ) {
        Ok(later) => match displaced_with(disappeared, conflicting, later) {
            Ok(displaced) => Ok(displaced),
            Err(_) => Err(HostFault::NoMemory),
        },
        Err(fault) => Err(fault),
    }
}

// Those disappear of which nothing is left, and then the conflicting ones are removed.
fn displace_all<H: Host>(
    host: &mut H,
    administration: &mut Administration,
    packages: &mut Packages,
    diversions: &Diversions,
    incoming: &Text,
    version: &Version,
    losing: &[Losing],
    conflicting: &[Text],
    told: &mut Vec<Called>,
) -> Result<Displaced, HostFault>
    requires order { Needs (H.state host.old)
        (IsInOrder administration.old.database administration.old.lists.lists) }
    requires open { IsOpen diversions.now.ways administration.old }
    requires indexed { ArePackagesOf administration.old.database.records packages.old }
    ensures gone { IfOk result (λ d. HaveGone incoming.now version.now diversions.now.ways
        losing.now conflicting.now d.names d.failed (holding_of administration.old)
        (holding_of administration.new) (H.state host.old) (H.state host.new) told.old.items
        told.new.items) }
    ensures others { IfOk result (λ d. (q : List ℕ) → (Contains d.names q → ⊥)
        → record_in administration.new.database.records q
        ≡ record_in administration.old.database.records q) }
    ensures order { OnOk result
        (Needs (H.state host.new)
        (IsInOrder administration.new.database administration.new.lists.lists)) }
    ensures open { OnOk result (IsOpen diversions.now.ways administration.new) }
    ensures indexed { OnOk result (ArePackagesOf administration.new.database.records packages.new) }
    ensures told { HasCalledFirst incoming.now version.now diversions.now.ways losing.now
        conflicting.now (holding_of administration.old) (H.state host.old) (H.state host.new)
        told.old.items told.new.items }
    ensures any_moment { Since (AreGoing incoming.now version.now diversions.now.ways losing.now
        conflicting.now (holding_of administration.old) (H.state host.old)) (H.state host.old)
        (H.state host.new) }
    ensures counts { Counts (H.state host.old) (H.state host.new) result }
{
    match disappear_packages(
        host,
        administration,
        packages,
        diversions,
        incoming,
        version,
        losing,
        told,
    ) {
        Ok(disappeared) => remove_behind(
            host,
            administration,
            packages,
            diversions,
            disappeared,
            conflicting,
            told,
        ),
        Err(fault) => Err(fault),
    }
}

fn is_nothing(losing: &[Losing], conflicting: &[Text]) -> bool
    ensures { result ≡ is_nothing losing.now conflicting.now }
{
    losing.is_empty() && conflicting.is_empty()
}

// Brings all to the disk, where there was any package to displace.
fn bring_to_disk<H: Host>(
    host: &mut H,
    losing: &[Losing],
    conflicting: &[Text],
) -> Result<(), HostFault>
    ensures disk { OnOk result (IsBroughtToDisk losing.now conflicting.now (H.state host.old)
        (H.state host.new)) }
    ensures does { (H.state host.new ≡ H.state host.old) ⊎ Does Barrier (H.state host.old)
        (H.state host.new) result }
    ensures silent { Silent (H.state host.old) (H.state host.new) }
    ensures counts { Counts (H.state host.old) (H.state host.new) result }
{
    if is_nothing(losing, conflicting) {
        return Ok(());
    }
    host.barrier()
}

/// Displaces packages behind the commit of an unpack of this name and version: of the losing ones those disappear of which
/// nothing is left, and then the conflicting ones are removed. All of it is brought to the disk, and the packages of the records are
/// brought up to date.
pub fn displace<H: Host>(
    host: &mut H,
    administration: &mut Administration,
    packages: &mut Packages,
    diversions: &Diversions,
    incoming: &Text,
    version: &Version,
    losing: &[Losing],
    conflicting: &[Text],
    told: &mut Vec<Called>,
) -> Result<Displaced, HostFault>
    requires order { Needs (H.state host.old)
        (IsInOrder administration.old.database administration.old.lists.lists) }
    requires open { IsOpen diversions.now.ways administration.old }
    requires indexed { ArePackagesOf administration.old.database.records packages.old }
    ensures displaced { IfOk result (λ d. HaveBeenDisplaced incoming.now version.now
        diversions.now.ways losing.now conflicting.now d.names d.failed
        (holding_of administration.old) (holding_of administration.new) (H.state host.old)
        (H.state host.new) told.old.items told.new.items) }
    ensures others { IfOk result (λ d. (q : List ℕ) → (Contains d.names q → ⊥)
        → record_in administration.new.database.records q
        ≡ record_in administration.old.database.records q) }
    ensures order { OnOk result
        (Needs (H.state host.new)
        (IsInOrder administration.new.database administration.new.lists.lists)) }
    ensures open { OnOk result (IsOpen diversions.now.ways administration.new) }
    ensures indexed { OnOk result (ArePackagesOf administration.new.database.records packages.new) }
    ensures answered { OnOk result (IsAnswered (H.state host.old) (H.state host.new)) }
    ensures told { HasCalled incoming.now version.now diversions.now.ways losing.now
        conflicting.now (holding_of administration.old) (H.state host.old) (H.state host.new)
        told.old.items told.new.items }
    ensures any_moment { Since (IsAmidDisplacing incoming.now version.now diversions.now.ways
        losing.now conflicting.now (holding_of administration.old) (H.state host.old))
        (H.state host.old) (H.state host.new) }
    ensures counts { Counts (H.state host.old) (H.state host.new) result }
{
    match displace_all(
        host,
        administration,
        packages,
        diversions,
        incoming,
        version,
        losing,
        conflicting,
        told,
    ) {
        Ok(displaced) => match bring_to_disk(host, losing, conflicting) {
            Ok(()) => Ok(displaced),
            Err(fault) => Err(fault),
        },
        Err(fault) => Err(fault),
    }
}
