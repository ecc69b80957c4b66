// The unit of the package whose turn it is.
ghost use Rattle.std.specs.Prelude.{◌≡◌, ◌⊎◌, ◌<◌, [], ◌∷◌, None, IfOk, OnOk, length};
ghost use Rattle.configure_engine.specs.Units.{CanConfigure, HasEnded, IsAmidUnit as IsAmidConfiguring, IsWaiting};
ghost use Rattle.held_administration.specs.Open.{IsOpen};
ghost use Rattle.host_core.specs.Host.{AtEachMomentOf, Counts, Needs, Tells};
ghost use Rattle.host_core.specs.Looks.{Looks};
ghost use Rattle.host_core.specs.Loss.{IsAnswered, IsOnDisk};
ghost use Rattle.held_administration.specs.Order.{IsInOrder};
ghost use Rattle.unit_reports.specs.Held.{held_by};
ghost use Rattle.unit_reports.specs.Units as reports;
ghost use Rattle.unit_reports.specs.Units.{CountsReply, IsBroken, IsBrokenBy, IsFromBefore, IsRefusedUnit, TellsNoPackage};
ghost use Rattle.unit_reports.specs.declared.report.Breakage.TheVariants.{NoMemory};
ghost use Rattle.unit_reports.specs.declared.refusal.Rule.TheVariants.{BrokenBy};
ghost use Rattle.dependency_check.specs.Breaking.{AreBreakers};
ghost use Rattle.configure_run.specs.Starting.{name_at};
ghost use Rattle.configure_run.specs.Turns.{Answers, ConfiguresToDisk, HasCalledFor, HasCalledToDisk, HasObstacle, IsAmidUnit, IsBeside, IsConfigured, IsUnit, IsUnitFor, given_by, holding_of, is_done, reply_to};

use conffiles::ConfPolicy;
use configure_engine::{configure, obstacle};
use dependency_check::broken_by;
use diversions::Diversions;
use held_administration::Administration;
use host_core::{Call, Host, HostFault, RootPath};
use relation_index::{Package, Packages};
use status_db::NotedDatabase;
use std::alloc::{AllocError, Global};
use texts::{Text, Texts};
use undo_rows::{Called, Failure as Cause};
use unit_reports::{
    Breakage, Failure, Reply, Rule, Touched, Unit, breakage_of, broken, refused, touched_at,
};

/// Whether a unit did all that was asked.
pub(crate) fn is_done(unit: &Unit) -> bool
    ensures { result ≡ is_done unit.now.reply }
{
    match &unit.reply {
        Reply::Done => true,
        Reply::Refused(_) => false,
        Reply::Failed(_) => false,
        Reply::Looped(_) => false,
        Reply::Broken(_) => false,
    }
}

/// A unit that was broken off for want of memory, before any call.
pub(crate) fn no_memory(alloc: Global) -> Unit
    ensures reply { IsBrokenBy NoMemory result.reply }
    ensures told { result.calls.items ≡ [] }
    ensures touched { TellsNoPackage result }
{
    broken(alloc, Vec::new(alloc), Breakage::NoMemory)
}

// What is in the way of settling the conffiles of a package.
fn obstacle_of<H: Host>(
    alloc: Global,
    host: &mut H,
    diversions: &Diversions,
    database: &NotedDatabase,
    name: &Text,
) -> Result<Option<RootPath>, HostFault>
    requires waits { IsWaiting database.now.records name.now }
    ensures looks { Looks result (λ found w. HasObstacle diversions.now.ways database.now.records
        name.now w found) (H.state host.old) (H.state host.new) }
    ensures clear { Tells result (λ found w. found ≡ None → CanConfigure diversions.now.ways
        database.now.records name.now w) (H.state host.old) (H.state host.new) }
{
    match database.get(name) {
        Some(entry) => obstacle(alloc, host, diversions, entry),
        None => unreachable!(),
    }
}

// A package alone, with its record.
fn touched_alone(
    alloc: Global,
    database: &NotedDatabase,
    name: &Text,
) -> Result<Vec<Touched>, AllocError>
    ensures { IfOk result (λ touched. touched.items ≡ reports.touched_at database.now.records
        name.now ∷ []) }
{
    let mut touched = Vec::new(alloc);
    touched.push(touched_at(database, name)?)?;
    Ok(touched)
}

// The reply to a package that was configured, or that failed by a call.
fn reply_to(name: &Text, failed: Option<Call>) -> Result<Reply, AllocError>
    ensures { IfOk result (λ reply. reply ≡ reply_to name.now failed) }
{
    match failed {
        None => Ok(Reply::Done),
        Some(call) => Ok(Reply::Failed(Failure {
            package: name.copy()?,
            cause: Cause::OfCall(call),
        })),
    }
}

// What a unit tells at its end.
fn told_of(
    alloc: Global,
    database: &NotedDatabase,
    name: &Text,
    failed: Option<Call>,
) -> Result<(Vec<Touched>, Reply), AllocError>
    ensures touched { IfOk result (λ told. told.0.items ≡ reports.touched_at database.now.records
        name.now ∷ []) }
    ensures reply { IfOk result (λ told. told.1 ≡ reply_to name.now failed) }
{
    let touched = touched_alone(alloc, database, name)?;
    let reply = reply_to(name, failed)?;
    Ok((touched, reply))
}

// The unit of a package that was configured, or that failed by a call.
fn answered(
    alloc: Global,
    database: &NotedDatabase,
    name: &Text,
    failed: Option<Call>,
    calls: Vec<Called>,
) -> Unit
    ensures answer { IsBrokenBy NoMemory result.reply ⊎ Answers name.now database.now.records failed
        result }
    ensures told { result.calls.items ≡ calls.items }
    ensures untouched { IsBroken result.reply → TellsNoPackage result }
{
    match told_of(alloc, database, name, failed) {
        Ok((touched, reply)) => Unit {
            calls,
            touched,
            deconfigured: Texts::new(alloc),
            reply,
        },
        Err(_) => broken(alloc, calls, Breakage::NoMemory),
    }
}

// The refused unit of a package.
fn refused_named(alloc: Global, rule: Rule, name: &Text) -> Unit
    ensures unit { IsBrokenBy NoMemory result.reply ⊎ IsRefusedUnit rule name.now result }
    ensures told { result.calls.items ≡ [] }
    ensures touched { TellsNoPackage result }
{
    match name.copy() {
        Ok(package) => refused(alloc, rule, package),
        Err(_) => no_memory(alloc),
    }
}

// Configures a package, and brings all that was done to the disk.
fn configure_to_disk<H: Host>(
    host: &mut H,
    administration: &mut Administration,
    diversions: &Diversions,
    name: &Text,
    policy: ConfPolicy,
    told: &mut Vec<Called>,
) -> Result<Option<Call>, HostFault>
    requires open { IsOpen diversions.now.ways administration.old }
    requires waits { IsWaiting administration.old.database.records name.now }
    requires order { Needs (H.state host.old)
        (IsInOrder administration.old.database administration.old.lists.lists) }
    requires clear { Needs (H.state host.old) (CanConfigure diversions.now.ways
        administration.old.database.records name.now) }
    ensures unit { IfOk result (λ failed. ConfiguresToDisk
        (given_by policy name.now (held_by administration.old diversions.now)) failed
        (holding_of (held_by administration.new diversions.now)) (H.state host.old)
        (H.state host.new) told.old.items told.new.items) }
    ensures end { IfOk result (λ failed. HasEnded name.now failed
        administration.old.database.records administration.new.database.records) }
    ensures order { IfOk result (λ failed. Needs (H.state host.new)
        (IsInOrder administration.new.database administration.new.lists.lists)) }
    ensures open { OnOk result (IsOpen diversions.now.ways administration.new) }
    ensures on_disk { OnOk result (IsOnDisk (H.state host.new).events) }
    ensures told { HasCalledToDisk (given_by policy name.now
        (held_by administration.old diversions.now)) (H.state host.old) (H.state host.new)
        told.old.items told.new.items }
    ensures any_moment { AtEachMomentOf (λ old. IsBeside
        (IsAmidConfiguring (given_by policy name.now (held_by administration.old diversions.now))
        old)) (H.state host.old) (H.state host.new) }
    ensures counts { Counts (H.state host.old) (H.state host.new) result }
{
    match configure(host, administration, diversions, name, policy, told) {
        Ok(failed) => match host.barrier() {
            Ok(()) => Ok(failed),
            Err(fault) => Err(fault),
        },
        Err(fault) => Err(fault),
    }
}

// The unit of a package of which nothing is in the way.
fn configured_unit<H: Host>(
    host: &mut H,
    administration: &mut Administration,
    diversions: &Diversions,
    name: &Text,
    policy: ConfPolicy,
) -> Unit
    requires open { IsOpen diversions.now.ways administration.old }
    requires waits { IsWaiting administration.old.database.records name.now }
    requires order { Needs (H.state host.old)
        (IsInOrder administration.old.database administration.old.lists.lists) }
    requires clear { Needs (H.state host.old) (CanConfigure diversions.now.ways
        administration.old.database.records name.now) }
    ensures unit { IsBroken result.reply ⊎ IsConfigured policy name.now
        (held_by administration.old diversions.now) (held_by administration.new diversions.now)
        result (H.state host.old) (H.state host.new) }
    ensures open { IsBroken result.reply ⊎ IsOpen diversions.now.ways administration.new }
    ensures on_disk { IsBroken result.reply ⊎ IsOnDisk (H.state host.new).events }
    ensures untouched { IsBroken result.reply → TellsNoPackage result }
    ensures told { HasCalledToDisk (given_by policy name.now
        (held_by administration.old diversions.now)) (H.state host.old) (H.state host.new) []
        result.calls.items }
    ensures any_moment { AtEachMomentOf (λ old. IsBeside
        (IsAmidConfiguring (given_by policy name.now (held_by administration.old diversions.now))
        old)) (H.state host.old) (H.state host.new) }
    ensures counts { CountsReply (H.state host.old) (H.state host.new) result.reply }
    ensures not_closed { IsFromBefore result.reply → ⊥ }
{
    let alloc = administration.alloc;
    let mut calls = Vec::new(alloc);
    match configure_to_disk(host, administration, diversions, name, policy, &mut calls) {
        Ok(failed) => answered(alloc, &administration.database, name, failed, calls),
        Err(fault) => broken(alloc, calls, breakage_of(fault)),
    }
}

// The unit of a package that no other breaks.
fn unit_for<H: Host>(
    host: &mut H,
    administration: &mut Administration,
    diversions: &Diversions,
    name: &Text,
    policy: ConfPolicy,
) -> Unit
    requires open { IsOpen diversions.now.ways administration.old }
    requires waits { IsWaiting administration.old.database.records name.now }
    requires order { Needs (H.state host.old)
        (IsInOrder administration.old.database administration.old.lists.lists) }
    ensures unit { IsBroken result.reply ⊎ IsUnitFor policy name.now
        (held_by administration.old diversions.now) (held_by administration.new diversions.now)
        result (H.state host.old) (H.state host.new) }
    ensures order { IsBroken result.reply ⊎ Needs (H.state host.new)
        (IsInOrder administration.new.database administration.new.lists.lists) }
    ensures open { IsBroken result.reply ⊎ IsOpen diversions.now.ways administration.new }
    ensures answered { IsBroken result.reply ⊎ IsAnswered (H.state host.old) (H.state host.new) }
    ensures untouched { IsBroken result.reply → TellsNoPackage result }
    ensures told { HasCalledFor policy name.now (held_by administration.old diversions.now) result
        (H.state host.old) (H.state host.new) }
    ensures any_moment { AtEachMomentOf (IsAmidUnit policy name.now
        (held_by administration.old diversions.now)) (H.state host.old) (H.state host.new) }
    ensures counts { CountsReply (H.state host.old) (H.state host.new) result.reply }
    ensures not_closed { IsFromBefore result.reply → ⊥ }
{
    let alloc = administration.alloc;
    match obstacle_of(alloc, host, diversions, &administration.database, name) {
        Ok(None) => configured_unit(host, administration, diversions, name, policy),
        Ok(Some(path)) => refused_named(alloc, Rule::ConffileKind(path), name),
        Err(fault) => broken(alloc, Vec::new(alloc), breakage_of(fault)),
    }
}

// The refused unit of a package that the one of this number breaks.
fn refused_for(alloc: Global, packages: &[Package], breaking: usize, name: &Text) -> Unit
    requires { breaking < length packages.now }
    ensures unit { IsBrokenBy NoMemory result.reply
        ⊎ IsRefusedUnit (BrokenBy (name_at packages.now breaking)) name.now result }
    ensures told { result.calls.items ≡ [] }
    ensures touched { TellsNoPackage result }
{
    match packages[breaking].name.copy() {
        Ok(other) => refused_named(alloc, Rule::BrokenBy(other), name),
        Err(_) => no_memory(alloc),
    }
}

/// The unit of a package whose turn it is; beside the packages are those that state Breaks.
pub(crate) fn unit_of<H: Host>(
    host: &mut H,
    administration: &mut Administration,
    diversions: &Diversions,
    packages: &Packages,
    breakers: &[usize],
    of: &Package,
    policy: ConfPolicy,
) -> Unit
    requires breakers { AreBreakers packages.now breakers.now }
    requires open { IsOpen diversions.now.ways administration.old }
    requires waits { IsWaiting administration.old.database.records of.now.name }
    requires order { Needs (H.state host.old)
        (IsInOrder administration.old.database administration.old.lists.lists) }
    ensures unit { IsBroken result.reply ⊎ IsUnit policy packages.now of.now
        (held_by administration.old diversions.now) (held_by administration.new diversions.now)
        result (H.state host.old) (H.state host.new) }
    ensures order { IsBroken result.reply ⊎ Needs (H.state host.new)
        (IsInOrder administration.new.database administration.new.lists.lists) }
    ensures open { IsBroken result.reply ⊎ IsOpen diversions.now.ways administration.new }
    ensures answered { IsBroken result.reply ⊎ IsAnswered (H.state host.old) (H.state host.new) }
    ensures untouched { IsBroken result.reply → TellsNoPackage result }
    ensures told { HasCalledFor policy of.now.name (held_by administration.old diversions.now)
        result (H.state host.old) (H.state host.new) }
    ensures any_moment { AtEachMomentOf (IsAmidUnit policy of.now.name
        (held_by administration.old diversions.now)) (H.state host.old) (H.state host.new) }
    ensures counts { CountsReply (H.state host.old) (H.state host.new) result.reply }
    ensures not_closed { IsFromBefore result.reply → ⊥ }
{
    match broken_by(packages, breakers, of) {
        Some(breaking) => refused_for(
            administration.alloc,
            packages.as_slice(),
            breaking,
            &of.name,
        ),
        None => unit_for(host, administration, diversions, &of.name, policy),
    }
}
