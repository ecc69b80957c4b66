// The unit of one tree.
ghost use Rattle.std.specs.Prelude.{◌≡◌, ◌⊎◌, None, [], IfSome, IsTrue};
ghost use Rattle.host_core.specs.Host.{AtEachMomentOf, Needs};
ghost use Rattle.host_core.specs.Loss.{IsAnswered, IsOnDisk};
ghost use Rattle.held_administration.specs.Open.{IsOpen};
ghost use Rattle.recorded_packages.specs.Packages.{ArePackagesOf};
ghost use Rattle.held_administration.specs.Order.{IsInOrder};
ghost use Rattle.unpack_relations.specs.Checks.{AreApart};
ghost use Rattle.unit_reports.specs.declared.report.Breakage.TheVariants.{NoMemory, Damaged};
ghost use Rattle.unit_reports.specs.Held.{held_by};
ghost use Rattle.dpkg_session.specs.Growth.{StaysWritable};
ghost use Rattle.dpkg_session.specs.Rereading.{IsTableDamaged};
ghost use Rattle.dpkg_session.specs.Run.{IsAmidDecided, IsAmidPackage, IsAmidUnitOf, IsAmidUnpack};
ghost use Rattle.unit_reports.specs.Units.{CountsReply, IsBroken, IsBrokenBy, IsFromBefore, TellsNoPackage, breakage_of};
ghost use Rattle.dpkg_session.specs.Units.{AnswersBoth, HasCalledDecided, HasCalledOf, HasCalledPackage, HasCalledWhole, IsBehind, IsDecidedUnit, KnowsRecords, IsPackageUnit, IsUnit, IsUnpacked, reply_to};

use crate::displacing::{Behind, UnpackEnd, behind_of, unpack_whole};
use crate::overriding::unit_of_overridden;
use crate::recorded::take_packages;
use crate::refusal::decision_of;
use crate::report::Candidate;
use crate::rereading::{self, read_for_tree};
use crate::tellings::told_of;
use displaced_packages::Displaced;
use diversions::Diversions;
use held_administration::Administration;
use host_core::{Call, Host};
use package_tree::Package;
use relation_index::Packages;
use status_db::NotedDatabase;
use std::alloc::Global;
use texts::Text;
use undo_rows::{Called, Failure as Cause, Unwinding};
use unit_reports::{Breakage, Failure, Reply, Rule, Unit, breakage_of, broken, refused};
use unpack_engine::Unpacked;
use unpack_relations::{Beside, Checked, UnpackOptions};

// The reply to a unit of a package, by how its rows were unwound, and by the call that failed behind its commit.
fn reply_to(package: Text, unwinding: Option<Unwinding>, failed: Option<Call>) -> Reply
    ensures { result ≡ reply_to «package» unwinding failed }
{
    match (unwinding, failed) {
        (None, None) => Reply::Done,
        (None, Some(call)) => Reply::Failed(Failure {
            package,
            cause: Cause::OfCall(call),
        }),
        (Some(unwinding), _) => {
            let Unwinding {
                fall: _,
                failed: _,
                failure: cause,
            } = unwinding;
            Reply::Failed(Failure { package, cause })
        }
    }
}

// The unit of a package that was unpacked, or whose rows were unwound.
fn answered(
    alloc: Global,
    database: &NotedDatabase,
    behind: Behind,
    end: UnpackEnd,
    calls: Vec<Called>,
) -> Unit
    ensures answer { IsBrokenBy NoMemory result.reply ⊎ AnswersBoth behind.«package»
        database.now.records behind.copies.items behind.half end.unpacked.unwinding
        end.displaced.failed end.unpacked.touched end.displaced.names result }
    ensures told { result.calls.items ≡ calls.items }
    ensures untouched { IsBroken result.reply → TellsNoPackage result }
{
    let UnpackEnd {
        unpacked: Unpacked {
            unwinding,
            touched,
            alone: _,
            anew: _,
        },
        displaced: Displaced { names, failed },
    } = end;
    let Behind {
        package,
        copies,
        half,
        version: _,
        losing: _,
    } = behind;
    match told_of(
        alloc,
        database,
        &package,
        copies.as_slice(),
        half.as_slice(),
        touched.as_slice(),
        names.as_slice(),
    ) {
        Ok(told) => Unit {
            calls,
            touched: told.touched,
            deconfigured: told.deconfigured,
            reply: reply_to(package, unwinding, failed),
        },
        Err(_) => broken(alloc, calls, Breakage::NoMemory),
    }
}

// The unit of a package of this name that isn't refused.
fn unpack_named<H: Host>(
    host: &mut H,
    administration: &mut Administration,
    packages: &mut Packages,
    diversions: &mut Diversions,
    behind: Behind,
    incoming: Package,
    beside: &Beside,
) -> Unit
    requires behind { IsBehind incoming beside.now administration.old.lists.lists behind }
    requires known { KnowsRecords beside.now administration.old.database.records behind }
    requires apart { AreApart incoming.name administration.old.database.records beside.now }
    requires order { Needs (H.state host.old)
        (IsInOrder administration.old.database administration.old.lists.lists) }
    requires open { IsOpen diversions.old.ways administration.old }
    requires indexed { ArePackagesOf administration.old.database.records packages.old }
    ensures unit { IsBroken result.reply ⊎ IsUnpacked incoming beside.now
        (held_by administration.old diversions.old) (held_by administration.new diversions.new)
        result (H.state host.old) (H.state host.new) }
    ensures open { IsBroken result.reply ⊎ IsOpen diversions.new.ways administration.new }
    ensures indexed { IsBroken result.reply ⊎ ArePackagesOf administration.new.database.records
        packages.new }
    ensures on_disk { IsBroken result.reply ⊎ IsOnDisk (H.state host.new).events }
    ensures untouched { IsBroken result.reply → TellsNoPackage result }
    ensures told { HasCalledWhole incoming beside.now (held_by administration.old diversions.old)
        (H.state host.old) (H.state host.new) [] result.calls.items }
    ensures any_moment { AtEachMomentOf (IsAmidUnpack incoming beside.now
        (held_by administration.old diversions.old)) (H.state host.old) (H.state host.new) }
    ensures writable { StaysWritable diversions.old diversions.new }
    ensures counts { CountsReply (H.state host.old) (H.state host.new) result.reply }
    ensures not_closed { IsFromBefore result.reply → ⊥ }
    ensures not_damaged { IsBrokenBy Damaged result.reply → ⊥ }
{
    let alloc = administration.alloc;
    let mut calls = Vec::new(alloc);
    match unpack_whole(
        host,
        administration,
        packages,
        diversions,
        incoming,
        beside,
        &behind,
        &mut calls,
    ) {
        Ok(end) => answered(alloc, &administration.database, behind, end, calls),
        Err(fault) => broken(alloc, calls, breakage_of(fault)),
    }
}

// The unit of a package that isn't refused.
fn unpack_unit<H: Host>(
    host: &mut H,
    administration: &mut Administration,
    packages: &mut Packages,
    diversions: &mut Diversions,
    incoming: Package,
    beside: &Beside,
) -> Unit
    requires apart { AreApart incoming.name administration.old.database.records beside.now }
    requires order { Needs (H.state host.old)
        (IsInOrder administration.old.database administration.old.lists.lists) }
    requires open { IsOpen diversions.old.ways administration.old }
    requires indexed { ArePackagesOf administration.old.database.records packages.old }
    ensures unit { IsBroken result.reply ⊎ IsUnpacked incoming beside.now
        (held_by administration.old diversions.old) (held_by administration.new diversions.new)
        result (H.state host.old) (H.state host.new) }
    ensures open { IsBroken result.reply ⊎ IsOpen diversions.new.ways administration.new }
    ensures indexed { IsBroken result.reply ⊎ ArePackagesOf administration.new.database.records
        packages.new }
    ensures on_disk { IsBroken result.reply ⊎ IsOnDisk (H.state host.new).events }
    ensures untouched { IsBroken result.reply → TellsNoPackage result }
    ensures told { HasCalledWhole incoming beside.now (held_by administration.old diversions.old)
        (H.state host.old) (H.state host.new) [] result.calls.items }
    ensures any_moment { AtEachMomentOf (IsAmidUnpack incoming beside.now
        (held_by administration.old diversions.old)) (H.state host.old) (H.state host.new) }
    ensures writable { StaysWritable diversions.old diversions.new }
    ensures counts { CountsReply (H.state host.old) (H.state host.new) result.reply }
    ensures not_closed { IsFromBefore result.reply → ⊥ }
    ensures not_damaged { IsBrokenBy Damaged result.reply → ⊥ }
{
    let alloc = administration.alloc;
    match behind_of(
        alloc,
        &administration.database,
        &administration.lists,
        &incoming,
        beside,
    ) {
        Ok(behind) => {
            return unpack_named(
                host,
                administration,
                packages,
                diversions,
                behind,
                incoming,
                beside,
            );
        }
        Err(_) => {
            return broken(alloc, Vec::new(alloc), Breakage::NoMemory);
        }
    }
}

// The unit of a package that has its accesses.
fn decide_and_unpack<H: Host>(
    host: &mut H,
    administration: &mut Administration,
    packages: &mut Packages,
    diversions: &mut Diversions,
    incoming: Package,
    allowed: UnpackOptions,
) -> Unit
    requires order { Needs (H.state host.old)
        (IsInOrder administration.old.database administration.old.lists.lists) }
    requires open { IsOpen diversions.old.ways administration.old }
    requires indexed { ArePackagesOf administration.old.database.records packages.old }
    ensures unit { IsBroken result.reply ⊎ IsDecidedUnit allowed incoming
        (held_by administration.old diversions.old) (held_by administration.new diversions.new)
        result (H.state host.old) (H.state host.new) }
    ensures open { IsBroken result.reply ⊎ IsOpen diversions.new.ways administration.new }
    ensures indexed { IsBroken result.reply ⊎ ArePackagesOf administration.new.database.records
        packages.new }
    ensures answered { IsBroken result.reply ⊎ IsAnswered (H.state host.old) (H.state host.new) }
    ensures untouched { IsBroken result.reply → TellsNoPackage result }
    ensures told { HasCalledDecided allowed incoming
        (held_by administration.old diversions.old) result (H.state host.old) (H.state host.new) }
    ensures any_moment { AtEachMomentOf (IsAmidDecided allowed incoming
        (held_by administration.old diversions.old)) (H.state host.old) (H.state host.new) }
    ensures writable { StaysWritable diversions.old diversions.new }
    ensures counts { CountsReply (H.state host.old) (H.state host.new) result.reply }
    ensures not_closed { IsFromBefore result.reply → ⊥ }
    ensures not_damaged { IsBrokenBy Damaged result.reply → ⊥ }
{
    let alloc = administration.alloc;
    match decision_of(alloc, &incoming, packages, diversions, allowed) {
        Ok(Checked::Refused(rule)) => {
            return refused(alloc, rule, incoming.name);
        }
        Ok(Checked::Planned(beside)) => {
            return unpack_unit(
                host,
                administration,
                packages,
                diversions,
                incoming,
                &beside,
            );
        }
        Err(_) => {
            return broken(alloc, Vec::new(alloc), Breakage::NoMemory);
        }
    }
}

/// The same, once the packages of the records are known.
pub(crate) fn unit_of_followed<H: Host>(
    host: &mut H,
    administration: &mut Administration,
    diversions: &mut Diversions,
    incoming: Package,
    allowed: UnpackOptions,
) -> Unit
    requires order { Needs (H.state host.old)
        (IsInOrder administration.old.database administration.old.lists.lists) }
    requires open { IsOpen diversions.old.ways administration.old }
    requires indexed { IfSome administration.old.packages
        (ArePackagesOf administration.old.database.records) }
    ensures unit { IsBroken result.reply ⊎ IsDecidedUnit allowed incoming
        (held_by administration.old diversions.old) (held_by administration.new diversions.new)
        result (H.state host.old) (H.state host.new) }
    ensures open { IsBroken result.reply ⊎ IsOpen diversions.new.ways administration.new }
    ensures indexed { IsBroken result.reply ⊎ IfSome administration.new.packages
        (ArePackagesOf administration.new.database.records) }
    ensures answered { IsBroken result.reply ⊎ IsAnswered (H.state host.old) (H.state host.new) }
    ensures untouched { IsBroken result.reply → TellsNoPackage result }
    ensures told { HasCalledDecided allowed incoming
        (held_by administration.old diversions.old) result (H.state host.old) (H.state host.new) }
    ensures any_moment { AtEachMomentOf (IsAmidDecided allowed incoming
        (held_by administration.old diversions.old)) (H.state host.old) (H.state host.new) }
    ensures writable { StaysWritable diversions.old diversions.new }
    ensures counts { CountsReply (H.state host.old) (H.state host.new) result.reply }
    ensures not_closed { IsFromBefore result.reply → ⊥ }
    ensures not_damaged { IsBrokenBy Damaged result.reply → ⊥ }
{
    let alloc = administration.alloc;
    match take_packages(
        alloc,
        &mut administration.packages,
        &administration.database,
    ) {
        Ok(mut known) => {
            let unit = decide_and_unpack(
                host,
                administration,
                &mut known,
                diversions,
                incoming,
                allowed,
            );
            administration.packages = Some(known);
            unit
        }
        Err(_) => broken(alloc, Vec::new(alloc), Breakage::NoMemory),
    }
}

// The unit of a tree that was read: the table of diversions is read again first, and what is missing of the aliases above its paths.
fn unit_of_package<H: Host>(
    host: &mut H,
    administration: &mut Administration,
    diversions: &mut Diversions,
    incoming: Package,
    allowed: UnpackOptions,
) -> Unit
    requires order { Needs (H.state host.old)
        (IsInOrder administration.old.database administration.old.lists.lists) }
    requires open { IsOpen diversions.old.ways administration.old }
    requires indexed { IfSome administration.old.packages
        (ArePackagesOf administration.old.database.records) }
    ensures unit { IsBroken result.reply ⊎ IsPackageUnit allowed incoming
        (held_by administration.old diversions.old) (held_by administration.new diversions.new)
        result (H.state host.old) (H.state host.new) }
    ensures open { IsBroken result.reply ⊎ IsOpen diversions.new.ways administration.new }
    ensures indexed { IsBroken result.reply ⊎ IfSome administration.new.packages
        (ArePackagesOf administration.new.database.records) }
    ensures answered { IsBroken result.reply ⊎ IsAnswered (H.state host.old) (H.state host.new) }
    ensures untouched { IsBroken result.reply → TellsNoPackage result }
    ensures told { HasCalledPackage allowed incoming
        (held_by administration.old diversions.old) result (H.state host.old) (H.state host.new) }
    ensures any_moment { AtEachMomentOf (IsAmidPackage allowed incoming
        (held_by administration.old diversions.old)) (H.state host.old) (H.state host.new) }
    ensures writable { StaysWritable diversions.old diversions.new }
    ensures counts { CountsReply (H.state host.old) (H.state host.new) result.reply }
    ensures not_closed { IsFromBefore result.reply → ⊥ }
    ensures damaged { IsBrokenBy Damaged result.reply → IsTrue (H.state host.new).honest
        → IsTableDamaged (H.state host.old).world }
{
    match read_for_tree(host, administration, diversions, &incoming) {
        Ok(()) => {
            return unit_of_overridden(host, administration, diversions, incoming, allowed);
        }
        Err(fault) => {
            let alloc = administration.alloc;
            return broken(alloc, Vec::new(alloc), rereading::breakage_of(&fault));
        }
    }
}

/// The unit of a candidate.
pub(crate) fn unit_of<H: Host>(
    host: &mut H,
    administration: &mut Administration,
    diversions: &mut Diversions,
    candidate: Candidate,
    allowed: UnpackOptions,
) -> Unit
    requires order { Needs (H.state host.old)
        (IsInOrder administration.old.database administration.old.lists.lists) }
    requires open { IsOpen diversions.old.ways administration.old }
    requires indexed { IfSome administration.old.packages
        (ArePackagesOf administration.old.database.records) }
    ensures unit { IsBroken result.reply ⊎ IsUnit allowed candidate
        (held_by administration.old diversions.old) (held_by administration.new diversions.new)
        result (H.state host.old) (H.state host.new) }
    ensures open { IsBroken result.reply ⊎ IsOpen diversions.new.ways administration.new }
    ensures indexed { IsBroken result.reply ⊎ IfSome administration.new.packages
        (ArePackagesOf administration.new.database.records) }
    ensures answered { IsBroken result.reply ⊎ IsAnswered (H.state host.old) (H.state host.new) }
    ensures untouched { IsBroken result.reply → TellsNoPackage result }
    ensures told { HasCalledOf allowed candidate.tree
        (held_by administration.old diversions.old) result (H.state host.old) (H.state host.new) }
    ensures any_moment { AtEachMomentOf (IsAmidUnitOf allowed candidate.tree
        (held_by administration.old diversions.old)) (H.state host.old) (H.state host.new) }
    ensures writable { StaysWritable diversions.old diversions.new }
    ensures counts { CountsReply (H.state host.old) (H.state host.new) result.reply }
    ensures not_closed { IsFromBefore result.reply → ⊥ }
    ensures damaged { IsBrokenBy Damaged result.reply → IsTrue (H.state host.new).honest
        → IsTableDamaged (H.state host.old).world }
{
    let Candidate { label, tree } = candidate;
    match tree {
        Ok(incoming) => {
            return unit_of_package(host, administration, diversions, incoming, allowed);
        }
        Err(fault) => {
            return refused(administration.alloc, Rule::Tree(fault), label);
        }
    }
}
