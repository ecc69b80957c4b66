// The unpack of a package beside others, brought to the disk.
ghost use Rattle.std.specs.Prelude.{◌≡◌, ◌↔◌, IfOk, IfSome, OnOk, false, length, take, true};
ghost use Rattle.host_core.specs.Host.{AtEachMomentOf, Counts, Needs, Reads, Silent};
ghost use Rattle.host_core.specs.Loss.{IsOnDisk};
ghost use Rattle.file_lists.specs.Beside.{AreSameBeside};
ghost use Rattle.held_administration.specs.Open.{CanWrite};
ghost use Rattle.undo_rows.specs.Ended.{ended_as};
ghost use Rattle.held_administration.specs.Order.{IsInOrder};
ghost use Rattle.unpack_engine.specs.Others.{AreOthers};
ghost use Rattle.unpack_engine.specs.Units.{GoesByTable, HasCalled, HasFailedFor, HasUnpacked, IsAmidEither, IsTouched, with_ways_of};
ghost use Rattle.unpack_relations.specs.Checks.{AreApart};
ghost use Rattle.unit_reports.specs.Held.{held, held_by};
ghost use Rattle.unit_reports.specs.Units.{CountsCause};
ghost use Rattle.dpkg_session.specs.Run.{IsAmidBeside};
ghost use Rattle.dpkg_session.specs.Units.{HasCalledBeside, HasUnpackedBeside, HaveRows, all_yielding, given_by};

use crate::yields::{all_yields, index_where_many};
use diversions::Diversions;
use file_lists::FileLists;
use held_administration::Administration;
use host_core::{Host, HostFault};
use in_favour_rows::rows_beside;
use package_tree::Package;
use status_db::NotedDatabase;
use std::alloc::Global;
use undo_rows::Called;
use unpack_engine::{Others, Unpacked, unpack};
use unpack_relations::Beside;

// The other packages that have rows, and those that let the package take paths of theirs.
fn others_beside<H: Host>(
    alloc: Global,
    host: &mut H,
    database: &NotedDatabase,
    lists: &FileLists,
    diversions: &Diversions,
    incoming: &Package,
    beside: &Beside,
) -> Result<Others, HostFault>
    requires { AreApart incoming.now.name database.now.records beside.now }
    ensures rows { IfOk result (λ others. HaveRows incoming.now beside.now database.now.records
        (H.state host.old).world (H.state host.new).honest others.packages.items) }
    ensures yields { IfOk result (λ others. others.yields ≡ all_yielding incoming.now beside.now
        (held database.now lists.now diversions.now)) }
    ensures reads { Reads (H.state host.old) (H.state host.new) }
    ensures silent { Silent (H.state host.old) (H.state host.new) }
    ensures counts { Counts (H.state host.old) (H.state host.new) result }
{
    match all_yields(alloc, database, lists, diversions, incoming, beside) {
        Ok(yields) => match rows_beside(alloc, host, database, incoming, beside) {
            Ok(packages) => Ok(Others { packages, yields }),
            Err(fault) => Err(fault),
        },
        Err(_) => Err(HostFault::NoMemory),
    }
}

// Unpacks a package with the rows of others, and brings all that was done to the disk.
fn unpack_to_disk<H: Host>(
    host: &mut H,
    administration: &mut Administration,
    diversions: &mut Diversions,
    incoming: Package,
    others: Others,
    told: &mut Vec<Called>,
) -> Result<Unpacked, HostFault>
    requires others { AreOthers incoming.name administration.old.database.records
        others.packages.items }
    requires order { Needs (H.state host.old)
        (IsInOrder administration.old.database administration.old.lists.lists) }
    requires open { CanWrite administration.old }
    ensures unit { IfOk result
        (λ u. HasUnpacked (given_by incoming (held_by administration.old diversions.old)
        diversions.new.ways others.packages.items others.yields) administration.old.places
        (ended_as u.unwinding)
        administration.new.database administration.new.lists.lists (H.state host.old)
        (H.state host.new) told.old.items told.new.items) }
    ensures cause { IfOk result
        (λ u. HasFailedFor (given_by incoming (held_by administration.old diversions.old)
        diversions.new.ways others.packages.items others.yields) (H.state host.old)
        (H.state host.new) u.unwinding) }
    ensures table { IfOk result
        (λ u. GoesByTable (given_by incoming (held_by administration.old diversions.old)
        diversions.new.ways others.packages.items others.yields) u.unwinding (H.state host.old)
        (H.state host.new)) }
    ensures diversions { diversions.new ≡ with_ways_of diversions.new diversions.old }
    ensures anew { IfOk result (λ u. u.anew ≡ false → diversions.new ≡ diversions.old) }
    ensures touched { IfOk result (λ u. IsTouched incoming.name administration.old.database.records
        administration.new.database.records u.touched) }
    ensures alone { IfOk result (λ u. (u.alone ≡ true) ↔ AreSameBeside incoming.name
        administration.old.lists.lists administration.new.lists.lists) }
    ensures places { OnOk result (take (length administration.old.places)
        administration.new.places ≡ administration.old.places) }
    ensures order { IfOk result (λ u. Needs (H.state host.new)
        (IsInOrder administration.new.database administration.new.lists.lists)) }
    ensures open { OnOk result (CanWrite administration.new) }
    ensures on_disk { OnOk result (IsOnDisk (H.state host.new).events) }
    ensures told { HasCalled (given_by incoming (held_by administration.old diversions.old)
        diversions.old.ways others.packages.items others.yields) (H.state host.old)
        (H.state host.new) told.old.items told.new.items }
    ensures any_moment { AtEachMomentOf (IsAmidEither
        (given_by incoming (held_by administration.old diversions.old) diversions.old.ways
        others.packages.items others.yields)
        (given_by incoming (held_by administration.old diversions.old) diversions.new.ways
        others.packages.items others.yields) administration.old.places) (H.state host.old)
        (H.state host.new) }
    ensures denied { IfOk result (λ u. IfSome u.unwinding (λ one. CountsCause (H.state host.old)
        (H.state host.new) one.failure)) }
    ensures counts { Counts (H.state host.old) (H.state host.new) result }
{
    match unpack(host, administration, diversions, incoming, others, told) {
        Ok(unpacked) => match host.barrier() {
            Ok(()) => Ok(unpacked),
            Err(fault) => Err(fault),
        },
        Err(fault) => Err(fault),
    }
}

// Unpacks a package that isn't refused, whose paths' owners are found by an index where there are many.
fn unpack_indexed<H: Host>(
    host: &mut H,
    administration: &mut Administration,
    diversions: &mut Diversions,
    incoming: Package,
    beside: &Beside,
    told: &mut Vec<Called>,
) -> Result<Unpacked, HostFault>
    requires apart { AreApart incoming.name administration.old.database.records beside.now }
    requires order { Needs (H.state host.old)
        (IsInOrder administration.old.database administration.old.lists.lists) }
    requires open { CanWrite administration.old }
    ensures unit { IfOk result (λ u. HasUnpackedBeside incoming beside.now
        (held_by administration.old diversions.old) diversions.new.ways administration.old.places
        u.unwinding
        administration.new.database administration.new.lists.lists (H.state host.old)
        (H.state host.new) told.old.items told.new.items) }
    ensures diversions { diversions.new ≡ with_ways_of diversions.new diversions.old }
    ensures anew { IfOk result (λ u. u.anew ≡ false → diversions.new ≡ diversions.old) }
    ensures touched { IfOk result (λ u. IsTouched incoming.name administration.old.database.records
        administration.new.database.records u.touched) }
    ensures alone { IfOk result (λ u. (u.alone ≡ true) ↔ AreSameBeside incoming.name
        administration.old.lists.lists administration.new.lists.lists) }
    ensures places { OnOk result (take (length administration.old.places)
        administration.new.places ≡ administration.old.places) }
    ensures order { IfOk result (λ u. Needs (H.state host.new)
        (IsInOrder administration.new.database administration.new.lists.lists)) }
    ensures open { OnOk result (CanWrite administration.new) }
    ensures on_disk { OnOk result (IsOnDisk (H.state host.new).events) }
    ensures told { HasCalledBeside incoming beside.now (held_by administration.old diversions.old)
        (H.state host.old) (H.state host.new) told.old.items told.new.items }
    ensures any_moment { AtEachMomentOf (IsAmidBeside incoming beside.now
        (held_by administration.old diversions.old) administration.old.places) (H.state host.old)
        (H.state host.new) }
    ensures denied { IfOk result (λ u. IfSome u.unwinding (λ one. CountsCause (H.state host.old)
        (H.state host.new) one.failure)) }
    ensures counts { Counts (H.state host.old) (H.state host.new) result }
{
    match others_beside(
        administration.alloc,
        host,
        &administration.database,
        &administration.lists,
        diversions,
        &incoming,
        beside,
    ) {
        Ok(others) => unpack_to_disk(host, administration, diversions, incoming, others, told),
        Err(fault) => Err(fault),
    }
}

/// Unpacks a package that isn't refused.
pub(crate) fn unpack_beside<H: Host>(
    host: &mut H,
    administration: &mut Administration,
    diversions: &mut Diversions,
    incoming: Package,
    beside: &Beside,
    told: &mut Vec<Called>,
) -> Result<Unpacked, HostFault>
    requires apart { AreApart incoming.name administration.old.database.records beside.now }
    requires order { Needs (H.state host.old)
        (IsInOrder administration.old.database administration.old.lists.lists) }
    requires open { CanWrite administration.old }
    ensures unit { IfOk result (λ u. HasUnpackedBeside incoming beside.now
        (held_by administration.old diversions.old) diversions.new.ways administration.old.places
        u.unwinding
        administration.new.database administration.new.lists.lists (H.state host.old)
        (H.state host.new) told.old.items told.new.items) }
    ensures diversions { diversions.new ≡ with_ways_of diversions.new diversions.old }
    ensures anew { IfOk result (λ u. u.anew ≡ false → diversions.new ≡ diversions.old) }
    ensures touched { IfOk result (λ u. IsTouched incoming.name administration.old.database.records
        administration.new.database.records u.touched) }
    ensures alone { IfOk result (λ u. (u.alone ≡ true) ↔ AreSameBeside incoming.name
        administration.old.lists.lists administration.new.lists.lists) }
    ensures places { OnOk result (take (length administration.old.places)
        administration.new.places ≡ administration.old.places) }
    ensures order { IfOk result (λ u. Needs (H.state host.new)
        (IsInOrder administration.new.database administration.new.lists.lists)) }
    ensures open { OnOk result (CanWrite administration.new) }
    ensures on_disk { OnOk result (IsOnDisk (H.state host.new).events) }
    ensures told { HasCalledBeside incoming beside.now (held_by administration.old diversions.old)
        (H.state host.old) (H.state host.new) told.old.items told.new.items }
    ensures any_moment { AtEachMomentOf (IsAmidBeside incoming beside.now
        (held_by administration.old diversions.old) administration.old.places) (H.state host.old)
        (H.state host.new) }
    ensures denied { IfOk result (λ u. IfSome u.unwinding (λ one. CountsCause (H.state host.old)
        (H.state host.new) one.failure)) }
    ensures counts { Counts (H.state host.old) (H.state host.new) result }
{
    match index_where_many(
        administration.alloc,
        &mut administration.lists,
        diversions,
        &incoming,
    ) {
        Ok(()) => unpack_indexed(host, administration, diversions, incoming, beside, told),
        Err(_) => Err(HostFault::NoMemory),
    }
}
