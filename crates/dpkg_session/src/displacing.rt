// What an unpack displaces behind its commit.
ghost use Rattle.std.specs.Prelude.{◌≡◌, ℕ, List, [], None, IfOk, IfSome, OnOk, false, length, map, take, true};
ghost use Rattle.host_core.specs.Host.{AtEachMomentOf, Counts, Needs};
ghost use Rattle.host_core.specs.Loss.{IsOnDisk};
ghost use Rattle.file_lists.specs.Beside.{HadPlaces};
ghost use Rattle.file_lists.specs.Owners.{places_in};
ghost use Rattle.held_administration.specs.Open.{IsOpen};
ghost use Rattle.recorded_packages.specs.Packages.{ArePackagesOf};
ghost use Rattle.recorded_packages.specs.Renewal.{AreSameBut};
ghost use Rattle.status_db.specs.Order.{AreInOrder};
ghost use Rattle.status_records.specs.declared.record.Record.{Record};
ghost use Rattle.held_administration.specs.Order.{IsInOrder};
ghost use Rattle.unpack_engine.specs.Units.{IsTouched, with_ways_of};
ghost use Rattle.unpack_relations.specs.Checks.{AreApart};
ghost use Rattle.unit_reports.specs.Held.{held_by};
ghost use Rattle.unit_reports.specs.Units.{CountsCause, touched_at};
ghost use Rattle.dpkg_session.specs.Run.{IsAmidBeside, IsAmidUnpack};
ghost use Rattle.dpkg_session.specs.Touched.{AreOfBoth, AreUnchanged, IsTouchedBeside, told_among};
ghost use Rattle.dpkg_session.specs.Units.{HasCalledBeside, HasCalledWhole, HasUnpackedBeside, HasUnpackedWhole, IsBehind, KnowsRecords, yielding};

use crate::tellings::half_configured;
use crate::unpacking::unpack_beside;
use disappearance::Losing;
use displaced_packages::{Displaced, displace, losing_beside};
use diversions::Diversions;
use file_lists::FileLists;
use held_administration::Administration;
use host_core::{Host, HostFault, Places};
use in_favour_rows::yields_beside;
use package_tree::Package;
use recorded_packages::renew;
use relation_index::Packages;
use status_db::NotedDatabase;
use std::alloc::{AllocError, Global};
use texts::{Text, Texts};
use undo_rows::Called;
use unit_reports::{Touched, refresh, touched_of};
use unpack_engine::Unpacked;
use unpack_relations::Beside;
use version_order::Version;

/// What is known before an unpack: which packages may disappear, copies of the records of those that yield, and the names of
/// all that are half-configured.
#[derive(Drop)]
pub(crate) struct Behind {
    pub package: Text,
    pub version: Version,
    pub losing: Vec<Losing>,
    pub copies: Vec<Touched>,
    pub half: Texts,
}

// The packages that let the incoming one take paths of theirs, with their records.
fn yielding_of(
    alloc: Global,
    database: &NotedDatabase,
    beside: &Beside,
) -> Result<Vec<Touched>, AllocError>
    ensures { IfOk result (λ copies. copies.items ≡ map (touched_at database.now.records)
        (yielding beside.now)) }
{
    let names = yields_beside(alloc, beside)?;
    let copies = touched_of(alloc, database, names.as_slice())?;
    Ok(copies)
}

pub(crate) fn behind_of(
    alloc: Global,
    database: &NotedDatabase,
    lists: &FileLists,
    incoming: &Package,
    beside: &Beside,
) -> Result<Behind, AllocError>
    ensures behind { IfOk result (IsBehind incoming.now beside.now lists.now.lists) }
    ensures known { IfOk result (KnowsRecords beside.now database.now.records) }
{
    database.law();
    Ok(Behind {
        package: incoming.name.copy()?,
        version: incoming.version.copy()?,
        losing: losing_beside(alloc, lists, beside)?,
        copies: yielding_of(alloc, database, beside)?,
        half: half_configured(alloc, database.records())?,
    })
}

/// How an unpack ended, and what was displaced behind it.
#[derive(Drop)]
pub(crate) struct UnpackEnd {
    pub unpacked: Unpacked,
    pub displaced: Displaced,
}

// The end of an unpack whose rows were unwound: nothing is displaced.
fn undisplaced(alloc: Global, unpacked: Unpacked) -> UnpackEnd
    ensures unpacked { result.unpacked ≡ unpacked }
    ensures none { result.displaced.names ≡ [] }
    ensures no_failure { result.displaced.failed ≡ None }
{
    UnpackEnd {
        unpacked,
        displaced: Displaced {
            names: Texts::new(alloc),
            failed: None,
        },
    }
}

fn place_count(places: &Places) -> usize
    ensures { result ≡ length places.now }
{
    places.items.len()
}

// Whether the places of all other packages are those of before: their lists are, and so is the table of diversions.
fn keeps_others(unpacked: &Unpacked) -> bool
    ensures alone { result ≡ true → unpacked.now.alone ≡ true }
    ensures table { result ≡ true → unpacked.now.anew ≡ false }
{
    unpacked.alone && !unpacked.anew
}

// Computes the places of the package anew, of which those of all lists were the first so many; or all, where those of another
// package aren't kept.
fn renew_places(
    alloc: Global,
    lists: &FileLists,
    places: &mut Places,
    diversions: &Diversions,
    name: &Text,
    kept: usize,
    others_kept: bool,
) -> Result<(), AllocError>
    requires had { others_kept ≡ true
        → HadPlaces diversions.now.ways name.now lists.now.lists (take kept places.old) }
    ensures { OnOk result (places.new ≡ places_in diversions.now.ways lists.now.lists) }
{
    if others_kept {
        places.items.truncate(kept);
        lists.renew_places(alloc, diversions, name, places)?;
        return Ok(());
    }
    refresh(alloc, lists, diversions, places)?;
    Ok(())
}

// Brings the places up to date, and reads what the touched packages state now.
fn bring_up_to_date(
    alloc: Global,
    database: &NotedDatabase,
    packages: &mut Packages,
    lists: &FileLists,
    places: &mut Places,
    diversions: &Diversions,
    name: &Text,
    kept: usize,
    others_kept: bool,
    touched: &[Text],
) -> Result<(), AllocError>
    requires had { others_kept ≡ true
        → HadPlaces diversions.now.ways name.now lists.now.lists (take kept places.old) }
    ensures places { OnOk result (places.new ≡ places_in diversions.now.ways lists.now.lists) }
    ensures packages { OnOk result ((before : List Record) → AreInOrder before
        → ArePackagesOf before packages.old → AreSameBut touched.now before database.now.records
        → ArePackagesOf database.now.records packages.new) }
{
    renew_places(alloc, lists, places, diversions, name, kept, others_kept)?;
    renew(alloc, packages, database, touched)?;
    Ok(())
}

// Unpacks the package of this name, and then brings up to date what is known of lists and records.
fn unpack_refreshed<H: Host>(
    host: &mut H,
    administration: &mut Administration,
    packages: &mut Packages,
    diversions: &mut Diversions,
    name: &Text,
    incoming: Package,
    beside: &Beside,
    told: &mut Vec<Called>,
) -> Result<Unpacked, HostFault>
    requires named { name.now ≡ incoming.name }
    requires apart { AreApart incoming.name administration.old.database.records beside.now }
    requires order { Needs (H.state host.old)
        (IsInOrder administration.old.database administration.old.lists.lists) }
    requires open { IsOpen diversions.old.ways administration.old }
    requires indexed { ArePackagesOf administration.old.database.records packages.old }
    ensures unit { IfOk result (λ u. HasUnpackedBeside incoming beside.now
        (held_by administration.old diversions.old) diversions.new.ways administration.old.places
        u.unwinding
        administration.new.database administration.new.lists.lists (H.state host.old)
        (H.state host.new) told.old.items told.new.items) }
    ensures diversions { diversions.new ≡ with_ways_of diversions.new diversions.old }
    ensures touched { IfOk result (λ u. IsTouched incoming.name administration.old.database.records
        administration.new.database.records u.touched) }
    ensures order { IfOk result (λ u. Needs (H.state host.new)
        (IsInOrder administration.new.database administration.new.lists.lists)) }
    ensures open { OnOk result (IsOpen diversions.new.ways administration.new) }
    ensures indexed { OnOk result (ArePackagesOf administration.new.database.records packages.new) }
    ensures on_disk { OnOk result (IsOnDisk (H.state host.new).events) }
    ensures told { HasCalledBeside incoming beside.now (held_by administration.old diversions.old)
        (H.state host.old) (H.state host.new) told.old.items told.new.items }
    ensures any_moment { AtEachMomentOf (IsAmidBeside incoming beside.now
        (held_by administration.old diversions.old) administration.old.places) (H.state host.old)
        (H.state host.new) }
    ensures denied { IfOk result (λ u. IfSome u.unwinding (λ one. CountsCause (H.state host.old)
        (H.state host.new) one.failure)) }
    ensures counts { Counts (H.state host.old) (H.state host.new) result }
{
    administration.database.law();
    administration.lists.law();
    let kept = place_count(&administration.places);
    match unpack_beside(host, administration, diversions, incoming, beside, told) {
        Ok(unpacked) => match bring_up_to_date(
            administration.alloc,
            &administration.database,
            packages,
            &administration.lists,
            &mut administration.places,
            diversions,
            name,
            kept,
            keeps_others(&unpacked),
            unpacked.touched.as_slice(),
        ) {
            Ok(()) => Ok(unpacked),
            Err(_) => Err(HostFault::NoMemory),
        },
        Err(fault) => Err(fault),
    }
}

/// Unpacks a package that isn't refused, and displaces packages behind the commit.
pub(crate) fn unpack_whole<H: Host>(
    host: &mut H,
    administration: &mut Administration,
    packages: &mut Packages,
    diversions: &mut Diversions,
    incoming: Package,
    beside: &Beside,
    behind: &Behind,
    told: &mut Vec<Called>,
) -> Result<UnpackEnd, HostFault>
    requires behind { IsBehind incoming beside.now administration.old.lists.lists behind.now }
    requires apart { AreApart incoming.name administration.old.database.records beside.now }
    requires order { Needs (H.state host.old)
        (IsInOrder administration.old.database administration.old.lists.lists) }
    requires open { IsOpen diversions.old.ways administration.old }
    requires indexed { ArePackagesOf administration.old.database.records packages.old }
    requires untold { told.old.items ≡ [] }
    ensures unit { IfOk result (λ e. HasUnpackedWhole incoming beside.now
        (held_by administration.old diversions.old) e.unpacked.unwinding e.displaced.names
        e.displaced.failed (held_by administration.new diversions.new) (H.state host.old)
        (H.state host.new) told.old.items told.new.items) }
    ensures diversions { diversions.new ≡ with_ways_of diversions.new diversions.old }
    ensures touched { IfOk result (λ e. (names unchanged : List (List ℕ))
        → AreOfBoth e.unpacked.touched e.displaced.names names
        → AreUnchanged administration.old.database.records administration.new.database.records
        (yielding beside.now) unchanged
        → IsTouchedBeside incoming.name administration.old.database.records
        administration.new.database.records (told_among incoming.name unchanged names)) }
    ensures order { OnOk result (Needs (H.state host.new)
        (IsInOrder administration.new.database administration.new.lists.lists)) }
    ensures open { OnOk result (IsOpen diversions.new.ways administration.new) }
    ensures indexed { OnOk result (ArePackagesOf administration.new.database.records packages.new) }
    ensures on_disk { OnOk result (IsOnDisk (H.state host.new).events) }
    ensures told { HasCalledWhole incoming beside.now (held_by administration.old diversions.old)
        (H.state host.old) (H.state host.new) told.old.items told.new.items }
    ensures any_moment { AtEachMomentOf (IsAmidUnpack incoming beside.now
        (held_by administration.old diversions.old)) (H.state host.old) (H.state host.new) }
    ensures denied { IfOk result (λ e. IfSome e.unpacked.unwinding (λ one. CountsCause
        (H.state host.old) (H.state host.new) one.failure)) }
    ensures counts { Counts (H.state host.old) (H.state host.new) result }
{
    match unpack_refreshed(
        host,
        administration,
        packages,
        diversions,
        &behind.package,
        incoming,
        beside,
        told,
    ) {
        Ok(unpacked) => {
            if unpacked.unwinding.is_some() {
                return Ok(undisplaced(administration.alloc, unpacked));
            }
            match displace(
                host,
                administration,
                packages,
                diversions,
                &behind.package,
                &behind.version,
                behind.losing.as_slice(),
                beside.conflicting.as_slice(),
                told,
            ) {
                Ok(displaced) => Ok(UnpackEnd {
                    unpacked,
                    displaced,
                }),
                Err(fault) => Err(fault),
            }
        }
        Err(fault) => Err(fault),
    }
}
