// The administration as a whole, part by part in the order in which they are opened.
ghost use Rattle.std.specs.Prelude.{◌≡◌, ◌∷◌, [], true, false, IsTrue, Some, IfOk, OnOk};
ghost use Rattle.host_core.specs.Host.{AtEachMoment, Gives, Leaves, Needs, Reads, Silent};
ghost use Rattle.host_core.specs.Paths.{is_path};
ghost use Rattle.host_core.specs.World.{HasParent, IsDirectory, KeepsBut, World};
ghost use Rattle.administration.specs.Fault.{CountsAdministration};
ghost use Rattle.administration.specs.Places.{diversions_path, home_path, status_path, temporary, updates_path, info_path, tmp_path};
ghost use Rattle.administration.specs.declared.fault.AdministrationFault.TheVariants.{Damaged};
ghost use Rattle.diversions.specs.Lines.{HasDiversions};
ghost use Rattle.opening.specs.Leaving.{is_way, IsOpening, IsOpeningOrMerging, IsReading, var_path, lib_path};
ghost use Rattle.opening.specs.Parts.{Root, Way, IsDamaged, IsTable, Opens, OpensAndMerges, ReadsAndMerges, fault_in, told, Spare, Info, names_of, Diversions as ItsDiversions, Leftovers, parts};
ghost use Rattle.status_db.specs.Noting.{AreNoted, IsMerging};
ghost use Rattle.status_db.specs.Held.{IsKept, is_record_place};
ghost use Rattle.opening.specs.Opened.{IsFound, IsListed, IsOpened};
ghost use Rattle.opening.specs.Stopped.{AfterAStop, IsBrought};

use crate::stopped::bring_to_disk;
use administration::{
    AdministrationFault, Flatness, INCOMING, INFO, Standing, UPDATES, inspect_flat, is_directory,
    look, make_directory, remove_flat,
};
use diversions::Diversions;
use file_lists::FileLists;
use host_core::{Host, RootPath};
use info_format::bring_names;
use status_db::{NotedDatabase, RecordFault};
use status_records::Record;
use std::alloc::{AllocError, Global};
use texts::{Text, Texts};

/// What an administration holds: the records, the lists of recorded packages, and the diversions.
#[derive(Drop)]
pub struct Opened {
    pub database: NotedDatabase,
    pub lists: FileLists,
    pub diversions: Diversions,
}

// Where the status file and that of diversions are written before they are renamed to their places.
const STATUS_SPARE: &str = "/var/lib/dpkg/status.dpkg-inst";

const DIVERSIONS_SPARE: &str = "/var/lib/dpkg/diversions.dpkg-inst";

fn damaged(file: RootPath, line: u64) -> AdministrationFault
    ensures { result ≡ Damaged file line }
{
    AdministrationFault::Damaged { file, line }
}

// Makes a directory where nothing stands; what else stands there must be one.
fn make_way<H: Host>(alloc: Global, host: &mut H, place: &str) -> Result<(), AdministrationFault>
    requires parent { Needs (H.state host.old) (λ w. HasParent w place.now) }
    requires way { is_way place.now ≡ true }
    ensures opens { IsTrue (H.state host.new).honest
        → Opens (Way place.now ∷ []) (fault_in result)
        (H.state host.old).world (H.state host.new).world }
    ensures any_moment { AtEachMoment IsOpening (H.state host.old) (H.state host.new) }
    ensures silent { Silent (H.state host.old) (H.state host.new) }
    ensures counts { CountsAdministration (H.state host.old) (H.state host.new) result }
{
    let path = RootPath::from_str(alloc, place)?;
    if make_directory(host, &path)? {
        return Ok(());
    }
    Err(damaged(path, 0))
}

/// The root has to be a directory.
pub fn check_root<H: Host>(alloc: Global, host: &mut H) -> Result<(), AdministrationFault>
    ensures opens { IsTrue (H.state host.new).honest
        → Opens (Root ∷ []) (fault_in result) (H.state host.old).world (H.state host.new).world }
    ensures reads { Reads (H.state host.old) (H.state host.new) }
    ensures silent { Silent (H.state host.old) (H.state host.new) }
    ensures counts { CountsAdministration (H.state host.old) (H.state host.new) result }
{
    let path = RootPath::from_str(alloc, "")?;
    if is_directory(host, &path)? {
        return Ok(());
    }
    Err(damaged(path, 0))
}

// The root, and the directories from it to the administration.
fn open_ways<H: Host>(alloc: Global, host: &mut H) -> Result<(), AdministrationFault>
    ensures opens { IsTrue (H.state host.new).honest
        → Opens (Root ∷ Way var_path ∷ Way lib_path ∷ Way home_path ∷ []) (fault_in result)
        (H.state host.old).world (H.state host.new).world }
    ensures any_moment { AtEachMoment IsOpening (H.state host.old) (H.state host.new) }
    ensures silent { Silent (H.state host.old) (H.state host.new) }
    ensures counts { CountsAdministration (H.state host.old) (H.state host.new) result }
{
    check_root(alloc, host)?;
    make_way(alloc, host, "/var")?;
    make_way(alloc, host, "/var/lib")?;
    make_way(alloc, host, "/var/lib/dpkg")
}

fn check_spare<H: Host>(alloc: Global, host: &mut H, place: &str) -> Result<(), AdministrationFault>
    requires { is_path place.now ≡ true }
    ensures opens { IsTrue (H.state host.new).honest
        → Opens (Spare place.now ∷ []) (fault_in result)
        (H.state host.old).world (H.state host.new).world }
    ensures reads { Reads (H.state host.old) (H.state host.new) }
    ensures silent { Silent (H.state host.old) (H.state host.new) }
    ensures counts { CountsAdministration (H.state host.old) (H.state host.new) result }
{
    let spare = RootPath::from_str(alloc, place)?;
    if is_directory(host, &spare)? {
        return Err(damaged(spare, 0));
    }
    Ok(())
}

/// The names of the packages that have a record.
pub fn names_of(alloc: Global, records: &[Record]) -> Result<Texts, AllocError>
    ensures { IfOk result (λ names. names ≡ names_of records.now) }
{
    let mut names = Texts::new(alloc);
    for entry in records {
        names.push(entry.name.copy()?)?;
    }
    Ok(names)
}

// Makes the directory where it is missing, and reads the lists of recorded packages.
fn open_info<H: Host>(
    alloc: Global,
    host: &mut H,
    database: &NotedDatabase,
) -> Result<FileLists, AdministrationFault>
    requires home { Needs (H.state host.old) (λ w. IsDirectory (w home_path)) }
    requires table { Needs (H.state host.old) (λ w. IsTable w database.now.records) }
    ensures opens { IsTrue (H.state host.new).honest
        → Opens (Way info_path ∷ Info ∷ []) (fault_in result)
        (H.state host.old).world (H.state host.new).world }
    ensures listed { Gives result
        (λ f old new. IsListed new (names_of database.now.records) f.lists)
        (H.state host.old) (H.state host.new) }
    ensures listing { IfOk result (λ f. f.closed ≡ false) }
    ensures any_moment { AtEachMoment IsOpening (H.state host.old) (H.state host.new) }
    ensures silent { Silent (H.state host.old) (H.state host.new) }
    ensures counts { CountsAdministration (H.state host.old) (H.state host.new) result }
{
    let names = names_of(alloc, database.records())?;
    make_way(alloc, host, INFO)?;
    FileLists::open(alloc, host, names.as_slice())
}

// Removes the directory with the files in it.
fn clear_directory<H: Host>(host: &mut H, path: RootPath) -> Result<(), AdministrationFault>
    requires place { path ≡ tmp_path }
    requires there { Needs (H.state host.old) (λ w. IsDirectory (w tmp_path)) }
    ensures opens { IsTrue (H.state host.new).honest
        → Opens (Leftovers ∷ []) (fault_in result)
        (H.state host.old).world (H.state host.new).world }
    ensures any_moment { AtEachMoment IsOpening (H.state host.old) (H.state host.new) }
    ensures silent { Silent (H.state host.old) (H.state host.new) }
    ensures counts { CountsAdministration (H.state host.old) (H.state host.new) result }
{
    match inspect_flat(host, &path)? {
        Flatness::Flat(names) => {
            remove_flat(host, &path, names.as_slice())?;
            return Ok(());
        }
        Flatness::BadName => {
            return Err(damaged(path, 0));
        }
        Flatness::Holds(directory) => {
            return Err(damaged(directory, 0));
        }
    }
}

fn clear_leftovers<H: Host>(alloc: Global, host: &mut H) -> Result<(), AdministrationFault>
    ensures opens { IsTrue (H.state host.new).honest
        → Opens (Leftovers ∷ []) (fault_in result)
        (H.state host.old).world (H.state host.new).world }
    ensures any_moment { AtEachMoment IsOpening (H.state host.old) (H.state host.new) }
    ensures silent { Silent (H.state host.old) (H.state host.new) }
    ensures counts { CountsAdministration (H.state host.old) (H.state host.new) result }
{
    let path = RootPath::from_str(alloc, INCOMING)?;
    match look(host, &path)? {
        Standing::Directory => {
            return clear_directory(host, path);
        }
        Standing::Nothing => {
            return Ok(());
        }
        Standing::Loose => {
            return Err(damaged(path, 0));
        }
    }
}

// Nothing may be in the way of the file of diversions; then what a unit left behind is removed.
fn settle_rest<H: Host>(alloc: Global, host: &mut H) -> Result<(), AdministrationFault>
    ensures opens { IsTrue (H.state host.new).honest
        → Opens (Spare (temporary diversions_path) ∷ Leftovers ∷ []) (fault_in result)
        (H.state host.old).world (H.state host.new).world }
    ensures any_moment { AtEachMoment IsOpening (H.state host.old) (H.state host.new) }
    ensures silent { Silent (H.state host.old) (H.state host.new) }
    ensures counts { CountsAdministration (H.state host.old) (H.state host.new) result }
{
    check_spare(alloc, host, DIVERSIONS_SPARE)?;
    clear_leftovers(alloc, host)
}

// The parts behind the diversions; those that were read go through.
fn settle_with<H: Host>(
    alloc: Global,
    host: &mut H,
    diversions: Diversions,
) -> Result<Diversions, AdministrationFault>
    ensures opens { IsTrue (H.state host.new).honest
        → Opens (Spare (temporary diversions_path) ∷ Leftovers ∷ []) (fault_in result)
        (H.state host.old).world (H.state host.new).world }
    ensures diversions { IfOk result (λ kept. kept ≡ diversions) }
    ensures any_moment { AtEachMoment IsOpening (H.state host.old) (H.state host.new) }
    ensures silent { Silent (H.state host.old) (H.state host.new) }
    ensures counts { CountsAdministration (H.state host.old) (H.state host.new) result }
{
    match settle_rest(alloc, host) {
        Ok(()) => {
            return Ok(diversions);
        }
        Err(fault) => {
            return Err(fault);
        }
    }
}

// The diversions, and after them what a unit left behind.
fn settle<H: Host>(alloc: Global, host: &mut H) -> Result<Diversions, AdministrationFault>
    ensures opens { IsTrue (H.state host.new).honest
        → Opens (ItsDiversions ∷ Spare (temporary diversions_path) ∷ Leftovers ∷ [])
        (fault_in result) (H.state host.old).world (H.state host.new).world }
    ensures diverted { Gives result (λ d old new. HasDiversions new d.ways.entries)
        (H.state host.old) (H.state host.new) }
    ensures writable { IfOk result (λ d. d.closed ≡ false) }
    ensures bare { IfOk result (λ d. d.ways.aliases ≡ []) }
    ensures any_moment { AtEachMoment IsOpening (H.state host.old) (H.state host.new) }
    ensures silent { Silent (H.state host.old) (H.state host.new) }
    ensures counts { CountsAdministration (H.state host.old) (H.state host.new) result }
{
    let diversions = Diversions::open(alloc, host)?;
    settle_with(alloc, host, diversions)
}

// The last parts; the lists that were read go through.
fn open_settled<H: Host>(
    alloc: Global,
    host: &mut H,
    lists: FileLists,
) -> Result<(FileLists, Diversions), AdministrationFault>
    ensures opens { IsTrue (H.state host.new).honest
        → Opens (ItsDiversions ∷ Spare (temporary diversions_path) ∷ Leftovers ∷ [])
        (fault_in result) (H.state host.old).world (H.state host.new).world }
    ensures lists { IfOk result (λ read. read.0 ≡ lists) }
    ensures diverted { Gives result (λ read old new. HasDiversions new read.1.ways.entries)
        (H.state host.old) (H.state host.new) }
    ensures writable { IfOk result (λ read. read.1.closed ≡ false) }
    ensures bare { IfOk result (λ read. read.1.ways.aliases ≡ []) }
    ensures any_moment { AtEachMoment IsOpening (H.state host.old) (H.state host.new) }
    ensures silent { Silent (H.state host.old) (H.state host.new) }
    ensures counts { CountsAdministration (H.state host.old) (H.state host.new) result }
{
    match settle(alloc, host) {
        Ok(diversions) => {
            return Ok((lists, diversions));
        }
        Err(fault) => {
            return Err(fault);
        }
    }
}

// The parts after the status file.
fn open_rest<H: Host>(
    alloc: Global,
    host: &mut H,
    database: &NotedDatabase,
) -> Result<(FileLists, Diversions), AdministrationFault>
    requires home { Needs (H.state host.old) (λ w. IsDirectory (w home_path)) }
    requires table { Needs (H.state host.old) (λ w. IsTable w database.now.records) }
    ensures opens { IsTrue (H.state host.new).honest
        → Opens
        (Spare (temporary status_path) ∷ Way updates_path ∷ Way info_path ∷ Info ∷ ItsDiversions
        ∷ Spare (temporary diversions_path) ∷ Leftovers ∷ [])
        (fault_in result) (H.state host.old).world (H.state host.new).world }
    ensures listed { Gives result
        (λ read old new. IsListed new (names_of database.now.records) read.0.lists)
        (H.state host.old) (H.state host.new) }
    ensures listing { IfOk result (λ read. read.0.closed ≡ false) }
    ensures diverted { Gives result (λ read old new. HasDiversions new read.1.ways.entries)
        (H.state host.old) (H.state host.new) }
    ensures writable { IfOk result (λ read. read.1.closed ≡ false) }
    ensures bare { IfOk result (λ read. read.1.ways.aliases ≡ []) }
    ensures any_moment { AtEachMoment IsOpening (H.state host.old) (H.state host.new) }
    ensures silent { Silent (H.state host.old) (H.state host.new) }
    ensures counts { CountsAdministration (H.state host.old) (H.state host.new) result }
{
    check_spare(alloc, host, STATUS_SPARE)?;
    make_way(alloc, host, UPDATES)?;
    let lists = open_info(alloc, host, database)?;
    open_settled(alloc, host, lists)
}

fn open_with<H: Host>(
    alloc: Global,
    host: &mut H,
    database: NotedDatabase,
) -> Result<Opened, AdministrationFault>
    requires home { Needs (H.state host.old) (λ w. IsDirectory (w home_path)) }
    requires table { Needs (H.state host.old) (λ w. IsTable w database.records) }
    ensures opens { IsTrue (H.state host.new).honest
        → Opens
        (Spare (temporary status_path) ∷ Way updates_path ∷ Way info_path ∷ Info ∷ ItsDiversions
        ∷ Spare (temporary diversions_path) ∷ Leftovers ∷ [])
        (fault_in result) (H.state host.old).world (H.state host.new).world }
    ensures database { IfOk result (λ opened. opened.database ≡ database) }
    ensures listed { Gives result
        (λ opened old new. IsListed new (names_of opened.database.records) opened.lists.lists)
        (H.state host.old) (H.state host.new) }
    ensures listing { IfOk result (λ opened. opened.lists.closed ≡ false) }
    ensures diverted { Gives result (λ opened old new. HasDiversions new opened.diversions.ways.entries)
        (H.state host.old) (H.state host.new) }
    ensures writable { IfOk result (λ opened. opened.diversions.closed ≡ false) }
    ensures bare { IfOk result (λ opened. opened.diversions.ways.aliases ≡ []) }
    ensures any_moment { AtEachMoment IsOpening (H.state host.old) (H.state host.new) }
    ensures silent { Silent (H.state host.old) (H.state host.new) }
    ensures counts { CountsAdministration (H.state host.old) (H.state host.new) result }
{
    match open_rest(alloc, host, &database) {
        Ok((lists, diversions)) => {
            return Ok(Opened {
                database,
                lists,
                diversions,
            });
        }
        Err(fault) => {
            return Err(fault);
        }
    }
}

// Reads the administration below `/var/lib/dpkg`, with its notes.
fn read_administration<H: Host>(alloc: Global, host: &mut H) -> Result<Opened, AdministrationFault>
    ensures opens { IsTrue (H.state host.new).honest
        → Opens parts (fault_in result) (H.state host.old).world (H.state host.new).world }
    ensures listing { IfOk result (λ opened. opened.lists.closed ≡ false) }
    ensures found { Gives result
        (λ opened old new. IsFound opened.database.records opened.database.notes opened.lists.lists
        opened.diversions.ways.entries new)
        (H.state host.old) (H.state host.new) }
    ensures open { IfOk result (λ opened. opened.database.closed ≡ false) }
    ensures writable { IfOk result (λ opened. opened.diversions.closed ≡ false) }
    ensures bare { IfOk result (λ opened. opened.diversions.ways.aliases ≡ []) }
    ensures any_moment { AtEachMoment IsOpening (H.state host.old) (H.state host.new) }
    ensures silent { Silent (H.state host.old) (H.state host.new) }
    ensures counts { CountsAdministration (H.state host.old) (H.state host.new) result }
{
    open_ways(alloc, host)?;
    let database = NotedDatabase::open(alloc, host)?;
    database.law();
    open_with(alloc, host, database)
}

fn told(fault: RecordFault) -> AdministrationFault
    ensures { result ≡ told fault }
{
    match fault {
        RecordFault::Device => AdministrationFault::Device,
        RecordFault::NoMemory => AdministrationFault::NoMemory,
        RecordFault::Declined => AdministrationFault::Declined,
        RecordFault::Closed => AdministrationFault::NoMemory,
    }
}

// Merges the notes into the status file, if there are any.
fn merge_notes<H: Host>(
    alloc: Global,
    host: &mut H,
    database: &mut NotedDatabase,
) -> Result<(), AdministrationFault>
    requires kept { Needs (H.state host.old) (IsKept database.old) }
    requires open { database.old.closed ≡ false }
    ensures records { database.new.records ≡ database.old.records }
    ensures number { OnOk result (database.new.notes ≡ 0) }
    ensures still { database.old.notes ≡ 0 → H.state host.new ≡ H.state host.old }
    ensures open { OnOk result (database.new.closed ≡ false) }
    ensures sound { IsDamaged (fault_in result) → ⊥ }
    ensures merged { Leaves result (AreNoted database.old.records 0)
        (H.state host.old) (H.state host.new) }
    ensures any_moment { AtEachMoment (IsMerging database.old.records)
        (H.state host.old) (H.state host.new) }
    ensures silent { Silent (H.state host.old) (H.state host.new) }
    ensures counts { CountsAdministration (H.state host.old) (H.state host.new) result }
{
    if !database.has_notes() {
        return Ok(());
    }
    match database.checkpoint(alloc, host) {
        Ok(()) => {
            return Ok(());
        }
        Err(fault) => {
            return Err(told(fault));
        }
    }
}

/// The same of what was opened.
pub(crate) fn settle_notes<H: Host>(
    alloc: Global,
    host: &mut H,
    opened: Opened,
) -> Result<Opened, AdministrationFault>
    requires found { Needs (H.state host.old)
        (IsFound opened.database.records opened.database.notes opened.lists.lists
        opened.diversions.ways.entries) }
    requires open { opened.database.closed ≡ false }
    ensures opened { Gives result
        (λ kept old new. IsOpened kept.database.records kept.lists.lists kept.diversions.ways.entries
        new)
        (H.state host.old) (H.state host.new) }
    ensures records { IfOk result (λ kept. kept.database.records ≡ opened.database.records) }
    ensures number { IfOk result (λ kept. kept.database.notes ≡ 0) }
    ensures still { opened.database.notes ≡ 0 → H.state host.new ≡ H.state host.old }
    ensures rest { Leaves result (KeepsBut is_record_place) (H.state host.old)
        (H.state host.new) }
    ensures open { IfOk result (λ kept. kept.database.closed ≡ false) }
    ensures listing { IfOk result (λ kept. kept.lists ≡ opened.lists) }
    ensures writable { IfOk result (λ kept. kept.diversions ≡ opened.diversions) }
    ensures sound { IsDamaged (fault_in result) → ⊥ }
    ensures any_moment { AtEachMoment (IsMerging opened.database.records)
        (H.state host.old) (H.state host.new) }
    ensures silent { Silent (H.state host.old) (H.state host.new) }
    ensures counts { CountsAdministration (H.state host.old) (H.state host.new) result }
{
    let Opened {
        mut database,
        lists,
        diversions,
    } = opened;
    match merge_notes(alloc, host, &mut database) {
        Ok(()) => {
            return Ok(Opened {
                database,
                lists,
                diversions,
            });
        }
        Err(fault) => {
            return Err(fault);
        }
    }
}

// Opens the administration, and merges the notes into the status file after all else was found fine.
fn open_brought<H: Host>(alloc: Global, host: &mut H) -> Result<Opened, AdministrationFault>
    ensures opens { IsTrue (H.state host.new).honest
        → ReadsAndMerges (fault_in result) (H.state host.old).world (H.state host.new).world }
    ensures opened { Gives result
        (λ opened old new. IsOpened opened.database.records opened.lists.lists
        opened.diversions.ways.entries new)
        (H.state host.old) (H.state host.new) }
    ensures number { IfOk result (λ opened. opened.database.notes ≡ 0) }
    ensures open { IfOk result (λ opened. opened.database.closed ≡ false) }
    ensures listing { IfOk result (λ opened. opened.lists.closed ≡ false) }
    ensures writable { IfOk result (λ opened. opened.diversions.closed ≡ false) }
    ensures bare { IfOk result (λ opened. opened.diversions.ways.aliases ≡ []) }
    ensures any_moment { AtEachMoment IsReading (H.state host.old) (H.state host.new) }
    ensures silent { Silent (H.state host.old) (H.state host.new) }
    ensures counts { CountsAdministration (H.state host.old) (H.state host.new) result }
{
    match read_administration(alloc, host) {
        Ok(opened) => settle_notes(alloc, host, opened),
        Err(fault) => Err(fault),
    }
}

// The same, behind the names in `info/`, which are brought to format 0.
fn open_named<H: Host>(alloc: Global, host: &mut H) -> Result<Opened, AdministrationFault>
    ensures opens { IsTrue (H.state host.new).honest
        → OpensAndMerges (fault_in result) (H.state host.old).world (H.state host.new).world }
    ensures opened { Gives result
        (λ opened old new. IsOpened opened.database.records opened.lists.lists
        opened.diversions.ways.entries new)
        (H.state host.old) (H.state host.new) }
    ensures number { IfOk result (λ opened. opened.database.notes ≡ 0) }
    ensures open { IfOk result (λ opened. opened.database.closed ≡ false) }
    ensures listing { IfOk result (λ opened. opened.lists.closed ≡ false) }
    ensures writable { IfOk result (λ opened. opened.diversions.closed ≡ false) }
    ensures bare { IfOk result (λ opened. opened.diversions.ways.aliases ≡ []) }
    ensures any_moment { AtEachMoment IsOpeningOrMerging (H.state host.old) (H.state host.new) }
    ensures silent { Silent (H.state host.old) (H.state host.new) }
    ensures counts { CountsAdministration (H.state host.old) (H.state host.new) result }
{
    match bring_names(alloc, host) {
        Ok(()) => open_brought(alloc, host),
        Err(fault) => Err(fault),
    }
}

/// Opens the administration below `/var/lib/dpkg`, and merges the notes into the status file after all
/// else was found fine. What a command that was stopped has left is brought to the disk before, and then names in `info/` to
/// format 0. A fault is that of the first part that can't be read; what opening changes is told by `opens`, whatever the answer.
pub fn open_administration<H: Host>(
    alloc: Global,
    host: &mut H,
) -> Result<Opened, AdministrationFault>
    ensures opens { IsTrue (H.state host.new).honest
        → OpensAndMerges (fault_in result) (H.state host.old).world (H.state host.new).world }
    ensures opened { Gives result
        (λ opened old new. IsOpened opened.database.records opened.lists.lists
        opened.diversions.ways.entries new)
        (H.state host.old) (H.state host.new) }
    ensures number { IfOk result (λ opened. opened.database.notes ≡ 0) }
    ensures open { IfOk result (λ opened. opened.database.closed ≡ false) }
    ensures listing { IfOk result (λ opened. opened.lists.closed ≡ false) }
    ensures writable { IfOk result (λ opened. opened.diversions.closed ≡ false) }
    ensures bare { IfOk result (λ opened. opened.diversions.ways.aliases ≡ []) }
    ensures any_moment { AtEachMoment IsOpeningOrMerging (H.state host.old) (H.state host.new) }
    ensures silent { Silent (H.state host.old) (H.state host.new) }
    ensures counts { CountsAdministration (H.state host.old) (H.state host.new) result }
    ensures brought { AfterAStop (IsBrought result) (H.state host.old) (H.state host.new) }
{
    match bring_to_disk(alloc, host) {
        Ok(()) => open_named(alloc, host),
        Err(fault) => Err(fault),
    }
}
