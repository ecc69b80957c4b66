// What questions read, part by part.
ghost use Rattle.std.specs.Prelude.{◌≡◌, ◌∷◌, [], false, IsTrue, IfOk};
ghost use Rattle.host_core.specs.Host.{Counts, Leaves, Needs, Reads, Silent};
ghost use Rattle.administration.specs.Fault.{CountsAdministration};
ghost use Rattle.aliases.specs.Reading.{AreAliasesIn};
ghost use Rattle.diversions.specs.Lines.{HasDiversions};
ghost use Rattle.host_overlay.specs.Seen.{seen};
ghost use Rattle.info_format.specs.Seeing.{IsSeenThrough};
ghost use Rattle.file_lists.specs.Followed.{AreWhole, diverted_paths};
ghost use Rattle.opening.specs.Parts.{Diversions as ItsDiversions, Finds, IsDamaged, IsTable, fault_in, names_of};
ghost use Rattle.inquiries.specs.Read.{diversions_parts, FindsAll, FindsLists, FindsRest, HasAll, HasFollowed, HasSeenLists, HasWays, records_parts};

use administration::AdministrationFault;
use diversions::Diversions;
use file_lists::{FileLists, add_diverted, read_above_each};
use host_core::{Host, HostFault, RootPath};
use host_overlay::SeenNames;
use info_format::see_names;
use opening::{Opened, check_root, follow, names_of};
use status_db::NotedDatabase;
use std::alloc::Global;
use texts::Text;

/// The records, with the notes.
pub(crate) fn read_records<H: Host>(
    alloc: Global,
    host: &mut H,
) -> Result<NotedDatabase, AdministrationFault>
    ensures finds { IsTrue (H.state host.new).honest
        → Finds records_parts (H.state host.old).world (fault_in result) }
    ensures table { IfOk result (λ d. Needs (H.state host.new) (λ w. IsTable w d.records)) }
    ensures reads { Reads (H.state host.old) (H.state host.new) }
    ensures silent { Silent (H.state host.old) (H.state host.new) }
    ensures counts { CountsAdministration (H.state host.old) (H.state host.new) result }
{
    check_root(alloc, host)?;
    let database = NotedDatabase::open(alloc, host)?;
    database.law();
    Ok(database)
}

/// What a question about all packages' files read, and how it sees the names in `info/`.
#[derive(Drop)]
pub struct SeenAll {
    pub opened: Opened,
    pub shown: SeenNames,
}

// The lists of packages, through names.
fn open_seen<H: Host>(
    alloc: Global,
    host: &mut H,
    shown: SeenNames,
    names: &[Text],
) -> Result<(FileLists, SeenNames), AdministrationFault>
    requires through { Needs (H.state host.old) (λ w. IsSeenThrough w shown) }
    ensures finds { IsTrue (H.state host.new).honest
        → FindsLists names.now (H.state host.old).world (fault_in result) }
    ensures lists { IfOk result (λ read. Needs (H.state host.new)
        (HasSeenLists names.now read.0.lists (seen read.1))) }
    ensures reads { Reads (H.state host.old) (H.state host.new) }
    ensures silent { Silent (H.state host.old) (H.state host.new) }
    ensures counts { CountsAdministration (H.state host.old) (H.state host.new) result }
{
    match FileLists::open_seen(alloc, host, &shown, names) {
        Ok(lists) => Ok((lists, shown)),
        Err(fault) => Err(fault),
    }
}

/// The lists of packages, as a command's opening would find them.
pub(crate) fn read_seen<H: Host>(
    alloc: Global,
    host: &mut H,
    database: &NotedDatabase,
    names: &[Text],
) -> Result<(FileLists, SeenNames), AdministrationFault>
    requires { Needs (H.state host.old) (λ w. IsTable w database.now.records) }
    ensures finds { IsTrue (H.state host.new).honest
        → FindsLists names.now (H.state host.old).world (fault_in result) }
    ensures lists { IfOk result (λ read. Needs (H.state host.new)
        (HasSeenLists names.now read.0.lists (seen read.1))) }
    ensures reads { Reads (H.state host.old) (H.state host.new) }
    ensures silent { Silent (H.state host.old) (H.state host.new) }
    ensures counts { CountsAdministration (H.state host.old) (H.state host.new) result }
{
    match see_names(alloc, host, database) {
        Ok(shown) => open_seen(alloc, host, shown, names),
        Err(fault) => Err(fault),
    }
}

// Those of recorded packages.
fn read_lists<H: Host>(
    alloc: Global,
    host: &mut H,
    database: &NotedDatabase,
) -> Result<(FileLists, SeenNames), AdministrationFault>
    requires { Needs (H.state host.old) (λ w. IsTable w database.now.records) }
    ensures finds { IsTrue (H.state host.new).honest
        → FindsLists (names_of database.now.records) (H.state host.old).world
        (fault_in result) }
    ensures lists { IfOk result (λ read. Needs (H.state host.new)
        (HasSeenLists (names_of database.now.records) read.0.lists (seen read.1))) }
    ensures reads { Reads (H.state host.old) (H.state host.new) }
    ensures silent { Silent (H.state host.old) (H.state host.new) }
    ensures counts { CountsAdministration (H.state host.old) (H.state host.new) result }
{
    let names = names_of(alloc, database.records())?;
    read_seen(alloc, host, database, names.as_slice())
}

/// The diversions.
pub(crate) fn read_diversions<H: Host>(
    alloc: Global,
    host: &mut H,
) -> Result<Diversions, AdministrationFault>
    ensures finds { IsTrue (H.state host.new).honest
        → Finds diversions_parts (H.state host.old).world (fault_in result) }
    ensures entries { IfOk result
        (λ d. Needs (H.state host.new) (λ w. HasDiversions w d.ways.entries)) }
    ensures bare { IfOk result (λ d. d.ways.aliases ≡ []) }
    ensures reads { Reads (H.state host.old) (H.state host.new) }
    ensures silent { Silent (H.state host.old) (H.state host.new) }
    ensures counts { CountsAdministration (H.state host.old) (H.state host.new) result }
{
    check_root(alloc, host)?;
    Diversions::open(alloc, host)
}

// Adds the diversions.
fn read_behind<H: Host>(
    alloc: Global,
    host: &mut H,
    database: NotedDatabase,
    lists: FileLists,
    shown: SeenNames,
) -> Result<SeenAll, AdministrationFault>
    requires table { Needs (H.state host.old) (λ w. IsTable w database.records) }
    requires lists { Needs (H.state host.old)
        (HasSeenLists (names_of database.records) lists.lists (seen shown)) }
    ensures finds { IsTrue (H.state host.new).honest
        → Finds (ItsDiversions ∷ []) (H.state host.old).world (fault_in result) }
    ensures held { IfOk result (λ all. Needs (H.state host.new)
        (HasAll all.opened.database.records all.opened.lists.lists
        all.opened.diversions.ways.entries (seen all.shown))) }
    ensures bare { IfOk result (λ all. all.opened.diversions.ways.aliases ≡ []) }
    ensures writable { IfOk result (λ all. all.opened.diversions.closed ≡ false) }
    ensures reads { Reads (H.state host.old) (H.state host.new) }
    ensures silent { Silent (H.state host.old) (H.state host.new) }
    ensures counts { CountsAdministration (H.state host.old) (H.state host.new) result }
{
    match Diversions::open(alloc, host) {
        Ok(diversions) => Ok(SeenAll {
            opened: Opened {
                database,
                lists,
                diversions,
            },
            shown,
        }),
        Err(fault) => Err(fault),
    }
}

// Adds the lists and the diversions.
fn read_rest<H: Host>(
    alloc: Global,
    host: &mut H,
    database: NotedDatabase,
) -> Result<SeenAll, AdministrationFault>
    requires { Needs (H.state host.old) (λ w. IsTable w database.records) }
    ensures finds { IsTrue (H.state host.new).honest
        → FindsRest (names_of database.records) (H.state host.old).world (fault_in result) }
    ensures held { IfOk result (λ all. Needs (H.state host.new)
        (HasAll all.opened.database.records all.opened.lists.lists
        all.opened.diversions.ways.entries (seen all.shown))) }
    ensures bare { IfOk result (λ all. all.opened.diversions.ways.aliases ≡ []) }
    ensures writable { IfOk result (λ all. all.opened.diversions.closed ≡ false) }
    ensures reads { Reads (H.state host.old) (H.state host.new) }
    ensures silent { Silent (H.state host.old) (H.state host.new) }
    ensures counts { CountsAdministration (H.state host.old) (H.state host.new) result }
{
    match read_lists(alloc, host, &database) {
        Ok((lists, shown)) => read_behind(alloc, host, database, lists, shown),
        Err(fault) => Err(fault),
    }
}

/// The records, all lists and the diversions.
pub fn read_all<H: Host>(alloc: Global, host: &mut H) -> Result<SeenAll, AdministrationFault>
    ensures finds { IsTrue (H.state host.new).honest
        → FindsAll (H.state host.old).world (fault_in result) }
    ensures held { IfOk result (λ all. Needs (H.state host.new)
        (HasAll all.opened.database.records all.opened.lists.lists
        all.opened.diversions.ways.entries (seen all.shown))) }
    ensures bare { IfOk result (λ all. all.opened.diversions.ways.aliases ≡ []) }
    ensures writable { IfOk result (λ all. all.opened.diversions.closed ≡ false) }
    ensures reads { Reads (H.state host.old) (H.state host.new) }
    ensures silent { Silent (H.state host.old) (H.state host.new) }
    ensures counts { CountsAdministration (H.state host.old) (H.state host.new) result }
{
    match read_records(alloc, host) {
        Ok(database) => read_rest(alloc, host, database),
        Err(fault) => Err(fault),
    }
}

// Adds the aliases of the root.
fn follow_seen<H: Host>(
    alloc: Global,
    host: &mut H,
    all: SeenAll,
) -> Result<SeenAll, AdministrationFault>
    requires bare { all.opened.diversions.ways.aliases ≡ [] }
    requires held { Needs (H.state host.old)
        (HasAll all.opened.database.records all.opened.lists.lists
        all.opened.diversions.ways.entries (seen all.shown)) }
    ensures held { IfOk result (λ all. Needs (H.state host.new)
        (HasFollowed all.opened.database.records all.opened.lists.lists
        all.opened.diversions.ways (seen all.shown))) }
    ensures writable { IfOk result
        (λ kept. kept.opened.diversions.closed ≡ all.opened.diversions.closed) }
    ensures sound { IsDamaged (fault_in result) → ⊥ }
    ensures reads { Reads (H.state host.old) (H.state host.new) }
    ensures silent { Silent (H.state host.old) (H.state host.new) }
    ensures counts { CountsAdministration (H.state host.old) (H.state host.new) result }
{
    let SeenAll { opened, shown } = all;
    match follow(alloc, host, opened) {
        Ok(opened) => Ok(SeenAll { opened, shown }),
        Err(fault) => Err(fault),
    }
}

/// The same, with the aliases of the root.
pub fn read_followed<H: Host>(alloc: Global, host: &mut H) -> Result<SeenAll, AdministrationFault>
    ensures finds { IsTrue (H.state host.new).honest
        → FindsAll (H.state host.old).world (fault_in result) }
    ensures held { IfOk result (λ all. Needs (H.state host.new)
        (HasFollowed all.opened.database.records all.opened.lists.lists
        all.opened.diversions.ways (seen all.shown))) }
    ensures writable { IfOk result (λ all. all.opened.diversions.closed ≡ false) }
    ensures reads { Reads (H.state host.old) (H.state host.new) }
    ensures silent { Silent (H.state host.old) (H.state host.new) }
    ensures counts { CountsAdministration (H.state host.old) (H.state host.new) result }
{
    match read_all(alloc, host) {
        Ok(all) => follow_seen(alloc, host, all),
        Err(fault) => Err(fault),
    }
}

// Reads the aliases above a path and above those that diversions name.
fn read_ways<H: Host>(
    alloc: Global,
    host: &mut H,
    diversions: &mut Diversions,
    path: &RootPath,
) -> Result<(), HostFault>
    requires bare { diversions.old.ways.aliases ≡ [] }
    ensures entries { diversions.new.ways.entries ≡ diversions.old.ways.entries }
    ensures whole { Leaves result
        (λ w _. AreAliasesIn w diversions.new.ways.aliases
        × AreWhole w (path.now ∷ diverted_paths diversions.new.ways.entries)
        diversions.new.ways.aliases)
        (H.state host.old) (H.state host.new) }
    ensures reads { Reads (H.state host.old) (H.state host.new) }
    ensures silent { Silent (H.state host.old) (H.state host.new) }
    ensures counts { Counts (H.state host.old) (H.state host.new) result }
{
    let mut paths = Vec::new(alloc);
    paths.push(path.copy()?)?;
    add_diverted(&mut paths, diversions)?;
    read_above_each(alloc, host, paths.as_slice(), diversions)
}

/// The diversions, with the aliases of the root above a path and above those that diversions name.
pub(crate) fn read_diverted<H: Host>(
    alloc: Global,
    host: &mut H,
    path: &RootPath,
) -> Result<Diversions, AdministrationFault>
    ensures finds { IsTrue (H.state host.new).honest
        → Finds diversions_parts (H.state host.old).world (fault_in result) }
    ensures ways { IfOk result (λ d. Needs (H.state host.new) (HasWays path.now d.ways)) }
    ensures reads { Reads (H.state host.old) (H.state host.new) }
    ensures silent { Silent (H.state host.old) (H.state host.new) }
    ensures counts { CountsAdministration (H.state host.old) (H.state host.new) result }
{
    match read_diversions(alloc, host) {
        Ok(mut diversions) => match read_ways(alloc, host, &mut diversions, path) {
            Ok(()) => Ok(diversions),
            Err(fault) => Err(AdministrationFault::from(fault)),
        },
        Err(fault) => Err(fault),
    }
}
