// Questions that need lists.
ghost use Rattle.std.specs.Prelude.{◌≡◌, ◌∷◌, [], IsTrue, IfErr, IfOk};
ghost use Rattle.host_core.specs.Host.{Counts, Needs, Reads, Silent};
ghost use Rattle.administration.specs.Fault.{CountsAdministration};
ghost use Rattle.host_overlay.specs.Seen.{seen};
ghost use Rattle.opening.specs.Parts.{IsTable, fault_in};
ghost use Rattle.inquiries.specs.Read.{AreFiles, AreListsDamaged, FindsAll, HasFollowed, HasSeenLists, IsAudit, IsFilesDamage, IsMatching, IsSearch};

use crate::reading::{SeenAll, read_all, read_followed, read_records, read_seen};
use administration::AdministrationFault;
use file_lists::FileLists;
use host_core::{Host, HostFault, RootPath};
use host_overlay::SeenNames;
use opening::Opened;
use queries::{audit_text, files_text, matching_text, search_text};
use status_db::NotedDatabase;
use std::alloc::Global;
use texts::{Bytes, Text, Texts};

// The list of one package.
fn read_list<H: Host>(
    alloc: Global,
    host: &mut H,
    database: &NotedDatabase,
    name: &Text,
) -> Result<(FileLists, SeenNames), AdministrationFault>
    requires { Needs (H.state host.old) (λ w. IsTable w database.now.records) }
    ensures lists { IfOk result
        (λ read. Needs (H.state host.new)
        (HasSeenLists (name.now ∷ []) read.0.lists (seen read.1))) }
    ensures damage { IsTrue (H.state host.new).honest
        → IfErr result (AreListsDamaged (H.state host.old).world (name.now ∷ [])) }
    ensures reads { Reads (H.state host.old) (H.state host.new) }
    ensures silent { Silent (H.state host.old) (H.state host.new) }
    ensures counts { CountsAdministration (H.state host.old) (H.state host.new) result }
{
    let mut names = Texts::new(alloc);
    names.push(name.copy()?)?;
    read_seen(alloc, host, database, names.as_slice())
}

/// The paths that a package lists; none where it has no record.
pub fn list_files<H: Host>(
    alloc: Global,
    host: &mut H,
    name: &Text,
) -> Result<Option<Bytes>, AdministrationFault>
    ensures told { IfOk result (AreFiles name.now (H.state host.new)) }
    ensures damage { IsTrue (H.state host.new).honest
        → IfErr result (IsFilesDamage name.now (H.state host.old).world) }
    ensures reads { Reads (H.state host.old) (H.state host.new) }
    ensures silent { Silent (H.state host.old) (H.state host.new) }
    ensures counts { CountsAdministration (H.state host.old) (H.state host.new) result }
{
    let database = read_records(alloc, host)?;
    if database.get(name).is_none() {
        return Ok(None);
    }
    let (lists, _shown) = read_list(alloc, host, &database, name)?;
    let text = files_text(alloc, &database, &lists, name)?;
    Ok(text)
}

// The listed paths that have the place of a path.
fn search_read<H: Host>(
    alloc: Global,
    host: &mut H,
    all: SeenAll,
    path: &RootPath,
) -> Result<Bytes, HostFault>
    requires held { Needs (H.state host.old)
        (HasFollowed all.opened.database.records all.opened.lists.lists
        all.opened.diversions.ways (seen all.shown)) }
    ensures told { IfOk result (IsSearch path.now (H.state host.new)) }
    ensures reads { Reads (H.state host.old) (H.state host.new) }
    ensures silent { Silent (H.state host.old) (H.state host.new) }
    ensures counts { Counts (H.state host.old) (H.state host.new) result }
{
    let Opened {
        database: _database,
        lists,
        mut diversions,
    } = all.opened;
    diversions.read_above(host, path)?;
    let place = diversions.resolve(path)?;
    let text = search_text(alloc, &lists, &diversions, &place)?;
    Ok(text)
}

/// The listed paths that lie where a path does, each with its package.
pub fn search<H: Host>(
    alloc: Global,
    host: &mut H,
    path: &RootPath,
) -> Result<Bytes, AdministrationFault>
    ensures told { IfOk result (IsSearch path.now (H.state host.new)) }
    ensures finds { IsTrue (H.state host.new).honest
        → FindsAll (H.state host.old).world (fault_in result) }
    ensures reads { Reads (H.state host.old) (H.state host.new) }
    ensures silent { Silent (H.state host.old) (H.state host.new) }
    ensures counts { CountsAdministration (H.state host.old) (H.state host.new) result }
{
    match read_followed(alloc, host) {
        Ok(all) => match search_read(alloc, host, all, path) {
            Ok(text) => Ok(text),
            Err(fault) => Err(AdministrationFault::from(fault)),
        },
        Err(fault) => Err(fault),
    }
}

/// The packages with which something has to be done. All is read, so that what is damaged is told.
pub fn audit<H: Host>(alloc: Global, host: &mut H) -> Result<Bytes, AdministrationFault>
    ensures told { IfOk result (IsAudit (H.state host.new)) }
    ensures finds { IsTrue (H.state host.new).honest
        → FindsAll (H.state host.old).world (fault_in result) }
    ensures reads { Reads (H.state host.old) (H.state host.new) }
    ensures silent { Silent (H.state host.old) (H.state host.new) }
    ensures counts { CountsAdministration (H.state host.old) (H.state host.new) result }
{
    let all = read_all(alloc, host)?;
    let text = audit_text(alloc, &all.opened.database)?;
    Ok(text)
}

/// The listed paths that match a pattern, each with its package. All is read, as for a path.
pub fn search_matching<H: Host>(
    alloc: Global,
    host: &mut H,
    pattern: &Text,
) -> Result<Bytes, AdministrationFault>
    ensures told { IfOk result (IsMatching pattern.now (H.state host.new)) }
    ensures finds { IsTrue (H.state host.new).honest
        → FindsAll (H.state host.old).world (fault_in result) }
    ensures reads { Reads (H.state host.old) (H.state host.new) }
    ensures silent { Silent (H.state host.old) (H.state host.new) }
    ensures counts { CountsAdministration (H.state host.old) (H.state host.new) result }
{
    let all = read_all(alloc, host)?;
    let text = matching_text(alloc, pattern, &all.opened.database, &all.opened.lists)?;
    Ok(text)
}
