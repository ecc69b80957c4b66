// What is looked at before a command.
ghost use Rattle.std.specs.Prelude.{◌≡◌, IfOk};
ghost use Rattle.host_core.specs.Looks.{Looks};
ghost use Rattle.status_db.specs.Order.{names_of};
ghost use Rattle.trigger_interests.specs.Interests.{interests_of};
ghost use Rattle.trigger_watch.specs.Hits.{hits_of};
ghost use Rattle.trigger_watch.specs.Watch.{IsWatch, installed};

use crate::hits::{Hits, read_hits};
use file_lists::FileLists;
use host_core::{Host, HostFault};
use status_db::NotedDatabase;
use status_records::Record;
use std::alloc::{AllocError, Global};
use texts::Text;
use trigger_interests::{Interest, read_interests};

/// What each recorded package hit before a command, of what installed packages were interested in.
#[derive(Drop)]
pub struct TriggerWatch {
    pub before: Vec<Hits>,
}

fn installed(alloc: Global, records: &[Record]) -> Result<Vec<Text>, AllocError>
    ensures { IfOk result (λ names. names.items ≡ installed records.now) }
{
    let mut names = Vec::new(alloc);
    for entry in records {
        if entry.state.is_installed() {
            names.push(entry.name.copy()?)?;
        }
    }
    Ok(names)
}

fn names_of(alloc: Global, records: &[Record]) -> Result<Vec<Text>, AllocError>
    ensures { IfOk result (λ names. names.items ≡ names_of records.now) }
{
    let mut names = Vec::new(alloc);
    for entry in records {
        names.push(entry.name.copy()?)?;
    }
    Ok(names)
}

/// The interests of all installed packages.
pub(crate) fn read_installed<H: Host>(
    alloc: Global,
    host: &mut H,
    records: &[Record],
) -> Result<Vec<Interest>, HostFault>
    ensures looks { Looks result (λ interests w. interests.items
        ≡ interests_of w (installed records.now)) (H.state host.old) (H.state host.new) }
{
    let names = installed(alloc, records)?;
    read_interests(alloc, host, names.as_slice())
}

// What each recorded package hits.
fn read_recorded<H: Host>(
    alloc: Global,
    host: &mut H,
    records: &[Record],
    lists: &FileLists,
    by_files: bool,
    interests: &[Interest],
) -> Result<Vec<Hits>, HostFault>
    ensures looks { Looks result (λ before w. before.items
        ≡ hits_of w lists.now.lists by_files interests.now (names_of records.now))
        (H.state host.old) (H.state host.new) }
{
    let names = names_of(alloc, records)?;
    read_hits(alloc, host, lists, by_files, interests, names.as_slice())
}

/// What each recorded package hits of the interests of all installed packages. No script is called.
pub fn watch<H: Host>(
    alloc: Global,
    host: &mut H,
    database: &NotedDatabase,
    lists: &FileLists,
    by_files: bool,
) -> Result<TriggerWatch, HostFault>
    ensures looks { Looks result (λ watch w. IsWatch w database.now.records lists.now.lists
        by_files watch) (H.state host.old) (H.state host.new) }
{
    let interests = read_installed(alloc, host, database.records())?;
    match read_recorded(
        alloc,
        host,
        database.records(),
        lists,
        by_files,
        interests.as_slice(),
    ) {
        Ok(before) => Ok(TriggerWatch { before }),
        Err(fault) => Err(fault),
    }
}
