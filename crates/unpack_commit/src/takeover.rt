// What a package takes over.
ghost use Rattle.std.specs.Prelude.{◌≡◌, IfOk};
ghost use Rattle.std.specs.List.{list_any};
ghost use Rattle.unpack_commit.specs.Takeover.{is_at, is_config_files, losers, losing_records, taken_places, yields_of};

use crate::losing::losing_records;
use crate::taken::Taken;
use diversions::Diversions;
use file_lists::FileLists;
use host_core::RootPath;
use package_files::Work;
use status_db::NotedDatabase;
use status_records::{Record, State};
use std::alloc::{AllocError, Global};
use texts::{Text, Texts};

fn is_config_files(state: State) -> bool
    ensures { result ≡ is_config_files state }
{
    match state {
        State::NotInstalled => false,
        State::ConfigFiles => true,
        State::HalfInstalled => false,
        State::Unpacked => false,
        State::HalfConfigured => false,
        State::Installed => false,
    }
}

/// The packages of which only conffiles are left, in name order: no shipped path clashes with theirs.
pub fn yields_of(alloc: Global, records: &[Record]) -> Result<Texts, AllocError>
    ensures { IfOk result (λ names. names ≡ yields_of records.now) }
{
    let mut names = Texts::new(alloc);
    for entry in records {
        if is_config_files(entry.state) {
            names.push(entry.name.copy()?)?;
        }
    }
    Ok(names)
}

/// What leaves other packages when a package's files are written: the places of files and links, the packages whose lists
/// they leave, and the records of these that lose conffiles, as they are then.
#[derive(Drop)]
pub struct Takeover {
    pub places: Vec<RootPath>,
    pub losers: Texts,
    pub records: Vec<Record>,
}

// Whether one of a package's paths has one of the places.
fn has_one(
    diversions: &Diversions,
    taken: &Taken,
    name: &Text,
    paths: &[RootPath],
) -> Result<bool, AllocError>
    ensures { IfOk result (λ has. has ≡ list_any (is_at diversions.now.ways taken.now name.now)
        paths.now) }
{
    for path in paths {
        if taken.has_path(diversions, name, path)? {
            return Ok(true);
        }
    }
    Ok(false)
}

fn losers(
    alloc: Global,
    lists: &FileLists,
    diversions: &Diversions,
    taken: &Taken,
    yields: &[Text],
) -> Result<Texts, AllocError>
    ensures { IfOk result (λ names. names ≡ losers diversions.now.ways taken.now lists.now.lists
        yields.now) }
{
    let mut names = Texts::new(alloc);
    for name in yields {
        if has_one(diversions, taken, name, lists.list_of(name))? {
            names.push(name.copy()?)?;
        }
    }
    Ok(names)
}

/// What a package that wrote these files and links takes over from packages that yield: where the lists of before name a
/// place, it leaves them, and conffiles there leave the records.
pub fn takeover_of(
    alloc: Global,
    works: &[Work],
    database: &NotedDatabase,
    lists: &FileLists,
    diversions: &Diversions,
    yields: &[Text],
) -> Result<Takeover, AllocError>
    ensures places { IfOk result (λ t. t.places.items ≡ taken_places works.now) }
    ensures losers { IfOk result (λ t. t.losers ≡ losers diversions.now.ways
        (taken_places works.now) lists.now.lists yields.now) }
    ensures records { IfOk result (λ t. t.records.items ≡ losing_records diversions.now.ways
        (taken_places works.now) (losers diversions.now.ways (taken_places works.now)
        lists.now.lists yields.now) database.now.records) }
{
    let taken = Taken::of(alloc, works)?;
    let losers = losers(alloc, lists, diversions, &taken, yields)?;
    let records = losing_records(
        alloc,
        diversions,
        &taken,
        losers.as_slice(),
        database.records(),
    )?;
    Ok(Takeover {
        places: taken.into_places(),
        losers,
        records,
    })
}
