// The packages that the unit of an unpack tells.
ghost use Rattle.std.specs.Prelude.{◌≡◌, ◌||◌, ℕ, List, IfOk, OnOk};
ghost use Rattle.std.specs.BTreeSet.{contains_text};
ghost use Rattle.std.specs.Option.{option_copied};
ghost use Rattle.name_sets.specs.Names.{is_among};
ghost use Rattle.unpack_engine.specs.Touched.{is_half_configured};
ghost use Rattle.dpkg_session.specs.Touched.{AreOfBoth, AreTold, deconfigured_among, half_configured, is_deconfigured, is_half, is_told, told_among};

use crate::unchanged::unchanged_of;
use status_db::NotedDatabase;
use status_records::{Record, State};
use std::alloc::{AllocError, Global};
use std::collections::BTreeSet;
use texts::{Text, Texts};
use unit_reports::{Touched, touched_of};

fn add_all(alloc: Global, set: &mut BTreeSet<String>, names: &[Text]) -> Result<(), AllocError>
    ensures { OnOk result ((q : List ℕ) → contains_text set.new q ≡ contains_text set.old q
        || is_among names.now q) }
{
    for name in names {
        set.insert(String::from_str(alloc, name.as_str())?)?;
    }
    Ok(())
}

fn set_of_both(
    alloc: Global,
    first: &[Text],
    second: &[Text],
) -> Result<BTreeSet<String>, AllocError>
    ensures { IfOk result (λ set. (q : List ℕ) → contains_text set q ≡ is_among first.now q
        || is_among second.now q) }
{
    let mut set = BTreeSet::new(alloc);
    add_all(alloc, &mut set, first)?;
    add_all(alloc, &mut set, second)?;
    Ok(set)
}

// The names of both lists, in order, each once.
fn names_of_both(alloc: Global, first: &[Text], second: &[Text]) -> Result<Texts, AllocError>
    ensures { IfOk result (AreOfBoth first.now second.now) }
{
    let mut set = set_of_both(alloc, first, second)?;
    let mut names = Texts::new(alloc);
    while let Some(name) = set.pop_first() {
        names.push(Text::new(name))?;
    }
    Ok(names)
}

fn is_among(names: &[Text], name: &Text) -> bool
    ensures { result ≡ is_among names.now name.now }
{
    names.iter().any(|other| name.as_str() == other.as_str())
}

fn is_half_configured(state: State) -> bool
    ensures { result ≡ is_half_configured state }
{
    match state {
        State::HalfConfigured => true,
        State::NotInstalled
        | State::ConfigFiles
        | State::HalfInstalled
        | State::Unpacked
        | State::Installed => false,
    }
}

fn is_half(entry: Option<&Record>) -> bool
    ensures { result ≡ is_half (option_copied entry.entry) }
{
    match entry {
        None => false,
        Some(entry) => is_half_configured(entry.state),
    }
}

/// The names of those of the records that are half-configured.
pub(crate) fn half_configured(alloc: Global, records: &[Record]) -> Result<Texts, AllocError>
    ensures { IfOk result (λ names. names ≡ half_configured records.now) }
{
    let mut names = Texts::new(alloc);
    for entry in records {
        if is_half_configured(entry.state) {
            names.push(entry.name.copy()?)?;
        }
    }
    Ok(names)
}

// Whether a package is told: the one that was named, or one that isn't unchanged.
fn is_told(package: &Text, unchanged: &[Text], name: &Text) -> bool
    ensures { result ≡ is_told «package».now unchanged.now name.now }
{
    name.as_str() == package.as_str() || !is_among(unchanged, name)
}

fn told_among(
    alloc: Global,
    package: &Text,
    unchanged: &[Text],
    names: &[Text],
) -> Result<Texts, AllocError>
    ensures { IfOk result (λ told. told ≡ told_among «package».now unchanged.now names.now) }
{
    let mut told = Texts::new(alloc);
    for name in names {
        if is_told(package, unchanged, name) {
            told.push(name.copy()?)?;
        }
    }
    Ok(told)
}

// Whether another package than the named one is half-configured now, and isn't one of those that were so before.
fn is_deconfigured(database: &NotedDatabase, package: &Text, half: &[Text], name: &Text) -> bool
    ensures { result ≡ is_deconfigured «package».now database.now.records half.now name.now }
{
    name.as_str() != package.as_str() && is_half(database.get(name)) && !is_among(half, name)
}

fn deconfigured_among(
    alloc: Global,
    database: &NotedDatabase,
    package: &Text,
    half: &[Text],
    names: &[Text],
) -> Result<Texts, AllocError>
    ensures { IfOk result (λ deconfigured. deconfigured ≡ deconfigured_among «package».now
        database.now.records half.now names.now) }
{
    let mut deconfigured = Texts::new(alloc);
    for name in names {
        if is_deconfigured(database, package, half, name) {
            deconfigured.push(name.copy()?)?;
        }
    }
    Ok(deconfigured)
}

/// The packages of a unit with their records, and the names of those of them that it deconfigured.
#[derive(Drop)]
pub(crate) struct Told {
    pub touched: Vec<Touched>,
    pub deconfigured: Texts,
}

/// What a unit tells of the packages of two lists, in the order of names. Of some packages the records of before are known by
/// copies, and of all those that were half-configured.
pub(crate) fn told_of(
    alloc: Global,
    database: &NotedDatabase,
    package: &Text,
    copies: &[Touched],
    half: &[Text],
    first: &[Text],
    second: &[Text],
) -> Result<Told, AllocError>
    ensures { IfOk result (λ told. AreTold «package».now database.now.records copies.now half.now
        first.now second.now told.touched.items told.deconfigured) }
{
    let names = names_of_both(alloc, first, second)?;
    let unchanged = unchanged_of(alloc, database, copies)?;
    let told = told_among(alloc, package, unchanged.as_slice(), names.as_slice())?;
    let deconfigured = deconfigured_among(alloc, database, package, half, told.as_slice())?;
    let touched = touched_of(alloc, database, told.as_slice())?;
    Ok(Told {
        touched,
        deconfigured,
    })
}
