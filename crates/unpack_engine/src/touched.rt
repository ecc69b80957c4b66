// The packages of a unit.
ghost use Rattle.std.specs.Prelude.{◌≡◌, ◌||◌, ◌&&◌, ◌++◌, ℕ, List, IfOk, OnOk};
ghost use Rattle.std.specs.BTreeSet.{contains_text};
ghost use Rattle.std.specs.Option.{option_copied};
ghost use Rattle.unpack_engine.specs.Touched.{AreTold, deconfigured, is_deconfigured, is_half_configured, is_named, is_touched};

use status_db::NotedDatabase;
use status_records::{Record, State};
use std::alloc::{AllocError, Global};
use std::collections::BTreeSet;
use texts::{Text, Texts};

fn is_half_configured(state: State) -> bool
    ensures { result ≡ is_half_configured state }
{
    match state {
        State::NotInstalled => false,
        State::ConfigFiles => false,
        State::HalfInstalled => false,
        State::Unpacked => false,
        State::HalfConfigured => true,
        State::Installed => false,
    }
}

// Whether a package is half-configured now that wasn't before.
fn is_deconfigured(now: Option<&Record>, before: &Record) -> bool
    ensures { result ≡ is_deconfigured (option_copied now.entry) before.now }
{
    match now {
        None => false,
        Some(now) => is_half_configured(now.state) && !is_half_configured(before.state),
    }
}

// The names of the records.
fn names_of(alloc: Global, records: &[Record]) -> Result<BTreeSet<String>, AllocError>
    ensures { IfOk result (λ set. (q : List ℕ) → contains_text set q ≡ is_named records.now q) }
{
    let mut set = BTreeSet::new(alloc);
    for entry in records {
        set.insert(String::from_str(alloc, entry.name.as_str())?)?;
    }
    Ok(set)
}

// Adds the names of those of other packages that are half-configured now and weren't before.
fn add_deconfigured(
    alloc: Global,
    database: &NotedDatabase,
    others: &[Record],
    set: &mut BTreeSet<String>,
) -> Result<(), AllocError>
    ensures { OnOk result ((q : List ℕ)
        → contains_text set.new q
        ≡ contains_text set.old q || is_named
        (deconfigured database.now.records others.now) q) }
{
    for other in others {
        if is_deconfigured(database.get(&other.name), other) {
            set.insert(String::from_str(alloc, other.name.as_str())?)?;
        }
    }
    Ok(())
}

// Those of the records and of these other packages, and another name.
fn names_with(
    alloc: Global,
    database: &NotedDatabase,
    name: &Text,
    records: &[Record],
    others: &[Record],
) -> Result<BTreeSet<String>, AllocError>
    ensures { IfOk result (λ set. (q : List ℕ)
        → contains_text set q
        ≡ is_touched name.now (records.now ++ deconfigured database.now.records others.now) q) }
{
    let mut set = names_of(alloc, records)?;
    add_deconfigured(alloc, database, others, &mut set)?;
    set.insert(String::from_str(alloc, name.as_str())?)?;
    Ok(set)
}

/// The package that was named, those of these records, and those of the other packages that are
/// half-configured now and weren't before, in the order of names.
pub(crate) fn touched_of(
    alloc: Global,
    database: &NotedDatabase,
    name: &Text,
    records: &[Record],
    others: &[Record],
) -> Result<Texts, AllocError>
    ensures { IfOk result (AreTold name.now (records.now
        ++ deconfigured database.now.records others.now)) }
{
    let mut set = names_with(alloc, database, name, records, others)?;
    let mut names = Texts::new(alloc);
    while let Some(name) = set.pop_first() {
        names.push(Text::new(name))?;
    }
    Ok(names)
}
