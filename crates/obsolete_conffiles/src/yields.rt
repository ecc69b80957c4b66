// The packages that yield obsolete conffiles alone.
ghost use Rattle.std.specs.Prelude.{◌≡◌, ◌∷◌, ◌++◌, [], cond, IfOk, OnOk};
ghost use Rattle.std.specs.List.{list_any};
ghost use Rattle.std.specs.Str.{bytes_eq};
ghost use Rattle.obsolete_conffiles.specs.Yields.{obsolete_yields, yields_obsolete};

use crate::leaving::leaves_any;
use crate::meeting::yields_everywhere;
use diversions::Diversions;
use file_lists::FileLists;
use package_tree::Package;
use status_records::Record;
use std::alloc::{AllocError, Global};
use texts::{Text, Texts};

fn is_same(name: &Text, other: &Text) -> bool
    ensures { result ≡ bytes_eq name.now other.now }
{
    name.as_str() == other.as_str()
}

fn is_among(names: &[Text], name: &Text) -> bool
    ensures { result ≡ list_any (bytes_eq name.now) names.now }
{
    names.iter().any(|other| name.as_str() == other.as_str())
}

// Only of a package that leaves a conffile the lists are looked at.
fn yields_obsolete(
    alloc: Global,
    diversions: &Diversions,
    incoming: &Package,
    lists: &FileLists,
    names: &[Text],
    record: &Record,
) -> Result<bool, AllocError>
    ensures { IfOk result (λ yields. yields ≡ yields_obsolete diversions.now.ways incoming.now
        lists.now.lists names.now record.now) }
{
    if is_same(&record.name, &incoming.name) || is_among(names, &record.name) {
        return Ok(false);
    }
    if !leaves_any(diversions, incoming, record)? {
        return Ok(false);
    }
    yields_everywhere(alloc, diversions, incoming, lists, record)
}

fn push_yielding(
    alloc: Global,
    diversions: &Diversions,
    incoming: &Package,
    lists: &FileLists,
    names: &[Text],
    record: &Record,
    found: &mut Texts,
) -> Result<(), AllocError>
    ensures { OnOk result (found.new ≡ cond (yields_obsolete diversions.now.ways incoming.now
        lists.now.lists names.now record.now) (found.old ++ record.now.name ∷ []) found.old) }
{
    if yields_obsolete(alloc, diversions, incoming, lists, names, record)? {
        found.push(record.name.copy()?)?;
    }
    Ok(())
}

/// The names of recorded packages, in the order of the records, with which the incoming one clashes at no place but those of their
/// obsolete conffiles, which it ships as conffiles; those of `names` left out, which yield already.
pub fn obsolete_yields(
    alloc: Global,
    diversions: &Diversions,
    incoming: &Package,
    lists: &FileLists,
    records: &[Record],
    names: &[Text],
) -> Result<Texts, AllocError>
    ensures { IfOk result (λ found. found ≡ obsolete_yields diversions.now.ways incoming.now
        lists.now.lists records.now names.now) }
{
    let mut found = Texts::new(alloc);
    for record in records {
        push_yielding(
            alloc, diversions, incoming, lists, names, record, &mut found,
        )?;
    }
    Ok(found)
}
