// Names that only the installer writes, and at which nothing is left after an unpack.
ghost use Rattle.std.specs.Prelude.{◌≡◌, ◌++◌, ◌∷◌, [], List, IfOk, OnOk};
ghost use Rattle.std.specs.BTreeSet.{contains_text};
ghost use Rattle.std.specs.Option.{option_copied};
ghost use Rattle.file_check.specs.Ships.{is_conffile};
ghost use Rattle.package_files.specs.Files.{Each};
ghost use Rattle.package_files.specs.Names.{IsNamed};
ghost use Rattle.host_core.specs.Paths.{Path};
ghost use Rattle.listed_files.specs.Concluding.{AreElsewhere};
ghost use Rattle.unpack_plan.specs.Names.{backups, cleared_names, cut_names, gone_name, left_names, was_cut};

use crate::conffile_paths::known_conffiles;
use crate::texts_of::texts_of;
use diversions::Diversions;
use file_removal::Leaving;
use host_core::{RootPath, ShipPath, Suffix};
use list_changes::clearable_name;
use package_files::Work;
use status_records::{Record, State};
use std::alloc::{AllocError, Global};
use std::collections::BTreeSet;
use texts::Text;

// Where what stood at the places of works is kept meanwhile.
fn backups(alloc: Global, works: &[Work]) -> Result<Vec<RootPath>, AllocError>
    ensures { IfOk result (λ names. names.items ≡ backups works.now) }
{
    let mut names = Vec::new(alloc);
    for work in works {
        names.push(work.backup.copy()?)?;
    }
    Ok(names)
}

// Where a package's own conffile waited to be settled.
fn waiting_name(
    diversions: &Diversions,
    name: &Text,
    path: &ShipPath,
) -> Result<RootPath, AllocError>
    ensures name { IfOk result (λ q. q
        ≡ Rattle.unpack_plan.specs.Names.waiting_name diversions.now.ways name.now path.now) }
    ensures elsewhere { IfOk result (λ q. AreElsewhere (q ∷ [])) }
{
    let place = diversions.ship_place(name, path)?;
    place.law();
    let beside = place.beside(Suffix::New)?;
    Ok(beside)
}

// Adds that of each path which isn't in the set.
fn add_left(
    diversions: &Diversions,
    name: &Text,
    conffiles: &BTreeSet<String>,
    paths: &[ShipPath],
    names: &mut Vec<RootPath>,
) -> Result<(), AllocError>
    requires { AreElsewhere names.old.items }
    ensures names { OnOk result
        ((of : List Path)
        → ((q : Path) → contains_text conffiles.now q ≡ is_conffile of q)
        → names.new.items
        ≡ names.old.items ++ left_names diversions.now.ways name.now of paths.now) }
    ensures elsewhere { OnOk result (AreElsewhere names.new.items) }
{
    for path in paths {
        if conffiles.contains(path.as_str()) {
            continue;
        }
        names.push(waiting_name(diversions, name, path)?)?;
    }
    Ok(())
}

// Whether a unit of the package was cut behind its first file, which marks it so.
fn was_cut(found: Option<&Record>) -> bool
    ensures { result ≡ was_cut (option_copied found.entry) }
{
    let Some(found) = found else {
        return false;
    };
    match found.state {
        State::HalfInstalled => true,
        State::NotInstalled
        | State::ConfigFiles
        | State::Unpacked
        | State::HalfConfigured
        | State::Installed => false,
    }
}

// Adds where a conffile waited beside the place of an old path, if that goes.
fn add_gone(alloc: Global, path: &Leaving, names: &mut Vec<RootPath>) -> Result<(), AllocError>
    ensures { OnOk result (names.new.items ≡ names.old.items ++ gone_name path.now) }
{
    if !path.goes {
        return Ok(());
    }
    if let Some(name) = clearable_name(alloc, path.place.as_str(), Suffix::New.text())? {
        names.push(name)?;
    }
    Ok(())
}

// Adds that of each old path, behind a unit that was cut.
fn add_cut(
    alloc: Global,
    found: Option<&Record>,
    leaving: &[Leaving],
    names: &mut Vec<RootPath>,
) -> Result<(), AllocError>
    ensures { OnOk result
        (names.new.items ≡ names.old.items ++ cut_names (option_copied found.entry) leaving.now) }
{
    if !was_cut(found) {
        return Ok(());
    }
    for path in leaving {
        add_gone(alloc, path, names)?;
    }
    Ok(())
}

/// The backup of each work, the waiting names of conffiles that aren't shipped as conffiles any more,
/// and those that a cut unit left beside old paths that go.
pub(crate) fn cleared_names(
    alloc: Global,
    diversions: &Diversions,
    name: &Text,
    found: Option<&Record>,
    conffiles: &[ShipPath],
    works: &[Work],
    leaving: &[Leaving],
) -> Result<Vec<RootPath>, AllocError>
    requires { Each IsNamed works.now }
    ensures names { IfOk result (λ names. names.items
        ≡ cleared_names diversions.now.ways name.now (option_copied found.entry) conffiles.now
        works.now leaving.now) }
    ensures elsewhere { IfOk result (λ names. AreElsewhere names.items) }
{
    let set = texts_of(alloc, conffiles)?;
    let known = known_conffiles(alloc, found)?;
    let mut names = backups(alloc, works)?;
    add_left(diversions, name, &set, known.as_slice(), &mut names)?;
    add_cut(alloc, found, leaving, &mut names)?;
    Ok(names)
}
