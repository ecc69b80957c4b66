// Taking paths out of a list.
ghost use Rattle.std.specs.Prelude.{◌≡◌, ◌++◌, ◌∷◌, [], ℕ, List, Contains, not, cond, true, IfOk, OnOk, OnErr};
ghost use Rattle.std.specs.BTreeSet.{contains_text};
ghost use Rattle.host_core.specs.Host.{AtEachMoment, Counts, Leaves, Needs, Silent};
ghost use Rattle.texts.specs.PackageNames.{is_package_name};
ghost use Rattle.administration.specs.Files.{IsReplaced, IsReplacing};
ghost use Rattle.administration.specs.Places.{list_path};
ghost use Rattle.diversions.specs.Ways.{place};
ghost use Rattle.file_lists.specs.Index.{IsIndexed};
ghost use Rattle.file_lists.specs.Owners.{paths_of};
ghost use Rattle.file_lists.specs.Taking.{without_all, IsTaking, HasTakenAll};
ghost use Rattle.file_lists.specs.Writing.{left_paths, list_file, without_places, IsListReady};

use crate::index::Index;
use crate::ordering::texts_of;
use crate::paths::Paths;
use crate::table::Table;
use crate::writing::replace_list;
use diversions::Diversions;
use host_core::{Host, HostFault, RootPath};
use std::alloc::{AllocError, Global};
use std::collections::BTreeSet;
use texts::Text;

// Keeps a path that lies at none of the places.
fn keep_path(
    diversions: &Diversions,
    places: &BTreeSet<String>,
    name: &Text,
    path: &RootPath,
    left: &mut Paths,
) -> Result<(), AllocError>
    ensures { OnOk result
        (left.new
        ≡ left.old
        ++ cond (not (contains_text places.now (place diversions.now.ways name.now path.now)))
        (path.now ∷ []) []) }
{
    let there = diversions.place(name, path)?;
    if places.contains(there.as_str()) {
        return Ok(());
    }
    left.items.push(path.copy()?)?;
    Ok(())
}

fn left_paths(
    alloc: Global,
    diversions: &Diversions,
    places: &[RootPath],
    name: &Text,
    paths: &[RootPath],
) -> Result<Paths, AllocError>
    ensures { IfOk result
        (λ left. left ≡ left_paths diversions.now.ways places.now name.now paths.now) }
{
    let taken = texts_of(alloc, places)?;
    let mut left = Paths {
        items: Vec::new(alloc),
    };
    for path in paths {
        keep_path(diversions, &taken, name, path, &mut left)?;
    }
    Ok(left)
}

/// Writes the list of a package without the paths that lie at these places.
pub(crate) fn take_paths<H: Host>(
    alloc: Global,
    host: &mut H,
    table: &mut Table,
    index: &mut Option<Index>,
    diversions: &Diversions,
    places: &[RootPath],
    name: &Text,
) -> Result<(), HostFault>
    requires named { is_package_name name.now ≡ true }
    requires ready { Needs (H.state host.old) (IsListReady name.now) }
    requires indexed { IsIndexed index.old table.old }
    ensures indexed { IsIndexed index.new table.new }
    ensures table { OnOk result
        (table.new ≡ without_places diversions.now.ways places.now name.now table.old) }
    ensures err { OnErr result (table.new ≡ table.old) }
    ensures replaced { Leaves result
        (IsReplaced (list_path name.now)
        (list_file
        (left_paths diversions.now.ways places.now name.now (paths_of table.old name.now))))
        (H.state host.old) (H.state host.new) }
    ensures any_moment { AtEachMoment
        (IsReplacing (list_path name.now)
        (list_file
        (left_paths diversions.now.ways places.now name.now (paths_of table.old name.now))))
        (H.state host.old) (H.state host.new) }
    ensures silent { Silent (H.state host.old) (H.state host.new) }
    ensures counts { Counts (H.state host.old) (H.state host.new) result }
{
    table.law();
    let left = left_paths(alloc, diversions, places, name, table.list_of(name))?;
    replace_list(alloc, host, table, index, name, left)
}

/// The same of each of these packages.
#[tactic(auto, using(host_core::proofs::Moments::silent_then))]
pub(crate) fn take_all<H: Host>(
    alloc: Global,
    host: &mut H,
    table: &mut Table,
    index: &mut Option<Index>,
    diversions: &Diversions,
    places: &[RootPath],
    from: &[Text],
) -> Result<(), HostFault>
    requires named { (name : List ℕ) → Contains from.now name → is_package_name name ≡ true }
    requires ready { Needs (H.state host.old)
        (λ w. (name : List ℕ) → Contains from.now name → IsListReady name w) }
    requires indexed { IsIndexed index.old table.old }
    ensures indexed { IsIndexed index.new table.new }
    ensures table { OnOk result
        (table.new ≡ without_all diversions.now.ways places.now from.now table.old) }
    ensures taken { Leaves result (HasTakenAll diversions.now.ways places.now from.now table.old)
        (H.state host.old) (H.state host.new) }
    ensures any_moment { AtEachMoment
        (IsTaking diversions.now.ways places.now from.now table.old) (H.state host.old)
        (H.state host.new) }
    ensures silent { Silent (H.state host.old) (H.state host.new) }
    ensures counts { Counts (H.state host.old) (H.state host.new) result }
{
    for name in from {
        take_paths(alloc, host, table, index, diversions, places, name)?;
    }
    Ok(())
}
