// The list of a part is written.
ghost use Rattle.std.specs.Prelude.{◌≡◌, IfOk, OnOk, true, false};
ghost use Rattle.std.specs.List.{AllByRecursion};
ghost use Rattle.std.specs.Str.{IsUtf8};
ghost use Rattle.texts.specs.PackageNames.{is_package_name};
ghost use Rattle.host_core.specs.Host.{AtEachMoment, Counts, Leaves, Needs, Silent};
ghost use Rattle.administration.specs.Files.{IsReplaced, IsReplacing};
ghost use Rattle.administration.specs.Places.{list_path};
ghost use Rattle.file_lists.specs.Owners.{AreListPaths};
ghost use Rattle.file_lists.specs.Writing.{list_file, with_list, IsListReady};

use file_lists::{FileLists, Paths};
use host_core::{Host, HostFault, RootPath};
use listed_files::replace_list;
use std::alloc::{AllocError, Global};
use texts::Text;

// A copy of a path, whose bytes are those of a text.
fn copy_of_path(path: &RootPath) -> Result<RootPath, AllocError>
    ensures same { IfOk result (λ p. p ≡ path.now) }
    ensures text { IsUtf8 path.now }
{
    let _ = path.as_str().as_bytes();
    path.copy()
}

fn copy_of(alloc: Global, paths: &Paths) -> Result<Paths, AllocError>
    ensures same { IfOk result (λ p. p ≡ paths.now) }
    ensures texts { OnOk result (AllByRecursion IsUtf8 paths.now) }
{
    let mut items = Vec::new(alloc);
    for path in &paths.items {
        items.push(copy_of_path(path)?)?;
    }
    Ok(Paths { items })
}

/// Writes the list of a package; the paths stay with the part.
pub(crate) fn write_list<H: Host>(
    alloc: Global,
    host: &mut H,
    lists: &mut FileLists,
    name: &Text,
    paths: &Paths,
) -> Result<(), HostFault>
    requires opened { lists.old.closed ≡ false }
    requires named { is_package_name name.now ≡ true }
    requires paths { AreListPaths paths.now }
    requires ready { Needs (H.state host.old) (IsListReady name.now) }
    ensures lists { OnOk result
        (lists.new ≡ record lists.old { lists = with_list name.now paths.now lists.old.lists }) }
    ensures texts { OnOk result (AllByRecursion IsUtf8 paths.now) }
    ensures replaced { Leaves result (IsReplaced (list_path name.now) (list_file paths.now))
        (H.state host.old) (H.state host.new) }
    ensures any_moment { AtEachMoment (IsReplacing (list_path name.now) (list_file paths.now))
        (H.state host.old) (H.state host.new) }
    ensures silent { Silent (H.state host.old) (H.state host.new) }
    ensures counts { Counts (H.state host.old) (H.state host.new) result }
{
    let copy = copy_of(alloc, paths)?;
    replace_list(alloc, host, lists, name, copy)
}
