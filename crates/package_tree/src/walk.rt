// The paths of a tree, in path order.
ghost use Rattle.std.specs.Prelude.{◌≡◌, ◌||◌, ◌&&◌, not, List, ℕ, IsTrue, IsSome, IfOk, OnOk, MatchBool, MatchOption, [], true, Some, ◌↔◌};
ghost use Rattle.host_core.specs.declared.node.Kind.{Kind as AKind};
ghost use Rattle.package_tree.specs.declared.walk.Sight.{Sight as ASight};
ghost use Rattle.std.specs.BTreeSet.{contains_text};
ghost use Rattle.host_core.specs.Host.{Counts, Needs, Reads, Silent};
ghost use Rattle.host_core.specs.Looks.{Looks};
ghost use Rattle.host_core.specs.Paths.{is_below_administration};
ghost use Rattle.administration.specs.Directories.{HasBadName};
ghost use Rattle.package_tree.specs.Shipped.{is_control, AreInOrder, ArePathTexts, AreShipped, HasNoPath, IsBadBeside, IsFirstPath};
ghost use Rattle.package_tree.specs.Walk.{is_child, is_child_of, AreChildren, HasLooked, SeesTo, Takes};

use host_core::{Host, HostFault, Kind, RootPath, has_room};
use std::alloc::{AllocError, Global};
use std::collections::BTreeSet;
use texts::Text;

/// What a look at a path tells.
#[derive(Clone, Copy)]
pub(crate) enum Sight {
    Bad,
    Shipped,
    LeftOut,
}

pub(crate) fn is_control(path: &str) -> bool
    ensures { result ≡ is_control path.now }
{
    path == "/DEBIAN" || path.starts_with("/DEBIAN/")
}

/// Whether a path lies below the directory of the administration.
pub(crate) fn is_below_administration(path: &str) -> bool
    ensures { result ≡ is_below_administration path.now }
{
    path.as_bytes().starts_with(b"/var/lib/dpkg/")
}

// Adds the path of a name in a directory.
fn add_child(
    alloc: Global,
    dir: &RootPath,
    name: &Text,
    todo: &mut BTreeSet<String>,
) -> Result<(), AllocError>
    ensures { OnOk result
        ((q : List ℕ)
        → contains_text todo.new q ≡ (is_child_of dir.now q name.now || contains_text todo.old q)) }
{
    let Some(path) = dir.child(name)? else {
        return Ok(());
    };
    if is_control(path.as_str()) {
        return Ok(());
    }
    todo.insert(String::from_str(alloc, path.as_str())?)?;
    Ok(())
}

// Adds the paths of the names in a directory.
fn add_children(
    alloc: Global,
    dir: &RootPath,
    names: &[Text],
    todo: &mut BTreeSet<String>,
) -> Result<(), AllocError>
    ensures { OnOk result
        ((q : List ℕ)
        → contains_text todo.new q ≡ (is_child dir.now names.now q || contains_text todo.old q)) }
{
    for name in names {
        add_child(alloc, dir, name, todo)?;
    }
    Ok(())
}

// Adds the paths of what stands in a directory, unless one of the names is bad.
fn look_into<H: Host>(
    alloc: Global,
    host: &mut H,
    dir: &RootPath,
    todo: &mut BTreeSet<String>,
) -> Result<bool, HostFault>
    ensures found { IsTrue (H.state host.new).honest
        → IfOk result
        (λ bad. MatchBool bad (HasBadName (H.state host.old).world dir.now)
        ((HasBadName (H.state host.old).world dir.now → ⊥)
        × SeesTo (H.state host.old).world dir.now (contains_text todo.old)
        (contains_text todo.new))) }
    ensures children { OnOk result
        (AreChildren dir.now (contains_text todo.old) (contains_text todo.new)) }
    ensures reads { Reads (H.state host.old) (H.state host.new) }
    ensures silent { Silent (H.state host.old) (H.state host.new) }
    ensures counts { Counts (H.state host.old) (H.state host.new) result }
{
    let listing = host.list(dir)?;
    if listing.bad {
        return Ok(true);
    }
    add_children(alloc, dir, listing.names.as_slice(), todo)?;
    Ok(false)
}

fn is_directory(kind: Option<Kind>) -> bool
    ensures { IsTrue result ↔ (kind ≡ Some AKind.Directory) }
{
    match kind {
        Some(Kind::Directory) => true,
        Some(Kind::File) => false,
        Some(Kind::SymbolicLink) => false,
        None => false,
    }
}

// Looks at a path, and adds what stands in it.
#[tactic(auto, using(host_core::proofs::Moments::reads_then))]
fn look<H: Host>(
    alloc: Global,
    host: &mut H,
    path: &RootPath,
    todo: &mut BTreeSet<String>,
) -> Result<Sight, HostFault>
    requires there { Needs (H.state host.old) (λ w. IsSome (w path.now)) }
    ensures looks { Looks result
        (λ sight w. HasLooked w path.now (contains_text todo.old) (contains_text todo.new) sight)
        (H.state host.old) (H.state host.new) }
    ensures children { OnOk result
        (AreChildren path.now (contains_text todo.old) (contains_text todo.new)) }
{
    if !has_room(path.as_str()) {
        return Ok(Sight::Bad);
    }
    if !is_directory(host.kind(path)?) {
        return Ok(Sight::Shipped);
    }
    if look_into(alloc, host, path, todo)? {
        return Ok(Sight::Bad);
    }
    if is_below_administration(path.as_str()) {
        return Ok(Sight::LeftOut);
    }
    Ok(Sight::Shipped)
}

fn is_bad(sight: Sight) -> bool
    ensures { MatchBool result (sight ≡ ASight.Bad) (sight ≡ ASight.Bad → ⊥) }
{
    match sight {
        Sight::Bad => true,
        Sight::Shipped => false,
        Sight::LeftOut => false,
    }
}

// Adds a path that is shipped.
fn take(found: &mut Vec<RootPath>, path: RootPath, sight: Sight) -> Result<(), AllocError>
    ensures { OnOk result (Takes found.old.items path sight found.new.items) }
{
    match sight {
        Sight::Bad => {}
        Sight::Shipped => {
            found.push(path)?;
        }
        Sight::LeftOut => {}
    }
    Ok(())
}

/// Finds all paths that a tree ships, or the first bad one.
#[tactic(auto, using(host_core::proofs::Moments::reads_then))]
pub(crate) fn walk<H: Host>(
    alloc: Global,
    host: &mut H,
    found: &mut Vec<RootPath>,
) -> Result<Option<RootPath>, HostFault>
    requires { found.old.items ≡ [] }
    ensures found { IsTrue (H.state host.new).honest
        → IfOk result
        (λ bad. MatchOption bad
        (HasNoPath (IsBadBeside (H.state host.old).world)
        × AreShipped (H.state host.old).world found.new.items)
        (IsFirstPath (IsBadBeside (H.state host.old).world))) }
    ensures order { OnOk result (AreInOrder found.new.items) }
    ensures texts { OnOk result (ArePathTexts found.new.items) }
    ensures reads { Reads (H.state host.old) (H.state host.new) }
    ensures silent { Silent (H.state host.old) (H.state host.new) }
    ensures counts { Counts (H.state host.old) (H.state host.new) result }
{
    let mut todo = BTreeSet::new(alloc);
    let root = RootPath::from_str(alloc, "")?;
    if look_into(alloc, host, &root, &mut todo)? {
        return Ok(Some(root));
    }
    for _ in 0..u64::MAX {
        let Some(text) = todo.pop_first() else {
            return Ok(None);
        };
        let path = RootPath::new(text);
        let sight = look(alloc, host, &path, &mut todo)?;
        if is_bad(sight) {
            return Ok(Some(path));
        }
        take(found, path, sight)?;
    }
    Err(HostFault::NoMemory)
}
