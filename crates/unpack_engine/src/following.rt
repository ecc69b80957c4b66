// The links above the paths that a unit has in hand, looked at again behind the scripts that are called before its files.
ghost use Rattle.std.specs.Prelude.{◌≡◌, ◌++◌, IfOk, IsTrue, OnOk, false, map};
ghost use Rattle.std.specs.List.{list_any};
ghost use Rattle.aliases.specs.Reading.{AreAliasesIn};
ghost use Rattle.file_lists.specs.Followed.{AreFollowed, AreWhole};
ghost use Rattle.host_core.specs.Host.{Counts, Leaves, Reads, Silent};
ghost use Rattle.unpack_engine.specs.Followed.{AreFollowedAgain, LieAsLinked, in_hand, lies_elsewhere, paths_in_hand, with_aliases_of};

use aliases::{Aliases, Looked};
use diversions::Diversions;
use file_lists::{FileLists, add_diverted, read_above_each};
use host_core::{Host, HostFault, RootPath};
use std::alloc::{AllocError, Global};
use texts::Text;

// The path above which links are looked at for this one.
fn in_hand(alloc: Global, diversions: &Diversions, path: &RootPath) -> Result<RootPath, AllocError>
    ensures { IfOk result (λ p. p ≡ in_hand diversions.now.ways.aliases path.now) }
{
    if !diversions.stands_at(path)? {
        return path.copy();
    }
    let name = Text::from_str(alloc, "x")?;
    match path.child(&name)? {
        Some(below) => Ok(below),
        None => path.copy(),
    }
}

fn push_in_hand(
    alloc: Global,
    diversions: &Diversions,
    union: &[RootPath],
    paths: &mut Vec<RootPath>,
) -> Result<(), AllocError>
    ensures { OnOk result (paths.new.items
        ≡ paths.old.items ++ map (in_hand diversions.now.ways.aliases) union.now) }
{
    for path in union {
        paths.push(in_hand(alloc, diversions, path)?)?;
    }
    Ok(())
}

fn paths_in_hand(
    alloc: Global,
    diversions: &Diversions,
    union: &[RootPath],
) -> Result<Vec<RootPath>, AllocError>
    ensures { IfOk result (λ paths. paths.items
        ≡ paths_in_hand diversions.now.ways.aliases union.now diversions.now.ways.entries) }
{
    let mut paths = Vec::new(alloc);
    push_in_hand(alloc, diversions, union, &mut paths)?;
    add_diverted(&mut paths, diversions)?;
    Ok(paths)
}

// Reads the aliases above these paths. No directory is looked at twice.
fn read_links<H: Host>(
    alloc: Global,
    host: &mut H,
    paths: &[RootPath],
    found: &mut Aliases,
) -> Result<(), HostFault>
    ensures sound { IsTrue (H.state host.new).honest
        → AreAliasesIn (H.state host.old).world found.old
        → AreAliasesIn (H.state host.old).world found.new }
    ensures whole { Leaves result
        (λ w _. AreAliasesIn w found.old → AreWhole w paths.now found.new)
        (H.state host.old) (H.state host.new) }
    ensures reads { Reads (H.state host.old) (H.state host.new) }
    ensures silent { Silent (H.state host.old) (H.state host.new) }
    ensures counts { Counts (H.state host.old) (H.state host.new) result }
{
    let mut looked = Looked::none(alloc);
    for path in paths {
        found.read_above_once(host, path, &mut looked)?;
    }
    Ok(())
}

// Whether one of the paths lies elsewhere by these aliases than by those that are held.
fn lie_elsewhere(
    diversions: &Diversions,
    found: &Aliases,
    paths: &[RootPath],
) -> Result<bool, AllocError>
    ensures { IfOk result (λ b. b
        ≡ list_any (lies_elsewhere diversions.now.ways.aliases found.now) paths.now) }
{
    let held = diversions.aliases();
    for path in paths {
        let place = found.resolve_path(path)?;
        if !held.is_at(path.as_str(), place.as_str())? {
            return Ok(true);
        }
    }
    Ok(false)
}

// Whether one of the paths lies elsewhere, as the links are now, than by the aliases that are held.
fn have_moved<H: Host>(
    alloc: Global,
    host: &mut H,
    diversions: &Diversions,
    paths: &[RootPath],
) -> Result<bool, HostFault>
    ensures linked { IfOk result (λ moved. moved ≡ false → IsTrue (H.state host.new).honest
        → LieAsLinked (H.state host.old).world paths.now diversions.now.ways.aliases) }
    ensures reads { Reads (H.state host.old) (H.state host.new) }
    ensures silent { Silent (H.state host.old) (H.state host.new) }
    ensures counts { Counts (H.state host.old) (H.state host.new) result }
{
    let mut found = Aliases::none(alloc);
    match read_links(alloc, host, paths, &mut found) {
        Ok(()) => Ok(lie_elsewhere(diversions, &found, paths)?),
        Err(fault) => Err(fault),
    }
}

// Reads the aliases anew, above these paths and above all that are listed.
fn follow_anew<H: Host>(
    alloc: Global,
    host: &mut H,
    lists: &FileLists,
    diversions: &mut Diversions,
    paths: &[RootPath],
) -> Result<(), HostFault>
    ensures linked { Leaves result
        (λ w _. LieAsLinked w paths.now diversions.new.ways.aliases)
        (H.state host.old) (H.state host.new) }
    ensures anew { Leaves result (λ w _. AreFollowed lists.now.lists diversions.new.ways w)
        (H.state host.old) (H.state host.new) }
    ensures kept { diversions.new ≡ with_aliases_of diversions.new diversions.old }
    ensures reads { Reads (H.state host.old) (H.state host.new) }
    ensures silent { Silent (H.state host.old) (H.state host.new) }
    ensures counts { Counts (H.state host.old) (H.state host.new) result }
{
    diversions.forget_aliases();
    match read_above_each(alloc, host, paths, diversions) {
        Ok(()) => lists.read_aliases(host, diversions),
        Err(fault) => Err(fault),
    }
}

// Looks at the links above these paths again. The answer is whether one lies elsewhere now: then the aliases were read anew.
fn follow_again<H: Host>(
    alloc: Global,
    host: &mut H,
    lists: &FileLists,
    diversions: &mut Diversions,
    paths: &[RootPath],
) -> Result<bool, HostFault>
    ensures followed { Leaves result (λ w _. AreFollowedAgain lists.now.lists paths.now
        diversions.old.ways diversions.new.ways w) (H.state host.old) (H.state host.new) }
    ensures kept { diversions.new ≡ with_aliases_of diversions.new diversions.old }
    ensures same { IfOk result (λ moved. moved ≡ false → diversions.new ≡ diversions.old) }
    ensures reads { Reads (H.state host.old) (H.state host.new) }
    ensures silent { Silent (H.state host.old) (H.state host.new) }
    ensures counts { Counts (H.state host.old) (H.state host.new) result }
{
    match have_moved(alloc, host, diversions, paths) {
        Ok(true) => match follow_anew(alloc, host, lists, diversions, paths) {
            Ok(()) => Ok(true),
            Err(fault) => Err(fault),
        },
        Ok(false) => Ok(false),
        Err(fault) => Err(fault),
    }
}

/// Looks again at the links above what a unit ships, what its package lists, and what diversions name. The answer is whether a
/// path lies elsewhere now: then the aliases were read anew.
pub(crate) fn follow_in_hand<H: Host>(
    alloc: Global,
    host: &mut H,
    lists: &FileLists,
    diversions: &mut Diversions,
    union: &[RootPath],
) -> Result<bool, HostFault>
    ensures followed { Leaves result (λ w _. AreFollowedAgain lists.now.lists
        (paths_in_hand diversions.old.ways.aliases union.now diversions.old.ways.entries)
        diversions.old.ways diversions.new.ways w) (H.state host.old) (H.state host.new) }
    ensures kept { diversions.new ≡ with_aliases_of diversions.new diversions.old }
    ensures same { IfOk result (λ moved. moved ≡ false → diversions.new ≡ diversions.old) }
    ensures reads { Reads (H.state host.old) (H.state host.new) }
    ensures silent { Silent (H.state host.old) (H.state host.new) }
    ensures counts { Counts (H.state host.old) (H.state host.new) result }
{
    let paths = paths_in_hand(alloc, diversions, union)?;
    follow_again(alloc, host, lists, diversions, paths.as_slice())
}
