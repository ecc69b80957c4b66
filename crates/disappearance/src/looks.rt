// Whether a package disappears.
ghost use Rattle.std.specs.Prelude.{◌≡◌, ◌↔◌, IfOk, IsTrue};
ghost use Rattle.host_core.specs.Host.{Counts, Reads, Silent};
ghost use Rattle.host_core.specs.Looks.{Looks};
ghost use Rattle.host_core.specs.World.{is_directory as is_directory_node};
ghost use Rattle.diversions.specs.Ways.{place};
ghost use Rattle.diversions.specs.Sights.{is_directory_kind};
ghost use Rattle.recorded_packages.specs.Packages.{ArePackagesOf};
ghost use Rattle.unit_stages.specs.Holding.{holding_of};
ghost use Rattle.disappearance.specs.Verdicts.{HasLost, IsVerdict, are_directories, is_there};

use crate::losing::Losing;
use crate::needed::is_needed;
use diversions::Diversions;
use file_lists::FileLists;
use held_administration::Administration;
use host_core::{Host, HostFault, Kind, RootPath};
use relation_index::Packages;
use status_records::{Record, State};
use texts::Text;

// Whether a package is at least half-installed.
fn is_there(entry: &Record) -> bool
    ensures { result ≡ is_there entry.now }
{
    match entry.state {
        State::NotInstalled | State::ConfigFiles => false,
        State::HalfInstalled | State::Unpacked | State::HalfConfigured | State::Installed => true,
    }
}

// Whether a package lists fewer paths than before the unpack.
fn has_lost(lists: &FileLists, losing: &Losing) -> bool
    ensures { IsTrue result ↔ HasLost lists.now.lists losing.now }
{
    lists.list_of(&losing.name).len() < losing.listed
}

fn is_directory(kind: Option<Kind>) -> bool
    ensures { result ≡ is_directory_kind kind }
{
    match kind {
        Some(Kind::Directory) => true,
        Some(Kind::File) | Some(Kind::SymbolicLink) | None => false,
    }
}

// Whether a directory stands at the place of a path of this package.
fn is_directory_at<H: Host>(
    host: &mut H,
    diversions: &Diversions,
    name: &Text,
    path: &RootPath,
) -> Result<bool, HostFault>
    ensures looks { Looks result
        (λ is w. is ≡ is_directory_node (w (place diversions.now.ways name.now path.now)))
        (H.state host.old) (H.state host.new) }
{
    let at = diversions.place(name, path)?;
    let kind = host.kind(&at)?;
    Ok(is_directory(kind))
}

// The same of each of these paths.
#[tactic(auto, using(host_core::proofs::Moments::reads_then))]
fn are_directories<H: Host>(
    host: &mut H,
    diversions: &Diversions,
    name: &Text,
    paths: &[RootPath],
) -> Result<bool, HostFault>
    ensures looks { Looks result
        (λ are w. are ≡ are_directories diversions.now.ways name.now w paths.now)
        (H.state host.old) (H.state host.new) }
{
    for path in paths {
        let stands = is_directory_at(host, diversions, name, path)?;
        if !stands {
            return Ok(false);
        }
    }
    Ok(true)
}

/// Looks whether a package disappears: it is recorded and at least half-installed, it lists fewer paths than before the unpack, a
/// directory stands at the place of each path that it still lists, and no other package needs it.
pub(crate) fn look<H: Host>(
    host: &mut H,
    administration: &Administration,
    packages: &Packages,
    diversions: &Diversions,
    incoming: &Text,
    losing: &Losing,
) -> Result<bool, HostFault>
    requires indexed { ArePackagesOf administration.now.database.records packages.now }
    ensures verdict { IfOk result
        (IsVerdict incoming.now diversions.now.ways losing.now (holding_of administration.now)
        (H.state host.old).world (H.state host.new).honest) }
    ensures reads { Reads (H.state host.old) (H.state host.new) }
    ensures silent { Silent (H.state host.old) (H.state host.new) }
    ensures counts { Counts (H.state host.old) (H.state host.new) result }
{
    let Some(entry) = administration.database.get(&losing.name) else {
        return Ok(false);
    };
    if !is_there(entry) {
        return Ok(false);
    }
    if !has_lost(&administration.lists, losing) {
        return Ok(false);
    }
    let listed = administration.lists.list_of(&losing.name);
    let empty = are_directories(host, diversions, &losing.name, listed)?;
    if !empty {
        return Ok(false);
    }
    let needed = is_needed(administration.alloc, packages, incoming, &losing.name)?;
    Ok(!needed)
}
