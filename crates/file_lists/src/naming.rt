// The aliases above paths that are named, and those that diversions name.
ghost use Rattle.std.specs.Prelude.{◌≡◌, ◌++◌, OnOk};
ghost use Rattle.aliases.specs.Reading.{AreAliasesIn};
ghost use Rattle.file_lists.specs.Followed.{AreWhole, GrowAlong, HasMoreAliases, diverted_paths};
ghost use Rattle.host_core.specs.Host.{Counts, Leaves, Reads, Silent};

use aliases::Looked;
use diversions::Diversions;
use host_core::{Host, HostFault, RootPath};
use std::alloc::{AllocError, Global};

/// Adds the paths of the diversions, each with its target.
pub fn add_diverted(paths: &mut Vec<RootPath>, diversions: &Diversions) -> Result<(), AllocError>
    ensures { OnOk result
        (paths.new.items ≡ paths.old.items ++ diverted_paths diversions.now.ways.entries) }
{
    for entry in diversions.entries() {
        paths.push(entry.path.at()?)?;
        paths.push(entry.target.at()?)?;
    }
    Ok(())
}

/// Reads the aliases above each of these paths. No directory is looked at twice.
pub fn read_above_each<H: Host>(
    alloc: Global,
    host: &mut H,
    paths: &[RootPath],
    diversions: &mut Diversions,
) -> Result<(), HostFault>
    ensures grows { HasMoreAliases (H.state host.new).honest (H.state host.old).world diversions.old
        diversions.new }
    ensures along { Leaves result (λ w _. GrowAlong w paths.now diversions.old.ways.aliases
        diversions.new.ways.aliases) (H.state host.old) (H.state host.new) }
    ensures whole { Leaves result
        (λ w _. AreAliasesIn w diversions.old.ways.aliases
        → AreWhole w paths.now diversions.new.ways.aliases)
        (H.state host.old) (H.state host.new) }
    ensures reads { Reads (H.state host.old) (H.state host.new) }
    ensures silent { Silent (H.state host.old) (H.state host.new) }
    ensures counts { Counts (H.state host.old) (H.state host.new) result }
{
    let mut looked = Looked::none(alloc);
    for path in paths {
        diversions.read_above_once(host, path, &mut looked)?;
    }
    Ok(())
}
