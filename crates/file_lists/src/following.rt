// The aliases above listed paths.
ghost use Rattle.std.specs.Prelude.{◌≡◌, Contains, OnOk};
ghost use Rattle.std.specs.HashSet.{contains_text};
ghost use Rattle.host_core.specs.Host.{Counts, Leaves, Needs, Reads, Silent};
ghost use Rattle.host_core.specs.Paths.{Path};
ghost use Rattle.aliases.specs.Links.{above};
ghost use Rattle.aliases.specs.Reading.{AreAliasesIn, IsWhole};
ghost use Rattle.aliases.specs.Ways.{AreSettled};
ghost use Rattle.file_lists.specs.Followed.{AreFollowed, ArePassed, HasMoreAliases};

use crate::table::Table;
use aliases::{Looked, directory_of};
use diversions::Diversions;
use host_core::{Host, HostFault, RootPath};
use std::alloc::Global;
use std::collections::HashSet;

// The directories that were looked at, and the directories of the paths that were gone through.
#[derive(Drop)]
struct Passed {
    alloc: Global,
    looked: Looked,
    directories: HashSet<String>,
}

// Reads the aliases above a path, if no path of its directory was gone through.
fn read_above<H: Host>(
    host: &mut H,
    path: &RootPath,
    directory: &str,
    diversions: &mut Diversions,
    passed: &mut Passed,
) -> Result<(), HostFault>
    requires directory { directory.now ≡ above path.now }
    requires settled { Needs (H.state host.old)
        (λ w. AreSettled w diversions.old.ways.aliases passed.old.looked) }
    requires passed { Needs (H.state host.old)
        (ArePassed diversions.old.ways.aliases (contains_text passed.old.directories)) }
    ensures settled { Needs (H.state host.new)
        (λ w. AreSettled w diversions.new.ways.aliases passed.new.looked) }
    ensures passed { OnOk result (Needs (H.state host.new)
        (ArePassed diversions.new.ways.aliases (contains_text passed.new.directories))) }
    ensures grows { HasMoreAliases (H.state host.new).honest (H.state host.old).world diversions.old
        diversions.new }
    ensures whole { Leaves result
        (λ w _. AreAliasesIn w diversions.old.ways.aliases
        → IsWhole w path.now diversions.new.ways.aliases)
        (H.state host.old) (H.state host.new) }
    ensures reads { Reads (H.state host.old) (H.state host.new) }
    ensures silent { Silent (H.state host.old) (H.state host.new) }
    ensures counts { Counts (H.state host.old) (H.state host.new) result }
{
    if passed.directories.contains(directory) {
        return Ok(());
    }
    let text = String::from_str(passed.alloc, directory)?;
    diversions.read_above_once(host, path, &mut passed.looked)?;
    passed.directories.insert(text)?;
    Ok(())
}

// Reads the aliases above each of these paths. In a list most paths stand behind one of their directory.
fn read_above_each<H: Host>(
    host: &mut H,
    paths: &[RootPath],
    diversions: &mut Diversions,
    passed: &mut Passed,
) -> Result<(), HostFault>
    requires settled { Needs (H.state host.old)
        (λ w. AreSettled w diversions.old.ways.aliases passed.old.looked) }
    requires passed { Needs (H.state host.old)
        (ArePassed diversions.old.ways.aliases (contains_text passed.old.directories)) }
    ensures settled { Needs (H.state host.new)
        (λ w. AreSettled w diversions.new.ways.aliases passed.new.looked) }
    ensures passed { OnOk result (Needs (H.state host.new)
        (ArePassed diversions.new.ways.aliases (contains_text passed.new.directories))) }
    ensures grows { HasMoreAliases (H.state host.new).honest (H.state host.old).world diversions.old
        diversions.new }
    ensures whole { Leaves result
        (λ w _. AreAliasesIn w diversions.old.ways.aliases
        → (path : Path) → Contains paths.now path → IsWhole w path diversions.new.ways.aliases)
        (H.state host.old) (H.state host.new) }
    ensures reads { Reads (H.state host.old) (H.state host.new) }
    ensures silent { Silent (H.state host.old) (H.state host.new) }
    ensures counts { Counts (H.state host.old) (H.state host.new) result }
{
    let mut last = "";
    for path in paths {
        let directory = directory_of(path.as_str());
        if directory != last {
            read_above(host, path, directory, diversions, passed)?;
            last = directory;
        }
    }
    Ok(())
}

/// Reads the aliases above each listed path. No directory is looked at twice, and none is gone through twice as it is listed.
pub(crate) fn read_aliases<H: Host>(
    host: &mut H,
    table: &Table,
    diversions: &mut Diversions,
) -> Result<(), HostFault>
    ensures grows { HasMoreAliases (H.state host.new).honest (H.state host.old).world diversions.old
        diversions.new }
    ensures followed { Leaves result
        (λ w _. AreAliasesIn w diversions.old.ways.aliases
        → AreFollowed table.now diversions.new.ways w)
        (H.state host.old) (H.state host.new) }
    ensures reads { Reads (H.state host.old) (H.state host.new) }
    ensures silent { Silent (H.state host.old) (H.state host.new) }
    ensures counts { Counts (H.state host.old) (H.state host.new) result }
{
    let alloc = table.alloc();
    let mut passed = Passed {
        alloc,
        looked: Looked::none(alloc),
        directories: HashSet::new(alloc),
    };
    for list in table.as_slice() {
        read_above_each(host, list.paths.as_slice(), diversions, &mut passed)?;
    }
    Ok(())
}
