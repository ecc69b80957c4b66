// The links above shipped paths.
ghost use Rattle.std.specs.Prelude.{◌≡◌, IfOk};
ghost use Rattle.host_core.specs.Host.{Counts, Leaves, Reads, Silent};
ghost use Rattle.aliases.specs.Reading.{AreAliasesIn};
ghost use Rattle.file_lists.specs.Followed.{AreWhole, HasMoreAliases};
ghost use Rattle.verification.specs.Shipped.{looked_path, looked_paths};

use diversions::Diversions;
use file_lists::read_above_each;
use host_core::{Host, HostFault, Node, RootPath};
use package_tree::Shipped;
use std::alloc::{AllocError, Global};

// The path above which links are followed: of a directory one in it.
fn looked_path(file: &Shipped) -> Result<RootPath, AllocError>
    ensures { IfOk result (λ path. path ≡ looked_path file.now.path file.now.node) }
{
    file.path.law();
    let path = file.path.at()?;
    match &file.node {
        Node::File { .. } => Ok(path),
        Node::Dir { .. } => path.with_suffix("/x"),
        Node::Link { .. } => Ok(path),
    }
}

fn looked_paths(alloc: Global, files: &[Shipped]) -> Result<Vec<RootPath>, AllocError>
    ensures { IfOk result (λ paths. paths.items ≡ looked_paths files.now) }
{
    let mut paths = Vec::new(alloc);
    for file in files {
        paths.push(looked_path(file)?)?;
    }
    Ok(paths)
}

/// Reads what is missing of the aliases above the paths that a tree ships, and at its directories.
pub(crate) fn follow_files<H: Host>(
    alloc: Global,
    host: &mut H,
    files: &[Shipped],
    diversions: &mut Diversions,
) -> Result<(), HostFault>
    ensures grows { HasMoreAliases (H.state host.new).honest (H.state host.old).world diversions.old
        diversions.new }
    ensures whole { Leaves result
        (λ w _. AreAliasesIn w diversions.old.ways.aliases
        → AreWhole w (looked_paths files.now) diversions.new.ways.aliases)
        (H.state host.old) (H.state host.new) }
    ensures reads { Reads (H.state host.old) (H.state host.new) }
    ensures silent { Silent (H.state host.old) (H.state host.new) }
    ensures counts { Counts (H.state host.old) (H.state host.new) result }
{
    let paths = looked_paths(alloc, files)?;
    read_above_each(alloc, host, paths.as_slice(), diversions)
}
