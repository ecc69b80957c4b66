// Whose the files of trees become.
ghost use Rattle.std.specs.Prelude.{◌≡◌};
ghost use Rattle.clap.specs.Words.{found_of, rows_of};
ghost use Rattle.command_words.specs.Owners.{owners_from, owners_of};

use crate::found::flag_of;
use clap::ArgMatches;

/// The user and group of the paths that a tree ships.
#[derive(Clone, Copy)]
pub enum TreeOwners {
    /// Those that the tree has them with.
    Kept,
    /// 0 and 0, whoever made the tree.
    Root,
}

fn owners_from(root: bool) -> TreeOwners
    ensures { result ≡ owners_from root }
{
    if root {
        TreeOwners::Root
    } else {
        TreeOwners::Kept
    }
}

/// Whose they become by the flag.
pub(crate) fn owners_of(found: &ArgMatches<'_>) -> TreeOwners
    ensures { result ≡ owners_of (rows_of (found_of found.now)) }
{
    owners_from(flag_of(found, "owner-root"))
}
