// What is asked of packages that are verified.
ghost use Rattle.std.specs.Prelude.{◌≡◌, IfOk, option_map};
ghost use Rattle.clap.specs.Words.{found_of, rows_of};
ghost use Rattle.command_words.specs.Verifications.{is_fitting, verifying_from, verifying_of};

use crate::found::{all_given, given, is_absolute, text_of};
use crate::owners::{TreeOwners, owners_of};
use clap::ArgMatches;
use std::alloc::{AllocError, Global};
use texts::{Text, Texts};

/// Packages that are verified under a root: all where none is named, or the package of a tree.
#[derive(Drop)]
pub struct Verifying {
    pub root: Text,
    pub names: Texts,
    /// The tree with which its package is compared.
    pub tree: Option<Text>,
    /// To whom its paths are given.
    pub owners: TreeOwners,
}

// Whether this goes together.
fn is_fitting(names: &[Text], tree: &Option<Text>, owners: TreeOwners) -> bool
    ensures { result ≡ is_fitting names.now tree.now owners }
{
    match (tree, owners) {
        (Some(_), _) => names.is_empty(),
        (None, TreeOwners::Kept) => true,
        (None, TreeOwners::Root) => false,
    }
}

fn verifying_from(
    alloc: Global,
    root: Option<&str>,
    names: Texts,
    tree: Option<Text>,
    owners: TreeOwners,
) -> Result<Option<Verifying>, AllocError>
    ensures { IfOk result (λ asked. asked ≡ verifying_from (option_map (λ s. s.now) root.entry)
        names tree owners) }
{
    let Some(root) = root else {
        return Ok(None);
    };
    if !is_absolute(root) || !is_fitting(names.as_slice(), &tree, owners) {
        return Ok(None);
    }
    let root = Text::from_str(alloc, root)?;
    Ok(Some(Verifying {
        root,
        names,
        tree,
        owners,
    }))
}

/// The packages that are verified, unless the words have a fault.
pub(crate) fn verifying_of(
    alloc: Global,
    found: &ArgMatches<'_>,
) -> Result<Option<Verifying>, AllocError>
    ensures { IfOk result (λ asked. asked ≡ verifying_of (rows_of (found_of found.now))) }
{
    let names = all_given(alloc, found, "PKG")?;
    let tree = given(alloc, found, "tree")?;
    verifying_from(alloc, text_of(found, "root"), names, tree, owners_of(found))
}
