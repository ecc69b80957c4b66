// With which package a shipped path clashes.
ghost use Rattle.std.specs.Prelude.{◌≡◌, Some, IfOk};
ghost use Rattle.std.specs.BTreeSet.{contains_text};
ghost use Rattle.file_check.specs.Clashes.{claims, clash_by, first_clash, rival, some_if};

use crate::owning::Owning;
use host_core::{Kind, Node, RootPath};
use package_files::Work;
use std::alloc::{AllocError, Global};
use std::collections::BTreeSet;
use texts::Text;

// Whether a shipped node is written where this stands, but as a directory where nothing stands.
fn claims(node: &Node, place: Option<Kind>) -> bool
    ensures { result ≡ claims node.now place }
{
    match (node, place) {
        (Node::Dir { .. }, Some(Kind::File)) => true,
        (Node::Dir { .. }, _) => false,
        (_, Some(Kind::Directory)) => false,
        (_, _) => true,
    }
}

fn rival_if(
    alloc: Global,
    owning: &Owning<'_>,
    claiming: bool,
    place: &RootPath,
) -> Result<Option<Text>, AllocError>
    ensures { IfOk result (λ found. found ≡ some_if claiming (rival owning.now place.now)) }
{
    if !claiming {
        return Ok(None);
    }
    owning.rival(alloc, place)
}

fn itself_if(twice: bool, incoming: &Text) -> Result<Option<Text>, AllocError>
    ensures { IfOk result (λ found. found ≡ some_if twice (Some incoming.now)) }
{
    if !twice {
        return Ok(None);
    }
    Ok(Some(incoming.copy()?))
}

fn first_clash(other: Option<Text>, itself: Option<Text>) -> Option<Text>
    ensures { result ≡ first_clash other itself }
{
    match (other, itself) {
        (None, itself) => itself,
        (Some(other), None) => Some(other),
        (Some(other), Some(itself)) => {
            if other.as_str() < itself.as_str() {
                Some(other)
            } else {
                Some(itself)
            }
        }
    }
}

/// The first package with which a path clashes at whose place this stands.
pub(crate) fn clash_of(
    alloc: Global,
    owning: &Owning<'_>,
    twice: &BTreeSet<String>,
    shipped: &Work,
    place: Option<Kind>,
) -> Result<Option<Text>, AllocError>
    ensures { IfOk result
        (λ found. found ≡ clash_by owning.now (contains_text twice.now) shipped.now place) }
{
    let claiming = claims(&shipped.node, place);
    let other = rival_if(alloc, owning, claiming, &shipped.place)?;
    let itself = itself_if(twice.contains(shipped.place.as_str()), owning.incoming)?;
    Ok(first_clash(other, itself))
}
