// The packages that may disappear.
ghost use Rattle.std.specs.Prelude.{◌≡◌, ◌++◌, ◌∷◌, [], cond, filter, map, IfOk, OnOk};
ghost use Rattle.displaced_packages.specs.Losing.{is_among, is_spared, losing_beside, losing_of};

use disappearance::Losing;
use file_lists::FileLists;
use std::alloc::{AllocError, Global};
use texts::Text;
use unpack_relations::Beside;

fn is_among(names: &[Text], name: &Text) -> bool
    ensures { result ≡ is_among names.now name.now }
{
    names.iter().any(|other| name.as_str() == other.as_str())
}

fn is_spared(conflicting: &[Text], name: &Text) -> bool
    ensures { result ≡ is_spared conflicting.now name.now }
{
    !is_among(conflicting, name)
}

fn losing_of(lists: &FileLists, name: &Text) -> Result<Losing, AllocError>
    ensures { IfOk result (λ losing. losing ≡ losing_of lists.now.lists name.now) }
{
    Ok(Losing {
        name: name.copy()?,
        listed: lists.list_of(name).len(),
    })
}

fn push_losing(
    losing: &mut Vec<Losing>,
    lists: &FileLists,
    conflicting: &[Text],
    name: &Text,
) -> Result<(), AllocError>
    ensures { OnOk result (losing.new.items ≡ cond (is_spared conflicting.now name.now)
        (losing.old.items ++ losing_of lists.now.lists name.now ∷ []) losing.old.items) }
{
    if is_spared(conflicting, name) {
        losing.push(losing_of(lists, name)?)?;
    }
    Ok(())
}

// Those of these packages that don't conflict.
fn losing_among(
    alloc: Global,
    lists: &FileLists,
    conflicting: &[Text],
    replaced: &[Text],
) -> Result<Vec<Losing>, AllocError>
    ensures { IfOk result (λ losing. losing.items ≡ map (losing_of lists.now.lists)
        (filter (is_spared conflicting.now) replaced.now)) }
{
    let mut losing = Vec::new(alloc);
    for name in replaced {
        push_losing(&mut losing, lists, conflicting, name)?;
    }
    Ok(losing)
}

/// The packages that may disappear once this is unpacked, each with how many paths it lists yet: the replaced ones that don't
/// conflict.
pub fn losing_beside(
    alloc: Global,
    lists: &FileLists,
    beside: &Beside,
) -> Result<Vec<Losing>, AllocError>
    ensures { IfOk result (λ losing. losing.items ≡ losing_beside lists.now.lists beside.now) }
{
    let losing = losing_among(
        alloc,
        lists,
        beside.conflicting.as_slice(),
        beside.replaced.as_slice(),
    )?;
    Ok(losing)
}
