// The row of another package.
ghost use Rattle.std.specs.Prelude.{◌≡◌, ◌∷◌, ◌++◌, [], IfOk, true};
ghost use Rattle.texts.specs.PackageNames.{is_package_name};
ghost use Rattle.in_favour_rows.specs.Rows.{in_favour, removing_args, row_of, row_with, stored_call};

use crate::entries::Role;
use crate::stored::Stored;
use administration::script_path;
use host_core::{Call, Script, Side};
use package_tree::Package;
use std::alloc::{AllocError, Global};
use texts::{Text, Texts};
use undo_rows::{Owner, Row};
use version_order::Version;

fn in_favour(alloc: Global, first: &str, incoming: &Package) -> Result<Texts, AllocError>
    ensures { IfOk result (λ args. args ≡ first.now ∷ in_favour incoming.now.name
        incoming.now.version) }
{
    let mut args = Texts::new(alloc);
    args.push(Text::from_str(alloc, first)?)?;
    args.push(Text::from_str(alloc, "in-favour")?)?;
    args.push(incoming.name.copy()?)?;
    args.push(Text::from_str(alloc, incoming.version.text())?)?;
    Ok(args)
}

// The package that is removed, with its version, follows the incoming one.
fn in_favour_removing(
    alloc: Global,
    first: &str,
    incoming: &Package,
    removing: &Text,
    version: &Version,
) -> Result<Texts, AllocError>
    ensures { IfOk result (λ args. args ≡ first.now
        ∷ (in_favour incoming.now.name incoming.now.version ++ removing_args removing.now
        version.now)) }
{
    let mut args = in_favour(alloc, first, incoming)?;
    args.push(Text::from_str(alloc, "removing")?)?;
    args.push(removing.copy()?)?;
    args.push(Text::from_str(alloc, version.text())?)?;
    Ok(args)
}

fn stored_call(
    alloc: Global,
    is_stored: bool,
    name: &Text,
    script: Script,
    args: Texts,
) -> Result<Option<Call>, AllocError>
    requires named { is_package_name name.now ≡ true }
    ensures { IfOk result (λ call. call ≡ stored_call is_stored name.now script args) }
{
    if !is_stored {
        return Ok(None);
    }
    Ok(Some(Call {
        side: Side::Old,
        package: name.copy()?,
        script,
        at: script_path(alloc, name, script)?,
        args,
    }))
}

fn row_with(
    alloc: Global,
    stored: Stored,
    name: &Text,
    forward: Texts,
    undo: Texts,
) -> Result<Row, AllocError>
    requires named { is_package_name name.now ≡ true }
    ensures { IfOk result (λ row. row ≡ row_with stored name.now forward undo) }
{
    Ok(Row {
        owner: Owner::Package(name.copy()?),
        forward: stored_call(alloc, stored.prerm, name, Script::Prerm, forward)?,
        fallback: None,
        undo: stored_call(alloc, stored.postinst, name, Script::Postinst, undo)?,
    })
}

/// The row of the package of this name, by its role.
pub(crate) fn row_of(
    alloc: Global,
    incoming: &Package,
    stored: Stored,
    name: &Text,
    role: &Role,
) -> Result<Row, AllocError>
    requires named { is_package_name name.now ≡ true }
    ensures { IfOk result (λ row. row ≡ row_of incoming.now.name incoming.now.version stored
        name.now role.now) }
{
    match role {
        Role::Broken => {
            let forward = in_favour(alloc, "deconfigure", incoming)?;
            let undo = in_favour(alloc, "abort-deconfigure", incoming)?;
            row_with(alloc, stored, name, forward, undo)
        }
        Role::Dependent { removing, version } => {
            let forward = in_favour_removing(alloc, "deconfigure", incoming, removing, version)?;
            let undo = in_favour_removing(alloc, "abort-deconfigure", incoming, removing, version)?;
            row_with(alloc, stored, name, forward, undo)
        }
        Role::Conflicting => {
            let forward = in_favour(alloc, "remove", incoming)?;
            let undo = in_favour(alloc, "abort-remove", incoming)?;
            row_with(alloc, stored, name, forward, undo)
        }
    }
}
