// The stored scripts of a package that a removal calls.
ghost use Rattle.std.specs.Prelude.{◌≡◌, IfOk, true, is_some, codes};
ghost use Rattle.texts.specs.PackageNames.{is_package_name};
ghost use Rattle.host_core.specs.Looks.{Looks};
ghost use Rattle.administration.specs.Places.{script_path as stored_path};
ghost use Rattle.removal_engine.specs.Scripts.{AreStored, call_of, postrm_row, prerm_row, purge_row, quiet_row, row_of};

use administration::script_path;
use host_core::{Call, Host, HostFault, Script, Side};
use std::alloc::{AllocError, Global};
use texts::{Text, Texts};
use undo_rows::{Owner, Row};

/// Which of the scripts that a removal calls are stored with a package.
#[derive(Clone, Copy)]
pub struct Stored {
    pub prerm: bool,
    pub postinst: bool,
    pub postrm: bool,
}

#[tactic(auto, using(host_core::proofs::Moments::reads_then))]
fn is_stored<H: Host>(
    alloc: Global,
    host: &mut H,
    name: &Text,
    script: Script,
) -> Result<bool, HostFault>
    requires named { is_package_name name.now ≡ true }
    ensures looks { Looks result (λ is w. is ≡ is_some (w (stored_path name.now script)))
        (H.state host.old) (H.state host.new) }
{
    let path = script_path(alloc, name, script)?;
    Ok(host.kind(&path)?.is_some())
}

/// Which scripts are stored.
#[tactic(auto, using(host_core::proofs::Moments::reads_then))]
pub(crate) fn stored_scripts<H: Host>(
    alloc: Global,
    host: &mut H,
    name: &Text,
) -> Result<Stored, HostFault>
    requires named { is_package_name name.now ≡ true }
    ensures looks { Looks result (λ stored w. AreStored name.now w stored)
        (H.state host.old) (H.state host.new) }
{
    let prerm = is_stored(alloc, host, name, Script::Prerm)?;
    let postinst = is_stored(alloc, host, name, Script::Postinst)?;
    let postrm = is_stored(alloc, host, name, Script::Postrm)?;
    Ok(Stored {
        prerm,
        postinst,
        postrm,
    })
}

fn call_of(
    alloc: Global,
    name: &Text,
    script: Script,
    stored: bool,
    word: &str,
) -> Result<Option<Call>, AllocError>
    requires named { is_package_name name.now ≡ true }
    ensures { IfOk result (λ call. call ≡ call_of name.now script stored word.now) }
{
    if !stored {
        return Ok(None);
    }
    let mut args = Texts::new(alloc);
    args.push(Text::from_str(alloc, word)?)?;
    Ok(Some(Call {
        side: Side::Old,
        package: name.copy()?,
        script,
        at: script_path(alloc, name, script)?,
        args,
    }))
}

fn row_of(name: &Text, forward: Option<Call>, undo: Option<Call>) -> Result<Row, AllocError>
    ensures { IfOk result (λ row. row ≡ row_of name.now forward undo) }
{
    Ok(Row {
        owner: Owner::Package(name.copy()?),
        forward,
        fallback: None,
        undo,
    })
}

/// Nothing is called.
pub(crate) fn quiet_row(name: &Text) -> Result<Row, AllocError>
    ensures { IfOk result (λ row. row ≡ quiet_row name.now) }
{
    row_of(name, None, None)
}

/// prerm `remove`, undone by postinst `abort-remove`.
pub(crate) fn prerm_row(alloc: Global, name: &Text, stored: Stored) -> Result<Row, AllocError>
    requires named { is_package_name name.now ≡ true }
    ensures { IfOk result (λ row. row ≡ prerm_row name.now stored) }
{
    let remove = call_of(alloc, name, Script::Prerm, stored.prerm, "remove")?;
    let abort = call_of(
        alloc,
        name,
        Script::Postinst,
        stored.postinst,
        "abort-remove",
    )?;
    row_of(name, remove, abort)
}

/// postrm `remove`.
pub(crate) fn postrm_row(alloc: Global, name: &Text, stored: Stored) -> Result<Row, AllocError>
    requires named { is_package_name name.now ≡ true }
    ensures { IfOk result (λ row. row ≡ postrm_row name.now stored) }
{
    let remove = call_of(alloc, name, Script::Postrm, stored.postrm, "remove")?;
    row_of(name, remove, None)
}

/// postrm `purge`.
pub(crate) fn purge_row(alloc: Global, name: &Text, stored: Stored) -> Result<Row, AllocError>
    requires named { is_package_name name.now ≡ true }
    ensures { IfOk result (λ row. row ≡ purge_row name.now stored) }
{
    let purge = call_of(alloc, name, Script::Postrm, stored.postrm, "purge")?;
    row_of(name, purge, None)
}
