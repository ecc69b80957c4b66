// Which scripts of a package are stored.
ghost use Rattle.std.specs.Prelude.{◌≡◌, true, is_some};
ghost use Rattle.std.specs.Option.{option_copied};
ghost use Rattle.texts.specs.PackageNames.{is_package_name};
ghost use Rattle.host_core.specs.Looks.{Looks};
ghost use Rattle.host_core.specs.declared.call.Script.{Script as AScript};
ghost use Rattle.administration.specs.Places.{script_path as stored_path};
ghost use Rattle.unpack_rows.specs.ForwardRows.{is_present};
ghost use Rattle.unpack_engine.specs.Units.{IsSeen};

use administration::script_path;
use host_core::{Host, HostFault, Script};
use status_records::Record;
use std::alloc::Global;
use texts::Text;
use unpack_rows::Present;

#[tactic(auto, using(host_core::proofs::Moments::reads_then))]
fn is_stored<H: Host>(
    alloc: Global,
    host: &mut H,
    name: &Text,
    script: Script,
) -> Result<bool, HostFault>
    requires named { is_package_name name.now ≡ true }
    ensures looks { Looks result
        (λ is w. is ≡ is_some (w (stored_path name.now script)))
        (H.state host.old) (H.state host.new) }
{
    let path = script_path(alloc, name, script)?;
    Ok(host.kind(&path)?.is_some())
}

#[tactic(auto, using(host_core::proofs::Moments::reads_then))]
fn look_for_two<H: Host>(
    alloc: Global,
    host: &mut H,
    name: &Text,
    first: Script,
    second: Script,
) -> Result<(bool, bool), HostFault>
    requires named { is_package_name name.now ≡ true }
    ensures looks { Looks result
        (λ both w. (both.0 ≡ is_some (w (stored_path name.now first)))
        × (both.1 ≡ is_some (w (stored_path name.now second))))
        (H.state host.old) (H.state host.new) }
{
    let one = is_stored(alloc, host, name, first)?;
    let other = is_stored(alloc, host, name, second)?;
    Ok((one, other))
}

#[tactic(auto, using(host_core::proofs::Moments::reads_then))]
fn look_for_scripts<H: Host>(alloc: Global, host: &mut H, name: &Text) -> Result<Present, HostFault>
    requires named { is_package_name name.now ≡ true }
    ensures looks { Looks result
        (λ stored w. (script : AScript)
        → is_present stored script ≡ is_some (w (stored_path name.now script)))
        (H.state host.old) (H.state host.new) }
{
    let (preinst, postinst) = look_for_two(alloc, host, name, Script::Preinst, Script::Postinst)?;
    let (prerm, postrm) = look_for_two(alloc, host, name, Script::Prerm, Script::Postrm)?;
    Ok(Present {
        preinst,
        postinst,
        prerm,
        postrm,
    })
}

/// Which scripts are stored with a package; none is looked for where it has no record.
pub(crate) fn stored_scripts<H: Host>(
    alloc: Global,
    host: &mut H,
    name: &Text,
    found: Option<&Record>,
) -> Result<Present, HostFault>
    requires named { is_package_name name.now ≡ true }
    ensures looks { Looks result
        (λ stored w. IsSeen (option_copied found.entry) name.now w stored)
        (H.state host.old) (H.state host.new) }
{
    if found.is_some() {
        return look_for_scripts(alloc, host, name);
    }
    Ok(Present {
        preinst: false,
        postinst: false,
        prerm: false,
        postrm: false,
    })
}
