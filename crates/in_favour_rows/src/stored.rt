// Which scripts of another package are stored.
ghost use Rattle.std.specs.Prelude.{◌≡◌, is_some, true};
ghost use Rattle.texts.specs.PackageNames.{is_package_name};
ghost use Rattle.host_core.specs.Looks.{Looks};
ghost use Rattle.administration.specs.Places.{script_path as stored_path};
ghost use Rattle.in_favour_rows.specs.Rows.{stored_in};

use administration::script_path;
use host_core::{Host, HostFault, Script};
use std::alloc::Global;
use texts::Text;

/// Which of the two scripts that a row calls are stored.
#[derive(Clone, Copy)]
pub(crate) struct Stored {
    pub prerm: bool,
    pub postinst: bool,
}

#[tactic(auto, using(host_core::proofs::Moments::reads_then))]
fn is_stored<H: Host>(
    alloc: Global,
    host: &mut H,
    name: &Text,
    script: Script,
) -> Result<bool, HostFault>
    requires named { is_package_name name.now ≡ true }
    ensures looks { Looks result (λ is w. is ≡ is_some (w (stored_path name.now script)))
        (H.state host.old) (H.state host.new) }
{
    let path = script_path(alloc, name, script)?;
    Ok(host.kind(&path)?.is_some())
}

/// Which of a package's scripts are there. Only the two that a row calls are looked for.
#[tactic(auto, using(host_core::proofs::Moments::reads_then))]
pub(crate) fn look_for_scripts<H: Host>(
    alloc: Global,
    host: &mut H,
    name: &Text,
) -> Result<Stored, HostFault>
    requires named { is_package_name name.now ≡ true }
    ensures looks { Looks result (λ stored w. stored ≡ stored_in w name.now) (H.state host.old)
        (H.state host.new) }
{
    let prerm = is_stored(alloc, host, name, Script::Prerm)?;
    let postinst = is_stored(alloc, host, name, Script::Postinst)?;
    Ok(Stored { prerm, postinst })
}
