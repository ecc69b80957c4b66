// The stored control files of a package go.
ghost use Rattle.std.specs.Prelude.{◌≡◌, true};
ghost use Rattle.texts.specs.PackageNames.{is_package_name};
ghost use Rattle.host_core.specs.Host.{AtEachMoment, Counts, Leaves, Needs, Silent};
ghost use Rattle.control_members.specs.Stored.{IsMembersReady};
ghost use Rattle.unit_stages.specs.Doing.{MayDrop};
ghost use Rattle.unit_stages.specs.Parts.{HasDropped};

use control_members::{discard_members, stored_names};
use host_core::{Host, HostFault};
use std::alloc::Global;
use texts::Text;

/// Takes away all control files that are stored with a package, or all but its postrm.
pub(crate) fn drop_members<H: Host>(
    alloc: Global,
    host: &mut H,
    name: &Text,
    keep_postrm: bool,
) -> Result<(), HostFault>
    requires named { is_package_name name.now ≡ true }
    requires ready { Needs (H.state host.old) (IsMembersReady name.now) }
    ensures dropped { Leaves result (HasDropped name.now keep_postrm)
        (H.state host.old) (H.state host.new) }
    ensures any_moment { AtEachMoment (MayDrop name.now keep_postrm)
        (H.state host.old) (H.state host.new) }
    ensures silent { Silent (H.state host.old) (H.state host.new) }
    ensures counts { Counts (H.state host.old) (H.state host.new) result }
{
    let names = stored_names(alloc, host, name)?;
    discard_members(alloc, host, name, names.as_slice(), keep_postrm)
}
