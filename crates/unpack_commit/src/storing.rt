// The new control files in the place of those that are stored.
ghost use Rattle.std.specs.Prelude.{◌≡◌, true};
ghost use Rattle.host_core.specs.Host.{AtEachMoment, Counts, Leaves, Needs, Silent};
ghost use Rattle.texts.specs.PackageNames.{is_package_name};
ghost use Rattle.control_members.specs.Stored.{IsMembersReady};
ghost use Rattle.unpack_commit.specs.Commit.{HasStored, IsStoring};

use control_members::{Members, replace_members, stored_names};
use host_core::{Host, HostFault};
use std::alloc::Global;
use texts::Text;

/// Stores a package's control files in the place of all that are stored.
pub(crate) fn store_members<H: Host>(
    alloc: Global,
    host: &mut H,
    owner: &Text,
    members: &Members,
) -> Result<(), HostFault>
    requires named { is_package_name owner.now ≡ true }
    requires ready { Needs (H.state host.old) (IsMembersReady owner.now) }
    ensures stored { Leaves result (HasStored owner.now members.now) (H.state host.old)
        (H.state host.new) }
    ensures any_moment { AtEachMoment (IsStoring owner.now members.now) (H.state host.old)
        (H.state host.new) }
    ensures silent { Silent (H.state host.old) (H.state host.new) }
    ensures counts { Counts (H.state host.old) (H.state host.new) result }
{
    let stale = stored_names(alloc, host, owner)?;
    replace_members(alloc, host, owner, members, stale.as_slice())
}
