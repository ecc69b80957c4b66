// What is left in `info` under the name of a package that has no record goes before the call of its new preinst.
ghost use Rattle.std.specs.Prelude.{◌≡◌, true, false};
ghost use Rattle.texts.specs.PackageNames.{is_package_name};
ghost use Rattle.host_core.specs.Host.{AtEachMoment, Counts, Leaves, Needs, Silent};
ghost use Rattle.control_members.specs.Stored.{IsMembersReady};
ghost use Rattle.file_lists.specs.Writing.{IsListReady};
ghost use Rattle.unpack_rows.specs.EndStates.{own_name};
ghost use Rattle.unpack_steps.specs.Clearing.{HasCleared, IsCleared, IsClearing, MayClear, clears_before};

use crate::plan::Rows;
use administration::{discard, list_path};
use control_members::{discard_members, stored_names};
use host_core::{Host, HostFault};
use std::alloc::Global;
use texts::Text;
use unpack_rows::RowKind;

// Takes away the control files and the list that are left under a name.
fn clear_name<H: Host>(alloc: Global, host: &mut H, name: &Text) -> Result<(), HostFault>
    requires named { is_package_name name.now ≡ true }
    requires members { Needs (H.state host.old) (IsMembersReady name.now) }
    requires list { Needs (H.state host.old) (IsListReady name.now) }
    ensures cleared { Leaves result (IsCleared name.now) (H.state host.old) (H.state host.new) }
    ensures any_moment { AtEachMoment (IsClearing name.now) (H.state host.old) (H.state host.new) }
    ensures silent { Silent (H.state host.old) (H.state host.new) }
    ensures counts { Counts (H.state host.old) (H.state host.new) result }
{
    let names = stored_names(alloc, host, name)?;
    discard_members(alloc, host, name, names.as_slice(), false)?;
    let path = list_path(alloc, name)?;
    discard(host, &path)
}

// Whether it goes before the call of a row of this kind.
fn clears_before(rows: &Rows, kind: &RowKind) -> bool
    ensures { result ≡ clears_before rows.now.found kind.now }
{
    match (&rows.found, kind) {
        (None, RowKind::Preinst) => true,
        _ => false,
    }
}

/// Takes away what is left under the package's name, where it goes before the call of this row.
pub(crate) fn clear_left<H: Host>(
    alloc: Global,
    host: &mut H,
    rows: &Rows,
    kind: &RowKind,
) -> Result<(), HostFault>
    requires named { is_package_name (own_name rows.now.found rows.now.incoming) ≡ true }
    requires members { clears_before rows.now.found kind.now ≡ true
        → Needs (H.state host.old) (IsMembersReady (own_name rows.now.found rows.now.incoming)) }
    requires list { Needs (H.state host.old)
        (IsListReady (own_name rows.now.found rows.now.incoming)) }
    ensures cleared { Leaves result (HasCleared (clears_before rows.now.found kind.now)
        (own_name rows.now.found rows.now.incoming)) (H.state host.old) (H.state host.new) }
    ensures any_moment { AtEachMoment (MayClear false (clears_before rows.now.found kind.now)
        (own_name rows.now.found rows.now.incoming)) (H.state host.old) (H.state host.new) }
    ensures silent { Silent (H.state host.old) (H.state host.new) }
    ensures counts { Counts (H.state host.old) (H.state host.new) result }
{
    if clears_before(rows, kind) {
        return clear_name(alloc, host, rows.name());
    }
    Ok(())
}
