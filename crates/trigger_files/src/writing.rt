// The files are written, or go.
ghost use Rattle.std.specs.Prelude.{◌≡◌, true, false};
ghost use Rattle.administration.specs.Files.{NoDirectory};
ghost use Rattle.administration.specs.Places.{temporary};
ghost use Rattle.host_core.specs.Host.{AtEachMoment, Counts, Leaves, Needs, Silent};
ghost use Rattle.host_core.specs.Paths.{is_path};
ghost use Rattle.host_core.specs.World.{HasParent, IsDirectory};
ghost use Rattle.trigger_files.specs.Lines.{file_of, lines_for};
ghost use Rattle.trigger_files.specs.Places.{is_register, place};
ghost use Rattle.trigger_files.specs.Registered.{is_hindered};
ghost use Rattle.trigger_files.specs.Steps.{AreBeingWritten, AreOpen, AreRegisters, AreWritten, IsPut, IsPutting};
ghost use Rattle.trigger_journal.specs.Places.{triggers_directory};

use crate::lines::{lines_file, lines_for};
use crate::places::place;
use administration::{discard, replace};
use host_core::{Host, HostFault, RootPath};
use std::alloc::Global;
use texts::Text;
use trigger_interests::Interest;

// A file of these lines is put at a path; or what stands there goes.
fn put<H: Host>(
    alloc: Global,
    host: &mut H,
    path: &RootPath,
    lines: &[Text],
) -> Result<(), HostFault>
    requires room { is_path (temporary path.now) ≡ true }
    requires parent { Needs (H.state host.old) (λ w. HasParent w path.now) }
    requires target { Needs (H.state host.old) (λ w. NoDirectory (w path.now)) }
    requires spare { Needs (H.state host.old) (λ w. NoDirectory (w (temporary path.now))) }
    ensures put { Leaves result (IsPut path.now (file_of lines.now)) (H.state host.old)
        (H.state host.new) }
    ensures any_moment { AtEachMoment (IsPutting path.now (file_of lines.now)) (H.state host.old)
        (H.state host.new) }
    ensures silent { Silent (H.state host.old) (H.state host.new) }
    ensures counts { Counts (H.state host.old) (H.state host.new) result }
{
    if lines.is_empty() {
        return discard(host, path);
    }
    let node = lines_file(alloc, lines)?;
    replace(host, path, &node)
}

// The file of a name is written, or goes.
fn write_one<H: Host>(
    alloc: Global,
    host: &mut H,
    entries: &[Interest],
    name: &Text,
) -> Result<(), HostFault>
    requires register { is_register name.now ≡ true }
    requires there { Needs (H.state host.old) (λ w. IsDirectory (w triggers_directory)) }
    requires free { Needs (H.state host.old) (λ w. is_hindered w (place name.now) ≡ false) }
    ensures put { Leaves result (IsPut (place name.now) (file_of (lines_for entries.now name.now)))
        (H.state host.old) (H.state host.new) }
    ensures any_moment { AtEachMoment
        (IsPutting (place name.now) (file_of (lines_for entries.now name.now)))
        (H.state host.old) (H.state host.new) }
    ensures silent { Silent (H.state host.old) (H.state host.new) }
    ensures counts { Counts (H.state host.old) (H.state host.new) result }
{
    let path = place(alloc, name)?;
    let lines = lines_for(alloc, entries, name)?;
    put(alloc, host, &path, lines.as_slice())
}

/// The files of these names are written, or go.
pub(crate) fn write_each<H: Host>(
    alloc: Global,
    host: &mut H,
    entries: &[Interest],
    names: &[Text],
) -> Result<(), HostFault>
    requires registers { AreRegisters names.now }
    requires there { Needs (H.state host.old) (λ w. IsDirectory (w triggers_directory)) }
    requires free { Needs (H.state host.old) (λ w. AreOpen w names.now) }
    ensures written { Leaves result (AreWritten entries.now names.now) (H.state host.old)
        (H.state host.new) }
    ensures any_moment { AtEachMoment (AreBeingWritten entries.now names.now) (H.state host.old)
        (H.state host.new) }
    ensures silent { Silent (H.state host.old) (H.state host.new) }
    ensures counts { Counts (H.state host.old) (H.state host.new) result }
{
    for name in names {
        write_one(alloc, host, entries, name)?;
    }
    Ok(())
}
