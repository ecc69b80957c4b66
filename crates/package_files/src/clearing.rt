// What stands at the spare names of a shipped path goes.
ghost use Rattle.std.specs.Prelude.{◌≡◌};
ghost use Rattle.host_core.specs.Host.{AtEachMoment, Counts, Leaves, Silent};
ghost use Rattle.administration.specs.Files.{KeepsBeside};
ghost use Rattle.package_files.specs.Names.{IsNamed};
ghost use Rattle.package_files.specs.Steps.{AreCleared, HasBegun, IsCleared, KeepsBesideSpares, Tries};

use crate::work::Work;
use host_core::{Host, HostFault, Kind, RootPath};

/// A file or link at a reserved name goes; a directory stays.
fn clear_name<H: Host>(host: &mut H, path: &RootPath) -> Result<(), HostFault>
    ensures cleared { Leaves result (IsCleared path.now) (H.state host.old) (H.state host.new) }
    ensures tried { Tries result (λ old new. new ≡ old) (H.state host.old) (H.state host.new) }
    ensures any_moment { AtEachMoment (KeepsBeside path.now) (H.state host.old) (H.state host.new) }
    ensures silent { Silent (H.state host.old) (H.state host.new) }
    ensures counts { Counts (H.state host.old) (H.state host.new) result }
{
    match host.kind(path)? {
        None => Ok(()),
        Some(Kind::Directory) => Ok(()),
        Some(Kind::File) => host.remove(path),
        Some(Kind::SymbolicLink) => host.remove(path),
    }
}

pub(crate) fn clear_spares<H: Host>(host: &mut H, work: &Work) -> Result<(), HostFault>
    requires named { IsNamed work.now }
    ensures cleared { Leaves result (AreCleared work.now) (H.state host.old) (H.state host.new) }
    ensures tried { Tries result (HasBegun work.now) (H.state host.old) (H.state host.new) }
    ensures any_moment { AtEachMoment (KeepsBesideSpares work.now) (H.state host.old)
        (H.state host.new) }
    ensures silent { Silent (H.state host.old) (H.state host.new) }
    ensures counts { Counts (H.state host.old) (H.state host.new) result }
{
    clear_name(host, &work.fresh)?;
    clear_name(host, &work.backup)
}
