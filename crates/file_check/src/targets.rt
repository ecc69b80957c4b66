// What stands at the targets of works.
ghost use Rattle.std.specs.Prelude.{◌≡◌};
ghost use Rattle.host_core.specs.Host.{Counts, Leaves, Reads, Silent};
ghost use Rattle.package_files.specs.Files.{Each};
ghost use Rattle.package_files.specs.Free.{IsSeen};
ghost use Rattle.file_check.specs.Ready.{unseen, IsSameBut};

use host_core::{Host, HostFault};
use package_files::Work;

fn look_at_target<H: Host>(host: &mut H, work: &mut Work) -> Result<(), HostFault>
    ensures same { unseen work.new ≡ unseen work.old }
    ensures seen { Leaves result (λ old new. IsSeen old work.new) (H.state host.old)
        (H.state host.new) }
    ensures reads { Reads (H.state host.old) (H.state host.new) }
    ensures silent { Silent (H.state host.old) (H.state host.new) }
    ensures counts { Counts (H.state host.old) (H.state host.new) result }
{
    work.had = host.kind(&work.target)?;
    Ok(())
}

/// Sets what stands at each target.
pub(crate) fn look_at_targets<H: Host>(host: &mut H, works: &mut [Work]) -> Result<(), HostFault>
    ensures same { IsSameBut works.old works.new }
    ensures seen { Leaves result (λ old new. Each (IsSeen old) works.new) (H.state host.old)
        (H.state host.new) }
    ensures reads { Reads (H.state host.old) (H.state host.new) }
    ensures silent { Silent (H.state host.old) (H.state host.new) }
    ensures counts { Counts (H.state host.old) (H.state host.new) result }
{
    for work in works.iter_mut() {
        look_at_target(host, work)?;
    }
    Ok(())
}
