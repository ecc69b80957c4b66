// Questions that the diversions answer.
ghost use Rattle.std.specs.Prelude.{◌≡◌, IsTrue, IfOk, option_copied};
ghost use Rattle.host_core.specs.Host.{Reads, Silent};
ghost use Rattle.administration.specs.Fault.{CountsAdministration};
ghost use Rattle.opening.specs.Parts.{Finds, fault_in};
ghost use Rattle.inquiries.specs.Read.{AreDiversions, IsTruename, diversions_parts};

use crate::reading::{read_diversions, read_diverted};
use administration::AdministrationFault;
use host_core::{Host, RootPath};
use queries::{diversions_text, truename_text};
use std::alloc::Global;
use texts::{Bytes, Text};

/// Where a path is: for a package, or without one for all but the owner of its diversion.
pub fn truename<H: Host>(
    alloc: Global,
    host: &mut H,
    user: Option<&Text>,
    path: &RootPath,
) -> Result<Bytes, AdministrationFault>
    ensures told { IfOk result (IsTruename (option_copied user.entry) path.now (H.state host.new)) }
    ensures finds { IsTrue (H.state host.new).honest
        → Finds diversions_parts (H.state host.old).world (fault_in result) }
    ensures reads { Reads (H.state host.old) (H.state host.new) }
    ensures silent { Silent (H.state host.old) (H.state host.new) }
    ensures counts { CountsAdministration (H.state host.old) (H.state host.new) result }
{
    let diversions = read_diverted(alloc, host, path)?;
    let text = truename_text(alloc, &diversions, user, path)?;
    Ok(text)
}

/// The table of diversions.
pub fn list_diversions<H: Host>(alloc: Global, host: &mut H) -> Result<Bytes, AdministrationFault>
    ensures told { IfOk result (AreDiversions (H.state host.new)) }
    ensures finds { IsTrue (H.state host.new).honest
        → Finds diversions_parts (H.state host.old).world (fault_in result) }
    ensures reads { Reads (H.state host.old) (H.state host.new) }
    ensures silent { Silent (H.state host.old) (H.state host.new) }
    ensures counts { CountsAdministration (H.state host.old) (H.state host.new) result }
{
    let diversions = read_diversions(alloc, host)?;
    let text = diversions_text(alloc, &diversions)?;
    Ok(text)
}
