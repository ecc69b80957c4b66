// Questions that the records answer.
ghost use Rattle.std.specs.Prelude.{◌≡◌, IsTrue, IfOk};
ghost use Rattle.host_core.specs.Host.{Reads, Silent};
ghost use Rattle.administration.specs.Fault.{CountsAdministration};
ghost use Rattle.opening.specs.Parts.{Finds, fault_in};
ghost use Rattle.inquiries.specs.Read.{AreSelections, IsList, IsStatus, records_parts};

use crate::reading::read_records;
use administration::AdministrationFault;
use host_core::Host;
use queries::{Told, list_text, selections_text, status_text};
use record_formats::Layout;
use std::alloc::Global;
use texts::{Bytes, Text};

/// The packages: those whose names match one of the patterns, or all without a pattern.
pub fn list<H: Host>(
    alloc: Global,
    host: &mut H,
    layout: &Layout,
    patterns: &[Text],
) -> Result<Told, AdministrationFault>
    ensures told { IfOk result (IsList layout.now patterns.now (H.state host.new)) }
    ensures finds { IsTrue (H.state host.new).honest
        → Finds records_parts (H.state host.old).world (fault_in result) }
    ensures reads { Reads (H.state host.old) (H.state host.new) }
    ensures silent { Silent (H.state host.old) (H.state host.new) }
    ensures counts { CountsAdministration (H.state host.old) (H.state host.new) result }
{
    let database = read_records(alloc, host)?;
    let told = list_text(alloc, layout, patterns, &database)?;
    Ok(told)
}

/// What is wanted of the packages: of those whose names match one of the patterns, or of all without
/// a pattern.
pub fn selections<H: Host>(
    alloc: Global,
    host: &mut H,
    patterns: &[Text],
) -> Result<Told, AdministrationFault>
    ensures told { IfOk result (AreSelections patterns.now (H.state host.new)) }
    ensures finds { IsTrue (H.state host.new).honest
        → Finds records_parts (H.state host.old).world (fault_in result) }
    ensures reads { Reads (H.state host.old) (H.state host.new) }
    ensures silent { Silent (H.state host.old) (H.state host.new) }
    ensures counts { CountsAdministration (H.state host.old) (H.state host.new) result }
{
    let database = read_records(alloc, host)?;
    let told = selections_text(alloc, patterns, &database)?;
    Ok(told)
}

/// The record of a package as the status file has it; none where it has no record.
pub fn status<H: Host>(
    alloc: Global,
    host: &mut H,
    name: &Text,
) -> Result<Option<Bytes>, AdministrationFault>
    ensures told { IfOk result (IsStatus name.now (H.state host.new)) }
    ensures finds { IsTrue (H.state host.new).honest
        → Finds records_parts (H.state host.old).world (fault_in result) }
    ensures reads { Reads (H.state host.old) (H.state host.new) }
    ensures silent { Silent (H.state host.old) (H.state host.new) }
    ensures counts { CountsAdministration (H.state host.old) (H.state host.new) result }
{
    let database = read_records(alloc, host)?;
    let text = status_text(alloc, &database, name)?;
    Ok(text)
}
