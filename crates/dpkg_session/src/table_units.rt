// The units of changes of the diversions, and their reports.
ghost use Rattle.std.specs.Prelude.{◌≡◌, ◌⊎◌, ◌<◌, [], IsTrue, IfSome, OnOk, true, is_some, vec_len, vec_capacity};
ghost use Rattle.host_core.specs.Host.{AtEachMoment, Counts, Silent};
ghost use Rattle.host_core.specs.Loss.{IsOnDisk};
ghost use Rattle.diversions.specs.declared.refusal.Answer.TheVariants as answered;
ghost use Rattle.file_lists.specs.Owners.{places_in};
ghost use Rattle.dpkg_session.specs.Diversions.{AnswersDiversion, HasBroken, IsReportOf, by_answer, table_breakage};
ghost use Rattle.unit_reports.specs.Units.{IsBrokenBy, TellsNoPackage, breakage_of, calls_told};
ghost use Rattle.unit_reports.specs.declared.report.Breakage.TheVariants.{NoMemory};

use diversions::{Answer, DiversionFault, Diversions};
use file_lists::FileLists;
use host_core::{Host, HostFault, Places, ShipPath};
use std::alloc::Global;
use texts::{Text, Texts};
use unit_reports::{Breakage, Refusal, Reply, Report, Rule, Unit, broken, is_broken, refresh};

pub(crate) fn breakage_of(fault: DiversionFault) -> Breakage
    ensures { result ≡ table_breakage fault }
{
    match fault {
        DiversionFault::Device => Breakage::Device,
        DiversionFault::NoMemory => Breakage::NoMemory,
        DiversionFault::Declined => Breakage::Declined,
        DiversionFault::Closed => Breakage::Closed,
    }
}

// The unit that a refusal makes.
fn refused(alloc: Global, path: &ShipPath, refusal: diversions::Refusal) -> Unit
    ensures unit { IsBrokenBy NoMemory result.reply ⊎ AnswersDiversion path.now
        (answered.Refused refusal) result }
    ensures calls { result.calls.items ≡ [] }
    ensures touched { TellsNoPackage result }
{
    match Text::from_str(alloc, path.as_str()) {
        Ok(package) => Unit {
            calls: Vec::new(alloc),
            touched: Vec::new(alloc),
            deconfigured: Texts::new(alloc),
            reply: Reply::Refused(Refusal {
                rule: Rule::Divert(refusal),
                package,
            }),
        },
        Err(_) => broken(alloc, Vec::new(alloc), Breakage::NoMemory),
    }
}

// The unit of a change that is done, once the kept places are those of the table that it left.
fn done(
    alloc: Global,
    lists: &FileLists,
    diversions: &Diversions,
    places: &mut Places,
    path: &ShipPath,
) -> Unit
    ensures unit { IsBrokenBy NoMemory result.reply ⊎ AnswersDiversion path.now answered.Done
        result }
    ensures places { IsBrokenBy NoMemory result.reply
        ⊎ (places.new ≡ places_in diversions.now.ways lists.now.lists) }
    ensures calls { result.calls.items ≡ [] }
    ensures touched { TellsNoPackage result }
{
    match refresh(alloc, lists, diversions, places) {
        Ok(()) => Unit {
            calls: Vec::new(alloc),
            touched: Vec::new(alloc),
            deconfigured: Texts::new(alloc),
            reply: Reply::Done,
        },
        Err(_) => broken(alloc, Vec::new(alloc), Breakage::NoMemory),
    }
}

// The unit of an answer.
pub(crate) fn unit_of(
    alloc: Global,
    lists: &FileLists,
    diversions: &Diversions,
    places: &mut Places,
    path: &ShipPath,
    answer: Answer,
) -> Unit
    ensures unit { IsBrokenBy NoMemory result.reply ⊎ AnswersDiversion path.now answer result }
    ensures places { IsBrokenBy NoMemory result.reply
        ⊎ (places.new ≡ by_answer answer places.old (places_in diversions.now.ways
        lists.now.lists)) }
    ensures calls { result.calls.items ≡ [] }
    ensures touched { TellsNoPackage result }
{
    match answer {
        Answer::Done => done(alloc, lists, diversions, places, path),
        Answer::Refused(refusal) => refused(alloc, path, refusal),
    }
}

// Brings what was done to the disk; a refusal did nothing.
pub(crate) fn flush_done<H: Host>(host: &mut H, answer: Answer) -> Result<(), HostFault>
    ensures done { OnOk result (answer ≡ answered.Done → IsOnDisk (H.state host.new).events) }
    ensures refused { answer ≡ answered.Done ⊎ (H.state host.new ≡ H.state host.old) }
    ensures world { IsTrue (H.state host.new).honest → (H.state host.new).world
        ≡ (H.state host.old).world }
    ensures any_moment { AtEachMoment (λ old now. now ≡ old) (H.state host.old) (H.state host.new) }
    ensures silent { Silent (H.state host.old) (H.state host.new) }
    ensures counts { Counts (H.state host.old) (H.state host.new) result }
{
    match answer {
        Answer::Done => host.barrier(),
        Answer::Refused(_) => Ok(()),
    }
}

// The report of one unit; there is room for it.
pub(crate) fn report_of(mut units: Vec<Unit>, unit: Unit) -> Report
    requires none { units.items ≡ [] }
    requires room { vec_len units < vec_capacity units }
    ensures { IsReportOf unit result }
{
    if is_broken(&unit) {
        return Report {
            units,
            last: Some(unit),
        };
    }
    units.push(unit).unwrap();
    Report { units, last: None }
}

// The report where there was no memory for a unit.
pub(crate) fn no_memory(alloc: Global) -> Report
    ensures broken { HasBroken result }
    ensures last { IfSome result.last (λ u. IsBrokenBy NoMemory u.reply) }
    ensures calls { calls_told result ≡ [] }
    ensures some { is_some result.last ≡ true }
{
    Report {
        units: Vec::new(alloc),
        last: Some(broken(alloc, Vec::new(alloc), Breakage::NoMemory)),
    }
}

// The report where the device failed, or memory was wanting, while it was looked.
pub(crate) fn broken_report(alloc: Global, fault: HostFault) -> Report
    ensures broken { HasBroken result }
    ensures last { IfSome result.last (λ u. IsBrokenBy (breakage_of fault) u.reply) }
    ensures calls { calls_told result ≡ [] }
    ensures some { is_some result.last ≡ true }
{
    Report {
        units: Vec::new(alloc),
        last: Some(broken(alloc, Vec::new(alloc), unit_reports::breakage_of(fault))),
    }
}
