// The verification of packages.
ghost use Rattle.std.specs.Prelude.{◌≡◌, ◌≢◌, ◌++◌, ◌↔◌, [], IfOk, IsTrue, OnOk, flat_map, string_bytes};
ghost use Rattle.host_core.specs.Host.{Reads, Silent};
ghost use Rattle.host_overlay.specs.Seen.{seen};
ghost use Rattle.inquiries.specs.Read.{FindsAll};
ghost use Rattle.opening.specs.Parts.{fault_in};
ghost use Rattle.verification.specs.Counting.{CountsLooks, CountsVerified};
ghost use Rattle.verification.specs.Verified.{AddsLooks, IsVerified, cut_lines, listings_of, unknown_lines, wanted};

use crate::packages::{add_packages, is_wanted};
use administration::AdministrationFault;
use host_core::{Host, HostFault};
use inquiries::{SeenAll, read_followed};
use queries::is_settled;
use shown_lines::line;
use status_db::NotedDatabase;
use status_records::Record;
use std::alloc::{AllocError, Global};
use texts::{Bytes, Text};

/// What a verification tells.
#[derive(Drop)]
pub struct Verified {
    pub text: Bytes,
    /// Whether anything is told.
    pub differs: bool,
}

pub(crate) fn unknown_lines(
    alloc: Global,
    database: &NotedDatabase,
    name: &Text,
) -> Result<String, AllocError>
    ensures { IfOk result
        (λ printed. string_bytes printed ≡ unknown_lines database.now.records name.now) }
{
    if database.get(name).is_some() {
        return Ok(String::new(alloc));
    }
    let name = name.as_str();
    let content = format!(in alloc; "refused {name} Unknown")?;
    line(alloc, content.as_str())
}

fn add_unknown(
    alloc: Global,
    lines: &mut String,
    database: &NotedDatabase,
    names: &[Text],
) -> Result<(), AllocError>
    ensures { OnOk result (string_bytes lines.new ≡ string_bytes lines.old
        ++ flat_map (unknown_lines database.now.records) names.now) }
{
    for name in names {
        let printed = unknown_lines(alloc, database, name)?;
        lines.push_str(printed.as_str())?;
    }
    Ok(())
}

pub(crate) fn cut_lines(alloc: Global, entry: &Record) -> Result<String, AllocError>
    ensures { IfOk result (λ printed. string_bytes printed ≡ cut_lines entry.now) }
{
    if is_settled(entry.flag, entry.state) {
        return Ok(String::new(alloc));
    }
    let name = entry.name.as_str();
    let state = entry.word().name();
    let flag = entry.flag.name();
    let content = format!(in alloc; "cut {name} {state} {flag}")?;
    line(alloc, content.as_str())
}

fn add_cut(
    alloc: Global,
    lines: &mut String,
    records: &[Record],
    names: &[Text],
) -> Result<(), AllocError>
    ensures { OnOk result (string_bytes lines.new ≡ string_bytes lines.old
        ++ flat_map cut_lines (wanted names.now records.now)) }
{
    for entry in records {
        if is_wanted(names, &entry.name) {
            let printed = cut_lines(alloc, entry)?;
            lines.push_str(printed.as_str())?;
        }
    }
    Ok(())
}

// What the records tell by themselves.
fn record_lines(
    alloc: Global,
    database: &NotedDatabase,
    names: &[Text],
) -> Result<String, AllocError>
    ensures { IfOk result (λ printed. string_bytes printed
        ≡ flat_map (unknown_lines database.now.records) names.now
        ++ flat_map cut_lines (wanted names.now database.now.records)) }
{
    let mut lines = String::new(alloc);
    add_unknown(alloc, &mut lines, database, names)?;
    add_cut(alloc, &mut lines, database.records(), names)?;
    Ok(lines)
}

pub(crate) fn told(lines: String) -> Verified
    ensures text { result.text ≡ string_bytes lines }
    ensures differs { IsTrue result.differs ↔ (result.text ≢ []) }
{
    let differs = !lines.is_empty();
    Verified {
        text: Bytes::new(lines.into_bytes()),
        differs,
    }
}

// The lines over what was read.
fn verify_read<H: Host>(
    alloc: Global,
    host: &mut H,
    all: &SeenAll,
    names: &[Text],
) -> Result<Verified, HostFault>
    ensures added { IfOk result (λ v. AddsLooks all.now.opened.diversions.ways (seen all.now.shown)
        (flat_map (listings_of all.now.opened.lists.lists) (wanted names.now all.now.opened.database.records))
        (H.state host.old) (H.state host.new)
        (flat_map (unknown_lines all.now.opened.database.records) names.now
        ++ flat_map cut_lines (wanted names.now all.now.opened.database.records)) v.text) }
    ensures differs { IfOk result (λ v. IsTrue v.differs ↔ (v.text ≢ [])) }
    ensures reads { Reads (H.state host.old) (H.state host.new) }
    ensures silent { Silent (H.state host.old) (H.state host.new) }
    ensures counts { CountsLooks (H.state host.old) (H.state host.new) result }
{
    let mut lines = record_lines(alloc, &all.opened.database, names)?;
    match add_packages(alloc, host, all, names, &mut lines) {
        Ok(()) => Ok(told(lines)),
        Err(fault) => Err(fault),
    }
}

/// Which listed paths of these packages, or of all where none is named, differ from what was
/// installed, and with which packages work was cut off.
pub fn verify<H: Host>(
    alloc: Global,
    host: &mut H,
    names: &[Text],
) -> Result<Verified, AdministrationFault>
    ensures told { IfOk result
        (λ v. IsVerified names.now (H.state host.old) (H.state host.new) v.text) }
    ensures differs { IfOk result (λ v. IsTrue v.differs ↔ (v.text ≢ [])) }
    ensures finds { IsTrue (H.state host.new).honest
        → FindsAll (H.state host.old).world (fault_in result) }
    ensures reads { Reads (H.state host.old) (H.state host.new) }
    ensures silent { Silent (H.state host.old) (H.state host.new) }
    ensures counts { CountsVerified (H.state host.old) (H.state host.new) result }
{
    let all = read_followed(alloc, host)?;
    all.opened.lists.law();
    match verify_read(alloc, host, &all, names) {
        Ok(verified) => Ok(verified),
        Err(fault) => Err(AdministrationFault::from(fault)),
    }
}
