// The verification of a package against its tree.
ghost use Rattle.std.specs.Prelude.{◌≡◌, ◌≢◌, ◌↔◌, [], IfOk, IsTrue, option_copied, string_bytes};
ghost use Rattle.std.specs.Str.{bytes_eq};
ghost use Rattle.host_core.specs.Host.{Needs, Reads, Silent};
ghost use Rattle.status_records.specs.Records.{record_in};
ghost use Rattle.host_overlay.specs.Seen.{seen};
ghost use Rattle.inquiries.specs.Read.{FindsAll, HasFollowed};
ghost use Rattle.file_lists.specs.Followed.{AreWhole};
ghost use Rattle.opening.specs.Parts.{fault_in};
ghost use Rattle.verification.specs.Compared.{IsCompared, compared_files, heading_lines, is_compared, recorded_lines, standing_lines, state_line, version_line};
ghost use Rattle.verification.specs.Counting.{CountsLooks, CountsVerified};
ghost use Rattle.verification.specs.Looks.{AddsEach};
ghost use Rattle.verification.specs.Shipped.{looked_paths, shipped_lines};

use crate::following::follow_files;
use crate::packages::has_files;
use crate::shipped::add_files;
use crate::verifying::{Verified, cut_lines, told, unknown_lines};
use administration::AdministrationFault;
use host_core::{Host, HostFault};
use inquiries::{SeenAll, read_followed};
use package_tree::{Package, Shipped};
use shown_lines::line;
use status_db::NotedDatabase;
use status_records::Record;
use std::alloc::{AllocError, Global};
use version_order::Version;

fn has_version(entry: &Record, version: &Version) -> bool
    ensures { result ≡ bytes_eq entry.now.version version.now }
{
    entry.version.text() == version.text()
}

fn is_compared(entry: &Record, version: &Version) -> bool
    ensures { result ≡ is_compared entry.now version.now }
{
    has_files(entry.state) && has_version(entry, version)
}

fn state_line(alloc: Global, entry: &Record) -> Result<String, AllocError>
    ensures { IfOk result (λ printed. string_bytes printed ≡ state_line entry.now) }
{
    let name = entry.name.as_str();
    let content = format!(in alloc; "refused {name} WrongState")?;
    line(alloc, content.as_str())
}

fn version_line(alloc: Global, entry: &Record) -> Result<String, AllocError>
    ensures { IfOk result (λ printed. string_bytes printed ≡ version_line entry.now) }
{
    let name = entry.name.as_str();
    let recorded = entry.version.text();
    let content = format!(in alloc; "refused {name} OtherVersion {recorded}")?;
    line(alloc, content.as_str())
}

// What is told of a package that has a record.
fn standing_lines(alloc: Global, entry: &Record, version: &Version) -> Result<String, AllocError>
    ensures { IfOk result
        (λ printed. string_bytes printed ≡ standing_lines entry.now version.now) }
{
    if !has_files(entry.state) {
        return state_line(alloc, entry);
    }
    if has_version(entry, version) {
        return cut_lines(alloc, entry);
    }
    version_line(alloc, entry)
}

fn recorded_lines(
    alloc: Global,
    entry: Option<&Record>,
    version: &Version,
) -> Result<String, AllocError>
    ensures { IfOk result
        (λ printed. string_bytes printed ≡ recorded_lines (option_copied entry.entry) version.now) }
{
    match entry {
        Some(entry) => standing_lines(alloc, entry, version),
        None => Ok(String::new(alloc)),
    }
}

// What is told of the package itself.
fn heading_lines(
    alloc: Global,
    database: &NotedDatabase,
    incoming: &Package,
) -> Result<String, AllocError>
    ensures { IfOk result
        (λ printed. string_bytes printed ≡ heading_lines database.now.records incoming.now) }
{
    let mut lines = unknown_lines(alloc, database, &incoming.name)?;
    let entry = database.get(&incoming.name);
    let recorded = recorded_lines(alloc, entry, &incoming.version)?;
    lines.push_str(recorded.as_str())?;
    Ok(lines)
}

// The shipped paths that are compared.
fn compared_files<'a>(database: &NotedDatabase, incoming: &'a Package) -> &'a [Shipped]
    ensures { result.now ≡ compared_files (record_in database.now.records incoming.now.name)
        incoming.now }
{
    match database.get(&incoming.name) {
        Some(entry) if is_compared(entry, &incoming.version) => incoming.files.as_slice(),
        Some(_) => &[],
        None => &[],
    }
}

// The lines over what was read, with the links above shipped paths.
fn compare_files<H: Host>(
    alloc: Global,
    host: &mut H,
    all: &SeenAll,
    incoming: &Package,
) -> Result<Verified, HostFault>
    ensures added { IfOk result (λ v. AddsEach
        (shipped_lines all.now.opened.diversions.ways incoming.now.name)
        (compared_files (record_in all.now.opened.database.records incoming.now.name) incoming.now)
        (H.state host.old) (H.state host.new)
        (heading_lines all.now.opened.database.records incoming.now) v.text) }
    ensures differs { IfOk result (λ v. IsTrue v.differs ↔ (v.text ≢ [])) }
    ensures reads { Reads (H.state host.old) (H.state host.new) }
    ensures silent { Silent (H.state host.old) (H.state host.new) }
    ensures counts { CountsLooks (H.state host.old) (H.state host.new) result }
{
    let mut lines = heading_lines(alloc, &all.opened.database, incoming)?;
    let files = compared_files(&all.opened.database, incoming);
    let name = &incoming.name;
    match add_files(alloc, host, &all.opened.diversions, name, files, &mut lines) {
        Ok(()) => Ok(told(lines)),
        Err(fault) => Err(fault),
    }
}

// The same over what was read of the administration.
fn compare_read<H: Host>(
    alloc: Global,
    host: &mut H,
    all: &mut SeenAll,
    incoming: &Package,
) -> Result<Verified, HostFault>
    requires { Needs (H.state host.old)
        (HasFollowed all.old.opened.database.records all.old.opened.lists.lists
        all.old.opened.diversions.ways (seen all.old.shown)) }
    ensures told { IfOk result
        (λ v. IsCompared incoming.now (H.state host.old) (H.state host.new) v.text) }
    ensures differs { IfOk result (λ v. IsTrue v.differs ↔ (v.text ≢ [])) }
    ensures reads { Reads (H.state host.old) (H.state host.new) }
    ensures silent { Silent (H.state host.old) (H.state host.new) }
    ensures counts { CountsLooks (H.state host.old) (H.state host.new) result }
{
    follow_files(
        alloc,
        host,
        incoming.files.as_slice(),
        &mut all.opened.diversions,
    )?;
    compare_files(alloc, host, all, incoming)
}

/// Which paths that a package's tree ships differ from what the tree has there; or why they aren't
/// compared.
pub fn verify_tree<H: Host>(
    alloc: Global,
    host: &mut H,
    incoming: &Package,
) -> Result<Verified, AdministrationFault>
    ensures told { IfOk result
        (λ v. IsCompared incoming.now (H.state host.old) (H.state host.new) v.text) }
    ensures differs { IfOk result (λ v. IsTrue v.differs ↔ (v.text ≢ [])) }
    ensures finds { IsTrue (H.state host.new).honest
        → FindsAll (H.state host.old).world (fault_in result) }
    ensures reads { Reads (H.state host.old) (H.state host.new) }
    ensures silent { Silent (H.state host.old) (H.state host.new) }
    ensures counts { CountsVerified (H.state host.old) (H.state host.new) result }
{
    let mut all = read_followed(alloc, host)?;
    match compare_read(alloc, host, &mut all, incoming) {
        Ok(verified) => Ok(verified),
        Err(fault) => Err(AdministrationFault::from(fault)),
    }
}
