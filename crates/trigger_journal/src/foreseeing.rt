// What is written ahead of units, and cleared behind them.
ghost use Rattle.std.specs.Prelude.{◌≡◌, ◌++◌, IfOk, MatchBool, OnOk, map, filter};
ghost use Rattle.std.specs.List.{list_any};
ghost use Rattle.administration.specs.Places.{home_path};
ghost use Rattle.host_core.specs.Host.{AtEachMoment, Counts, Gives, Needs, Silent};
ghost use Rattle.host_core.specs.Looks.{Looks};
ghost use Rattle.host_core.specs.Loss.{IsAnswered};
ghost use Rattle.host_core.specs.World.{IsDirectory};
ghost use Rattle.trigger_watch.specs.Names.{each_once};
ghost use Rattle.trigger_journal.specs.Ahead.{has_files, is_foreseen, missing, names_ahead, own_line, own_lines, packages_with_files, text_ahead};
ghost use Rattle.trigger_journal.specs.Requests.{requests_in};
ghost use Rattle.trigger_journal.specs.Writing.{IsAhead, IsCleared, IsClearing, IsUnwritten, IsWritingAhead};

use crate::requests::{Request, read_text, requests_in};
use crate::writing::write_text;
use host_core::{Host, HostFault};
use status_db::NotedDatabase;
use status_records::{Record, State};
use std::alloc::{AllocError, Global};
use texts::Text;
use trigger_interests::{Interest, read_interests};
use trigger_watch::each_once;

/// Whether a package in this state has files.
pub fn has_files(state: State) -> bool
    ensures { result ≡ has_files state }
{
    match state {
        State::NotInstalled | State::ConfigFiles => false,
        State::HalfInstalled | State::Unpacked => true,
        State::HalfConfigured | State::Installed => true,
    }
}

fn packages_with_files(alloc: Global, records: &[Record]) -> Result<Vec<Text>, AllocError>
    ensures { IfOk result (λ names. names.items ≡ packages_with_files records.now) }
{
    let mut names = Vec::new(alloc);
    for entry in records {
        if has_files(entry.state) {
            names.push(entry.name.copy()?)?;
        }
    }
    Ok(names)
}

// The names of interests, each once.
fn names_of(alloc: Global, interests: &[Interest]) -> Result<Vec<Text>, AllocError>
    ensures { IfOk result (λ names. names.items
        ≡ each_once (map (λ interest. interest.name) interests.now)) }
{
    let mut names = Vec::new(alloc);
    for interest in interests {
        names.push(interest.name.copy()?)?;
    }
    each_once(alloc, names)
}

// The triggers in which a package with files is interested.
fn read_names<H: Host>(
    alloc: Global,
    host: &mut H,
    records: &[Record],
) -> Result<Vec<Text>, HostFault>
    ensures looks { Looks result (λ names w. names.items ≡ names_ahead w records.now)
        (H.state host.old) (H.state host.new) }
{
    let packages = packages_with_files(alloc, records)?;
    match read_interests(alloc, host, packages.as_slice()) {
        Ok(interests) => Ok(names_of(alloc, interests.as_slice())?),
        Err(fault) => Err(fault),
    }
}

fn is_foreseen(requests: &[Request], name: &Text) -> bool
    ensures { result ≡ is_foreseen requests.now name.now }
{
    requests.iter().any(|request| request.ours
        && request.name.as_slice() == name.as_str().as_bytes())
}

// Those of these triggers for which none of our lines stands.
fn missing(alloc: Global, requests: &[Request], names: &[Text]) -> Result<Vec<Text>, AllocError>
    ensures { IfOk result (λ left. left.items ≡ missing requests.now names.now) }
{
    let mut left = Vec::new(alloc);
    for name in names {
        if !is_foreseen(requests, name) {
            left.push(name.copy()?)?;
        }
    }
    Ok(left)
}

fn add_line(name: &Text, lines: &mut Vec<u8>) -> Result<(), AllocError>
    ensures { OnOk result (lines.new.items ≡ lines.old.items ++ own_line name.now) }
{
    lines.extend_from_slice(name.as_str().as_bytes())?;
    lines.extend_from_slice(b" coizkerra\n")?;
    Ok(())
}

fn own_lines(alloc: Global, names: &[Text]) -> Result<Vec<u8>, AllocError>
    ensures { IfOk result (λ lines. lines.items ≡ own_lines names.now) }
{
    let mut lines = Vec::new(alloc);
    for name in names {
        add_line(name, &mut lines)?;
    }
    Ok(lines)
}

// Those of these triggers for which a text has no line of ours.
fn missing_in(alloc: Global, names: &[Text], text: &[u8]) -> Result<Vec<Text>, AllocError>
    ensures { IfOk result (λ left. left.items ≡ missing (requests_in text.now) names.now) }
{
    let requests = requests_in(alloc, text)?;
    missing(alloc, requests.as_slice(), names)
}

// Our lines in front of a text.
fn with_lines(alloc: Global, names: &[Text], text: &[u8]) -> Result<Vec<u8>, AllocError>
    ensures { IfOk result (λ lines. lines.items ≡ own_lines names.now ++ text.now) }
{
    let mut lines = own_lines(alloc, names)?;
    lines.extend_from_slice(text)?;
    Ok(lines)
}

/// Writes ahead of units: a line of ours for each trigger in which a package with files is interested, beside what stood there; only
/// where one is missing. That is on the disk then. Or tells that something is in the way.
pub fn write_ahead<H: Host>(
    alloc: Global,
    host: &mut H,
    database: &NotedDatabase,
) -> Result<bool, HostFault>
    requires home { Needs (H.state host.old) (λ w. IsDirectory (w home_path)) }
    ensures ahead { Gives result (λ written old new. MatchBool written
        (IsAhead database.now.records old new) (IsUnwritten old new)) (H.state host.old)
        (H.state host.new) }
    ensures any_moment { AtEachMoment (IsWritingAhead database.now.records) (H.state host.old)
        (H.state host.new) }
    ensures on_disk { IfOk result (λ written. MatchBool written
        (IsAnswered (H.state host.old) (H.state host.new)) (Unit {0})) }
    ensures silent { Silent (H.state host.old) (H.state host.new) }
    ensures counts { Counts (H.state host.old) (H.state host.new) result }
{
    let names = read_names(alloc, host, database.records())?;
    let text = read_text(alloc, host)?;
    let left = missing_in(alloc, names.as_slice(), text.as_slice())?;
    if left.is_empty() {
        return Ok(true);
    }
    write_text(
        alloc,
        host,
        with_lines(alloc, left.as_slice(), text.as_slice())?,
    )
}

/// Leaves an empty journal where there is one with a text: dpkg-trigger writes into one that stands there alone. Or tells that
/// something is in the way.
pub fn clear<H: Host>(alloc: Global, host: &mut H) -> Result<bool, HostFault>
    requires home { Needs (H.state host.old) (λ w. IsDirectory (w home_path)) }
    ensures cleared { Gives result (λ written old new. MatchBool written (IsCleared old new)
        (IsUnwritten old new)) (H.state host.old) (H.state host.new) }
    ensures any_moment { AtEachMoment IsClearing (H.state host.old) (H.state host.new) }
    ensures on_disk { IfOk result (λ written. MatchBool written
        (IsAnswered (H.state host.old) (H.state host.new)) (Unit {0})) }
    ensures silent { Silent (H.state host.old) (H.state host.new) }
    ensures counts { Counts (H.state host.old) (H.state host.new) result }
{
    let text = read_text(alloc, host)?;
    if text.is_empty() {
        return Ok(true);
    }
    write_text(alloc, host, Vec::new(alloc))
}
