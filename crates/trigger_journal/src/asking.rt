// Which triggers are asked for.
ghost use Rattle.std.specs.Prelude.{◌≡◌, IfOk};
ghost use Rattle.administration.specs.Places.{is_within};
ghost use Rattle.host_core.specs.Looks.{Looks};
ghost use Rattle.trigger_interests.specs.Interests.{interests_of};
ghost use Rattle.trigger_watch.specs.Activations.{activations_by};
ghost use Rattle.trigger_watch.specs.Watch.{installed};
ghost use Rattle.trigger_journal.specs.Asked.{asked_among, asked_of, is_asked, is_for, is_found};

use crate::requests::{Request, read_requests};
use host_core::{Host, HostFault};
use status_db::NotedDatabase;
use status_records::Record;
use std::alloc::{AllocError, Global};
use texts::Text;
use trigger_interests::{Interest, read_interests};
use trigger_watch::{Activation, activations_by};

// Whether a path is that of a directory, or lies below it.
fn is_within(directory: &[u8], path: &[u8]) -> bool
    ensures { result ≡ is_within directory.now path.now }
{
    match path.strip_prefix(directory) {
        Some(rest) => rest.is_empty() || rest.starts_with(b"/"),
        None => false,
    }
}

fn is_for(name: &[u8], request: &Request) -> bool
    ensures { result ≡ is_for name.now request.now }
{
    let asked = request.name.as_slice();
    asked == name || (name.starts_with(b"/") && is_within(name, asked))
}

fn is_found(found: &[Request], name: &[u8]) -> bool
    ensures { result ≡ is_found found.now name.now }
{
    found
        .iter()
        .any(|request| request.ours || is_for(name, request))
}

fn is_asked(requests: &[Request], name: &[u8]) -> bool
    ensures { result ≡ is_asked requests.now name.now }
{
    requests
        .iter()
        .any(|request| request.others && is_for(name, request))
}

fn asked_among(
    alloc: Global,
    found: &[Request],
    now: &[Request],
    interests: &[Interest],
) -> Result<Vec<Interest>, AllocError>
    ensures { IfOk result (λ asked. asked.items ≡ asked_among found.now now.now interests.now) }
{
    let mut asked = Vec::new(alloc);
    for interest in interests {
        let name = interest.name.as_str().as_bytes();
        if is_found(found, name) || is_asked(now, name) {
            asked.push(interest.copy()?)?;
        }
    }
    Ok(asked)
}

fn installed(alloc: Global, records: &[Record]) -> Result<Vec<Text>, AllocError>
    ensures { IfOk result (λ names. names.items ≡ installed records.now) }
{
    let mut names = Vec::new(alloc);
    for entry in records {
        if entry.state.is_installed() {
            names.push(entry.name.copy()?)?;
        }
    }
    Ok(names)
}

// The interests of the installed packages.
fn read_installed<H: Host>(
    alloc: Global,
    host: &mut H,
    records: &[Record],
) -> Result<Vec<Interest>, HostFault>
    ensures looks { Looks result (λ interests w. interests.items
        ≡ interests_of w (installed records.now)) (H.state host.old) (H.state host.new) }
{
    let names = installed(alloc, records)?;
    read_interests(alloc, host, names.as_slice())
}

// What is asked for of interests.
fn activations_among(
    alloc: Global,
    found: &[Request],
    now: &[Request],
    interests: &[Interest],
) -> Result<Vec<Activation>, AllocError>
    ensures { IfOk result (λ activations. activations.items
        ≡ activations_by (asked_among found.now now.now interests.now)) }
{
    let asked = asked_among(alloc, found, now, interests)?;
    activations_by(alloc, asked.as_slice())
}

// The same of the installed packages.
fn read_asked_by<H: Host>(
    alloc: Global,
    host: &mut H,
    records: &[Record],
    found: &[Request],
    now: &[Request],
) -> Result<Vec<Activation>, HostFault>
    ensures looks { Looks result (λ asked w. asked.items
        ≡ activations_by (asked_among found.now now.now (interests_of w (installed records.now))))
        (H.state host.old) (H.state host.new) }
{
    match read_installed(alloc, host, records) {
        Ok(interests) => Ok(activations_among(alloc, found, now, interests.as_slice())?),
        Err(fault) => Err(fault),
    }
}

/// Of each installed package the triggers of its interests that are asked for, by the journal now or by requests that were found in it
/// before. No script is called.
pub fn read_asked<H: Host>(
    alloc: Global,
    host: &mut H,
    database: &NotedDatabase,
    found: &[Request],
) -> Result<Vec<Activation>, HostFault>
    ensures looks { Looks result (λ asked w. asked.items
        ≡ asked_of w database.now.records found.now) (H.state host.old) (H.state host.new) }
{
    let now = read_requests(alloc, host)?;
    read_asked_by(alloc, host, database.records(), found, now.as_slice())
}
