// Where links lead, as they are seen from the root.
ghost use Rattle.std.specs.Prelude.{◌≡◌, ◌++◌, ◌∷◌, IfOk, false, true, MatchOption};
ghost use Rattle.host_core.specs.Looks.{Looks};
ghost use Rattle.aliases.specs.Links.{Leads, names_of, start_of, turn_at, turn_of, way_on, go};
ghost use Rattle.aliases.specs.declared.links.Turn.TheVariants as ATurn;
ghost use Rattle.aliases.specs.Links as spec;
ghost use Rattle.aliases.specs.Table.{is_place};
ghost use Rattle.aliases.specs.Stops.{way_of};

use crate::names::{directory_above, first_name, place_of};
use host_core::{Host, HostFault, Kind, Node, RootPath};
use std::alloc::{AllocError, Global};
use texts::Text;

// How many links may be on a way.
const LINKS: u8 = 8;

/// Where a name leads from a directory.
#[derive(Drop)]
pub(crate) enum Turn {
    Into(RootPath),
    Link(Text),
    Nowhere,
}

/// How far names led.
#[derive(Drop)]
pub(crate) enum Stop {
    Leads(RootPath),
    Meets(RootPath, Text),
    Ends,
}

fn read_node<H: Host>(host: &mut H, place: &RootPath) -> Result<Turn, HostFault>
    ensures looks { Looks result (λ turn w. turn ≡ turn_at (w place.now) place.now)
        (H.state host.old) (H.state host.new) }
{
    match host.node(place)? {
        Some(Node::Link { target }) => Ok(Turn::Link(target)),
        Some(Node::Dir { .. }) => Ok(Turn::Into(place.copy()?)),
        Some(Node::File { .. }) => Ok(Turn::Nowhere),
        None => Ok(Turn::Nowhere),
    }
}

// Files aren't read.
#[tactic(auto, using(host_core::proofs::Moments::reads_then))]
fn look_at<H: Host>(host: &mut H, place: &RootPath) -> Result<Turn, HostFault>
    ensures looks { Looks result (λ turn w. turn ≡ turn_at (w place.now) place.now)
        (H.state host.old) (H.state host.new) }
{
    match host.kind(place)? {
        Some(Kind::SymbolicLink) => read_node(host, place),
        Some(Kind::Directory) => Ok(Turn::Into(place.copy()?)),
        Some(Kind::File) => Ok(Turn::Nowhere),
        None => Ok(Turn::Nowhere),
    }
}

// The place of a name in a directory, if that is one.
fn child(alloc: Global, at: &RootPath, name: &str) -> Result<Option<RootPath>, AllocError>
    ensures { IfOk result (λ o. MatchOption o (is_place (at.now ++ 47 ∷ name.now) ≡ false)
        (λ p. (is_place (at.now ++ 47 ∷ name.now) ≡ true) × (p ≡ at.now ++ 47 ∷ name.now))) }
{
    let mut text = String::from_str(alloc, at.as_str())?;
    text.push('/')?;
    text.push_str(name)?;
    place_of(alloc, text.as_str())
}

fn turn_at_name<H: Host>(
    alloc: Global,
    host: &mut H,
    at: &RootPath,
    name: &str,
) -> Result<Turn, HostFault>
    ensures looks { Looks result (λ turn w. turn ≡ turn_of w at.now name.now) (H.state host.old)
        (H.state host.new) }
{
    if name.is_empty() || name == "." {
        return Ok(Turn::Into(at.copy()?));
    }
    if name == ".." {
        return Ok(Turn::Into(directory_above(alloc, at)?));
    }
    match child(alloc, at, name)? {
        Some(place) => look_at(host, &place),
        None => Ok(Turn::Nowhere),
    }
}

// Where the names of a link's text begin.
fn start_of(alloc: Global, at: &RootPath, text: &str) -> Result<RootPath, AllocError>
    ensures { IfOk result (λ p. p ≡ start_of at.now text.now) }
{
    if text.starts_with('/') {
        return RootPath::from_str(alloc, "");
    }
    at.copy()
}

fn joined(alloc: Global, text: &str, rest: &str) -> Result<Text, AllocError>
    ensures { IfOk result (λ names. names ≡ text.now ++ 47 ∷ rest.now) }
{
    let mut names = String::from_str(alloc, text)?;
    names.push('/')?;
    names.push_str(rest)?;
    Ok(Text::new(names))
}

// A link in a directory: its names, and behind them those that are left.
fn meet(alloc: Global, at: &RootPath, text: &str, rest: &str) -> Result<Stop, AllocError>
    ensures { IfOk result
        (λ stop. way_of stop ≡ way_on (ATurn.Link text.now) Leads at.now (names_of rest.now)) }
{
    let start = start_of(alloc, at, text)?;
    let names = joined(alloc, text, rest)?;
    Ok(Stop::Meets(start, names))
}

// Goes through names up to the first link.
fn go_on<H: Host>(
    alloc: Global,
    host: &mut H,
    from: &RootPath,
    names: &str,
) -> Result<Stop, HostFault>
    ensures looks { Looks result (λ stop w. way_of stop ≡ go w from.now (names_of names.now))
        (H.state host.old) (H.state host.new) }
{
    let mut at = from.copy()?;
    let mut rest = names;
    while !rest.is_empty() {
        let (name, behind) = first_name(rest);
        match turn_at_name(alloc, host, &at, name)? {
            Turn::Into(next) => at = next,
            Turn::Link(text) => return Ok(meet(alloc, &at, text.as_str(), behind)?),
            Turn::Nowhere => return Ok(Stop::Ends),
        }
        rest = behind;
    }
    Ok(Stop::Leads(at))
}

/// The directory that a path leads to.
pub(crate) fn leads_to<H: Host>(
    alloc: Global,
    host: &mut H,
    path: &RootPath,
) -> Result<Option<RootPath>, HostFault>
    ensures looks { Looks result (λ target w. target ≡ spec.leads_to w path.now)
        (H.state host.old) (H.state host.new) }
{
    let mut at = RootPath::from_str(alloc, "")?;
    let mut names = Text::from_str(alloc, path.as_str())?;
    let mut links = LINKS;
    loop {
        match go_on(alloc, host, &at, names.as_str())? {
            Stop::Leads(target) => return Ok(Some(target)),
            Stop::Meets(start, onward) => {
                at = start;
                names = onward;
            }
            Stop::Ends => return Ok(None),
        }
        if links == 0 {
            return Ok(None);
        }
        links -= 1;
    }
}
