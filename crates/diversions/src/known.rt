// The places of the entries, kept beside the table.
ghost use Rattle.std.specs.Prelude.{◌≡◌, None, false, IfOk, option_copied};
ghost use Rattle.diversions.specs.Kept.{IsKnown, routes_of};
ghost use Rattle.diversions.specs.Targets.{entry_aimed};
ghost use Rattle.diversions.specs.Ways as spec;

use crate::entry::Diversion;
use crate::route::{Route, route_of};
use crate::table::Table;
use crate::ways::Ways;
use aliases::Aliases;
use std::alloc::AllocError;

/// The places of each entry's path and target, in the order of the entries. None where there was no memory for them, or where
/// the table was changed: then a place is found anew at each question.
#[derive(Drop)]
pub(crate) struct Known {
    pub routes: Option<Vec<Route>>,
}

// The routes of all entries.
fn routes_of(table: &Table, aliases: &Aliases) -> Result<Vec<Route>, AllocError>
    ensures { IfOk result (λ routes. routes.items ≡ routes_of aliases.now table.now) }
{
    let mut routes = Vec::new(table.alloc());
    let mut entries = table.entries();
    while let Some(entry) = entries.next() {
        routes.push(route_of(aliases, &entry.path, &entry.target)?)?;
    }
    Ok(routes)
}

// The first entry whose path has a place.
fn found_at<'a>(
    table: &'a Table,
    aliases: &Aliases,
    place: &str,
) -> Result<Option<&'a Diversion>, AllocError>
    ensures { IfOk result
        (λ o. option_copied o ≡ spec.entry_at aliases.now table.now place.now) }
{
    let mut entries = table.entries();
    while let Some(entry) = entries.next() {
        if aliases.is_at(entry.path.as_str(), place)? {
            return Ok(Some(entry));
        }
    }
    Ok(None)
}

// The same by the routes of all.
fn known_at<'a>(ways: &'a Ways, routes: &[Route], place: &str) -> Option<&'a Diversion>
    requires { routes.now ≡ routes_of ways.now.aliases ways.now.entries }
    ensures { option_copied result ≡ spec.entry_at ways.now.aliases ways.now.entries place.now }
{
    let mut entries = ways.entries.entries();
    let mut left = routes.iter();
    while let Some(entry) = entries.next() {
        let Some(route) = left.next() else {
            return None;
        };
        if route.from.as_str() == place {
            return Some(entry);
        }
    }
    None
}

// The first entry whose target has a place.
fn found_aimed<'a>(
    table: &'a Table,
    aliases: &Aliases,
    place: &str,
) -> Result<Option<&'a Diversion>, AllocError>
    ensures { IfOk result
        (λ o. option_copied o ≡ entry_aimed aliases.now table.now place.now) }
{
    let mut entries = table.entries();
    while let Some(entry) = entries.next() {
        if aliases.is_at(entry.target.as_str(), place)? {
            return Ok(Some(entry));
        }
    }
    Ok(None)
}

// The same by the routes of all.
fn known_aimed<'a>(ways: &'a Ways, routes: &[Route], place: &str) -> Option<&'a Diversion>
    requires { routes.now ≡ routes_of ways.now.aliases ways.now.entries }
    ensures { option_copied result ≡ entry_aimed ways.now.aliases ways.now.entries place.now }
{
    let mut entries = ways.entries.entries();
    let mut left = routes.iter();
    while let Some(entry) = entries.next() {
        let Some(route) = left.next() else {
            return None;
        };
        if route.to.as_str() == place {
            return Some(entry);
        }
    }
    None
}

impl Known {
    /// Nothing is known.
    pub(crate) fn nothing() -> Self
        ensures { result.routes ≡ None }
    {
        Known { routes: None }
    }

    /// Finds the places, if there is memory for them.
    pub(crate) fn of(ways: &Ways) -> Self
        ensures { IsKnown result ways.now }
    {
        match routes_of(&ways.entries, &ways.aliases) {
            Ok(routes) => Known {
                routes: Some(routes),
            },
            Err(_) => Known::nothing(),
        }
    }

    /// Finds them where nothing is known yet, or where aliases were added.
    pub(crate) fn follow(&mut self, ways: &Ways, grown: bool)
        requires { grown ≡ false → IsKnown self.old ways.now }
        ensures { IsKnown self.new ways.now }
    {
        if grown || self.routes.is_none() {
            *self = Known::of(ways);
        }
    }

    /// The first entry whose path has a place.
    pub(crate) fn entry_at<'a>(
        &self,
        ways: &'a Ways,
        place: &str,
    ) -> Result<Option<&'a Diversion>, AllocError>
        requires { IsKnown self.now ways.now }
        ensures { IfOk result
            (λ o. option_copied o
            ≡ spec.entry_at ways.now.aliases ways.now.entries place.now) }
    {
        match &self.routes {
            Some(routes) => Ok(known_at(ways, routes.as_slice(), place)),
            None => found_at(&ways.entries, &ways.aliases, place),
        }
    }

    /// The first entry whose target has a place.
    pub(crate) fn entry_aimed<'a>(
        &self,
        ways: &'a Ways,
        place: &str,
    ) -> Result<Option<&'a Diversion>, AllocError>
        requires { IsKnown self.now ways.now }
        ensures { IfOk result
            (λ o. option_copied o ≡ entry_aimed ways.now.aliases ways.now.entries place.now) }
    {
        match &self.routes {
            Some(routes) => Ok(known_aimed(ways, routes.as_slice(), place)),
            None => found_aimed(&ways.entries, &ways.aliases, place),
        }
    }
}
