// Where paths are, by the diversions and by the aliases.
ghost use Rattle.std.specs.Prelude.{◌≡◌, None, IfOk, option_copied};
ghost use Rattle.std.specs.Str.{bytes_eq};
ghost use Rattle.aliases.specs.Aliases.{resolved};
ghost use Rattle.diversions.specs.Entries.{entry_of};
ghost use Rattle.diversions.specs.Held.{ways_of};
ghost use Rattle.diversions.specs.Kept.{IsKnown};
ghost use Rattle.diversions.specs.Targets.{entry_to};
ghost use Rattle.diversions.specs.Ways as spec;

use crate::entry::Diversion;
use crate::known::Known;
use crate::table::Table;
use aliases::Aliases;
use host_core::{RootPath, ShipPath};
use std::alloc::AllocError;
use texts::Text;

/// The entries, and the aliases of the root that were read.
#[derive(Drop)]
pub(crate) struct Ways {
    pub entries: Table,
    pub aliases: Aliases,
}

impl Ways {
    // The entry of another name of a path's place. Only where there are aliases the entries are gone over.
    fn entry_behind(&self, known: &Known, path: &RootPath) -> Result<Option<&Diversion>, AllocError>
        requires known { IsKnown known.now self.now }
        requires unlisted { entry_of self.now.entries path.now ≡ None }
        ensures { IfOk result
            (λ o. option_copied o
            ≡ spec.entry_at self.now.aliases self.now.entries
            (resolved self.now.aliases path.now)) }
    {
        if self.aliases.is_empty() {
            return Ok(None);
        }
        if self.aliases.is_free(path.as_str()) {
            return known.entry_at(self, path.as_str());
        }
        let place = self.aliases.resolve_path(path)?;
        known.entry_at(self, place.as_str())
    }

    // The entry that diverts a path.
    fn diversion(&self, known: &Known, path: &RootPath) -> Result<Option<&Diversion>, AllocError>
        requires { IsKnown known.now self.now }
        ensures { IfOk result
            (λ o. option_copied o ≡ spec.diversion_of_place (ways_of self.now) path.now) }
    {
        match self.entries.get(path.as_str()) {
            Some(entry) => Ok(Some(entry)),
            None => self.entry_behind(known, path),
        }
    }

    /// The first entry whose target is the place of a path as it is listed.
    pub(crate) fn entry_to(
        &self,
        known: &Known,
        path: &RootPath,
    ) -> Result<Option<&Diversion>, AllocError>
        requires { IsKnown known.now self.now }
        ensures { IfOk result (λ o. option_copied o ≡ entry_to (ways_of self.now) path.now) }
    {
        if self.aliases.is_empty() {
            return Ok(self.entries.entry_named(path.as_str()));
        }
        let place = self.aliases.resolve_path(path)?;
        known.entry_aimed(self, place.as_str())
    }

    /// Where a path is for each package but the owner of its diversion.
    pub(crate) fn truename(&self, known: &Known, path: &RootPath) -> Result<RootPath, AllocError>
        requires { IsKnown known.now self.now }
        ensures { IfOk result (λ p. p ≡ spec.truename (ways_of self.now) path.now) }
    {
        match self.diversion(known, path)? {
            Some(entry) => self.aliases.resolve(&entry.target)?.at(),
            None => self.aliases.resolve_path(path),
        }
    }

    // Where a package has the file of a path that is listed in no entry. The path is resolved once.
    fn place_behind(
        &self,
        known: &Known,
        user: &Text,
        path: &RootPath,
    ) -> Result<RootPath, AllocError>
        requires known { IsKnown known.now self.now }
        requires unlisted { entry_of self.now.entries path.now ≡ None }
        ensures { IfOk result (λ p. p ≡ spec.place (ways_of self.now) user.now path.now) }
    {
        let place = self.aliases.resolve_path(path)?;
        if self.aliases.is_empty() {
            return Ok(place);
        }
        match known.entry_at(self, place.as_str())? {
            None => Ok(place),
            Some(entry) => {
                if entry.owner.holds_for(user) {
                    return self.aliases.resolve(&entry.target)?.at();
                }
                Ok(place)
            }
        }
    }

    /// Where a package has the file of a path.
    pub(crate) fn place(
        &self,
        known: &Known,
        user: &Text,
        path: &RootPath,
    ) -> Result<RootPath, AllocError>
        requires { IsKnown known.now self.now }
        ensures { IfOk result (λ p. p ≡ spec.place (ways_of self.now) user.now path.now) }
    {
        match self.entries.get(path.as_str()) {
            None => self.place_behind(known, user, path),
            Some(entry) => {
                if entry.owner.holds_for(user) {
                    return self.aliases.resolve(&entry.target)?.at();
                }
                self.aliases.resolve_path(path)
            }
        }
    }

    /// The same of a path that a package may ship.
    pub(crate) fn ship_place(
        &self,
        known: &Known,
        user: &Text,
        path: &ShipPath,
    ) -> Result<ShipPath, AllocError>
        requires { IsKnown known.now self.now }
        ensures { IfOk result (λ p. p ≡ spec.place (ways_of self.now) user.now path.now) }
    {
        let at = path.at()?;
        match self.diversion(known, &at)? {
            None => self.aliases.resolve(path),
            Some(entry) => {
                if entry.owner.holds_for(user) {
                    return self.aliases.resolve(&entry.target);
                }
                self.aliases.resolve(path)
            }
        }
    }

    /// Whether that place is this one.
    pub(crate) fn is_at(
        &self,
        known: &Known,
        user: &Text,
        path: &RootPath,
        at: &RootPath,
    ) -> Result<bool, AllocError>
        requires { IsKnown known.now self.now }
        ensures { IfOk result
            (λ b. b ≡ bytes_eq (spec.place (ways_of self.now) user.now path.now) at.now) }
    {
        match self.diversion(known, path)? {
            None => self.aliases.is_at(path.as_str(), at.as_str()),
            Some(entry) => {
                if entry.owner.holds_for(user) {
                    return self.aliases.is_at(entry.target.as_str(), at.as_str());
                }
                self.aliases.is_at(path.as_str(), at.as_str())
            }
        }
    }
}
