// The table of aliases, and the places of paths by it.
ghost use Rattle.std.specs.Prelude.{◌≡◌, ◌⊎◌, ◌++◌, ◌∷◌, [], length, false, true, IsTrue, IfOk, OnOk, OnErr, MatchBool, MatchOption, ◌↔◌, string_bytes};
ghost use Rattle.std.specs.Str.{bytes_eq};
ghost use Rattle.host_core.specs.Paths.{is_path, is_ship_text};
ghost use Rattle.aliases.specs.Aliases.{IsFree, IsOn, is_alias, is_target, led, way_to, followed, resolved};
ghost use Rattle.aliases.specs.Table.{is_place, IsTable};

use crate::names::cut_at_slash;
use host_core::{RootPath, ShipPath};
use indexmap::IndexMap;
use std::alloc::{AllocError, Global};
use std::marker::Model;

// Whether a path is a place, or goes on below it.
fn is_on(place: &str, path: &str) -> bool
    ensures { MatchBool result (IsOn place.now path.now) (IsOn place.now path.now → ⊥) }
{
    match path.strip_prefix(place) {
        Some(rest) => rest.is_empty() || rest.starts_with('/'),
        None => false,
    }
}

/// Aliases by the places where they stand.
#[derive(Drop)]
pub struct Aliases {
    alloc: Global,
    targets: IndexMap<String, RootPath>,
}

impl Model for Aliases {
    ghost use Rattle.std.specs.Prelude.{List, string_bytes};
    ghost use Rattle.aliases.specs.Aliases.{Alias};
    ghost use Rattle.aliases.specs.Entries.{aliases_of};
    ghost use Rattle.aliases.specs.Table.{IsTable};

    ghost Value = { List Alias };

    ghost view = { λ t. aliases_of string_bytes t.targets.entries };

    ghost invariant = { λ t. IsTable (aliases_of string_bytes t.targets.entries) };
}

impl Aliases {
    pub fn none(alloc: Global) -> Self
        ensures { result ≡ [] }
    {
        Aliases {
            alloc,
            targets: IndexMap::new(alloc),
        }
    }

    pub fn is_empty(&self) -> bool
        ensures { IsTrue result ↔ (self.now ≡ []) }
    {
        self.targets.is_empty()
    }

    pub fn len(&self) -> usize
        ensures { result ≡ length self.now }
    {
        self.targets.len()
    }

    /// What holds of each table.
    pub fn law(&self)
        ensures { IsTable self.now }
    {
        let _ = &self.targets;
    }

    /// Whether an alias stands at a path.
    pub fn has(&self, path: &str) -> bool
        ensures { result ≡ is_alias self.now path.now }
    {
        self.targets.contains_key(path)
    }

    /// Where an alias leads; any other path is itself.
    pub fn led<'a>(&'a self, path: &'a str) -> &'a str
        ensures { result.now ≡ led self.now path.now }
    {
        match self.targets.get(path) {
            Some(target) => target.as_str(),
            None => path,
        }
    }

    /// The directory that a way leads to. Where no alias stands there the text is kept.
    pub(crate) fn led_on(&self, way: String) -> Result<String, AllocError>
        ensures { IfOk result (λ next. string_bytes next ≡ led self.now (string_bytes way)) }
    {
        match self.targets.get(way.as_str()) {
            Some(target) => String::from_str(self.alloc, target.as_str()),
            None => Ok(way),
        }
    }

    /// The same, with the slash behind it.
    pub(crate) fn onward(&self, way: String) -> Result<String, AllocError>
        ensures { IfOk result
            (λ next. string_bytes next ≡ led self.now (string_bytes way) ++ 47 ∷ []) }
    {
        let mut next = self.led_on(way)?;
        next.push('/')?;
        Ok(next)
    }

    /// A path with the aliases above it followed.
    pub(crate) fn way_to(&self, path: &str) -> Result<String, AllocError>
        ensures { IfOk result (λ way. string_bytes way ≡ way_to self.now path.now) }
    {
        let mut way = String::new(self.alloc);
        let mut rest = path;
        while let Some((name, behind)) = cut_at_slash(rest) {
            way.push_str(name)?;
            way = self.onward(way)?;
            rest = behind;
        }
        way.push_str(rest)?;
        Ok(way)
    }

    /// Whether no alias stands at a path or above it.
    pub fn is_free(&self, path: &str) -> bool
        ensures { MatchBool result (IsFree self.now path.now) (IsFree self.now path.now → ⊥) }
    {
        let mut entries = self.targets.iter();
        while let Some((place, _)) = entries.next() {
            if is_on(place.as_str(), path) {
                return false;
            }
        }
        true
    }

    /// Whether an alias stands at a path, those above it followed.
    pub fn stands_at(&self, path: &RootPath) -> Result<bool, AllocError>
        ensures { IfOk result (λ b. b ≡ is_alias self.now (way_to self.now path.now)) }
    {
        let way = self.way_to(path.as_str())?;
        Ok(self.has(way.as_str()))
    }

    /// Whether an alias leads to a path.
    pub fn is_target(&self, path: &str) -> bool
        ensures { result ≡ is_target self.now path.now }
    {
        let mut entries = self.targets.iter();
        while let Some((_, target)) = entries.next() {
            if path == target.as_str() {
                return true;
            }
        }
        false
    }

    // The place of a path, where it is another than the path.
    fn place_behind(&self, path: &str) -> Result<Option<ShipPath>, AllocError>
        ensures { IfOk result (λ o. MatchOption o (is_ship_text (followed self.now path.now) ≡ false)
            (λ p. (is_ship_text (followed self.now path.now) ≡ true)
            × (p ≡ followed self.now path.now))) }
    {
        let way = self.way_to(path)?;
        ShipPath::parse(self.alloc, self.led(way.as_str()))
    }

    /// The place of a path that a package may ship.
    pub fn resolve(&self, path: &ShipPath) -> Result<ShipPath, AllocError>
        ensures { IfOk result (λ p. p ≡ resolved self.now path.now) }
    {
        if self.is_free(path.as_str()) {
            return path.copy();
        }
        match self.place_behind(path.as_str())? {
            Some(place) => Ok(place),
            None => path.copy(),
        }
    }

    /// The place of any path.
    pub fn resolve_path(&self, path: &RootPath) -> Result<RootPath, AllocError>
        ensures { IfOk result (λ p. p ≡ resolved self.now path.now) }
    {
        if self.is_free(path.as_str()) {
            return path.copy();
        }
        if let Some(place) = self.place_behind(path.as_str())? {
            return place.at();
        }
        path.copy()
    }

    /// Whether a path has this place. Nothing is allocated for a path on which no alias stands.
    pub fn is_at(&self, path: &str, place: &str) -> Result<bool, AllocError>
        ensures { IfOk result (λ b. b ≡ bytes_eq (resolved self.now path.now) place.now) }
    {
        if self.is_free(path) {
            return Ok(path == place);
        }
        match self.place_behind(path)? {
            Some(found) => Ok(found.as_str() == place),
            None => Ok(path == place),
        }
    }

    pub fn same(&self, other: &Aliases) -> bool
        ensures { IsTrue result ↔ (self.now ≡ other.now) }
    {
        let mut ones = self.targets.iter();
        let mut others = other.targets.iter();
        while let Some((place, target)) = ones.next() {
            let Some((there, aimed)) = others.next() else {
                return false;
            };
            if place.as_str() != there.as_str() || !target.is(aimed) {
                return false;
            }
        }
        others.next().is_none()
    }

    pub fn copy(&self) -> Result<Aliases, AllocError>
        ensures { IfOk result (λ c. c ≡ self.now) }
    {
        let mut copied = Aliases::none(self.alloc);
        let mut entries = self.targets.iter();
        while let Some((place, target)) = entries.next() {
            let text = String::from_str(self.alloc, place.as_str())?;
            copied.insert(text, target.copy()?)?;
        }
        Ok(copied)
    }

    // Adds an alias under the text of its place.
    fn insert(&mut self, place: String, target: RootPath) -> Result<(), AllocError>
        requires place { is_place (string_bytes place) ≡ true }
        requires target { is_path target ≡ true }
        requires new { is_alias self.old (string_bytes place) ≡ false }
        ensures ok { OnOk result (self.new
            ≡ self.old ++ record { place = string_bytes place; target = target } ∷ []) }
        ensures err { OnErr result (self.new ≡ self.old) }
    {
        self.targets.insert(place, target)?;
        Ok(())
    }

    /// Adds an alias.
    pub(crate) fn push(&mut self, place: &RootPath, target: RootPath) -> Result<(), AllocError>
        requires place { is_place place.now ≡ true }
        requires target { is_path target ≡ true }
        requires new { is_alias self.old place.now ≡ false }
        ensures ok { OnOk result
            (self.new ≡ self.old ++ record { place = place.now; target = target } ∷ []) }
        ensures err { OnErr result (self.new ≡ self.old) }
    {
        let text = String::from_str(self.alloc, place.as_str())?;
        self.insert(text, target)
    }

    pub(crate) fn alloc(&self) -> Global {
        self.alloc
    }
}
