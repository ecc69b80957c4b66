// What was changed over a host below.
ghost use Rattle.std.specs.Prelude.{◌≡◌, ◌++◌, ◌∷◌, [], ℕ, List, Some, None, false, filter, is_some, not, IfOk, OnOk, OnErr, IfSome, IfNone, IsSome};
ghost use Rattle.std.specs.Option.{option_copied};
ghost use Rattle.std.specs.Str.{IsUtf8};
ghost use Rattle.std.specs.BTreeMap.{get_by_text};
ghost use Rattle.host_core.specs.Tree.{has_slash, IsBelow, IsListing};
ghost use Rattle.host_core.specs.World.{World};
ghost use Rattle.host_overlay.specs.Standings.{changed, gone, held_at, is_unchanged_in, overlaid, AreNamesIn, ArePaths, AreThere, AreTold};

use crate::changed_path::ChangedPath;
use crate::standing::{Origin, Standing};
use host_core::{Listing, RootPath};
use std::alloc::{AllocError, Global};
use std::collections::BTreeMap;
use texts::{Text, Texts};

// What stands of a path below another.
fn rest_below<'a>(top: &str, path: &'a str) -> Option<&'a str>
    ensures some { IfSome result (λ rest. path.now ≡ top.now ++ 47 ∷ rest.now) }
    ensures none { IfNone result (IsBelow top.now path.now → ⊥) }
{
    let Some(rest) = path.strip_prefix(top) else {
        return None;
    };
    let Some(name) = rest.strip_prefix('/') else {
        return None;
    };
    Some(name)
}

// The name that a key has in a directory.
fn name_in<'a>(top: &str, path: &'a str) -> Option<&'a str>
    ensures some { IfSome result (λ name. (path.now ≡ top.now ++ 47 ∷ name.now)
        × (has_slash name.now ≡ false) × IsUtf8 name.now) }
    ensures none { IfNone result ((name : List ℕ) → has_slash name ≡ false
        → path.now ≡ top.now ++ 47 ∷ name → ⊥) }
{
    let Some(name) = rest_below(top, path) else {
        return None;
    };
    if name.as_bytes().contains(&b'/') {
        return None;
    }
    Some(name)
}

// What stands at each path that was changed.
#[derive(Drop)]
pub(crate) struct Changes {
    alloc: Global,
    pub(crate) map: BTreeMap<String, Standing>,
    ghost paths: { ArePaths (get_by_text map) },
}

// Adds names to others.
fn append(names: &mut Texts, more: &Texts) -> Result<(), AllocError>
    ensures { OnOk result (names.new ≡ names.old ++ more.now) }
{
    for name in more.as_slice() {
        names.push(name.copy()?)?;
    }
    Ok(())
}

impl Changes {
    pub(crate) fn new(alloc: Global) -> Changes
        ensures { get_by_text result.map ≡ λ _. None }
    {
        Changes {
            alloc,
            map: BTreeMap::new(alloc),
        }
    }

    pub(crate) fn get(&self, path: &RootPath) -> Option<&Standing>
        ensures { option_copied result ≡ get_by_text self.now.map path.now }
    {
        self.map.get(path.as_str())
    }

    // What stands at a path, as a change of it says it.
    pub(crate) fn held(&self, path: &RootPath) -> Result<Standing, AllocError>
        ensures { IfOk result (λ standing. standing ≡ held_at (get_by_text self.now.map) path.now) }
    {
        match self.get(path) {
            Some(standing) => standing.copy(),
            None => Ok(Standing::new(Origin::Below(path.copy()?))),
        }
    }

    pub(crate) fn set(&mut self, path: &RootPath, standing: Standing) -> Result<(), AllocError>
        ensures ok { OnOk result (get_by_text self.new.map ≡ changed (get_by_text self.old.map)
            path.now standing) }
        ensures err { OnErr result (get_by_text self.new.map ≡ get_by_text self.old.map) }
    {
        path.law();
        let key = String::from_str(self.alloc, path.as_str())?;
        self.map.insert(key, standing)?;
        Ok(())
    }

    // Nothing stands any more at a path that was changed before, which takes no memory.
    pub(crate) fn put_out(&mut self, path: &RootPath)
        requires { IsSome (get_by_text self.old.map path.now) }
        ensures { get_by_text self.new.map ≡ changed (get_by_text self.old.map) path.now gone }
    {
        if let Some(standing) = self.map.get_mut(path.as_str()) {
            *standing = Standing::new(Origin::Nothing);
        }
    }

    // Whether a name in a directory was changed.
    fn is_changed(&self, path: &RootPath, name: &Text) -> Result<bool, AllocError>
        ensures { IfOk result (λ is. is ≡ is_some (get_by_text self.now.map
            (path.now ++ 47 ∷ name.now))) }
    {
        match path.child(name)? {
            Some(child) => Ok(self.get(&child).is_some()),
            None => Ok(false),
        }
    }

    // Of the names in a directory below those that weren't changed.
    fn unchanged_names(&self, path: &RootPath, below: &Texts) -> Result<Texts, AllocError>
        ensures { IfOk result (λ names. names ≡ filter
            (is_unchanged_in (get_by_text self.now.map) path.now) below.now) }
    {
        let mut names = Texts::new(self.alloc);
        for name in below.as_slice() {
            if !self.is_changed(path, name)? {
                names.push(name.copy()?)?;
            }
        }
        Ok(names)
    }

    // The names in a directory of what was changed and stands there.
    fn names_in(&self, path: &RootPath) -> Result<Texts, AllocError>
        ensures { IfOk result (λ names. AreNamesIn (get_by_text self.now.map) path.now names) }
    {
        let mut names = Texts::new(self.alloc);
        for (key, standing) in &self.map {
            if let Some(name) = name_in(path.as_str(), key.as_str()) {
                if standing.origin.is_something() {
                    names.push(Text::from_str(self.alloc, name)?)?;
                }
            }
        }
        Ok(names)
    }

    // The paths that were changed, in the order of their bytes.
    pub(crate) fn told(&self) -> Result<Vec<ChangedPath>, AllocError>
        ensures { IfOk result (λ told. AreTold (get_by_text self.now.map) told.items) }
    {
        let mut told = Vec::new(self.alloc);
        for (key, standing) in &self.map {
            told.push(ChangedPath {
                path: RootPath::from_str(self.alloc, key.as_str())?,
                stands: standing.origin.is_something(),
            })?;
        }
        Ok(told)
    }

    // What stands in a directory, from what the host below told of it.
    pub(crate) fn listing(&self, path: &RootPath, below: &Listing) -> Result<Listing, AllocError>
        ensures { IfOk result (λ listing. (w : World) → AreThere (get_by_text self.now.map) w
            → IsListing w path.now below.now.names below.now.bad
            → IsListing (overlaid (get_by_text self.now.map) w) path.now listing.names
            listing.bad) }
    {
        let mut names = self.unchanged_names(path, &below.names)?;
        let changed = self.names_in(path)?;
        append(&mut names, &changed)?;
        Ok(Listing {
            names,
            bad: below.bad,
        })
    }
}
