// The names of the packages so far.
ghost use Rattle.std.specs.Prelude.{◌≡◌, ◌++◌, ◌∷◌, [], ℕ, List, true, OnOk};
ghost use Rattle.std.specs.HashSet.{contains_text};
ghost use Rattle.std.specs.List.{list_any};
ghost use Rattle.std.specs.Str.{bytes_eq};

use std::alloc::{AllocError, Global};
use std::collections::HashSet;
use std::marker::Model;
use texts::{Text, Texts};

/// Names in their order, and a set that finds them. The set is whole but where memory was wanting.
#[derive(Drop)]
pub struct Names {
    alloc: Global,
    names: Texts,
    set: HashSet<String>,
    whole: bool,
}

impl Model for Names {
    ghost Value = { List (List ℕ) };

    ghost view = { λ n. n.names };

    ghost invariant = { λ n. n.whole ≡ true → (q : List ℕ) → contains_text n.set q ≡ list_any (bytes_eq q) n.names };
}

fn stands_in(names: &Texts, name: &str) -> bool
    ensures { result ≡ list_any (bytes_eq name.now) names.now }
{
    names.as_slice().iter().any(|other| name == other.as_str())
}

impl Names {
    pub fn new(alloc: Global) -> Names
        ensures { result ≡ [] }
    {
        Names {
            alloc,
            names: Texts::new(alloc),
            set: HashSet::new(alloc),
            whole: true,
        }
    }

    pub fn has(&self, name: &str) -> bool
        ensures { result ≡ list_any (bytes_eq name.now) self.now }
    {
        if self.whole {
            return self.set.contains(name);
        }
        stands_in(&self.names, name)
    }

    pub fn push(&mut self, name: Text) -> Result<(), AllocError>
        ensures { OnOk result (self.new ≡ self.old ++ name ∷ []) }
    {
        let key = String::from_str(self.alloc, name.as_str())?;
        let whole = self.whole;
        self.whole = false;
        self.names.push(name)?;
        self.set.insert(key)?;
        self.whole = whole;
        Ok(())
    }
}
