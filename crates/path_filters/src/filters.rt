// Filters in the order in which they are given.
ghost use Rattle.std.specs.Prelude.{◌≡◌, ◌++◌, ◌∷◌, [], OnErr, OnOk};

use std::alloc::{AllocError, Global};
use std::marker::Model;
use texts::Text;

/// One filter: what it matches is included, or else excluded.
#[derive(Drop)]
pub struct Filter {
    pub includes: bool,
    pub pattern: Text,
}

/// The filters of a command.
#[derive(Drop)]
pub struct Filters {
    items: Vec<Filter>,
}

impl Model for Filters {
    ghost use Rattle.std.specs.Prelude.{List};
    ghost use Rattle.path_filters.specs.declared.filters.Filter.{Filter};

    ghost Value = { List Filter };

    ghost view = { λ f. f.items.items };
}

impl Filters {
    pub fn new(alloc: Global) -> Self
        ensures { result ≡ [] }
    {
        Filters {
            items: Vec::new(alloc),
        }
    }

    pub fn push(&mut self, filter: Filter) -> Result<(), AllocError>
        ensures ok { OnOk result (self.new ≡ self.old ++ filter ∷ []) }
        ensures err { OnErr result (self.new ≡ self.old) }
    {
        self.items.push(filter)?;
        Ok(())
    }

    pub fn as_slice(&self) -> &[Filter]
        ensures { result.now ≡ self.now }
    {
        self.items.as_slice()
    }
}
