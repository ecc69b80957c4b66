// Where a link that a package ships would lead, by the aliases that are known.
ghost use Rattle.std.specs.Prelude.{◌≡◌, false, IfOk, string_bytes};
ghost use Rattle.aliases.specs.Links.{names_of, start_of};
ghost use Rattle.aliases.specs.Shipped.{entered, leads_alike, walked};

use crate::aliases::Aliases;
use crate::names::{directory_of, first_name};
use host_core::RootPath;
use std::alloc::AllocError;

// Where the names of a link's text begin.
fn start_of<'a>(at: &'a str, text: &str) -> &'a str
    ensures { result.now ≡ start_of at.now text.now }
{
    if text.starts_with('/') {
        return "";
    }
    at
}

impl Aliases {
    // Where a name leads from a directory.
    fn enter(&self, at: String, name: &str) -> Result<String, AllocError>
        ensures { IfOk result
            (λ next. string_bytes next ≡ entered self.now (string_bytes at) name.now) }
    {
        if name.is_empty() || name == "." {
            return Ok(at);
        }
        if name == ".." {
            return String::from_str(self.alloc(), directory_of(at.as_str()));
        }
        let mut next = at;
        next.push('/')?;
        next.push_str(name)?;
        self.led_on(next)
    }

    // Where names lead from a directory.
    fn walk(&self, from: &str, names: &str) -> Result<String, AllocError>
        ensures { IfOk result
            (λ end. string_bytes end ≡ walked self.now from.now (names_of names.now)) }
    {
        let mut at = String::from_str(self.alloc(), from)?;
        let mut rest = names;
        while !rest.is_empty() {
            let (name, behind) = first_name(rest);
            at = self.enter(at, name)?;
            rest = behind;
        }
        Ok(at)
    }

    /// Whether a link with this text would lead at a path to where the alias leads that stands there. It is followed by the
    /// aliases alone: nothing is looked at.
    pub fn leads_alike(&self, path: &RootPath, text: &str) -> Result<bool, AllocError>
        ensures { IfOk result (λ b. b ≡ leads_alike self.now path.now text.now) }
    {
        let way = self.way_to(path.as_str())?;
        let end = self.walk(start_of(directory_of(way.as_str()), text), text)?;
        Ok(self.led(way.as_str()) == end.as_str())
    }
}
