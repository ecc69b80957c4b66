// Names beside the places of a package that can be cleared.
ghost use Rattle.std.specs.Prelude.{◌≡◌, ◌||◌, ◌++◌, codes, string_bytes, IfOk, MatchOption, true, false};
ghost use Rattle.std.specs.Str.{bytes_eq};
ghost use Rattle.administration.specs.Places.{home_path, is_within};
ghost use Rattle.list_changes.specs.Clearable.{is_clearable};

use host_core::RootPath;
use std::alloc::{AllocError, Global};

// The root, and what is the administration's.
fn is_spared(at: &str) -> bool
    ensures { result ≡ (bytes_eq at.now (codes "/") || is_within home_path at.now) }
{
    at == "/" || at == "/var/lib/dpkg" || at.as_bytes().starts_with(b"/var/lib/dpkg/")
}

/// Two texts, one behind the other.
pub fn joined(alloc: Global, front: &str, ending: &str) -> Result<String, AllocError>
    ensures { IfOk result (λ s. string_bytes s ≡ front.now ++ ending.now) }
{
    let mut text = String::from_str(alloc, front)?;
    text.push_str(ending)?;
    Ok(text)
}

/// A name with an ending, where that is a path that can be cleared.
pub fn clearable_name(alloc: Global, at: &str, ending: &str) -> Result<Option<RootPath>, AllocError>
    ensures { IfOk result (λ o. MatchOption o
        (is_clearable (at.now ++ ending.now) ≡ false)
        (λ p. (is_clearable (at.now ++ ending.now) ≡ true) × (p ≡ at.now ++ ending.now))) }
{
    let text = joined(alloc, at, ending)?;
    let name = text.as_str();
    if is_spared(name) {
        return Ok(None);
    }
    RootPath::parse(alloc, name)
}
