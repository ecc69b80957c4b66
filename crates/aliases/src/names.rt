// Paths cut at their slashes.
ghost use Rattle.std.specs.Prelude.{◌≡◌, ◌++◌, ◌∷◌, ◌<◌, ◌&&◌, [], false, true, length, IfOk, MatchOption};
ghost use Rattle.host_core.specs.Tree.{has_slash};
ghost use Rattle.aliases.specs.Links.{above, names_of, with_name};
ghost use Rattle.aliases.specs.Table.{is_place};

use host_core::RootPath;
use std::alloc::{AllocError, Global};

/// What stands before the first slash, and what behind it.
pub(crate) fn cut_at_slash(text: &str) -> Option<(&str, &str)>
    ensures { MatchOption result (has_slash text.now ≡ false)
        (λ x. (text.now ≡ x.0.now ++ 47 ∷ x.1.now) × (has_slash x.0.now ≡ false)) }
{
    text.split_once('/')
}

/// The first name, and those behind it.
pub(crate) fn first_name(names: &str) -> (&str, &str)
    requires { 0 < length names.now }
    ensures cut { names_of names.now ≡ with_name result.0.now (names_of result.1.now) }
    ensures less { length result.1.now < length names.now }
{
    match cut_at_slash(names) {
        Some(cut) => cut,
        None => (names, ""),
    }
}

/// The directory above a path, as the path is written; none where it is directly below the root.
pub fn directory_of(path: &str) -> &str
    ensures { result.now ≡ above path.now }
{
    match path.rsplit_once('/') {
        Some((front, _)) => front,
        None => "",
    }
}

/// The directory above a directory.
pub(crate) fn directory_above(alloc: Global, path: &RootPath) -> Result<RootPath, AllocError>
    ensures { IfOk result (λ p. p ≡ above path.now) }
{
    path.law();
    RootPath::from_str(alloc, directory_of(path.as_str()))
}

/// The path below the root that a text names, if it names one.
pub(crate) fn place_of(alloc: Global, text: &str) -> Result<Option<RootPath>, AllocError>
    ensures { IfOk result (λ o. MatchOption o (is_place text.now ≡ false)
        (λ p. (is_place text.now ≡ true) × (p ≡ text.now))) }
{
    if text == "/" {
        return Ok(None);
    }
    RootPath::parse(alloc, text)
}
