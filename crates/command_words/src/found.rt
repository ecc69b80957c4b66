// The texts that clap found for arguments.
ghost use Rattle.std.specs.Prelude.{◌≡◌, IfOk, map, option_map};
ghost use Rattle.clap.specs.Words.{all_of, first_of, found_of, rows_of};
ghost use Rattle.command_words.specs.Given.{all_given, is_absolute, is_package, is_set};

use clap::ArgMatches;
use std::alloc::{AllocError, Global};
use texts::{Text, Texts, package_name};

pub(crate) fn text_of<'a>(found: &ArgMatches<'a>, id: &str) -> Option<&'a str>
    ensures { option_map (λ s. s.now) result ≡ first_of id.now (rows_of (found_of found.now)) }
{
    found.get_str(id)
}

pub(crate) fn all_texts_of<'a>(found: &'a ArgMatches<'_>, id: &str) -> Option<&'a [&'a str]>
    ensures { option_map (λ s. map (λ t. t.now) s.now) result ≡ all_of id.now
        (rows_of (found_of found.now)) }
{
    found.get_strs(id)
}

pub(crate) fn is_absolute(path: &str) -> bool
    ensures { result ≡ is_absolute path.now }
{
    match path.as_bytes().first() {
        Some(first) => *first == b'/',
        None => false,
    }
}

/// Whether what is given for a package, if anything is, has the form of a package's name.
pub(crate) fn is_package(name: Option<&str>) -> bool
    ensures { result ≡ is_package (option_map (λ s. s.now) name.entry) }
{
    match name {
        Some(name) => package_name(name.as_bytes()).is_some(),
        None => true,
    }
}

pub(crate) fn copy_of(alloc: Global, text: Option<&str>) -> Result<Option<Text>, AllocError>
    ensures { IfOk result (λ copy. copy ≡ option_map (λ s. s.now) text.entry) }
{
    match text {
        Some(text) => Ok(Some(Text::from_str(alloc, text)?)),
        None => Ok(None),
    }
}

pub(crate) fn given(
    alloc: Global,
    found: &ArgMatches<'_>,
    id: &str,
) -> Result<Option<Text>, AllocError>
    ensures { IfOk result (λ text. text ≡ first_of id.now (rows_of (found_of found.now))) }
{
    copy_of(alloc, text_of(found, id))
}

/// Whether a flag is given.
pub(crate) fn flag_of(found: &ArgMatches<'_>, id: &str) -> bool
    ensures { result ≡ is_set (first_of id.now (rows_of (found_of found.now))) }
{
    match text_of(found, id) {
        Some(text) => text == "true",
        None => false,
    }
}

pub(crate) fn copies(alloc: Global, texts: &[&str]) -> Result<Texts, AllocError>
    ensures { IfOk result (λ copies. copies ≡ map (λ t. t.now) texts.now) }
{
    let mut all = Texts::new(alloc);
    for text in texts {
        all.push(Text::from_str(alloc, text)?)?;
    }
    Ok(all)
}

/// The texts that are given at a place, which may be none.
pub(crate) fn all_given(
    alloc: Global,
    found: &ArgMatches<'_>,
    id: &str,
) -> Result<Texts, AllocError>
    ensures { IfOk result (λ given. given ≡ all_given (all_of id.now
        (rows_of (found_of found.now)))) }
{
    match all_texts_of(found, id) {
        Some(texts) => copies(alloc, texts),
        None => Ok(Texts::new(alloc)),
    }
}
