// What filters hide.
ghost use Rattle.std.specs.Prelude.{◌≡◌, IfOk, if◌then◌else◌, not};
ghost use Rattle.std.specs.List.{list_any};
ghost use Rattle.name_patterns.specs.Patterns as patterns;
ghost use Rattle.path_filters.specs.Filters.{before_sign, is_excluded, is_hidden, is_leading, is_sign, is_slash, leads_on, trimmed};

use crate::filters::Filter;
use name_patterns::matches;
use std::alloc::{AllocError, Global};

// Whether a path is excluded behind a filter, by whether it is before it.
fn behind_filter(
    alloc: Global,
    excluded: bool,
    filter: &Filter,
    path: &[u8],
) -> Result<bool, AllocError>
    ensures { IfOk result (λ is. is ≡ (if patterns.matches filter.now.pattern path.now
        then not filter.now.includes else excluded)) }
{
    if matches(alloc, filter.pattern.as_str().as_bytes(), path)? {
        return Ok(!filter.includes);
    }
    Ok(excluded)
}

fn is_excluded(alloc: Global, filters: &[Filter], path: &[u8]) -> Result<bool, AllocError>
    ensures { IfOk result (λ is. is ≡ is_excluded filters.now path.now) }
{
    let mut excluded = false;
    for filter in filters {
        excluded = behind_filter(alloc, excluded, filter, path)?;
    }
    Ok(excluded)
}

// Whether a byte is one of `*?[\`.
fn is_sign(byte: u8) -> bool
    ensures { result ≡ is_sign byte }
{
    byte == b'*' || byte == b'?' || byte == b'[' || byte == b'\\'
}

fn before_sign(pattern: &[u8]) -> &[u8]
    ensures { result.now ≡ before_sign pattern.now }
{
    for (place, byte) in pattern.iter().enumerate() {
        if is_sign(*byte) {
            return &pattern[..place];
        }
    }
    pattern
}

fn is_slash(byte: u8) -> bool
    ensures { result ≡ is_slash byte }
{
    byte == b'/'
}

// Without the slashes at the end.
fn trimmed(text: &[u8]) -> &[u8]
    ensures { result.now ≡ trimmed text.now }
{
    let mut rest = text;
    while let [front @ .., last] = rest {
        if !is_slash(*last) {
            return rest;
        }
        rest = front;
    }
    rest
}

// Whether a path begins with what an include has before its first sign.
fn is_leading(filter: &Filter, path: &[u8]) -> bool
    ensures { result ≡ is_leading path.now filter.now }
{
    filter.includes && path.starts_with(trimmed(before_sign(filter.pattern.as_str().as_bytes())))
}

fn leads_on(filters: &[Filter], path: &[u8]) -> bool
    ensures { result ≡ leads_on filters.now path.now }
{
    for filter in filters {
        if is_leading(filter, path) {
            return true;
        }
    }
    false
}

/// Whether filters hide a path; `passes` tells whether a directory or a link stands there.
pub fn hides(
    alloc: Global,
    filters: &[Filter],
    path: &[u8],
    passes: bool,
) -> Result<bool, AllocError>
    ensures { IfOk result (λ is. is ≡ is_hidden filters.now path.now passes) }
{
    if !is_excluded(alloc, filters, path)? {
        return Ok(false);
    }
    Ok(!(passes && leads_on(filters, path)))
}

/// Whether one of them excludes something.
pub fn excludes_any(filters: &[Filter]) -> bool
    ensures { result ≡ list_any (λ f. not f.includes) filters.now }
{
    for filter in filters {
        if !filter.includes {
            return true;
        }
    }
    false
}
