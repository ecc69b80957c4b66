// Which triggers paths hit.
ghost use Rattle.std.specs.Prelude.{◌≡◌, IfOk};
ghost use Rattle.std.specs.List.{list_any};
ghost use Rattle.administration.specs.Places.{is_within};
ghost use Rattle.trigger_interests.specs.Hits.{hits_of, is_hit, is_hit_among};

use crate::interests::Interest;
use host_core::RootPath;
use std::alloc::{AllocError, Global};

// Whether a path is that of a directory, or lies below it.
fn is_within(directory: &[u8], path: &[u8]) -> bool
    ensures { result ≡ is_within directory.now path.now }
{
    match path.strip_prefix(directory) {
        Some(rest) => rest.is_empty() || rest.starts_with(b"/"),
        None => false,
    }
}

fn is_hit(name: &[u8], path: &RootPath) -> bool
    ensures { result ≡ is_hit name.now path.now }
{
    name.starts_with(b"/") && is_within(name, path.as_str().as_bytes())
}

fn is_hit_by_any(name: &[u8], paths: &[RootPath]) -> bool
    ensures { result ≡ list_any (is_hit name.now) paths.now }
{
    paths.iter().any(|path| is_hit(name, path))
}

// The same by those paths alone that are no directories': what a directory's path hits is also hit by
// what lies below it.
fn is_hit_among(name: &[u8], paths: &[RootPath]) -> bool
    ensures { result ≡ is_hit_among paths.now name.now }
{
    is_hit_by_any(name, paths)
}

/// Marks the interests that are hit by one of the paths.
pub fn hits_of(
    alloc: Global,
    interests: &[Interest],
    paths: &[RootPath],
) -> Result<Vec<bool>, AllocError>
    ensures { IfOk result (λ marks. marks.items ≡ hits_of interests.now paths.now) }
{
    let mut marks = Vec::new(alloc);
    for interest in interests {
        marks.push(is_hit_among(interest.name.as_str().as_bytes(), paths))?;
    }
    Ok(marks)
}
