// What is told of the diversions, and of where a path is.
ghost use Rattle.std.specs.Prelude.{◌≡◌, IfOk, option_copied, string_bytes};
ghost use Rattle.queries.specs.Places.{diversion_line, diversions_text, owner_text, place_for, truename_text};

use crate::paths::path_line;
use diversions::{Diversion, Diversions, Owner};
use host_core::RootPath;
use shown_lines::line;
use std::alloc::{AllocError, Global};
use texts::{Bytes, Text};

// Where a path is.
fn place_for(
    diversions: &Diversions,
    user: Option<&Text>,
    path: &RootPath,
) -> Result<RootPath, AllocError>
    ensures { IfOk result (λ p. p ≡ place_for diversions.now.ways (option_copied user.entry)
        path.now) }
{
    match user {
        Some(user) => diversions.place(user, path),
        None => diversions.truename(path),
    }
}

/// Where the file of a path is: that of a package, or without one that of all packages but the
/// owner of its diversion.
pub fn truename_text(
    alloc: Global,
    diversions: &Diversions,
    user: Option<&Text>,
    path: &RootPath,
) -> Result<Bytes, AllocError>
    ensures { IfOk result (λ text. text ≡ truename_text diversions.now.ways
        (option_copied user.entry) path.now) }
{
    let place = place_for(diversions, user, path)?;
    let printed = path_line(alloc, &place)?;
    Ok(Bytes::new(printed.into_bytes()))
}

fn owner_text(owner: &Owner) -> &str
    ensures { result.now ≡ owner_text owner.now }
{
    match owner {
        Owner::Local => "local",
        Owner::Package(name) => name.as_str(),
    }
}

fn diversion_line(alloc: Global, entry: &Diversion) -> Result<String, AllocError>
    ensures { IfOk result (λ printed. string_bytes printed ≡ diversion_line entry.now) }
{
    let owner = owner_text(&entry.owner);
    let path = entry.path.as_str();
    let target = entry.target.as_str();
    let content = format!(in alloc; "{owner} {path} {target}")?;
    line(alloc, content.as_str())
}

/// The diversions in the order of adding, a line each.
pub fn diversions_text(alloc: Global, diversions: &Diversions) -> Result<Bytes, AllocError>
    ensures { IfOk result (λ text. text ≡ diversions_text diversions.now.ways.entries) }
{
    let mut lines = String::new(alloc);
    for entry in diversions.entries() {
        let line = diversion_line(alloc, entry)?;
        lines.push_str(line.as_str())?;
    }
    Ok(Bytes::new(lines.into_bytes()))
}
