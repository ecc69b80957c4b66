// What is above a place.
ghost use Rattle.std.specs.Prelude.{◌≡◌, ◌≢◌, ◌<◌, ℕ, ◌++◌, ◌∷◌, ◌||◌, not, true, MatchOption, length, get_or};
ghost use Rattle.std.specs.BTreeSet.{contains_text};
ghost use Rattle.host_core.specs.Paths.{is_path};
ghost use Rattle.host_core.specs.World.{kind_of};
ghost use Rattle.host_core.specs.Looks.{Looks};
ghost use Rattle.diversions.specs.Sights.{is_directory_kind};
ghost use Rattle.file_check.specs.Above.{IsAbove, answer_of, is_link_kind};

use host_core::{Host, HostFault, Kind, RootPath};
use std::alloc::Global;
use std::collections::BTreeSet;

/// What is above a place: directories alone, or what becomes one; a link; or, without a link, something else.
#[derive(Clone, Copy)]
pub(crate) enum Above {
    Directories,
    Link,
    Lacking,
}

fn cut_last(path: &str) -> Option<(&str, &str)>
    ensures { MatchOption result ((i : ℕ) → i < length path.now → get_or path.now i 0 ≢ 47)
        (λ x. (path.now ≡ x.0.now ++ 47 ∷ x.1.now)
        × ((i : ℕ) → i < length x.1.now → get_or x.1.now i 0 ≢ 47)) }
{
    path.rsplit_once('/')
}

fn kind_at<H: Host>(alloc: Global, host: &mut H, path: &str) -> Result<Option<Kind>, HostFault>
    requires { is_path path.now ≡ true }
    ensures looks { Looks result (λ kind w. kind ≡ kind_of (w path.now)) (H.state host.old)
        (H.state host.new) }
{
    let path = RootPath::from_str(alloc, path)?;
    host.kind(&path)
}

fn answer(lacking: bool) -> Above
    ensures { result ≡ answer_of lacking }
{
    if lacking {
        Above::Lacking
    } else {
        Above::Directories
    }
}

pub(crate) fn is_directory(kind: Option<Kind>) -> bool
    ensures { result ≡ is_directory_kind kind }
{
    match kind {
        None => false,
        Some(Kind::File) => false,
        Some(Kind::Directory) => true,
        Some(Kind::SymbolicLink) => false,
    }
}

fn is_link(kind: Option<Kind>) -> bool
    ensures { result ≡ is_link_kind kind }
{
    match kind {
        None => false,
        Some(Kind::File) => false,
        Some(Kind::Directory) => false,
        Some(Kind::SymbolicLink) => true,
    }
}

fn lacks(lacking: bool, made: &BTreeSet<String>, front: &str) -> bool
    ensures { result ≡ (lacking || not (contains_text made.now front.now)) }
{
    lacking || !made.contains(front)
}

/// Looks at what is above a place, the nearest first, up to the first directory, above which nothing else can be.
pub(crate) fn look_above<H: Host>(
    alloc: Global,
    host: &mut H,
    made: &BTreeSet<String>,
    place: &str,
) -> Result<Above, HostFault>
    requires { is_path place.now ≡ true }
    ensures looks { Looks result (λ above w. IsAbove (contains_text made.now) w place.now above)
        (H.state host.old) (H.state host.new) }
{
    let mut rest = place;
    let mut lacking = false;
    while let Some((front, _)) = cut_last(rest) {
        let kind = kind_at(alloc, host, front)?;
        if is_directory(kind) {
            return Ok(answer(lacking));
        }
        if is_link(kind) {
            return Ok(Above::Link);
        }
        lacking = lacks(lacking, made, front);
        rest = front;
    }
    Ok(answer(lacking))
}
