// The paths of notes.
ghost use Rattle.std.specs.Prelude.{◌≡◌, ◌<◌, ◌+◌, ◌∷◌, [], IfOk};
ghost use Rattle.administration.specs.Places.{temporary};
ghost use Rattle.status_db.specs.Notes as place;

use host_core::RootPath;
use std::alloc::{AllocError, Global};

fn digit(value: u16) -> &'static str
    requires { value < 10 }
    ensures { result.now ≡ (48 + value) ∷ [] }
{
    match value {
        0 => "0",
        1 => "1",
        2 => "2",
        3 => "3",
        4 => "4",
        5 => "5",
        6 => "6",
        7 => "7",
        8 => "8",
        _ => "9",
    }
}

/// The path of the note with this number.
pub(crate) fn note_path(alloc: Global, number: u16) -> Result<RootPath, AllocError>
    requires { number < 10000 }
    ensures { IfOk result (λ p. p ≡ place.note_path number) }
{
    let mut text = String::from_str(alloc, "/var/lib/dpkg/updates/")?;
    text.push_str(digit(number / 1000))?;
    text.push_str(digit(number / 100 % 10))?;
    text.push_str(digit(number / 10 % 10))?;
    text.push_str(digit(number % 10))?;
    Ok(RootPath::new(text))
}

/// Where the note of this number is written before it is renamed to its path.
pub(crate) fn note_spare(alloc: Global, number: u16) -> Result<RootPath, AllocError>
    requires { number < 10000 }
    ensures { IfOk result (λ p. p ≡ temporary (place.note_path number)) }
{
    let path = note_path(alloc, number)?;
    path.with_suffix(".dpkg-inst")
}
