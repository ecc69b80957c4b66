//! The format of `info/`. Since dpkg knows several architectures it keeps the control files of a
//! package with `Multi-Arch: same` as `info/NAME:ARCH.X`, where `info/format` says 1. They are
//! brought back to `info/NAME.X`, which dpkg reads too.
//!
//! # What is proved
//!
//! `convert` brings `info/` to format 0 (`converted`): each name with an architecture gets the
//! second name without it, or a copy gets it where none can be had, then `format` goes, then the first names go. At each moment each control
//! file that dpkg read it reads still, nothing else changes but at temporary names, and what was
//! convertible is so (`any_moment`, specs/Converting): so a stop leaves what the next opening finishes
//! (`a_stopped_conversion_goes_on`). It is refused before any step where another file stands at a
//! name without the architecture, or where names have one in a format that isn't known (`fault`).
//! In format 0 names with an architecture go that stand beside the same bytes or target without one:
//! dpkg doesn't read them now, and would when it goes to format 1. Beside anything else they are
//! refused too. The barriers stand as `requires` of the steps behind
//! them: `format` goes when all else is on the disk, and names go when that is.
//!
//! Names of packages that aren't recorded with that architecture are left alone. `bring_names` is
//! the stage of an opening: where no name has a colon and `format` isn't there it only looks.
//!
//! `see_names` does the same in memory, for a question: the host is only looked at, and what is seen
//! through the names that it gives is what an opening would make of it (`through`, specs/Seeing).
#![tactic(auto)]

mod bringing;
mod converting;
mod copying;
mod format;
mod laws;
mod naming;
mod pairs;
mod seeing;
mod shown;
mod stage;

pub use bringing::convert;
pub use laws::a_stopped_conversion_goes_on;
pub use shown::see_names;
pub use stage::bring_names;
