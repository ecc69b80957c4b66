//! The rows that an unpack has for other packages, each with what undoes it: those of the packages
//! that it deconfigures or removes (Policy 6.6, 7.3, 7.4).
//!
//! # What is proved
//!
//! `rows_beside`: the rows that an unpack has for those packages, by the scripts that are stored
//! (`rows`), and where the host isn't honest still with the row of its role, whichever scripts are
//! stored (`shaped`): prerm `deconfigure` or `remove` with its arguments, undone by postinst
//! `abort-deconfigure` or `abort-remove`, each row its own package's (`own`, `apart`).
//! `yields_beside`: the packages with which no path clashes.
#![tactic(auto)]

mod entries;
mod others;
mod rows;
mod stored;
mod yields;

pub use others::rows_beside;
pub use yields::yields_beside;
