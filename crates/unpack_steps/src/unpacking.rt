// An unpack while its rows run.
ghost use Rattle.std.specs.Prelude.{◌≡◌};
ghost use Rattle.unpack_rows.specs.Kinds.{kinds_of};

use crate::plan::Rows;
use diversions::Diversions;
use held_administration::Administration;
use host_core::Host;
use package_files::Work;
use std::snapshot::Snapshot;

/// What was there where the rows began.
#[derive(Drop)]
pub struct Start<H: Host> {
    pub host: Snapshot<H>,
    pub administration: Snapshot<Administration>,
}

/// What the rows change, and what stays the same.
#[derive(Drop)]
pub(crate) struct Unpacking<'a, 's, 'w, H: Host> {
    pub(crate) administration: &'a mut Administration,
    pub(crate) works: &'a mut Vec<Work>,
    pub(crate) diversions: &'a Diversions,
    pub(crate) rows: &'a Rows,
    pub(crate) start: &'s Start<H>,
    /// What was to be written as this part of the rows began.
    pub(crate) shipped: &'w Snapshot<Vec<Work>>,
    pub(crate) ghost kinds_are: { rows.now.kinds.items ≡ kinds_of rows.now.found rows.now.others.items },
}
