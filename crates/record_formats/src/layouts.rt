// How packages are told.
use crate::pieces::Pieces;

/// How each package is told.
#[derive(Drop)]
pub enum Layout {
    /// By a line of this program's own.
    Lines,
    /// By a row of dpkg's table.
    Table,
    /// By a format.
    Format(Pieces),
}
