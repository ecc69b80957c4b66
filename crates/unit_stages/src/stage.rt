// A stage of a unit.
use crate::part::Part;
use undo_rows::Row;

/// What is done, the script call behind it with its undo, and what is done where the call failed and its undo didn't.
#[derive(Drop)]
pub struct Stage {
    pub parts: Vec<Part>,
    pub row: Row,
    pub restore: Vec<Part>,
}
