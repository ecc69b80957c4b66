// What a command reports.
use crate::refusal::Refusal;
use status_records::Record;
use texts::{Text, Texts};
use undo_rows::{Called, Failure as Cause};

/// A package of a unit, and its record at the unit's end.
#[derive(Drop)]
pub struct Touched {
    pub package: Text,
    pub entry: Option<Record>,
}

/// For what the unit of a package failed: the forward call of the row that failed, or the step fault
/// of its files.
#[derive(Drop)]
pub struct Failure {
    pub package: Text,
    pub cause: Cause,
}

/// A package whose triggers were abandoned, since processing them leads to this trigger of it again and again.
#[derive(Drop)]
pub struct Cycle {
    pub package: Text,
    pub trigger: Text,
}

/// Why a unit was broken off: a device fault, want of memory, a step that was declined where it
/// can't be undone, a table of diversions that can't be read, or a session that is closed since one of these.
/// A unit that was abandoned wasn't begun, since as many had failed as were allowed to.
#[derive(Clone, Copy)]
pub enum Breakage {
    Device,
    NoMemory,
    Declined,
    Damaged,
    Closed,
    Abandoned,
}

#[derive(Drop)]
pub enum Reply {
    Done,
    Refused(Refusal),
    Failed(Failure),
    Looped(Cycle),
    Broken(Breakage),
}

/// The work on one package: the script calls with their outcomes, the package that was named and
/// those whose records differ since, which of the others an unpack deconfigured, and the reply.
/// Where the unit was broken off or refused no package is told.
#[derive(Drop)]
pub struct Unit {
    pub calls: Vec<Called>,
    pub touched: Vec<Touched>,
    pub deconfigured: Texts,
    pub reply: Reply,
}

/// The units of a command in order; `last` is the one that was broken off.
#[derive(Drop)]
pub struct Report {
    pub units: Vec<Unit>,
    pub last: Option<Unit>,
}
