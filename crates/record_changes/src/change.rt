// What is to be changed of records.
use status_records::{TriggerNames, Want};
use texts::Text;

/// What is to be changed of the record of a package.
#[derive(Drop)]
pub enum Change {
    /// This is to be wanted of it.
    Want(Want),
    /// It is to process these triggers too, where it is installed. Blanks stand between the names.
    Activate(TriggerNames),
    /// What is pending of it isn't processed, since it would lead to this trigger of it again and again: where something is pending, it
    /// is half-configured.
    Abandon(Text),
    /// It awaits what is pending of these packages, and of no others; with none it awaits nothing. Blanks stand between the names.
    Await(Option<TriggerNames>),
}

/// A change of the record of the package of this name.
#[derive(Drop)]
pub struct RecordChange {
    pub name: Text,
    pub change: Change,
}
