// What is known before the rows of an unpack run.
ghost use Rattle.std.specs.Prelude.{◌≡◌, ◌<◌, get_or, length};
ghost use Rattle.unpack_rows.specs.EndStates.{own_name};

use file_lists::Paths;
use status_records::Record;
use texts::{Text, Texts};
use unpack_rows::RowKind;

/// The rows of an unpack: what is found, what comes, and which rows there are.
#[derive(Drop)]
pub struct Rows {
    /// The package's record, if it has one.
    pub found: Option<Record>,
    /// The record that is noted where it has none.
    pub incoming: Record,
    pub kinds: Vec<RowKind>,
    /// The records of other packages that have rows.
    pub others: Vec<Record>,
    /// The packages with which no path clashes.
    pub yields: Texts,
    /// The package's list, and that with the paths to come beside the old ones.
    pub listed: Paths,
    pub union: Paths,
}

impl Rows {
    /// The name of the package.
    pub fn name(&self) -> &Text
        ensures { result.now ≡ own_name self.now.found self.now.incoming }
    {
        match &self.found {
            None => &self.incoming.name,
            Some(record) => &record.name,
        }
    }

    pub(crate) fn kind(&self, index: usize) -> &RowKind
        requires { index < length self.now.kinds.items }
        ensures { result.now ≡ get_or self.now.kinds.items index result.now }
    {
        let kinds = self.kinds.as_slice();
        &kinds[index]
    }
}
