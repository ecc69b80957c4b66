// The records of the package, and the rows of an unpack.
ghost use Rattle.std.specs.Prelude.{◌≡◌, ◌++◌, IfOk};
ghost use Rattle.std.specs.Option.{option_copied};
ghost use Rattle.unpack_commit.specs.Takeover.{yields_of};
ghost use Rattle.unpack_plan.specs.Members.{scripts_in};
ghost use Rattle.unpack_plan.specs.Records.{IsFresh, IsIncoming};
ghost use Rattle.unpack_plan.specs.Yielded.{yielding};
ghost use Rattle.unpack_rows.specs.ForwardRows.{others_rows, records_of, rows_of};
ghost use Rattle.unpack_rows.specs.Kinds.{kinds_of};

use crate::others::{Others, all_yields};
use crate::records::{OwnRecords, own_records};
use crate::rows::{OwnRows, own_rows};
use crate::yielded::Yielding;
use diversions::Diversions;
use package_tree::Package;
use status_db::NotedDatabase;
use status_records::Record;
use std::alloc::{AllocError, Global};
use texts::Texts;
use unpack_rows::Present;

/// Both, and the packages with which no path clashes.
#[derive(Drop)]
pub(crate) struct OwnCalls {
    pub(crate) records: OwnRecords,
    pub(crate) rows: OwnRows,
    pub(crate) yields: Texts,
}

/// Those of an unpack of this tree, beside which these other packages stand.
pub(crate) fn own_calls(
    alloc: Global,
    tree: &Package,
    database: &NotedDatabase,
    diversions: &Diversions,
    found: Option<&Record>,
    stored: Present,
    others: Others,
) -> Result<OwnCalls, AllocError>
    ensures found { IfOk result (λ c. c.records.found ≡ option_copied found.entry) }
    ensures incoming { IfOk result (λ c. IsIncoming tree.now c.records.incoming) }
    ensures fresh { IfOk result (λ c.
        IsFresh
        (yielding diversions.now.ways tree.now.name others.yields database.now.records)
        tree.now (option_copied found.entry) c.records.fresh) }
    ensures rows { IfOk result (λ c. c.rows.rows.items
        ≡ rows_of (option_copied found.entry) c.records.incoming stored
        (scripts_in tree.now.scripts) (others_rows others.packages.items)) }
    ensures kinds { IfOk result (λ c. c.rows.kinds.items
        ≡ kinds_of (option_copied found.entry) (records_of others.packages.items)) }
    ensures others { IfOk result (λ c. c.rows.others.items ≡ records_of others.packages.items) }
    ensures yields { IfOk result (λ c. c.yields
        ≡ yields_of database.now.records ++ others.yields) }
{
    let Others { packages, yields } = others;
    let beside = yields.as_slice();
    let all = all_yields(alloc, database, beside)?;
    let giving = Yielding {
        diversions,
        incoming: &tree.name,
        names: beside,
        records: database.records(),
    };
    let records = own_records(alloc, tree, found, &giving)?;
    let incoming = &records.incoming;
    let rows = own_rows(alloc, found, incoming, stored, &tree.scripts, packages)?;
    Ok(OwnCalls {
        records,
        rows,
        yields: all,
    })
}
