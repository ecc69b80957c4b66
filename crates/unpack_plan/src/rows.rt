// The rows of an unpack, with those of other packages among them.
ghost use Rattle.std.specs.Prelude.{◌≡◌, IfOk};
ghost use Rattle.std.specs.Option.{option_copied};
ghost use Rattle.unpack_plan.specs.Members.{scripts_in};
ghost use Rattle.unpack_rows.specs.ForwardRows.{others_rows, records_of, rows_of as forward_rows};
ghost use Rattle.unpack_rows.specs.Kinds.{kinds_of as row_kinds};

use administration::Scripts;
use status_records::Record;
use std::alloc::{AllocError, Global};
use undo_rows::Row;
use unpack_rows::{OtherPackage, Present, RowKind, kinds_of, rows_of};

fn scripts_in(scripts: &Scripts) -> Present
    ensures { result ≡ scripts_in scripts.now }
{
    Present {
        preinst: scripts.preinst.is_some(),
        postinst: scripts.postinst.is_some(),
        prerm: scripts.prerm.is_some(),
        postrm: scripts.postrm.is_some(),
    }
}

// Copies of the records of other packages.
fn records_of(alloc: Global, others: &[OtherPackage]) -> Result<Vec<Record>, AllocError>
    ensures { IfOk result (λ records. records.items ≡ records_of others.now) }
{
    let mut records = Vec::new(alloc);
    for other in others {
        records.push(other.record.copy()?)?;
    }
    Ok(records)
}

/// Rows with their kinds, and the records of the other packages that have some.
#[derive(Drop)]
pub(crate) struct OwnRows {
    pub(crate) rows: Vec<Row>,
    pub(crate) kinds: Vec<RowKind>,
    pub(crate) others: Vec<Record>,
}

/// Those of an unpack of a tree with these scripts, beside which these other packages have rows.
pub(crate) fn own_rows(
    alloc: Global,
    found: Option<&Record>,
    incoming: &Record,
    stored: Present,
    scripts: &Scripts,
    others: Vec<OtherPackage>,
) -> Result<OwnRows, AllocError>
    ensures rows { IfOk result (λ r. r.rows.items
        ≡ forward_rows (option_copied found.entry) incoming.now stored (scripts_in scripts.now)
        (others_rows others.items)) }
    ensures kinds { IfOk result (λ r. r.kinds.items
        ≡ row_kinds (option_copied found.entry) (records_of others.items)) }
    ensures others { IfOk result (λ r. r.others.items ≡ records_of others.items) }
{
    let kinds = kinds_of(alloc, found, others.as_slice())?;
    let records = records_of(alloc, others.as_slice())?;
    let rows = rows_of(alloc, found, incoming, stored, scripts_in(scripts), others)?;
    Ok(OwnRows {
        rows,
        kinds,
        others: records,
    })
}
