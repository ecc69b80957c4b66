// The fields of a control file as dpkg records them.
ghost use Rattle.std.specs.Prelude.{◌≡◌, [], IfOk, filter};
ghost use Rattle.control_fields.specs.Spelling.{AreFields};
ghost use Rattle.status_records.specs.Recorded.{is_empty, is_left_out, is_recorded, says_no, AreFieldsOf, AreRecordedAs, IsRecordedAs};

use crate::order::{in_dpkgs_order, is_dpkgs};
use crate::record::is_own;
use control_fields::{Field, Paragraph};
use relation_fields::on_one_line;
use std::alloc::{AllocError, Global};

fn says_no(field: &Field) -> bool
    ensures { result ≡ says_no field.now }
{
    let name = field.name.as_slice();
    let is_default = name.eq_ignore_ascii_case(b"essential")
        || name.eq_ignore_ascii_case(b"protected")
        || name.eq_ignore_ascii_case(b"multi-arch");
    is_default && (field.more.as_slice().is_empty() && field.first.as_slice() == b"no".as_slice())
}

fn is_empty(field: &Field) -> bool
    ensures { result ≡ is_empty field.now }
{
    field.more.as_slice().is_empty() && field.first.as_slice().is_empty()
}

fn is_left_out(field: &Field) -> bool
    ensures { result ≡ is_left_out field.now }
{
    says_no(field) || (is_dpkgs(field) && is_empty(field))
}

fn is_recorded(field: &Field) -> bool
    ensures { result ≡ is_recorded field.now }
{
    !(is_own(field.name.as_slice()) || is_left_out(field))
}

// Without what dpkg leaves out, and without the fields that a record has of its own.
fn recorded_alone(alloc: Global, control: &Paragraph) -> Result<Paragraph, AllocError>
    requires { ∥ AreFields [] control.now ∥₁ }
    ensures { IfOk result (λ p. p ≡ filter is_recorded control.now) }
{
    let mut kept = Paragraph::new(alloc);
    for field in control.fields() {
        if is_recorded(field) {
            kept.push(field.copy()?)?;
        }
    }
    Ok(kept)
}

// Relations stand on one line, where they can be read.
fn recorded_as(alloc: Global, field: &Field) -> Result<Field, AllocError>
    ensures { IfOk result (IsRecordedAs field.now) }
{
    let name = field.name.as_slice();
    let value = field.value(alloc)?;
    match on_one_line(alloc, name, value.as_slice())? {
        Some(line) => Ok(Field::one_line(alloc, name, line.as_bytes())?),
        None => Ok(field.copy()?),
    }
}

fn all_recorded(alloc: Global, fields: &Paragraph) -> Result<Paragraph, AllocError>
    requires { ∥ AreFields [] fields.now ∥₁ }
    ensures { IfOk result (AreRecordedAs fields.now) }
{
    let mut recorded = Paragraph::new(alloc);
    for field in fields.fields() {
        recorded.push(recorded_as(alloc, field)?)?;
    }
    Ok(recorded)
}

/// What the record of a package has of its control file.
pub(crate) fn fields_of(alloc: Global, control: &Paragraph) -> Result<Paragraph, AllocError>
    requires { ∥ AreFields [] control.now ∥₁ }
    ensures { IfOk result (AreFieldsOf control.now) }
{
    let kept = recorded_alone(alloc, control)?;
    let ordered = in_dpkgs_order(alloc, &kept)?;
    all_recorded(alloc, &ordered)
}
