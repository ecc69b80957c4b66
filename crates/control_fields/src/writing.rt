// The written form of paragraphs.
ghost use Rattle.std.specs.Prelude.{◌≡◌, OnOk, IfOk, IfErr, ◌++◌, ◌∷◌, []};
ghost use Rattle.control_fields.specs.Spelling.{first_line, has_no_blank, spell_field, spell, spell_all};
ghost use Rattle.control_fields.specs.declared.fault.ControlFault.TheVariants.{NoMemory};

use crate::fault::ControlFault;
use crate::field::Field;
use crate::paragraph::Paragraph;
use std::alloc::{AllocError, Global};

// Whether nothing stands behind the colon, as of conffiles, whose values begin on the next line.
fn has_no_blank(field: &Field) -> bool
    ensures { result ≡ has_no_blank field.now.name field.now.first }
{
    let name = field.name.as_slice();
    field.first.as_slice().is_empty()
        && (name.eq_ignore_ascii_case(b"conffiles") || name.eq_ignore_ascii_case(b"new-conffiles"))
}

// The line of the field's name.
fn write_first_line(out: &mut Vec<u8>, field: &Field) -> Result<(), AllocError>
    ensures { OnOk result (out.new.items ≡ out.old.items ++ first_line field.now ++ 10 ∷ []) }
{
    out.extend_from_slice(field.name.as_slice())?;
    out.push(b':')?;
    if !has_no_blank(field) {
        out.push(b' ')?;
        out.extend_from_slice(field.first.as_slice())?;
    }
    out.push(b'\n')?;
    Ok(())
}

fn write_field(out: &mut Vec<u8>, field: &Field) -> Result<(), AllocError>
    ensures { OnOk result (out.new.items ≡ out.old.items ++ spell_field field.now) }
{
    write_first_line(out, field)?;
    for line in field.more.as_slice() {
        out.extend_from_slice(line.as_slice())?;
        out.push(b'\n')?;
    }
    Ok(())
}

fn write_fields(out: &mut Vec<u8>, paragraph: &Paragraph) -> Result<(), AllocError>
    ensures { OnOk result (out.new.items ≡ out.old.items ++ spell paragraph.now) }
{
    for field in paragraph.fields() {
        write_field(out, field)?;
    }
    Ok(())
}

/// The one spelling of a paragraph; no fault but NoMemory.
pub fn write_paragraph(alloc: Global, paragraph: &Paragraph) -> Result<Vec<u8>, ControlFault>
    ensures spelled { IfOk result (λ out. out.items ≡ spell paragraph.now) }
    ensures fault { IfErr result (λ fault. fault ≡ NoMemory) }
{
    let mut text = Vec::new(alloc);
    write_fields(&mut text, paragraph)?;
    Ok(text)
}

/// Paragraphs with a blank line between two; no fault but NoMemory.
pub fn write_paragraphs(alloc: Global, paragraphs: &[Paragraph]) -> Result<Vec<u8>, ControlFault>
    ensures spelled { IfOk result (λ out. out.items ≡ spell_all paragraphs.now) }
    ensures fault { IfErr result (λ fault. fault ≡ NoMemory) }
{
    let mut out = Vec::new(alloc);
    for (i, paragraph) in paragraphs.iter().enumerate() {
        if i > 0 {
            out.push(b'\n')?;
        }
        write_fields(&mut out, paragraph)?;
    }
    Ok(out)
}
