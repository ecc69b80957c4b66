// The members of a paragraph: its fields.
ghost use Rattle.std.specs.Prelude.{◌≡◌, ◌++◌, IfOk, OnOk, string_bytes};
ghost use Rattle.json_lines.specs.Paragraphs.{field, fields, first_value, further, goes_on};

use crate::cutting::{before_colon, behind_blank, cut_at_colon};
use crate::members::member;
use std::alloc::{AllocError, Global};
use texts::{Text, Texts};

fn goes_on(line: &str) -> bool
    ensures { result ≡ goes_on line.now }
{
    line.starts_with(" ") || line.starts_with("\t")
}

fn first_value(line: &str) -> &str
    ensures { result.now ≡ first_value line.now }
{
    match cut_at_colon(line) {
        Some((_, rest)) => behind_blank(rest),
        None => "",
    }
}

fn add_further(value: &mut String, lines: &[Text]) -> Result<(), AllocError>
    ensures { OnOk result (string_bytes value.new ≡ string_bytes value.old ++ further lines.now) }
{
    for line in lines {
        if !goes_on(line.as_str()) {
            return Ok(());
        }
        value.push_str("\n")?;
        value.push_str(line.as_str())?;
    }
    Ok(())
}

fn field(alloc: Global, line: &str, lines: &[Text]) -> Result<Text, AllocError>
    ensures { IfOk result (λ text. text ≡ field line.now lines.now) }
{
    let mut value = String::from_str(alloc, first_value(line))?;
    add_further(&mut value, lines)?;
    member(alloc, before_colon(line), value.as_str())
}

/// Each field with all its lines.
pub(crate) fn fields(alloc: Global, lines: &[Text]) -> Result<Texts, AllocError>
    ensures { IfOk result (λ members. members ≡ fields lines.now) }
{
    let mut members = Texts::new(alloc);
    let mut left = lines;
    while let [line, rest @ ..] = left {
        if !goes_on(line.as_str()) {
            members.push(field(alloc, line.as_str(), rest)?)?;
        }
        left = rest;
    }
    Ok(members)
}
