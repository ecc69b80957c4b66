// The JSON text of lines.
ghost use Rattle.std.specs.Prelude.{◌≡◌, IfOk, codes, flat_map, nat_eq, string_bytes};
ghost use Rattle.std.specs.List.{starts_with};
ghost use Rattle.json_lines.specs.Lines.{call_parts, is_unknown, json_text, line_text, listed_members, members_of, owner_parts, path_members, record_members, selection_members, text_of_lines, unit_members};
ghost use Rattle.json_lines.specs.Cutting.{between, cut_at, cut_at_last_colon};
ghost use Rattle.json_lines.specs.Forms.{form_of};
ghost use Rattle.json_lines.specs.Members.{formed, object};

use crate::cutting::{
    before_colon, behind_blank, columns_of, cut_at_blank, cut_at_last_colon, lines_of, words_of,
};
use crate::diverted::{begins_path, diverted_members};
use crate::forms::{Form, Kind, form_of};
use crate::members::{formed, member, object};
use crate::paragraphs::fields;
use std::alloc::{AllocError, Global};
use texts::{Text, Texts};

fn call_members(alloc: Global, line: &str) -> Result<Texts, AllocError>
    ensures { IfOk result (λ members. members
        ≡ call_parts line.now (cut_at_last_colon line.now)) }
{
    let Some((called, outcome)) = cut_at_last_colon(line) else {
        return formed(alloc, Form::Call, words_of(alloc, line)?.as_slice());
    };
    let mut members = formed(alloc, Form::Call, words_of(alloc, called)?.as_slice())?;
    members.push(member(alloc, "outcome", behind_blank(outcome))?)?;
    Ok(members)
}

fn words_members(alloc: Global, kind: Kind, line: &str) -> Result<Texts, AllocError>
    ensures { IfOk result (λ members. members ≡ formed (form_of kind (between 32 line.now))
        (between 32 line.now)) }
{
    let words = words_of(alloc, line)?;
    let words = words.as_slice();
    formed(alloc, form_of(kind, words), words)
}

fn unit_members(alloc: Global, line: &str) -> Result<Texts, AllocError>
    ensures { IfOk result (λ members. members ≡ unit_members line.now) }
{
    if line.starts_with("call ") {
        return call_members(alloc, line);
    }
    words_members(alloc, Kind::Units, line)
}

fn owner_members(alloc: Global, line: &str) -> Result<Texts, AllocError>
    ensures { IfOk result (λ members. members ≡ owner_parts line.now (cut_at 32 line.now)) }
{
    let Some((name, path)) = cut_at_blank(line) else {
        return formed(alloc, Form::Place, words_of(alloc, line)?.as_slice());
    };
    let mut members = Texts::new(alloc);
    members.push(member(alloc, "package", before_colon(name))?)?;
    members.push(member(alloc, "path", path)?)?;
    Ok(members)
}

fn is_unknown(line: &str) -> bool
    ensures { result ≡ is_unknown line.now }
{
    line.as_bytes().ends_with(b" Unknown")
}

fn listed_members(alloc: Global, line: &str) -> Result<Texts, AllocError>
    ensures { IfOk result (λ members. members ≡ listed_members line.now) }
{
    let words = words_of(alloc, line)?;
    if is_unknown(line) {
        return formed(alloc, Form::RefusedPattern, words.as_slice());
    }
    formed(alloc, Form::Listed, words.as_slice())
}

fn selection_members(alloc: Global, line: &str) -> Result<Texts, AllocError>
    ensures { IfOk result (λ members. members ≡ selection_members line.now) }
{
    if is_unknown(line) {
        return formed(
            alloc,
            Form::RefusedPattern,
            words_of(alloc, line)?.as_slice(),
        );
    }
    formed(alloc, Form::Selected, columns_of(alloc, line)?.as_slice())
}

fn path_members(alloc: Global, line: &str) -> Result<Texts, AllocError>
    ensures { IfOk result (λ members. members ≡ path_members line.now) }
{
    let words = words_of(alloc, line)?;
    if begins_path(line) {
        return formed(alloc, Form::Place, words.as_slice());
    }
    formed(alloc, Form::Refused, words.as_slice())
}

fn members_of(alloc: Global, kind: Kind, line: &str) -> Result<Texts, AllocError>
    ensures { IfOk result (λ members. members ≡ members_of kind line.now) }
{
    match kind {
        Kind::Units => unit_members(alloc, line),
        Kind::Listing => listed_members(alloc, line),
        Kind::Diversions => diverted_members(alloc, line),
        Kind::Paths => path_members(alloc, line),
        Kind::Search => owner_members(alloc, line),
        Kind::Selections => selection_members(alloc, line),
        _ => words_members(alloc, kind, line),
    }
}

fn line_text(alloc: Global, kind: Kind, line: &str) -> Result<String, AllocError>
    ensures { IfOk result (λ text. string_bytes text ≡ line_text kind line.now) }
{
    let members = members_of(alloc, kind, line)?;
    object(alloc, members.as_slice())
}

fn each_line(alloc: Global, kind: Kind, lines: &[Text]) -> Result<String, AllocError>
    ensures { IfOk result (λ text. string_bytes text
        ≡ flat_map (λ line. line_text kind line) lines.now) }
{
    let mut text = String::new(alloc);
    for line in lines {
        text.push_str(line_text(alloc, kind, line.as_str())?.as_str())?;
    }
    Ok(text)
}

fn is_refusal(line: &str) -> bool
    ensures { result ≡ starts_with nat_eq line.now (codes "refused ") }
{
    line.starts_with("refused ")
}

fn record_members(alloc: Global, lines: &[Text]) -> Result<Texts, AllocError>
    ensures { IfOk result (λ members. members ≡ record_members lines.now) }
{
    match lines {
        [] => Ok(Texts::new(alloc)),
        [line, ..] if is_refusal(line.as_str()) => {
            formed(
                alloc,
                Form::Refused,
                words_of(alloc, line.as_str())?.as_slice(),
            )
        }
        _ => fields(alloc, lines),
    }
}

fn paragraph(alloc: Global, lines: &[Text]) -> Result<String, AllocError>
    ensures { IfOk result (λ text. string_bytes text ≡ object (record_members lines.now)) }
{
    let members = record_members(alloc, lines)?;
    object(alloc, members.as_slice())
}

fn text_of_lines(alloc: Global, kind: Kind, lines: &[Text]) -> Result<String, AllocError>
    ensures { IfOk result (λ text. string_bytes text ≡ text_of_lines kind lines.now) }
{
    match kind {
        Kind::Paragraph => paragraph(alloc, lines),
        _ => each_line(alloc, kind, lines),
    }
}

/// The JSON text of lines, or of a paragraph.
pub fn json_text(alloc: Global, kind: Kind, text: &str) -> Result<String, AllocError>
    ensures { IfOk result (λ all. string_bytes all ≡ json_text kind text.now) }
{
    let lines = lines_of(alloc, text)?;
    text_of_lines(alloc, kind, lines.as_slice())
}
