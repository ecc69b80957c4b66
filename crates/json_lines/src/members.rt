// The members of an object, and its text.
ghost use Rattle.std.specs.Prelude.{◌≡◌, ◌≤◌, ◌+◌, ◌++◌, IfOk, OnOk, length, string_bytes};
ghost use Rattle.json.specs.Print.{quoted};
ghost use Rattle.json_lines.specs.Members.{formed, joined, member, merged, named, object, values_of};

use crate::cutting::words_of;
use crate::forms::{Form, merged_in, names_in};
use serde_json::Value;
use std::alloc::{AllocError, Global};
use texts::{Text, Texts};

// A string of JSON.
fn quoted(alloc: Global, text: &str) -> Result<String, AllocError>
    ensures { IfOk result (λ string. string_bytes string ≡ quoted text.now) }
{
    Value::String(String::from_str(alloc, text)?).to_string(alloc)
}

/// A member of an object.
pub(crate) fn member(alloc: Global, name: &str, value: &str) -> Result<Text, AllocError>
    ensures { IfOk result (λ text. text ≡ member name.now value.now) }
{
    let mut text = quoted(alloc, name)?;
    text.push_str(":")?;
    text.push_str(quoted(alloc, value)?.as_str())?;
    Ok(Text::new(text))
}

// Texts with a mark between two of them.
fn joined(alloc: Global, mark: &str, pieces: &[Text]) -> Result<String, AllocError>
    ensures { IfOk result (λ text. string_bytes text ≡ joined mark.now pieces.now) }
{
    let mut all = String::new(alloc);
    let [first, rest @ ..] = pieces else {
        return Ok(all);
    };
    all.push_str(first.as_str())?;
    for piece in rest {
        all.push_str(mark)?;
        all.push_str(piece.as_str())?;
    }
    Ok(all)
}

/// An object on a line of its own.
pub(crate) fn object(alloc: Global, members: &[Text]) -> Result<String, AllocError>
    ensures { IfOk result (λ text. string_bytes text ≡ object members.now) }
{
    let inner = joined(alloc, ",", members)?;
    let mut text = String::from_str(alloc, "{")?;
    text.push_str(inner.as_str())?;
    text.push_str("}\n")?;
    Ok(text)
}

/// Adds copies of texts.
pub(crate) fn push_copies(texts: &mut Texts, more: &[Text]) -> Result<(), AllocError>
    ensures { OnOk result (texts.new ≡ texts.old ++ more.now) }
{
    for text in more {
        texts.push(text.copy()?)?;
    }
    Ok(())
}

// The words, of which so many from a place on are one value.
fn merged(alloc: Global, at: usize, count: usize, words: &[Text]) -> Result<Texts, AllocError>
    requires { at + count ≤ length words.now }
    ensures { IfOk result (λ values. values ≡ merged at count words.now) }
{
    let (front, rest) = words.split_at(at);
    let (some, back) = rest.split_at(count);
    let mut values = Texts::new(alloc);
    push_copies(&mut values, front)?;
    values.push(Text::new(joined(alloc, " ", some)?))?;
    push_copies(&mut values, back)?;
    Ok(values)
}

// The values for so many names.
fn values_of(alloc: Global, at: usize, names: usize, words: &[Text]) -> Result<Texts, AllocError>
    ensures { IfOk result (λ values. values ≡ values_of at names words.now) }
{
    if at < names && names < words.len() {
        return merged(alloc, at, words.len() - names + 1, words);
    }
    let mut values = Texts::new(alloc);
    push_copies(&mut values, words)?;
    Ok(values)
}

// Each name with its value.
fn named(alloc: Global, names: &[Text], values: &[Text]) -> Result<Texts, AllocError>
    ensures { IfOk result (λ members. members ≡ named names.now values.now) }
{
    let mut members = Texts::new(alloc);
    let mut left = names;
    for value in values {
        let [name, more @ ..] = left else {
            return Ok(members);
        };
        members.push(member(alloc, name.as_str(), value.as_str())?)?;
        left = more;
    }
    Ok(members)
}

/// The members of a line of these words.
pub(crate) fn formed(alloc: Global, form: Form, words: &[Text]) -> Result<Texts, AllocError>
    ensures { IfOk result (λ members. members ≡ formed form words.now) }
{
    let names = words_of(alloc, names_in(form))?;
    let names = names.as_slice();
    let values = values_of(alloc, merged_in(form), names.len(), words)?;
    named(alloc, names, values.as_slice())
}
