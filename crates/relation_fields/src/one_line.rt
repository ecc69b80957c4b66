// Relation fields on one line, as dpkg writes them where it records a package.
ghost use Rattle.std.specs.Prelude.{◌≡◌, ℕ, List, IfOk, IfSome, IfNone, map, string_bytes};
ghost use Rattle.std.specs.Char.{to_ascii_lowercase};
ghost use Rattle.relation_fields.specs.OneLine.{print_clauses, weaker_rules, rules_called, IsOneLine};

use crate::clause::Clause;
use crate::reading::{Rules, read_clauses};
use crate::relation_field::{RelationField, no_value};
use std::alloc::{AllocError, Global};

// The rules of the relations of which nothing is asked, by their names in any case.
fn weaker_rules(name: &[u8]) -> Option<Rules>
    ensures { result ≡ weaker_rules (map to_ascii_lowercase name.now) }
{
    if name.eq_ignore_ascii_case(b"recommends") {
        return Some(Rules::Alternatives);
    }
    if name.eq_ignore_ascii_case(b"suggests") {
        return Some(Rules::Alternatives);
    }
    if name.eq_ignore_ascii_case(b"enhances") {
        return Some(Rules::Alternatives);
    }
    None
}

// How a field of this name is read, in any case.
fn rules_called(name: &[u8]) -> Option<Rules>
    ensures { result ≡ rules_called (map to_ascii_lowercase name.now) }
{
    match RelationField::called(name) {
        Some(field) => Some(field.rules()),
        None => weaker_rules(name),
    }
}

fn print_clauses(alloc: Global, clauses: &[Clause]) -> Result<String, AllocError>
    ensures { IfOk result (λ text. string_bytes text ≡ print_clauses clauses.now) }
{
    let mut out = String::new(alloc);
    for (i, clause) in clauses.iter().enumerate() {
        if i > 0 {
            out.push_str(", ")?;
        }
        let printed = clause.printed()?;
        out.push_str(printed.as_str())?;
    }
    Ok(out)
}

/// The value of a relation field as dpkg writes it, on one line; none where the field has no relations, or the text is
/// no value of it.
pub fn on_one_line(alloc: Global, name: &[u8], value: &[u8]) -> Result<Option<String>, AllocError>
    ensures some { IfOk result (λ found. IfSome found (λ text. IsOneLine
        (map to_ascii_lowercase name.now) value.now (string_bytes text))) }
    ensures none { IfOk result (λ found. IfNone found ((text : List ℕ) → IsOneLine
        (map to_ascii_lowercase name.now) value.now text → ⊥)) }
{
    let Some(rules) = rules_called(name) else {
        return Ok(None);
    };
    match read_clauses(alloc, rules, value) {
        Ok(clauses) => Ok(Some(print_clauses(alloc, clauses.as_slice())?)),
        Err(fault) => {
            no_value(fault)?;
            Ok(None)
        }
    }
}
