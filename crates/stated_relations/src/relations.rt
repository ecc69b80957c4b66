// What the fields of a package say of other packages.
ghost use Rattle.std.specs.Prelude.{◌≡◌, ◌≢◌, IfOk, []};
ghost use Rattle.stated_relations.specs.Relations.{CanBeRead, StatesClauses, StatesProvides, is_essential, says_essential};
ghost use Rattle.relation_fields.specs.Entries.{ReadsProvides};
ghost use Rattle.relation_fields.specs.Grammar.{Reads};
ghost use Rattle.relation_fields.specs.RelationFields.{field_rules, IsRelation};
ghost use Rattle.relation_fields.specs.Words.{rules_of};
ghost use Rattle.relation_fields.specs.declared.fault.RelationFault.TheVariants.{NoMemory};
ghost use Rattle.relation_fields.specs.declared.relation_field.RelationField.TheVariants as relation;

use control_fields::{Field, Paragraph};
use relation_fields::{Form, Provides, RelationFault, RelationField, Relations, reading_is_exact};
use std::alloc::{AllocError, Global};

fn says_essential(field: &Field) -> bool
    ensures { result ≡ says_essential field.now }
{
    field.name.as_slice().eq_ignore_ascii_case(b"essential")
        && field.first.as_slice() == b"yes".as_slice()
}

/// Whether the fields say that the package is essential (Policy 3.8, 5.6.9).
pub fn is_essential(fields: &Paragraph) -> bool
    ensures { result ≡ is_essential fields.now }
{
    fields.fields().any(says_essential)
}

// The one fault that a text with a reading has.
fn want_of_memory(fault: RelationFault) -> AllocError
    requires { fault ≢ NoMemory → ⊥ }
{
    match fault {
        RelationFault::NoMemory => AllocError,
        RelationFault::Syntax(_)
        | RelationFault::Operator
        | RelationFault::Version
        | RelationFault::Name => unreachable!(),
    }
}

fn read_relations(
    alloc: Global,
    field: RelationField,
    form: Form,
    value: &[u8],
) -> Result<Relations, AllocError>
    requires form { field_rules field ≡ rules_of form }
    requires readable { ∥ IsRelation field value.now ∥₁ }
    ensures { IfOk result (Reads (field_rules field) value.now) }
{
    reading_is_exact();
    match Relations::read(alloc, value, form) {
        Ok(relations) => Ok(relations),
        Err(fault) => Err(want_of_memory(fault)),
    }
}

fn no_relations(alloc: Global) -> Result<Relations, AllocError>
    ensures { IfOk result (λ relations. relations ≡ []) }
{
    reading_is_exact();
    match Relations::read(alloc, b"".as_slice(), Form::Plain) {
        Ok(relations) => Ok(relations),
        Err(fault) => Err(want_of_memory(fault)),
    }
}

/// The clauses of a relation field but Provides; without the field there are none.
pub fn relations_of(
    alloc: Global,
    fields: &Paragraph,
    field: RelationField,
    form: Form,
) -> Result<Relations, AllocError>
    requires form { field_rules field ≡ rules_of form }
    requires readable { CanBeRead field fields.now }
    ensures { IfOk result (StatesClauses field fields.now) }
{
    match fields.get(field.key().as_bytes()) {
        Some(stated) => {
            let value = stated.value(alloc)?;
            read_relations(alloc, field, form, value.as_slice())
        }
        None => no_relations(alloc),
    }
}

fn read_provides(alloc: Global, value: &[u8]) -> Result<Provides, AllocError>
    requires { ∥ IsRelation relation.Provides value.now ∥₁ }
    ensures { IfOk result (ReadsProvides value.now) }
{
    reading_is_exact();
    match Provides::read(alloc, value) {
        Ok(provides) => Ok(provides),
        Err(fault) => Err(want_of_memory(fault)),
    }
}

/// The entries of Provides; without the field there are none.
pub fn provides_of(alloc: Global, fields: &Paragraph) -> Result<Provides, AllocError>
    requires { CanBeRead relation.Provides fields.now }
    ensures { IfOk result (StatesProvides fields.now) }
{
    match fields.get(RelationField::Provides.key().as_bytes()) {
        Some(stated) => {
            let value = stated.value(alloc)?;
            read_provides(alloc, value.as_slice())
        }
        None => Ok(Provides::new(alloc)),
    }
}
