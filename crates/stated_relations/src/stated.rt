// The relation fields of a paragraph, read together.
ghost use Rattle.std.specs.Prelude.{◌≡◌, IfOk};
ghost use Rattle.stated_relations.specs.Stated.{States, CanAllBeRead};

use crate::relations::{provides_of, relations_of};
use control_fields::Paragraph;
use relation_fields::{Form, Provides, RelationField, Relations};
use std::alloc::{AllocError, Global};

/// What a paragraph states of other packages: its relation fields as read (Policy 7.1).
#[derive(Drop)]
pub struct StatedRelations {
    pub provides: Provides,
    pub pre_depends: Relations,
    pub depends: Relations,
    pub breaks: Relations,
    pub conflicts: Relations,
    pub replaces: Relations,
}

impl StatedRelations {
    /// Equal ones, or want of memory.
    pub fn copy(&self) -> Result<StatedRelations, AllocError>
        ensures { IfOk result (λ copy. copy ≡ self.now) }
    {
        Ok(StatedRelations {
            provides: self.provides.copy()?,
            pre_depends: self.pre_depends.copy()?,
            depends: self.depends.copy()?,
            breaks: self.breaks.copy()?,
            conflicts: self.conflicts.copy()?,
            replaces: self.replaces.copy()?,
        })
    }
}

/// The relation fields of a paragraph as read, or want of memory.
pub fn stated_relations(alloc: Global, fields: &Paragraph) -> Result<StatedRelations, AllocError>
    requires { CanAllBeRead fields.now }
    ensures { IfOk result (States fields.now) }
{
    Ok(StatedRelations {
        provides: provides_of(alloc, fields)?,
        pre_depends: relations_of(alloc, fields, RelationField::PreDepends, Form::Alternatives)?,
        depends: relations_of(alloc, fields, RelationField::Depends, Form::Alternatives)?,
        breaks: relations_of(alloc, fields, RelationField::Breaks, Form::Plain)?,
        conflicts: relations_of(alloc, fields, RelationField::Conflicts, Form::Plain)?,
        replaces: relations_of(alloc, fields, RelationField::Replaces, Form::Plain)?,
    })
}
