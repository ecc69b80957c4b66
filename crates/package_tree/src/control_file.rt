// The control file of a tree.
ghost use Rattle.std.specs.Prelude.{◌≡◌, ◌↔◌, true, [], IsTrue, IfOk, IfErr, MatchOption, MatchBool};
ghost use Rattle.control_fields.specs.Grammar.{ReadsOne, lines_of};
ghost use Rattle.control_fields.specs.Spelling.{AreFields};
ghost use Rattle.stated_relations.specs.Stated.{States};
ghost use Rattle.texts.specs.PackageNames.{is_package_name};
ghost use Rattle.package_tree.specs.ControlFile.{relation_order, IsGoodField, HasBadValue, HasNoBad, HasNoBadRelation, IsFirstBadRelation, IsReadable, HasGoodFields, IsFieldFault, IsControlText, IsTextFault};

use crate::fault::{FieldName, TreeFault};
use control_fields::{ControlFault, Field, Paragraph, read_one};
use host_core::Content;
use relation_fields::RelationField;
use stated_relations::{StatedRelations, stated_relations};
use std::alloc::{AllocError, Global};
use texts::{Text, package_name};
use version_order::{Version, VersionFault};

/// What a control file says of its package.
#[derive(Drop)]
pub struct ControlFile {
    pub name: Text,
    pub version: Version,
    pub paragraph: Paragraph,
    pub relations: StatedRelations,
    pub ghost named: { is_package_name name ≡ true },
    pub ghost written: { ∥ AreFields [] paragraph ∥₁ },
    pub ghost readable: { ∥ IsReadable paragraph ∥₁ },
    pub ghost stated: { ∥ States paragraph relations ∥₁ },
}

// The text as one paragraph. What is read can be written again.
fn read_paragraph(alloc: Global, text: &[u8]) -> Result<Paragraph, TreeFault>
    ensures reads { IfOk result (ReadsOne (lines_of text.now)) }
    ensures written { IfOk result (AreFields []) }
    ensures fault { IfErr result (IsTextFault text.now) }
{
    match read_one(alloc, text) {
        Ok(paragraph) => Ok(paragraph),
        Err(ControlFault::NoMemory) => Err(TreeFault::NoMemory),
        Err(fault) => Err(TreeFault::Control(fault)),
    }
}

// The name that a field gives, if its value is a package name.
fn name_of(field: &Field) -> Option<&str>
    ensures { MatchOption result (IsGoodField FieldName.Package field.now → ⊥)
        (λ name. (field.now.first ≡ name.now) × IsGoodField FieldName.Package field.now) }
{
    if !field.more.as_slice().is_empty() {
        return None;
    }
    package_name(field.first.as_slice())
}

// The version that a field gives, if its value is a version.
fn version_of(alloc: Global, field: &Field) -> Result<Option<Version>, AllocError>
    ensures { IfOk result
        (λ found. MatchOption found (IsGoodField FieldName.Version field.now → ⊥)
        (λ version. (field.now.first ≡ version) × IsGoodField FieldName.Version field.now)) }
{
    if !field.more.as_slice().is_empty() {
        return Ok(None);
    }
    match Version::parse(alloc, field.first.as_slice()) {
        Ok(version) => Ok(Some(version)),
        Err(VersionFault::NoMemory) => Err(AllocError),
        Err(_) => Ok(None),
    }
}

// Whether nothing is wrong with the field Essential, which need not stand.
fn has_no_bad_essential(paragraph: &Paragraph) -> bool
    ensures { MatchBool result (HasNoBad FieldName.Essential paragraph.now)
        (HasBadValue FieldName.Essential paragraph.now) }
{
    match paragraph.get(b"essential") {
        Some(field) => {
            if field.is_yes_or_no() {
                return true;
            }
            return false;
        }
        None => {
            return true;
        }
    }
}

fn is_good_relation(
    alloc: Global,
    relation: RelationField,
    field: &Field,
) -> Result<bool, AllocError>
    ensures { IfOk result
        (λ good. IsTrue good ↔ IsGoodField (FieldName.Relation relation) field.now) }
{
    let value = field.value(alloc)?;
    relation.is_value(alloc, value.as_slice())
}

// Whether nothing is wrong with a relation field, which need not stand.
fn has_no_bad(
    alloc: Global,
    paragraph: &Paragraph,
    relation: RelationField,
) -> Result<bool, AllocError>
    ensures { IfOk result
        (λ good. MatchBool good (HasNoBad (FieldName.Relation relation) paragraph.now)
        (HasBadValue (FieldName.Relation relation) paragraph.now)) }
{
    match paragraph.get(relation.key().as_bytes()) {
        Some(field) => {
            return is_good_relation(alloc, relation, field);
        }
        None => {
            return Ok(true);
        }
    }
}

// The first of some relation fields whose value can't be read.
fn first_bad(
    alloc: Global,
    paragraph: &Paragraph,
    relations: &[RelationField],
) -> Result<Option<RelationField>, AllocError>
    ensures { IfOk result
        (λ found. MatchOption found (HasNoBadRelation relations.now paragraph.now)
        (IsFirstBadRelation relations.now paragraph.now)) }
{
    for relation in relations {
        if !has_no_bad(alloc, paragraph, *relation)? {
            return Ok(Some(*relation));
        }
    }
    Ok(None)
}

// The first relation field whose value can't be read.
fn first_bad_relation(
    alloc: Global,
    paragraph: &Paragraph,
) -> Result<Option<RelationField>, AllocError>
    ensures { IfOk result
        (λ found. MatchOption found (HasNoBadRelation relation_order paragraph.now)
        (IsFirstBadRelation relation_order paragraph.now)) }
{
    first_bad(
        alloc,
        paragraph,
        &[
            RelationField::Depends,
            RelationField::PreDepends,
            RelationField::Breaks,
            RelationField::Conflicts,
            RelationField::Provides,
            RelationField::Replaces,
        ],
    )
}

fn read_fields(alloc: Global, paragraph: &Paragraph) -> Result<(Text, Version), TreeFault>
    ensures fields { IfOk result (λ found. HasGoodFields paragraph.now found.0 found.1) }
    ensures fault { IfErr result (IsFieldFault paragraph.now) }
{
    let Some(package) = paragraph.get(b"package") else {
        return Err(TreeFault::FieldMissing(FieldName::Package));
    };
    let Some(version) = paragraph.get(b"version") else {
        return Err(TreeFault::FieldMissing(FieldName::Version));
    };
    let Some(name) = name_of(package) else {
        return Err(TreeFault::FieldBad(FieldName::Package));
    };
    let Some(version) = version_of(alloc, version)? else {
        return Err(TreeFault::FieldBad(FieldName::Version));
    };
    if !has_no_bad_essential(paragraph) {
        return Err(TreeFault::FieldBad(FieldName::Essential));
    }
    if let Some(relation) = first_bad_relation(alloc, paragraph)? {
        return Err(TreeFault::FieldBad(FieldName::Relation(relation)));
    }
    Ok((Text::from_str(alloc, name)?, version))
}

// Reads the text of a control file.
fn read_text(alloc: Global, text: &[u8]) -> Result<ControlFile, TreeFault>
    ensures control { IfOk result
        (λ file. IsControlText text.now file.paragraph file.name file.version) }
    ensures fault { IfErr result (IsTextFault text.now) }
{
    let paragraph = read_paragraph(alloc, text)?;
    let (name, version) = read_fields(alloc, &paragraph)?;
    let relations = stated_relations(alloc, &paragraph)?;
    Ok(ControlFile {
        name,
        version,
        paragraph,
        relations,
    })
}

/// Reads what a control file holds.
pub(crate) fn read_control(alloc: Global, content: &Content) -> Result<ControlFile, TreeFault>
    ensures control { IfOk result
        (λ file. IsControlText content.now file.paragraph file.name file.version) }
    ensures fault { IfErr result (IsTextFault content.now) }
{
    read_text(alloc, content.held()?)
}
