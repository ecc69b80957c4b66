// The packages of the records, as relations see them.
ghost use Rattle.std.specs.Prelude.{◌≡◌, List, IfOk, option_copied};
ghost use Rattle.recorded_packages.specs.Packages.{package_state, is_reinstreq, are_two, is_foreign, first_architecture, root_architecture, IsPackageOf, ArePackagesOf};
ghost use Rattle.status_records.specs.Configured.{last_configured};
ghost use Rattle.status_db.specs.Order.{AreInOrder};
ghost use Rattle.status_records.specs.declared.record.Record.{Record as ARecord};

use relation_fields::{Form, RelationField};
use relation_index::{Package, PackageState, Packages};
use stated_relations::{architecture_of, counted_as, is_essential, provides_of, relations_of};
use status_records::{Flag, Record, State};
use std::alloc::{AllocError, Global};
use texts::Text;
use version_order::Version;

fn package_state(state: State) -> PackageState
    ensures { result ≡ package_state state }
{
    match state {
        State::NotInstalled => PackageState::NotInstalled,
        State::ConfigFiles => PackageState::ConfigFiles,
        State::HalfInstalled => PackageState::HalfInstalled,
        State::Unpacked => PackageState::Unpacked,
        State::HalfConfigured => PackageState::HalfConfigured,
        State::Installed => PackageState::Installed,
    }
}

fn is_reinstreq(flag: Flag) -> bool
    ensures { result ≡ is_reinstreq flag }
{
    match flag {
        Flag::Ok => false,
        Flag::Reinstreq => true,
    }
}

fn configured_of(entry: &Record) -> Result<Option<Version>, AllocError>
    ensures { IfOk result (λ version. version ≡ last_configured entry.now) }
{
    match entry.last_configured() {
        Some(version) => Ok(Some(version.copy()?)),
        None => Ok(None),
    }
}

/// The architecture of a root of these records: that of the first package that doesn't fit each.
pub fn root_of(records: &[Record]) -> Option<&str>
    ensures { option_copied result ≡ root_architecture records.now }
{
    for entry in records {
        if let Some(own) = architecture_of(&entry.fields) {
            return Some(own);
        }
    }
    None
}

// Whether of two architectures the second isn't the first.
fn are_two(root: Option<&str>, own: Option<&str>) -> bool
    ensures { result ≡ are_two (option_copied root.entry) (option_copied own.entry) }
{
    match (root, own) {
        (Some(root), Some(own)) => own != root,
        (Some(_), None) => false,
        (None, _) => false,
    }
}

/// Whether the package of a record is of another architecture than a root of this one.
pub fn is_foreign(root: Option<&str>, record: &Record) -> bool
    ensures { result ≡ is_foreign (option_copied root.entry) record.now }
{
    are_two(root, architecture_of(&record.fields))
}

fn word_of(word: &Option<Text>) -> Option<&str>
    ensures { option_copied result ≡ word.now }
{
    match word {
        Some(word) => Some(word.as_str()),
        None => None,
    }
}

fn first_architecture(packages: &[Package]) -> Option<&str>
    ensures { option_copied result ≡ first_architecture packages.now }
{
    match packages {
        [] => None,
        [first, ..] => word_of(&first.architecture),
    }
}

/// The architecture of the root of these packages, if it has one.
pub fn root_architecture(packages: &Packages) -> Option<&str>
    ensures { (records : List ARecord) → ArePackagesOf records packages.now → option_copied result
        ≡ root_architecture records }
{
    first_architecture(packages.as_slice())
}

/// The package of a record in a root of this architecture, with the relations that its fields state.
pub(crate) fn package_of(
    alloc: Global,
    root: Option<&str>,
    entry: &Record,
) -> Result<Package, AllocError>
    ensures { IfOk result (IsPackageOf (option_copied root.entry) entry.now) }
{
    let fields = &entry.fields;
    Ok(Package {
        name: entry.name.copy()?,
        architecture: counted_as(alloc, root, fields)?,
        version: entry.version.copy()?,
        state: package_state(entry.state),
        awaits: entry.triggers.awaited.is_some(),
        reinstreq: is_reinstreq(entry.flag),
        essential: is_essential(fields),
        configured: configured_of(entry)?,
        removed_since: entry.removed_since,
        provides: provides_of(alloc, fields)?,
        pre_depends: relations_of(alloc, fields, RelationField::PreDepends, Form::Alternatives)?,
        depends: relations_of(alloc, fields, RelationField::Depends, Form::Alternatives)?,
        breaks: relations_of(alloc, fields, RelationField::Breaks, Form::Plain)?,
        conflicts: relations_of(alloc, fields, RelationField::Conflicts, Form::Plain)?,
        replaces: relations_of(alloc, fields, RelationField::Replaces, Form::Plain)?,
    })
}

/// The packages of all records, which stand in the order of names, as those of an open database do.
pub fn packages_of(alloc: Global, records: &[Record]) -> Result<Packages, AllocError>
    requires { AreInOrder records.now }
    ensures { IfOk result (ArePackagesOf records.now) }
{
    let root = root_of(records);
    let mut list = Vec::new(alloc);
    for entry in records {
        list.push(package_of(alloc, root, entry)?)?;
    }
    match Packages::of(alloc, list)? {
        Some(packages) => Ok(packages),
        None => unreachable!(),
    }
}
