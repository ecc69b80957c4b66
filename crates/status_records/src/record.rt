// The record of a package, and which fields of a status paragraph it keeps.
ghost use Rattle.std.specs.Prelude.{◌≡◌, ◌&&◌, IfOk, true, false, None, is_some, []};
ghost use Rattle.std.specs.List.{list_any, AllByRecursion};
ghost use Rattle.std.specs.Str.{bytes_eq};
ghost use Rattle.control_fields.specs.Names.{lower};
ghost use Rattle.control_fields.specs.Spelling.{AreFields};
ghost use Rattle.texts.specs.PackageNames.{is_package_name};
ghost use Rattle.status_records.specs.Fields.{own_names, recorded_fields};
ghost use Rattle.status_records.specs.Recorded.{AreFieldsOf};
ghost use Rattle.status_records.specs.Triggers.{is_configured, may_stand, no_triggers};
ghost use Rattle.status_records.specs.Values.{IsReadableControl};
ghost use Rattle.status_records.specs.Writable.{IsWritable};

use crate::conffile_lists::{ConffileEntries, PendingDigests};
use crate::recorded::fields_of;
use crate::triggers::Triggers;
use crate::words::{Flag, State, Want};
use control_fields::Paragraph;
use name_tables::Named;
use std::alloc::{AllocError, Global};
use texts::Text;
use version_order::Version;

/// What the status file says of a package. `fields` are all fields but those of the record's own, in
/// the order in which they stood there, or as dpkg records them where they come from a control file; written,
/// their values can be read again.
#[derive(Drop)]
pub struct Record {
    pub name: Text,
    pub want: Want,
    pub flag: Flag,
    pub state: State,
    pub version: Version,
    /// The version last configured, where it is another one than that of an installed package; of one
    /// that awaits triggers what dpkg has noted.
    pub config_version: Option<Version>,
    /// Whether a removal has reached the package's files since then.
    pub removed_since: bool,
    pub conffiles: ConffileEntries,
    pub pending: PendingDigests,
    pub triggers: Triggers,
    pub fields: Paragraph,
    pub ghost writable: { ∥ IsWritable name fields ∥₁ },
    pub ghost current: { is_configured state triggers && is_some config_version ≡ false },
    pub ghost beside: { may_stand state triggers ≡ true },
}

impl Named for Record {
    ghost called = { λ r. r.name };

    fn name(&self) -> &Text {
        &self.name
    }
}

/// Whether a field of this name is one of the record's own.
pub(crate) fn is_own(name: &[u8]) -> bool
    ensures { result ≡ list_any (bytes_eq (lower name.now)) own_names }
{
    name.eq_ignore_ascii_case(b"package")
        || name.eq_ignore_ascii_case(b"status")
        || name.eq_ignore_ascii_case(b"version")
        || name.eq_ignore_ascii_case(b"config-version")
        || name.eq_ignore_ascii_case(b"removed-since")
        || name.eq_ignore_ascii_case(b"conffiles")
        || name.eq_ignore_ascii_case(b"new-conffiles")
        || name.eq_ignore_ascii_case(b"triggers-pending")
        || name.eq_ignore_ascii_case(b"triggers-awaited")
}

/// The fields of a status paragraph that a record keeps as they are.
pub(crate) fn recorded_fields(alloc: Global, control: &Paragraph) -> Result<Paragraph, AllocError>
    requires { ∥ AreFields [] control.now ∥₁ }
    ensures { IfOk result (λ p. p ≡ recorded_fields control.now) }
{
    let mut kept = Paragraph::new(alloc);
    for field in control.fields() {
        if !is_own(field.name.as_slice()) {
            kept.push(field.copy()?)?;
        }
    }
    Ok(kept)
}

/// An equal version, where there is one.
pub(crate) fn copied_version(version: &Option<Version>) -> Result<Option<Version>, AllocError>
    ensures { IfOk result (λ copy. copy ≡ version.now) }
{
    match version {
        Some(version) => Ok(Some(version.copy()?)),
        None => Ok(None),
    }
}

impl Record {
    /// The record of a package whose control file was read, wanted installed, never configured and
    /// without conffiles.
    pub fn of_package(
        alloc: Global,
        name: &Text,
        version: &Version,
        control: &Paragraph,
        flag: Flag,
        state: State,
    ) -> Result<Record, AllocError>
        requires named { is_package_name name.now ≡ true }
        requires written { ∥ AreFields [] control.now ∥₁ }
        requires readable { ∥ AllByRecursion IsReadableControl control.now ∥₁ }
        ensures name { IfOk result (λ r. r.name ≡ name.now) }
        ensures want { IfOk result (λ r. r.want ≡ Want.Install) }
        ensures flag { IfOk result (λ r. r.flag ≡ flag) }
        ensures state { IfOk result (λ r. r.state ≡ state) }
        ensures version { IfOk result (λ r. r.version ≡ version.now) }
        ensures config { IfOk result (λ r. r.config_version ≡ None) }
        ensures removed { IfOk result (λ r. r.removed_since ≡ false) }
        ensures conffiles { IfOk result (λ r. r.conffiles ≡ []) }
        ensures pending { IfOk result (λ r. r.pending ≡ []) }
        ensures triggers { IfOk result (λ r. r.triggers ≡ no_triggers) }
        ensures fields { IfOk result (λ r. AreFieldsOf control.now r.fields) }
    {
        Ok(Record {
            name: name.copy()?,
            want: Want::Install,
            flag,
            state,
            version: version.copy()?,
            config_version: None,
            removed_since: false,
            conffiles: ConffileEntries::new(alloc),
            pending: PendingDigests::new(alloc),
            triggers: Triggers::none(),
            fields: fields_of(alloc, control)?,
        })
    }

    /// An equal record, or want of memory.
    pub fn copy(&self) -> Result<Record, AllocError>
        ensures { IfOk result (λ r. r ≡ self.now) }
    {
        Ok(Record {
            name: self.name.copy()?,
            want: self.want,
            flag: self.flag,
            state: self.state,
            version: self.version.copy()?,
            config_version: copied_version(&self.config_version)?,
            removed_since: self.removed_since,
            conffiles: self.conffiles.copy()?,
            pending: self.pending.copy()?,
            triggers: self.triggers.copy()?,
            fields: self.fields.copy()?,
        })
    }
}
