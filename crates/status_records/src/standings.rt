// How a record changes with what is done to its package.
ghost use Rattle.std.specs.Prelude.{◌≡◌, ◌&&◌, IfOk, true, false, is_some, option_copied, []};
ghost use Rattle.std.specs.List.{AllByRecursion};
ghost use Rattle.control_fields.specs.Spelling.{AreFields};
ghost use Rattle.texts.specs.PackageNames.{is_package_name};
ghost use Rattle.status_records.specs.Configured.{last_configured};
ghost use Rattle.status_records.specs.Paragraphs.{record_word};
ghost use Rattle.status_records.specs.Triggers.{is_configured, no_triggers};
ghost use Rattle.status_records.specs.Standings.{version_beside, standing_as, wanting, removed, configured, with_conffiles, last_of, removed_of, IsUnpackedOf};
ghost use Rattle.status_records.specs.Values.{IsReadableControl};
ghost use Rattle.status_records.specs.Words.{is_installed};

use crate::conffile_lists::{ConffileEntries, PendingDigests};
use crate::record::{Record, copied_version};
use crate::recorded::fields_of;
use crate::triggers::Triggers;
use crate::words::{Flag, State, StateWord, Want};
use control_fields::Paragraph;
use host_core::ShipPath;
use std::alloc::{AllocError, Global};
use texts::Text;
use version_order::Version;

// The version last configured, for a record of this state.
fn version_beside(state: State, last: Option<&Version>) -> Result<Option<Version>, AllocError>
    ensures { IfOk result (λ version. version ≡ version_beside (is_installed state)
        (option_copied last.entry)) }
{
    if state.is_installed() {
        return Ok(None);
    }
    match last {
        Some(version) => Ok(Some(version.copy()?)),
        None => Ok(None),
    }
}

fn last_of<'a>(old: Option<&'a Record>) -> Option<&'a Version>
    ensures { option_copied result ≡ last_of (option_copied old.entry) }
{
    match old {
        Some(old) => old.last_configured(),
        None => None,
    }
}

fn removed_of(old: Option<&Record>) -> bool
    ensures { result ≡ removed_of (option_copied old.entry) }
{
    match old {
        Some(old) => old.removed_since,
        None => false,
    }
}

impl Record {
    ghost use Rattle.status_records.specs.Conffiles.{has_conffile};

    /// Whether one of its conffiles has this path. Takes no memory.
    pub fn has_conffile(&self, path: &ShipPath) -> bool
        ensures { result ≡ has_conffile self.now path.now }
    {
        self.conffiles.has(path)
    }

    /// The word of its state, as the status file has it.
    pub fn word(&self) -> StateWord
        ensures { result ≡ record_word self.now }
    {
        let pending = self.triggers.pending.is_some();
        let awaited = self.triggers.awaited.is_some();
        self.state.word(pending, awaited)
    }

    /// Whether the package is installed and awaits no triggers.
    pub fn is_configured(&self) -> bool
        ensures { result ≡ is_configured self.now.state self.now.triggers }
    {
        self.state.is_installed() && !self.triggers.awaited.is_some()
    }

    /// The version that was configured last; none where the package never was.
    pub fn last_configured(&self) -> Option<&Version>
        ensures { option_copied result ≡ last_configured self.now }
    {
        if self.state.is_installed() {
            return Some(&self.version);
        }
        self.config_version.as_ref()
    }

    /// The same with another flag and state: a package that leaves the state installed keeps its
    /// version as the one last configured, and has no triggers to process.
    pub fn standing_as(&self, flag: Flag, state: State) -> Result<Record, AllocError>
        ensures { IfOk result (λ r. r ≡ standing_as flag state self.now) }
    {
        Ok(Record {
            name: self.name.copy()?,
            want: self.want,
            flag,
            state,
            version: self.version.copy()?,
            config_version: version_beside(state, self.last_configured())?,
            removed_since: self.removed_since,
            conffiles: self.conffiles.copy()?,
            pending: self.pending.copy()?,
            triggers: self.triggers.beside(state)?,
            fields: self.fields.copy()?,
        })
    }

    /// The same where something else is wanted of the package.
    pub fn wanting(&self, want: Want) -> Result<Record, AllocError>
        ensures { IfOk result (λ r. r ≡ wanting want self.now) }
    {
        Ok(Record {
            name: self.name.copy()?,
            want,
            flag: self.flag,
            state: self.state,
            version: self.version.copy()?,
            config_version: copied_version(&self.config_version)?,
            removed_since: self.removed_since,
            conffiles: self.conffiles.copy()?,
            pending: self.pending.copy()?,
            triggers: self.triggers.copy()?,
            fields: self.fields.copy()?,
        })
    }

    /// The same once a removal has reached the package's files.
    pub fn removed(&self) -> Result<Record, AllocError>
        ensures { IfOk result (λ r. r ≡ removed self.now) }
    {
        Ok(Record {
            name: self.name.copy()?,
            want: self.want,
            flag: self.flag,
            state: self.state,
            version: self.version.copy()?,
            config_version: copied_version(&self.config_version)?,
            removed_since: true,
            conffiles: self.conffiles.copy()?,
            pending: self.pending.copy()?,
            triggers: self.triggers.copy()?,
            fields: self.fields.copy()?,
        })
    }

    /// The same of an installed package: its version was configured last, and no removal has reached
    /// its files since.
    pub fn configured(&self) -> Result<Record, AllocError>
        ensures { IfOk result (λ r. r ≡ configured self.now) }
    {
        Ok(Record {
            name: self.name.copy()?,
            want: self.want,
            flag: Flag::Ok,
            state: State::Installed,
            version: self.version.copy()?,
            config_version: None,
            removed_since: false,
            conffiles: self.conffiles.copy()?,
            pending: self.pending.copy()?,
            triggers: self.triggers.copy()?,
            fields: self.fields.copy()?,
        })
    }

    /// The same with other conffiles.
    pub fn with_conffiles(
        &self,
        conffiles: ConffileEntries,
        pending: PendingDigests,
    ) -> Result<Record, AllocError>
        ensures { IfOk result (λ r. r ≡ with_conffiles conffiles pending self.now) }
    {
        Ok(Record {
            name: self.name.copy()?,
            want: self.want,
            flag: self.flag,
            state: self.state,
            version: self.version.copy()?,
            config_version: copied_version(&self.config_version)?,
            removed_since: self.removed_since,
            conffiles,
            pending,
            triggers: self.triggers.copy()?,
            fields: self.fields.copy()?,
        })
    }

    /// The record of an unpacked package, wanted installed: what an earlier record tells of the last
    /// configuration stays.
    pub fn unpacked(
        alloc: Global,
        name: &Text,
        version: &Version,
        control: &Paragraph,
        old: Option<&Record>,
        conffiles: ConffileEntries,
        pending: PendingDigests,
    ) -> Result<Record, AllocError>
        requires named { is_package_name name.now ≡ true }
        requires written { ∥ AreFields [] control.now ∥₁ }
        requires readable { ∥ AllByRecursion IsReadableControl control.now ∥₁ }
        ensures { IfOk result (IsUnpackedOf name.now version.now control.now
            (option_copied old.entry) conffiles pending) }
    {
        Ok(Record {
            name: name.copy()?,
            want: Want::Install,
            flag: Flag::Ok,
            state: State::Unpacked,
            version: version.copy()?,
            config_version: version_beside(State::Unpacked, last_of(old))?,
            removed_since: removed_of(old),
            conffiles,
            pending,
            triggers: Triggers::none(),
            fields: fields_of(alloc, control)?,
        })
    }
}
