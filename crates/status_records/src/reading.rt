// Reading the status file's text.
ghost use Rattle.std.specs.Prelude.{◌≡◌, ◌≢◌, ◌⊎◌, ◌↔◌, ◌++◌, ◌∷◌, [], ℕ, List, true, None, Some, IfOk, IfErr, IfSome, IfNone, OnOk, IsTrue, MatchOption, codes, option_copied, is_some, not, false};
ghost use Rattle.std.specs.List.{list_any, AllByRecursion};
ghost use Rattle.std.specs.Option.{option_to_list};
ghost use Rattle.std.specs.Str.{bytes_eq};
ghost use Rattle.control_fields.specs.Spelling.{AreFields};
ghost use Rattle.control_fields.specs.Grammar.{paragraphs_of};
ghost use Rattle.texts.specs.PackageNames.{is_package_name};
ghost use Rattle.version_order.specs.Versions.{IsVersion};
ghost use Rattle.status_records.specs.declared.words.Want.{Want as AWant};
ghost use Rattle.status_records.specs.declared.words.Flag.{Flag as AFlag};
ghost use Rattle.status_records.specs.declared.words.StateWord.{StateWord as AWord};
ghost use Rattle.status_records.specs.declared.reading.StatusFault.TheVariants.{NoMemory};
ghost use Rattle.status_records.specs.Words.{status_text, state_of, agrees, disagrees};
ghost use Rattle.status_records.specs.Fields.{recorded_fields};
ghost use Rattle.status_records.specs.Records.{AreApart, standing};
ghost use Rattle.status_records.specs.Values.{kind_of, IsReadable};
ghost use Rattle.status_records.specs.declared.values.Kind.TheVariants as Kind;
ghost use Rattle.status_records.specs.Paragraphs.{field_in, line_of, Says, IsNamed, IsGone, is_configured_in, earlier_version, conffile_lines, pending_lines, AreConffilesOf, ArePendingOf, IsEntry, SaysEntry, Enters};
ghost use Rattle.status_records.specs.Damage.{IsMissing, IsTaken, AreAmiss, IsFaultyWhole, IsBadField, HasLines, line_in};
ghost use Rattle.status_records.specs.Faults.{IsEntryFault, IsTableFault, IsTextFault, IsEndFault, IsSound};
ghost use Rattle.status_records.specs.Status.{IsStatus};

use crate::conffile_lists::{ConffileEntries, PendingDigests};
use crate::conffile_reading::{conffiles_of, lines_in, pending_digests_of};
use crate::names::Names;
use crate::record::{Record, recorded_fields};
use crate::trigger_names::TriggerNames;
use crate::triggers::Triggers;
use crate::values::{Status, is_readable, one_line, read_status, read_version};
use crate::words::{State, StateWord};
use control_fields::{ControlFault, Field, Located, Paragraph, read_located};
use std::alloc::{AllocError, AllocFailed, Global};
use texts::{Text, package_name};
use version_order::Version;

/// Why the text has no records: its first faulty line.
#[derive(Clone, Copy)]
pub enum StatusFault {
    Line(u64),
    NoMemory,
}

impl From<AllocError> for StatusFault {
    ghost from_gives = { λ _ e. e ≡ NoMemory };

    fn from(_: AllocError) -> Self {
        StatusFault::NoMemory
    }
}

impl<T: Drop> From<AllocFailed<T>> for StatusFault {
    ghost from_gives = { λ _ e. e ≡ NoMemory };

    fn from(_: AllocFailed<T>) -> Self {
        StatusFault::NoMemory
    }
}

/// The field of a name, which is given in lower case.
pub(crate) fn field_in<'a>(fields: &'a Paragraph, lower: &[u8]) -> Option<&'a Field>
    ensures { option_copied result ≡ field_in lower.now fields.now }
{
    fields.get(lower)
}

// The value of a field that stands on one line.
fn value_in<'a>(fields: &'a Paragraph, lower: &[u8]) -> Option<&'a [u8]>
    ensures some { IfSome result (λ value. Says lower.now fields.now value.now) }
    ensures none { IfNone result ((value : List ℕ) → Says lower.now fields.now value → ⊥) }
{
    match field_in(fields, lower) {
        Some(field) => one_line(field),
        None => None,
    }
}

fn name_in(fields: &Paragraph) -> Option<&str>
    ensures some { IfSome result (λ name. IsNamed fields.now name.now) }
    ensures none { IfNone result ((name : List ℕ) → IsNamed fields.now name → ⊥) }
{
    match value_in(fields, b"package") {
        Some(value) => package_name(value),
        None => None,
    }
}

fn status_in(fields: &Paragraph) -> Option<Status>
    ensures some { IfSome result (λ s. Says (codes "status") fields.now (status_text s.want s.flag
        s.word)) }
    ensures none { IfNone result ((want : AWant) (flag : AFlag) (word : AWord)
        → Says (codes "status") fields.now (status_text want flag word) → ⊥) }
{
    match value_in(fields, b"status") {
        Some(value) => read_status(value),
        None => None,
    }
}

fn is_gone(fields: &Paragraph) -> bool
    ensures { IsTrue result ↔ IsGone fields.now }
{
    match status_in(fields) {
        Some(status) => status.word.state().is_not_installed(),
        None => false,
    }
}

fn version_in(alloc: Global, fields: &Paragraph) -> Result<Option<Version>, AllocError>
    ensures some { IfOk result (λ o. IfSome o (λ v. Says (codes "version") fields.now v
        × IsVersion v)) }
    ensures none { IfOk result (λ o. IfNone o ((v : List ℕ) → Says (codes "version") fields.now v
        × IsVersion v → ⊥)) }
{
    match value_in(fields, b"version") {
        Some(value) => read_version(alloc, value),
        None => Ok(None),
    }
}

fn is_missing(fields: &Paragraph) -> bool
    ensures { IsTrue result ↔ IsMissing fields.now }
{
    if field_in(fields, b"package").is_none() || field_in(fields, b"status").is_none() {
        return true;
    }
    field_in(fields, b"version").is_none() && !is_gone(fields)
}

fn is_taken(names: &Names, fields: &Paragraph) -> bool
    ensures { IsTrue result ↔ IsTaken names.now fields.now }
{
    match name_in(fields) {
        Some(name) => names.has(name),
        None => false,
    }
}

// Whether a word of a state disagrees with the triggers that stand beside it.
fn is_amiss_beside(word: StateWord, fields: &Paragraph) -> bool
    ensures { result ≡ disagrees word (is_some (field_in (codes "triggers-pending") fields.now))
        (is_some (field_in (codes "triggers-awaited") fields.now)) }
{
    let pending = field_in(fields, b"triggers-pending").is_some();
    let awaited = field_in(fields, b"triggers-awaited").is_some();
    !word.state().is_not_installed() && !word.agrees(pending, awaited)
}

fn are_amiss(fields: &Paragraph) -> bool
    ensures { IsTrue result ↔ AreAmiss fields.now }
{
    match status_in(fields) {
        Some(status) => is_amiss_beside(status.word, fields),
        None => false,
    }
}

fn is_taken_or_amiss(names: &Names, fields: &Paragraph) -> bool
    ensures { IsTrue result ↔ (IsTaken names.now fields.now ⊎ AreAmiss fields.now) }
{
    is_taken(names, fields) || are_amiss(fields)
}

fn is_faulty_whole(names: &Names, fields: &Paragraph) -> bool
    ensures { IsTrue result ↔ IsFaultyWhole names.now fields.now }
{
    is_missing(fields) || is_taken_or_amiss(names, fields)
}

/// The line of the first field whose value can't be read.
pub fn first_bad(alloc: Global, located: &Located) -> Result<Option<u64>, AllocError>
    requires { HasLines located.now }
    ensures { IfOk result (λ o. MatchOption o (AllByRecursion IsReadable located.now.paragraph)
        (IsBadField located.now)) }
{
    let mut index: usize = 0;
    for field in located.paragraph.fields() {
        let good = is_readable(alloc, field)?;
        if !good {
            return Ok(Some(located.line_of(index)));
        }
        index += 1;
    }
    Ok(None)
}

/// A paragraph's package, and its record unless it is gone.
#[derive(Drop)]
pub struct Entry {
    pub name: Text,
    pub kept: Option<Record>,
}

// What a paragraph says of its package's last configuration, and of its conffiles.
#[derive(Drop)]
struct Earlier {
    config_version: Option<Version>,
    removed_since: bool,
    conffiles: ConffileEntries,
    pending: PendingDigests,
}

// What stands on the own line of the field of a name, which is given in lower case.
fn own_line_in<'a>(fields: &'a Paragraph, lower: &[u8]) -> Option<&'a [u8]>
    ensures { option_copied result ≡ line_of (field_in lower.now fields.now) }
{
    match field_in(fields, lower) {
        Some(field) => Some(field.first.as_slice()),
        None => None,
    }
}

fn is_configured_in(state: State, fields: &Paragraph) -> bool
    ensures { result ≡ is_configured_in state fields.now }
{
    state.is_installed() && field_in(fields, b"triggers-awaited").is_none()
}

// Config-Version, but of an installed package that awaits no triggers.
fn earlier_version(
    alloc: Global,
    state: State,
    fields: &Paragraph,
) -> Result<Option<Version>, AllocError>
    requires { AllByRecursion IsReadable fields.now }
    ensures { IfOk result (λ version. version ≡ earlier_version state fields.now) }
{
    if is_configured_in(state, fields) {
        return Ok(None);
    }
    match own_line_in(fields, b"config-version") {
        Some(value) => read_version(alloc, value),
        None => Ok(None),
    }
}

fn read_earlier(alloc: Global, state: State, fields: &Paragraph) -> Result<Earlier, AllocError>
    requires { AllByRecursion IsReadable fields.now }
    ensures config { IfOk result (λ e. e.config_version ≡ earlier_version state fields.now) }
    ensures removed { IfOk result (λ e. e.removed_since ≡ is_some (field_in (codes "removed-since")
        fields.now)) }
    ensures conffiles { IfOk result (λ e. AreConffilesOf (conffile_lines fields.now) e.conffiles) }
    ensures pending { IfOk result (λ e. ArePendingOf (pending_lines fields.now) e.pending) }
{
    Ok(Earlier {
        config_version: earlier_version(alloc, state, fields)?,
        removed_since: field_in(fields, b"removed-since").is_some(),
        conffiles: conffiles_of(alloc, lines_in(fields, b"conffiles"))?,
        pending: pending_digests_of(alloc, lines_in(fields, b"new-conffiles"))?,
    })
}

// The names that the field of a name says, which is given in lower case.
fn names_in(
    alloc: Global,
    fields: &Paragraph,
    lower: &[u8],
) -> Result<Option<TriggerNames>, AllocError>
    requires readable { AllByRecursion IsReadable fields.now }
    requires kind { kind_of lower.now ≡ Kind.TriggerNames }
    ensures { IfOk result (λ names. names ≡ line_of (field_in lower.now fields.now)) }
{
    match own_line_in(fields, lower) {
        Some(value) => TriggerNames::read(alloc, value),
        None => Ok(None),
    }
}

fn triggers_in(alloc: Global, fields: &Paragraph) -> Result<Triggers, AllocError>
    requires { AllByRecursion IsReadable fields.now }
    ensures pending { IfOk result (λ t. t.pending ≡ line_of (field_in (codes "triggers-pending")
        fields.now)) }
    ensures awaited { IfOk result (λ t. t.awaited ≡ line_of (field_in (codes "triggers-awaited")
        fields.now)) }
{
    Ok(Triggers {
        pending: names_in(alloc, fields, b"triggers-pending")?,
        awaited: names_in(alloc, fields, b"triggers-awaited")?,
    })
}

fn record_of(
    alloc: Global,
    fields: &Paragraph,
    name: &str,
    status: Status,
    version: Version,
) -> Result<Record, AllocError>
    requires named { is_package_name name.now ≡ true }
    requires written { ∥ AreFields [] fields.now ∥₁ }
    requires readable { AllByRecursion IsReadable fields.now }
    requires agree { agrees status.word (is_some (field_in (codes "triggers-pending") fields.now))
        (is_some (field_in (codes "triggers-awaited") fields.now)) ≡ true }
    ensures name { IfOk result (λ r. r.name ≡ name.now) }
    ensures want { IfOk result (λ r. r.want ≡ status.want) }
    ensures flag { IfOk result (λ r. r.flag ≡ status.flag) }
    ensures state { IfOk result (λ r. r.state ≡ state_of status.word) }
    ensures version { IfOk result (λ r. r.version ≡ version) }
    ensures config { IfOk result (λ r. r.config_version ≡ earlier_version (state_of status.word) fields.now) }
    ensures removed { IfOk result (λ r. r.removed_since ≡ is_some (field_in (codes "removed-since")
        fields.now)) }
    ensures conffiles { IfOk result (λ r. AreConffilesOf (conffile_lines fields.now) r.conffiles) }
    ensures pending { IfOk result (λ r. ArePendingOf (pending_lines fields.now) r.pending) }
    ensures triggers_pending { IfOk result (λ r. r.triggers.pending
        ≡ line_of (field_in (codes "triggers-pending") fields.now)) }
    ensures triggers_awaited { IfOk result (λ r. r.triggers.awaited
        ≡ line_of (field_in (codes "triggers-awaited") fields.now)) }
    ensures fields { IfOk result (λ r. r.fields ≡ recorded_fields fields.now) }
{
    let state = status.word.state();
    let Earlier {
        config_version,
        removed_since,
        conffiles,
        pending,
    } = read_earlier(alloc, state, fields)?;
    Ok(Record {
        name: Text::from_str(alloc, name)?,
        want: status.want,
        flag: status.flag,
        state,
        version,
        config_version,
        removed_since,
        conffiles,
        pending,
        triggers: triggers_in(alloc, fields)?,
        fields: recorded_fields(alloc, fields)?,
    })
}

fn read_entry(alloc: Global, fields: &Paragraph) -> Result<Option<Entry>, AllocError>
    requires written { ∥ AreFields [] fields.now ∥₁ }
    requires readable { AllByRecursion IsReadable fields.now }
    requires agree { AreAmiss fields.now → ⊥ }
    ensures some { IfOk result
        (λ o. IfSome o (λ e. SaysEntry fields.now e.name (option_to_list e.kept))) }
    ensures none { IfOk result (λ o. IfNone o (IsMissing fields.now)) }
{
    let Some(name) = name_in(fields) else {
        return Ok(None);
    };
    let Some(status) = status_in(fields) else {
        return Ok(None);
    };
    let package = Text::from_str(alloc, name)?;
    if status.word.state().is_not_installed() {
        return Ok(Some(Entry {
            name: package,
            kept: None,
        }));
    }
    let Some(version) = version_in(alloc, fields)? else {
        return Ok(None);
    };
    let kept = record_of(alloc, fields, name, status, version)?;
    Ok(Some(Entry {
        name: package,
        kept: Some(kept),
    }))
}

/// Judges a paragraph after those of other packages.
pub fn entry_of(alloc: Global, names: &Names, located: &Located) -> Result<Entry, StatusFault>
    requires { IsSound located.now }
    ensures entry { IfOk result (λ e. IsEntry names.now located.now.paragraph e.name
        (option_to_list e.kept)) }
    ensures fault { IfErr result (IsEntryFault names.now located.now) }
{
    if is_faulty_whole(names, &located.paragraph) {
        return Err(StatusFault::Line(located.line));
    }
    if let Some(line) = first_bad(alloc, located)? {
        return Err(StatusFault::Line(line));
    }
    match read_entry(alloc, &located.paragraph)? {
        Some(entry) => Ok(entry),
        None => Err(StatusFault::Line(located.line)),
    }
}

// The names and records of the paragraphs so far.
#[derive(Drop)]
struct Table {
    names: Names,
    records: Vec<Record>,
}

fn enter(table: &mut Table, entry: Entry) -> Result<(), AllocError>
    ensures names { OnOk result (table.new.names ≡ table.old.names ++ entry.name ∷ []) }
    ensures records { OnOk result (table.new.records.items ≡ table.old.records.items
        ++ option_to_list entry.kept) }
{
    let Entry { name, kept } = entry;
    if let Some(kept) = kept {
        table.records.push(kept)?;
    }
    table.names.push(name)
}

fn read_entries(alloc: Global, paragraphs: &[Located]) -> Result<Table, StatusFault>
    requires { AllByRecursion IsSound paragraphs.now }
    ensures entered { IfOk result (λ t. Enters [] [] (paragraphs_of paragraphs.now) t.names
        t.records.items) }
    ensures fault { IfErr result (IsTableFault paragraphs.now) }
{
    let mut table = Table {
        names: Names::new(alloc),
        records: Vec::new(alloc),
    };
    for located in paragraphs {
        let entry = entry_of(alloc, &table.names, located)?;
        enter(&mut table, entry)?;
    }
    Ok(table)
}

/// The line that a fault tells.
pub fn line_in(fault: ControlFault) -> u64
    ensures { result ≡ line_in fault }
{
    match fault {
        ControlFault::NoColon(line)
        | ControlFault::BadName(line)
        | ControlFault::Twice(line)
        | ControlFault::OrphanContinuation(line)
        | ControlFault::NotUtf8(line)
        | ControlFault::Second(line) => line,
        ControlFault::NoMemory => 0,
    }
}

// Judges what the grammar's fault broke off, and the fault.
fn check_end(alloc: Global, begun: &Located, fault: Option<ControlFault>) -> Result<(), StatusFault>
    requires { HasLines begun.now }
    ensures none { OnOk result (fault ≡ None) }
    ensures fault { IfErr result (IsEndFault begun.now fault) }
{
    if let Some(line) = first_bad(alloc, begun)? {
        return Err(StatusFault::Line(line));
    }
    match fault {
        Some(fault) => Err(StatusFault::Line(line_in(fault))),
        None => Ok(()),
    }
}

/// The records of the status file's text.
pub fn read_text(alloc: Global, bytes: &[u8]) -> Result<Vec<Record>, StatusFault>
    ensures records { IfOk result (λ rs. ∥ IsStatus bytes.now rs.items ∥₁) }
    ensures apart { IfOk result (λ rs. AreApart rs.items) }
    ensures standing { IfOk result (λ rs. standing rs.items ≡ rs.items) }
    ensures fault { IfErr result (IsTextFault bytes.now) }
{
    let text = read_located(alloc, bytes)?;
    let table = read_entries(alloc, text.paragraphs.as_slice())?;
    check_end(alloc, &text.begun, text.fault)?;
    Ok(table.records)
}
