// Reading the values of fields.
ghost use Rattle.std.specs.Prelude.{◌≡◌, ◌≢◌, ◌↔◌, ◌++◌, ◌∷◌, [], ℕ, List, IfOk, IfSome, IfNone, IsTrue, MatchOption};
ghost use Rattle.control_fields.specs.Names.{lower};
ghost use Rattle.version_order.specs.Versions.{IsVersion};
ghost use Rattle.status_records.specs.declared.words.Want.{Want as AWant};
ghost use Rattle.status_records.specs.declared.words.Flag.{Flag as AFlag};
ghost use Rattle.status_records.specs.declared.words.StateWord.{StateWord as AWord};
ghost use Rattle.status_records.specs.Words.{want_word, flag_word, state_word, status_text, IsStatusText};
ghost use Rattle.status_records.specs.Values.{kind_of, control_kind, relation_kind, IsReadableAs, IsReadable};

use crate::conffile_fields::{is_conffile_field, is_pending_field};
use crate::trigger_names::are_trigger_names;
use crate::words::{Flag, StateWord, Want};
use control_fields::Field;
use relation_fields::RelationField;
use std::alloc::{AllocError, Global};
use texts::package_name;
use version_order::{Version, VersionFault};

/// The three words of a Status.
#[derive(Clone, Copy)]
pub(crate) struct Status {
    pub(crate) want: Want,
    pub(crate) flag: Flag,
    pub(crate) word: StateWord,
}

fn after_blank(bytes: &[u8]) -> Option<&[u8]>
    ensures some { IfSome result (λ rest. bytes.now ≡ 32 ∷ rest.now) }
    ensures none { IfNone result ((rest : List ℕ) → bytes.now ≢ 32 ∷ rest) }
{
    match bytes {
        [b' ', rest @ ..] => Some(rest),
        _ => None,
    }
}

fn after_text<'a>(bytes: &'a [u8], text: &str) -> Option<&'a [u8]>
    ensures some { IfSome result (λ rest. bytes.now ≡ text.now ++ rest.now) }
    ensures none { IfNone result ((rest : List ℕ) → bytes.now ≢ text.now ++ rest) }
{
    bytes.strip_prefix(text.as_bytes())
}

// What stands behind a word and a blank.
fn after_word<'a>(bytes: &'a [u8], word: &str) -> Option<&'a [u8]>
    ensures some { IfSome result (λ rest. bytes.now ≡ word.now ++ 32 ∷ rest.now) }
    ensures none { IfNone result ((rest : List ℕ) → bytes.now ≢ word.now ++ 32 ∷ rest) }
{
    match after_text(bytes, word) {
        Some(rest) => after_blank(rest),
        None => None,
    }
}

fn read_want(bytes: &[u8]) -> Option<(Want, &[u8])>
    ensures some { IfSome result (λ r. bytes.now ≡ want_word r.0 ++ 32 ∷ r.1.now) }
    ensures none { IfNone result ((want : AWant) (rest : List ℕ) → bytes.now ≢ want_word want ++ 32
        ∷ rest) }
{
    if let Some(rest) = after_word(bytes, Want::Unknown.name()) {
        return Some((Want::Unknown, rest));
    }
    if let Some(rest) = after_word(bytes, Want::Install.name()) {
        return Some((Want::Install, rest));
    }
    if let Some(rest) = after_word(bytes, Want::Hold.name()) {
        return Some((Want::Hold, rest));
    }
    if let Some(rest) = after_word(bytes, Want::Deinstall.name()) {
        return Some((Want::Deinstall, rest));
    }
    if let Some(rest) = after_word(bytes, Want::Purge.name()) {
        return Some((Want::Purge, rest));
    }
    None
}

fn read_flag(bytes: &[u8]) -> Option<(Flag, &[u8])>
    ensures some { IfSome result (λ r. bytes.now ≡ flag_word r.0 ++ 32 ∷ r.1.now) }
    ensures none { IfNone result ((flag : AFlag) (rest : List ℕ) → bytes.now ≢ flag_word flag ++ 32
        ∷ rest) }
{
    if let Some(rest) = after_word(bytes, Flag::Ok.name()) {
        return Some((Flag::Ok, rest));
    }
    if let Some(rest) = after_word(bytes, Flag::Reinstreq.name()) {
        return Some((Flag::Reinstreq, rest));
    }
    None
}

fn is_word(bytes: &[u8], word: StateWord) -> bool
    ensures { IsTrue result ↔ (bytes.now ≡ state_word word) }
{
    bytes == word.name().as_bytes()
}

fn read_word(bytes: &[u8]) -> Option<StateWord>
    ensures some { IfSome result (λ word. bytes.now ≡ state_word word) }
    ensures none { IfNone result ((word : AWord) → bytes.now ≢ state_word word) }
{
    if is_word(bytes, StateWord::NotInstalled) {
        return Some(StateWord::NotInstalled);
    }
    if is_word(bytes, StateWord::ConfigFiles) {
        return Some(StateWord::ConfigFiles);
    }
    if is_word(bytes, StateWord::HalfInstalled) {
        return Some(StateWord::HalfInstalled);
    }
    if is_word(bytes, StateWord::Unpacked) {
        return Some(StateWord::Unpacked);
    }
    if is_word(bytes, StateWord::HalfConfigured) {
        return Some(StateWord::HalfConfigured);
    }
    if is_word(bytes, StateWord::TriggersAwaited) {
        return Some(StateWord::TriggersAwaited);
    }
    if is_word(bytes, StateWord::TriggersPending) {
        return Some(StateWord::TriggersPending);
    }
    if is_word(bytes, StateWord::Installed) {
        return Some(StateWord::Installed);
    }
    None
}

/// The words of a Status, with one blank between two.
pub(crate) fn read_status(bytes: &[u8]) -> Option<Status>
    ensures some { IfSome result (λ s. bytes.now ≡ status_text s.want s.flag s.word) }
    ensures none { IfNone result (IsStatusText bytes.now → ⊥) }
{
    let Some((want, behind_want)) = read_want(bytes) else {
        return None;
    };
    let Some((flag, behind_flag)) = read_flag(behind_want) else {
        return None;
    };
    match read_word(behind_flag) {
        Some(word) => Some(Status { want, flag, word }),
        None => None,
    }
}

/// The version that a value is.
pub(crate) fn read_version(alloc: Global, value: &[u8]) -> Result<Option<Version>, AllocError>
    ensures { IfOk result (λ o. MatchOption o (IsVersion value.now → ⊥) (λ v. (v ≡ value.now)
        × IsVersion value.now)) }
{
    match Version::parse(alloc, value) {
        Ok(version) => Ok(Some(version)),
        Err(VersionFault::NoMemory) => Err(AllocError),
        Err(_) => Ok(None),
    }
}

/// What the value of a field has to be.
#[derive(Clone, Copy)]
pub(crate) enum Kind {
    PackageName,
    StatusWords,
    VersionText,
    Yes,
    ConffileLines,
    PendingLines,
    TriggerNames,
    YesOrNo,
    Relation(RelationField),
    Any,
}

fn relation_kind(name: &[u8]) -> Kind
    ensures { result ≡ relation_kind (lower name.now) }
{
    match RelationField::called(name) {
        Some(relation) => Kind::Relation(relation),
        None => Kind::Any,
    }
}

fn control_kind(name: &[u8]) -> Kind
    ensures { result ≡ control_kind (lower name.now) }
{
    if name.eq_ignore_ascii_case(b"essential") {
        return Kind::YesOrNo;
    }
    relation_kind(name)
}

fn kind_of(name: &[u8]) -> Kind
    ensures { result ≡ kind_of (lower name.now) }
{
    if name.eq_ignore_ascii_case(b"package") {
        return Kind::PackageName;
    }
    if name.eq_ignore_ascii_case(b"status") {
        return Kind::StatusWords;
    }
    if name.eq_ignore_ascii_case(b"version") {
        return Kind::VersionText;
    }
    if name.eq_ignore_ascii_case(b"config-version") {
        return Kind::VersionText;
    }
    if name.eq_ignore_ascii_case(b"removed-since") {
        return Kind::Yes;
    }
    if name.eq_ignore_ascii_case(b"conffiles") {
        return Kind::ConffileLines;
    }
    if name.eq_ignore_ascii_case(b"new-conffiles") {
        return Kind::PendingLines;
    }
    if name.eq_ignore_ascii_case(b"triggers-pending") {
        return Kind::TriggerNames;
    }
    if name.eq_ignore_ascii_case(b"triggers-awaited") {
        return Kind::TriggerNames;
    }
    control_kind(name)
}

/// The value of a field that stands on one line.
pub(crate) fn one_line(field: &Field) -> Option<&[u8]>
    ensures some { IfSome result (λ value. (field.now.more ≡ []) × (field.now.first ≡ value.now)) }
    ensures none { IfNone result (field.now.more ≡ [] → ⊥) }
{
    if !field.more.as_slice().is_empty() {
        return None;
    }
    Some(field.first.as_slice())
}

fn is_package_name(field: &Field) -> bool
    ensures { IsTrue result ↔ IsReadableAs Kind.PackageName field.now }
{
    match one_line(field) {
        Some(value) => package_name(value).is_some(),
        None => false,
    }
}

fn is_status(field: &Field) -> bool
    ensures { IsTrue result ↔ IsReadableAs Kind.StatusWords field.now }
{
    match one_line(field) {
        Some(value) => read_status(value).is_some(),
        None => false,
    }
}

fn is_version(alloc: Global, field: &Field) -> Result<bool, AllocError>
    ensures { IfOk result (λ good. IsTrue good ↔ IsReadableAs Kind.VersionText field.now) }
{
    match one_line(field) {
        Some(value) => Ok(read_version(alloc, value)?.is_some()),
        None => Ok(false),
    }
}

fn is_yes(field: &Field) -> bool
    ensures { IsTrue result ↔ IsReadableAs Kind.Yes field.now }
{
    match one_line(field) {
        Some(value) => value == b"yes".as_slice(),
        None => false,
    }
}

fn is_names_field(field: &Field) -> bool
    ensures { IsTrue result ↔ IsReadableAs Kind.TriggerNames field.now }
{
    match one_line(field) {
        Some(value) => are_trigger_names(value),
        None => false,
    }
}

fn is_relation(alloc: Global, relation: RelationField, field: &Field) -> Result<bool, AllocError>
    ensures { IfOk result (λ good. IsTrue good ↔ IsReadableAs (Kind.Relation relation) field.now) }
{
    let value = field.value(alloc)?;
    relation.is_value(alloc, value.as_slice())
}

/// Whether the value of a field can be read.
pub(crate) fn is_readable(alloc: Global, field: &Field) -> Result<bool, AllocError>
    ensures { IfOk result (λ good. IsTrue good ↔ IsReadable field.now) }
{
    match kind_of(field.name.as_slice()) {
        Kind::PackageName => Ok(is_package_name(field)),
        Kind::StatusWords => Ok(is_status(field)),
        Kind::VersionText => is_version(alloc, field),
        Kind::Yes => Ok(is_yes(field)),
        Kind::ConffileLines => is_conffile_field(alloc, field),
        Kind::PendingLines => is_pending_field(alloc, field),
        Kind::TriggerNames => Ok(is_names_field(field)),
        Kind::YesOrNo => Ok(field.is_yes_or_no()),
        Kind::Relation(relation) => is_relation(alloc, relation, field),
        Kind::Any => Ok(true),
    }
}
