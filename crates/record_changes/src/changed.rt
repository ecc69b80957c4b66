// What is changed of a record.
ghost use Rattle.std.specs.Prelude.{◌≡◌, ◌⊎◌, [], true, map, MatchBool, IfOk, OnOk};
ghost use Rattle.std.specs.List.{list_all};
ghost use Rattle.record_changes.specs.Activated.{IsMade, activated, awaiting, awaiting_triggers, changed, has_name, kept_beside, pending_text, with_name, with_names, with_pending, words_of};
ghost use Rattle.status_records.specs.TriggerNames.{are_trigger_names};
ghost use Rattle.status_records.specs.Words.{is_installed};

use crate::change::Change;
use status_records::{Record, State, TriggerNames, Triggers, Want};
use std::alloc::{AllocError, Global};

fn is_same(one: Want, other: Want) -> bool
    ensures { MatchBool result (one ≡ other) (one ≡ other → ⊥) }
{
    one.name() == other.name()
}

fn are_same(one: &Option<TriggerNames>, other: &Option<TriggerNames>) -> bool
    ensures { MatchBool result (one.now ≡ other.now) (one.now ≡ other.now → ⊥) }
{
    match (one, other) {
        (Some(one), Some(other)) => one.text() == other.text(),
        (Some(_), None) => false,
        (None, Some(_)) => false,
        (None, None) => true,
    }
}

fn words_of(alloc: Global, text: &[u8]) -> Result<Vec<&[u8]>, AllocError>
    ensures { IfOk result (λ words. map (λ w. w.now) words.items ≡ words_of text.now) }
{
    text.split(|byte| *byte == b' ').collect(alloc)
}

fn has_name(text: &[u8], name: &[u8]) -> bool
    ensures { result ≡ has_name text.now name.now }
{
    name.is_empty() || text.split(|byte| *byte == b' ').any(|word| name == word)
}

/// Puts a name behind those of a text, where it isn't one of them.
pub(crate) fn add_name(text: &mut Vec<u8>, name: &[u8]) -> Result<(), AllocError>
    ensures { OnOk result (text.new.items ≡ with_name text.old.items name.now) }
{
    if has_name(text.as_slice(), name) {
        return Ok(());
    }
    if !text.is_empty() {
        text.push(b' ')?;
    }
    text.extend_from_slice(name)?;
    Ok(())
}

fn with_names(alloc: Global, text: &[u8], names: &[u8]) -> Result<Vec<u8>, AllocError>
    ensures { IfOk result (λ all. all.items ≡ with_names text.now (words_of names.now)) }
{
    let words = words_of(alloc, names)?;
    let mut all = Vec::from_slice(alloc, text)?;
    for word in &words {
        add_name(&mut all, word)?;
    }
    Ok(all)
}

fn pending_text(triggers: &Triggers) -> &[u8]
    ensures text { result.now ≡ pending_text triggers.now.pending }
    ensures names { (result.now ≡ []) ⊎ (are_trigger_names result.now ≡ true) }
{
    match &triggers.pending {
        Some(names) => names.text(),
        None => &[],
    }
}

fn are_pending(triggers: &Triggers, names: &[u8]) -> bool
    ensures { result ≡ list_all (has_name (pending_text triggers.now.pending)) (words_of
        names.now) }
{
    let text = pending_text(triggers);
    names
        .split(|byte| *byte == b' ')
        .all(|name| has_name(text, name))
}

/// Whether nothing is to be done for a change of a record.
pub(crate) fn is_made(asked: &Change, entry: &Record) -> bool
    ensures { MatchBool result (IsMade asked.now entry.now) (IsMade asked.now entry.now → ⊥) }
{
    match asked {
        Change::Want(want) => is_same(entry.want, *want),
        Change::Activate(names) => {
            !entry.state.is_installed() || are_pending(&entry.triggers, names.text())
        }
        Change::Abandon(_) => !entry.triggers.pending.is_some(),
        Change::Await(names) => are_same(&entry.triggers.awaited, names),
    }
}

fn with_pending(
    alloc: Global,
    triggers: &Triggers,
    names: &TriggerNames,
) -> Result<Triggers, AllocError>
    ensures { IfOk result (λ all. all ≡ with_pending names.now triggers.now) }
{
    let all = with_names(alloc, pending_text(triggers), names.text())?;
    let pending = TriggerNames::read(alloc, all.as_slice())?;
    let kept = triggers.copy()?;
    Ok(Triggers {
        pending,
        awaited: kept.awaited,
    })
}

// The record of an installed package, activated.
fn activated(alloc: Global, entry: &Record, names: &TriggerNames) -> Result<Record, AllocError>
    requires { is_installed entry.now.state ≡ true }
    ensures { IfOk result (λ r. r ≡ activated names.now entry.now) }
{
    let triggers = with_pending(alloc, &entry.triggers, names)?;
    let kept = entry.copy()?;
    Ok(Record {
        name: kept.name,
        want: kept.want,
        flag: kept.flag,
        state: kept.state,
        version: kept.version,
        config_version: kept.config_version,
        removed_since: kept.removed_since,
        conffiles: kept.conffiles,
        pending: kept.pending,
        triggers,
        fields: kept.fields,
    })
}

fn copied_names(names: &Option<TriggerNames>) -> Result<Option<TriggerNames>, AllocError>
    ensures { IfOk result (λ copy. copy ≡ names.now) }
{
    match names {
        Some(names) => Ok(Some(names.copy()?)),
        None => Ok(None),
    }
}

fn awaiting_triggers(entry: &Record, names: &Option<TriggerNames>) -> Result<Triggers, AllocError>
    ensures { IfOk result (λ t. t ≡ awaiting_triggers names.now entry.now) }
{
    match entry.state {
        State::NotInstalled | State::ConfigFiles => Ok(Triggers::none()),
        State::HalfInstalled | State::Unpacked | State::HalfConfigured => Ok(Triggers {
            pending: None,
            awaited: copied_names(names)?,
        }),
        State::Installed => Ok(Triggers {
            pending: copied_names(&entry.triggers.pending)?,
            awaited: copied_names(names)?,
        }),
    }
}

// What is kept of a record beside other triggers: with them its package may be configured.
fn kept_beside(entry: &Record, triggers: &Triggers) -> Result<Record, AllocError>
    ensures { IfOk result (λ kept. kept ≡ kept_beside triggers.now entry.now) }
{
    if entry.state.is_installed() && !triggers.awaited.is_some() {
        return entry.standing_as(entry.flag, entry.state);
    }
    entry.copy()
}

// The record of a package that awaits what is pending of these.
fn awaiting(entry: &Record, names: &Option<TriggerNames>) -> Result<Record, AllocError>
    ensures { IfOk result (λ r. r ≡ awaiting names.now entry.now) }
{
    let triggers = awaiting_triggers(entry, names)?;
    let kept = kept_beside(entry, &triggers)?;
    Ok(Record {
        name: kept.name,
        want: kept.want,
        flag: kept.flag,
        state: kept.state,
        version: kept.version,
        config_version: kept.config_version,
        removed_since: kept.removed_since,
        conffiles: kept.conffiles,
        pending: kept.pending,
        triggers,
        fields: kept.fields,
    })
}

/// The record, changed, where that isn't made already.
pub(crate) fn changed(alloc: Global, asked: &Change, entry: &Record) -> Result<Record, AllocError>
    requires { IsMade asked.now entry.now → ⊥ }
    ensures { IfOk result (λ r. r ≡ changed asked.now entry.now) }
{
    match asked {
        Change::Want(want) => entry.wanting(*want),
        Change::Activate(names) => activated(alloc, entry, names),
        Change::Abandon(_) => entry.standing_as(entry.flag, State::HalfConfigured),
        Change::Await(names) => awaiting(entry, names),
    }
}
