// What is pending, as records tell of it.
ghost use Rattle.std.specs.Prelude.{◌≡◌, ◌++◌, filter, map, true, IfOk, OnOk};
ghost use Rattle.record_changes.specs.Activated.{pending_text, words_of};
ghost use Rattle.status_records.specs.TriggerNames.{are_trigger_names};
ghost use Rattle.record_changes.specs.Pending.{is_name, names_in, pending_by, pending_of, pending_triggers};

use status_db::NotedDatabase;
use status_records::{Record, TriggerNames, Triggers};
use std::alloc::{AllocError, Global};
use std::str;
use texts::{Text, Texts};

/// A trigger that a package is to process.
#[derive(Drop)]
pub struct PendingTrigger {
    pub package: Text,
    pub trigger: Text,
}

pub(crate) fn names_text(names: &TriggerNames) -> &str
    ensures text { result.now ≡ names.now }
    ensures names { are_trigger_names names.now ≡ true }
{
    str::from_utf8(names.text()).unwrap()
}

fn pending_text(triggers: &Triggers) -> &str
    ensures { result.now ≡ pending_text triggers.now.pending }
{
    match &triggers.pending {
        Some(names) => names_text(names),
        None => "",
    }
}

fn words_of(alloc: Global, text: &str) -> Result<Vec<&str>, AllocError>
    ensures { IfOk result (λ words. map (λ w. w.now) words.items ≡ words_of text.now) }
{
    text.split(' ').collect(alloc)
}

fn names_among(alloc: Global, words: &[&str]) -> Result<Texts, AllocError>
    ensures { IfOk result (λ names. names ≡ filter is_name (map (λ w. w.now) words.now)) }
{
    let mut names = Texts::new(alloc);
    for word in words {
        if !word.is_empty() {
            names.push(Text::from_str(alloc, word)?)?;
        }
    }
    Ok(names)
}

/// The names of a text, in their order.
pub(crate) fn names_in(alloc: Global, text: &str) -> Result<Texts, AllocError>
    ensures { IfOk result (λ names. names ≡ names_in text.now) }
{
    let words = words_of(alloc, text)?;
    names_among(alloc, words.as_slice())
}

fn push_pending(
    found: &mut Vec<PendingTrigger>,
    package: &Text,
    names: &[Text],
) -> Result<(), AllocError>
    ensures { OnOk result (found.new.items ≡ found.old.items ++ map (pending_by «package».now)
        names.now) }
{
    for name in names {
        found.push(PendingTrigger {
            package: package.copy()?,
            trigger: name.copy()?,
        })?;
    }
    Ok(())
}

fn push_pending_of(
    alloc: Global,
    found: &mut Vec<PendingTrigger>,
    entry: &Record,
) -> Result<(), AllocError>
    ensures { OnOk result (found.new.items ≡ found.old.items ++ pending_of entry.now) }
{
    let names = names_in(alloc, pending_text(&entry.triggers))?;
    push_pending(found, &entry.name, names.as_slice())
}

/// Each trigger that is pending of a package: the packages in name order, and of each the triggers in the order of its record.
pub fn pending_triggers(
    alloc: Global,
    database: &NotedDatabase,
) -> Result<Vec<PendingTrigger>, AllocError>
    ensures { IfOk result (λ found. found.items ≡ pending_triggers database.now.records) }
{
    let mut found = Vec::new(alloc);
    for entry in database.records() {
        push_pending_of(alloc, &mut found, entry)?;
    }
    Ok(found)
}
