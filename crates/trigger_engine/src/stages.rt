// The stages of processing the triggers of a package.
ghost use Rattle.std.specs.Prelude.{◌≡◌, ◌∷◌, [], true, IfOk, codes};
ghost use Rattle.texts.specs.PackageNames.{is_package_name};
ghost use Rattle.status_records.specs.Standings.{configured};
ghost use Rattle.unit_stages.specs.declared.part.Part.TheVariants.{Note};
ghost use Rattle.trigger_engine.specs.Stages.{AreTriggerStages, half, pending_text, quiet_row, triggered_call, triggered_row};

use administration::script_path;
use host_core::{Call, Script, Side};
use status_records::{Record, State, TriggerNames};
use std::alloc::{AllocError, Global};
use std::str;
use texts::{Text, Texts};
use undo_rows::{Owner, Row};
use unit_stages::{Part, Stage};

fn half(entry: &Record) -> Result<Record, AllocError>
    ensures { IfOk result (λ r. r ≡ half entry.now) }
{
    entry.standing_as(entry.flag, State::HalfConfigured)
}

// The names as one text.
fn names_text(alloc: Global, names: &TriggerNames) -> Result<Text, AllocError>
    ensures { IfOk result (λ text. text ≡ names.now) }
{
    Text::from_str(alloc, str::from_utf8(names.text()).unwrap())
}

fn pending_text(alloc: Global, entry: &Record) -> Result<Text, AllocError>
    ensures { IfOk result (λ text. text ≡ pending_text entry.now.triggers.pending) }
{
    match &entry.triggers.pending {
        Some(names) => names_text(alloc, names),
        None => Text::from_str(alloc, ""),
    }
}

fn triggered_args(alloc: Global, entry: &Record) -> Result<Texts, AllocError>
    ensures { IfOk result (λ args. args ≡ codes "triggered"
        ∷ pending_text entry.now.triggers.pending ∷ []) }
{
    let mut args = Texts::new(alloc);
    args.push(Text::from_str(alloc, "triggered")?)?;
    args.push(pending_text(alloc, entry)?)?;
    Ok(args)
}

fn triggered_call(alloc: Global, entry: &Record) -> Result<Call, AllocError>
    requires { is_package_name entry.now.name ≡ true }
    ensures { IfOk result (λ call. call ≡ triggered_call entry.now) }
{
    Ok(Call {
        side: Side::Old,
        package: entry.name.copy()?,
        script: Script::Postinst,
        at: script_path(alloc, &entry.name, Script::Postinst)?,
        args: triggered_args(alloc, entry)?,
    })
}

fn quiet_row(name: &Text) -> Result<Row, AllocError>
    ensures { IfOk result (λ row. row ≡ quiet_row name.now) }
{
    Ok(Row {
        owner: Owner::Package(name.copy()?),
        forward: None,
        fallback: None,
        undo: None,
    })
}

fn triggered_row(alloc: Global, entry: &Record, stored: bool) -> Result<Row, AllocError>
    requires { is_package_name entry.now.name ≡ true }
    ensures { IfOk result (λ row. row ≡ triggered_row entry.now stored) }
{
    if !stored {
        return quiet_row(&entry.name);
    }
    Ok(Row {
        owner: Owner::Package(entry.name.copy()?),
        forward: Some(triggered_call(alloc, entry)?),
        fallback: None,
        undo: None,
    })
}

// What is done before the call.
fn first_parts(alloc: Global, entry: &Record) -> Result<Vec<Part>, AllocError>
    ensures { IfOk result (λ parts. parts.items ≡ Note (half entry.now) ∷ []) }
{
    let mut parts = Vec::new(alloc);
    parts.push(Part::Note(half(entry)?))?;
    Ok(parts)
}

fn last_parts(alloc: Global, entry: &Record) -> Result<Vec<Part>, AllocError>
    ensures { IfOk result (λ parts. parts.items ≡ Note (configured (half entry.now)) ∷ []) }
{
    let mut parts = Vec::new(alloc);
    let half = half(entry)?;
    parts.push(Part::Note(half.configured()?))?;
    Ok(parts)
}

/// The stages of processing the triggers of a package with this record, where its postinst is stored or isn't.
pub(crate) fn stages_of(
    alloc: Global,
    entry: &Record,
    stored: bool,
) -> Result<Vec<Stage>, AllocError>
    requires { is_package_name entry.now.name ≡ true }
    ensures { IfOk result (λ stages. AreTriggerStages entry.now stored stages.items) }
{
    let mut stages = Vec::new(alloc);
    stages.push(Stage {
        parts: first_parts(alloc, entry)?,
        row: triggered_row(alloc, entry, stored)?,
        restore: Vec::new(alloc),
    })?;
    stages.push(Stage {
        parts: last_parts(alloc, entry)?,
        row: quiet_row(&entry.name)?,
        restore: Vec::new(alloc),
    })?;
    Ok(stages)
}
