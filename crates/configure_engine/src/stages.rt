// The stages of configuring a package.
ghost use Rattle.std.specs.Prelude.{◌≡◌, ◌++◌, ◌∷◌, [], not, true, cond, Some, None, IfOk, OnOk, codes};
ghost use Rattle.std.specs.List.{list_any};
ghost use Rattle.std.specs.Str.{bytes_eq};
ghost use Rattle.texts.specs.PackageNames.{is_package_name};
ghost use Rattle.status_records.specs.Configured.{last_configured};
ghost use Rattle.status_records.specs.Standings.{configured};
ghost use Rattle.unit_stages.specs.declared.part.Part.TheVariants.{Note};
ghost use Rattle.configure_engine.specs.Settled.{settled as settled_record};
ghost use Rattle.configure_engine.specs.Stages.{half, last_text, list_parts, listed_without, postinst_call, postinst_row, quiet_row, AreConfigureStages, AreFirstParts};

use crate::settled::settled;
use crate::waiting::going_paths;
use administration::script_path;
use conffiles::Settled;
use file_lists::Paths;
use host_core::{Call, RootPath, Script, ShipPath, Side};
use status_records::{Record, State};
use std::alloc::{AllocError, Global};
use texts::{Text, Texts};
use undo_rows::{Owner, Row};
use unit_stages::{Part, Stage};

fn half(entry: &Record) -> Result<Record, AllocError>
    ensures { IfOk result (λ r. r ≡ half entry.now) }
{
    entry.standing_as(entry.flag, State::HalfConfigured)
}

fn last_text(alloc: Global, entry: &Record) -> Result<Text, AllocError>
    ensures { IfOk result (λ text. text ≡ last_text (last_configured entry.now)) }
{
    match entry.last_configured() {
        Some(version) => Text::from_str(alloc, version.text()),
        None => Text::from_str(alloc, ""),
    }
}

fn configure_args(alloc: Global, entry: &Record) -> Result<Texts, AllocError>
    ensures { IfOk result (λ args. args ≡ codes "configure" ∷ last_text (last_configured entry.now)
        ∷ []) }
{
    let mut args = Texts::new(alloc);
    args.push(Text::from_str(alloc, "configure")?)?;
    args.push(last_text(alloc, entry)?)?;
    Ok(args)
}

fn postinst_call(alloc: Global, entry: &Record) -> Result<Call, AllocError>
    requires { is_package_name entry.now.name ≡ true }
    ensures { IfOk result (λ call. call ≡ postinst_call entry.now) }
{
    Ok(Call {
        side: Side::Old,
        package: entry.name.copy()?,
        script: Script::Postinst,
        at: script_path(alloc, &entry.name, Script::Postinst)?,
        args: configure_args(alloc, entry)?,
    })
}

fn quiet_row(name: &Text) -> Result<Row, AllocError>
    ensures { IfOk result (λ row. row ≡ quiet_row name.now) }
{
    Ok(Row {
        owner: Owner::Package(name.copy()?),
        forward: None,
        fallback: None,
        undo: None,
    })
}

fn postinst_row(alloc: Global, entry: &Record, stored: bool) -> Result<Row, AllocError>
    requires { is_package_name entry.now.name ≡ true }
    ensures { IfOk result (λ row. row ≡ postinst_row entry.now stored) }
{
    if !stored {
        return quiet_row(&entry.name);
    }
    Ok(Row {
        owner: Owner::Package(entry.name.copy()?),
        forward: Some(postinst_call(alloc, entry)?),
        fallback: None,
        undo: None,
    })
}

fn is_going(path: &RootPath, going: &[ShipPath]) -> bool
    ensures { result ≡ list_any (bytes_eq path.now) going.now }
{
    going.iter().any(|other| path.as_str() == other.as_str())
}

// The list without the paths that go.
fn listed_without(
    alloc: Global,
    listed: &[RootPath],
    going: &[ShipPath],
) -> Result<Paths, AllocError>
    ensures { IfOk result (λ paths. paths ≡ listed_without going.now listed.now) }
{
    let mut items = Vec::new(alloc);
    for path in listed {
        if !is_going(path, going) {
            items.push(path.copy()?)?;
        }
    }
    Ok(Paths { items })
}

fn push_list(
    alloc: Global,
    parts: &mut Vec<Part>,
    listed: &[RootPath],
    going: &[ShipPath],
) -> Result<(), AllocError>
    ensures { OnOk result (parts.new.items ≡ parts.old.items ++ list_parts going.now listed.now) }
{
    if going.is_empty() {
        return Ok(());
    }
    parts.push(Part::List(listed_without(alloc, listed, going)?))?;
    Ok(())
}

// What is done before the call.
fn first_parts(
    alloc: Global,
    entry: &Record,
    listed: &[RootPath],
    list: Vec<Settled>,
) -> Result<Vec<Part>, AllocError>
    ensures { IfOk result (λ parts. AreFirstParts entry.now listed.now list.items parts.items) }
{
    let mut parts = Vec::new(alloc);
    parts.push(Part::Note(half(entry)?))?;
    if list.is_empty() {
        return Ok(parts);
    }
    parts.push(Part::Settle(list))?;
    let going = going_paths(alloc, entry)?;
    push_list(alloc, &mut parts, listed, going.as_slice())?;
    let settled = settled(alloc, entry)?;
    parts.push(Part::Note(half(&settled)?))?;
    Ok(parts)
}

fn last_parts(alloc: Global, entry: &Record) -> Result<Vec<Part>, AllocError>
    ensures { IfOk result (λ parts. parts.items ≡ Note (configured (settled_record entry.now))
        ∷ []) }
{
    let mut parts = Vec::new(alloc);
    let settled = settled(alloc, entry)?;
    parts.push(Part::Note(settled.configured()?))?;
    Ok(parts)
}

/// The stages of configuring a package with this record and list, where this was decided of its conffiles, and its postinst is stored or
/// isn't.
pub(crate) fn stages_of(
    alloc: Global,
    entry: &Record,
    listed: &[RootPath],
    list: Vec<Settled>,
    stored: bool,
) -> Result<Vec<Stage>, AllocError>
    requires { is_package_name entry.now.name ≡ true }
    ensures { IfOk result (λ stages. AreConfigureStages entry.now listed.now list.items stored
        stages.items) }
{
    let mut stages = Vec::new(alloc);
    stages.push(Stage {
        parts: first_parts(alloc, entry, listed, list)?,
        row: postinst_row(alloc, entry, stored)?,
        restore: Vec::new(alloc),
    })?;
    stages.push(Stage {
        parts: last_parts(alloc, entry)?,
        row: quiet_row(&entry.name)?,
        restore: Vec::new(alloc),
    })?;
    Ok(stages)
}
