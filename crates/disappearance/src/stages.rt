// The stages by which a package goes.
ghost use Rattle.std.specs.Prelude.{◌≡◌, [], ◌∷◌, List, None, true, IfOk, is_some, map};
ghost use Rattle.texts.specs.PackageNames.{is_package_name};
ghost use Rattle.host_core.specs.Host.{Counts, Reads, Silent};
ghost use Rattle.host_core.specs.Looks.{Looks};
ghost use Rattle.host_core.specs.declared.call.Script.TheVariants.{Postrm};
ghost use Rattle.administration.specs.Places.{script_path as stored_path};
ghost use Rattle.removal_engine.specs.Scripts.{row_of};
ghost use Rattle.removal_engine.specs.Stages.{deed, gone_stage, planned, stage_of};
ghost use Rattle.status_records.specs.Records.{record_in};
ghost use Rattle.file_lists.specs.declared.paths.PackageList.{PackageList as APackageList};
ghost use Rattle.disappearance.specs.Stages.{IsPlan, disappear_call, disappear_row};

use administration::script_path;
use file_lists::Paths;
use host_core::{Call, Host, HostFault, Script, Side};
use status_db::NotedDatabase;
use status_records::Record;
use std::alloc::{AllocError, Global};
use texts::{Text, Texts};
use undo_rows::{Owner, Row};
use unit_stages::{Part, Stage};
use version_order::Version;

// Whether the postrm is stored with a package.
fn has_postrm<H: Host>(alloc: Global, host: &mut H, name: &Text) -> Result<bool, HostFault>
    requires named { is_package_name name.now ≡ true }
    ensures looks { Looks result (λ stored w. stored ≡ is_some (w (stored_path name.now Postrm)))
        (H.state host.old) (H.state host.new) }
{
    let path = script_path(alloc, name, Script::Postrm)?;
    Ok(host.kind(&path)?.is_some())
}

// postrm `disappear`, with the name and version of the unpacked package.
fn disappear_call(
    alloc: Global,
    name: &Text,
    incoming: &Text,
    version: &Version,
    stored: bool,
) -> Result<Option<Call>, AllocError>
    requires named { is_package_name name.now ≡ true }
    ensures { IfOk result (λ call. call ≡ disappear_call name.now incoming.now version.now stored) }
{
    if !stored {
        return Ok(None);
    }
    let mut args = Texts::new(alloc);
    args.push(Text::from_str(alloc, "disappear")?)?;
    args.push(incoming.copy()?)?;
    args.push(Text::from_str(alloc, version.text())?)?;
    Ok(Some(Call {
        side: Side::Old,
        package: name.copy()?,
        script: Script::Postrm,
        at: script_path(alloc, name, Script::Postrm)?,
        args,
    }))
}

// A row that nothing undoes.
fn row_of(name: &Text, forward: Option<Call>) -> Result<Row, AllocError>
    ensures { IfOk result (λ row. row ≡ row_of name.now forward None) }
{
    Ok(Row {
        owner: Owner::Package(name.copy()?),
        forward,
        fallback: None,
        undo: None,
    })
}

// One stage, behind which nothing is restored.
fn one_stage(alloc: Global, parts: Vec<Part>, row: Row) -> Result<Vec<Stage>, AllocError>
    ensures { IfOk result
        (λ stages. map planned stages.items ≡ stage_of (map deed parts.items) row ∷ []) }
{
    let mut stages = Vec::new(alloc);
    stages.push(Stage {
        parts,
        row,
        restore: Vec::new(alloc),
    })?;
    Ok(stages)
}

// The postrm is called.
fn call_stages(
    alloc: Global,
    name: &Text,
    incoming: &Text,
    version: &Version,
    stored: bool,
) -> Result<Vec<Stage>, AllocError>
    requires named { is_package_name name.now ≡ true }
    ensures { IfOk result
        (λ stages. map planned stages.items
        ≡ stage_of [] (disappear_row name.now incoming.now version.now stored) ∷ []) }
{
    let call = disappear_call(alloc, name, incoming, version, stored)?;
    let row = row_of(name, call)?;
    one_stage(alloc, Vec::new(alloc), row)
}

// An empty list.
fn no_paths(alloc: Global) -> Paths
    ensures { result ≡ [] }
{
    Paths {
        items: Vec::new(alloc),
    }
}

// Nothing is left.
fn gone_stages(alloc: Global, entry: &Record) -> Result<Vec<Stage>, AllocError>
    ensures { IfOk result (λ stages. map planned stages.items ≡ gone_stage entry.now ∷ []) }
{
    let mut parts = Vec::new(alloc);
    parts.push(Part::DropMembers { keep_postrm: false })?;
    parts.push(Part::List(no_paths(alloc)))?;
    parts.push(Part::DropList)?;
    parts.push(Part::Forget)?;
    let row = row_of(&entry.name, None)?;
    one_stage(alloc, parts, row)
}

/// What is run for a package that disappears: the stage that calls its postrm, and the one in which all goes.
#[derive(Drop)]
pub(crate) struct Plan {
    pub call: Vec<Stage>,
    pub gone: Vec<Stage>,
}

// Both by what is stored.
fn plan_of(
    alloc: Global,
    entry: &Record,
    incoming: &Text,
    version: &Version,
    stored: bool,
) -> Result<Plan, AllocError>
    requires named { is_package_name entry.now.name ≡ true }
    ensures calls { IfOk result
        (λ plan. map planned plan.call.items
        ≡ stage_of [] (disappear_row entry.now.name incoming.now version.now stored) ∷ []) }
    ensures goes { IfOk result (λ plan. map planned plan.gone.items ≡ gone_stage entry.now ∷ []) }
{
    let call = call_stages(alloc, &entry.name, incoming, version, stored)?;
    let gone = gone_stages(alloc, entry)?;
    Ok(Plan { call, gone })
}

/// Plans: nothing but looking.
#[tactic(auto, using(host_core::proofs::Moments::reads_then))]
pub(crate) fn plan_stages<H: Host>(
    alloc: Global,
    host: &mut H,
    database: &NotedDatabase,
    incoming: &Text,
    version: &Version,
    name: &Text,
) -> Result<Plan, HostFault>
    requires known { is_some (record_in database.now.records name.now) ≡ true }
    ensures plan { IfOk result
        (λ plan. (lists : List APackageList)
        → IsPlan incoming.now version.now name.now
        (record { records = database.now.records; lists = lists }) (H.state host.old).world
        (H.state host.new).honest plan.call.items plan.gone.items) }
    ensures reads { Reads (H.state host.old) (H.state host.new) }
    ensures silent { Silent (H.state host.old) (H.state host.new) }
    ensures counts { Counts (H.state host.old) (H.state host.new) result }
{
    let entry = database.get(name).unwrap();
    let stored = has_postrm(alloc, host, &entry.name)?;
    let plan = plan_of(alloc, entry, incoming, version, stored)?;
    Ok(plan)
}
