// The forward rows of an unpack.
ghost use Rattle.std.specs.Prelude.{◌≡◌, ◌∷◌, ◌++◌, [], IfOk, OnOk, true, codes};
ghost use Rattle.std.specs.Option.{option_copied};
ghost use Rattle.texts.specs.PackageNames.{is_package_name};
ghost use Rattle.unpack_rows.specs.ForwardRows.{files_row, first_rows, install_row, is_present, last_rows, new_call, old_call, others_rows, postrm_row, preinst_row, prerm_row, reinstall_row, rows_from, rows_of, upgrade_row};

use crate::kinds::{has_prerm, is_upgrade, own_of, state_of};
use administration::{script_path, tmp_script_path};
use host_core::{Call, Script, Side};
use status_records::{Record, State};
use std::alloc::{AllocError, Global};
use texts::{Text, Texts};
use undo_rows::{Owner, Row};
use version_order::Version;

/// Which of a package's four scripts are there.
#[derive(Clone, Copy)]
pub struct Present {
    pub preinst: bool,
    pub postinst: bool,
    pub prerm: bool,
    pub postrm: bool,
}

impl Present {
    fn has(self, script: Script) -> bool
        ensures { result ≡ is_present self script }
    {
        match script {
            Script::Preinst => self.preinst,
            Script::Postinst => self.postinst,
            Script::Prerm => self.prerm,
            Script::Postrm => self.postrm,
        }
    }
}

/// Another package that an unpack deconfigures, or whose prerm it calls, and its row.
#[derive(Drop)]
pub struct OtherPackage {
    pub record: Record,
    pub row: Row,
}

// The package, its old and new version, and which scripts are stored and in the tree.
#[derive(Drop)]
struct Versions<'a> {
    name: &'a Text,
    old: &'a Version,
    new: &'a Version,
    stored: Present,
    tree: Present,
}

fn word(alloc: Global, word: &str) -> Result<Texts, AllocError>
    ensures { IfOk result (λ args. args ≡ word.now ∷ []) }
{
    let mut args = Texts::new(alloc);
    args.push(Text::from_str(alloc, word)?)?;
    Ok(args)
}

fn with_new(alloc: Global, first: &str, new: &Version) -> Result<Texts, AllocError>
    ensures { IfOk result (λ args. args ≡ first.now ∷ new.now ∷ []) }
{
    let mut args = word(alloc, first)?;
    args.push(Text::from_str(alloc, new.text())?)?;
    Ok(args)
}

// Where an old version is passed, the new one follows it.
fn with_both(alloc: Global, first: &str, old: &Version, new: &Version) -> Result<Texts, AllocError>
    ensures { IfOk result (λ args. args ≡ first.now ∷ old.now ∷ new.now ∷ []) }
{
    let mut args = word(alloc, first)?;
    args.push(Text::from_str(alloc, old.text())?)?;
    args.push(Text::from_str(alloc, new.text())?)?;
    Ok(args)
}

fn failed_upgrade(alloc: Global, versions: &Versions<'_>) -> Result<Texts, AllocError>
    ensures { IfOk result (λ args. args ≡ codes "failed-upgrade" ∷ versions.now.old.now
        ∷ versions.now.new.now ∷ []) }
{
    with_both(alloc, "failed-upgrade", versions.old, versions.new)
}

fn old_call(
    alloc: Global,
    versions: &Versions<'_>,
    script: Script,
    args: Texts,
) -> Result<Option<Call>, AllocError>
    requires named { is_package_name versions.now.name.now ≡ true }
    ensures { IfOk result (λ call. call ≡ old_call versions.now.name.now versions.now.stored script
        args) }
{
    if !versions.stored.has(script) {
        return Ok(None);
    }
    Ok(Some(Call {
        side: Side::Old,
        package: versions.name.copy()?,
        script,
        at: script_path(alloc, versions.name, script)?,
        args,
    }))
}

fn new_call(
    alloc: Global,
    versions: &Versions<'_>,
    script: Script,
    args: Texts,
) -> Result<Option<Call>, AllocError>
    ensures { IfOk result (λ call. call ≡ new_call versions.now.name.now versions.now.tree script
        args) }
{
    if !versions.tree.has(script) {
        return Ok(None);
    }
    Ok(Some(Call {
        side: Side::New,
        package: versions.name.copy()?,
        script,
        at: tmp_script_path(alloc, script)?,
        args,
    }))
}

fn prerm_row(alloc: Global, versions: &Versions<'_>) -> Result<Row, AllocError>
    requires named { is_package_name versions.now.name.now ≡ true }
    ensures { IfOk result (λ row. row ≡ prerm_row versions.now.name.now versions.now.old.now
        versions.now.new.now versions.now.stored versions.now.tree) }
{
    let upgrade = with_new(alloc, "upgrade", versions.new)?;
    let failed = failed_upgrade(alloc, versions)?;
    let abort = with_new(alloc, "abort-upgrade", versions.new)?;
    Ok(Row {
        owner: Owner::Package(versions.name.copy()?),
        forward: old_call(alloc, versions, Script::Prerm, upgrade)?,
        fallback: new_call(alloc, versions, Script::Prerm, failed)?,
        undo: old_call(alloc, versions, Script::Postinst, abort)?,
    })
}

fn postrm_row(alloc: Global, versions: &Versions<'_>) -> Result<Row, AllocError>
    requires named { is_package_name versions.now.name.now ≡ true }
    ensures { IfOk result (λ row. row ≡ postrm_row versions.now.name.now versions.now.old.now
        versions.now.new.now versions.now.stored versions.now.tree) }
{
    let upgrade = with_new(alloc, "upgrade", versions.new)?;
    let failed = failed_upgrade(alloc, versions)?;
    let abort = with_new(alloc, "abort-upgrade", versions.new)?;
    Ok(Row {
        owner: Owner::Package(versions.name.copy()?),
        forward: old_call(alloc, versions, Script::Postrm, upgrade)?,
        fallback: new_call(alloc, versions, Script::Postrm, failed)?,
        undo: old_call(alloc, versions, Script::Preinst, abort)?,
    })
}

fn upgrade_row(alloc: Global, versions: &Versions<'_>) -> Result<Row, AllocError>
    ensures { IfOk result (λ row. row ≡ upgrade_row versions.now.name.now versions.now.old.now
        versions.now.new.now versions.now.stored versions.now.tree) }
{
    let upgrade = with_both(alloc, "upgrade", versions.old, versions.new)?;
    let abort = with_both(alloc, "abort-upgrade", versions.old, versions.new)?;
    Ok(Row {
        owner: Owner::Package(versions.name.copy()?),
        forward: new_call(alloc, versions, Script::Preinst, upgrade)?,
        fallback: None,
        undo: new_call(alloc, versions, Script::Postrm, abort)?,
    })
}

fn reinstall_row(alloc: Global, versions: &Versions<'_>) -> Result<Row, AllocError>
    ensures { IfOk result (λ row. row ≡ reinstall_row versions.now.name.now versions.now.old.now
        versions.now.new.now versions.now.stored versions.now.tree) }
{
    let install = with_both(alloc, "install", versions.old, versions.new)?;
    let abort = with_both(alloc, "abort-install", versions.old, versions.new)?;
    Ok(Row {
        owner: Owner::Package(versions.name.copy()?),
        forward: new_call(alloc, versions, Script::Preinst, install)?,
        fallback: None,
        undo: new_call(alloc, versions, Script::Postrm, abort)?,
    })
}

fn install_row(alloc: Global, versions: &Versions<'_>) -> Result<Row, AllocError>
    ensures { IfOk result (λ row. row ≡ install_row versions.now.name.now versions.now.old.now
        versions.now.new.now versions.now.stored versions.now.tree) }
{
    let install = word(alloc, "install")?;
    let abort = word(alloc, "abort-install")?;
    Ok(Row {
        owner: Owner::Package(versions.name.copy()?),
        forward: new_call(alloc, versions, Script::Preinst, install)?,
        fallback: None,
        undo: new_call(alloc, versions, Script::Postrm, abort)?,
    })
}

fn preinst_row(alloc: Global, versions: &Versions<'_>, state: State) -> Result<Row, AllocError>
    ensures { IfOk result (λ row. row ≡ preinst_row versions.now.name.now versions.now.old.now
        versions.now.new.now versions.now.stored versions.now.tree state) }
{
    match state {
        State::NotInstalled => install_row(alloc, versions),
        State::ConfigFiles => reinstall_row(alloc, versions),
        State::HalfInstalled => upgrade_row(alloc, versions),
        State::Unpacked => upgrade_row(alloc, versions),
        State::HalfConfigured => upgrade_row(alloc, versions),
        State::Installed => upgrade_row(alloc, versions),
    }
}

fn files_row() -> Row
    ensures { result ≡ files_row }
{
    Row {
        owner: Owner::Files,
        forward: None,
        fallback: None,
        undo: None,
    }
}

// The row before those of other packages.
fn first_rows(alloc: Global, versions: &Versions<'_>, state: State) -> Result<Vec<Row>, AllocError>
    requires named { is_package_name versions.now.name.now ≡ true }
    ensures { IfOk result (λ rows. rows.items ≡ first_rows versions.now.name.now
        versions.now.old.now versions.now.new.now versions.now.stored versions.now.tree state) }
{
    let mut rows = Vec::new(alloc);
    if has_prerm(state) {
        rows.push(prerm_row(alloc, versions)?)?;
    }
    Ok(rows)
}

fn push_others(rows: &mut Vec<Row>, others: Vec<OtherPackage>) -> Result<(), AllocError>
    ensures { OnOk result (rows.new.items ≡ rows.old.items ++ others_rows others.items) }
{
    for other in others {
        rows.push(other.row)?;
    }
    Ok(())
}

// The rows behind those of other packages.
fn push_last(
    alloc: Global,
    rows: &mut Vec<Row>,
    versions: &Versions<'_>,
    state: State,
) -> Result<(), AllocError>
    requires named { is_package_name versions.now.name.now ≡ true }
    ensures { OnOk result (rows.new.items ≡ rows.old.items ++ last_rows versions.now.name.now
        versions.now.old.now versions.now.new.now versions.now.stored versions.now.tree state) }
{
    rows.push(preinst_row(alloc, versions, state)?)?;
    rows.push(files_row())?;
    if is_upgrade(state) {
        rows.push(postrm_row(alloc, versions)?)?;
    }
    Ok(())
}

fn rows_from(
    alloc: Global,
    versions: &Versions<'_>,
    state: State,
    others: Vec<OtherPackage>,
) -> Result<Vec<Row>, AllocError>
    requires named { is_package_name versions.now.name.now ≡ true }
    ensures { IfOk result (λ rows. rows.items ≡ rows_from versions.now.name.now versions.now.old.now
        versions.now.new.now versions.now.stored versions.now.tree state
        (others_rows others.items)) }
{
    let mut rows = first_rows(alloc, versions, state)?;
    push_others(&mut rows, others)?;
    push_last(alloc, &mut rows, versions, state)?;
    Ok(rows)
}

/// The rows of an unpack that finds this record of the package, in the order in which they are
/// made: those of `kinds_of`. `incoming` is the record of the tree's control file; `stored` and
/// `tree` are the scripts of the old version and of the tree.
pub fn rows_of(
    alloc: Global,
    start: Option<&Record>,
    incoming: &Record,
    stored: Present,
    tree: Present,
    others: Vec<OtherPackage>,
) -> Result<Vec<Row>, AllocError>
    ensures { IfOk result (λ rows. rows.items ≡ rows_of (option_copied start.entry) incoming.now
        stored tree (others_rows others.items)) }
{
    let own = own_of(start, incoming);
    let versions = Versions {
        name: &own.name,
        old: &own.version,
        new: &incoming.version,
        stored,
        tree,
    };
    rows_from(alloc, &versions, state_of(start), others)
}
