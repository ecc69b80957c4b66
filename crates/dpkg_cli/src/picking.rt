// Which of the archives that are given are passed over, as dpkg does.
ghost use Rattle.std.specs.Prelude.{◌≡◌, ◌++◌, IfOk, IfSome, codes, string_bytes};
ghost use Rattle.version_order.specs.VersionOrder.{version_order};
ghost use Rattle.dpkg_cli.specs.Picking.{is_selected, is_unpacked, older_line, pick_by, pick_of, same_line, unselected_line};

use crate::recorded::recorded;
use crate::records::{Noted, Records, noted_in};
use dpkg_words::{Gathered, Picking};
use std::alloc::{AllocError, Global};
use std::cmp::Ordering;
use std::fs;
use std::io::{self, Read, Write};
use std::process::{Command, Stdio};
use texts::{Text, Texts};
use version_order::Version;

/// What comes of an archive.
#[derive(Clone, Copy)]
pub(crate) enum Pick {
    Taken,
    Unselected,
    Same,
    Older,
}

fn is_selected(want: &str) -> bool
    ensures { result ≡ is_selected want.now }
{
    want == "install" || want == "hold"
}

fn is_unpacked(flag: &str, state: &str) -> bool
    ensures { result ≡ is_unpacked flag.now state.now }
{
    flag != "reinstreq"
        && !(state == "not-installed" || state == "config-files" || state == "half-installed")
}

fn pick_by(picking: Picking, order: Option<Ordering>) -> Pick
    ensures { result ≡ pick_by picking order }
{
    match order {
        Some(Ordering::Equal) if picking.skip_same => Pick::Same,
        Some(Ordering::Less) if picking.refuse_downgrade => Pick::Older,
        _ => Pick::Taken,
    }
}

fn pick_of(picking: Picking, want: &str, flag: &str, state: &str, order: Option<Ordering>) -> Pick
    ensures { result ≡ pick_of picking want.now flag.now state.now order }
{
    if picking.selected_only && !is_selected(want) {
        return Pick::Unselected;
    }
    if is_unpacked(flag, state) {
        return pick_by(picking, order);
    }
    Pick::Taken
}

// How the version that comes stands to the one that is there.
fn order_of(alloc: Global, coming: &str, there: &str) -> Option<Ordering>
    ensures { IfSome result (λ order. order ≡ version_order coming.now there.now) }
{
    match (
        Version::parse(alloc, coming.as_bytes()),
        Version::parse(alloc, there.as_bytes()),
    ) {
        (Ok(coming), Ok(there)) => Some(coming.compare(&there)),
        _ => None,
    }
}

fn unselected_line(alloc: Global, named: &str) -> Result<String, AllocError>
    ensures { IfOk result (λ line. string_bytes line ≡ unselected_line named.now) }
{
    format!(in alloc; "Skipping unselected package {named}.\n")
}

fn same_line(alloc: Global, named: &str, version: &str) -> Result<String, AllocError>
    ensures { IfOk result (λ line. string_bytes line ≡ same_line named.now version.now) }
{
    format!(in alloc; "dpkg: version {version} of {named} already installed, skipping\n")
}

fn older_line(alloc: Global, named: &str, there: &str, coming: &str) -> Result<String, AllocError>
    ensures { IfOk result (λ line. string_bytes line ≡ older_line named.now there.now coming.now) }
{
    format!(in alloc; "dpkg: will not downgrade {named} from {there} to {coming}, skipping\n")
}

// What the control file of an archive says, as `dpkg-deb -f` tells it.
fn fields_of(rt: &HostRuntime, archive: &str) -> io::Result<Vec<u8>> {
    let mut command = Command::new(rt.alloc(), "dpkg-deb")?;
    command.arg("--field")?;
    command.arg("--")?;
    command.arg(archive)?;
    command.stdin(Stdio::null());
    command.stderr(Stdio::null());
    Ok(command.output(rt)?.stdout)
}

// The control file of an archive, or of a tree.
fn control_of(rt: &HostRuntime, file: &str) -> io::Result<Vec<u8>> {
    if fs::metadata(rt, file)?.is_file() {
        return fields_of(rt, file);
    }
    let place = format!(in rt.alloc(); "{file}/DEBIAN/control")?;
    fs::read(rt, place.as_str())
}

fn pick_noted(alloc: Global, picking: Picking, records: &Records, noted: &Noted<'_>) -> Pick {
    let name = noted.package;
    let order = order_of(alloc, noted.version, records.version_of(name));
    let (want, flag) = (records.want_of(name), records.flag_of(name));
    pick_of(picking, want, flag, records.state_of(name), order)
}

// Tells what is passed over, where dpkg does.
fn tell(rt: &HostRuntime, pick: Pick, there: &str, noted: &Noted<'_>) -> io::Result<()> {
    let (alloc, stderr) = (rt.alloc(), rt.stderr());
    let name = noted.package;
    match pick {
        Pick::Taken => Ok(()),
        Pick::Unselected => io::writer(rt).write_all(unselected_line(alloc, name)?.as_bytes()),
        Pick::Same => {
            io::writer(&stderr).write_all(same_line(alloc, name, noted.version)?.as_bytes())
        }
        Pick::Older => {
            let line = older_line(alloc, name, there, noted.version)?;
            io::writer(&stderr).write_all(line.as_bytes())
        }
    }
}

// Whether a file is taken. One that can't be read is, so that it is told why.
fn is_taken(rt: &HostRuntime, picking: Picking, records: &Records, file: &str) -> bool {
    let Ok(control) = control_of(rt, file) else {
        return true;
    };
    let Some(noted) = noted_in(control.as_slice()) else {
        return true;
    };
    let pick = pick_noted(rt.alloc(), picking, records, &noted);
    let _ = tell(rt, pick, records.version_of(noted.package), &noted);
    matches!(pick, Pick::Taken)
}

/// Those of the files that aren't passed over, by what is recorded as the command begins.
pub(crate) fn picked(rt: &HostRuntime, gathered: &Gathered, files: &[Text]) -> io::Result<Texts> {
    let records = recorded(rt, gathered.root.as_str())?;
    let mut taken = Texts::new(rt.alloc());
    for file in files {
        if is_taken(rt, gathered.picking, &records, file.as_str()) {
            taken.push(file.copy()?)?;
        }
    }
    Ok(taken)
}
