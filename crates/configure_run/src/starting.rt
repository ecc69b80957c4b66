// The packages as numbers, and which of them wait and call no script, when configuring begins.
ghost use Rattle.std.specs.Prelude.{◌≡◌, ◌&&◌, IfOk, map, true};
ghost use Rattle.std.specs.BTreeSet.{contains_text};
ghost use Rattle.administration.specs.Places.{script_path as stored_path};
ghost use Rattle.host_core.specs.Looks.{Looks};
ghost use Rattle.texts.specs.PackageNames.{is_package_name};
ghost use Rattle.configure_run.specs.Asked.{can_wait};
ghost use Rattle.configure_run.specs.Starting.{AreSilentOf, is_silent, satisfies, waits};

use crate::asked::can_wait;
use administration::script_path;
use host_core::{Host, HostFault, Script};
use name_sets::set_of;
use status_db::NotedDatabase;
use status_records::Record;
use std::alloc::{AllocError, Global};
use std::collections::BTreeSet;
use texts::Text;

fn waits(names: &BTreeSet<String>, entry: &Record) -> bool
    ensures { result ≡ (can_wait entry.now && contains_text names.now entry.now.name) }
{
    can_wait(entry) && names.contains(entry.name.as_str())
}

pub(crate) fn installed_of(alloc: Global, records: &[Record]) -> Result<Vec<bool>, AllocError>
    ensures { IfOk result (λ set. set.items ≡ map satisfies records.now) }
{
    let mut set = Vec::new(alloc);
    for entry in records {
        set.push(entry.is_configured())?;
    }
    Ok(set)
}

pub(crate) fn waiting_of(
    alloc: Global,
    names: &[Text],
    records: &[Record],
) -> Result<Vec<bool>, AllocError>
    ensures { IfOk result (λ set. set.items ≡ map (waits names.now) records.now) }
{
    let named = set_of(alloc, names)?;
    let mut set = Vec::new(alloc);
    for entry in records {
        set.push(waits(&named, entry))?;
    }
    Ok(set)
}

// Whether no postinst is stored with a package.
#[tactic(auto, using(host_core::proofs::Moments::reads_then))]
fn is_silent<H: Host>(alloc: Global, host: &mut H, name: &Text) -> Result<bool, HostFault>
    requires named { is_package_name name.now ≡ true }
    ensures looks { Looks result (λ is w. is ≡ is_silent w name.now) (H.state host.old)
        (H.state host.new) }
{
    let path = script_path(alloc, name, Script::Postinst)?;
    Ok(host.kind(&path)?.is_none())
}

// The same of a record's package, which isn't looked for where it doesn't wait.
fn is_silent_at<H: Host>(
    alloc: Global,
    host: &mut H,
    names: &BTreeSet<String>,
    entry: &Record,
) -> Result<bool, HostFault>
    ensures looks { Looks result (λ is w. (can_wait entry.now && contains_text names.now
        entry.now.name) ≡ true → is ≡ is_silent w entry.now.name) (H.state host.old)
        (H.state host.new) }
{
    if waits(names, entry) {
        return is_silent(alloc, host, &entry.name);
    }
    Ok(false)
}

/// Which of the packages that wait have no postinst.
pub(crate) fn silent_of<H: Host>(
    alloc: Global,
    host: &mut H,
    names: &[Text],
    records: &[Record],
) -> Result<Vec<bool>, HostFault>
    ensures looks { Looks result (λ set w. AreSilentOf w names.now records.now set.items)
        (H.state host.old) (H.state host.new) }
{
    let named = set_of(alloc, names)?;
    let mut set = Vec::new(alloc);
    for entry in records {
        set.push(is_silent_at(alloc, host, &named, entry)?)?;
    }
    Ok(set)
}
