// Which files are to be written, or to go.
ghost use Rattle.std.specs.Prelude.{◌≡◌, ◌++◌, ◌∷◌, [], IfOk, OnOk, cond, filter, map, not, true};
ghost use Rattle.host_core.specs.Host.{Counts, Leaves, Reads, Silent};
ghost use Rattle.host_core.specs.Looks.{Looks};
ghost use Rattle.trigger_files.specs.Lines.{is_settled, lines_for};
ghost use Rattle.trigger_files.specs.Places.{is_register, paths_name, place};
ghost use Rattle.trigger_files.specs.Registered.{is_hindered, is_in_way, is_unsettled};
ghost use Rattle.trigger_files.specs.Steps.{AreRegisters, AreUnsettled, names_for, open_of};
ghost use Rattle.administration.specs.Places.{temporary};

use crate::lines::{is_settled, lines_for};
use crate::places::{is_register, place, triggers_directory};
use administration::is_directory;
use host_core::{Host, HostFault, Kind, RootPath};
use std::alloc::{AllocError, Global};
use texts::Text;
use trigger_interests::Interest;
use trigger_watch::each_once;

fn add_names(entries: &[Interest], names: &mut Vec<Text>) -> Result<(), AllocError>
    ensures { OnOk result (names.new.items ≡ names.old.items ++ map (λ i. i.name) entries.now) }
{
    for interest in entries {
        names.push(interest.name.copy()?)?;
    }
    Ok(())
}

fn add_listed(listed: &[Text], names: &mut Vec<Text>) -> Result<(), AllocError>
    ensures { OnOk result (names.new.items ≡ names.old.items ++ listed.now) }
{
    for name in listed {
        names.push(name.copy()?)?;
    }
    Ok(())
}

// All names that come into question.
fn candidates(alloc: Global, entries: &[Interest], listed: &[Text]) -> Result<Vec<Text>, AllocError>
    ensures { IfOk result (λ names. names.items
        ≡ paths_name ∷ (map (λ i. i.name) entries.now ++ listed.now)) }
{
    let mut names = Vec::new(alloc);
    names.push(Text::from_str(alloc, "File")?)?;
    add_names(entries, &mut names)?;
    add_listed(listed, &mut names)?;
    Ok(names)
}

fn registers(alloc: Global, names: &[Text]) -> Result<Vec<Text>, AllocError>
    ensures { IfOk result (λ kept. kept.items ≡ filter is_register names.now) }
{
    let mut kept = Vec::new(alloc);
    for name in names {
        if is_register(name) {
            kept.push(name.copy()?)?;
        }
    }
    Ok(kept)
}

fn names_for(alloc: Global, entries: &[Interest], listed: &[Text]) -> Result<Vec<Text>, AllocError>
    ensures { IfOk result (λ names. names.items ≡ names_for entries.now listed.now) }
{
    let all = candidates(alloc, entries, listed)?;
    let kept = registers(alloc, all.as_slice())?;
    each_once(alloc, kept)
}

fn is_unsettled<H: Host>(
    alloc: Global,
    host: &mut H,
    entries: &[Interest],
    name: &Text,
) -> Result<bool, HostFault>
    requires { is_register name.now ≡ true }
    ensures looks { Looks result (λ is w. is ≡ is_unsettled entries.now w name.now)
        (H.state host.old) (H.state host.new) }
{
    let path = place(alloc, name)?;
    let lines = lines_for(alloc, entries, name)?;
    let node = host.node(&path)?;
    Ok(!is_settled(alloc, lines.as_slice(), &node)?)
}

// Adds a name whose file hasn't its lines.
fn add_unsettled<H: Host>(
    alloc: Global,
    host: &mut H,
    entries: &[Interest],
    name: &Text,
    found: &mut Vec<Text>,
) -> Result<(), HostFault>
    requires register { is_register name.now ≡ true }
    requires registers { AreRegisters found.old.items }
    ensures registers { OnOk result (AreRegisters found.new.items) }
    ensures added { Leaves result (λ w _. found.new.items ≡ found.old.items ++ cond
        (is_unsettled entries.now w name.now) (name.now ∷ []) []) (H.state host.old)
        (H.state host.new) }
    ensures reads { Reads (H.state host.old) (H.state host.new) }
    ensures silent { Silent (H.state host.old) (H.state host.new) }
    ensures counts { Counts (H.state host.old) (H.state host.new) result }
{
    if is_unsettled(alloc, host, entries, name)? {
        found.push(name.copy()?)?;
    }
    Ok(())
}

// Those of names whose files haven't their lines.
fn unsettled<H: Host>(
    alloc: Global,
    host: &mut H,
    entries: &[Interest],
    names: &[Text],
) -> Result<Vec<Text>, HostFault>
    requires { AreRegisters names.now }
    ensures registers { IfOk result (λ found. AreRegisters found.items) }
    ensures looks { Looks result (λ found w. found.items
        ≡ filter (is_unsettled entries.now w) names.now) (H.state host.old) (H.state host.new) }
{
    let mut found = Vec::new(alloc);
    for name in names {
        add_unsettled(alloc, host, entries, name, &mut found)?;
    }
    Ok(found)
}

/// The names whose files haven't the lines that belong there.
pub(crate) fn read_unsettled<H: Host>(
    alloc: Global,
    host: &mut H,
    entries: &[Interest],
) -> Result<Vec<Text>, HostFault>
    ensures registers { IfOk result (λ names. AreRegisters names.items) }
    ensures looks { Looks result (λ names w. AreUnsettled entries.now w names.items)
        (H.state host.old) (H.state host.new) }
{
    let directory = triggers_directory(alloc)?;
    let listing = host.list(&directory)?;
    let names = names_for(alloc, entries, listing.names.as_slice())?;
    unsettled(alloc, host, entries, names.as_slice())
}

fn is_in_way(kind: Option<Kind>) -> bool
    ensures { result ≡ is_in_way kind }
{
    match kind {
        None | Some(Kind::File) => false,
        Some(Kind::Directory) | Some(Kind::SymbolicLink) => true,
    }
}

// Whether no file can be written at a path.
fn is_hindered_at<H: Host>(
    host: &mut H,
    path: &RootPath,
    spare: &RootPath,
) -> Result<bool, HostFault>
    requires { spare.now ≡ temporary path.now }
    ensures looks { Looks result (λ is w. is ≡ is_hindered w path.now) (H.state host.old)
        (H.state host.new) }
{
    if is_in_way(host.kind(path)?) {
        return Ok(true);
    }
    is_directory(host, spare)
}

fn is_hindered<H: Host>(alloc: Global, host: &mut H, name: &Text) -> Result<bool, HostFault>
    requires { is_register name.now ≡ true }
    ensures looks { Looks result (λ is w. is ≡ is_hindered w (place name.now)) (H.state host.old)
        (H.state host.new) }
{
    let path = place(alloc, name)?;
    let spare = path.with_suffix(".dpkg-inst")?;
    is_hindered_at(host, &path, &spare)
}

// Adds a name at which a file can be written.
fn add_open<H: Host>(
    alloc: Global,
    host: &mut H,
    name: &Text,
    found: &mut Vec<Text>,
) -> Result<(), HostFault>
    requires register { is_register name.now ≡ true }
    requires registers { AreRegisters found.old.items }
    ensures registers { OnOk result (AreRegisters found.new.items) }
    ensures added { Leaves result (λ w _. found.new.items ≡ found.old.items ++ cond
        (not (is_hindered w (place name.now))) (name.now ∷ []) []) (H.state host.old)
        (H.state host.new) }
    ensures reads { Reads (H.state host.old) (H.state host.new) }
    ensures silent { Silent (H.state host.old) (H.state host.new) }
    ensures counts { Counts (H.state host.old) (H.state host.new) result }
{
    if !is_hindered(alloc, host, name)? {
        found.push(name.copy()?)?;
    }
    Ok(())
}

/// Those of names at which a file can be written.
pub(crate) fn read_open<H: Host>(
    alloc: Global,
    host: &mut H,
    names: &[Text],
) -> Result<Vec<Text>, HostFault>
    requires { AreRegisters names.now }
    ensures registers { IfOk result (λ found. AreRegisters found.items) }
    ensures looks { Looks result (λ found w. found.items ≡ open_of w names.now) (H.state host.old)
        (H.state host.new) }
{
    let mut found = Vec::new(alloc);
    for name in names {
        add_open(alloc, host, name, &mut found)?;
    }
    Ok(found)
}
