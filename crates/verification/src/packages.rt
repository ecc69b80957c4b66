// The listed paths of packages, looked at one after another.
ghost use Rattle.std.specs.Prelude.{◌≡◌, ◌∷◌, [], ℕ, List, OnOk, find, flat_map, map, option_copied, option_map, string_bytes};
ghost use Rattle.std.specs.List.{list_any};
ghost use Rattle.std.specs.Str.{bytes_eq};
ghost use Rattle.hex.specs.Hex.{encode_lower};
ghost use Rattle.host_core.specs.Host.{Needs, Reads, Silent};
ghost use Rattle.host_overlay.specs.Seen.{seen};
ghost use Rattle.verification.specs.Counting.{CountsLooks};
ghost use Rattle.verification.specs.Differences.{conffile_of, is_current, known_of};
ghost use Rattle.verification.specs.Sums.{sums_at, sums_path};
ghost use Rattle.verification.specs.Tables.{AreSums, given};
ghost use Rattle.verification.specs.Verified.{AddsLooks, has_files, is_wanted, listings_of, wanted};

use crate::difference::add_difference;
use crate::looking::find_difference;
use crate::sums::{Sums, read_sums};
use conffiles::Digest;
use host_core::{Host, HostFault, RootPath};
use inquiries::SeenAll;
use status_records::{ConffileEntry, Record, State};
use std::alloc::Global;
use texts::Text;

fn is_current(entry: &ConffileEntry) -> bool
    ensures { result ≡ is_current entry.now }
{
    !(entry.obsolete || entry.remove_on_upgrade)
}

fn conffile_of<'a>(entries: &'a [ConffileEntry], path: &RootPath) -> Option<&'a ConffileEntry>
    ensures { option_copied result ≡ conffile_of entries.now path.now }
{
    entries.iter().find(|entry| is_current(entry) && path.as_str() == entry.path.as_str())
}

// The digest that is known of a path of a package.
fn known_digest(entry: &Record, sums: &Sums, path: &RootPath) -> Option<Digest>
    ensures { option_map encode_lower result
        ≡ known_of (conffile_of entry.now.conffiles path.now) (given sums.now path.now) }
{
    match conffile_of(entry.conffiles.as_slice(), path) {
        Some(conffile) => conffile.digest,
        None => sums.digest_of(path),
    }
}

fn add_path<H: Host>(
    alloc: Global,
    host: &mut H,
    all: &SeenAll,
    entry: &Record,
    sums: &Sums,
    path: &RootPath,
    lines: &mut String,
) -> Result<(), HostFault>
    requires { Needs (H.state host.old)
        (λ w. AreSums (sums_at (seen all.now.shown w (sums_path entry.now.name))) sums.now) }
    ensures added { OnOk result (AddsLooks all.now.opened.diversions.ways (seen all.now.shown) ((entry.now, path.now) ∷ [])
        (H.state host.old) (H.state host.new) (string_bytes lines.old) (string_bytes lines.new)) }
    ensures reads { Reads (H.state host.old) (H.state host.new) }
    ensures silent { Silent (H.state host.old) (H.state host.new) }
    ensures counts { CountsLooks (H.state host.old) (H.state host.new) result }
{
    let place = all.opened.diversions.place(&entry.name, path)?;
    let known = known_digest(entry, sums, path);
    let difference = find_difference(host, &place, known)?;
    Ok(add_difference(alloc, lines, path, &entry.name, difference)?)
}

fn add_paths<H: Host>(
    alloc: Global,
    host: &mut H,
    all: &SeenAll,
    entry: &Record,
    sums: &Sums,
    paths: &[RootPath],
    lines: &mut String,
) -> Result<(), HostFault>
    requires { Needs (H.state host.old)
        (λ w. AreSums (sums_at (seen all.now.shown w (sums_path entry.now.name))) sums.now) }
    ensures added { OnOk result (AddsLooks all.now.opened.diversions.ways (seen all.now.shown)
        (map (λ path. (entry.now, path)) paths.now) (H.state host.old) (H.state host.new)
        (string_bytes lines.old) (string_bytes lines.new)) }
    ensures reads { Reads (H.state host.old) (H.state host.new) }
    ensures silent { Silent (H.state host.old) (H.state host.new) }
    ensures counts { CountsLooks (H.state host.old) (H.state host.new) result }
{
    for path in paths {
        add_path(alloc, host, all, entry, sums, path, lines)?;
    }
    Ok(())
}

pub(crate) fn has_files(state: State) -> bool
    ensures { result ≡ has_files state }
{
    match state {
        State::NotInstalled => false,
        State::ConfigFiles => false,
        State::HalfInstalled => false,
        State::Unpacked => true,
        State::HalfConfigured => true,
        State::Installed => true,
    }
}

fn add_package<H: Host>(
    alloc: Global,
    host: &mut H,
    all: &SeenAll,
    entry: &Record,
    lines: &mut String,
) -> Result<(), HostFault>
    ensures added { OnOk result (AddsLooks all.now.opened.diversions.ways (seen all.now.shown)
        (listings_of all.now.opened.lists.lists entry.now) (H.state host.old) (H.state host.new)
        (string_bytes lines.old) (string_bytes lines.new)) }
    ensures reads { Reads (H.state host.old) (H.state host.new) }
    ensures silent { Silent (H.state host.old) (H.state host.new) }
    ensures counts { CountsLooks (H.state host.old) (H.state host.new) result }
{
    if !has_files(entry.state) {
        return Ok(());
    }
    let sums = read_sums(alloc, host, &all.shown, &entry.name)?;
    let paths = all.opened.lists.list_of(&entry.name);
    add_paths(alloc, host, all, entry, &sums, paths, lines)
}

fn is_named(names: &[Text], name: &Text) -> bool
    ensures { result ≡ list_any (bytes_eq name.now) names.now }
{
    names.iter().any(|other| name.as_str() == other.as_str())
}

/// Whether a package is verified; no names stand for all packages.
pub(crate) fn is_wanted(names: &[Text], name: &Text) -> bool
    ensures { result ≡ is_wanted names.now name.now }
{
    names.is_empty() || is_named(names, name)
}

/// Adds the lines of the paths that differ, of the packages that are verified.
pub(crate) fn add_packages<H: Host>(
    alloc: Global,
    host: &mut H,
    all: &SeenAll,
    names: &[Text],
    lines: &mut String,
) -> Result<(), HostFault>
    ensures added { OnOk result (AddsLooks all.now.opened.diversions.ways (seen all.now.shown)
        (flat_map (listings_of all.now.opened.lists.lists) (wanted names.now all.now.opened.database.records))
        (H.state host.old) (H.state host.new) (string_bytes lines.old) (string_bytes lines.new)) }
    ensures reads { Reads (H.state host.old) (H.state host.new) }
    ensures silent { Silent (H.state host.old) (H.state host.new) }
    ensures counts { CountsLooks (H.state host.old) (H.state host.new) result }
{
    let records = all.opened.database.records();
    for entry in records {
        if is_wanted(names, &entry.name) {
            add_package(alloc, host, all, entry, lines)?;
        }
    }
    Ok(())
}
