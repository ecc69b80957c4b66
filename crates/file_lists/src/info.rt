// The directory of the lists, entry by entry.
ghost use Rattle.std.specs.Prelude.{◌≡◌, ◌++◌, ◌≢◌, Contains, ◌↔◌, ℕ, List, Option, OnOk, IfOk, IfErr, IfSome, IfNone, IsTrue, MatchBool, MatchOption, true, false};
ghost use Rattle.std.specs.BTreeSet.{contains_text};
ghost use Rattle.host_core.specs.Host.{Needs, Reads, Silent, Tells};
ghost use Rattle.host_core.specs.Paths.{is_path};
ghost use Rattle.host_core.specs.World.{kind_of};
ghost use Rattle.host_core.specs.declared.node.Node.{Node as ANode};
ghost use Rattle.host_overlay.specs.Seen.{AreSources, seen};
ghost use Rattle.administration.specs.Directories.{HasBadName};
ghost use Rattle.administration.specs.Fault.{CountsAdministration};
ghost use Rattle.administration.specs.Places.{info_path};
ghost use Rattle.file_lists.specs.Lists.{Lists, IsReadable, HasLists};
ghost use Rattle.file_lists.specs.Info.{entry_path, IsOneOf, IsListOf, IsScriptOf, IsSound, IsFaultyWhole, AreSound, IsInfoDamage};
ghost use Rattle.file_lists.specs.Owners.{names_of, AreListPaths};
ghost use Rattle.file_lists.specs.Reading.{IsListFault, IsListAt, HasTaken, IsFaultAt, AreSoundAmong, HaveTaken, IsFaultAmong, IsListFaultAt, MakeEntryPaths, AreEntries, IsNameFault};

use crate::fault::EntryFault;
use crate::ordering::sorted;
use crate::paths::Paths;
use crate::reading::read_list;
use crate::table::Table;
use administration::{AdministrationFault, INFO};
use host_core::{Host, Kind, Node, RootPath};
use host_overlay::SeenNames;
use std::alloc::{AllocError, Global};
use std::collections::BTreeSet;
use texts::Text;

// What stands before an ending.
fn front_of<'a>(entry: &'a [u8], ending: &str) -> Option<&'a [u8]>
    ensures some { IfSome result (λ front. entry.now ≡ front.now ++ ending.now) }
    ensures none { IfNone result ((front : List ℕ) → entry.now ≢ front ++ ending.now) }
{
    entry.strip_suffix(ending.as_bytes())
}

// Whether the entry is one of the names with an ending.
fn is_one_of(table: &Table, ending: &str, entry: &[u8]) -> bool
    ensures { IsTrue result ↔ IsOneOf (names_of table.now) ending.now entry.now }
{
    match front_of(entry, ending) {
        Some(name) => table.find(name).is_some(),
        None => false,
    }
}

fn is_script_of(table: &Table, entry: &[u8]) -> bool
    ensures { IsTrue result ↔ IsScriptOf (names_of table.now) entry.now }
{
    is_one_of(table, ".preinst", entry)
        || is_one_of(table, ".postinst", entry)
        || is_one_of(table, ".prerm", entry)
        || is_one_of(table, ".postrm", entry)
}

// Where the package stands whose list the entry is.
fn list_at(table: &Table, entry: &[u8]) -> Option<usize>
    ensures some { IfSome result (IsListAt table.now entry.now) }
    ensures none { IfNone result (IsListOf (names_of table.now) entry.now → ⊥) }
{
    match front_of(entry, ".list") {
        Some(name) => table.find(name),
        None => None,
    }
}

// Whether what stands at the place of an entry that is no list is faulty, which its kind tells.
fn is_faulty(table: &Table, entry: &[u8], kind: Option<Kind>) -> bool
    requires { IsListOf (names_of table.now) entry.now → ⊥ }
    ensures { (node : Option ANode) → kind ≡ kind_of node
        → MatchBool result (IsFaultyWhole (names_of table.now) entry.now node)
        (IsSound (names_of table.now) entry.now node) }
{
    match kind {
        Some(Kind::Directory) => true,
        Some(Kind::SymbolicLink) => is_script_of(table, entry),
        Some(Kind::File) => false,
        None => false,
    }
}

// The paths of what stands at a list's place.
fn read_node(alloc: Global, node: &Option<Node>) -> Result<Paths, EntryFault>
    ensures readable { OnOk result (IsReadable node.now) }
    ensures paths { IfOk result AreListPaths }
    ensures lists { IfOk result (λ paths. (q : List ℕ) → Contains paths q ↔ Lists node.now q) }
    ensures fault { IfErr result (IsListFault node.now) }
{
    let Some(node) = node else {
        return Ok(Paths {
            items: Vec::new(alloc),
        });
    };
    match node {
        Node::File { bytes, .. } => read_list(alloc, bytes),
        Node::Dir { .. } => Err(EntryFault::Line(0)),
        Node::Link { .. } => Err(EntryFault::Line(0)),
    }
}

// The names in the directory, all of which are text.
fn entries_in<H: Host>(
    alloc: Global,
    host: &mut H,
    shown: &SeenNames,
) -> Result<BTreeSet<String>, AdministrationFault>
    requires sources { Needs (H.state host.old) (AreSources shown.now) }
    ensures entries { Tells result (λ set w. AreEntries (seen shown.now w) (contains_text set)) (H.state host.old)
        (H.state host.new) }
    ensures text { Tells result (λ set w. HasBadName (seen shown.now w) info_path → ⊥) (H.state host.old)
        (H.state host.new) }
    ensures fault { IsTrue (H.state host.new).honest
        → IfErr result (IsNameFault (seen shown.now (H.state host.old).world)) }
    ensures reads { Reads (H.state host.old) (H.state host.new) }
    ensures silent { Silent (H.state host.old) (H.state host.new) }
    ensures counts { CountsAdministration (H.state host.old) (H.state host.new) result }
{
    let info = RootPath::from_str(alloc, INFO)?;
    let listing = shown.list(host, &info)?;
    if listing.bad {
        return Err(AdministrationFault::Damaged {
            file: info,
            line: 0,
        });
    }
    Ok(sorted(alloc, listing.names.as_slice())?)
}

// The path of an entry, if it makes one.
fn path_of(alloc: Global, entry: &str) -> Result<Option<RootPath>, AllocError>
    ensures { IfOk result
        (λ o.
        MatchOption o (is_path (entry_path entry.now) ≡ false) (λ p. p ≡ entry_path entry.now)) }
{
    RootPath::from_str(alloc, INFO)?.child(&Text::from_str(alloc, entry)?)
}

// Reads the list at an entry's path.
fn read_at<H: Host>(
    alloc: Global,
    host: &mut H,
    shown: &SeenNames,
    entry: &str,
    file: RootPath,
) -> Result<Paths, AdministrationFault>
    requires { file ≡ entry_path entry.now }
    ensures readable { Tells result (λ paths w. IsReadable (seen shown.now w (entry_path entry.now)))
        (H.state host.old) (H.state host.new) }
    ensures paths { IfOk result AreListPaths }
    ensures lists { Tells result
        (λ paths w. (q : List ℕ) → Contains paths q ↔ Lists (seen shown.now w (entry_path entry.now)) q)
        (H.state host.old) (H.state host.new) }
    ensures fault { IsTrue (H.state host.new).honest
        → IfErr result (IsListFaultAt (seen shown.now (H.state host.old).world) entry.now) }
    ensures reads { Reads (H.state host.old) (H.state host.new) }
    ensures silent { Silent (H.state host.old) (H.state host.new) }
    ensures counts { CountsAdministration (H.state host.old) (H.state host.new) result }
{
    let node = shown.node(host, &file)?;
    match read_node(alloc, &node) {
        Ok(paths) => {
            return Ok(paths);
        }
        Err(EntryFault::Line(line)) => {
            return Err(AdministrationFault::Damaged { file, line });
        }
        Err(EntryFault::NoMemory) => {
            return Err(AdministrationFault::NoMemory);
        }
    }
}

// Looks at what kind of node stands at the path of an entry that is no list.
fn judge<H: Host>(
    host: &mut H,
    shown: &SeenNames,
    table: &Table,
    entry: &str,
    file: RootPath,
) -> Result<(), AdministrationFault>
    requires file { file ≡ entry_path entry.now }
    requires other { IsListOf (names_of table.now) entry.now → ⊥ }
    ensures sound { IsTrue (H.state host.new).honest
        → OnOk result
        (IsSound (names_of table.now) entry.now (seen shown.now (H.state host.old).world (entry_path entry.now))) }
    ensures fault { IsTrue (H.state host.new).honest
        → IfErr result (IsFaultAt (seen shown.now (H.state host.old).world) (names_of table.now) entry.now) }
    ensures reads { Reads (H.state host.old) (H.state host.new) }
    ensures silent { Silent (H.state host.old) (H.state host.new) }
    ensures counts { CountsAdministration (H.state host.old) (H.state host.new) result }
{
    let kind = shown.kind(host, &file)?;
    if is_faulty(table, entry.as_bytes(), kind) {
        return Err(AdministrationFault::Damaged { file, line: 0 });
    }
    Ok(())
}

// Looks at one entry.
fn look_at<H: Host>(
    alloc: Global,
    host: &mut H,
    shown: &SeenNames,
    table: &mut Table,
    entry: &str,
) -> Result<(), AdministrationFault>
    requires { Needs (H.state host.old) (λ w. is_path (entry_path entry.now) ≡ true) }
    ensures sound { IsTrue (H.state host.new).honest
        → OnOk result
        (IsSound (names_of table.old) entry.now (seen shown.now (H.state host.old).world (entry_path entry.now))) }
    ensures taken { IsTrue (H.state host.new).honest
        → OnOk result
        (HasTaken entry.now (seen shown.now (H.state host.old).world (entry_path entry.now)) table.old table.new) }
    ensures fault { IsTrue (H.state host.new).honest
        → IfErr result (IsFaultAt (seen shown.now (H.state host.old).world) (names_of table.old) entry.now) }
    ensures reads { Reads (H.state host.old) (H.state host.new) }
    ensures silent { Silent (H.state host.old) (H.state host.new) }
    ensures counts { CountsAdministration (H.state host.old) (H.state host.new) result }
{
    let Some(file) = path_of(alloc, entry)? else {
        return Ok(());
    };
    match list_at(table, entry.as_bytes()) {
        Some(at) => {
            let paths = read_at(alloc, host, shown, entry, file)?;
            table.set(at, paths);
            return Ok(());
        }
        None => {
            return judge(host, shown, table, entry, file);
        }
    }
}

// Looks at each entry, the least name first.
fn look_at_all<H: Host>(
    alloc: Global,
    host: &mut H,
    shown: &SeenNames,
    table: &mut Table,
    entries: &mut BTreeSet<String>,
) -> Result<(), AdministrationFault>
    requires { Needs (H.state host.old) (λ w. MakeEntryPaths (contains_text entries.old)) }
    ensures sound { IsTrue (H.state host.new).honest
        → OnOk result
        (AreSoundAmong (seen shown.now (H.state host.old).world) (names_of table.old) (contains_text entries.old)) }
    ensures taken { IsTrue (H.state host.new).honest
        → OnOk result
        (HaveTaken (seen shown.now (H.state host.old).world) (contains_text entries.old) table.old table.new) }
    ensures fault { IsTrue (H.state host.new).honest
        → IfErr result
        (IsFaultAmong (seen shown.now (H.state host.old).world) (names_of table.old) (contains_text entries.old)) }
    ensures reads { Reads (H.state host.old) (H.state host.new) }
    ensures silent { Silent (H.state host.old) (H.state host.new) }
    ensures counts { CountsAdministration (H.state host.old) (H.state host.new) result }
{
    while let Some(entry) = entries.pop_first() {
        look_at(alloc, host, shown, table, entry.as_str())?;
    }
    Ok(())
}

/// The lists of the packages of these names, as the directory has them.
pub(crate) fn read_info<H: Host>(
    alloc: Global,
    host: &mut H,
    shown: &SeenNames,
    names: &[Text],
) -> Result<Table, AdministrationFault>
    requires sources { Needs (H.state host.old) (AreSources shown.now) }
    ensures lists { Tells result (λ table w. HasLists (seen shown.now w) names.now table) (H.state host.old)
        (H.state host.new) }
    ensures text { Tells result (λ table w. HasBadName (seen shown.now w) info_path → ⊥) (H.state host.old)
        (H.state host.new) }
    ensures sound { Tells result (λ table w. AreSound (seen shown.now w) names.now) (H.state host.old)
        (H.state host.new) }
    ensures damage { IsTrue (H.state host.new).honest
        → IfErr result (IsInfoDamage (seen shown.now (H.state host.old).world) names.now) }
    ensures reads { Reads (H.state host.old) (H.state host.new) }
    ensures silent { Silent (H.state host.old) (H.state host.new) }
    ensures counts { CountsAdministration (H.state host.old) (H.state host.new) result }
{
    let mut entries = entries_in(alloc, host, shown)?;
    let mut table = Table::of_names(alloc, names)?;
    look_at_all(alloc, host, shown, &mut table, &mut entries)?;
    Ok(table)
}
