// Writing a list.
ghost use Rattle.std.specs.Prelude.{◌≡◌, ◌<◌, ◌++◌, ◌∷◌, [], List, IfOk, OnOk, OnErr, length, true};
ghost use Rattle.host_core.specs.Host.{AtEachMoment, Counts, Leaves, Needs, Silent};
ghost use Rattle.texts.specs.PackageNames.{is_package_name};
ghost use Rattle.administration.specs.Files.{IsReplaced, IsReplacing};
ghost use Rattle.administration.specs.Places.{list_path};
ghost use Rattle.file_lists.specs.Index.{HasComeIn, HaveRoom, IsIndexed};
ghost use Rattle.file_lists.specs.Owners.{AreListPaths};
ghost use Rattle.file_lists.specs.declared.paths.PackageList.{PackageList as AList};
ghost use Rattle.file_lists.specs.Writing.{line_of, list_text, list_file, with_list, IsListReady, IsEntered};

use crate::index::Index;
use crate::paths::Paths;
use crate::table::Table;
use administration::{list_path, replace};
use host_core::{Access, Content, Host, HostFault, Node, RootPath};
use std::alloc::{AllocError, Global};
use texts::Text;

fn line_of(path: &RootPath) -> &str
    ensures { result.now ≡ line_of path.now }
{
    if path.as_str() == "" {
        return "/";
    }
    path.as_str()
}

fn write_line(text: &mut Vec<u8>, line: &str) -> Result<(), AllocError>
    ensures { OnOk result (text.new.items ≡ text.old.items ++ line.now ++ 10 ∷ []) }
{
    text.extend_from_slice(line.as_bytes())?;
    text.push(b'\n')?;
    Ok(())
}

// The text of a list: the root, then its paths.
fn list_text(alloc: Global, paths: &[RootPath]) -> Result<Vec<u8>, AllocError>
    ensures { IfOk result (λ text. text.items ≡ list_text paths.now) }
{
    let mut text = Vec::from_slice(alloc, b"/.\n")?;
    for path in paths {
        write_line(&mut text, line_of(path))?;
    }
    Ok(text)
}

fn list_file(alloc: Global, paths: &[RootPath]) -> Result<Node, AllocError>
    ensures { IfOk result (λ node. node ≡ list_file paths.now) }
{
    let bytes = Content::new(list_text(alloc, paths)?);
    Ok(Node::File {
        bytes,
        access: Access::own(0o644),
    })
}

// Writes the file of a list: at each moment the old one stands there or the whole new one.
fn write_list<H: Host>(
    alloc: Global,
    host: &mut H,
    name: &Text,
    paths: &[RootPath],
) -> Result<(), HostFault>
    requires named { is_package_name name.now ≡ true }
    requires ready { Needs (H.state host.old) (IsListReady name.now) }
    ensures replaced { Leaves result (IsReplaced (list_path name.now) (list_file paths.now))
        (H.state host.old) (H.state host.new) }
    ensures any_moment { AtEachMoment (IsReplacing (list_path name.now) (list_file paths.now))
        (H.state host.old) (H.state host.new) }
    ensures silent { Silent (H.state host.old) (H.state host.new) }
    ensures counts { Counts (H.state host.old) (H.state host.new) result }
{
    let path = list_path(alloc, name)?;
    let node = list_file(alloc, paths)?;
    replace(host, &path, &node)
}

// Enters a list into the index, which is given up where there is no memory for that.
fn enter(index: &mut Option<Index>, paths: &[RootPath], slot: usize)
    ensures { IsEntered index.old paths.now slot index.new }
{
    let entered = match index {
        Some(rows) => rows.enter_all(paths, slot).is_ok(),
        None => true,
    };
    if !entered {
        *index = None;
    }
}

// The lists from a place on stand one higher in the index; there were so many lists.
fn make_room(index: &mut Option<Index>, at: usize, count: usize)
    ensures { HaveRoom at count index.old index.new }
{
    if let Some(rows) = index {
        rows.make_room(at, count);
    }
}

// The index of the lists, if there was one and there is memory for it.
fn rebuilt(alloc: Global, table: &Table, index: &Option<Index>) -> Option<Index>
    ensures { IsIndexed result table.now }
{
    let Some(old) = index else {
        return None;
    };
    match Index::of_lists(alloc, old.aliases(), table.as_slice()) {
        Ok(new) => Some(new),
        Err(_) => None,
    }
}

fn is_crowded(index: &Option<Index>) -> bool {
    match index {
        Some(rows) => rows.is_crowded(),
        None => false,
    }
}

// Enters a list that came to a place among so many. The index is built anew where it has outgrown
// its rows, so that they stay short; else no other path is looked at.
fn enter_new(alloc: Global, table: &Table, index: &mut Option<Index>, at: usize, count: usize)
    requires { at < length table.now }
    ensures { (lists : List AList) → HasComeIn at count lists table.now → IsIndexed index.old lists
        → IsIndexed index.new table.now }
{
    if is_crowded(&*index) {
        *index = rebuilt(alloc, table, &*index);
        return;
    }
    make_room(index, at, count);
    enter(index, table.as_slice()[at].paths.as_slice(), at);
}

// Gives a package a list.
fn put(
    alloc: Global,
    table: &mut Table,
    index: &mut Option<Index>,
    name: &Text,
    paths: Paths,
) -> Result<(), AllocError>
    requires indexed { IsIndexed index.old table.old }
    requires paths { AreListPaths paths }
    ensures indexed { IsIndexed index.new table.new }
    ensures table { OnOk result (table.new ≡ with_list name.now paths table.old) }
    ensures err { OnErr result (table.new ≡ table.old) }
{
    table.law();
    match table.find(name.as_str().as_bytes()) {
        Some(at) => {
            enter(index, paths.as_slice(), at);
            table.set(at, paths);
            return Ok(());
        }
        None => {
            let count = table.as_slice().len();
            let at = table.insert(name.copy()?, paths)?;
            enter_new(alloc, table, index, at, count);
            return Ok(());
        }
    }
}

/// Writes the list of a package, and takes it into the table.
pub(crate) fn replace_list<H: Host>(
    alloc: Global,
    host: &mut H,
    table: &mut Table,
    index: &mut Option<Index>,
    name: &Text,
    paths: Paths,
) -> Result<(), HostFault>
    requires named { is_package_name name.now ≡ true }
    requires paths { AreListPaths paths }
    requires ready { Needs (H.state host.old) (IsListReady name.now) }
    requires indexed { IsIndexed index.old table.old }
    ensures indexed { IsIndexed index.new table.new }
    ensures table { OnOk result (table.new ≡ with_list name.now paths table.old) }
    ensures err { OnErr result (table.new ≡ table.old) }
    ensures replaced { Leaves result (IsReplaced (list_path name.now) (list_file paths))
        (H.state host.old) (H.state host.new) }
    ensures any_moment { AtEachMoment (IsReplacing (list_path name.now) (list_file paths))
        (H.state host.old) (H.state host.new) }
    ensures silent { Silent (H.state host.old) (H.state host.new) }
    ensures counts { Counts (H.state host.old) (H.state host.new) result }
{
    write_list(alloc, host, name, paths.as_slice())?;
    put(alloc, table, index, name, paths)?;
    Ok(())
}
