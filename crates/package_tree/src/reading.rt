// Reading a tree: its control file, and what stands beside it.
ghost use Rattle.std.specs.Prelude.{◌≡◌, ◌≤◌, ◌↔◌, ◌||◌, true, false, IsTrue, IfOk, IfErr, IfSome, OnOk, MatchOption, ℕ, List, Some, [], length};
ghost use Rattle.std.specs.List.{list_any, list_all};
ghost use Rattle.control_fields.specs.Grammar.{lines_of};
ghost use Rattle.host_core.specs.Paths.{is_path};
ghost use Rattle.host_core.specs.World.{World};
ghost use Rattle.host_core.specs.Host.{Counts, Leaves, Needs, Reads, Silent, Tells};
ghost use Rattle.host_core.specs.Looks.{Looks};
ghost use Rattle.host_core.specs.declared.call.Script.{Script as AScript};
ghost use Rattle.host_core.specs.declared.node.Access.{Access};
ghost use Rattle.administration.specs.Scripts.{script_of, file_of};
ghost use Rattle.package_tree.specs.Fault.{CountsTree};
ghost use Rattle.package_tree.specs.Debian.{is_wrong, is_entry, is_shipped, lists_conffiles, script_path, conffiles_path, member_paths, Ships, HasNoneWrong, IsFirstWrong, AreContents};
ghost use Rattle.package_tree.specs.Conffiles.{is_white, entries_at};
ghost use Rattle.package_tree.specs.ControlLimit.{HasNoneOver, IsFirstOver, IsOverOther, IsOverTold};
ghost use Rattle.package_tree.specs.OtherFiles.{names_of as other_names_of, AreOthers};
ghost use Rattle.package_tree.specs.ConffileFaults.{HasGoodLines, IsOfBoth};
ghost use Rattle.package_tree.specs.ControlFile.{IsControlText};
ghost use Rattle.package_tree.specs.Owners.{root_at};
ghost use Rattle.package_tree.specs.PathFaults.{AreGoodPaths, HasGoodPaths, IsBadPath};
ghost use Rattle.package_tree.specs.Reading.{AreLinesOf, AreTrimmedLines, IsFound, IsWhole};
ghost use Rattle.package_tree.specs.ShipMap.{paths_of, AreFiles, IsTooLarge};
ghost use Rattle.package_tree.specs.Shipped.{AreInOrder, ArePathTexts, AreShipped, HasNoPath, IsBadBeside, IsFirstPath};
ghost use Rattle.package_tree.specs.Tree.{HasControl, HasGoodControl, HasGoodFiles, IsTreeOf, IsReadingFault};

use crate::collecting::{Excess, collect};
use crate::conffile_lines::{Entry, entries_at, first_odd, is_white};
use crate::control_file::{ControlFile, read_control};
use crate::control_limit::{first_over, is_over, member_path};
use crate::fault::TreeFault;
use crate::line_faults::{first_astray, first_flagged};
use crate::line_names::{LineKind, files_in, in_order, names_of};
use crate::other_file::OtherFile;
use crate::other_files::OtherFiles;
use crate::others::read_others;
use crate::package::Package;
use crate::path_faults::{first_reserved, lesser};
use crate::ship_map::ShipMap;
use crate::ship_paths::ShipPaths;
use crate::shipped::{Shipped, give_to_root};
use crate::walk::walk;
use administration::{ScriptFile, Scripts};
use host_core::{Content, Host, HostFault, Listing, Node, RootPath, ShipPath};
use std::alloc::{AllocError, Global};
use std::collections::BTreeSet;
use texts::Text;

// The nodes in `DEBIAN` beside the control file, and whether the tree ships anything.
#[derive(Drop)]
struct Contents {
    conffiles: Option<Node>,
    postinst: Option<Node>,
    postrm: Option<Node>,
    preinst: Option<Node>,
    prerm: Option<Node>,
    ships: bool,
}

impl Contents {
    ghost use Rattle.std.specs.Prelude.{None};

    fn none() -> Self
        ensures { result
            ≡ record {
              conffiles = None;
              postinst = None;
              postrm = None;
              preinst = None;
              prerm = None;
              ships =
                  false;
            } }
    {
        Contents {
            conffiles: None,
            postinst: None,
            postrm: None,
            preinst: None,
            prerm: None,
            ships: false,
        }
    }
}

fn is_shipped(name: &str) -> bool
    ensures { result ≡ is_shipped name.now }
{
    name != "DEBIAN"
}

fn has_shipped(names: &[Text]) -> bool
    ensures { result ≡ list_any is_shipped names.now }
{
    names.iter().any(|name| is_shipped(name.as_str()))
}

// A name that isn't text isn't `DEBIAN`.
fn lists_shipped(listing: &Listing) -> bool
    ensures { result ≡ (listing.now.bad || list_any is_shipped listing.now.names) }
{
    listing.bad || has_shipped(listing.names.as_slice())
}

// Whether something beside `DEBIAN` stands at the root.
fn ships<H: Host>(alloc: Global, host: &mut H) -> Result<bool, HostFault>
    ensures looks { Looks result (λ ships w. IsTrue ships ↔ Ships w) (H.state host.old)
        (H.state host.new) }
{
    let root = RootPath::from_str(alloc, "")?;
    let listing = host.list(&root)?;
    Ok(lists_shipped(&listing))
}

// What stands at a path of the tree.
fn node_at<H: Host>(alloc: Global, host: &mut H, path: &str) -> Result<Option<Node>, HostFault>
    requires { is_path path.now ≡ true }
    ensures looks { Looks result (λ node w. node ≡ w path.now) (H.state host.old)
        (H.state host.new) }
{
    let path = RootPath::from_str(alloc, path)?;
    host.node(&path)
}

fn is_wrong(node: &Option<Node>) -> bool
    ensures { result ≡ is_wrong node.now }
{
    match node {
        None => false,
        Some(Node::File { .. }) => false,
        Some(Node::Dir { .. }) => true,
        Some(Node::Link { .. }) => true,
    }
}

fn is_blank(line: &[u8]) -> bool
    ensures { result ≡ list_all is_white line.now }
{
    line.iter().all(|b| is_white(*b))
}

fn is_entry(line: &[u8]) -> bool
    ensures { result ≡ is_entry line.now }
{
    !is_blank(line)
}

fn has_entry(text: &[u8]) -> bool
    ensures { result ≡ list_any is_entry (lines_of text.now) }
{
    text.split(|b| *b == b'\n').any(is_entry)
}

// Whether a line of the file `conffiles` isn't blank.
fn lists_conffiles(node: &Option<Node>) -> Result<bool, AllocError>
    ensures { IfOk result (λ lists. lists ≡ lists_conffiles node.now) }
{
    match node {
        Some(Node::File { bytes, .. }) => Ok(has_entry(bytes.held()?)),
        Some(Node::Dir { .. }) => Ok(false),
        Some(Node::Link { .. }) => Ok(false),
        None => Ok(false),
    }
}

// The first path in path order where something stands that isn't a file.
fn first_wrong(contents: &Contents) -> Option<&'static str>
    ensures found { (w : World) → AreContents w contents.now
        → MatchOption result (HasNoneWrong w member_paths)
        (λ path. IsFirstWrong w member_paths path.now) }
    ensures path { IfSome result (λ path. is_path path.now ≡ true) }
{
    if is_wrong(&contents.conffiles) {
        return Some("/DEBIAN/conffiles");
    }
    if is_wrong(&contents.postinst) {
        return Some("/DEBIAN/postinst");
    }
    if is_wrong(&contents.postrm) {
        return Some("/DEBIAN/postrm");
    }
    if is_wrong(&contents.preinst) {
        return Some("/DEBIAN/preinst");
    }
    if is_wrong(&contents.prerm) {
        return Some("/DEBIAN/prerm");
    }
    None
}

// The first path in path order where a file of more bytes stands than may be.
fn first_over_member(contents: &Contents) -> Option<&'static str>
    ensures found { (w : World) → AreContents w contents.now
        → MatchOption result (HasNoneOver w member_paths)
        (λ path. IsFirstOver w member_paths path.now) }
    ensures path { IfSome result (λ path. is_path path.now ≡ true) }
{
    if is_over(&contents.conffiles) {
        return Some("/DEBIAN/conffiles");
    }
    if is_over(&contents.postinst) {
        return Some("/DEBIAN/postinst");
    }
    if is_over(&contents.postrm) {
        return Some("/DEBIAN/postrm");
    }
    if is_over(&contents.preinst) {
        return Some("/DEBIAN/preinst");
    }
    if is_over(&contents.prerm) {
        return Some("/DEBIAN/prerm");
    }
    None
}

// The script that a node is, which root will run and so owns; one that isn't a file was ruled out.
fn script_at(node: Option<Node>) -> Option<ScriptFile>
    ensures { is_wrong node ≡ false → file_of result ≡ root_at node }
{
    match node {
        Some(mut node) => {
            give_to_root(&mut node);
            ScriptFile::from_node(node)
        }
        None => None,
    }
}

// The scripts, where files stand at their paths.
fn scripts_of(contents: Contents) -> Scripts
    ensures { (w : World) → AreContents w contents → HasNoneWrong w member_paths
        → (script : AScript)
        → file_of (script_of result script) ≡ root_at (w (script_path script)) }
{
    Scripts {
        preinst: script_at(contents.preinst),
        postinst: script_at(contents.postinst),
        prerm: script_at(contents.prerm),
        postrm: script_at(contents.postrm),
    }
}

// Puts what stands at a path of the tree into its place.
fn look_at<H: Host>(
    alloc: Global,
    host: &mut H,
    path: &str,
    node: &mut Option<Node>,
) -> Result<(), HostFault>
    requires { is_path path.now ≡ true }
    ensures found { Leaves result (λ w now. node.new ≡ w path.now) (H.state host.old)
        (H.state host.new) }
    ensures reads { Reads (H.state host.old) (H.state host.new) }
    ensures silent { Silent (H.state host.old) (H.state host.new) }
    ensures counts { Counts (H.state host.old) (H.state host.new) result }
{
    *node = node_at(alloc, host, path)?;
    Ok(())
}

// Looks at all of them.
#[tactic(auto, using(host_core::proofs::Moments::reads_then))]
fn look<H: Host>(alloc: Global, host: &mut H, contents: &mut Contents) -> Result<(), HostFault>
    ensures found { Leaves result (λ w now. AreContents w contents.new) (H.state host.old)
        (H.state host.new) }
    ensures reads { Reads (H.state host.old) (H.state host.new) }
    ensures silent { Silent (H.state host.old) (H.state host.new) }
    ensures counts { Counts (H.state host.old) (H.state host.new) result }
{
    look_at(alloc, host, "/DEBIAN/conffiles", &mut contents.conffiles)?;
    look_at(alloc, host, "/DEBIAN/postinst", &mut contents.postinst)?;
    look_at(alloc, host, "/DEBIAN/postrm", &mut contents.postrm)?;
    look_at(alloc, host, "/DEBIAN/preinst", &mut contents.preinst)?;
    look_at(alloc, host, "/DEBIAN/prerm", &mut contents.prerm)?;
    contents.ships = ships(alloc, host)?;
    Ok(())
}

// The same as a path of its own.
fn wrong_path(alloc: Global, contents: &Contents) -> Result<Option<RootPath>, AllocError>
    ensures { IfOk result
        (λ found. (w : World) → AreContents w contents.now
        → MatchOption found (HasNoneWrong w member_paths) (IsFirstWrong w member_paths)) }
{
    match first_wrong(contents) {
        Some(path) => Ok(Some(RootPath::from_str(alloc, path)?)),
        None => Ok(None),
    }
}

// The same of the first path with too many bytes.
fn over_path(alloc: Global, contents: &Contents) -> Result<Option<RootPath>, AllocError>
    ensures { IfOk result
        (λ found. (w : World) → AreContents w contents.now
        → MatchOption found (HasNoneOver w member_paths) (IsFirstOver w member_paths)) }
{
    match first_over_member(contents) {
        Some(path) => Ok(Some(RootPath::from_str(alloc, path)?)),
        None => Ok(None),
    }
}

fn bytes_of(node: Option<Node>) -> Option<Content>
    ensures { MatchOption result
        ((bytes : List ℕ) (access : Access) → node ≡ Some (Node.File bytes access) → ⊥)
        (λ bytes. (access : Access) × (node ≡ Some (Node.File bytes access))) }
{
    match node {
        Some(Node::File { bytes, .. }) => Some(bytes),
        Some(Node::Dir { .. }) => None,
        Some(Node::Link { .. }) => None,
        None => None,
    }
}

fn control_text<H: Host>(alloc: Global, host: &mut H) -> Result<Content, TreeFault>
    ensures found { Tells result (λ text w. HasControl w text) (H.state host.old)
        (H.state host.new) }
    ensures fault { IsTrue (H.state host.new).honest
        → IfErr result (IsReadingFault (H.state host.old).world) }
    ensures reads { Reads (H.state host.old) (H.state host.new) }
    ensures silent { Silent (H.state host.old) (H.state host.new) }
    ensures counts { CountsTree (H.state host.old) (H.state host.new) result }
{
    let found = node_at(alloc, host, "/DEBIAN/control")?;
    if is_over(&found) {
        return Err(TreeFault::TooLarge(RootPath::from_str(alloc, "/DEBIAN/control")?));
    }
    match bytes_of(found) {
        Some(bytes) => Ok(bytes),
        None => Err(TreeFault::NoControl),
    }
}

/// Reads the control file alone of the tree that the host was opened on. What else is wrong with the tree isn't looked for.
pub fn read_control_file<H: Host>(alloc: Global, host: &mut H) -> Result<ControlFile, TreeFault>
    ensures read { Tells result
        (λ file w. (text : List ℕ) × HasControl w text
        × IsControlText text file.paragraph file.name file.version)
        (H.state host.old) (H.state host.new) }
    ensures fault { IsTrue (H.state host.new).honest
        → IfErr result (IsReadingFault (H.state host.old).world) }
    ensures reads { Reads (H.state host.old) (H.state host.new) }
    ensures silent { Silent (H.state host.old) (H.state host.new) }
    ensures counts { CountsTree (H.state host.old) (H.state host.new) result }
{
    let text = control_text(alloc, host)?;
    read_control(alloc, &text)
}

// The first bad path; where none is bad, the paths that are shipped.
#[tactic(auto, using(host_core::proofs::Moments::reads_then))]
fn first_bad<H: Host>(
    alloc: Global,
    host: &mut H,
    contents: &Contents,
    paths: &mut Vec<RootPath>,
) -> Result<Option<RootPath>, HostFault>
    requires empty { paths.old.items ≡ [] }
    requires contents { Needs (H.state host.old) (λ w. AreContents w contents.now) }
    ensures found { IsTrue (H.state host.new).honest
        → IfOk result
        (λ bad. MatchOption bad
        (HasNoneWrong (H.state host.old).world member_paths
        × (HasNoPath (IsBadBeside (H.state host.old).world)
        × AreShipped (H.state host.old).world paths.new.items))
        (IsFirstPath (IsBadPath (H.state host.old).world))) }
    ensures texts { OnOk result (ArePathTexts paths.new.items) }
    ensures order { OnOk result (AreInOrder paths.new.items) }
    ensures reads { Reads (H.state host.old) (H.state host.new) }
    ensures silent { Silent (H.state host.old) (H.state host.new) }
    ensures counts { Counts (H.state host.old) (H.state host.new) result }
{
    let bad = walk(alloc, host, paths)?;
    match wrong_path(alloc, contents) {
        Ok(wrong) => Ok(lesser(wrong, bad)),
        Err(_) => Err(HostFault::NoMemory),
    }
}

// Finds the paths that are shipped, where none is bad or reserved.
#[tactic(auto, using(host_core::proofs::Moments::reads_then))]
fn read_paths<H: Host>(
    alloc: Global,
    host: &mut H,
    contents: &Contents,
    paths: &mut Vec<RootPath>,
) -> Result<(), TreeFault>
    requires control { Needs (H.state host.old) HasGoodFiles }
    requires empty { paths.old.items ≡ [] }
    requires contents { Needs (H.state host.old) (λ w. AreContents w contents.now) }
    ensures paths { Leaves result (λ w now. HasGoodPaths w × AreShipped w paths.new.items)
        (H.state host.old) (H.state host.new) }
    ensures texts { OnOk result (ArePathTexts paths.new.items) }
    ensures order { OnOk result (AreInOrder paths.new.items) }
    ensures fault { IsTrue (H.state host.new).honest
        → IfErr result (IsReadingFault (H.state host.old).world) }
    ensures reads { Reads (H.state host.old) (H.state host.new) }
    ensures silent { Silent (H.state host.old) (H.state host.new) }
    ensures counts { CountsTree (H.state host.old) (H.state host.new) result }
{
    if let Some(path) = first_bad(alloc, host, contents, paths)? {
        return Err(TreeFault::PathBad(path));
    }
    match first_reserved(paths.as_slice())? {
        Some(path) => Err(TreeFault::Reserved(path)),
        None => Ok(()),
    }
}

// Looks at the other files of `DEBIAN` that are read before the paths, if none is too large.
fn look_within<H: Host>(
    alloc: Global,
    host: &mut H,
    contents: &mut Contents,
) -> Result<(), TreeFault>
    requires control { Needs (H.state host.old) HasGoodControl }
    ensures found { Leaves result (λ w now. AreContents w contents.new) (H.state host.old)
        (H.state host.new) }
    ensures files { Leaves result (λ w now. HasGoodFiles w) (H.state host.old)
        (H.state host.new) }
    ensures fault { IsTrue (H.state host.new).honest
        → IfErr result (IsReadingFault (H.state host.old).world) }
    ensures reads { Reads (H.state host.old) (H.state host.new) }
    ensures silent { Silent (H.state host.old) (H.state host.new) }
    ensures counts { CountsTree (H.state host.old) (H.state host.new) result }
{
    look(alloc, host, contents)?;
    match over_path(alloc, contents)? {
        Some(path) => Err(TreeFault::TooLarge(path)),
        None => Ok(()),
    }
}

// Reads what stands beside a control file in which nothing is wrong.
#[tactic(auto, using(host_core::proofs::Moments::reads_then))]
fn read_contents<H: Host>(
    alloc: Global,
    host: &mut H,
    contents: &mut Contents,
    paths: &mut Vec<RootPath>,
) -> Result<(), TreeFault>
    requires control { Needs (H.state host.old) HasGoodControl }
    requires empty { paths.old.items ≡ [] }
    ensures found { Leaves result (λ w now. AreContents w contents.new) (H.state host.old)
        (H.state host.new) }
    ensures files { Leaves result (λ w now. HasGoodFiles w) (H.state host.old)
        (H.state host.new) }
    ensures paths { Leaves result (λ w now. HasGoodPaths w × AreShipped w paths.new.items)
        (H.state host.old) (H.state host.new) }
    ensures texts { OnOk result (ArePathTexts paths.new.items) }
    ensures order { OnOk result (AreInOrder paths.new.items) }
    ensures fault { IsTrue (H.state host.new).honest
        → IfErr result (IsReadingFault (H.state host.old).world) }
    ensures reads { Reads (H.state host.old) (H.state host.new) }
    ensures silent { Silent (H.state host.old) (H.state host.new) }
    ensures counts { CountsTree (H.state host.old) (H.state host.new) result }
{
    look_within(alloc, host, contents)?;
    read_paths(alloc, host, contents, paths)?;
    Ok(())
}

// What the lines of `conffiles` say.
#[derive(Drop)]
struct Lines {
    entries: Vec<Entry>,
    plain: BTreeSet<String>,
    flagged: Vec<ShipPath>,
}

// The lines of `conffiles`, what the plain ones name, and the paths that are flagged.
fn lines_at(alloc: Global, conffiles: &Option<Node>) -> Result<Lines, AllocError>
    ensures lines { IfOk result (AreLinesOf (entries_at conffiles.now)) }
    ensures trimmed { IfOk result AreTrimmedLines }
{
    let entries = entries_at(alloc, conffiles)?;
    let plain = names_of(alloc, entries.as_slice(), LineKind::Plain)?;
    let named = names_of(alloc, entries.as_slice(), LineKind::Flagged)?;
    let flagged = in_order(alloc, named)?;
    Ok(Lines {
        entries,
        plain,
        flagged,
    })
}

// Finds what is wrong with a line, if anything.
#[tactic(auto, using(host_core::proofs::Moments::reads_then))]
fn check_lines<H: Host>(
    alloc: Global,
    host: &mut H,
    paths: &[RootPath],
    lines: &Lines,
) -> Result<(), TreeFault>
    requires paths { AreInOrder paths.now }
    requires texts { ArePathTexts paths.now }
    requires flagged { AreInOrder lines.now.flagged.items }
    requires control { Needs (H.state host.old) HasGoodFiles }
    requires good { Needs (H.state host.old) (λ w. AreGoodPaths w paths.now) }
    requires lines { Needs (H.state host.old)
        (λ w. AreLinesOf (entries_at (w conffiles_path)) lines.now) }
    ensures good { Leaves result (λ w now. HasGoodLines w) (H.state host.old) (H.state host.new) }
    ensures apart { OnOk result (HasNoPath (IsOfBoth lines.now.flagged.items paths.now)) }
    ensures fault { IsTrue (H.state host.new).honest
        → IfErr result (IsReadingFault (H.state host.old).world) }
    ensures reads { Reads (H.state host.old) (H.state host.new) }
    ensures silent { Silent (H.state host.old) (H.state host.new) }
    ensures counts { CountsTree (H.state host.old) (H.state host.new) result }
{
    if let Some(name) = first_astray(alloc, host, paths, lines.entries.as_slice())? {
        return Err(TreeFault::ConffileNotShipped(name));
    }
    if let Some(path) = first_flagged(paths, lines.flagged.as_slice())? {
        return Err(TreeFault::ConffileShipped(path));
    }
    match first_odd(lines.entries.as_slice()) {
        Some(line) => Err(TreeFault::ConffileFlag(line)),
        None => Ok(()),
    }
}

// Collects what is shipped, if a tree may hold it.
fn collect_files<H: Host>(
    alloc: Global,
    host: &mut H,
    paths: &[RootPath],
    files: &mut Vec<Shipped>,
) -> Result<(), TreeFault>
    requires empty { files.old.items ≡ [] }
    requires control { Needs (H.state host.old) HasGoodFiles }
    requires shipped { Needs (H.state host.old) (λ w. AreGoodPaths w paths.now) }
    requires lines { Needs (H.state host.old) HasGoodLines }
    ensures found { Leaves result (λ w now. AreFiles w files.new.items × HasNoPath (IsTooLarge w))
        (H.state host.old) (H.state host.new) }
    ensures whole { OnOk result
        ((paths_of files.new.items ≡ paths.now) × (length files.new.items ≤ 65536)) }
    ensures fault { IsTrue (H.state host.new).honest
        → IfErr result (IsReadingFault (H.state host.old).world) }
    ensures reads { Reads (H.state host.old) (H.state host.new) }
    ensures silent { Silent (H.state host.old) (H.state host.new) }
    ensures counts { CountsTree (H.state host.old) (H.state host.new) result }
{
    match collect(alloc, host, paths, files)? {
        Some(Excess::Large(path)) => Err(TreeFault::TooLarge(path)),
        Some(Excess::Many(_)) => Err(TreeFault::TooMany),
        None => Ok(()),
    }
}

// The path of the first of some files that has too many bytes.
fn over_other(alloc: Global, others: &[OtherFile]) -> Result<Option<RootPath>, AllocError>
    ensures { IfOk result (IsOverTold others.now) }
{
    match first_over(others) {
        Some(other) => Ok(Some(member_path(alloc, &other.name)?)),
        None => Ok(None),
    }
}

// Collects the files of `DEBIAN` that are stored as they are, if none is too large.
fn collect_others<H: Host>(
    alloc: Global,
    host: &mut H,
    others: &mut Vec<OtherFile>,
) -> Result<(), TreeFault>
    requires empty { others.old.items ≡ [] }
    requires control { Needs (H.state host.old) HasGoodFiles }
    requires paths { Needs (H.state host.old) HasGoodPaths }
    requires lines { Needs (H.state host.old) HasGoodLines }
    requires room { Needs (H.state host.old) (λ w. HasNoPath (IsTooLarge w)) }
    ensures found { Leaves result
        (λ w now. AreOthers w others.new.items × HasNoPath (IsOverOther w)) (H.state host.old)
        (H.state host.new) }
    ensures order { OnOk result (AreInOrder (other_names_of others.new.items)) }
    ensures fault { IsTrue (H.state host.new).honest
        → IfErr result (IsReadingFault (H.state host.old).world) }
    ensures reads { Reads (H.state host.old) (H.state host.new) }
    ensures silent { Silent (H.state host.old) (H.state host.new) }
    ensures counts { CountsTree (H.state host.old) (H.state host.new) result }
{
    read_others(alloc, host, others)?;
    match over_other(alloc, others.as_slice())? {
        Some(path) => Err(TreeFault::TooLarge(path)),
        None => Ok(()),
    }
}

// What a tree holds beside its control file and scripts.
#[derive(Drop)]
struct Found {
    files: Vec<Shipped>,
    conffiles: Vec<ShipPath>,
    others: Vec<OtherFile>,
}

impl Found {
    fn none(alloc: Global) -> Self
        ensures files { result.files.items ≡ [] }
        ensures others { result.others.items ≡ [] }
    {
        Found {
            files: Vec::new(alloc),
            conffiles: Vec::new(alloc),
            others: Vec::new(alloc),
        }
    }
}

// Reads what the paths and the lines name.
#[tactic(auto, using(host_core::proofs::Moments::reads_then))]
fn read_found<H: Host>(
    alloc: Global,
    host: &mut H,
    paths: &[RootPath],
    lines: &Lines,
    found: &mut Found,
) -> Result<(), TreeFault>
    requires files { found.old.files.items ≡ [] }
    requires others { found.old.others.items ≡ [] }
    requires paths { AreInOrder paths.now }
    requires texts { ArePathTexts paths.now }
    requires flagged { AreInOrder lines.now.flagged.items }
    requires control { Needs (H.state host.old) HasGoodFiles }
    requires good { Needs (H.state host.old) (λ w. AreGoodPaths w paths.now) }
    requires lines { Needs (H.state host.old)
        (λ w. AreLinesOf (entries_at (w conffiles_path)) lines.now) }
    ensures found { Leaves result (λ w now. IsFound w found.new) (H.state host.old)
        (H.state host.new) }
    ensures whole { OnOk result (IsWhole lines.now found.new) }
    ensures fault { IsTrue (H.state host.new).honest
        → IfErr result (IsReadingFault (H.state host.old).world) }
    ensures reads { Reads (H.state host.old) (H.state host.new) }
    ensures silent { Silent (H.state host.old) (H.state host.new) }
    ensures counts { CountsTree (H.state host.old) (H.state host.new) result }
{
    check_lines(alloc, host, paths, lines)?;
    collect_files(alloc, host, paths, &mut found.files)?;
    collect_others(alloc, host, &mut found.others)?;
    found.conffiles = files_in(alloc, found.files.as_slice(), &lines.plain)?;
    Ok(())
}
// The package of what was read.
fn assemble(
    alloc: Global,
    control: ControlFile,
    contents: Contents,
    lines: Lines,
    found: Found,
    has_conffiles: bool,
) -> Package
    requires whole { IsWhole lines found }
    requires trimmed { AreTrimmedLines lines }
    requires listed { has_conffiles ≡ lists_conffiles contents.conffiles }
    ensures { (w : World) (text : List ℕ) → HasControl w text
        → IsControlText text control.paragraph control.name control.version → AreContents w contents
        → HasNoneOver w member_paths → HasGoodPaths w → AreLinesOf (entries_at (w conffiles_path)) lines → IsFound w found
        → IsTreeOf w result }
{
    let ships = contents.ships;
    Package {
        name: control.name,
        version: control.version,
        control: control.paragraph,
        relations: control.relations,
        scripts: scripts_of(contents),
        others: OtherFiles::new(alloc, found.others),
        files: ShipMap::new(alloc, found.files),
        conffiles: ShipPaths::new(alloc, found.conffiles),
        flagged: ShipPaths::new(alloc, lines.flagged),
        ships,
        has_conffiles,
    }
}

/// Reads the tree that the host was opened on.
#[tactic(auto, using(host_core::proofs::Moments::reads_then))]
pub fn read_tree<H: Host>(alloc: Global, host: &mut H) -> Result<Package, TreeFault>
    ensures read { Tells result (λ found w. IsTreeOf w found) (H.state host.old)
        (H.state host.new) }
    ensures fault { IsTrue (H.state host.new).honest
        → IfErr result (IsReadingFault (H.state host.old).world) }
    ensures reads { Reads (H.state host.old) (H.state host.new) }
    ensures silent { Silent (H.state host.old) (H.state host.new) }
    ensures counts { CountsTree (H.state host.old) (H.state host.new) result }
{
    let control = read_control_file(alloc, host)?;
    let mut contents = Contents::none();
    let mut paths = Vec::new(alloc);
    read_contents(alloc, host, &mut contents, &mut paths)?;
    let lines = lines_at(alloc, &contents.conffiles)?;
    let has_conffiles = lists_conffiles(&contents.conffiles)?;
    let mut found = Found::none(alloc);
    read_found(alloc, host, paths.as_slice(), &lines, &mut found)?;
    Ok(assemble(alloc, control, contents, lines, found, has_conffiles))
}
