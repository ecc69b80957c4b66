// What is noted beside the calls of rows: how far each package is, each in a file of its own, and the file of the file row.
ghost use Rattle.std.specs.Prelude.{◌≡◌, [], ◌∷◌, Some, true, false, drop, nat_eq, IfOk, IsTrue};
ghost use Rattle.std.specs.List.{list_any};
ghost use Rattle.host_core.specs.Host.{Counts, Reads, Silent, Tells};
ghost use Rattle.host_core.specs.Paths.{is_path};
ghost use Rattle.host_core.specs.World.{IsDirectory, IsFile};
ghost use Rattle.administration.specs.Files.{NoDirectory};
ghost use Rattle.administration.specs.Places.{temporary};
ghost use Rattle.tests_steps.specs.Nowhere.{nowhere, nowhere_own};
ghost use Rattle.undo_rows.specs.Place.{is_declined};
ghost use Rattle.undo_rows.specs.Stops.{AtEachStop};

use crate::stack_calls::RowOf;
use administration::{Standing, is_directory, look, replace};
use host_core::{Access, Content, Host, HostFault, Node, Places, RootPath};
use std::alloc::{AllocError, Global};
use texts::Text;
use undo_rows::{Around, Failed, Fall, Owner, Row, StepFault};

// Whose file it is.
#[derive(Clone, Copy)]
pub(crate) enum Whose {
    Alpha,
    Bravo,
    Charlie,
    Files,
}

impl Whose {
    // The file's name under the root.
    fn path(self) -> &'static str
        ensures path { is_path result.now ≡ true }
        ensures room { is_path (temporary result.now) ≡ true }
        ensures first { result.now ≡ 47 ∷ drop 1 result.now }
        ensures plain { list_any (nat_eq 47) (drop 1 result.now) ≡ false }
    {
        match self {
            Whose::Alpha => "/alpha",
            Whose::Bravo => "/bravo",
            Whose::Charlie => "/charlie",
            Whose::Files => "/files",
        }
    }
}

// What is noted of whom.
pub(crate) type Note = Option<(Whose, &'static str)>;

// The rows with the notes beside each, the places that scripts leave alone, and whether the file row has a step fault.
#[derive(Drop)]
pub(crate) struct Noting {
    pub(crate) alloc: Global,
    pub(crate) places: Places,
    pub(crate) rows: &'static [RowOf],
    pub(crate) clashes: bool,
}

fn file(alloc: Global, text: &str) -> Result<Node, AllocError>
    ensures { IfOk result IsFile }
{
    let bytes = Content::from_slice(alloc, text.as_bytes())?;
    let access = Access::own(0o644);
    Ok(Node::File { bytes, access })
}

fn is_free<H: Host>(host: &mut H, path: &RootPath) -> Result<bool, HostFault>
    ensures found { Tells result (λ is w. IsTrue is → NoDirectory (w path.now)) (H.state host.old)
        (H.state host.new) }
    ensures reads { Reads (H.state host.old) (H.state host.new) }
    ensures silent { Silent (H.state host.old) (H.state host.new) }
    ensures counts { Counts (H.state host.old) (H.state host.new) result }
{
    match look(host, path)? {
        Standing::Directory => Ok(false),
        Standing::Nothing | Standing::Loose => Ok(true),
    }
}

// Whether a file may come to stand at a path right below a directory.
#[tactic(auto, using(host_core::proofs::Moments::reads_then))]
fn is_ready<H: Host>(
    host: &mut H,
    top: &RootPath,
    path: &RootPath,
    spare: &RootPath,
) -> Result<bool, HostFault>
    ensures found { Tells result (λ is w. IsTrue is → IsDirectory (w top.now)
        × NoDirectory (w path.now) × NoDirectory (w spare.now)) (H.state host.old)
        (H.state host.new) }
    ensures reads { Reads (H.state host.old) (H.state host.new) }
    ensures silent { Silent (H.state host.old) (H.state host.new) }
    ensures counts { Counts (H.state host.old) (H.state host.new) result }
{
    let above = is_directory(host, top)?;
    let home = is_free(host, path)?;
    let aside = is_free(host, spare)?;
    Ok(above && home && aside)
}

fn write_file<H: Host>(
    alloc: Global,
    host: &mut H,
    whose: Whose,
    node: &Node,
) -> Result<(), HostFault>
    requires { IsFile node.now }
    ensures any_moment { AtEachStop (λ es w. Unit {0}) (H.state host.old) (H.state host.new) }
    ensures silent { Silent (H.state host.old) (H.state host.new) }
    ensures counts { Counts (H.state host.old) (H.state host.new) result }
{
    let top = RootPath::from_str(alloc, "")?;
    let path = RootPath::from_str(alloc, whose.path())?;
    let spare = path.with_suffix(".dpkg-inst")?;
    if !is_ready(host, &top, &path, &spare)? {
        return Ok(());
    }
    replace(host, &path, node)
}

fn write_note<H: Host>(alloc: Global, host: &mut H, note: Note) -> Result<(), HostFault>
    ensures any_moment { AtEachStop (λ es w. Unit {0}) (H.state host.old) (H.state host.new) }
    ensures silent { Silent (H.state host.old) (H.state host.new) }
    ensures counts { Counts (H.state host.old) (H.state host.new) result }
{
    let Some((whose, text)) = note else {
        return Ok(());
    };
    let node = file(alloc, text)?;
    write_file(alloc, host, whose, &node)
}

fn is_same(one: &Owner, other: &Owner) -> bool {
    match (one, other) {
        (Owner::Package(name), Owner::Package(other)) => name.is(other),
        (Owner::Files, Owner::Files) => true,
        _ => false,
    }
}

fn has_failed(failed: &[Failed], owner: &Owner) -> bool {
    failed.iter().any(|one| is_same(&one.owner, owner))
}

impl Noting {
    // What is noted before a row.
    fn before(&self, index: usize) -> Note {
        match self.rows.get(index) {
            Some(row) => row.before,
            None => None,
        }
    }

    // What is noted once a row is undone.
    fn behind(&self, index: usize) -> Note {
        match self.rows.get(index) {
            Some(row) => row.undone,
            None => None,
        }
    }
}

fn clash(alloc: Global) -> Result<StepFault, AllocError>
    ensures { IfOk result (λ fault. is_declined (Some fault) ≡ false) }
{
    let path = RootPath::from_str(alloc, "/usr/bin/x")?;
    Ok(StepFault::Clash(path, Text::from_str(alloc, "gamma")?))
}

// Nothing is said of its places: what it notes is judged when it has run.
impl<H: Host> Around<H> for Noting {
    ghost Task = { Unit {0} };

    ghost task = { λ a. tt };

    ghost reference = { λ a. [] };

    ghost fits = { λ t i row. Unit {0} };

    ghost kept = { λ a. a.places };

    ghost file_step_fault = { λ t ts fault. Unit {0} };

    ghost stops = { λ t es w. Unit {0} };

    ghost area = { nowhere };

    ghost own = { nowhere_own };

    ghost at = { λ a s p. Unit {0} };

    ghost stays = { λ a s t p ts here calls. tt };

    ghost holds = { λ a s p more v here honest only. tt };

    fn places(&self) -> &Places {
        &self.places
    }

    fn prepare(&mut self, host: &mut H, _row: &Row, index: usize) -> Result<(), HostFault> {
        let note = self.before(index);
        write_note(self.alloc, host, note)
    }

    fn conclude(
        &mut self,
        _host: &mut H,
        _row: &Row,
        _index: usize,
        _succeeded: bool,
    ) -> Result<(), HostFault> {
        Ok(())
    }

    fn work(
        &mut self,
        host: &mut H,
        _row: &Row,
        index: usize,
    ) -> Result<Option<StepFault>, HostFault> {
        if self.clashes {
            return Ok(Some(clash(self.alloc)?));
        }
        let note = self.before(index);
        write_note(self.alloc, host, note)?;
        Ok(None)
    }

    // Nothing is noted of a package one of whose undo calls failed.
    fn undone(
        &mut self,
        host: &mut H,
        row: &Row,
        index: usize,
        _fall: &Fall,
        failed: &[Failed],
        fails: bool,
    ) -> Result<(), HostFault> {
        if fails || has_failed(failed, &row.owner) {
            return Ok(());
        }
        let note = self.behind(index);
        write_note(self.alloc, host, note)
    }

    // A file row that failed has written nothing.
    fn put_back(
        &mut self,
        host: &mut H,
        _row: &Row,
        index: usize,
        fall: &Fall,
        _failed: &[Failed],
    ) -> Result<(), HostFault> {
        if fall.row <= index {
            return Ok(());
        }
        let note = self.behind(index);
        write_note(self.alloc, host, note)
    }
}
