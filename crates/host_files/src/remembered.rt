// What the host needn't look at again: the directory that was seen last, a path at which nothing was seen, and the file that was
// written last.
ghost use Rattle.std.specs.Prelude.{◌≡◌, ◌⊎◌, ◌≢◌, ◌↔◌, List, None, Some, IsSome, IsSomeAnd, IsTrue, true, string_bytes};
ghost use Rattle.std.specs.Option.{ForSome};
ghost use Rattle.host_core.specs.Paths.{Path};
ghost use Rattle.host_core.specs.Tree.{IsBelow};
ghost use Rattle.host_core.specs.World.{IsDirectory};
ghost use Rattle.host_files.specs.Notes.{asked_by, noted};
ghost use Rattle.host_files.specs.Remembered.{IsApart, IsKnown, IsKnownBy, IsKnownByStep, IsNew, IsNewBy, IsNewByStep, IsOutside, IsVacant, IsVacantBy, IsVacantByStep};
ghost use Rattle.host_files.specs.Replay.{replay};
ghost use Rattle.host_files.specs.declared.record.Noted.{Noted};
ghost use Rattle.host_files.specs.declared.record.Noted.TheVariants.{Looked, Seen};

use crate::disk_model::Disk;
use crate::record::{Asks, Note};
use host_core::{Kind, Node, RootPath};
use std::alloc::Global;

/// Where memory is wanting for it, nothing is remembered and all is looked at again.
#[derive(Drop)]
pub(crate) struct Remembered {
    alloc: Global,
    /// by its path under the root
    pub(crate) directory: Option<String>,
    pub(crate) file: Option<RootPath>,
    /// at which nothing stands
    pub(crate) vacant: Option<RootPath>,
}

/// In each account that fits the answers so far a directory that is known stands, and so does the file that was written last; at a
/// path that is vacant nothing does, nor below it.
pub fn what_is_remembered_stands<D: Disk>()
    ensures known { (d : Path) (notes : List Noted) → IsKnown d notes
        → IsTrue (replay D.Disk.model notes).honest
        → IsDirectory ((replay D.Disk.model notes).world d) }
    ensures new { (f : Path) (notes : List Noted) → IsNew f notes
        → IsTrue (replay D.Disk.model notes).honest → IsSome ((replay D.Disk.model notes).world f) }
    ensures vacant { (v p : Path) (notes : List Noted) → IsVacant v notes
        → IsTrue (replay D.Disk.model notes).honest → (v ≡ p) ⊎ IsBelow v p
        → (replay D.Disk.model notes).world p ≡ None }
{}

// Whether a path goes on below another.
fn is_below(top: &str, path: &str) -> bool
    ensures { IsTrue result ↔ IsBelow top.now path.now }
{
    let Some(rest) = path.strip_prefix(top) else {
        return false;
    };
    let Some(_) = rest.strip_prefix('/') else {
        return false;
    };
    true
}

impl Remembered {
    pub(crate) fn new(alloc: Global) -> Remembered
        ensures directory { result.directory ≡ None }
        ensures file { result.file ≡ None }
        ensures vacant { result.vacant ≡ None }
    {
        Remembered {
            alloc,
            directory: None,
            file: None,
            vacant: None,
        }
    }

    /// A path of its own, unless memory is wanting for it.
    pub(crate) fn owned(&self, path: &str) -> Option<RootPath> {
        match RootPath::parse(self.alloc, path) {
            Ok(path) => path,
            Err(_) => None,
        }
    }

    // After a script or a fault anything may have changed, and a step that was declined says that not all is as it was thought.
    fn forget(&mut self)
        ensures directory { self.new.directory ≡ None }
        ensures file { self.new.file ≡ None }
        ensures vacant { self.new.vacant ≡ None }
    {
        self.directory = None;
        self.file = None;
        self.vacant = None;
    }

    /// Whether a path is that of the directory, or of one above it.
    pub(crate) fn covers(&self, path: &str) -> bool
        ensures { result ≡ true → IsSomeAnd self.now.directory (λ s. (string_bytes s ≡ path.now)
            ⊎ IsBelow path.now (string_bytes s)) }
    {
        match &self.directory {
            Some(directory) => directory.as_str() == path || is_below(path, directory.as_str()),
            None => false,
        }
    }

    /// Whether the file that was written last is the one at a path.
    pub(crate) fn is_new(&self, path: &RootPath) -> bool
        ensures { IsTrue result ↔ (self.now.file ≡ Some path.now) }
    {
        match &self.file {
            Some(file) => file.is(path),
            None => false,
        }
    }

    /// Whether a path goes on below the one that is vacant.
    pub(crate) fn lacks(&self, path: &str) -> bool
        ensures { result ≡ true → IsSomeAnd self.now.vacant (λ v. IsBelow v path.now) }
    {
        match &self.vacant {
            Some(vacant) => is_below(vacant.as_str(), path),
            None => false,
        }
    }

    /// Takes from a call with its answer what it tells.
    pub(crate) fn take_note(&mut self, note: &Note<'_>)
        ensures directory { ForSome self.new.directory (λ s. IsKnownBy (string_bytes s)
            (noted note.now) (self.old.directory ≡ Some s)) }
        ensures file { ForSome self.new.file (λ f. IsNewBy f (noted note.now)
            (self.old.file ≡ Some f)) }
        ensures vacant { ForSome self.new.vacant (λ v. IsVacantBy v (noted note.now)
            (self.old.vacant ≡ Some v)) }
    {
        match *note {
            Note::Looked(path, node) => self.take_node(path, node),
            Note::Seen(path, kind) => self.take_kind(path, kind),
            Note::Listed(path, _) => self.take_listing(path),
            Note::Compared(_, _, _) => {}
            Note::Done(asked) => self.take_step(asked),
            Note::Undone(_) => self.forget(),
            Note::Declined(_) => self.forget(),
            Note::Ended(_, _, _) => self.forget(),
            Note::Broke(_, _) => self.forget(),
            Note::Missed => self.forget(),
        }
    }

    fn take_node(&mut self, path: &RootPath, node: &Option<Node>)
        ensures directory { ForSome self.new.directory (λ s. IsKnownBy (string_bytes s)
            (Looked path.now node.now) (self.old.directory ≡ Some s)) }
        ensures file { self.new.file ≡ self.old.file }
        ensures vacant { ForSome self.new.vacant (λ v. IsVacantBy v (Looked path.now node.now)
            (self.old.vacant ≡ Some v)) }
    {
        match node {
            Some(Node::Dir { .. }) => self.take_directory(path),
            Some(_) => self.take_loose(path),
            None => self.take_absence(path),
        }
    }

    fn take_kind(&mut self, path: &RootPath, kind: Option<Kind>)
        ensures directory { ForSome self.new.directory (λ s. IsKnownBy (string_bytes s)
            (Seen path.now kind) (self.old.directory ≡ Some s)) }
        ensures file { self.new.file ≡ self.old.file }
        ensures vacant { ForSome self.new.vacant (λ v. IsVacantBy v (Seen path.now kind)
            (self.old.vacant ≡ Some v)) }
    {
        match kind {
            Some(Kind::Directory) => self.take_directory(path),
            Some(_) => self.take_loose(path),
            None => self.take_absence(path),
        }
    }

    // The names there don't tell whether a directory stands.
    fn take_listing(&mut self, path: &RootPath)
        ensures directory { self.new.directory ≡ self.old.directory }
        ensures file { self.new.file ≡ self.old.file }
        ensures vacant { ForSome self.new.vacant (λ v. (v ≢ path.now)
            × (self.old.vacant ≡ Some v)) }
    {
        if self.is_vacant(path) {
            self.vacant = None;
        }
    }

    // A directory was seen.
    fn take_directory(&mut self, path: &RootPath)
        ensures directory { ForSome self.new.directory (λ s. (string_bytes s ≡ path.now)
            ⊎ (self.old.directory ≡ Some s)) }
        ensures file { self.new.file ≡ self.old.file }
        ensures vacant { ForSome self.new.vacant (λ v. IsOutside v path.now
            × (self.old.vacant ≡ Some v)) }
    {
        self.learn(path.as_str());
        self.forget_vacant_above(path);
    }

    // A file or link was seen.
    fn take_loose(&mut self, path: &RootPath)
        ensures directory { ForSome self.new.directory (λ s. IsBelow (string_bytes s) path.now
            ⊎ (self.old.directory ≡ Some s)) }
        ensures file { self.new.file ≡ self.old.file }
        ensures vacant { ForSome self.new.vacant (λ v. IsOutside v path.now
            × (self.old.vacant ≡ Some v)) }
    {
        self.learn_above(path);
        self.forget_vacant_above(path);
    }

    // Nothing was seen. A path below the one that is vacant tells no more.
    fn take_absence(&mut self, path: &RootPath)
        ensures directory { self.new.directory ≡ self.old.directory }
        ensures file { self.new.file ≡ self.old.file }
        ensures vacant { ForSome self.new.vacant (λ v. (v ≡ path.now)
            ⊎ (self.old.vacant ≡ Some v)) }
    {
        if self.is_vacant(path) || self.lacks(path.as_str()) {
            return;
        }
        self.vacant = match path.copy() {
            Ok(path) => Some(path),
            Err(_) => None,
        };
    }

    fn is_vacant(&self, path: &RootPath) -> bool
        ensures { IsTrue result ↔ (self.now.vacant ≡ Some path.now) }
    {
        match &self.vacant {
            Some(vacant) => vacant.is(path),
            None => false,
        }
    }

    // Something stands at a path, so that neither it nor one above it is vacant.
    fn forget_vacant_above(&mut self, path: &RootPath)
        ensures directory { self.new.directory ≡ self.old.directory }
        ensures file { self.new.file ≡ self.old.file }
        ensures vacant { ForSome self.new.vacant (λ v. IsOutside v path.now
            × (self.old.vacant ≡ Some v)) }
    {
        let is_over = match &self.vacant {
            Some(vacant) => vacant.is(path) || is_below(vacant.as_str(), path.as_str()),
            None => false,
        };
        if is_over {
            self.vacant = None;
        }
    }

    // A step was at a path.
    fn forget_vacant(&mut self, path: &RootPath)
        ensures directory { self.new.directory ≡ self.old.directory }
        ensures file { self.new.file ≡ self.old.file }
        ensures vacant { ForSome self.new.vacant (λ v. IsApart v path.now
            × (self.old.vacant ≡ Some v)) }
    {
        self.forget_vacant_above(path);
        let is_under = match &self.vacant {
            Some(vacant) => is_below(path.as_str(), vacant.as_str()),
            None => false,
        };
        if is_under {
            self.vacant = None;
        }
    }

    fn take_step(&mut self, asked: Asks<'_>)
        ensures directory { ForSome self.new.directory (λ s. IsKnownByStep (string_bytes s)
            (asked_by asked.entry) (self.old.directory ≡ Some s)) }
        ensures file { ForSome self.new.file (λ f. IsNewByStep f (asked_by asked.entry)
            (self.old.file ≡ Some f)) }
        ensures vacant { ForSome self.new.vacant (λ v. IsVacantByStep v (asked_by asked.entry)
            (self.old.vacant ≡ Some v)) }
    {
        match asked {
            Asks::Write(path, _) => self.take_written(path),
            Asks::Move(from, to) => self.forget_both(from, to),
            Asks::Take(path) => self.forget_named(path),
            Asks::MakeDir(path, _) => self.take_made(path),
            Asks::RemoveDir(path) => self.forget_named(path),
            Asks::HardLink(from, to) => self.forget_both(from, to),
            Asks::MakeLink(path, _) => self.forget_named(path),
            Asks::Sync(path) | Asks::Lower(path) => self.forget_vacant(path),
            Asks::Barrier | Asks::SyncAll | Asks::SyncRoot => {}
        }
    }

    fn take_written(&mut self, path: &RootPath)
        ensures directory { ForSome self.new.directory (λ s. IsBelow (string_bytes s) path.now
            ⊎ ((path.now ≢ string_bytes s) × (self.old.directory ≡ Some s))) }
        ensures file { ForSome self.new.file (λ f. f ≡ path.now) }
        ensures vacant { ForSome self.new.vacant (λ v. IsApart v path.now
            × (self.old.vacant ≡ Some v)) }
    {
        self.forget_named(path);
        self.learn_above(path);
        self.file = match path.copy() {
            Ok(path) => Some(path),
            Err(_) => None,
        };
    }

    fn take_made(&mut self, path: &RootPath)
        ensures directory { ForSome self.new.directory (λ s. (string_bytes s ≡ path.now)
            ⊎ ((path.now ≢ string_bytes s) × (self.old.directory ≡ Some s))) }
        ensures file { ForSome self.new.file (λ f. (path.now ≢ f) × (self.old.file ≡ Some f)) }
        ensures vacant { ForSome self.new.vacant (λ v. IsApart v path.now
            × (self.old.vacant ≡ Some v)) }
    {
        self.forget_named(path);
        self.learn(path.as_str());
    }

    // What stands at a path may be another.
    fn forget_named(&mut self, path: &RootPath)
        ensures directory { ForSome self.new.directory (λ s. (path.now ≢ string_bytes s)
            × (self.old.directory ≡ Some s)) }
        ensures file { ForSome self.new.file (λ f. (path.now ≢ f) × (self.old.file ≡ Some f)) }
        ensures vacant { ForSome self.new.vacant (λ v. IsApart v path.now
            × (self.old.vacant ≡ Some v)) }
    {
        self.forget_directory(path.as_str());
        if self.is_new(path) {
            self.file = None;
        }
        self.forget_vacant(path);
    }

    fn forget_both(&mut self, from: &RootPath, to: &RootPath)
        ensures directory { ForSome self.new.directory (λ s. (from.now ≢ string_bytes s)
            × (to.now ≢ string_bytes s) × (self.old.directory ≡ Some s)) }
        ensures file { ForSome self.new.file (λ f. (from.now ≢ f) × (to.now ≢ f)
            × (self.old.file ≡ Some f)) }
        ensures vacant { ForSome self.new.vacant (λ v. IsApart v from.now × IsApart v to.now
            × (self.old.vacant ≡ Some v)) }
    {
        self.forget_named(from);
        self.forget_named(to);
    }

    fn forget_directory(&mut self, path: &str)
        ensures directory { ForSome self.new.directory (λ s. (path.now ≢ string_bytes s)
            × (self.old.directory ≡ Some s)) }
        ensures file { self.new.file ≡ self.old.file }
        ensures vacant { self.new.vacant ≡ self.old.vacant }
    {
        let is_named = match &self.directory {
            Some(directory) => directory.as_str() == path,
            None => false,
        };
        if is_named {
            self.directory = None;
        }
    }

    // The directory that a path stands in.
    fn learn_above(&mut self, path: &RootPath)
        ensures directory { ForSome self.new.directory (λ s. IsBelow (string_bytes s) path.now
            ⊎ (self.old.directory ≡ Some s)) }
        ensures file { self.new.file ≡ self.old.file }
        ensures vacant { self.new.vacant ≡ self.old.vacant }
    {
        match path.as_str().rsplit_once('/') {
            Some((above, _)) => self.learn(above),
            None => {}
        }
    }

    // One above the directory that is remembered tells no more.
    fn learn(&mut self, directory: &str)
        ensures directory { ForSome self.new.directory (λ s. (string_bytes s ≡ directory.now)
            ⊎ (self.old.directory ≡ Some s)) }
        ensures file { self.new.file ≡ self.old.file }
        ensures vacant { self.new.vacant ≡ self.old.vacant }
    {
        if self.covers(directory) {
            return;
        }
        self.directory = match String::from_str(self.alloc, directory) {
            Ok(directory) => Some(directory),
            Err(_) => None,
        };
    }
}
