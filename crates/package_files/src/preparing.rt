// Shipped paths are prepared: a directory is made, a file or link stands at its temporary name.
ghost use Rattle.std.specs.Prelude.{◌≡◌, ◌∷◌, ◌<◌, [], true, false, None, Some, IfOk, IfSome, IsTrue, MatchOption, length};
ghost use Rattle.host_core.specs.World.{World, HasParent, IsFile, IsLoose, is_directory, kind_of};
ghost use Rattle.host_core.specs.Host.{AtEachMoment, Counts, Gives, Leaves, Needs, Silent, denials};
ghost use Rattle.host_core.specs.declared.node.Kind.TheVariants as kind;
ghost use Rattle.host_core.specs.declared.node.Node.TheVariants.{Dir};
ghost use Rattle.administration.specs.Files.{IsAside, KeepsBeside};
ghost use Rattle.package_files.specs.Files.{Each, IsAmid, Undone, Written};
ghost use Rattle.package_files.specs.Free.{IsFreeIn, IsSeen};
ghost use Rattle.package_files.specs.Laid.{Prepared, is_exchanged};
ghost use Rattle.package_files.specs.Names.{AllInOrder, IsHomed, IsNamed};
ghost use Rattle.package_files.specs.Steps.{AreCleared, DeclinesTwice, HasBegun, HasTried, IsReady, IsSaved, KeepsBesideSpares, Tries, WasTried, WasTriedFrom};

use crate::clearing::clear_spares;
use crate::putting_back::take_back;
use crate::work::Work;
use host_core::{Access, Host, HostFault, Kind, Node};

/// Makes the file or link at its temporary name. Its bytes go to the disk with those of all others.
fn lay<H: Host>(host: &mut H, work: &Work) -> Result<(), HostFault>
    requires named { IsNamed work.now }
    requires loose { is_directory (Some work.now.node) ≡ false }
    requires absent { Needs (H.state host.old) (λ w. w work.now.fresh ≡ None) }
    requires parent { Needs (H.state host.old) (λ w. HasParent w work.now.place) }
    ensures laid { Leaves result (IsAside work.now.fresh work.now.node) (H.state host.old)
        (H.state host.new) }
    ensures tried { Tries result (λ old new. new ≡ old) (H.state host.old) (H.state host.new) }
    ensures any_moment { AtEachMoment (KeepsBeside work.now.fresh) (H.state host.old)
        (H.state host.new) }
    ensures silent { Silent (H.state host.old) (H.state host.new) }
    ensures counts { Counts (H.state host.old) (H.state host.new) result }
{
    match &work.node {
        Node::File { .. } => host.write_new(&work.fresh, &work.node),
        Node::Link { target } => host.make_link(&work.fresh, target),
        Node::Dir { .. } => Ok(()),
    }
}

/// A directory takes the place of a file, which gets the backup's name.
fn make_over<H: Host>(host: &mut H, work: &Work, access: Access) -> Result<(), HostFault>
    requires named { IsNamed work.now }
    requires node { work.now.node ≡ Dir access }
    requires ready { Needs (H.state host.old) (IsReady work.now) }
    requires over { Needs (H.state host.old) (λ w. kind_of (w work.now.target) ≡ Some kind.File) }
    ensures written { Leaves result (Written (work.now ∷ [])) (H.state host.old)
        (H.state host.new) }
    ensures tried { Tries result (HasTried work.now) (H.state host.old) (H.state host.new) }
    ensures any_moment { AtEachMoment (λ old now. IsAmid (work.now ∷ []) old old now)
        (H.state host.old) (H.state host.new) }
    ensures silent { Silent (H.state host.old) (H.state host.new) }
    ensures counts { Counts (H.state host.old) (H.state host.new) result }
{
    host.rename(&work.target, &work.backup)?;
    host.make_dir(&work.target, access)
}

fn place_directory<H: Host>(host: &mut H, work: &Work, access: Access) -> Result<(), HostFault>
    requires named { IsNamed work.now }
    requires node { work.now.node ≡ Dir access }
    requires ready { Needs (H.state host.old) (IsReady work.now) }
    requires seen { Needs (H.state host.old) (λ w. IsSeen w work.now) }
    ensures written { Leaves result (Written (work.now ∷ [])) (H.state host.old)
        (H.state host.new) }
    ensures tried { Tries result (HasTried work.now) (H.state host.old) (H.state host.new) }
    ensures any_moment { AtEachMoment (λ old now. IsAmid (work.now ∷ []) old old now)
        (H.state host.old) (H.state host.new) }
    ensures silent { Silent (H.state host.old) (H.state host.new) }
    ensures counts { Counts (H.state host.old) (H.state host.new) result }
{
    match work.had {
        None => host.make_dir(&work.target, access),
        Some(Kind::File) => make_over(host, work, access),
        Some(Kind::Directory) => Ok(()),
        Some(Kind::SymbolicLink) => Ok(()),
    }
}

/// A copy of the old file stands at the backup. It is written at the temporary name, so that no part of it ever stands there.
fn copy_file<H: Host>(host: &mut H, work: &Work, node: &Node) -> Result<(), HostFault>
    requires named { IsNamed work.now }
    requires file { IsFile node.now }
    requires spare { Needs (H.state host.old) (λ w. w work.now.backup ≡ None) }
    requires absent { Needs (H.state host.old) (λ w. w work.now.fresh ≡ None) }
    requires parent { Needs (H.state host.old) (λ w. HasParent w work.now.place) }
    ensures copied { Leaves result (IsAside work.now.backup node.now) (H.state host.old)
        (H.state host.new) }
    ensures tried { Tries result (HasBegun work.now) (H.state host.old) (H.state host.new) }
    ensures any_moment { AtEachMoment (KeepsBesideSpares work.now) (H.state host.old)
        (H.state host.new) }
    ensures silent { Silent (H.state host.old) (H.state host.new) }
    ensures counts { Counts (H.state host.old) (H.state host.new) result }
{
    host.write_new(&work.fresh, node)?;
    host.sync(&work.fresh)?;
    host.rename(&work.fresh, &work.backup)
}

/// The old file or link gets its second name, or a copy stands there where the file system gives none.
fn link_or_copy<H: Host>(host: &mut H, work: &Work) -> Result<(), HostFault>
    requires named { IsNamed work.now }
    requires there { Needs (H.state host.old) (λ w. IsLoose (w work.now.target)) }
    requires spare { Needs (H.state host.old) (λ w. w work.now.backup ≡ None) }
    requires absent { Needs (H.state host.old) (λ w. w work.now.fresh ≡ None) }
    requires parent { Needs (H.state host.old) (λ w. HasParent w work.now.place) }
    ensures saved { Leaves result (IsSaved work.now) (H.state host.old) (H.state host.new) }
    ensures tried { Tries result (HasBegun work.now) (H.state host.old) (H.state host.new) }
    ensures any_moment { AtEachMoment (KeepsBesideSpares work.now) (H.state host.old)
        (H.state host.new) }
    ensures silent { Silent (H.state host.old) (H.state host.new) }
    ensures counts { Counts (H.state host.old) (H.state host.new) result }
{
    match host.link(&work.target, &work.backup) {
        Ok(()) => Ok(()),
        Err(HostFault::Declined) => match host.node(&work.target)? {
            None => Err(HostFault::Declined),
            Some(node) => match &node {
                Node::File { .. } => copy_file(host, work, &node),
                Node::Dir { .. } => Err(HostFault::Declined),
                Node::Link { target } => host.make_link(&work.backup, target),
            },
        },
        Err(HostFault::Device) => Err(HostFault::Device),
        Err(HostFault::NoMemory) => Err(HostFault::NoMemory),
    }
}

/// What stands at the target, if anything does, stands at the backup too.
fn save_old<H: Host>(host: &mut H, work: &Work) -> Result<(), HostFault>
    requires named { IsNamed work.now }
    requires exchanged { is_exchanged work.now.node work.now.had ≡ true }
    requires ready { Needs (H.state host.old) (IsReady work.now) }
    requires seen { Needs (H.state host.old) (λ w. IsSeen w work.now) }
    ensures saved { Leaves result (IsSaved work.now) (H.state host.old) (H.state host.new) }
    ensures tried { Tries result (HasBegun work.now) (H.state host.old) (H.state host.new) }
    ensures any_moment { AtEachMoment (KeepsBesideSpares work.now) (H.state host.old)
        (H.state host.new) }
    ensures silent { Silent (H.state host.old) (H.state host.new) }
    ensures counts { Counts (H.state host.old) (H.state host.new) result }
{
    match work.had {
        None => Ok(()),
        Some(_) => link_or_copy(host, work),
    }
}

/// A file or link that takes a place is made at its temporary name, once what it takes the place of stands at the backup too.
fn prepare_loose<H: Host>(host: &mut H, work: &Work) -> Result<(), HostFault>
    requires named { IsNamed work.now }
    requires loose { is_directory (Some work.now.node) ≡ false }
    requires ready { Needs (H.state host.old) (IsReady work.now) }
    requires seen { Needs (H.state host.old) (λ w. IsSeen w work.now) }
    ensures prepared { Leaves result (Prepared (work.now ∷ [])) (H.state host.old)
        (H.state host.new) }
    ensures tried { Tries result (HasTried work.now) (H.state host.old) (H.state host.new) }
    ensures any_moment { AtEachMoment (λ old now. IsAmid (work.now ∷ []) old old now)
        (H.state host.old) (H.state host.new) }
    ensures silent { Silent (H.state host.old) (H.state host.new) }
    ensures counts { Counts (H.state host.old) (H.state host.new) result }
{
    if !work.is_exchanged() {
        return Ok(());
    }
    save_old(host, work)?;
    lay(host, work)
}

fn place<H: Host>(host: &mut H, work: &Work) -> Result<(), HostFault>
    requires named { IsNamed work.now }
    requires ready { Needs (H.state host.old) (IsReady work.now) }
    requires seen { Needs (H.state host.old) (λ w. IsSeen w work.now) }
    ensures prepared { Leaves result (Prepared (work.now ∷ [])) (H.state host.old)
        (H.state host.new) }
    ensures tried { Tries result (HasTried work.now) (H.state host.old) (H.state host.new) }
    ensures any_moment { AtEachMoment (λ old now. IsAmid (work.now ∷ []) old old now)
        (H.state host.old) (H.state host.new) }
    ensures silent { Silent (H.state host.old) (H.state host.new) }
    ensures counts { Counts (H.state host.old) (H.state host.new) result }
{
    match &work.node {
        Node::Dir { access } => place_directory(host, work, *access),
        Node::File { .. } => prepare_loose(host, work),
        Node::Link { .. } => prepare_loose(host, work),
    }
}

/// What is at the spare names of a path goes; a directory is made, and a file or link at its temporary name.
fn prepare<H: Host>(host: &mut H, work: &Work) -> Result<(), HostFault>
    requires named { IsNamed work.now }
    requires free { Needs (H.state host.old) (λ w. IsFreeIn w work.now) }
    requires parent { Needs (H.state host.old) (λ w. HasParent w work.now.place) }
    requires seen { Needs (H.state host.old) (λ w. IsSeen w work.now) }
    ensures prepared { Leaves result (Prepared (work.now ∷ [])) (H.state host.old)
        (H.state host.new) }
    ensures tried { Tries result (HasTried work.now) (H.state host.old) (H.state host.new) }
    ensures any_moment { AtEachMoment (λ old now. IsAmid (work.now ∷ []) old old now)
        (H.state host.old) (H.state host.new) }
    ensures silent { Silent (H.state host.old) (H.state host.new) }
    ensures counts { Counts (H.state host.old) (H.state host.new) result }
{
    clear_spares(host, work)?;
    place(host, work)
}

/// The file that was to make room for a directory stands at the target again.
fn bring_home<H: Host>(host: &mut H, work: &Work) -> Result<(), HostFault>
    requires named { IsNamed work.now }
    requires tried { Needs (H.state host.old) (WasTried work.now) }
    ensures begun { Leaves result (λ old new. (was : World) → WasTriedFrom work.now was old
        → HasBegun work.now was new) (H.state host.old) (H.state host.new) }
    ensures any_moment { AtEachMoment (λ old now. (was : World) → WasTriedFrom work.now was old
        → IsAmid (work.now ∷ []) was was now) (H.state host.old) (H.state host.new) }
    ensures silent { Silent (H.state host.old) (H.state host.new) }
    ensures counts { Counts (H.state host.old) (H.state host.new) result }
{
    match work.had {
        None => Ok(()),
        Some(_) => match host.kind(&work.target)? {
            None => host.rename(&work.backup, &work.target),
            Some(_) => Ok(()),
        },
    }
}

/// Nothing is left of what was begun of a path.
fn undo<H: Host>(host: &mut H, work: &Work) -> Result<(), HostFault>
    requires named { IsNamed work.now }
    requires tried { Needs (H.state host.old) (WasTried work.now) }
    ensures cleared { Leaves result (λ old new. (was : World) → WasTriedFrom work.now was old
        → AreCleared work.now was new) (H.state host.old) (H.state host.new) }
    ensures any_moment { AtEachMoment (λ old now. (was : World) → WasTriedFrom work.now was old
        → IsAmid (work.now ∷ []) was was now) (H.state host.old) (H.state host.new) }
    ensures silent { Silent (H.state host.old) (H.state host.new) }
    ensures counts { Counts (H.state host.old) (H.state host.new) result }
{
    bring_home(host, work)?;
    clear_spares(host, work)
}

/// Prepares one shipped path, and tells whether it is; where a step was declined nothing is left of it.
fn prepare_one<H: Host>(host: &mut H, work: &Work) -> Result<bool, HostFault>
    requires named { IsNamed work.now }
    requires free { Needs (H.state host.old) (λ w. IsFreeIn w work.now) }
    requires parent { Needs (H.state host.old) (λ w. HasParent w work.now.place) }
    requires seen { Needs (H.state host.old) (λ w. IsSeen w work.now) }
    ensures prepared { Gives result (λ whole old new. IsTrue whole → Prepared (work.now ∷ []) old
        new) (H.state host.old) (H.state host.new) }
    ensures undone { Gives result (λ whole old new. whole ≡ false → AreCleared work.now old new)
        (H.state host.old) (H.state host.new) }
    ensures denied { IfOk result (λ whole. whole ≡ false → denials (H.state host.old)
        < denials (H.state host.new)) }
    ensures twice { DeclinesTwice result (H.state host.old) (H.state host.new) }
    ensures any_moment { AtEachMoment (λ old now. IsAmid (work.now ∷ []) old old now)
        (H.state host.old) (H.state host.new) }
    ensures silent { Silent (H.state host.old) (H.state host.new) }
    ensures counts { Counts (H.state host.old) (H.state host.new) result }
{
    match prepare(host, work) {
        Ok(()) => Ok(true),
        Err(HostFault::Declined) => {
            undo(host, work)?;
            Ok(false)
        }
        Err(HostFault::Device) => Err(HostFault::Device),
        Err(HostFault::NoMemory) => Err(HostFault::NoMemory),
    }
}

/// Prepares shipped paths in the order of their places, so that a directory comes before what is in it. Where a step is
/// declined those that were prepared are put back, and the answer is the place among the works of the path that wasn't.
pub(crate) fn prepare_all<H: Host>(host: &mut H, works: &[Work]) -> Result<Option<usize>, HostFault>
    requires named { Each IsNamed works.now }
    requires order { AllInOrder works.now }
    requires free { Needs (H.state host.old) (λ w. Each (IsFreeIn w) works.now) }
    requires seen { Needs (H.state host.old) (λ w. Each (IsSeen w) works.now) }
    requires homed { Needs (H.state host.old) (λ w. Each (IsHomed works.now w) works.now) }
    ensures within { IfOk result (λ declined. IfSome declined (λ k. k < length works.now)) }
    ensures prepared { Gives result (λ declined old new. MatchOption declined
        (Prepared works.now old new) (λ k. Undone works.now old new)) (H.state host.old)
        (H.state host.new) }
    ensures denied { IfOk result (λ declined. IfSome declined (λ k. denials (H.state host.old)
        < denials (H.state host.new))) }
    ensures twice { DeclinesTwice result (H.state host.old) (H.state host.new) }
    ensures any_moment { AtEachMoment (λ old now. IsAmid works.now old old now) (H.state host.old)
        (H.state host.new) }
    ensures silent { Silent (H.state host.old) (H.state host.new) }
    ensures counts { Counts (H.state host.old) (H.state host.new) result }
{
    let mut index = 0;
    while index < works.len() {
        if !prepare_one(host, &works[index])? {
            take_back(host, &works[..index])?;
            return Ok(Some(index));
        }
        index += 1;
    }
    Ok(None)
}
