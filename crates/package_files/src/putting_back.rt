// Files that were written are put back, the last first (Policy 6.6, the unwinding of an unpack).
ghost use Rattle.std.specs.Prelude.{◌≡◌, ◌⊎◌, ◌∷◌, [], true, false, Some};
ghost use Rattle.host_core.specs.World.{is_directory};
ghost use Rattle.host_core.specs.Host.{AtEachMoment, Counts, Leaves, Needs, Silent};
ghost use Rattle.package_files.specs.Files.{Each};
ghost use Rattle.package_files.specs.Laid.{CanUndo, IsUndoing, Undoes};
ghost use Rattle.package_files.specs.Names.{AllInOrder, IsNamed};
ghost use Rattle.package_files.specs.Back.{CanGoBack, CanRestore, GoesBack, IsGoingBack, MakesDirectory, restored};

use crate::clearing::clear_spares;
use crate::work::Work;
use administration::is_bare;
use host_core::{Host, HostFault, Kind, Node, RootPath};

/// What had stood at the target, if anything had, gets its own name again.
fn restore_old<H: Host>(host: &mut H, work: &Work) -> Result<(), HostFault>
    requires named { IsNamed work.now }
    requires there { Needs (H.state host.old) (λ w. CanRestore work.now.had (w work.now.target)
        (w work.now.backup)) }
    ensures restored { Leaves result (λ old new. new ≡ restored work.now.had work.now.target
        work.now.backup old) (H.state host.old) (H.state host.new) }
    ensures any_moment { AtEachMoment (λ old now. (now ≡ old)
        ⊎ (now ≡ restored work.now.had work.now.target work.now.backup old)) (H.state host.old)
        (H.state host.new) }
    ensures silent { Silent (H.state host.old) (H.state host.new) }
    ensures counts { Counts (H.state host.old) (H.state host.new) result }
{
    match work.had {
        None => Ok(()),
        Some(_) => host.rename(&work.backup, &work.target),
    }
}

/// A directory that was made goes, unless something is below it; what it took the place of comes back.
fn unmake<H: Host>(host: &mut H, work: &Work) -> Result<(), HostFault>
    requires named { IsNamed work.now }
    requires made { MakesDirectory work.now }
    requires written { Needs (H.state host.old) (CanGoBack (work.now ∷ [])) }
    ensures back { Leaves result (GoesBack (work.now ∷ [])) (H.state host.old) (H.state host.new) }
    ensures any_moment { AtEachMoment (IsGoingBack (work.now ∷ [])) (H.state host.old)
        (H.state host.new) }
    ensures silent { Silent (H.state host.old) (H.state host.new) }
    ensures counts { Counts (H.state host.old) (H.state host.new) result }
{
    if !is_bare(host, &work.target)? {
        return Ok(());
    }
    host.remove_dir(&work.target)?;
    restore_old(host, work)
}

fn put_back_directory<H: Host>(host: &mut H, work: &Work) -> Result<(), HostFault>
    requires named { IsNamed work.now }
    requires node { is_directory (Some work.now.node) ≡ true }
    requires written { Needs (H.state host.old) (CanGoBack (work.now ∷ [])) }
    ensures back { Leaves result (GoesBack (work.now ∷ [])) (H.state host.old) (H.state host.new) }
    ensures any_moment { AtEachMoment (IsGoingBack (work.now ∷ [])) (H.state host.old)
        (H.state host.new) }
    ensures silent { Silent (H.state host.old) (H.state host.new) }
    ensures counts { Counts (H.state host.old) (H.state host.new) result }
{
    match work.had {
        None => unmake(host, work),
        Some(Kind::File) => unmake(host, work),
        Some(Kind::Directory) => Ok(()),
        Some(Kind::SymbolicLink) => Ok(()),
    }
}

fn put_back_loose<H: Host>(host: &mut H, work: &Work) -> Result<(), HostFault>
    requires named { IsNamed work.now }
    requires node { is_directory (Some work.now.node) ≡ false }
    requires written { Needs (H.state host.old) (CanGoBack (work.now ∷ [])) }
    ensures back { Leaves result (GoesBack (work.now ∷ [])) (H.state host.old) (H.state host.new) }
    ensures any_moment { AtEachMoment (IsGoingBack (work.now ∷ [])) (H.state host.old)
        (H.state host.new) }
    ensures silent { Silent (H.state host.old) (H.state host.new) }
    ensures counts { Counts (H.state host.old) (H.state host.new) result }
{
    match work.had {
        None => host.remove(&work.target),
        Some(Kind::File) => restore_old(host, work),
        Some(Kind::Directory) => Ok(()),
        Some(Kind::SymbolicLink) => restore_old(host, work),
    }
}

/// A file or link that hasn't taken its place yet goes from its temporary name, and what it was to take the place of from the
/// backup; one that has is put back.
fn take_back_loose<H: Host>(host: &mut H, work: &Work) -> Result<(), HostFault>
    requires named { IsNamed work.now }
    requires node { is_directory (Some work.now.node) ≡ false }
    requires under_way { Needs (H.state host.old) (CanUndo (work.now ∷ [])) }
    ensures back { Leaves result (Undoes (work.now ∷ [])) (H.state host.old) (H.state host.new) }
    ensures any_moment { AtEachMoment (IsUndoing (work.now ∷ [])) (H.state host.old)
        (H.state host.new) }
    ensures silent { Silent (H.state host.old) (H.state host.new) }
    ensures counts { Counts (H.state host.old) (H.state host.new) result }
{
    match host.kind(&work.fresh)? {
        None => put_back_loose(host, work),
        Some(Kind::File) => clear_spares(host, work),
        Some(Kind::Directory) => put_back_loose(host, work),
        Some(Kind::SymbolicLink) => clear_spares(host, work),
    }
}

fn take_back_one<H: Host>(host: &mut H, work: &Work) -> Result<(), HostFault>
    requires named { IsNamed work.now }
    requires under_way { Needs (H.state host.old) (CanUndo (work.now ∷ [])) }
    ensures back { Leaves result (Undoes (work.now ∷ [])) (H.state host.old) (H.state host.new) }
    ensures any_moment { AtEachMoment (IsUndoing (work.now ∷ [])) (H.state host.old)
        (H.state host.new) }
    ensures silent { Silent (H.state host.old) (H.state host.new) }
    ensures counts { Counts (H.state host.old) (H.state host.new) result }
{
    match &work.node {
        Node::Dir { .. } => put_back_directory(host, work),
        Node::File { .. } => take_back_loose(host, work),
        Node::Link { .. } => take_back_loose(host, work),
    }
}

/// Takes the paths back, however far each has come, the last first, so that a directory is reached after all that was made
/// in it.
pub(crate) fn take_back<H: Host>(host: &mut H, works: &[Work]) -> Result<(), HostFault>
    requires named { Each IsNamed works.now }
    requires order { AllInOrder works.now }
    requires under_way { Needs (H.state host.old) (CanUndo works.now) }
    ensures back { Leaves result (Undoes works.now) (H.state host.old) (H.state host.new) }
    ensures any_moment { AtEachMoment (IsUndoing works.now) (H.state host.old)
        (H.state host.new) }
    ensures silent { Silent (H.state host.old) (H.state host.new) }
    ensures counts { Counts (H.state host.old) (H.state host.new) result }
{
    let mut count = works.len();
    while count > 0 {
        count -= 1;
        take_back_one(host, &works[count])?;
    }
    Ok(())
}

/// Puts the paths back that were written, the last first.
pub fn put_back_files<H: Host>(host: &mut H, works: &[Work]) -> Result<(), HostFault>
    requires named { Each IsNamed works.now }
    requires order { AllInOrder works.now }
    requires written { Needs (H.state host.old) (CanGoBack works.now) }
    ensures back { Leaves result (GoesBack works.now) (H.state host.old) (H.state host.new) }
    ensures any_moment { AtEachMoment (IsGoingBack works.now) (H.state host.old)
        (H.state host.new) }
    ensures silent { Silent (H.state host.old) (H.state host.new) }
    ensures counts { Counts (H.state host.old) (H.state host.new) result }
{
    take_back(host, works)
}
