// Whether a conffile can be settled.
ghost use Rattle.std.specs.Prelude.{◌≡◌, ◌∷◌, [], None};
ghost use Rattle.host_core.specs.Host.{Tells};
ghost use Rattle.host_core.specs.Looks.{Looks};
ghost use Rattle.conffiles.specs.Settling.{dist_name, spare_name, shipped_name, backup_name, is_other_kind, ordered_names, obstacle_of, CanSettle};

use host_core::{Host, HostFault, Kind, RootPath, ShipPath, Suffix};

fn is_other(kind: Option<Kind>) -> bool
    ensures { result ≡ is_other_kind kind }
{
    match kind {
        None => false,
        Some(Kind::File) => false,
        Some(Kind::Directory) => true,
        Some(Kind::SymbolicLink) => true,
    }
}

// The name, where something else than a file stands there.
fn look_at<H: Host>(host: &mut H, name: RootPath) -> Result<Option<RootPath>, HostFault>
    ensures looks { Looks result (λ found w. found ≡ obstacle_of w (name ∷ [])) (H.state host.old)
        (H.state host.new) }
{
    if is_other(host.kind(&name)?) {
        return Ok(Some(name));
    }
    Ok(None)
}

#[tactic(auto, using(host_core::proofs::Moments::reads_then))]
fn look_at_old<H: Host>(host: &mut H, path: &ShipPath) -> Result<Option<RootPath>, HostFault>
    ensures looks { Looks result (λ found w. found ≡ obstacle_of w (shipped_name path.now
        ∷ backup_name path.now ∷ [])) (H.state host.old) (H.state host.new) }
{
    let shipped = path.beside(Suffix::New)?;
    if let Some(found) = look_at(host, shipped)? {
        return Ok(Some(found));
    }
    let backup = path.beside(Suffix::Old)?;
    look_at(host, backup)
}

#[tactic(auto, using(host_core::proofs::Moments::reads_then))]
fn look_beside<H: Host>(host: &mut H, path: &ShipPath) -> Result<Option<RootPath>, HostFault>
    ensures looks { Looks result (λ found w. found ≡ obstacle_of w (dist_name path.now ∷ spare_name
        path.now ∷ shipped_name path.now ∷ backup_name path.now ∷ [])) (H.state host.old)
        (H.state host.new) }
{
    let dist = path.beside(Suffix::Dist)?;
    if let Some(found) = look_at(host, dist)? {
        return Ok(Some(found));
    }
    let spare = path.beside(Suffix::Inst)?;
    if let Some(found) = look_at(host, spare)? {
        return Ok(Some(found));
    }
    look_at_old(host, path)
}

#[tactic(auto, using(host_core::proofs::Moments::reads_then))]
fn look_at_all<H: Host>(host: &mut H, path: &ShipPath) -> Result<Option<RootPath>, HostFault>
    ensures looks { Looks result (λ found w. found ≡ obstacle_of w (ordered_names path.now))
        (H.state host.old) (H.state host.new) }
{
    let home = path.at()?;
    if let Some(found) = look_at(host, home)? {
        return Ok(Some(found));
    }
    look_beside(host, path)
}

/// Of a conffile's path and the names beside it the first, in the order of their bytes, at which
/// something else than a file stands: then it can't be settled.
pub fn find_obstacle<H: Host>(host: &mut H, path: &ShipPath) -> Result<Option<RootPath>, HostFault>
    ensures looks { Looks result (λ found w. found ≡ obstacle_of w (ordered_names path.now))
        (H.state host.old) (H.state host.new) }
    ensures clear { Tells result (λ found w. found ≡ None → CanSettle path.now w) (H.state host.old)
        (H.state host.new) }
{
    look_at_all(host, path)
}
