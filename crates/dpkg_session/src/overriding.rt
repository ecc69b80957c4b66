// What the overrides of a root make of a package, before its unit is decided.
ghost use Rattle.std.specs.Prelude.{◌≡◌, ◌⊎◌, Err, IfOk, IfSome, Ok};
ghost use Rattle.held_administration.specs.Open.{IsOpen};
ghost use Rattle.held_administration.specs.Order.{IsInOrder};
ghost use Rattle.host_core.specs.Host.{AtEachMomentOf, Needs};
ghost use Rattle.host_core.specs.Loss.{IsAnswered};
ghost use Rattle.recorded_packages.specs.Packages.{ArePackagesOf};
ghost use Rattle.stat_overrides.specs.Packages.{first_unknown};
ghost use Rattle.unit_reports.specs.Held.{held_by};
ghost use Rattle.unit_reports.specs.Units.{CountsReply, IsBroken, IsBrokenBy, IsFromBefore, TellsNoPackage};
ghost use Rattle.unit_reports.specs.declared.report.Breakage.TheVariants.{Damaged};
ghost use Rattle.dpkg_session.specs.Growth.{StaysWritable};
ghost use Rattle.dpkg_session.specs.Overriding.{taken_from, taken_with};
ghost use Rattle.dpkg_session.specs.Run.{IsAmidOverridden, IsAmidTaken};
ghost use Rattle.dpkg_session.specs.Units.{HasCalledOverridden, HasCalledTaken, IsOverriddenUnit, IsTakenUnit};

use crate::units::unit_of_followed;
use diversions::Diversions;
use held_administration::Administration;
use host_core::{Host, ShipPath};
use package_tree::Package;
use stat_overrides::{Overrides, override_accesses, read_overrides};
use std::alloc::AllocError;
use unit_reports::{Breakage, Rule, Unit, breakage_of, broken, refused};
use unpack_relations::UnpackOptions;

// The first path of which the number of an owner isn't known.
fn first_unknown(overrides: &Overrides, incoming: &Package) -> Result<Option<ShipPath>, AllocError>
    ensures { IfOk result (λ path. path ≡ first_unknown overrides.now incoming.now.files) }
{
    match overrides.first_unknown(incoming.files.as_slice()) {
        Some(path) => Ok(Some(path.copy()?)),
        None => Ok(None),
    }
}

// The unit of a package with the accesses of these overrides.
fn unit_with<H: Host>(
    host: &mut H,
    administration: &mut Administration,
    diversions: &mut Diversions,
    overrides: &Overrides,
    incoming: Package,
    allowed: UnpackOptions,
) -> Unit
    requires order { Needs (H.state host.old)
        (IsInOrder administration.old.database administration.old.lists.lists) }
    requires open { IsOpen diversions.old.ways administration.old }
    requires indexed { IfSome administration.old.packages
        (ArePackagesOf administration.old.database.records) }
    ensures unit { IsBroken result.reply ⊎ IsTakenUnit allowed incoming.name
        (taken_from overrides.now incoming)
        (held_by administration.old diversions.old) (held_by administration.new diversions.new)
        result (H.state host.old) (H.state host.new) }
    ensures open { IsBroken result.reply ⊎ IsOpen diversions.new.ways administration.new }
    ensures indexed { IsBroken result.reply ⊎ IfSome administration.new.packages
        (ArePackagesOf administration.new.database.records) }
    ensures answered { IsBroken result.reply ⊎ IsAnswered (H.state host.old) (H.state host.new) }
    ensures untouched { IsBroken result.reply → TellsNoPackage result }
    ensures told { HasCalledTaken allowed (taken_from overrides.now incoming)
        (held_by administration.old diversions.old) result (H.state host.old) (H.state host.new) }
    ensures any_moment { AtEachMomentOf (IsAmidTaken allowed
        (taken_from overrides.now incoming)
        (held_by administration.old diversions.old)) (H.state host.old) (H.state host.new) }
    ensures writable { StaysWritable diversions.old diversions.new }
    ensures counts { CountsReply (H.state host.old) (H.state host.new) result.reply }
    ensures not_closed { IsFromBefore result.reply → ⊥ }
    ensures not_damaged { IsBrokenBy Damaged result.reply → ⊥ }
{
    let alloc = administration.alloc;
    match first_unknown(overrides, &incoming) {
        Ok(Some(path)) => {
            return refused(alloc, Rule::OwnerUnknown(path), incoming.name);
        }
        Ok(None) => {
            let overridden = override_accesses(alloc, overrides, incoming);
            return unit_of_followed(host, administration, diversions, overridden, allowed);
        }
        Err(_) => {
            return broken(alloc, Vec::new(alloc), Breakage::NoMemory);
        }
    }
}

// The same by what was read of them.
fn unit_by<H: Host>(
    host: &mut H,
    administration: &mut Administration,
    diversions: &mut Diversions,
    read: Result<Overrides, u64>,
    incoming: Package,
    allowed: UnpackOptions,
) -> Unit
    requires order { Needs (H.state host.old)
        (IsInOrder administration.old.database administration.old.lists.lists) }
    requires open { IsOpen diversions.old.ways administration.old }
    requires indexed { IfSome administration.old.packages
        (ArePackagesOf administration.old.database.records) }
    ensures unit { IsBroken result.reply ⊎ IsTakenUnit allowed incoming.name
        (taken_with read incoming)
        (held_by administration.old diversions.old) (held_by administration.new diversions.new)
        result (H.state host.old) (H.state host.new) }
    ensures open { IsBroken result.reply ⊎ IsOpen diversions.new.ways administration.new }
    ensures indexed { IsBroken result.reply ⊎ IfSome administration.new.packages
        (ArePackagesOf administration.new.database.records) }
    ensures answered { IsBroken result.reply ⊎ IsAnswered (H.state host.old) (H.state host.new) }
    ensures untouched { IsBroken result.reply → TellsNoPackage result }
    ensures told { HasCalledTaken allowed (taken_with read incoming)
        (held_by administration.old diversions.old) result (H.state host.old) (H.state host.new) }
    ensures any_moment { AtEachMomentOf (IsAmidTaken allowed
        (taken_with read incoming)
        (held_by administration.old diversions.old)) (H.state host.old) (H.state host.new) }
    ensures writable { StaysWritable diversions.old diversions.new }
    ensures counts { CountsReply (H.state host.old) (H.state host.new) result.reply }
    ensures not_closed { IsFromBefore result.reply → ⊥ }
    ensures not_damaged { IsBrokenBy Damaged result.reply → ⊥ }
{
    match read {
        Ok(overrides) => {
            return unit_with(
                host,
                administration,
                diversions,
                &overrides,
                incoming,
                allowed,
            );
        }
        Err(line) => {
            return refused(
                administration.alloc,
                Rule::OverrideLine(line),
                incoming.name,
            );
        }
    }
}

/// The unit of a package the aliases above whose paths are known: the overrides are read first.
pub(crate) fn unit_of_overridden<H: Host>(
    host: &mut H,
    administration: &mut Administration,
    diversions: &mut Diversions,
    incoming: Package,
    allowed: UnpackOptions,
) -> Unit
    requires order { Needs (H.state host.old)
        (IsInOrder administration.old.database administration.old.lists.lists) }
    requires open { IsOpen diversions.old.ways administration.old }
    requires indexed { IfSome administration.old.packages
        (ArePackagesOf administration.old.database.records) }
    ensures unit { IsBroken result.reply ⊎ IsOverriddenUnit allowed incoming
        (held_by administration.old diversions.old) (held_by administration.new diversions.new)
        result (H.state host.old) (H.state host.new) }
    ensures open { IsBroken result.reply ⊎ IsOpen diversions.new.ways administration.new }
    ensures indexed { IsBroken result.reply ⊎ IfSome administration.new.packages
        (ArePackagesOf administration.new.database.records) }
    ensures answered { IsBroken result.reply ⊎ IsAnswered (H.state host.old) (H.state host.new) }
    ensures untouched { IsBroken result.reply → TellsNoPackage result }
    ensures told { HasCalledOverridden allowed incoming
        (held_by administration.old diversions.old) result (H.state host.old) (H.state host.new) }
    ensures any_moment { AtEachMomentOf (IsAmidOverridden allowed incoming
        (held_by administration.old diversions.old)) (H.state host.old) (H.state host.new) }
    ensures writable { StaysWritable diversions.old diversions.new }
    ensures counts { CountsReply (H.state host.old) (H.state host.new) result.reply }
    ensures not_closed { IsFromBefore result.reply → ⊥ }
    ensures not_damaged { IsBrokenBy Damaged result.reply → ⊥ }
{
    let alloc = administration.alloc;
    match read_overrides(alloc, host) {
        Ok(read) => {
            return unit_by(host, administration, diversions, read, incoming, allowed);
        }
        Err(fault) => {
            return broken(alloc, Vec::new(alloc), breakage_of(fault));
        }
    }
}
