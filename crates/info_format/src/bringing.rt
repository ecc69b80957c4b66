// `info/` is brought to format 0.
ghost use Rattle.std.specs.Prelude.{◌≡◌, ◌⊎◌, IfErr, IsSome, IsTrue, None, OnOk, false, true};
ghost use Rattle.host_core.specs.Host.{AtEachMoment, Counts, Leaves, Needs, Reads, Silent};
ghost use Rattle.host_core.specs.Loss.{IsOnDisk};
ghost use Rattle.host_core.specs.World.{IsDirectory, IsLoose, put};
ghost use Rattle.administration.specs.Directories.{HasBadName};
ghost use Rattle.administration.specs.Fault.{CountsAdministration};
ghost use Rattle.administration.specs.Places.{info_path};
ghost use Rattle.info_format.specs.Converting.{IsConverted, IsConverting, IsNamesDamage};
ghost use Rattle.info_format.specs.Format.{format_path, is_one};
ghost use Rattle.info_format.specs.Names.{Architectures, architectures};
ghost use Rattle.info_format.specs.Steps.{AreAllPairs, AreApart, AreTaken, AreTaking, HaveParents, IsBringing, IsBrought};

use crate::converting::{check_all, give_all, has_long, take_all};
use crate::format::{Format, read_format};
use crate::naming::packages_of;
use crate::pairs::{Pair, pairs_of};
use administration::{AdministrationFault, INFO};
use host_core::{Host, HostFault, RootPath};
use status_db::NotedDatabase;
use std::alloc::Global;

pub(crate) const FORMAT: &str = "/var/lib/dpkg/info/format";

// What tells the format goes when all else is on the disk.
fn leave_format<H: Host>(host: &mut H, format: &RootPath) -> Result<(), HostFault>
    requires there { Needs (H.state host.old) (λ w. IsLoose (w format.now)) }
    requires disk { IsOnDisk (H.state host.old).events }
    ensures left { Leaves result (λ old new. new ≡ put old format.now None) (H.state host.old)
        (H.state host.new) }
    ensures any_moment { AtEachMoment (λ old now. (now ≡ old) ⊎ (now ≡ put old format.now None))
        (H.state host.old) (H.state host.new) }
    ensures silent { Silent (H.state host.old) (H.state host.new) }
    ensures counts { Counts (H.state host.old) (H.state host.new) result }
{
    host.remove(format)
}

// The same with a barrier before it and one behind it.
fn leave_between<H: Host>(host: &mut H, format: &RootPath) -> Result<(), HostFault>
    requires there { Needs (H.state host.old) (λ w. IsLoose (w format.now)) }
    ensures left { Leaves result (λ old new. new ≡ put old format.now None) (H.state host.old)
        (H.state host.new) }
    ensures any_moment { AtEachMoment (λ old now. (now ≡ old) ⊎ (now ≡ put old format.now None))
        (H.state host.old) (H.state host.new) }
    ensures disk { OnOk result (IsOnDisk (H.state host.new).events) }
    ensures silent { Silent (H.state host.old) (H.state host.new) }
    ensures counts { Counts (H.state host.old) (H.state host.new) result }
{
    host.barrier()?;
    leave_format(host, format)?;
    host.barrier()
}

// From format 1.
fn bring<H: Host>(
    alloc: Global,
    host: &mut H,
    pairs: &[Pair],
    format: &RootPath,
) -> Result<(), HostFault>
    requires apart { AreApart pairs.now }
    requires parents { Needs (H.state host.old) (HaveParents pairs.now) }
    requires place { format.now ≡ format_path }
    requires there { Needs (H.state host.old) (λ w. IsLoose (w format_path)) }
    ensures brought { Leaves result (IsBrought pairs.now) (H.state host.old) (H.state host.new) }
    ensures any_moment { AtEachMoment (IsBringing pairs.now) (H.state host.old)
        (H.state host.new) }
    ensures silent { Silent (H.state host.old) (H.state host.new) }
    ensures counts { Counts (H.state host.old) (H.state host.new) result }
{
    give_all(alloc, host, pairs)?;
    leave_between(host, format)?;
    take_all(host, pairs)
}

// In format 0 what is left of names with the architecture goes.
fn clear<H: Host>(host: &mut H, pairs: &[Pair]) -> Result<(), HostFault>
    requires apart { AreApart pairs.now }
    ensures taken { Leaves result (AreTaken pairs.now) (H.state host.old) (H.state host.new) }
    ensures any_moment { AtEachMoment (AreTaking pairs.now) (H.state host.old) (H.state host.new) }
    ensures silent { Silent (H.state host.old) (H.state host.new) }
    ensures counts { Counts (H.state host.old) (H.state host.new) result }
{
    host.barrier()?;
    take_all(host, pairs)
}

// The same, where the two names of each control file are alike.
fn clear_doubles<H: Host>(host: &mut H, pairs: &[Pair]) -> Result<(), AdministrationFault>
    requires apart { AreApart pairs.now }
    requires plain { Needs (H.state host.old) (λ w. w format_path ≡ None) }
    ensures converted { (arches : Architectures)
        → Needs (H.state host.old) (AreAllPairs arches pairs.now)
        → Leaves result (IsConverted arches) (H.state host.old) (H.state host.new) }
    ensures fault { (arches : Architectures)
        → Needs (H.state host.old) (AreAllPairs arches pairs.now)
        → IsTrue (H.state host.new).honest
        → IfErr result (IsNamesDamage arches (H.state host.old).world) }
    ensures any_moment { (arches : Architectures)
        → Needs (H.state host.old) (AreAllPairs arches pairs.now)
        → AtEachMoment (IsConverting arches) (H.state host.old) (H.state host.new) }
    ensures silent { Silent (H.state host.old) (H.state host.new) }
    ensures counts { CountsAdministration (H.state host.old) (H.state host.new) result }
{
    check_all(host, false, pairs)?;
    clear(host, pairs)?;
    Ok(())
}

// In format 0: no step where no name has the architecture.
fn convert_short<H: Host>(host: &mut H, pairs: &[Pair]) -> Result<(), AdministrationFault>
    requires apart { AreApart pairs.now }
    requires plain { Needs (H.state host.old) (λ w. w format_path ≡ None) }
    ensures converted { (arches : Architectures)
        → Needs (H.state host.old) (AreAllPairs arches pairs.now)
        → Leaves result (IsConverted arches) (H.state host.old) (H.state host.new) }
    ensures fault { (arches : Architectures)
        → Needs (H.state host.old) (AreAllPairs arches pairs.now)
        → IsTrue (H.state host.new).honest
        → IfErr result (IsNamesDamage arches (H.state host.old).world) }
    ensures any_moment { (arches : Architectures)
        → Needs (H.state host.old) (AreAllPairs arches pairs.now)
        → AtEachMoment (IsConverting arches) (H.state host.old) (H.state host.new) }
    ensures silent { Silent (H.state host.old) (H.state host.new) }
    ensures counts { CountsAdministration (H.state host.old) (H.state host.new) result }
{
    if has_long(host, pairs)? {
        return clear_doubles(host, pairs);
    }
    Ok(())
}

// In format 1, where the two names of each control file fit.
fn convert_long<H: Host>(
    alloc: Global,
    host: &mut H,
    pairs: &[Pair],
    format: &RootPath,
) -> Result<(), AdministrationFault>
    requires apart { AreApart pairs.now }
    requires parents { Needs (H.state host.old) (HaveParents pairs.now) }
    requires place { format.now ≡ format_path }
    requires one { Needs (H.state host.old) (λ w. is_one w ≡ true) }
    ensures converted { (arches : Architectures)
        → Needs (H.state host.old) (AreAllPairs arches pairs.now)
        → Leaves result (IsConverted arches) (H.state host.old) (H.state host.new) }
    ensures fault { (arches : Architectures)
        → Needs (H.state host.old) (AreAllPairs arches pairs.now)
        → IsTrue (H.state host.new).honest
        → IfErr result (IsNamesDamage arches (H.state host.old).world) }
    ensures any_moment { (arches : Architectures)
        → Needs (H.state host.old) (AreAllPairs arches pairs.now)
        → AtEachMoment (IsConverting arches) (H.state host.old) (H.state host.new) }
    ensures silent { Silent (H.state host.old) (H.state host.new) }
    ensures counts { CountsAdministration (H.state host.old) (H.state host.new) result }
{
    check_all(host, true, pairs)?;
    bring(alloc, host, pairs, format)?;
    Ok(())
}

// In a format that isn't known, which is told where names have an architecture.
pub(crate) fn pass_unknown<H: Host>(
    host: &mut H,
    pairs: &[Pair],
    format: &RootPath,
) -> Result<(), AdministrationFault>
    requires place { format.now ≡ format_path }
    requires unknown { Needs (H.state host.old)
        (λ w. IsSome (w format_path) × (is_one w ≡ false)) }
    ensures converted { (arches : Architectures)
        → Needs (H.state host.old) (AreAllPairs arches pairs.now)
        → Leaves result (IsConverted arches) (H.state host.old) (H.state host.new) }
    ensures fault { (arches : Architectures)
        → Needs (H.state host.old) (AreAllPairs arches pairs.now)
        → IsTrue (H.state host.new).honest
        → IfErr result (IsNamesDamage arches (H.state host.old).world) }
    ensures reads { Reads (H.state host.old) (H.state host.new) }
    ensures silent { Silent (H.state host.old) (H.state host.new) }
    ensures counts { CountsAdministration (H.state host.old) (H.state host.new) result }
{
    if has_long(host, pairs)? {
        return Err(AdministrationFault::Damaged {
            file: format.copy()?,
            line: 0,
        });
    }
    Ok(())
}

// By what tells the format.
fn convert_pairs<H: Host>(
    alloc: Global,
    host: &mut H,
    pairs: &[Pair],
    format: &RootPath,
) -> Result<(), AdministrationFault>
    requires apart { AreApart pairs.now }
    requires parents { Needs (H.state host.old) (HaveParents pairs.now) }
    requires place { format.now ≡ format_path }
    ensures converted { (arches : Architectures)
        → Needs (H.state host.old) (AreAllPairs arches pairs.now)
        → Leaves result (IsConverted arches) (H.state host.old) (H.state host.new) }
    ensures fault { (arches : Architectures)
        → Needs (H.state host.old) (AreAllPairs arches pairs.now)
        → IsTrue (H.state host.new).honest
        → IfErr result (IsNamesDamage arches (H.state host.old).world) }
    ensures any_moment { (arches : Architectures)
        → Needs (H.state host.old) (AreAllPairs arches pairs.now)
        → AtEachMoment (IsConverting arches) (H.state host.old) (H.state host.new) }
    ensures silent { Silent (H.state host.old) (H.state host.new) }
    ensures counts { CountsAdministration (H.state host.old) (H.state host.new) result }
{
    match read_format(host, format)? {
        Format::Short => convert_short(host, pairs),
        Format::Long => convert_long(alloc, host, pairs, format),
        Format::Unknown => pass_unknown(host, pairs, format),
    }
}

/// Brings `info/` to format 0, by the records that stand. Where a name in it isn't text nothing is
/// done, which is told when its lists are read.
pub fn convert<H: Host>(
    alloc: Global,
    host: &mut H,
    database: &NotedDatabase,
) -> Result<(), AdministrationFault>
    requires info { Needs (H.state host.old) (λ w. IsDirectory (w info_path)) }
    ensures converted { Leaves result
        (λ old new. ((new ≡ old) × HasBadName old info_path)
        ⊎ IsConverted (architectures database.now.records) old new)
        (H.state host.old) (H.state host.new) }
    ensures fault { IsTrue (H.state host.new).honest
        → IfErr result (IsNamesDamage (architectures database.now.records)
        (H.state host.old).world) }
    ensures any_moment { AtEachMoment (IsConverting (architectures database.now.records))
        (H.state host.old) (H.state host.new) }
    ensures silent { Silent (H.state host.old) (H.state host.new) }
    ensures counts { CountsAdministration (H.state host.old) (H.state host.new) result }
{
    let info = RootPath::from_str(alloc, INFO)?;
    let listing = host.list(&info)?;
    if listing.bad {
        return Ok(());
    }
    let packages = packages_of(alloc, database)?;
    let pairs = pairs_of(alloc, packages.as_slice(), listing.names.as_slice())?;
    let format = RootPath::from_str(alloc, FORMAT)?;
    convert_pairs(alloc, host, pairs.as_slice(), &format)
}
