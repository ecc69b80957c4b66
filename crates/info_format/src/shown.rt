// What a question sees of `info/`.
ghost use Rattle.std.specs.Prelude.{◌≡◌, IfErr, IsSome, IsTrue, None, false, true};
ghost use Rattle.host_core.specs.Host.{Counts, Needs, Reads, Silent, Tells};
ghost use Rattle.host_core.specs.World.{IsDirectory};
ghost use Rattle.administration.specs.Fault.{CountsAdministration};
ghost use Rattle.administration.specs.Places.{info_path};
ghost use Rattle.status_db.specs.Held.{HasRecords};
ghost use Rattle.info_format.specs.Converting.{IsConverted, IsNamesDamage};
ghost use Rattle.info_format.specs.Format.{format_path, is_one};
ghost use Rattle.info_format.specs.Names.{Architectures, architectures};
ghost use Rattle.info_format.specs.Seeing.{IsSeenThrough, Shows};
ghost use Rattle.info_format.specs.Stage.{AreDamaged};
ghost use Rattle.info_format.specs.Steps.{AreAllPairs, AreApart, AreTaken, HaveParents, IsBrought};

use crate::bringing::{FORMAT, pass_unknown};
use crate::converting::{check_all, has_long};
use crate::format::{Format, read_format};
use crate::naming::packages_of;
use crate::pairs::{Pair, pairs_of};
use crate::seeing::{lose_firsts, see_seconds};
use crate::stage::has_named;
use administration::{AdministrationFault, INFO, is_directory};
use host_core::{Host, HostFault, RootPath};
use host_overlay::SeenNames;
use status_db::NotedDatabase;
use std::alloc::Global;

// In format 0: a name with the architecture that stands beside one without isn't seen.
fn see_cleared<H: Host>(alloc: Global, host: &mut H, pairs: &[Pair]) -> Result<SeenNames, HostFault>
    requires apart { AreApart pairs.now }
    ensures shows { Tells result (λ names w. Shows (AreTaken pairs.now) w names)
        (H.state host.old) (H.state host.new) }
    ensures reads { Reads (H.state host.old) (H.state host.new) }
    ensures silent { Silent (H.state host.old) (H.state host.new) }
    ensures counts { Counts (H.state host.old) (H.state host.new) result }
{
    let mut names = SeenNames::none(alloc);
    lose_firsts(host, &mut names, pairs)?;
    Ok(names)
}

// The same, where the two names of each control file are alike.
fn see_doubles<H: Host>(
    alloc: Global,
    host: &mut H,
    pairs: &[Pair],
) -> Result<SeenNames, AdministrationFault>
    requires apart { AreApart pairs.now }
    requires plain { Needs (H.state host.old) (λ w. w format_path ≡ None) }
    ensures shows { (arches : Architectures)
        → Needs (H.state host.old) (AreAllPairs arches pairs.now)
        → Tells result (λ names w. Shows (IsConverted arches) w names) (H.state host.old)
        (H.state host.new) }
    ensures fault { (arches : Architectures)
        → Needs (H.state host.old) (AreAllPairs arches pairs.now)
        → IsTrue (H.state host.new).honest
        → IfErr result (IsNamesDamage arches (H.state host.old).world) }
    ensures reads { Reads (H.state host.old) (H.state host.new) }
    ensures silent { Silent (H.state host.old) (H.state host.new) }
    ensures counts { CountsAdministration (H.state host.old) (H.state host.new) result }
{
    check_all(host, false, pairs)?;
    Ok(see_cleared(alloc, host, pairs)?)
}

// In format 0: as it stands where no name has the architecture.
fn see_short<H: Host>(
    alloc: Global,
    host: &mut H,
    pairs: &[Pair],
) -> Result<SeenNames, AdministrationFault>
    requires apart { AreApart pairs.now }
    requires plain { Needs (H.state host.old) (λ w. w format_path ≡ None) }
    ensures shows { (arches : Architectures)
        → Needs (H.state host.old) (AreAllPairs arches pairs.now)
        → Tells result (λ names w. Shows (IsConverted arches) w names) (H.state host.old)
        (H.state host.new) }
    ensures fault { (arches : Architectures)
        → Needs (H.state host.old) (AreAllPairs arches pairs.now)
        → IsTrue (H.state host.new).honest
        → IfErr result (IsNamesDamage arches (H.state host.old).world) }
    ensures reads { Reads (H.state host.old) (H.state host.new) }
    ensures silent { Silent (H.state host.old) (H.state host.new) }
    ensures counts { CountsAdministration (H.state host.old) (H.state host.new) result }
{
    if has_long(host, pairs)? {
        return see_doubles(alloc, host, pairs);
    }
    Ok(SeenNames::none(alloc))
}

// From format 1.
fn see_brought<H: Host>(
    alloc: Global,
    host: &mut H,
    pairs: &[Pair],
    format: &RootPath,
) -> Result<SeenNames, HostFault>
    requires apart { AreApart pairs.now }
    requires parents { Needs (H.state host.old) (HaveParents pairs.now) }
    requires place { format.now ≡ format_path }
    requires one { Needs (H.state host.old) (λ w. is_one w ≡ true) }
    ensures shows { Tells result (λ names w. Shows (IsBrought pairs.now) w names)
        (H.state host.old) (H.state host.new) }
    ensures reads { Reads (H.state host.old) (H.state host.new) }
    ensures silent { Silent (H.state host.old) (H.state host.new) }
    ensures counts { Counts (H.state host.old) (H.state host.new) result }
{
    let mut names = SeenNames::none(alloc);
    see_seconds(host, &mut names, pairs)?;
    names.take(format)?;
    lose_firsts(host, &mut names, pairs)?;
    Ok(names)
}

// From format 1, where the two names of each control file fit.
fn see_long<H: Host>(
    alloc: Global,
    host: &mut H,
    pairs: &[Pair],
    format: &RootPath,
) -> Result<SeenNames, AdministrationFault>
    requires apart { AreApart pairs.now }
    requires parents { Needs (H.state host.old) (HaveParents pairs.now) }
    requires place { format.now ≡ format_path }
    requires one { Needs (H.state host.old) (λ w. is_one w ≡ true) }
    ensures shows { (arches : Architectures)
        → Needs (H.state host.old) (AreAllPairs arches pairs.now)
        → Tells result (λ names w. Shows (IsConverted arches) w names) (H.state host.old)
        (H.state host.new) }
    ensures fault { (arches : Architectures)
        → Needs (H.state host.old) (AreAllPairs arches pairs.now)
        → IsTrue (H.state host.new).honest
        → IfErr result (IsNamesDamage arches (H.state host.old).world) }
    ensures reads { Reads (H.state host.old) (H.state host.new) }
    ensures silent { Silent (H.state host.old) (H.state host.new) }
    ensures counts { CountsAdministration (H.state host.old) (H.state host.new) result }
{
    check_all(host, true, pairs)?;
    Ok(see_brought(alloc, host, pairs, format)?)
}

// In a format that isn't known, which is told where names have an architecture.
fn see_unknown<H: Host>(
    alloc: Global,
    host: &mut H,
    pairs: &[Pair],
    format: &RootPath,
) -> Result<SeenNames, AdministrationFault>
    requires place { format.now ≡ format_path }
    requires unknown { Needs (H.state host.old)
        (λ w. IsSome (w format_path) × (is_one w ≡ false)) }
    ensures shows { (arches : Architectures)
        → Needs (H.state host.old) (AreAllPairs arches pairs.now)
        → Tells result (λ names w. Shows (IsConverted arches) w names) (H.state host.old)
        (H.state host.new) }
    ensures fault { (arches : Architectures)
        → Needs (H.state host.old) (AreAllPairs arches pairs.now)
        → IsTrue (H.state host.new).honest
        → IfErr result (IsNamesDamage arches (H.state host.old).world) }
    ensures reads { Reads (H.state host.old) (H.state host.new) }
    ensures silent { Silent (H.state host.old) (H.state host.new) }
    ensures counts { CountsAdministration (H.state host.old) (H.state host.new) result }
{
    pass_unknown(host, pairs, format)?;
    Ok(SeenNames::none(alloc))
}

// By what tells the format.
fn see_pairs<H: Host>(
    alloc: Global,
    host: &mut H,
    pairs: &[Pair],
    format: &RootPath,
) -> Result<SeenNames, AdministrationFault>
    requires apart { AreApart pairs.now }
    requires parents { Needs (H.state host.old) (HaveParents pairs.now) }
    requires place { format.now ≡ format_path }
    ensures shows { (arches : Architectures)
        → Needs (H.state host.old) (AreAllPairs arches pairs.now)
        → Tells result (λ names w. Shows (IsConverted arches) w names) (H.state host.old)
        (H.state host.new) }
    ensures fault { (arches : Architectures)
        → Needs (H.state host.old) (AreAllPairs arches pairs.now)
        → IsTrue (H.state host.new).honest
        → IfErr result (IsNamesDamage arches (H.state host.old).world) }
    ensures reads { Reads (H.state host.old) (H.state host.new) }
    ensures silent { Silent (H.state host.old) (H.state host.new) }
    ensures counts { CountsAdministration (H.state host.old) (H.state host.new) result }
{
    match read_format(host, format)? {
        Format::Short => see_short(alloc, host, pairs),
        Format::Long => see_long(alloc, host, pairs, format),
        Format::Unknown => see_unknown(alloc, host, pairs, format),
    }
}

// By the records, in the directory.
fn see_recorded<H: Host>(
    alloc: Global,
    host: &mut H,
    info: &RootPath,
    database: &NotedDatabase,
) -> Result<SeenNames, AdministrationFault>
    requires place { info.now ≡ info_path }
    requires there { Needs (H.state host.old) (λ w. IsDirectory (w info_path)) }
    requires records { Needs (H.state host.old) (λ w. HasRecords w database.now.records) }
    ensures through { Tells result (λ names w. IsSeenThrough w names) (H.state host.old)
        (H.state host.new) }
    ensures fault { IsTrue (H.state host.new).honest
        → IfErr result (AreDamaged (H.state host.old).world) }
    ensures reads { Reads (H.state host.old) (H.state host.new) }
    ensures silent { Silent (H.state host.old) (H.state host.new) }
    ensures counts { CountsAdministration (H.state host.old) (H.state host.new) result }
{
    let listing = host.list(info)?;
    if listing.bad {
        return Ok(SeenNames::none(alloc));
    }
    let packages = packages_of(alloc, database)?;
    let pairs = pairs_of(alloc, packages.as_slice(), listing.names.as_slice())?;
    let format = RootPath::from_str(alloc, FORMAT)?;
    see_pairs(alloc, host, pairs.as_slice(), &format)
}

// In the directory.
fn see_inside<H: Host>(
    alloc: Global,
    host: &mut H,
    info: &RootPath,
    database: &NotedDatabase,
) -> Result<SeenNames, AdministrationFault>
    requires place { info.now ≡ info_path }
    requires there { Needs (H.state host.old) (λ w. IsDirectory (w info_path)) }
    requires records { Needs (H.state host.old) (λ w. HasRecords w database.now.records) }
    ensures through { Tells result (λ names w. IsSeenThrough w names) (H.state host.old)
        (H.state host.new) }
    ensures fault { IsTrue (H.state host.new).honest
        → IfErr result (AreDamaged (H.state host.old).world) }
    ensures reads { Reads (H.state host.old) (H.state host.new) }
    ensures silent { Silent (H.state host.old) (H.state host.new) }
    ensures counts { CountsAdministration (H.state host.old) (H.state host.new) result }
{
    if has_named(host, info)? {
        return see_recorded(alloc, host, info, database);
    }
    Ok(SeenNames::none(alloc))
}

/// How the names in `info/` are seen by a question: as an opening would bring them, by the records that stand. Nothing is changed.
pub fn see_names<H: Host>(
    alloc: Global,
    host: &mut H,
    database: &NotedDatabase,
) -> Result<SeenNames, AdministrationFault>
    requires records { Needs (H.state host.old) (λ w. HasRecords w database.now.records) }
    ensures through { Tells result (λ names w. IsSeenThrough w names) (H.state host.old)
        (H.state host.new) }
    ensures fault { IsTrue (H.state host.new).honest
        → IfErr result (AreDamaged (H.state host.old).world) }
    ensures reads { Reads (H.state host.old) (H.state host.new) }
    ensures silent { Silent (H.state host.old) (H.state host.new) }
    ensures counts { CountsAdministration (H.state host.old) (H.state host.new) result }
{
    let info = RootPath::from_str(alloc, INFO)?;
    if is_directory(host, &info)? {
        return see_inside(alloc, host, &info, database);
    }
    Ok(SeenNames::none(alloc))
}
