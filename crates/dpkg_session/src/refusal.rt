// What refuses the unpack of a package, or what it does to other packages.
ghost use Rattle.std.specs.Prelude.{◌≡◌, List, IfOk, option_copied};
ghost use Rattle.recorded_packages.specs.Packages.{ArePackagesOf};
ghost use Rattle.status_records.specs.declared.record.Record.{Record};
ghost use Rattle.unpack_relations.specs.Checks.{AreBesideApart};
ghost use Rattle.dpkg_session.specs.Refusals.{IsDecisionOf, conffile_away, first_away, first_of, is_away};

use diversions::Diversions;
use host_core::ShipPath;
use package_tree::Package;
use relation_index::Packages;
use std::alloc::{AllocError, Global};
use texts::Text;
use unit_reports::Rule;
use unpack_relations::{Checked, UnpackOptions, check};

// Whether the file of a path is diverted for the package.
fn is_away(diversions: &Diversions, name: &Text, path: &ShipPath) -> Result<bool, AllocError>
    ensures { IfOk result (λ away. away ≡ is_away diversions.now.ways name.now path.now) }
{
    let place = diversions.ship_place(name, path)?;
    let own = diversions.resolve_ship(path)?;
    Ok(place.as_str() != own.as_str())
}

fn first_away<'a>(
    diversions: &Diversions,
    name: &Text,
    paths: &'a [ShipPath],
) -> Result<Option<&'a ShipPath>, AllocError>
    ensures { IfOk result (λ first. option_copied first ≡ first_away diversions.now.ways name.now
        paths.now) }
{
    for path in paths {
        if is_away(diversions, name, path)? {
            return Ok(Some(path));
        }
    }
    Ok(None)
}

// The one that is before the other in path order.
fn first_of<'a>(one: Option<&'a ShipPath>, other: Option<&'a ShipPath>) -> Option<&'a ShipPath>
    ensures { option_copied result ≡ first_of (option_copied one.entry)
        (option_copied other.entry) }
{
    let (Some(a), Some(b)) = (one, other) else {
        return one.or(other);
    };
    if b.as_str() < a.as_str() {
        return other;
    }
    one
}

// The first conffile or flagged path whose file is diverted.
fn conffile_away<'a>(
    diversions: &Diversions,
    incoming: &'a Package,
) -> Result<Option<&'a ShipPath>, AllocError>
    ensures { IfOk result (λ first. option_copied first ≡ conffile_away diversions.now.ways
        incoming.now) }
{
    let shipped = first_away(diversions, &incoming.name, incoming.conffiles.as_slice())?;
    let flagged = first_away(diversions, &incoming.name, incoming.flagged.as_slice())?;
    Ok(first_of(shipped, flagged))
}

// The first rule that refuses a package, a diverted conffile or else one of relations between packages; or what its
// unpack does to other packages.
pub(crate) fn decision_of(
    alloc: Global,
    incoming: &Package,
    packages: &Packages,
    diversions: &Diversions,
    allowed: UnpackOptions,
) -> Result<Checked, AllocError>
    ensures decided { IfOk result (λ checked. (records : List Record)
        → ArePackagesOf records packages.now → IsDecisionOf incoming.now allowed records
        diversions.now.ways checked) }
    ensures apart { IfOk result (λ checked. (records : List Record)
        → ArePackagesOf records packages.now → AreBesideApart incoming.now.name records checked) }
{
    if let Some(path) = conffile_away(diversions, incoming)? {
        return Ok(Checked::Refused(Rule::ConffileDiverted(path.copy()?)));
    }
    let checked = check(alloc, packages, incoming, allowed)?;
    Ok(checked)
}
