// The parts of a stage, and the places that scripts leave alone behind them.
ghost use Rattle.std.specs.Prelude.{◌≡◌, false, true, ℕ, List, OnOk};
ghost use Rattle.std.specs.List.{list_any};
ghost use Rattle.host_core.specs.Host.{AtEachMomentOf, Counts, Needs, Silent};
ghost use Rattle.texts.specs.PackageNames.{is_package_name};
ghost use Rattle.file_lists.specs.Beside.{HadPlaces};
ghost use Rattle.file_lists.specs.Owners.{places_in};
ghost use Rattle.held_administration.specs.Open.{IsOpen};
ghost use Rattle.unit_stages.specs.Doing.{AreAmid};
ghost use Rattle.unit_stages.specs.PartFitting.{AreFit, AreSettleable};
ghost use Rattle.held_administration.specs.Order.{IsInOrder};
ghost use Rattle.unit_stages.specs.Holding.{after_parts, holding_of, is_listing};
ghost use Rattle.unit_stages.specs.Runs.{DoesParts};
ghost use Rattle.scattered_losses.specs.Apart.{WorksApart};
ghost use Rattle.status_db.specs.Held.{is_record_place};

use crate::doing::do_parts;
use crate::part::Part;
use diversions::Diversions;
use file_lists::FileLists;
use held_administration::Administration;
use host_core::{Host, HostFault, Places};
use std::alloc::{AllocError, Global};
use texts::Text;

fn is_listing(part: &Part) -> bool
    ensures { result ≡ is_listing part.now }
{
    match part {
        Part::List(_) => true,
        _ => false,
    }
}

// Whether one of these parts writes the package's list.
fn have_listing(parts: &[Part]) -> bool
    ensures { result ≡ list_any is_listing parts.now }
{
    parts.iter().any(|part| is_listing(part))
}

// The places of the lists where the package's list was written, or none: those of other packages stay.
fn keep_places(
    alloc: Global,
    lists: &FileLists,
    places: &mut Places,
    diversions: &Diversions,
    name: &Text,
    written: bool,
) -> Result<(), AllocError>
    requires had { HadPlaces diversions.now.ways name.now lists.now.lists places.old }
    requires unwritten { written ≡ false
        → places.old ≡ places_in diversions.now.ways lists.now.lists }
    ensures { OnOk result (places.new ≡ places_in diversions.now.ways lists.now.lists) }
{
    if !written {
        return Ok(());
    }
    lists.renew_places(alloc, diversions, name, places)?;
    Ok(())
}

/// Does these parts. What the list has no more is a script's to change behind them.
pub(crate) fn do_and_keep<H: Host>(
    host: &mut H,
    administration: &mut Administration,
    diversions: &Diversions,
    name: &Text,
    parts: Vec<Part>,
) -> Result<(), HostFault>
    requires open { IsOpen diversions.now.ways administration.old }
    requires named { is_package_name name.now ≡ true }
    requires fit { AreFit name.now parts.items
        administration.old.database.records administration.old.lists.lists }
    requires order { Needs (H.state host.old)
        (IsInOrder administration.old.database administration.old.lists.lists) }
    requires settleable { Needs (H.state host.old) (AreSettleable parts.items) }
    ensures left { OnOk result
        (holding_of administration.new
        ≡ after_parts name.now parts.items (holding_of administration.old)) }
    ensures open { OnOk result (IsOpen diversions.now.ways administration.new) }
    ensures done { OnOk result
        (DoesParts name.now parts.items (holding_of administration.old)
        (H.state host.old) (H.state host.new)) }
    ensures order { OnOk result
        (Needs (H.state host.new)
        (IsInOrder administration.new.database administration.new.lists.lists)) }
    ensures any_moment { AtEachMomentOf
        (AreAmid name.now parts.items administration.old.database.records)
        (H.state host.old) (H.state host.new) }
    ensures apart { WorksApart result is_record_place (H.state host.old) (H.state host.new) }
    ensures silent { Silent (H.state host.old) (H.state host.new) }
    ensures counts { Counts (H.state host.old) (H.state host.new) result }
{
    let alloc = administration.alloc;
    administration.lists.law();
    let items = parts.as_slice();
    let written = have_listing(items);
    do_parts(
        alloc,
        host,
        &mut administration.database,
        &mut administration.lists,
        name,
        items,
    )?;
    keep_places(
        alloc,
        &administration.lists,
        &mut administration.places,
        diversions,
        name,
        written,
    )?;
    Ok(())
}
