// The removal of packages in favour of one that was unpacked.
ghost use Rattle.std.specs.Prelude.{◌≡◌, ◌≢◌, ℕ, Contains, IfOk, List, OnOk};
ghost use Rattle.host_core.specs.Host.{AtEachMomentOf, Counts, Needs, Since};
ghost use Rattle.held_administration.specs.Open.{IsOpen};
ghost use Rattle.removal_engine.specs.Units.{HasCalled, IsAmidUnit, given};
ghost use Rattle.removal_engine.specs.declared.extent.Extent.TheVariants.{InFavour};
ghost use Rattle.status_records.specs.Records.{record_in};
ghost use Rattle.held_administration.specs.Order.{IsInOrder};
ghost use Rattle.unit_stages.specs.Holding.{holding_of};
ghost use Rattle.conflict_removal.specs.Removals.{HaveBeenRemoved, HaveCalled, IsAmidRemovals, IsRemovedOrGone, begins_in_favour, can_be_removed, first_failed};

use diversions::Diversions;
use held_administration::Administration;
use host_core::{Call, Host, HostFault};
use removal_engine::{Extent, remove};
use status_db::NotedDatabase;
use status_records::State;
use texts::Text;
use undo_rows::Called;

fn begins_in_favour(state: State) -> bool
    ensures { result ≡ begins_in_favour state }
{
    match state {
        State::HalfInstalled | State::Unpacked | State::HalfConfigured => true,
        State::NotInstalled | State::ConfigFiles | State::Installed => false,
    }
}

// Whether something of a package can be removed in favour of another.
fn can_be_removed(database: &NotedDatabase, name: &Text) -> bool
    ensures { result ≡ can_be_removed (record_in database.now.records name.now) }
{
    match database.get(name) {
        Some(entry) => begins_in_favour(entry.state),
        None => false,
    }
}

// Removes one of them, or passes it over.
fn remove_one<H: Host>(
    host: &mut H,
    administration: &mut Administration,
    diversions: &Diversions,
    name: &Text,
    told: &mut Vec<Called>,
) -> Result<Option<Call>, HostFault>
    requires order { Needs (H.state host.old)
        (IsInOrder administration.old.database administration.old.lists.lists) }
    requires open { IsOpen diversions.now.ways administration.old }
    ensures removed { IfOk result
        (λ failed. IsRemovedOrGone diversions.now.ways name.now failed
        (holding_of administration.old) (holding_of administration.new)
        (H.state host.old) (H.state host.new) told.old.items told.new.items) }
    ensures others { OnOk result
        ((q : List ℕ)
        → q ≢ name.now
        → record_in administration.new.database.records q
        ≡ record_in administration.old.database.records q) }
    ensures order { OnOk result
        (Needs (H.state host.new)
        (IsInOrder administration.new.database administration.new.lists.lists)) }
    ensures open { OnOk result (IsOpen diversions.now.ways administration.new) }
    ensures told { HasCalled
        (given InFavour name.now diversions.now.ways (holding_of administration.old))
        (H.state host.old) (H.state host.new) told.old.items told.new.items }
    ensures any_moment { AtEachMomentOf
        (IsAmidUnit
        (given InFavour name.now diversions.now.ways (holding_of administration.old)))
        (H.state host.old) (H.state host.new) }
    ensures counts { Counts (H.state host.old) (H.state host.new) result }
{
    if can_be_removed(&administration.database, name) {
        return remove(
            host,
            administration,
            diversions,
            name,
            Extent::InFavour,
            told,
        );
    }
    Ok(None)
}

fn first_failed(failed: Option<Call>, other: Option<Call>) -> Option<Call>
    ensures { result ≡ first_failed failed other }
{
    match failed {
        Some(call) => Some(call),
        None => other,
    }
}

/// Removes packages in favour of one that was unpacked and conflicts with them, one after another, each from its files on: that
/// unpack has called their prerm. One of which nothing can be removed any more is passed over. Where a postrm fails, its package
/// stays half-installed, and the rest goes on; the answer is the first call that failed.
pub fn remove_in_favour<H: Host>(
    host: &mut H,
    administration: &mut Administration,
    diversions: &Diversions,
    names: &[Text],
    told: &mut Vec<Called>,
) -> Result<Option<Call>, HostFault>
    requires order { Needs (H.state host.old)
        (IsInOrder administration.old.database administration.old.lists.lists) }
    requires open { IsOpen diversions.now.ways administration.old }
    ensures removed { IfOk result
        (λ failed. HaveBeenRemoved diversions.now.ways names.now failed
        (holding_of administration.old) (holding_of administration.new)
        (H.state host.old) (H.state host.new) told.old.items told.new.items) }
    ensures others { OnOk result
        ((q : List ℕ)
        → (Contains names.now q → ⊥)
        → record_in administration.new.database.records q
        ≡ record_in administration.old.database.records q) }
    ensures order { OnOk result
        (Needs (H.state host.new)
        (IsInOrder administration.new.database administration.new.lists.lists)) }
    ensures open { OnOk result (IsOpen diversions.now.ways administration.new) }
    ensures told { HaveCalled diversions.now.ways names.now (holding_of administration.old)
        (H.state host.old) (H.state host.new) told.old.items told.new.items }
    ensures any_moment { Since
        (IsAmidRemovals diversions.now.ways names.now (holding_of administration.old)
        (H.state host.old))
        (H.state host.old) (H.state host.new) }
    ensures counts { Counts (H.state host.old) (H.state host.new) result }
{
    let mut failed = None;
    for name in names {
        match remove_one(host, administration, diversions, name, told) {
            Ok(own) => {
                failed = first_failed(failed, own);
            }
            Err(fault) => {
                return Err(fault);
            }
        }
    }
    Ok(failed)
}
