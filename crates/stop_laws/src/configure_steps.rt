// How far configuring is, as a stop leaves it, conffile by conffile.
ghost use Rattle.std.specs.Prelude.{◌≡◌, [], List, Some, Contains};
ghost use Rattle.host_core.specs.Events.{Event, changes_of};
ghost use Rattle.host_core.specs.Paths.{Path};
ghost use Rattle.host_core.specs.World.{World};
ghost use Rattle.conffiles.specs.Settling.{IsDecided, IsShippedAs, files_at, settled_files};
ghost use Rattle.conffiles.specs.declared.decisions.Decision.{Decision as ADecision};
ghost use Rattle.status_records.specs.Conffiles.{recorded_digest};
ghost use Rattle.status_db.specs.Recorded.{Recorded};
ghost use Rattle.status_records.specs.Records.{record_in};
ghost use Rattle.status_records.specs.declared.record.Record.{Record as ARecord};
ghost use Rattle.held_administration.specs.Order.{IsInOrder};
ghost use Rattle.configure_engine.specs.Units.{Given, IsAmidUnit};
ghost use Rattle.configure_engine.specs.Waiting.{pending_digest, place_of, settling_paths};
ghost use Rattle.stop_laws.specs.Configuring.{IsAtStep};

use conffiles::settling_again_ends_alike;

/// At each moment of configuring a package that began in order nothing outside the administration is changed; or its conffiles are being
/// settled, each of which has its files of before, those that its decision leaves, or is on the way, and the package is half-configured;
/// or they are settled and noted so, and script calls alone changed anything since. Until the postinst has changed anything, deciding
/// again by what is there then, and settling, leaves a conffile's files as the unit would have left them without the stop.
pub fn what_each_step_of_configuring_leaves()
    ensures steps { (g : Given) (r : ARecord) (d : Recorded) (old now : World) (so_far : List Event)
        → record_in g.before.records g.name ≡ Some r
        → IsInOrder d g.before.lists old
        → d.records ≡ g.before.records
        → IsAmidUnit g old so_far now
        → IsAtStep g r old (changes_of so_far) now }
    ensures again { (g : Given) (r : ARecord) (old now : World) (so_far : List Event) (x : Path)
        (first again : ADecision)
        → record_in g.before.records g.name ≡ Some r
        → changes_of so_far ≡ []
        → Contains (settling_paths g.ways r) x
        → IsShippedAs (pending_digest r.pending x) (files_at old (place_of g.ways x))
        → IsDecided (recorded_digest r.conffiles x) (pending_digest r.pending x) g.policy
        (files_at old (place_of g.ways x)) first
        → IsDecided (recorded_digest r.conffiles x) (pending_digest r.pending x) g.policy
        (files_at now (place_of g.ways x)) again
        → IsAmidUnit g old so_far now
        → settled_files again (files_at now (place_of g.ways x))
        ≡ settled_files first (files_at old (place_of g.ways x)) }
{
    settling_again_ends_alike();
}
