// The next opening can read what a command left that was broken off.
ghost use Rattle.std.specs.Prelude.{◌≡◌, ◌++◌, [], ℕ, IsTrue, List, Option, true};
ghost use Rattle.administration.specs.Places.{status_path};
ghost use Rattle.configure_run.specs.Run.{HasRun as HasConfigured};
ghost use Rattle.dpkg_session.specs.Diversions.{IsDiverting, IsUndiverting};
ghost use Rattle.dpkg_session.specs.History.{HasDone, Ran as ARan, Stands};
ghost use Rattle.dpkg_session.specs.Installs.{HasGoneOn};
ghost use Rattle.dpkg_session.specs.Rereading.{HasReread, with_ways};
ghost use Rattle.dpkg_session.specs.Run.{HasRun};
ghost use Rattle.dpkg_session.specs.declared.asked.Diverting.{Diverting as ADiverting};
ghost use Rattle.dpkg_session.specs.declared.asked.Undiverting.{Undiverting as AnUndiverting};
ghost use Rattle.dpkg_session.specs.declared.report.Candidate.{Candidate as ACandidate};
ghost use Rattle.diversions.specs.Ways.{Ways};
ghost use Rattle.host_core.specs.Events.{Event, changes_of};
ghost use Rattle.host_core.specs.Host.{AtEachMoment, Needs, State};
ghost use Rattle.host_core.specs.Loss.{LosesSince};
ghost use Rattle.host_core.specs.Paths.{Path, is_own, is_ship_text};
ghost use Rattle.host_core.specs.Tree.{IsTree};
ghost use Rattle.host_core.specs.Unsynced.{IsSettled};
ghost use Rattle.host_core.specs.World.{Avoids, World};
ghost use Rattle.opening.specs.Parts.{parts, IsFirstFault};
ghost use Rattle.opening.specs.TakenUp.{IsOpeningOrAdopting};
ghost use Rattle.opening.specs.Undamaged.{IsUndamaged};
ghost use Rattle.record_changes.specs.Run.{HasRun as HasChanged};
ghost use Rattle.record_changes.specs.declared.change.RecordChange.{RecordChange as ARecordChange};
ghost use Rattle.removal_run.specs.Run.{HasRun as HasRemoved};
ghost use Rattle.removal_run.specs.declared.options.RemovalOptions.{RemovalOptions as ARemovalOptions};
ghost use Rattle.configure_run.specs.declared.options.ConfigureOptions.{ConfigureOptions as AConfigureOptions};
ghost use Rattle.unpack_relations.specs.declared.options.UnpackOptions.{UnpackOptions as AnUnpackOptions};
ghost use Rattle.trigger_run.specs.Run.{HasRun as HasProcessed};
ghost use Rattle.scattered_losses.specs.Scattered.{LosesScattered};
ghost use Rattle.status_db.specs.Held.{AreKept, HasRecords, IsTableOf};
ghost use Rattle.status_db.specs.Noting.{IsMerging};
ghost use Rattle.status_records.specs.declared.record.Record.{Record as ARecord};
ghost use Rattle.unit_reports.specs.Held.{Held};
ghost use Rattle.unit_reports.specs.declared.report.Report.{Report as AReport};
ghost use Rattle.unit_reports.specs.declared.report.Unit.{Unit as AUnit};
ghost use Rattle.reopening.specs.ControlFiles.{KeepsControlFiles};
ghost use Rattle.reopening.specs.Opens.{CanBeOpened, CanBeOpenedAmid, FindsStanding};
ghost use Rattle.reopening.specs.Trees.{AreTextTrees};

use dpkg_session::history_stands;
use opening::{a_stopped_opening_can_be_opened, what_is_fine_has_no_fault};
use scattered_losses::a_loss_is_path_by_path_like_a_stop;

/// What can be opened isn't damaged: the next opening tells no fault of it.
pub fn what_can_be_opened_is_undamaged()
    ensures undamaged { (w : World) → IsTree w → CanBeOpened w → IsUndamaged w }
    ensures no_fault { (w : World) (file : Path) (line : ℕ) → IsTree w → CanBeOpened w
        → IsFirstFault parts w file line → ⊥ }
{
    what_is_fine_has_no_fault();
}

/// At each moment of an unpack, also of one that was broken off, and of an install behind its unpacks, the next
/// opening can read all parts of an administration that stood when it began.
pub fn an_unpack_can_be_opened_amid()
    ensures unpack { (allowed : AnUnpackOptions) (cs : List ACandidate) (us : List AUnit)
        (last : Option AUnit) (before : Held) (s t : State) → AreTextTrees cs
        → FindsStanding before s
        → HasRun allowed cs us last before s t → CanBeOpenedAmid s t }
    ensures install { (allowed : AnUnpackOptions) (cs : List ACandidate) (options : AConfigureOptions)
        (unpacked : List AUnit) (configured : AReport) (before : Held) (s t : State)
        → AreTextTrees cs → FindsStanding before s → HasGoneOn allowed cs options unpacked
        configured before s t → CanBeOpenedAmid s t }
{}

/// Once the table of diversions was read again before a command, the administration stands with it: so what is said of each moment of
/// the command holds behind the reading too, during which nothing changes.
pub fn a_table_that_was_read_again_stands()
    ensures { (before : Held) (ways : Ways) (s m : State) → FindsStanding before s
        → HasReread before ways s m → FindsStanding (with_ways before ways) m }
{}

/// At each moment of a configure, likewise.
pub fn a_configure_can_be_opened_amid()
    ensures { (names : List (List ℕ)) (options : AConfigureOptions) (us : List AUnit) (last : Option AUnit)
        (before : Held) (s t : State) → FindsStanding before s → HasConfigured
        names options us last before s t → CanBeOpenedAmid s t }
{}

/// At each moment of a removal or a purge, likewise.
pub fn a_removal_can_be_opened_amid()
    ensures { (names : List (List ℕ)) (removal : ARemovalOptions) (us : List AUnit) (last : Option AUnit)
        (before : Held) (s t : State) → FindsStanding before s → HasRemoved
        names removal us last before s t → CanBeOpenedAmid s t }
{}

/// At each moment while records are changed, likewise.
pub fn a_change_can_be_opened_amid()
    ensures { (changes : List ARecordChange) (us : List AUnit) (last : Option AUnit)
        (before : Held) (s t : State) → FindsStanding before s → HasChanged
        changes us last before s t → CanBeOpenedAmid s t }
{}

/// At each moment while triggers are processed, likewise.
pub fn triggers_can_be_opened_amid()
    ensures { (names : List (List ℕ)) (us : List AUnit) (last : Option AUnit)
        (before : Held) (s t : State) → FindsStanding before s → HasProcessed
        names us last before s t → CanBeOpenedAmid s t }
{}

/// At each moment while a diversion is added or taken away, likewise.
pub fn a_diversion_can_be_opened_amid()
    ensures divert { (asked : ADiverting) (before : Held) (s t : State)
        → is_ship_text asked.path ≡ true → is_ship_text asked.target ≡ true → FindsStanding before s
        → AtEachMoment (IsDiverting asked before.records.records before.lists before.ways) s t
        → CanBeOpenedAmid s t }
    ensures undivert { (asked : AnUndiverting) (before : Held) (s t : State)
        → is_ship_text asked.path ≡ true → FindsStanding before s
        → AtEachMoment (IsUndiverting asked before.ways) s t → CanBeOpenedAmid s t }
{}

/// At each moment of an opening of what can be opened, as a stop or a loss of power left it, so can what is there. Of any
/// administration that isn't damaged, as of a root without its directories, a loss of power during an opening leaves one that isn't.
pub fn an_opening_can_be_opened_amid()
    ensures amid { (s t : State) → Needs s CanBeOpened → AtEachMoment
        IsOpeningOrAdopting s t → CanBeOpenedAmid s t }
    ensures lost { (begun s t : State) (session : List Event) (left : World) → IsTrue t.honest
        → IsSettled t.events → t.events ≡ begun.events ++ session
        → changes_of session ≡ [] → Needs s IsUndamaged → AtEachMoment
        IsOpeningOrAdopting s t → LosesSince begun s t left → IsUndamaged left }
{
    a_stopped_opening_can_be_opened();
}

/// At each moment of an opening dpkg reads each control file that it read before, the same, of a recorded package of which several
/// may be installed, by its name with the architecture or without; and what can be brought to the names without is left so. A
/// loss of power during an opening leaves it so too, also where the disk keeps no order between two directories.
pub fn an_opening_keeps_control_files()
    ensures amid { (table : List ARecord) (old now : World) → HasRecords old table
        → IsOpeningOrAdopting old now → KeepsControlFiles table old now }
    ensures lost { (table : List ARecord) (begun s t : State) (session : List Event) (left : World)
        → IsTrue t.honest → IsSettled t.events → t.events ≡ begun.events ++ session
        → changes_of session ≡ [] → Needs s (λ w. HasRecords w table) → AtEachMoment
        IsOpeningOrAdopting s t → LosesSince begun s t left
        → KeepsControlFiles table s.world left }
    ensures scattered { (table : List ARecord) (begun s t : State) (session : List Event)
        (left : World) → IsTrue t.honest → IsSettled t.events
        → t.events ≡ begun.events ++ session → changes_of session ≡ []
        → Needs s (λ w. HasRecords w table) → AtEachMoment IsOpeningOrAdopting s t
        → LosesScattered begun s t left → KeepsControlFiles table s.world left }
{
    a_loss_is_path_by_path_like_a_stop();
}

/// At each moment while a command's notes are merged at its end, likewise. Behind that no note stands: the status file alone
/// stands for all records.
pub fn a_checkpoint_can_be_opened_amid()
    ensures amid { (h : Held) (s t : State) → FindsStanding h s → AtEachMoment
        (IsMerging h.records.records) s t → CanBeOpenedAmid s t }
    ensures alone { (records : List ARecord) (w : World) → AreKept records 0 w
        → IsTableOf (w status_path) records }
{
    a_stopped_opening_can_be_opened();
}

/// What holds of each moment holds after a loss of power too, where no script of the session wrote a file of the
/// administration: the next opening can read what is left. Behind a command that has answered, with all on the disk, the
/// administration stands as it was left, for the same records, lists and diversions.
pub fn a_loss_can_be_opened()
    ensures amid { (begun s t : State) (session : List Event) (left : World) → IsTrue t.honest
        → IsSettled t.events → t.events ≡ begun.events ++ session
        → Avoids is_own (changes_of session) → CanBeOpenedAmid s t → LosesSince begun s t left
        → CanBeOpened left }
    ensures answered { (h : Held) (begun t : State) (session : List Event) (left : World)
        → IsTrue t.honest → IsSettled t.events → t.events ≡ begun.events ++ session
        → Avoids is_own (changes_of session) → Stands h t.world → LosesSince begun t t left
        → Stands h left }
    ensures command { (ran : ARan) (before after : Held) (begun s t : State) (session : List Event)
        (left : World) → IsTrue t.honest → IsSettled t.events → t.events ≡ begun.events ++ session
        → Avoids is_own (changes_of session) → Stands before s.world
        → HasDone ran before after s t → LosesSince begun t t left → Stands after left }
{
    history_stands();
}
