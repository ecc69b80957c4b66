// What a command that ended has noted of triggers.
ghost use Rattle.std.specs.Prelude.{◌≡◌, ◌||◌, ℕ, Bool, true, IsTrue, List, None};
ghost use Rattle.host_core.specs.Host.{State};
ghost use Rattle.command_line.specs.Triggering.{HasNoted};
ghost use Rattle.kept_activations.specs.Known.{Known as IsKnown};
ghost use Rattle.trigger_journal.specs.Asked.{is_asked, is_found};
ghost use Rattle.trigger_journal.specs.Requests.{requests_of};
ghost use Rattle.trigger_watch.specs.declared.touching.Touch.{Touch as ATouch};
ghost use Rattle.unit_reports.specs.Held.{Held};
ghost use Rattle.unit_reports.specs.declared.report.Report.{Report as AReport};
ghost use Rattle.kept_activations.specs.Hitting.{IsHitLast};
ghost use Rattle.kept_activations.specs.Pending.{IsInterested, IsPending};

/// Behind the units of a command, once what they activated is noted, each trigger that a unit hit is pending of each installed package
/// that is interested in it; so is each that was asked for by what the journal had before the units, or is by what others ask for in
/// it now; and each that was pending stays so.
pub fn what_is_activated_becomes_pending()
    ensures hit { (by_files : Bool) (known : IsKnown) (touched : List ATouch) (noted : AReport)
        (before after : Held) (s end : State) (owner trigger : List ℕ)
        → HasNoted by_files known touched noted before after s end → noted.last ≡ None
        → IsTrue end.honest → IsInterested s.world before.records.records owner trigger
        → IsHitLast s.world before.lists by_files known.watch.before.items touched owner trigger
        → IsPending after.records.records owner trigger }
    ensures asked { (by_files : Bool) (known : IsKnown) (touched : List ATouch) (noted : AReport)
        (before after : Held) (s end : State) (owner trigger : List ℕ)
        → HasNoted by_files known touched noted before after s end → noted.last ≡ None
        → IsTrue end.honest → IsInterested s.world before.records.records owner trigger
        → is_found known.found.items trigger || is_asked (requests_of s.world) trigger ≡ true
        → IsPending after.records.records owner trigger }
    ensures stays { (by_files : Bool) (known : IsKnown) (touched : List ATouch) (noted : AReport)
        (before after : Held) (s end : State) (owner trigger : List ℕ)
        → HasNoted by_files known touched noted before after s end → noted.last ≡ None
        → IsTrue end.honest → IsPending before.records.records owner trigger
        → IsPending after.records.records owner trigger }
{}
