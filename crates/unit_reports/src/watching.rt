// Who is told the units of a command as they are finished, and when.
ghost use Rattle.std.specs.Prelude.{◌≡◌, ◌++◌, [], ◌∷◌, Bool, IsTrue, List, false};
ghost use Rattle.host_core.specs.Host.{State};
ghost use Rattle.host_core.specs.Loss.{IsAnswered};
ghost use Rattle.undo_rows.specs.Transcript.{TellsAll};
ghost use Rattle.unit_reports.specs.Units.{IsRefusal, calls_of};
ghost use Rattle.unit_reports.specs.Watching.{AddsTold, IsTold};
ghost use Rattle.unit_reports.specs.declared.report.Unit.{Unit as AUnit};

use crate::report::Unit;
use host_core::Host;

/// Is told each unit of a command once it is finished and all of it is on the disk, and before the next one makes a call.
pub trait Watcher {
    /// How it comes from one state to another by being told a unit, at this state of the host.
    ghost tells: { Self → AUnit → State → Self → Type 0 };

    /// Whether it wants no further unit to be begun.
    ghost ends: { Self → Bool };

    /// A unit is finished. Where no further one was to be begun, it's one that a rule refuses.
    fn finished<H: Host>(&mut self, host: &H, unit: &Unit)
        requires begun { IsTrue (ends self.old) → IsRefusal unit.now.reply }
        ensures { tells self.old unit.now (H.state host.now) self.new };

    /// Whether no further unit is to be begun.
    fn is_over(&self) -> bool
        ensures { result ≡ ends self.now };
}

/// Does nothing with what it is told.
#[derive(Drop)]
pub struct Unwatched;

impl Watcher for Unwatched {
    ghost tells = { λ old unit at new. new ≡ old };

    ghost ends = { λ watcher. false };

    fn finished<H: Host>(&mut self, host: &H, unit: &Unit) {
        let _ = host;
        let _ = unit;
    }

    fn is_over(&self) -> bool {
        false
    }
}

/// What was told in turn was told as a whole; of two runs of units the second may be counted from the state behind the first.
pub fn what_is_told_in_turn<W: Watcher>()
    ensures none { (s : State) (w : W) → IsTold W.tells s w [] w }
    ensures one { (s at : State) (old new : W) (u : AUnit) → W.tells old u at new
        → TellsAll s at [] u.calls.items → IsAnswered s at → IsTold W.tells s old (u ∷ []) new }
    ensures more { (s at : State) (old mid new : W) (us vs : List AUnit)
        → IsTold W.tells s old us mid → TellsAll s at [] (calls_of us) → IsAnswered s at
        → IsTold W.tells at mid vs new → IsTold W.tells s old (us ++ vs) new }
    ensures none_added { (s : State) (w : W) (us : List AUnit) → AddsTold W.tells s us us w w }
    ensures one_added { (s at : State) (old new : W) (us : List AUnit) (u : AUnit)
        → W.tells old u at new → TellsAll s at [] u.calls.items → IsAnswered s at
        → AddsTold W.tells s us (us ++ u ∷ []) old new }
    ensures added { (s at : State) (old mid new : W) (first second third : List AUnit)
        → AddsTold W.tells s first second old mid → TellsAll s at (calls_of first) (calls_of second)
        → IsAnswered s at → AddsTold W.tells at second third mid new
        → AddsTold W.tells s first third old new }
{}
