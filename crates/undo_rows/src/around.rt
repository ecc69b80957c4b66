// What is done beside the calls of rows.
ghost use Rattle.std.specs.Prelude.{◌≡◌, ◌≢◌, ℕ, ◌+◌, Bool, true, List, ◌++◌, Option, IfOk, OnOk, IsTrue};
ghost use Rattle.host_core.specs.Paths.{Path, is_own};
ghost use Rattle.host_core.specs.World.{World, is_kept};
ghost use Rattle.host_core.specs.Events.{Event, Ran};
ghost use Rattle.host_core.specs.Host.{Calls, Counts, OnlyScripts, Silent, State, calls};
ghost use Rattle.scattered_losses.specs.Apart.{WorksApart};
ghost use Rattle.undo_rows.specs.declared.rows.Row.{Row};
ghost use Rattle.undo_rows.specs.declared.rows.Owner.TheVariants.{Files};
ghost use Rattle.undo_rows.specs.declared.fall.StepFault.{StepFault};
ghost use Rattle.undo_rows.specs.Faults.{OnlyIfDeclined};
ghost use Rattle.undo_rows.specs.Place.{Back, Forward, Place, Ready, blamed, called, worked};
ghost use Rattle.undo_rows.specs.Stops.{AtEachStop};
ghost use Rattle.undo_rows.specs.Transcripts.{IfHonest};

use crate::failed::Failed;
use crate::fall::{Fall, StepFault};
use crate::rows::Row;
use host_core::{Host, HostFault, Places};

/// What is done beside the calls of rows: notes and files. It makes no script call.
pub trait Around<H: Host> {
    /// What stays the same over a run of rows.
    ghost Task: { Type 0 };

    ghost task: { Self → Self.Task };

    /// The names of what it holds by `&mut`, which stay the same.
    ghost reference: { Self → List ℕ };

    /// Which row may stand at which place of the list.
    ghost fits: { Self.Task → ℕ → Row → Type 0 };

    /// The places that scripts leave alone: more of them once the files are listed.
    ghost kept: { Self → List Path };

    /// The step fault of the file row's work, or none, after all these calls.
    ghost file_step_fault: { Self.Task → List Ran → Option StepFault → Type 0 };

    /// What holds at each moment of all events of the host so far, and of the world.
    ghost stops: { Self.Task → List Event → World → Type 0 };

    /// What holds at a place of the run.
    ghost at: { Self → State → Place → Type 0 };

    /// The names that change apart from all others, between two barriers the ones or the others:
    /// those of what is noted.
    ghost area: { Path → Bool };

    fn places(&self) -> &Places
        ensures { result.now ≡ kept self.now };

    /// Is called before a row of calls.
    fn prepare(&mut self, host: &mut H, row: &Row, index: usize) -> Result<(), HostFault>
        requires place { at self.old (H.state host.old) (Forward index) }
        requires row { fits (task self.old) index row.now }
        requires calls { row.now.owner ≢ Files }
        ensures place { OnOk result (at self.new (H.state host.new) (Ready index)) }
        ensures any_moment { AtEachStop (stops (task self.old)) (H.state host.old)
            (H.state host.new) }
        ensures task { task self.new ≡ task self.old }
        ensures reference { reference self.new ≡ reference self.old }
        ensures apart { WorksApart result area (H.state host.old) (H.state host.new) }
        ensures silent { Silent (H.state host.old) (H.state host.new) }
        ensures counts { Counts (H.state host.old) (H.state host.new) result };

    /// Is called after a row of calls, which has succeeded or not.
    fn conclude(
        &mut self,
        host: &mut H,
        row: &Row,
        index: usize,
        succeeded: bool,
    ) -> Result<(), HostFault>
        requires place { at self.old (H.state host.old) (Ready index) }
        requires row { fits (task self.old) index row.now }
        requires calls { row.now.owner ≢ Files }
        ensures place { OnOk result (at self.new (H.state host.new) (called index succeeded)) }
        ensures any_moment { AtEachStop (stops (task self.old)) (H.state host.old)
            (H.state host.new) }
        ensures task { task self.new ≡ task self.old }
        ensures reference { reference self.new ≡ reference self.old }
        ensures apart { WorksApart result area (H.state host.old) (H.state host.new) }
        ensures silent { Silent (H.state host.old) (H.state host.new) }
        ensures counts { Counts (H.state host.old) (H.state host.new) result };

    /// Does the work of the file row. A step fault means that the row has failed.
    fn work(
        &mut self,
        host: &mut H,
        row: &Row,
        index: usize,
    ) -> Result<Option<StepFault>, HostFault>
        requires place { at self.old (H.state host.old) (Forward index) }
        requires row { fits (task self.old) index row.now }
        requires files { row.now.owner ≡ Files }
        ensures fault { IfOk result
            (IfHonest (H.state host.new) (file_step_fault (task self.old))
            (calls (H.state host.old))) }
        ensures denied { IfOk result
            (λ fault. OnlyIfDeclined fault (H.state host.old) (H.state host.new)) }
        ensures place { IfOk result (λ fault. at self.new (H.state host.new) (worked index fault)) }
        ensures any_moment { AtEachStop (stops (task self.old)) (H.state host.old)
            (H.state host.new) }
        ensures task { task self.new ≡ task self.old }
        ensures reference { reference self.new ≡ reference self.old }
        ensures apart { WorksApart result area (H.state host.old) (H.state host.new) }
        ensures silent { Silent (H.state host.old) (H.state host.new) }
        ensures counts { Counts (H.state host.old) (H.state host.new) result };

    /// Is called after the undo call of a row, or in place of one that is absent or spared.
    fn undone(
        &mut self,
        host: &mut H,
        row: &Row,
        index: usize,
        fall: &Fall,
        failed: &[Failed],
        fails: bool,
    ) -> Result<(), HostFault>
        requires place { at self.old (H.state host.old) (Back (index + 1) fall.now failed.now) }
        requires row { fits (task self.old) index row.now }
        requires calls { row.now.owner ≢ Files }
        ensures place { OnOk result
            (at self.new (H.state host.new)
            (Back index fall.now (blamed fails index row.now.owner failed.now))) }
        ensures any_moment { AtEachStop (stops (task self.old)) (H.state host.old)
            (H.state host.new) }
        ensures task { task self.new ≡ task self.old }
        ensures reference { reference self.new ≡ reference self.old }
        ensures apart { WorksApart result area (H.state host.old) (H.state host.new) }
        ensures silent { Silent (H.state host.old) (H.state host.new) }
        ensures counts { Counts (H.state host.old) (H.state host.new) result };

    /// Undoes the work of the file row.
    fn put_back(
        &mut self,
        host: &mut H,
        row: &Row,
        index: usize,
        fall: &Fall,
        failed: &[Failed],
    ) -> Result<(), HostFault>
        requires place { at self.old (H.state host.old) (Back (index + 1) fall.now failed.now) }
        requires row { fits (task self.old) index row.now }
        requires files { row.now.owner ≡ Files }
        ensures place { OnOk result
            (at self.new (H.state host.new) (Back index fall.now failed.now)) }
        ensures any_moment { AtEachStop (stops (task self.old)) (H.state host.old)
            (H.state host.new) }
        ensures task { task self.new ≡ task self.old }
        ensures reference { reference self.new ≡ reference self.old }
        ensures apart { WorksApart result area (H.state host.old) (H.state host.new) }
        ensures silent { Silent (H.state host.old) (H.state host.new) }
        ensures counts { Counts (H.state host.old) (H.state host.new) result };

    /// Scripts leave these names alone.
    ghost own: { (q : Path) → area q ≡ true → is_own q ≡ true };

    /// Script calls lead to no other place.
    ghost stays: { (a : Self) (s t : State) (p : Place) (ts : List Ran) → at a s p
        → Calls (is_kept (kept a)) ts s t → at a t p };

    /// At a place, while scripts run and where one is cut off, it holds.
    ghost holds: { (a : Self) (s : State) (p : Place) (more : List Event) (v : World) → at a s p
        → IsTrue s.honest → OnlyScripts (is_kept (kept a)) s.world more v
        → stops (task a) (s.events ++ more) v };
}
