// What steps and an unwind make together.
ghost use Rattle.std.specs.Prelude.{◌≡◌, [], ◌++◌, ◌∷◌, List, Option, Some, None, length};
ghost use Rattle.host_core.specs.Events.{Ran};
ghost use Rattle.host_core.specs.Host.{State, Silent, calls};
ghost use Rattle.undo_rows.specs.declared.rows.Called.{Called};
ghost use Rattle.undo_rows.specs.declared.rows.Row.{Row};
ghost use Rattle.undo_rows.specs.declared.fall.Fall.{Fall};
ghost use Rattle.undo_rows.specs.Transcript.{Tells};
ghost use Rattle.undo_rows.specs.declared.failed.Failed.{Failed};
ghost use Rattle.undo_rows.specs.declared.unwinding.Unwinding.{Unwinding};
ghost use Rattle.undo_rows.specs.Ended.{IsCauseOf};
ghost use Rattle.undo_rows.specs.Telling.{Begun, HasRun, HasStepped, HasSucceeded, HasUnwound};
ghost use Rattle.undo_rows.specs.Transcripts.{Committed, Ended, IfHonest, Legal, MayRun, MayStep, MayUnwind, Unwound};

use crate::around::Around;
use host_core::Host;

/// Rows that were stepped through one after another, with whatever was done beside them, have made a legal transcript; so have
/// those up to one that failed, and the unwind after it. The calls that were made and told are those by which the host's own list
/// has grown.
pub fn steps_and_an_unwind_are_a_run<H: Host, A: Around<H>>()
    ensures none { (t : A.Task) (a b : State) (told : List Called) → Silent a b
        → HasSucceeded (A.file_step_fault t) [] a b told told }
    ensures step { (t : A.Task) (rows : List Row) (row : Row) (a b c : State)
        (told more now : List Called) → HasSucceeded (A.file_step_fault t) rows a b told more
        → HasStepped (A.file_step_fault t) row None b c more now
        → HasSucceeded (A.file_step_fault t) (rows ++ row ∷ []) a c told now }
    ensures committed { (t : A.Task) (rows : List Row) (a b : State) (told now : List Called)
        → HasSucceeded (A.file_step_fault t) rows a b told now
        → HasRun (A.file_step_fault t) Committed rows a b told now }
    ensures unwound { (t : A.Task) (rows after : List Row) (row : Row) (fall : Fall)
        (failed : List Failed) (a b c d : State) (told more last now : List Called)
        → fall.row ≡ length rows → HasSucceeded (A.file_step_fault t) rows a b told more
        → HasStepped (A.file_step_fault t) row (Some fall) b c more last
        → HasUnwound (rows ++ row ∷ []) failed c d last now
        → HasRun (A.file_step_fault t) (Unwound fall failed) (rows ++ row ∷ after) a d told now }
    ensures beside { (t : A.Task) (ended : Ended) (rows : List Row) (a b c : State)
        (told now : List Called) → HasRun (A.file_step_fault t) ended rows a b told now → Silent b c
        → HasRun (A.file_step_fault t) ended rows a c told now }
    ensures calls { (t : A.Task) (ended : Ended) (rows : List Row) (a b : State)
        (told now : List Called) → HasRun (A.file_step_fault t) ended rows a b told now
        → (ts : List Ran) × (calls b ≡ calls a ++ ts)
        × (Legal (IfHonest b (A.file_step_fault t)) (calls a) ended rows ts × Tells ts told now) }
{}

/// Where it is broken off, in a step, beside the steps or in an unwind, the calls that were made and told are the first of some
/// that are legal for the rows.
pub fn what_is_broken_off_begins_a_run<H: Host, A: Around<H>>()
    ensures beside { (t : A.Task) (rows after : List Row) (a b c : State) (told now : List Called)
        → HasSucceeded (A.file_step_fault t) rows a b told now → Silent b c
        → Begun (MayRun (rows ++ after)) a c told now }
    ensures step { (t : A.Task) (rows after : List Row) (row : Row) (a b c : State)
        (told more now : List Called) → HasSucceeded (A.file_step_fault t) rows a b told more
        → Begun (MayStep row) b c more now → Begun (MayRun (rows ++ row ∷ after)) a c told now }
    ensures unwind { (t : A.Task) (rows after : List Row) (row : Row) (fall : Fall)
        (a b c d : State) (told more last now : List Called)
        → HasSucceeded (A.file_step_fault t) rows a b told more
        → HasStepped (A.file_step_fault t) row (Some fall) b c more last
        → Begun (MayUnwind (rows ++ row ∷ [])) c d last now
        → Begun (MayRun (rows ++ row ∷ after)) a d told now }
    ensures whole { (t : A.Task) (ended : Ended) (rows : List Row) (a b c : State)
        (told now : List Called) → HasRun (A.file_step_fault t) ended rows a b told now → Silent b c
        → Begun (MayRun rows) a c told now }
    ensures calls { (rows : List Row) (a b : State) (told now : List Called)
        → Begun (MayRun rows) a b told now
        → (ts more : List Ran) × (calls b ≡ calls a ++ ts)
        × (MayRun rows (ts ++ more) × Tells ts told now) }
{}

/// What some rows were unwound by, or broken off with, is that of these rows with others behind them.
pub fn the_first_rows_are_rows_of_all<H: Host, A: Around<H>>()
    ensures unwound { (t : A.Task) (rows after : List Row) (fall : Fall) (failed : List Failed)
        (a b : State) (told now : List Called)
        → HasRun (A.file_step_fault t) (Unwound fall failed) rows a b told now
        → HasRun (A.file_step_fault t) (Unwound fall failed) (rows ++ after) a b told now }
    ensures begun { (rows after : List Row) (a b : State) (told now : List Called)
        → Begun (MayRun rows) a b told now → Begun (MayRun (rows ++ after)) a b told now }
    ensures cause { (rows after : List Row) (u : Unwinding)
        → IsCauseOf rows (Some u) → IsCauseOf (rows ++ after) (Some u) }
{}
