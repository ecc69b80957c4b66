// What holds of rows before that of the files, whatever the table of diversions is meanwhile.
ghost use Rattle.std.specs.Prelude.{◌≡◌, ℕ, List, false, length, take};
ghost use Rattle.host_core.specs.Host.{Needs, Reads, Silent, State};
ghost use Rattle.diversions.specs.Ways.{Ways};
ghost use Rattle.file_check.specs.Ready.{IsFitting};
ghost use Rattle.file_lists.specs.Filed.{Filed};
ghost use Rattle.host_core.specs.Paths.{Path};
ghost use Rattle.package_files.specs.Files.{Each};
ghost use Rattle.package_files.specs.Names.{IsNamed};
ghost use Rattle.package_files.specs.declared.work.Work.{Work};
ghost use Rattle.status_db.specs.Recorded.{Recorded};
ghost use Rattle.undo_rows.specs.Place.{Fit, Forward};
ghost use Rattle.undo_rows.specs.Telling.{HasSucceeded};
ghost use Rattle.undo_rows.specs.declared.rows.Called.{Called};
ghost use Rattle.undo_rows.specs.declared.rows.Row.{Row};
ghost use Rattle.unpack_rows.specs.ForwardRows.{Fits};
ghost use Rattle.unpack_rows.specs.Stages.{has_files};
ghost use Rattle.unpack_steps.specs.At.{At, Holding, IsBegun, IsFileFault, holding};
ghost use Rattle.unpack_steps.specs.Task.{IsSound, Task, kinds, name, task_of};
ghost use Rattle.unpack_steps.specs.Underway.{holding_works, with_places};
ghost use Rattle.unpack_steps.specs.declared.plan.Rows.{Rows};

/// Where rows can begin they are before the first.
pub fn rows_begin_before_the_first()
    ensures { (s : State) (d : Recorded) (lists : Filed) (ways : Ways) (places : List Path)
        (works : List Work) (plan : Rows) → IsSound (task_of s d lists ways places works plan)
        → d.closed ≡ false → lists.closed ≡ false
        → Needs s (IsBegun (task_of s d lists ways places works plan) d)
        → At (task_of s d lists ways places works plan) (holding d lists places works) s (Forward 0) }
{}

/// What holds before the row of the files doesn't depend on where the shipped paths are: the table of diversions may be read again,
/// and other places taken for them.
pub fn rows_before_the_files_go_by_any_table()
    ensures there { (t : Task) (ways : Ways) (works : List Work) (g : Holding) (s u : State)
        (k : ℕ) → has_files (take k (kinds t)) ≡ false → Each IsNamed works
        → Each IsFitting works → Reads s u → Silent s u → At t g s (Forward k)
        → At (with_places ways works t) (holding_works works g) u (Forward k) }
    ensures calls { (t : Task) (ways : Ways) (works : List Work) (rows : List Row) (a b : State)
        (told now : List Called) → Fit (Fits (name t) (kinds t)) rows
        → has_files (take (length rows) (kinds t)) ≡ false
        → HasSucceeded (IsFileFault t) rows a b told now
        → HasSucceeded (IsFileFault (with_places ways works t)) rows a b told now }
{}
