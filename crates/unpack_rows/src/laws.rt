// Laws of rows, of the notes beside them and of the ends of packages.
ghost use Rattle.std.specs.Prelude.{◌≡◌, ◌≤◌, ◌<◌, ◌+◌, ◌||◌, ◌++◌, ℕ, Bool, false, List, [], Option, Some, None, cond, get_or, length};
ghost use Rattle.undo_rows.specs.declared.fall.Fall.{Fall as AFall};
ghost use Rattle.undo_rows.specs.declared.fall.StepFault.{StepFault as AStepFault};
ghost use Rattle.undo_rows.specs.declared.failed.Failed.{Failed as AFailed};
ghost use Rattle.undo_rows.specs.Place.{Back, Fit, Forward, Place, Ready, blamed, called, worked};
ghost use Rattle.status_records.specs.declared.record.Record.{Record as ARecord};
ghost use Rattle.status_records.specs.Records.{record_in};
ghost use Rattle.undo_rows.specs.Transcripts.{Ended};
ghost use Rattle.unpack_rows.specs.declared.kinds.RowKind.{RowKind as ARowKind};
ghost use Rattle.unpack_rows.specs.declared.kinds.RowKind.TheVariants.{Files};
ghost use Rattle.unpack_rows.specs.declared.rows.OtherPackage.{OtherPackage as AnOtherPackage};
ghost use Rattle.unpack_rows.specs.declared.rows.Present.{Present as APresent};
ghost use Rattle.unpack_rows.specs.EndStates.{AreConcerned, end_of, end_record};
ghost use Rattle.unpack_rows.specs.Failures.{has_failed};
ghost use Rattle.unpack_rows.specs.ForwardRows.{AreOwn, Fits, others_rows, records_of, rows_of};
ghost use Rattle.unpack_rows.specs.Kinds.{kinds_of, own_of, owner_of};
ghost use Rattle.unpack_rows.specs.Notes.{half_installed, listed, note_before, note_undone, noted, notes_at};
ghost use Rattle.unpack_rows.specs.Stages.{Restored, Unwritten, Wrote, failed_at, is_files, stage_of};

/// The rows and their kinds are as many, and each row has the owner that its kind says.
pub fn each_row_is_of_its_kind()
    ensures fits { (start : Option ARecord) (incoming : ARecord) (stored tree : APresent)
        (others : List AnOtherPackage) → AreOwn others
        → Fit (Fits (own_of start incoming).name (kinds_of start (records_of others)))
        (rows_of start incoming stored tree (others_rows others)) }
    ensures length { (start : Option ARecord) (incoming : ARecord) (stored tree : APresent)
        (others : List AnOtherPackage)
        → length (rows_of start incoming stored tree (others_rows others))
        ≡ length (kinds_of start (records_of others)) }
{}

/// At each place the notes are those of the place before, and perhaps one more; so those up to a place are the first of those up to
/// a later one.
pub fn notes_grow_row_by_row()
    ensures none { (start : Option ARecord) (incoming : ARecord) (kinds : List ARowKind)
        → notes_at start incoming kinds (Forward 0) ≡ [] }
    ensures ready { (start : Option ARecord) (incoming : ARecord) (kinds : List ARowKind) (i : ℕ)
        (k : ARowKind) → i < length kinds → k ≡ get_or kinds i k
        → notes_at start incoming kinds (Ready i) ≡ notes_at start incoming kinds (Forward i)
        ++ listed (note_before start incoming k) }
    ensures called { (start : Option ARecord) (incoming : ARecord) (kinds : List ARowKind) (i : ℕ)
        (ok : Bool) → notes_at start incoming kinds (called i ok) ≡ notes_at start incoming kinds
        (Ready i) }
    ensures worked { (start : Option ARecord) (incoming : ARecord) (kinds : List ARowKind) (i : ℕ)
        (k : ARowKind) (fault : Option AStepFault) → i < length kinds → k ≡ get_or kinds i k
        → k ≡ Files → notes_at start incoming kinds (worked i fault) ≡ notes_at start incoming kinds
        (Forward i) }
    ensures undone { (start : Option ARecord) (incoming : ARecord) (kinds : List ARowKind) (i : ℕ)
        (k : ARowKind) (fall : AFall) (failed : List AFailed) (fails : Bool) → i ≤ fall.row
        → fall.row < length kinds → k ≡ get_or kinds i k
        → notes_at start incoming kinds
        (Back i fall (blamed fails i (owner_of (own_of start incoming).name k) failed)) ≡ notes_at
        start incoming kinds (Back (i + 1) fall failed) ++ cond
        (fails || has_failed i (owner_of (own_of start incoming).name k) failed) []
        (listed (note_undone start incoming k)) }
    ensures put_back { (start : Option ARecord) (incoming : ARecord) (kinds : List ARowKind) (i : ℕ)
        (k : ARowKind) (fall : AFall) (failed : List AFailed) → i ≤ fall.row
        → fall.row < length kinds → k ≡ get_or kinds i k → k ≡ Files
        → notes_at start incoming kinds (Back i fall failed) ≡ notes_at start incoming kinds
        (Back (i + 1) fall failed) }
{}

/// Where the table has the packages of the rows, its records after the notes up to an end are those that the end table says.
pub fn each_package_ends_as_noted()
    ensures { (start : Option ARecord) (incoming : ARecord) (others table : List ARecord)
        (ended : Ended) → AreConcerned start incoming others table → (q : List ℕ)
        → record_in (noted table (notes_at start incoming (kinds_of start others)
        (end_of (length (kinds_of start others)) ended))) q ≡ end_record start incoming others table
        ended q }
{}

/// The files are written by the file row alone and put back by its undo alone, or by the row itself where a step was declined; while
/// they are written the package's record is half-installed and wants reinstallation.
pub fn files_go_with_their_row()
    ensures called { (kinds : List ARowKind) (i : ℕ) (k : ARowKind) (ok : Bool) → i < length kinds
        → k ≡ get_or kinds i k → is_files k ≡ false → stage_of kinds (called i ok) ≡ stage_of kinds
        (Forward i) }
    ensures ready { (kinds : List ARowKind) (i : ℕ) → stage_of kinds (Ready i) ≡ stage_of kinds
        (Forward i) }
    ensures undone { (kinds : List ARowKind) (i : ℕ) (k : ARowKind) (fall : AFall)
        (failed now : List AFailed) → i < length kinds → k ≡ get_or kinds i k → is_files k ≡ false
        → stage_of kinds (Back i fall now) ≡ stage_of kinds (Back (i + 1) fall failed) }
    ensures unwritten { (start : Option ARecord) (others : List ARecord) (i : ℕ) (k : ARowKind)
        → i < length (kinds_of start others) → k ≡ get_or (kinds_of start others) i k → k ≡ Files
        → stage_of (kinds_of start others) (Forward i) ≡ Unwritten }
    ensures wrote { (kinds : List ARowKind) (i : ℕ) (k : ARowKind) → i < length kinds
        → k ≡ get_or kinds i k → k ≡ Files → stage_of kinds (worked i None) ≡ Wrote }
    ensures failed { (start : Option ARecord) (others : List ARecord) (i : ℕ) (k : ARowKind)
        (fault : AStepFault) → i < length (kinds_of start others)
        → k ≡ get_or (kinds_of start others) i k → k ≡ Files → stage_of (kinds_of start others)
        (worked i (Some fault)) ≡ failed_at (Some fault) }
    ensures put_back { (start : Option ARecord) (others : List ARecord) (i : ℕ) (k : ARowKind)
        (fall : AFall) (failed : List AFailed) → i < fall.row → i < length (kinds_of start others)
        → k ≡ get_or (kinds_of start others) i k → k ≡ Files
        → (stage_of (kinds_of start others) (Back (i + 1) fall failed) ≡ Wrote)
        × (stage_of (kinds_of start others) (Back i fall failed) ≡ Restored) }
    ensures spared { (start : Option ARecord) (others : List ARecord) (i : ℕ) (k : ARowKind)
        (fall : AFall) (failed : List AFailed) → fall.row ≤ i → i < length (kinds_of start others)
        → k ≡ get_or (kinds_of start others) i k → k ≡ Files
        → (stage_of (kinds_of start others) (Back (i + 1) fall failed) ≡ failed_at fall.fault)
        × (stage_of (kinds_of start others) (Back i fall failed) ≡ failed_at fall.fault) }
    ensures marked { (start : Option ARecord) (incoming : ARecord) (others table : List ARecord)
        (place : Place) → stage_of (kinds_of start others) place ≡ Wrote
        → record_in (noted table (notes_at start incoming (kinds_of start others) place))
        (own_of start incoming).name ≡ Some (half_installed (own_of start incoming)) }
{}
