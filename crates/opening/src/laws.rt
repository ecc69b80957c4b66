// Laws of the parts of an administration, and of an opening that was broken off.
ghost use Rattle.std.specs.Prelude.{ℕ, List};
ghost use Rattle.std.specs.List.{AllByRecursion};
ghost use Rattle.host_core.specs.Paths.{Path};
ghost use Rattle.host_core.specs.Tree.{IsTree};
ghost use Rattle.host_core.specs.World.{World};
ghost use Rattle.diversions.specs.Lines.{HasDiversions};
ghost use Rattle.diversions.specs.declared.entry.Diversion.{Diversion};
ghost use Rattle.file_lists.specs.Lists.{HasLists};
ghost use Rattle.file_lists.specs.declared.paths.PackageList.{PackageList};
ghost use Rattle.administration.specs.declared.fault.AdministrationFault.TheVariants.{Damaged};
ghost use Rattle.info_format.specs.Stage.{AreDamaged, AreShort};
ghost use Rattle.opening.specs.Leaving.{IsOpeningOrMerging};
ghost use Rattle.opening.specs.Parts.{parts, IsFine, IsFirstFault};
ghost use Rattle.opening.specs.TakenUp.{ArePartlyTakenUp, IsOpeningOrAdopting};
ghost use Rattle.opening.specs.Undamaged.{IsUndamaged};
ghost use Rattle.status_db.specs.Held.{HasRecords};
ghost use Rattle.status_records.specs.declared.record.Record.{Record};

/// Where all parts can be read, none of them is told as damage.
pub fn what_is_fine_has_no_fault()
    ensures { (w : World) (file : Path) (line : ℕ)
        → IsTree w
        → AllByRecursion (IsFine w) parts
        → IsFirstFault parts w file line
        → ⊥ }
{}

/// An opening of an administration that isn't damaged changes none of its records, lists and
/// diversions, wherever it is broken off, but for records that it takes up, and the next opening finds no
/// damage. Of lists this is said, whatever the names of packages are, where no name in `info/` has an architecture:
/// those that have one get their lists at other names, or go.
pub fn a_stopped_opening_can_be_opened()
    ensures undamaged { (old now : World)
        → IsOpeningOrAdopting old now
        → IsUndamaged old
        → IsUndamaged now }
    ensures no_fault { (w : World) (file : Path) (line : ℕ)
        → IsUndamaged w
        → IsFirstFault parts w file line
        → ⊥ }
    ensures no_names_fault { (w : World) (file : Path) (line : ℕ)
        → IsUndamaged w
        → AreDamaged w (Damaged file line)
        → ⊥ }
    ensures records { (old now : World) (table : List Record)
        → IsOpeningOrMerging old now
        → HasRecords old table
        → HasRecords now table }
    ensures taken_up { (old now : World) (table : List Record)
        → IsOpeningOrAdopting old now
        → HasRecords old table
        → ∥ ArePartlyTakenUp table now ∥₁ }
    ensures lists { (old now : World) (names : List (List ℕ)) (lists : List PackageList)
        → AreShort old
        → IsOpeningOrAdopting old now
        → HasLists old names lists
        → HasLists now names lists }
    ensures diversions { (old now : World) (entries : List Diversion)
        → IsOpeningOrAdopting old now
        → HasDiversions old entries
        → HasDiversions now entries }
{}
