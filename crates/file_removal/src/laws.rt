// What follows from the definitions.
ghost use Rattle.std.specs.Prelude.{◌≡◌, ◌⊎◌, Bool, true, false, List, ◌++◌, None, IsTrue, Contains};
ghost use Rattle.host_core.specs.Paths.{Path};
ghost use Rattle.host_core.specs.World.{World, IsBare, IsDirectory, IsLoose};
ghost use Rattle.host_core.specs.Events.{Event, IsDeniedIn};
ghost use Rattle.file_removal.specs.declared.leaving.Leaving.{Leaving};
ghost use Rattle.file_removal.specs.Removal.{RemovedBy, RemovedUnless, IsRemovingBy, IsSpared, AllAboveFirst, AreInOrder, Staying, none_stays};
ghost use Rattle.file_removal.specs.Clearing.{cleared, is_among, Cleared, IsClearing, IsRetiring};

/// A path that isn't the place of a listed path that may go is as before, as is each file or link
/// where directories alone are taken; a listed file or link that may go is gone. Nothing is made,
/// and the old world decides what is left. Where a directory is listed before what is below it, as
/// in the order of bytes, no listed directory that may go is left empty but one that stays, a
/// removal that was stopped at any moment is finished by the same removal, and behind one by which
/// no directory stayed a second one finds nothing to do.
pub fn what_a_removal_leaves()
    ensures spared { (stays : Staying) (directories_only : Bool) (xs : List Leaving)
        (old new : World) (q : Path)
        → RemovedBy stays directories_only xs old new → IsSpared xs q → new q ≡ old q }
    ensures loose { (stays : Staying) (xs : List Leaving) (old new : World) (q : Path)
        → RemovedBy stays true xs old new
        → (IsDirectory (old q) → ⊥) → new q ≡ old q }
    ensures gone { (stays : Staying) (xs : List Leaving) (old new : World) (x : Leaving)
        → RemovedBy stays false xs old new
        → Contains xs x → IsTrue x.goes → IsLoose (old x.place) → new x.place ≡ None }
    ensures less { (stays : Staying) (directories_only : Bool) (xs : List Leaving)
        (old new : World) (q : Path)
        → RemovedBy stays directories_only xs old new → (new q ≡ old q) ⊎ (new q ≡ None) }
    ensures once { (stays : Staying) (directories_only : Bool) (xs : List Leaving)
        (old new other : World) (q : Path)
        → RemovedBy stays directories_only xs old new
        → RemovedBy stays directories_only xs old other → other q ≡ new q }
    ensures wider { (earlier es later : List Event) (directories_only : Bool) (xs : List Leaving)
        (old new : World)
        → RemovedUnless (IsDeniedIn es) directories_only xs old new
        → RemovedUnless (IsDeniedIn (earlier ++ (es ++ later))) directories_only xs old new }
    ensures order { (xs : List Leaving) → AreInOrder xs → AllAboveFirst xs }
    ensures empty { (stays : Staying) (directories_only : Bool) (xs : List Leaving)
        (old new : World) (x : Leaving)
        → AllAboveFirst xs → RemovedBy stays directories_only xs old new → Contains xs x
        → IsTrue x.goes → ((later : List Leaving) → stays later x.place ≡ false)
        → IsDirectory (old x.place) → IsBare new x.place → new x.place ≡ None }
    ensures finished { (stays : Staying) (directories_only : Bool) (xs : List Leaving)
        (old now new : World)
        → AllAboveFirst xs → IsRemovingBy directories_only xs old now
        → RemovedBy stays directories_only xs now new
        → RemovedUnless (λ p. (later : List Leaving) × (stays later p ≡ true)) directories_only xs
        old new }
    ensures again { (stays : Staying) (directories_only : Bool) (xs : List Leaving)
        (old new newer : World) (q : Path)
        → AllAboveFirst xs → RemovedBy none_stays directories_only xs old new
        → RemovedBy stays directories_only xs new newer → newer q ≡ new q }
{}

/// A path that is none of the names is as before, and so is a directory; else nothing is left. A
/// clearing that was stopped at any moment is finished by the same clearing, and a second one finds
/// nothing to do.
pub fn what_a_clearing_leaves()
    ensures spared { (names : List Path) (old new : World) (q : Path) → Cleared names old new
        → is_among names q ≡ false → new q ≡ old q }
    ensures directory { (names : List Path) (old new : World) (q : Path) → Cleared names old new
        → IsDirectory (old q) → new q ≡ old q }
    ensures gone { (names : List Path) (old new : World) (q : Path) → Cleared names old new
        → is_among names q ≡ true → (IsDirectory (old q) → ⊥) → new q ≡ None }
    ensures finished { (names : List Path) (old now new : World) → IsClearing names old now
        → Cleared names now new → Cleared names old new }
    ensures retired { (names : List Path) (old now new : World) → IsRetiring names old now
        → Cleared names now new → Cleared names old new }
    ensures again { (names : List Path) (old new newer : World) (q : Path) → Cleared names old new
        → Cleared names new newer → newer q ≡ new q }
{}
