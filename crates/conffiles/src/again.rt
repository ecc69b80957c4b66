// Settling conffiles again, after a stop.
ghost use Rattle.std.specs.Prelude.{◌≡◌, ℕ, List, Option};
ghost use Rattle.conffiles.specs.declared.decisions.ConfPolicy.{ConfPolicy};
ghost use Rattle.conffiles.specs.declared.decisions.Decision.{Decision};
ghost use Rattle.conffiles.specs.Settling.{ConffileFiles, IsBetween, IsDecided, IsShippedAs, settled_files};

/// At whatever moment the settling of a conffile was stopped: to decide again, by what is there then, and to settle it
/// leaves the files as without the stop.
pub fn settling_again_ends_alike()
    ensures { (recorded shipped : Option (List ℕ)) (policy : ConfPolicy)
        (before now : ConffileFiles) (first again : Decision) → IsShippedAs shipped before
        → IsDecided recorded shipped policy before first
        → IsBetween before (settled_files first before) now → IsDecided recorded shipped policy now
        again → settled_files again now ≡ settled_files first before }
{}
