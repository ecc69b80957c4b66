// What follows from the names of works, and from what their files left.
ghost use Rattle.std.specs.Prelude.{◌≡◌, ◌≢◌, Bool, false, List, Contains};
ghost use Rattle.host_core.specs.Paths.{Path, is_named_by};
ghost use Rattle.host_core.specs.World.{World, SameOn, is_kept};
ghost use Rattle.package_files.specs.declared.work.Work.{Work};
ghost use Rattle.package_files.specs.Files.{Each, Misses, Written};
ghost use Rattle.package_files.specs.Free.{IsFreeIn, IsSeen, IsWrittenFrom};
ghost use Rattle.package_files.specs.Names.{IsNamed};
ghost use Rattle.package_files.specs.Apart.{Differ, HasNames, IsApart, IsByPlace};

/// The names of one work differ, and so do those of works at different places; each is a name of
/// its place, so that a running script leaves it alone where the place is listed.
pub fn names_of_works_differ()
    ensures apart { (x : Work) → IsNamed x → IsApart x }
    ensures differ { (x y : Work) → IsNamed x → IsNamed y → x.place ≢ y.place → Differ x y }
    ensures by_place { (x : Work) → IsNamed x → IsByPlace x }
    ensures misses { (x : Work) (q : Path) → IsNamed x → is_named_by q x.place ≡ false
        → Misses x q }
    ensures kept { (places : List Path) (x : Work) → IsNamed x → Contains places x.place
        → HasNames (is_kept places) x }
{}

/// Files that were written stand so as long as nothing changes at their names, and can be put back.
pub fn written_files_stay()
    ensures { (works : List Work) (kept : Path → Bool) (old mid later : World)
        → Each (HasNames kept) works → Each (IsFreeIn old) works → Each (IsSeen old) works
        → Written works old mid → SameOn kept mid later → IsWrittenFrom works old later }
{}
