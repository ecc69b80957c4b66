// What follows from the names of works, and what moves leave.
ghost use Rattle.std.specs.Prelude.{◌≡◌, true, false, List};
ghost use Rattle.host_core.specs.Paths.{Path, is_below_administration};
ghost use Rattle.host_core.specs.World.{World, KeepsBut};
ghost use Rattle.host_core.specs.declared.node.Node.{Node};
ghost use Rattle.diversions.specs.Ways.{Ways};
ghost use Rattle.file_lists.specs.declared.paths.PackageList.{PackageList};
ghost use Rattle.file_lists.specs.Taking.{IsNoList};
ghost use Rattle.package_files.specs.declared.work.Work.{Work};
ghost use Rattle.package_files.specs.Files.{Misses};
ghost use Rattle.package_files.specs.Names.{IsNamed};
ghost use Rattle.package_files.specs.Back.{CanGoBack};
ghost use Rattle.file_removal.specs.declared.leaving.Leaving.{Leaving};
ghost use Rattle.file_removal.specs.Clearing.{is_among};
ghost use Rattle.listed_files.specs.Areas.{is_listing_place, is_renewed_place};
ghost use Rattle.listed_files.specs.Closing.{HasReleased, HasRenewed, MayRelease, MayRenew};
ghost use Rattle.listed_files.specs.Listing.{HasListed, HasTurnedBack, HasUnlisted, MayList, MayTurnBack, MayUnlist};

/// No name of a shipped path's work lies below the directory of the administration.
pub fn works_are_apart_from_the_administration()
    ensures { (x : Work) (q : Path) → IsNamed x → is_below_administration q ≡ true → Misses x q }
{}

/// In the end and at each moment of a move all is as before but what it may change: the list and the names of
/// the works; the paths that go and the list; the lists that lose places and the names that are cleared.
pub fn what_a_move_leaves()
    ensures listed { (list : Path) (node : Node) (works : List Work) (old new : World)
        → HasListed list node works old new → KeepsBut (is_listing_place list works) old new }
    ensures listing { (list : Path) (node : Node) (works : List Work) (old now : World)
        → MayList list node works old now → KeepsBut (is_listing_place list works) old now }
    ensures turned_back { (list : Path) (union listed : Node) (works : List Work)
        (old new : World) → HasTurnedBack list union listed works old new
        → KeepsBut (is_listing_place list works) old new }
    ensures turning_back { (list : Path) (union listed : Node) (works : List Work)
        (old now : World) → MayTurnBack list union listed works old now
        → KeepsBut (is_listing_place list works) old now }
    ensures unlisted { (list : Path) (node : Node) (works : List Work) (old new : World)
        → CanGoBack works old → HasUnlisted list node works old new
        → KeepsBut (is_listing_place list works) old new }
    ensures unlisting { (list : Path) (node : Node) (works : List Work) (old now : World)
        → CanGoBack works old → MayUnlist list node works old now
        → KeepsBut (is_listing_place list works) old now }
    ensures renewed { (leaving : List Leaving) (list : Path) (node : Node) (old new : World)
        → HasRenewed leaving list node old new
        → KeepsBut (is_renewed_place leaving list) old new }
    ensures renewing { (leaving : List Leaving) (list : Path) (node : Node) (old now : World)
        → MayRenew leaving list node old now
        → KeepsBut (is_renewed_place leaving list) old now }
    ensures released { (ways : Ways) (places : List Path) (from : List Path)
        (had : List PackageList) (names : List Path) (old new : World) (q : Path)
        → HasReleased ways places from had names old new → IsNoList from q
        → is_among names q ≡ false → new q ≡ old q }
    ensures releasing { (ways : Ways) (places : List Path) (from : List Path)
        (had : List PackageList) (names : List Path) (old now : World) (q : Path)
        → MayRelease ways places from had names old now → IsNoList from q
        → is_among names q ≡ false → now q ≡ old q }
{}
