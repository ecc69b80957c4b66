// No file of another package is lost by an unpack.
ghost use Rattle.std.specs.Prelude.{◌≡◌, List, Contains, IsTrue, true, false};
ghost use Rattle.host_core.specs.Events.{Event};
ghost use Rattle.host_core.specs.Host.{State as HostState};
ghost use Rattle.host_core.specs.Paths.{Path};
ghost use Rattle.host_core.specs.World.{World, kind_of};
ghost use Rattle.undo_rows.specs.Transcripts.{Ended, Committed};
ghost use Rattle.undo_rows.specs.declared.rows.Called.{Called as ACalled};
ghost use Rattle.file_check.specs.Clashes.{claims};
ghost use Rattle.file_lists.specs.declared.paths.PackageList.{PackageList as APackageList};
ghost use Rattle.package_files.specs.declared.work.Work.{Work as AWork};
ghost use Rattle.status_db.specs.Recorded.{Recorded};
ghost use Rattle.unpack_engine.specs.Units.{Given, HasUnpacked, IsAmidUnit};
ghost use Rattle.unpack_laws.specs.InHand.{unit_works};
ghost use Rattle.kept_files.specs.Kept.{IsFoundSound, IsHeldFile, IsHeldPlace};

/// A file or link that stands at a place of another package, which doesn't yield, is neither written over nor taken away by an
/// unpack, by whatever names the two list it. Where a path that the package ships claims the place the check finds a fault; an
/// unpack that was done shipped none. However an unpack ended, the file stands there then as before; and so it does at each moment
/// of one whose paths the check found sound while it stood there.
pub fn no_file_is_lost_by_an_unpack()
    ensures checked { (g : Given) (w : World) (q : Path) (x : AWork)
        → IsHeldPlace g q → Contains (unit_works g) x → x.place ≡ q
        → IsFoundSound g w → claims x.node (kind_of (w q)) ≡ false }
    ensures done { (g : Given) (places : List Path) (after : Recorded)
        (lists : List APackageList) (old new : HostState) (told now : List ACalled) (q : Path)
        (x : AWork)
        → HasUnpacked g places Committed after lists old new told now → IsTrue new.honest
        → IsHeldFile g places old.world q → Contains (unit_works g) x → x.place ≡ q
        → claims x.node (kind_of (old.world q)) ≡ false }
    ensures ended { (g : Given) (places : List Path) (ended : Ended) (after : Recorded)
        (lists : List APackageList) (old new : HostState) (told now : List ACalled) (q : Path)
        → HasUnpacked g places ended after lists old new told now → IsTrue new.honest
        → IsHeldFile g places old.world q → new.world q ≡ old.world q }
    ensures moments { (g : Given) (places : List Path) (old seen now : World)
        (so_far : List Event) (q : Path)
        → IsHeldFile g places old q → seen q ≡ old q → IsFoundSound g seen
        → IsAmidUnit g places old so_far now → now q ≡ old q }
{}
