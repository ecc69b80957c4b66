// What an unpack that was carried out whole leaves of one that was stopped.
ghost use Rattle.std.specs.Prelude.{List, IsTrue};
ghost use Rattle.host_core.specs.Host.{State as HostState};
ghost use Rattle.host_core.specs.Paths.{Path};
ghost use Rattle.undo_rows.specs.Transcripts.{Committed};
ghost use Rattle.file_lists.specs.declared.paths.PackageList.{PackageList as APackageList};
ghost use Rattle.package_files.specs.Files.{Each};
ghost use Rattle.status_db.specs.Recorded.{Recorded};
ghost use Rattle.undo_rows.specs.declared.rows.Called.{Called as ACalled};
ghost use Rattle.unpack_engine.specs.Units.{Given, HasUnpacked};
ghost use Rattle.unpack_laws.specs.Done.{IsClearBeside, LeavesNoOldFile};
ghost use Rattle.unpack_laws.specs.InHand.{unit_works};

/// Behind an unpack whose rows all succeeded neither a file nor a link stands at the names beside shipped paths that the installer
/// writes, nor at the place of a path that the package listed before, but where that place stays: so what a stopped unpack left there
/// is gone, since its list had the path.
pub fn what_an_unpack_that_is_done_leaves()
    ensures beside { (g : Given) (places : List Path) (after : Recorded)
        (lists : List APackageList) (old new : HostState) (told now : List ACalled)
        → HasUnpacked g places Committed after lists old new told now → IsTrue new.honest
        → Each (IsClearBeside new.world) (unit_works g) }
    ensures old_paths { (g : Given) (places : List Path) (after : Recorded)
        (lists : List APackageList) (old new : HostState) (told now : List ACalled)
        → HasUnpacked g places Committed after lists old new told now → IsTrue new.honest
        → LeavesNoOldFile g new.world }
{}
