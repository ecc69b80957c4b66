// The page of a unit has all that may be called, and nothing else.
ghost use Rattle.std.specs.Prelude.{◌≡◌, ◌≢◌, List, Option, false, map, true};
ghost use Rattle.host_core.specs.Paths.{Path};
ghost use Rattle.conffiles.specs.declared.entries.Settled.{Settled as ASettled};
ghost use Rattle.status_records.specs.declared.record.Record.{Record as ARecord};
ghost use Rattle.status_records.specs.declared.words.State.TheVariants.{ConfigFiles};
ghost use Rattle.unpack_rows.specs.Kinds.{has_prerm};
ghost use Rattle.diversions.specs.Ways.{Ways};
ghost use Rattle.file_lists.specs.declared.paths.PackageList.{PackageList as APackageList};
ghost use Rattle.unit_stages.specs.declared.stage.Stage.{Stage as AStage};
ghost use Rattle.configure_engine.specs.Decided.{decided_paths};
ghost use Rattle.configure_engine.specs.Stages.{AreConfigureStages};
ghost use Rattle.configure_engine.specs.Waiting.{settling_places};
ghost use Rattle.removal_engine.specs.Stages.{planned, removal_stages};
ghost use Rattle.removal_engine.specs.declared.extent.Extent.TheVariants.{InFavour, Purge, Remove};
ghost use Rattle.removal_page.specs.Lines.{IsPage};
ghost use Rattle.removal_page.specs.Page.{all_stored, configuring, purge, purge_of_conffiles, purge_of_files, removal, removal_of_files};

/// A package is configured.
pub fn configuring_is_on_the_page()
    ensures { (ways : Ways) (r : ARecord) (listed : List Path)
        (decisions : List ASettled) (stages : List AStage)
        → decided_paths decisions ≡ settling_places ways r
        → AreConfigureStages r listed decisions true stages
        → IsPage (configuring r) r.name ways stages }
{}

/// A package is removed: one that is installed or half-configured; one that isn't; or one of which the prerm was called before, since
/// it is removed in favour of another.
pub fn a_removal_is_on_the_page()
    ensures configured { (ways : Ways) (lists : List APackageList) (r : ARecord)
        (to_come : List Path) (stages : List AStage) → has_prerm r.state ≡ true
        → map planned stages ≡ removal_stages ways lists Remove r all_stored to_come
        → IsPage (removal r) r.name ways stages }
    ensures unconfigured { (ways : Ways) (lists : List APackageList) (r : ARecord)
        (to_come : List Path) (stages : List AStage) → has_prerm r.state ≡ false
        → r.state ≢ ConfigFiles
        → map planned stages ≡ removal_stages ways lists Remove r all_stored to_come
        → IsPage (removal_of_files r) r.name ways stages }
    ensures in_favour { (ways : Ways) (lists : List APackageList) (r : ARecord)
        (to_come : List Path) (stages : List AStage)
        → map planned stages ≡ removal_stages ways lists InFavour r all_stored to_come
        → IsPage (removal_of_files r) r.name ways stages }
{}

/// A package is purged: one that is installed or half-configured; one that isn't; or one that is removed.
pub fn a_purge_is_on_the_page()
    ensures configured { (ways : Ways) (lists : List APackageList) (r : ARecord)
        (to_come : List Path) (stages : List AStage) → has_prerm r.state ≡ true
        → map planned stages ≡ removal_stages ways lists Purge r all_stored to_come
        → IsPage (purge r) r.name ways stages }
    ensures unconfigured { (ways : Ways) (lists : List APackageList) (r : ARecord)
        (to_come : List Path) (stages : List AStage) → has_prerm r.state ≡ false
        → r.state ≢ ConfigFiles
        → map planned stages ≡ removal_stages ways lists Purge r all_stored to_come
        → IsPage (purge_of_files r) r.name ways stages }
    ensures removed { (ways : Ways) (lists : List APackageList) (r : ARecord)
        (to_come : List Path) (stages : List AStage) → r.state ≡ ConfigFiles
        → map planned stages ≡ removal_stages ways lists Purge r all_stored to_come
        → IsPage (purge_of_conffiles r) r.name ways stages }
{}
