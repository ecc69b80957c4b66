// No file of another package is lost by the unit of an unpack.
ghost use Rattle.std.specs.Prelude.{◌≡◌, IsTrue};
ghost use Rattle.host_core.specs.Host.{State as HostState};
ghost use Rattle.host_core.specs.Paths.{Path};
ghost use Rattle.package_tree.specs.declared.package.Package.{Package as APackage};
ghost use Rattle.unit_reports.specs.Held.{Held};
ghost use Rattle.unit_reports.specs.declared.report.Unit.{Unit as AUnit};
ghost use Rattle.unpack_relations.specs.declared.beside.Beside.{Beside as ABeside};
ghost use Rattle.dpkg_session.specs.Units.{IsUnpacked};
ghost use Rattle.kept_in_commands.specs.Commands.{Has, IsHeldFile};

/// Behind the whole unit of an unpack, done or failed, with the packages that disappear and those that are removed in its favour, a
/// file or link at a place of a package that doesn't yield stands as before; and that package has the place still. That is so where
/// the scripts of the unit left the table of diversions alone: by another table paths have other places.
pub fn no_file_is_lost_by_the_unit_of_an_unpack()
    ensures kept { (p : APackage) (beside : ABeside) (before after : Held) (u : AUnit)
        (s t : HostState) (q : Path)
        → IsUnpacked p beside before after u s t → after.ways ≡ before.ways → IsTrue t.honest
        → IsHeldFile p beside before s.world q → t.world q ≡ s.world q }
    ensures held { (p : APackage) (beside : ABeside) (before after : Held) (u : AUnit)
        (s t : HostState) (q : Path)
        → IsUnpacked p beside before after u s t → after.ways ≡ before.ways
        → (held : IsHeldFile p beside before s.world q) → Has after q held.place.held.owner }
{}
