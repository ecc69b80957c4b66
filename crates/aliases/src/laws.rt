// What follows from the definitions.
ghost use Rattle.std.specs.Prelude.{◌≡◌, false, List};
ghost use Rattle.host_core.specs.Paths.{Path};
ghost use Rattle.host_core.specs.Tree.{IsBelow, IsTree};
ghost use Rattle.host_core.specs.World.{World};
ghost use Rattle.aliases.specs.Aliases.{Alias, IsFlat, IsFree, followed, resolved, way_to};
ghost use Rattle.aliases.specs.Reading.{AreAliasesIn, IsWhole};
ghost use Rattle.aliases.specs.Ways.{is_linked};

/// A path on which no alias stands is its own place. Where aliases are flat, the place of a place is
/// itself, and no alias stands on a path that was followed.
pub fn a_place_is_its_own()
    ensures free { (aliases : List Alias) (path : Path) → IsFree aliases path
        → resolved aliases path ≡ path }
    ensures flat { (aliases : List Alias) (path : Path) → IsFlat aliases
        → IsFree aliases (followed aliases path) }
    ensures twice { (aliases : List Alias) (path : Path) → IsFlat aliases
        → resolved aliases (resolved aliases path) ≡ resolved aliases path }
{}

/// Aliases of one world are flat.
pub fn aliases_of_a_world_are_flat()
    ensures { (w : World) (aliases : List Alias) → IsTree w → AreAliasesIn w aliases
        → IsFlat aliases }
{}

/// Where the aliases above a path were read, no link to a directory stands above its place.
pub fn no_link_stands_above_a_place()
    ensures { (w : World) (aliases : List Alias) (path q : Path) → IsTree w
        → AreAliasesIn w aliases → IsWhole w path aliases → IsBelow q (way_to aliases path)
        → is_linked w q ≡ false }
{}
