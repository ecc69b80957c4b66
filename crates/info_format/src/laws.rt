// A law of a conversion that was broken off.
ghost use Rattle.std.specs.Prelude.{ℕ};
ghost use Rattle.host_core.specs.Paths.{Path};
ghost use Rattle.host_core.specs.World.{World};
ghost use Rattle.administration.specs.declared.fault.AdministrationFault.TheVariants.{Damaged};
ghost use Rattle.info_format.specs.Converting.{IsConverting, IsNamesDamage};
ghost use Rattle.info_format.specs.Format.{IsConvertible};
ghost use Rattle.info_format.specs.Names.{Architectures};

/// Wherever it was broken off, the next conversion of what was convertible is refused for no name.
pub fn a_stopped_conversion_goes_on()
    ensures convertible { (arches : Architectures) (old now : World)
        → IsConverting arches old now
        → IsConvertible arches old
        → IsConvertible arches now }
    ensures no_fault { (arches : Architectures) (w : World) (file : Path) (line : ℕ)
        → IsConvertible arches w
        → IsNamesDamage arches w (Damaged file line)
        → ⊥ }
{}
