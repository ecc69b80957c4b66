// What a stop leaves marked.
ghost use Rattle.std.specs.Prelude.{List};
ghost use Rattle.host_core.specs.Events.{Event, changes_of};
ghost use Rattle.host_core.specs.Paths.{Path};
ghost use Rattle.host_core.specs.World.{World};
ghost use Rattle.unpack_engine.specs.Units.{Given, IsAmidUnit};
ghost use Rattle.unpack_laws.specs.Marked.{IsMarkedAmid};

/// At each moment of an unpack scripts alone have changed what stands outside the administration; or the package is marked as
/// half-installed and its list names what is changed; or its files are put back; or its last note is written, and its new list
/// names what is changed.
pub fn what_is_marked()
    ensures { (g : Given) (places : List Path) (old now : World) (so_far : List Event)
        → IsAmidUnit g places old so_far now → IsMarkedAmid g old now (changes_of so_far) }
{}
