// Laws of what is told.
ghost use Rattle.std.specs.Prelude.{Bool, List};
ghost use Rattle.host_core.specs.World.{World};
ghost use Rattle.file_lists.specs.declared.paths.PackageList.{PackageList};
ghost use Rattle.status_records.specs.declared.record.Record.{Record as ARecord};
ghost use Rattle.trigger_watch.specs.Passed.{IsEachTold};
ghost use Rattle.trigger_watch.specs.declared.touching.Touch.{Touch as ATouch};
ghost use Rattle.trigger_watch.specs.declared.watching.TriggerWatch.{TriggerWatch as AWatch};

/// Names that files declare can stand in a field: no package with activated interests is passed over.
pub fn each_is_told()
    ensures { (w : World) (records : List ARecord) (lists : List PackageList) (by_files : Bool)
        (watch : AWatch) (touches : List ATouch)
        → IsEachTold w records lists by_files watch touches }
{}
