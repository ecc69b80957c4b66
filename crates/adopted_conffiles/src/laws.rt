// Laws of what is taken up.
ghost use Rattle.std.specs.Prelude.{◌≡◌, ◌++◌, List, map};
ghost use Rattle.host_core.specs.World.{World};
ghost use Rattle.diversions.specs.Ways.{Ways};
ghost use Rattle.status_records.specs.Records.{standing};
ghost use Rattle.status_records.specs.declared.record.Record.{Record as ARecord};
ghost use Rattle.adopted_conffiles.specs.Adopted.{all_adopted};

/// What was taken up in part is taken up as from the beginning, by the same files. No package gets another name by it, and none goes.
pub fn what_is_taken_up_stays()
    ensures again { (w : World) (ways : Ways) (front back : List ARecord)
        → all_adopted w ways (all_adopted w ways front ++ back)
        ≡ all_adopted w ways (front ++ back) }
    ensures names { (w : World) (ways : Ways) (table : List ARecord)
        → map (λ r. r.name) (all_adopted w ways table) ≡ map (λ r. r.name) table }
    ensures standing { (w : World) (ways : Ways) (table : List ARecord) → standing table ≡ table
        → standing (all_adopted w ways table) ≡ all_adopted w ways table }
{}
