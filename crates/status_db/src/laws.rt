// Laws of tables.
ghost use Rattle.std.specs.Prelude.{◌≡◌, ℕ, List, Some, None};
ghost use Rattle.std.specs.Map.{update};
ghost use Rattle.std.specs.Str.{bytes_eq};
ghost use Rattle.host_core.specs.World.{World, IsDirectory, SameOn};
ghost use Rattle.administration.specs.Places.{home_path, updates_path};
ghost use Rattle.status_db.specs.Held.{AreKept, HasRecords, is_record_place};
ghost use Rattle.status_records.specs.declared.record.Record.{Record as ARecord};
ghost use Rattle.status_records.specs.Records.{record_in, put_record, drop_record};

/// Setting and dropping a record changes the look-up of its name alone.
pub fn records_are_a_table()
    ensures put { (r : ARecord) (rs : List ARecord) (q : List ℕ) → record_in (put_record r rs) q
        ≡ update bytes_eq (record_in rs) r.name (Some r) q }
    ensures drop { (name : List ℕ) (rs : List ARecord) (q : List ℕ)
        → record_in (drop_record name rs) q ≡ update bytes_eq (record_in rs) name None q }
{}

/// With notes, the records are those of the status file and the notes, whatever else changes, and stay kept while their
/// directories stay.
pub fn records_stand_at_their_places()
    ensures places { (w v : World) (rs : List ARecord) → SameOn is_record_place w v
        → HasRecords w rs → HasRecords v rs }
    ensures kept { (w v : World) (rs : List ARecord) (notes : ℕ) → SameOn is_record_place w v
        → IsDirectory (v home_path) → IsDirectory (v updates_path) → AreKept rs notes w
        → AreKept rs notes v }
{}
