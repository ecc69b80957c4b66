// The open records: the table, and the files that hold it.
ghost use Rattle.std.specs.Prelude.{◌≡◌, ◌↔◌, ◌+◌, ◌≤◌, ◌<◌, List, [], true, false, cond, is_some, IfOk, IfErr, OnOk, OnErr, IsTrue, IsErrOf};
ghost use Rattle.std.specs.List.{list_any};
ghost use Rattle.std.specs.Option.{option_copied};
ghost use Rattle.host_core.specs.Host.{AtEachMoment, Leaves, Needs, Reads, Silent, Tells};
ghost use Rattle.host_core.specs.Loss.{IsOnDisk};
ghost use Rattle.administration.specs.Fault.{CountsAdministration};
ghost use Rattle.status_records.specs.Conffiles.{has_conffile};
ghost use Rattle.status_db.specs.Fault.{CountsRecord};
ghost use Rattle.status_db.specs.NoteDamage.{AreNotesFine, IsRecordsDamage};
ghost use Rattle.status_db.specs.Notes.{limit, note_path};
ghost use Rattle.status_db.specs.Noting.{AreMerged, IsMerging, IsNoted, IsNoting, IsPlaced, entered_in, note_number, writes_note};
ghost use Rattle.status_db.specs.Order.{AreInOrder};
ghost use Rattle.status_records.specs.Records.{record_in, drop_record, standing};
ghost use Rattle.scattered_losses.specs.Apart.{WorksApart};
ghost use Rattle.scattered_losses.specs.Turns.{GoByTurns};
ghost use Rattle.status_db.specs.Held.{HasRecords, IsFree, IsKept, is_record_place};
ghost use Rattle.status_db.specs.declared.record_fault.RecordFault.TheVariants.{Closed};

use crate::merging::merge;
use crate::noting::{enter_record, forget_record};
use crate::record_fault::RecordFault;
use crate::status_reading::read_status;
use crate::table::Table;
use crate::updates::read_notes;
use administration::AdministrationFault;
use host_core::{Host, ShipPath};
use status_records::Record;
use std::alloc::Global;
use std::marker::Model;
use texts::Text;

/// The records, as the status file and the notes have them.
#[derive(Drop)]
pub struct NotedDatabase {
    table: Table,
    notes: u16,
    closed: bool,
}

impl Model for NotedDatabase {
    ghost use Rattle.std.specs.Prelude.{◌≤◌};
    ghost use Rattle.status_db.specs.Recorded.{Recorded};

    ghost Value = { Recorded };

    ghost view = { λ d. record { records = d.table; notes = d.notes; closed = d.closed } };

    ghost invariant = { λ d. d.notes ≤ 10000 };
}

impl NotedDatabase {
    /// Reads the status file and the notes; a missing one has no records.
    pub fn open<H: Host>(alloc: Global, host: &mut H) -> Result<NotedDatabase, AdministrationFault>
        ensures records { Tells result (λ d w. HasRecords w d.records) (H.state host.old)
            (H.state host.new) }
        ensures free { Tells result (λ d w. IsFree d.notes w) (H.state host.old)
            (H.state host.new) }
        ensures notes { Tells result (λ d w. AreNotesFine w) (H.state host.old) (H.state host.new) }
        ensures damage { IsTrue (H.state host.new).honest
            → IfErr result (IsRecordsDamage (H.state host.old).world) }
        ensures opened { IfOk result (λ d. d.closed ≡ false) }
        ensures reads { Reads (H.state host.old) (H.state host.new) }
        ensures silent { Silent (H.state host.old) (H.state host.new) }
        ensures counts { CountsAdministration (H.state host.old) (H.state host.new) result }
    {
        let mut table = read_status(alloc, host)?;
        match read_notes(alloc, host, &mut table) {
            Ok(notes) => {
                table.law();
                Ok(NotedDatabase {
                    table,
                    notes,
                    closed: false,
                })
            }
            Err(fault) => Err(fault),
        }
    }

    /// What holds of all tables.
    pub fn law(&self)
        ensures order { AreInOrder self.now.records }
        ensures standing { standing self.now.records ≡ self.now.records }
    {
        self.table.law();
    }

    /// All records, in the order of names.
    pub fn records(&self) -> &[Record]
        ensures { result.now ≡ self.now.records }
    {
        self.table.as_slice()
    }

    /// The record of a package, found by halves.
    pub fn get(&self, name: &Text) -> Option<&Record>
        ensures { option_copied result ≡ record_in self.now.records name.now }
    {
        self.table.get(name)
    }

    /// Whether notes stand that the status file doesn't have.
    pub fn has_notes(&self) -> bool
        ensures none { result ≡ false → self.now.notes ≡ 0 }
        ensures some { result ≡ true → 0 < self.now.notes }
    {
        self.notes > 0
    }

    /// Whether a path is one of a conffile, of any record. Takes no memory.
    pub fn has_conffile(&self, path: &ShipPath) -> bool
        ensures { result ≡ list_any (λ r. has_conffile r path.now) self.now.records }
    {
        self.table
            .as_slice()
            .iter()
            .any(|record| record.has_conffile(path))
    }

    /// Notes the record of a package: in a file of its own, and then in the table. One with not-installed
    /// takes the package's record away. Where 250 notes stand all are merged into the status file first.
    /// After an error the value is closed.
    pub fn note<H: Host>(
        &mut self,
        alloc: Global,
        host: &mut H,
        entry: Record,
    ) -> Result<(), RecordFault>
        requires kept { Needs (H.state host.old) (IsKept self.old) }
        ensures records { OnOk result (self.new.records ≡ entered_in entry self.old.records) }
        ensures number { OnOk result (self.new.notes ≡ cond (writes_note entry self.old.records)
            (note_number self.old.notes + 1) self.old.notes) }
        ensures opened { OnOk result (self.new.closed ≡ false) }
        ensures err { OnErr result (self.new.closed ≡ true) }
        ensures same { OnErr result (self.new.records ≡ self.old.records) }
        ensures closed { IsErrOf result Closed ↔ (self.old.closed ≡ true) }
        ensures shut { self.old.closed ≡ true → H.state host.new ≡ H.state host.old }
        ensures kept { Leaves result (IsNoted self.new) (H.state host.old) (H.state host.new) }
        ensures placed { writes_note entry self.old.records ≡ true
            → Leaves result (IsPlaced self.old.records self.old.notes) (H.state host.old)
            (H.state host.new) }
        ensures any_moment { AtEachMoment (IsNoting self.old.records
            (entered_in entry self.old.records)) (H.state host.old) (H.state host.new) }
        ensures on_disk { writes_note entry self.old.records ≡ true
            → OnOk result (IsOnDisk (H.state host.new).events) }
        ensures turns { GoByTurns is_record_place (H.state host.old) (H.state host.new) }
        ensures apart { WorksApart result is_record_place (H.state host.old) (H.state host.new) }
        ensures silent { Silent (H.state host.old) (H.state host.new) }
        ensures counts { CountsRecord (H.state host.old) (H.state host.new) result }
    {
        if self.closed {
            return Err(RecordFault::Closed);
        }
        match enter_record(alloc, host, &mut self.table, &mut self.notes, entry) {
            Ok(()) => Ok(()),
            Err(fault) => {
                self.closed = true;
                Err(RecordFault::from(fault))
            }
        }
    }

    /// Takes the record of a package away, by a note that says so; nothing is done where it has none. After
    /// an error the value is closed.
    pub fn forget<H: Host>(
        &mut self,
        alloc: Global,
        host: &mut H,
        name: &Text,
    ) -> Result<(), RecordFault>
        requires { Needs (H.state host.old) (IsKept self.old) }
        ensures records { OnOk result (self.new.records ≡ drop_record name.now self.old.records) }
        ensures number { OnOk result
            (self.new.notes ≡ cond (is_some (record_in self.old.records name.now))
            (note_number self.old.notes + 1) self.old.notes) }
        ensures opened { OnOk result (self.new.closed ≡ false) }
        ensures err { OnErr result (self.new.closed ≡ true) }
        ensures same { OnErr result (self.new.records ≡ self.old.records) }
        ensures closed { IsErrOf result Closed ↔ (self.old.closed ≡ true) }
        ensures shut { self.old.closed ≡ true → H.state host.new ≡ H.state host.old }
        ensures kept { Leaves result (IsNoted self.new) (H.state host.old) (H.state host.new) }
        ensures placed { is_some (record_in self.old.records name.now) ≡ true
            → Leaves result (IsPlaced self.old.records self.old.notes) (H.state host.old)
            (H.state host.new) }
        ensures any_moment { AtEachMoment (IsNoting self.old.records
            (drop_record name.now self.old.records)) (H.state host.old) (H.state host.new) }
        ensures on_disk { is_some (record_in self.old.records name.now) ≡ true
            → OnOk result (IsOnDisk (H.state host.new).events) }
        ensures turns { GoByTurns is_record_place (H.state host.old) (H.state host.new) }
        ensures apart { WorksApart result is_record_place (H.state host.old) (H.state host.new) }
        ensures silent { Silent (H.state host.old) (H.state host.new) }
        ensures counts { CountsRecord (H.state host.old) (H.state host.new) result }
    {
        if self.closed {
            return Err(RecordFault::Closed);
        }
        match forget_record(alloc, host, &mut self.table, &mut self.notes, name) {
            Ok(()) => Ok(()),
            Err(fault) => {
                self.closed = true;
                Err(RecordFault::from(fault))
            }
        }
    }

    /// Writes the status file with all records, and then takes the notes away, the smallest number first.
    /// After an error the value is closed.
    pub fn checkpoint<H: Host>(&mut self, alloc: Global, host: &mut H) -> Result<(), RecordFault>
        requires { Needs (H.state host.old) (IsKept self.old) }
        ensures records { self.new.records ≡ self.old.records }
        ensures number { OnOk result (self.new.notes ≡ 0) }
        ensures opened { OnOk result (self.new.closed ≡ false) }
        ensures err { OnErr result (self.new.closed ≡ true) }
        ensures closed { IsErrOf result Closed ↔ (self.old.closed ≡ true) }
        ensures shut { self.old.closed ≡ true → H.state host.new ≡ H.state host.old }
        ensures merged { Leaves result (AreMerged self.old.records) (H.state host.old)
            (H.state host.new) }
        ensures any_moment { AtEachMoment (IsMerging self.old.records) (H.state host.old)
            (H.state host.new) }
        ensures turns { GoByTurns is_record_place (H.state host.old) (H.state host.new) }
        ensures silent { Silent (H.state host.old) (H.state host.new) }
        ensures counts { CountsRecord (H.state host.old) (H.state host.new) result }
    {
        if self.closed {
            return Err(RecordFault::Closed);
        }
        match merge(alloc, host, &self.table, self.notes) {
            Ok(()) => {
                self.notes = 0;
                Ok(())
            }
            Err(fault) => {
                self.closed = true;
                Err(RecordFault::from(fault))
            }
        }
    }
}
