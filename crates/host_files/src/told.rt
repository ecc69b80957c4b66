// What the host tells of its calls: their record, and of that what a program can read.
ghost use Rattle.std.specs.Prelude.{◌≡◌, ◌<◌, ◌^◌, ◌-◌, ◌∷◌, [], map, vec_len, vec_capacity, OnOk, OnErr, IfErr};
ghost use Rattle.host_core.specs.declared.fault.HostFault.TheVariants.{NoMemory};
ghost use Rattle.host_files.specs.Notes.{noted, IsPlain, IsNotedFault, faults_in, calls_in, told_of};
ghost use Rattle.host_files.specs.declared.record.Noted.TheVariants.{Ended};

use crate::record::{Note, Record};
use host_core::{Call, HostFault, Outcome, Places};
use std::alloc::{AllocError, Global};

/// A call that was made, and how it ended.
#[derive(Drop)]
pub struct Made {
    pub call: Call,
    pub outcome: Outcome,
}

#[derive(Drop)]
pub(crate) struct Told {
    pub(crate) log: Record,
    pub(crate) calls: Vec<Made>,
    pub(crate) faults: u64,
    ghost counted: { faults ≡ faults_in log.notes },
    ghost listed: { map told_of calls.items ≡ calls_in log.notes },
}

impl Told {
    pub(crate) fn new(alloc: Global) -> Told
        ensures notes { result.log.notes ≡ [] }
        ensures faults { result.faults ≡ 0 }
    {
        Told {
            log: Record::new(),
            calls: Vec::new(alloc),
            faults: 0,
        }
    }

    // A host whose count is full makes no call any more.
    pub(crate) fn guard(&self) -> Result<(), HostFault>
        ensures ok { OnOk result (self.now.faults < 2 ^ 64 - 1) }
        ensures err { IfErr result (λ e. e ≡ NoMemory) }
    {
        if self.faults == u64::MAX {
            Err(HostFault::NoMemory)
        } else {
            Ok(())
        }
    }

    // Notes a call that is neither a fault nor a script that ended.
    pub(crate) fn note(&mut self, note: &Note<'_>)
        requires { IsPlain (noted note.now) }
        ensures notes { self.new.log.notes ≡ noted note.now ∷ self.old.log.notes }
        ensures faults { self.new.faults ≡ self.old.faults }
    {
        self.log = self.log.with(note);
    }

    // Notes a call of which Device is told.
    pub(crate) fn fail(&mut self, note: &Note<'_>)
        requires fault { IsNotedFault (noted note.now) }
        requires countable { self.old.faults < 2 ^ 64 - 1 }
        ensures notes { self.new.log.notes ≡ noted note.now ∷ self.old.log.notes }
    {
        self.log = self.log.with(note);
        self.faults += 1;
    }

    // Makes room for a script that ends.
    pub(crate) fn reserve(&mut self) -> Result<(), AllocError>
        ensures room { OnOk result (vec_len self.new.calls < vec_capacity self.new.calls) }
        ensures notes { self.new.log.notes ≡ self.old.log.notes }
        ensures faults { self.new.faults ≡ self.old.faults }
    {
        self.calls.reserve(1)
    }

    // Notes a script that ended.
    pub(crate) fn end(&mut self, called: Call, call: &Call, kept: &Places, outcome: Outcome)
        requires room { vec_len self.old.calls < vec_capacity self.old.calls }
        requires copied { called ≡ call.now }
        ensures notes { self.new.log.notes ≡ Ended call.now kept.now outcome ∷ self.old.log.notes }
        ensures faults { self.new.faults ≡ self.old.faults }
    {
        self.log = self.log.with(&Note::Ended(call, kept, outcome));
        self.calls.push_reserved(Made {
            call: called,
            outcome,
        });
    }
}
