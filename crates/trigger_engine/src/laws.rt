// What the record of a package tells once its triggers are processed.
ghost use Rattle.std.specs.Prelude.{◌≡◌, None, Option};
ghost use Rattle.host_core.specs.declared.call.Call.{Call as ACall};
ghost use Rattle.status_records.specs.declared.record.Record.{Record as ARecord};
ghost use Rattle.status_records.specs.declared.words.State.TheVariants.{HalfConfigured, Installed};
ghost use Rattle.trigger_engine.specs.Units.{ended_record};

/// The package is installed, or half-configured where its postinst failed. No name is pending then, and what was awaited still is.
pub fn what_a_processed_record_tells()
    ensures installed { (r : ARecord) → (ended_record r None).state ≡ Installed }
    ensures failed { (r : ARecord) (call : ACall)
        → (ended_record r (Some call)).state ≡ HalfConfigured }
    ensures none_pending { (r : ARecord) (failed : Option ACall)
        → (ended_record r failed).triggers.pending ≡ None }
    ensures awaited { (r : ARecord) (failed : Option ACall)
        → (ended_record r failed).triggers.awaited ≡ r.triggers.awaited }
{}
