// A session looks at the triggers that a command activates.
ghost use Rattle.std.specs.Prelude.{◌≡◌, [], false, true, map, IfOk, IsOkAnd};
ghost use Rattle.host_core.specs.Looks.{Looks};
ghost use Rattle.dpkg_session.specs.Activated.{change_by};
ghost use Rattle.trigger_watch.specs.Activations.{activations_of};
ghost use Rattle.trigger_watch.specs.Watch.{IsWatch};

use crate::session::Session;
use host_core::{Host, HostFault};
use record_changes::{Change, RecordChange};
use std::alloc::{AllocError, Global};
use trigger_watch::{Activation, Touch, TriggerWatch, activations, watch};

/// What is to be changed of records, where triggers were activated.
pub(crate) fn changes_by(
    alloc: Global,
    found: Vec<Activation>,
) -> Result<Vec<RecordChange>, AllocError>
    ensures { IfOk result (λ changes. changes.items ≡ map change_by found.items) }
{
    let mut changes = Vec::new(alloc);
    for one in found {
        let Activation { package, names } = one;
        changes.push(RecordChange {
            name: package,
            change: Change::Activate(names),
        })?;
    }
    Ok(changes)
}

// What a closed session knows of triggers.
fn no_watch(alloc: Global) -> TriggerWatch
    ensures { result.before.items ≡ [] }
{
    TriggerWatch {
        before: Vec::new(alloc),
    }
}

impl<H: Host> Session<H> {
    /// What is known of triggers before a command: what each recorded package hits of the interests of the installed ones, by the paths
    /// of its list where files count. The session only looks, and stays open whatever came of it; a closed one doesn't look, and
    /// nothing is known then.
    pub fn watch_triggers(&mut self, by_files: bool) -> Result<TriggerWatch, HostFault>
        ensures looks { self.old.closed ≡ false → Looks result
            (λ watch w. IsWatch w self.old.administration.database.records
            self.old.administration.lists.lists by_files watch) (H.state self.old.host)
            (H.state self.new.host) }
        ensures refused { self.old.closed ≡ true
            → IsOkAnd result (λ watch. watch.before.items ≡ []) }
        ensures same { self.old.closed ≡ true → H.state self.new.host ≡ H.state self.old.host }
        ensures held { self.new.administration ≡ self.old.administration }
        ensures diversions { self.new.diversions ≡ self.old.diversions }
        ensures closes { self.new.closed ≡ self.old.closed }
    {
        let alloc = self.administration.alloc;
        if self.closed {
            return Ok(no_watch(alloc));
        }
        watch(
            alloc,
            &mut self.host,
            &self.administration.database,
            &self.administration.lists,
            by_files,
        )
    }

    /// What is to be changed of records behind a command (`change`), so that each package that is installed now processes the triggers
    /// of its interests that units have activated since the watch was taken, in the order of the units. The session only looks, and
    /// stays open whatever came of it; a closed one doesn't look, and nothing is to be changed then.
    pub fn activations(
        &mut self,
        by_files: bool,
        watch: &TriggerWatch,
        touches: &[Touch],
    ) -> Result<Vec<RecordChange>, HostFault>
        ensures looks { self.old.closed ≡ false → Looks result
            (λ changes w. changes.items ≡ map change_by
            (activations_of w self.old.administration.database.records
            self.old.administration.lists.lists by_files watch.now touches.now))
            (H.state self.old.host) (H.state self.new.host) }
        ensures refused { self.old.closed ≡ true
            → IsOkAnd result (λ changes. changes.items ≡ []) }
        ensures same { self.old.closed ≡ true → H.state self.new.host ≡ H.state self.old.host }
        ensures held { self.new.administration ≡ self.old.administration }
        ensures diversions { self.new.diversions ≡ self.old.diversions }
        ensures closes { self.new.closed ≡ self.old.closed }
    {
        let alloc = self.administration.alloc;
        if self.closed {
            return Ok(Vec::new(alloc));
        }
        match activations(
            alloc,
            &mut self.host,
            &self.administration.database,
            &self.administration.lists,
            by_files,
            watch,
            touches,
        ) {
            Ok(found) => Ok(changes_by(alloc, found)?),
            Err(fault) => Err(fault),
        }
    }
}
