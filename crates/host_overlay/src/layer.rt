// What was done over a host below, and what that changed.
ghost use Rattle.std.specs.Prelude.{◌≡◌, map};
ghost use Rattle.std.specs.BTreeMap.{get_by_text};
ghost use Rattle.host_core.specs.Events.{follow_all};
ghost use Rattle.host_core.specs.World.{World};
ghost use Rattle.host_overlay.specs.Doings.{event_of};
ghost use Rattle.host_overlay.specs.Standings.{overlaid};

use crate::changes::Changes;
use crate::done::{DeviceStep, Done, Made};
use crate::step::perform;
use host_core::{Call, HostFault, Outcome};
use std::alloc::{AllocError, Global};

// The changes make of each world below what the events make of it.
#[derive(Drop)]
pub(crate) struct Layer {
    alloc: Global,
    pub(crate) changes: Changes,
    pub(crate) events: Vec<Done>,
    ghost makes: { (w : World) → overlaid (get_by_text changes.map) w ≡ follow_all (map event_of events.items) w },
}

impl Layer {
    ghost use Rattle.std.specs.Prelude.{◌++◌, ◌∷◌, [], OnOk, OnErr, None};
    ghost use Rattle.host_core.specs.Events.{Did, Finished};
    ghost use Rattle.host_core.specs.Host.{ran_of};
    ghost use Rattle.host_overlay.specs.Doings.{step_of};
    ghost use Rattle.host_overlay.specs.Layers.{changed_in, events_in, failures_of, HasRoom, IsSameLayer};
    ghost use Rattle.host_overlay.specs.Standings.{Becomes, Stays};

    pub(crate) fn new(alloc: Global) -> Layer
        ensures changes { changed_in result ≡ λ _. None }
        ensures events { events_in result ≡ [] }
    {
        Layer {
            alloc,
            changes: Changes::new(alloc),
            events: Vec::new(alloc),
        }
    }

    // The same behind what is foretold, which changes no world.
    pub(crate) fn behind(alloc: Global, told: Vec<Done>) -> Layer
        requires { (w : World) → follow_all (map event_of told.items) w ≡ w }
        ensures changes { changed_in result ≡ λ _. None }
        ensures events { events_in result ≡ map event_of told.items }
    {
        Layer {
            alloc,
            changes: Changes::new(alloc),
            events: told,
        }
    }

    // Makes room to tell one event.
    pub(crate) fn make_room(&mut self) -> Result<(), AllocError>
        ensures same { IsSameLayer self.old self.new }
        ensures ok { OnOk result (HasRoom self.new) }
    {
        self.events.reserve(1)
    }

    // Tells a failure of the device below, if it is one.
    pub(crate) fn tell<T>(&mut self, told: &Result<T, HostFault>)
        requires { HasRoom self.old }
        ensures events { events_in self.new ≡ events_in self.old ++ failures_of told.now }
        ensures changes { changed_in self.new ≡ changed_in self.old }
    {
        if let Err(HostFault::Device) = told {
            self.events.push_reserved(Done::Failed);
        }
    }

    // Tells a call that is taken to have ended so.
    pub(crate) fn tell_call(&mut self, call: Call, outcome: Outcome)
        requires { HasRoom self.old }
        ensures events { events_in self.new ≡ events_in self.old
            ++ Finished (ran_of call outcome []) ∷ [] }
        ensures changes { changed_in self.new ≡ changed_in self.old }
    {
        self.events
            .push_reserved(Done::Finished(Made { call, outcome }));
    }

    pub(crate) fn do_step(&mut self, step: DeviceStep) -> Result<(), AllocError>
        ensures ok { OnOk result (Becomes (step_of step) (changed_in self.old)
            (changed_in self.new)) }
        ensures told { OnOk result (events_in self.new ≡ events_in self.old
            ++ Did (step_of step) ∷ []) }
        ensures err { OnErr result (Stays (step_of step) (changed_in self.old)
            (changed_in self.new)) }
        ensures untold { OnErr result (events_in self.new ≡ events_in self.old) }
    {
        self.events.reserve(1)?;
        perform(self.alloc, &mut self.changes, &step)?;
        self.events.push_reserved(Done::Did(step));
        Ok(())
    }
}
