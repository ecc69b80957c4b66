// Hosts of which nothing is changed.
ghost use Rattle.command_line.specs.Dry.{dry_left, dry_root, foretold_by};

use crate::fault::{RootFault, TreeOpening};
use crate::hosts::Hosts;
use command_words::{ScriptStreams, TreeOwners};
use host_core::HostFault;
use host_overlay::{Overlay, Plan};
use std::alloc::Global;

/// The hosts of a rehearsal: what is done to a root that is opened is kept in memory, and its scripts aren't started. It is only
/// looked at, so that its locks aren't taken. What is planned are calls on the root that is opened first.
#[derive(Drop)]
pub(crate) struct DryHosts<'a, S: Hosts> {
    pub(crate) alloc: Global,
    pub(crate) hosts: &'a mut S,
    pub(crate) plan: &'a mut Option<Plan>,
}

impl<'a, S: Hosts> DryHosts<'a, S> {
    ghost use Rattle.std.specs.Prelude.{◌≡◌};
    ghost use Rattle.host_overlay.specs.Overlays.{begun_state, overlay_state};

    // The host of a root over the one below, on which the calls fail that are planned to.
    fn over_root(&mut self, host: S::Opened) -> Overlay<S::Opened>
        ensures state { overlay_state result ≡ record (S.Opened.state host) {
          events = foretold_by self.old.plan.now;
        } }
        ensures begun { begun_state result ≡ S.Opened.state host }
        ensures hosts { self.new.hosts ≡ self.old.hosts }
        ensures plan { self.new.plan.ghost_name ≡ self.old.plan.ghost_name }
    {
        match self.plan.take() {
            Some(plan) => Overlay::rehearsing(self.alloc, host, plan),
            None => Overlay::over(self.alloc, host),
        }
    }
}

impl<'a, S: Hosts> Hosts for DryHosts<'a, S> {
    ghost use Rattle.std.specs.Prelude.{[]};

    type Opened = Overlay<S::Opened>;

    ghost faults = { λ d. S.faults d.hosts.now };

    ghost root = { λ d. dry_root (foretold_by d.plan.now) (S.root d.hosts.now) };

    ghost tree = { λ d. dry_root [] (S.tree d.hosts.now) };

    ghost left = { λ d. dry_left (S.left d.hosts.now) };

    ghost seen = { λ d. dry_left (S.seen d.hosts.now) };

    ghost unopened = { λ old new. S.unopened old.hosts.now new.hosts.now };

    ghost locked = { λ _ _ _. ⊥ };

    ghost full = { λ d. S.full d.hosts.now };

    ghost beside = { λ d. S.beside d.hosts.now };

    ghost below = { λ d. d.hosts.ghost_name };

    fn is_beside(&self) -> bool {
        self.hosts.is_beside()
    }

    fn open_root(
        &mut self,
        directory: &str,
        streams: ScriptStreams,
        wait: u32,
    ) -> Result<Overlay<S::Opened>, RootFault> {
        let _ = (streams, wait);
        match self.look_at_root(directory) {
            Ok(host) => Ok(host),
            Err(fault) => Err(RootFault::Host(fault)),
        }
    }

    fn open_beside(&mut self, directory: &str, wait: u32) -> Result<Overlay<S::Opened>, RootFault> {
        self.open_root(directory, ScriptStreams::Own, wait)
    }

    fn look_at_root(&mut self, directory: &str) -> Result<Overlay<S::Opened>, HostFault> {
        match self.hosts.look_at_root(directory) {
            Ok(host) => Ok(self.over_root(host)),
            Err(fault) => Err(fault),
        }
    }

    fn open_tree(
        &mut self,
        directory: &str,
        owners: TreeOwners,
    ) -> Result<Overlay<S::Opened>, TreeOpening> {
        match self.hosts.open_tree(directory, owners) {
            Ok(host) => Ok(Overlay::over(self.alloc, host)),
            Err(fault) => Err(fault),
        }
    }

    fn close_root(&mut self, host: Overlay<S::Opened>) {
        self.hosts.close_root(host.into_below());
    }

    fn close_tree(&mut self, host: Overlay<S::Opened>) {
        self.hosts.close_tree(host.into_below());
    }
}
