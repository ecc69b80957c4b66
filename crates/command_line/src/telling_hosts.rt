// Hosts of which nothing is changed, with what is told of the paths that would be.
ghost use Rattle.std.specs.Prelude.{◌≡◌, ◌≤◌, ◌+◌, ℕ, IfOk, IsTrue};
ghost use Rattle.host_core.specs.Host.{Reads, Silent};
ghost use Rattle.host_core.specs.World.{World};
ghost use Rattle.foretold_changes.specs.Changes.{unread_paths};
ghost use Rattle.foretold_changes.specs.Told.{IsLookedOver};
ghost use Rattle.command_line.specs.Telling.{Tells, told_left};
ghost use Rattle.command_line.specs.Dry.{dry_left, dry_root, foretold_by};

use crate::dry_hosts::DryHosts;
use crate::fault::{RootFault, TreeOpening};
use crate::hosts::Hosts;
use administration::AdministrationFault;
use command_words::{ScriptStreams, TreeOwners};
use foretold_changes::{LookedOver, changes_text, look_over};
use host_core::{Host, HostFault};
use host_overlay::Overlay;
use std::alloc::Global;
use texts::Bytes;

/// What is told of the paths that would be changed on a root: nothing before it is given back; then their lines, or why there are
/// none.
#[derive(Drop)]
pub(crate) enum Told {
    Nothing,
    Lines(Bytes),
    Failed(AdministrationFault),
}

// What is told of an overlay that was looked over, on the host that was below.
fn tell_changes<H: Host>(
    alloc: Global,
    looked: Result<LookedOver, AdministrationFault>,
    host: &mut H,
) -> Told
    ensures told { (new : World) → (first last : ℕ)
        → IfOk looked (λ over. IsTrue (H.state host.new).honest
        → IsLookedOver (H.state host.old).world new over)
        → IfOk looked (λ over. unread_paths over.looked.items + first ≤ last)
        → Tells result (H.state host.new) (H.state host.old).world new }
    ensures reads { Reads (H.state host.old) (H.state host.new) }
    ensures silent { Silent (H.state host.old) (H.state host.new) }
{
    match looked {
        Err(fault) => Told::Failed(fault),
        Ok(over) => match changes_text(alloc, host, &over) {
            Ok(lines) => Told::Lines(lines),
            Err(fault) => Told::Failed(fault),
        },
    }
}

/// The hosts of a rehearsal, and what is told of the root that was given back.
#[derive(Drop)]
pub(crate) struct TellingHosts<'a, S: Hosts> {
    pub(crate) dry: DryHosts<'a, S>,
    pub(crate) told: Told,
}

impl<'a, S: Hosts> Hosts for TellingHosts<'a, S> {
    ghost use Rattle.std.specs.Prelude.{[]};

    type Opened = Overlay<S::Opened>;

    ghost faults = { λ t. S.faults t.dry.hosts.now };

    ghost root = { λ t. dry_root (foretold_by t.dry.plan.now) (S.root t.dry.hosts.now) };

    ghost tree = { λ t. dry_root [] (S.tree t.dry.hosts.now) };

    ghost left = { λ t. told_left t.told (S.left t.dry.hosts.now) };

    ghost seen = { λ t. dry_left (S.seen t.dry.hosts.now) };

    ghost unopened = { λ old new. S.unopened old.dry.hosts.now new.dry.hosts.now × (new.told ≡ old.told) };

    ghost locked = { λ _ _ _. ⊥ };

    ghost full = { λ t. S.full t.dry.hosts.now };

    ghost beside = { λ t. S.beside t.dry.hosts.now };

    ghost below = { λ t. t.dry.hosts.ghost_name };

    fn is_beside(&self) -> bool {
        self.dry.is_beside()
    }

    fn open_root(
        &mut self,
        directory: &str,
        streams: ScriptStreams,
        wait: u32,
    ) -> Result<Overlay<S::Opened>, RootFault> {
        self.dry.open_root(directory, streams, wait)
    }

    fn open_beside(&mut self, directory: &str, wait: u32) -> Result<Overlay<S::Opened>, RootFault> {
        self.dry.open_beside(directory, wait)
    }

    fn look_at_root(&mut self, directory: &str) -> Result<Overlay<S::Opened>, HostFault> {
        self.dry.look_at_root(directory)
    }

    fn open_tree(
        &mut self,
        directory: &str,
        owners: TreeOwners,
    ) -> Result<Overlay<S::Opened>, TreeOpening> {
        self.dry.open_tree(directory, owners)
    }

    fn close_root(&mut self, host: Overlay<S::Opened>) {
        let mut host = host;
        let looked = look_over(self.dry.alloc, &mut host);
        let mut below = host.into_below();
        self.told = tell_changes(self.dry.alloc, looked, &mut below);
        self.dry.hosts.close_root(below);
    }

    fn close_tree(&mut self, host: Overlay<S::Opened>) {
        self.dry.close_tree(host);
    }
}
