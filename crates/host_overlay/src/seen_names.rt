// Names that are seen otherwise than they stand on a host, which is only looked at.
ghost use Rattle.std.specs.Prelude.{◌≡◌, None, OnOk};
ghost use Rattle.host_core.specs.Looks.{Looks};
ghost use Rattle.host_core.specs.Tree.{IsListing};
ghost use Rattle.host_core.specs.World.{HardLink, Take, kind_of};
ghost use Rattle.host_overlay.specs.Seen.{AreSources, seen, seen_by};
ghost use Rattle.host_overlay.specs.Standings.{Becomes};

use crate::changes::Changes;
use crate::looking::{kind_over, node_over};
use crate::standing::{Origin, Standing};
use crate::step::link_name;
use host_core::{Host, HostFault, Kind, Listing, Node, RootPath};
use std::alloc::{AllocError, Global};

/// What is seen of a host otherwise than it stands there: names that others have, and names that are gone. They are kept in
/// memory, and the host is only looked at.
#[derive(Drop)]
pub struct SeenNames {
    changes: Changes,
}

impl SeenNames {
    /// All is seen as it stands.
    pub fn none(alloc: Global) -> SeenNames
        ensures { seen_by result ≡ λ _. None }
    {
        SeenNames {
            changes: Changes::new(alloc),
        }
    }

    /// What is seen at one name is seen at another too.
    pub fn link(&mut self, from: &RootPath, to: &RootPath) -> Result<(), AllocError>
        ensures { OnOk result (Becomes (HardLink from.now to.now) (seen_by self.old)
            (seen_by self.new)) }
    {
        link_name(&mut self.changes, from, to)
    }

    /// Nothing is seen at a name any more.
    pub fn take(&mut self, path: &RootPath) -> Result<(), AllocError>
        ensures { OnOk result (Becomes (Take path.now) (seen_by self.old)
            (seen_by self.new)) }
    {
        self.changes.set(path, Standing::new(Origin::Nothing))
    }

    /// What is seen at a path.
    pub fn node<H: Host>(&self, host: &mut H, path: &RootPath) -> Result<Option<Node>, HostFault>
        ensures { Looks result (λ node w. node ≡ seen self.now w path.now) (H.state host.old)
            (H.state host.new) }
    {
        node_over(host, &self.changes, path)
    }

    /// What kind of node is seen at a path.
    pub fn kind<H: Host>(&self, host: &mut H, path: &RootPath) -> Result<Option<Kind>, HostFault>
        ensures { Looks result (λ kind w. kind ≡ kind_of (seen self.now w path.now))
            (H.state host.old) (H.state host.new) }
    {
        kind_over(host, &self.changes, path)
    }

    /// The names that are seen in a directory.
    pub fn list<H: Host>(&self, host: &mut H, path: &RootPath) -> Result<Listing, HostFault>
        ensures { Looks result (λ listing w. AreSources self.now w → IsListing (seen self.now w)
            path.now listing.names listing.bad) (H.state host.old) (H.state host.new) }
    {
        let below = host.list(path)?;
        Ok(self.changes.listing(path, &below)?)
    }
}
