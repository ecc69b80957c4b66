// The open table.
ghost use Rattle.std.specs.Str.{bytes_eq};
ghost use Rattle.std.specs.Prelude.{◌≡◌, ◌≢◌, ◌↔◌, not, [], IfOk, IfErr, MatchBool, OnErr, IsTrue, true, false, length, option_copied, ◌<◌, ◌^◌};
ghost use Rattle.std.specs.Map.Iter.{ShowsInOrder, deref};
ghost use Rattle.host_core.specs.Host.{AtEachMoment, Counts, Leaves, Needs, Reads, Silent, Tells};
ghost use Rattle.administration.specs.Fault.{CountsAdministration};
ghost use Rattle.administration.specs.Files.{NoDirectory};
ghost use Rattle.administration.specs.Places.{diversions_path};
ghost use Rattle.administration.specs.declared.fault.AdministrationFault.TheVariants.{Device, Declined};
ghost use Rattle.std.specs.Prelude.{IsErrOf};
ghost use Rattle.diversions.specs.declared.entry.Diversion.{Diversion as ADiversion};
ghost use Rattle.diversions.specs.Entries.{IsTable, is_owner, without};
ghost use Rattle.diversions.specs.Changes.{HasAdded, HasRemoved, IsAdding, IsBroughtFirst, IsRemoving, IsTableReady, LeavesDone, OnDone, OnRefused, diversion_of, with_entry};
ghost use Rattle.diversions.specs.Fault.{CountsDiversion};
ghost use Rattle.diversions.specs.Refusals.{add_answer, has_same, remove_answer};
ghost use Rattle.diversions.specs.declared.fault.DiversionFault.TheVariants.{Closed};
ghost use Rattle.diversions.specs.Lines.{HasEntries, HasDiversions, ReadsAs, IsNodeDamage, IsFileDamage, IsDiversionsDamage};
ghost use Rattle.aliases.specs.Aliases.{is_alias, resolved, way_to};
ghost use Rattle.aliases.specs.Reading.{AreAliasesIn, Grows, IsWhole};
ghost use Rattle.aliases.specs.Ways.{AreSettled};
ghost use Rattle.diversions.specs.Ways as ways;
ghost use Rattle.diversions.specs.Targets.{entry_to};
ghost use Rattle.diversions.specs.Turns.{GoesByTurns};

use crate::changing::{add_diversion, remove_diversion};
use crate::entry::{Diversion, Owner};
use crate::fault::DiversionFault;
use crate::known::Known;
use crate::reading::{TableFault, read_text};
use crate::refusal::{Answer, Seen};
use crate::table::Table;
use crate::ways::Ways;
use administration::{AdministrationFault, DIVERSIONS};
use aliases::{Aliases, Looked};
use host_core::{Host, HostFault, Node, RootPath, ShipPath};
use indexmap::map::Values;
use std::alloc::{AllocError, Global};
use std::marker::Model;
use texts::Text;

/// The diversions, as the file has them, in the order of adding, and the aliases of the root that were read.
#[derive(Drop)]
pub struct Diversions {
    ways: Ways,
    known: Known,
    closed: bool,
}

impl Model for Diversions {
    ghost use Rattle.diversions.specs.Held.{ways_of};
    ghost use Rattle.diversions.specs.Diverted.{Diverted};
    ghost use Rattle.diversions.specs.Kept.{IsKnown};

    ghost Value = { Diverted };

    ghost view = { λ d. record { ways = ways_of d.ways; closed = d.closed } };

    ghost invariant = { λ d. IsKnown d.known d.ways };
}

// The table of a file.
fn read_file(alloc: Global, path: RootPath, bytes: &[u8]) -> Result<Table, AdministrationFault>
    requires { path ≡ diversions_path }
    ensures reads { IfOk result (λ table. ReadsAs bytes.now table) }
    ensures damage { IfErr result (IsFileDamage bytes.now) }
    ensures device { IsErrOf result Device → ⊥ }
    ensures declined { IsErrOf result Declined → ⊥ }
{
    match read_text(alloc, bytes) {
        Ok(table) => Ok(table),
        Err(TableFault::Line(line)) => Err(AdministrationFault::Damaged { file: path, line }),
        Err(TableFault::NoMemory) => Err(AdministrationFault::NoMemory),
    }
}

// The table of the node at the file's place.
fn read_node(
    alloc: Global,
    path: RootPath,
    node: Option<Node>,
) -> Result<Table, AdministrationFault>
    requires { path ≡ diversions_path }
    ensures entries { IfOk result (λ table. HasEntries node table) }
    ensures damage { IfErr result (IsNodeDamage node) }
    ensures loose { IfOk result (λ table. NoDirectory node) }
    ensures device { IsErrOf result Device → ⊥ }
    ensures declined { IsErrOf result Declined → ⊥ }
{
    match node {
        None => Ok(Table::new(alloc)),
        Some(Node::File { bytes, .. }) => read_file(alloc, path, bytes.held()?),
        Some(_) => Err(AdministrationFault::Damaged {
            file: path,
            line: 0,
        }),
    }
}

fn read_table<H: Host>(alloc: Global, host: &mut H) -> Result<Table, AdministrationFault>
    ensures entries { Tells result (λ table w. HasDiversions w table) (H.state host.old)
        (H.state host.new) }
    ensures damage { IsTrue (H.state host.new).honest
        → IfErr result (IsDiversionsDamage (H.state host.old).world) }
    ensures loose { Tells result (λ table w. NoDirectory (w diversions_path)) (H.state host.old)
        (H.state host.new) }
    ensures reads { Reads (H.state host.old) (H.state host.new) }
    ensures silent { Silent (H.state host.old) (H.state host.new) }
    ensures counts { CountsAdministration (H.state host.old) (H.state host.new) result }
{
    let path = RootPath::from_str(alloc, DIVERSIONS)?;
    let node = host.node(&path)?;
    read_node(alloc, path, node)
}

impl Diversions {
    /// Reads the file; a missing one has no entries.
    pub fn open<H: Host>(alloc: Global, host: &mut H) -> Result<Diversions, AdministrationFault>
        ensures entries { Tells result (λ d w. HasDiversions w d.ways.entries) (H.state host.old)
            (H.state host.new) }
        ensures opened { IfOk result (λ d. d.closed ≡ false) }
        ensures aliases { IfOk result (λ d. d.ways.aliases ≡ []) }
        ensures damage { IsTrue (H.state host.new).honest
            → IfErr result (IsDiversionsDamage (H.state host.old).world) }
        ensures loose { Tells result (λ d w. NoDirectory (w diversions_path)) (H.state host.old)
            (H.state host.new) }
        ensures reads { Reads (H.state host.old) (H.state host.new) }
        ensures silent { Silent (H.state host.old) (H.state host.new) }
        ensures counts { CountsAdministration (H.state host.old) (H.state host.new) result }
    {
        let entries = read_table(alloc, host)?;
        let aliases = Aliases::none(alloc);
        Ok(Diversions {
            ways: Ways { entries, aliases },
            known: Known::nothing(),
            closed: false,
        })
    }

    /// What holds of the entries of each table.
    pub fn law(&self)
        ensures { IsTable self.now.ways.entries }
    {
        self.ways.entries.law();
    }

    /// The entries in the order of adding.
    pub fn entries(&self) -> Values<'_, String, Diversion>
        ensures rest { result ≡ self.now.ways.entries }
        ensures runs { ShowsInOrder (deref {X = ADiversion}) }
        ensures fits { length self.now.ways.entries < 2 ^ 63 }
    {
        self.ways.entries.entries()
    }

    /// The aliases of the root that were read.
    pub fn aliases(&self) -> &Aliases
        ensures { result.now ≡ self.now.ways.aliases }
    {
        &self.ways.aliases
    }

    /// The first entry whose target is the place of a path as it is listed.
    pub fn entry_to(&self, path: &RootPath) -> Result<Option<&Diversion>, AllocError>
        ensures { IfOk result (λ o. option_copied o ≡ entry_to self.now.ways path.now) }
    {
        self.ways.entry_to(&self.known, path)
    }

    /// Whether another table has the same entries, in the same order.
    pub fn has_entries_of(&self, other: &Diversions) -> bool
        ensures { MatchBool result (self.now.ways.entries ≡ other.now.ways.entries)
            (self.now.ways.entries ≢ other.now.ways.entries) }
    {
        let mut left = other.entries();
        let mut entries = self.entries();
        while let Some(entry) = entries.next() {
            let Some(found) = left.next() else {
                return false;
            };
            if !entry.is(found) {
                return false;
            }
        }
        left.next().is_none()
    }

    /// Takes the entries of another table that was read; the aliases stay.
    pub fn take_entries(&mut self, read: Diversions)
        ensures { self.new ≡ record self.old {
          ways = record self.old.ways { entries = read.ways.entries };
        } }
    {
        let Diversions { ways, .. } = read;
        let Ways { entries, .. } = ways;
        self.ways.entries = entries;
        self.known = Known::nothing();
    }

    /// Knows no alias any more: the links of the root may be others than when they were read.
    pub fn forget_aliases(&mut self)
        ensures { self.new ≡ record self.old { ways = record self.old.ways { aliases = [] } } }
    {
        self.ways.aliases = Aliases::none(self.ways.entries.alloc());
        self.known = Known::nothing();
    }

    /// Adds what is missing of the aliases above a path.
    pub fn read_above<H: Host>(&mut self, host: &mut H, path: &RootPath) -> Result<(), HostFault>
        ensures grows { Grows (H.state host.new).honest (H.state host.old).world path.now
            self.old.ways.aliases self.new.ways.aliases }
        ensures whole { Leaves result
            (λ w _. AreAliasesIn w self.old.ways.aliases
            → IsWhole w path.now self.new.ways.aliases)
            (H.state host.old) (H.state host.new) }
        ensures kept { self.new ≡ record self.old {
          ways = record self.old.ways { aliases = self.new.ways.aliases };
        } }
        ensures reads { Reads (H.state host.old) (H.state host.new) }
        ensures silent { Silent (H.state host.old) (H.state host.new) }
        ensures counts { Counts (H.state host.old) (H.state host.new) result }
    {
        let count = self.ways.aliases.len();
        let result = self.ways.aliases.read_above(host, path);
        let grown = self.ways.aliases.len() != count;
        self.known.follow(&self.ways, grown);
        result
    }

    /// The same, where a directory that was looked at isn't looked at again.
    pub fn read_above_once<H: Host>(
        &mut self,
        host: &mut H,
        path: &RootPath,
        looked: &mut Looked,
    ) -> Result<(), HostFault>
        requires settled { Needs (H.state host.old)
            (λ w. AreSettled w self.old.ways.aliases looked.old) }
        ensures settled { Needs (H.state host.new)
            (λ w. AreSettled w self.new.ways.aliases looked.new) }
        ensures grows { Grows (H.state host.new).honest (H.state host.old).world path.now
            self.old.ways.aliases self.new.ways.aliases }
        ensures whole { Leaves result
            (λ w _. AreAliasesIn w self.old.ways.aliases
            → IsWhole w path.now self.new.ways.aliases)
            (H.state host.old) (H.state host.new) }
        ensures kept { self.new ≡ record self.old {
          ways = record self.old.ways { aliases = self.new.ways.aliases };
        } }
        ensures reads { Reads (H.state host.old) (H.state host.new) }
        ensures silent { Silent (H.state host.old) (H.state host.new) }
        ensures counts { Counts (H.state host.old) (H.state host.new) result }
    {
        let count = self.ways.aliases.len();
        let result = self.ways.aliases.read_above_once(host, path, looked);
        let grown = self.ways.aliases.len() != count;
        self.known.follow(&self.ways, grown);
        result
    }

    /// Where a path is as it is listed, whatever is diverted.
    pub fn resolve(&self, path: &RootPath) -> Result<RootPath, AllocError>
        ensures { IfOk result (λ p. p ≡ resolved self.now.ways.aliases path.now) }
    {
        self.ways.aliases.resolve_path(path)
    }

    /// The same of a path that a package may ship.
    pub fn resolve_ship(&self, path: &ShipPath) -> Result<ShipPath, AllocError>
        ensures { IfOk result (λ p. p ≡ resolved self.now.ways.aliases path.now) }
    {
        self.ways.aliases.resolve(path)
    }

    /// Whether an alias stands at a path, those above it followed.
    pub fn stands_at(&self, path: &RootPath) -> Result<bool, AllocError>
        ensures { IfOk result
            (λ b. b
            ≡ is_alias self.now.ways.aliases (way_to self.now.ways.aliases path.now)) }
    {
        self.ways.aliases.stands_at(path)
    }

    /// Whether a place is the root, or a directory to which an alias leads.
    pub fn is_led_to(&self, at: &RootPath) -> bool
        ensures { result ≡ ways.is_led_to self.now.ways at.now }
    {
        at.as_str().is_empty() || self.ways.aliases.is_target(at.as_str())
    }

    /// Whether the place of a path is another than it is as it is listed.
    pub fn is_diverted(&self, path: &RootPath, place: &RootPath) -> Result<bool, AllocError>
        ensures { IfOk result
            (λ b. b ≡ not (bytes_eq (resolved self.now.ways.aliases path.now) place.now)) }
    {
        let here = self.ways.aliases.is_at(path.as_str(), place.as_str())?;
        Ok(!here)
    }

    /// Where a path is for each package but the owner of its diversion.
    pub fn truename(&self, path: &RootPath) -> Result<RootPath, AllocError>
        ensures { IfOk result (λ p. p ≡ ways.truename self.now.ways path.now) }
    {
        self.ways.truename(&self.known, path)
    }

    /// Where a package has the file of a path.
    pub fn place(&self, user: &Text, path: &RootPath) -> Result<RootPath, AllocError>
        ensures { IfOk result (λ p. p ≡ ways.place self.now.ways user.now path.now) }
    {
        self.ways.place(&self.known, user, path)
    }

    /// The same of a path that a package may ship; the place is such a path too.
    pub fn ship_place(&self, user: &Text, path: &ShipPath) -> Result<ShipPath, AllocError>
        ensures { IfOk result (λ p. p ≡ ways.place self.now.ways user.now path.now) }
    {
        self.ways.ship_place(&self.known, user, path)
    }

    /// Whether a package has the file of a path at this place. Nothing is allocated where no alias stands above the path, nor
    /// above that of an entry.
    pub fn is_at(&self, user: &Text, path: &RootPath, at: &RootPath) -> Result<bool, AllocError>
        ensures { IfOk result
            (λ b. b ≡ bytes_eq (ways.place self.now.ways user.now path.now) at.now) }
    {
        self.ways.is_at(&self.known, user, path, at)
    }

    /// Adds the diversion of a path to a target, and with `rename` moves the file or link at the path there, unless the owner's
    /// list has the path. After an error the value is closed. Stopped on its way, the same command finishes it.
    pub fn add<H: Host>(
        &mut self,
        alloc: Global,
        host: &mut H,
        path: &ShipPath,
        target: &ShipPath,
        owner: &Owner,
        rename: bool,
        seen: Seen,
    ) -> Result<Answer, DiversionFault>
        requires owner { is_owner owner.now ≡ true }
        requires ready { Needs (H.state host.old) IsTableReady }
        ensures answer { Tells result
            (λ answer w. answer
            ≡ add_answer w self.old.ways (diversion_of path.now target.now owner.now) rename seen)
            (H.state host.old) (H.state host.new) }
        ensures table { OnDone result (self.new ≡ record self.old {
          ways = record self.old.ways {
            entries = with_entry self.old.ways.entries (diversion_of path.now target.now owner.now);
          };
        }) }
        ensures refused { OnRefused result (self.new ≡ self.old) }
        ensures err { OnErr result (self.new ≡ record self.old { closed = true }) }
        ensures closed { IsErrOf result Closed ↔ (self.old.closed ≡ true) }
        ensures shut { self.old.closed ≡ true → H.state host.new ≡ H.state host.old }
        ensures same { OnRefused result (Reads (H.state host.old) (H.state host.new)) }
        ensures again { has_same self.old.ways.entries (diversion_of path.now target.now owner.now)
            ≡ true → Reads (H.state host.old) (H.state host.new) }
        ensures done { LeavesDone result
            (HasAdded self.old.ways (diversion_of path.now target.now owner.now) rename seen)
            (H.state host.old) (H.state host.new) }
        ensures any_moment { AtEachMoment
            (IsAdding self.old.ways (diversion_of path.now target.now owner.now) rename seen)
            (H.state host.old) (H.state host.new) }
        ensures brought { has_same self.old.ways.entries (diversion_of path.now target.now owner.now)
            ≡ false → OnDone result (IsBroughtFirst rename seen.listed
            (resolved self.old.ways.aliases path.now) (resolved self.old.ways.aliases target.now)
            (H.state host.old) (H.state host.new)) }
        ensures turns { GoesByTurns (H.state host.old) (H.state host.new) }
        ensures silent { Silent (H.state host.old) (H.state host.new) }
        ensures counts { CountsDiversion (H.state host.old) (H.state host.new) result }
    {
        if self.closed {
            return Err(DiversionFault::Closed);
        }
        self.known = Known::nothing();
        match add_diversion(
            alloc,
            host,
            &mut self.ways,
            path,
            target,
            owner,
            rename,
            seen,
        ) {
            Ok(answer) => Ok(answer),
            Err(fault) => {
                self.closed = true;
                Err(DiversionFault::from(fault))
            }
        }
    }

    /// Takes an owner's diversion of a path away, and with `rename` moves the file or link at its target back to the path. After
    /// an error the value is closed. Stopped on its way, the same command finishes it, or answers `NotDiverted` where all is done.
    pub fn remove<H: Host>(
        &mut self,
        alloc: Global,
        host: &mut H,
        path: &ShipPath,
        owner: &Owner,
        rename: bool,
    ) -> Result<Answer, DiversionFault>
        requires ready { Needs (H.state host.old) IsTableReady }
        ensures answer { Tells result
            (λ answer w. answer ≡ remove_answer w self.old.ways path.now owner.now rename)
            (H.state host.old) (H.state host.new) }
        ensures table { OnDone result
            (self.new ≡ record self.old {
              ways = record self.old.ways { entries = without path.now self.old.ways.entries };
            }) }
        ensures refused { OnRefused result (self.new ≡ self.old) }
        ensures err { OnErr result (self.new ≡ record self.old { closed = true }) }
        ensures closed { IsErrOf result Closed ↔ (self.old.closed ≡ true) }
        ensures shut { self.old.closed ≡ true → H.state host.new ≡ H.state host.old }
        ensures same { OnRefused result (Reads (H.state host.old) (H.state host.new)) }
        ensures done { LeavesDone result (HasRemoved self.old.ways path.now rename)
            (H.state host.old) (H.state host.new) }
        ensures any_moment { AtEachMoment (IsRemoving self.old.ways path.now rename)
            (H.state host.old) (H.state host.new) }
        ensures brought { OnDone result (IsBroughtFirst rename false
            (ways.truename self.old.ways path.now) (resolved self.old.ways.aliases path.now)
            (H.state host.old) (H.state host.new)) }
        ensures turns { GoesByTurns (H.state host.old) (H.state host.new) }
        ensures silent { Silent (H.state host.old) (H.state host.new) }
        ensures counts { CountsDiversion (H.state host.old) (H.state host.new) result }
    {
        if self.closed {
            return Err(DiversionFault::Closed);
        }
        self.known = Known::nothing();
        match remove_diversion(alloc, host, &mut self.ways, path, owner, rename) {
            Ok(answer) => Ok(answer),
            Err(fault) => {
                self.closed = true;
                Err(DiversionFault::from(fault))
            }
        }
    }
}
