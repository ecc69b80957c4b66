// The table of diversions, read again: a script, or another program, may have changed it since.
ghost use Rattle.std.specs.Prelude.{◌≡◌, [], IfErr, IfNone, IfOk, IfSome, IsSomeAnd, IsTrue, OnOk, false, is_some};
ghost use Rattle.administration.specs.Fault.{CountsAdministration};
ghost use Rattle.aliases.specs.Reading.{AreAliasesIn};
ghost use Rattle.diversions.specs.Lines.{HasDiversions, IsDiversionsDamage};
ghost use Rattle.file_lists.specs.Followed.{HasMoreAliases, diverted_paths};
ghost use Rattle.held_administration.specs.Open.{IsOpen};
ghost use Rattle.host_core.specs.Host.{Counts, Leaves, Needs, Reads, Silent, Tells};
ghost use Rattle.unit_reports.specs.Held.{held_by};
ghost use Rattle.unit_reports.specs.Units.{CountsLast, IsBrokenBy, TellsNoPackage};
ghost use Rattle.unit_reports.specs.declared.report.Breakage.TheVariants.{Abandoned, Closed};
ghost use Rattle.dpkg_session.specs.Growth.{StaysWritable};
ghost use Rattle.dpkg_session.specs.Rereading.{AreReadAnew, HasRead, HasReread, IsReread, IsUnread, reading_breakage, with_ways};

use crate::growing::follow_tree;
use crate::session::Session;
use administration::AdministrationFault;
use diversions::Diversions;
use file_lists::{FileLists, add_diverted, read_above_each};
use held_administration::Administration;
use host_core::{Host, HostFault, RootPath};
use package_tree::Package;
use std::alloc::{AllocError, Global};
use unit_reports::{Breakage, Report, broken, refresh};

/// What a fault of a reading breaks off.
pub(crate) fn breakage_of(fault: &AdministrationFault) -> Breakage
    ensures { result ≡ reading_breakage fault.now }
{
    match fault {
        AdministrationFault::Damaged { .. } => Breakage::Damaged,
        AdministrationFault::Device => Breakage::Device,
        AdministrationFault::NoMemory => Breakage::NoMemory,
        AdministrationFault::Declined => Breakage::Declined,
    }
}

// The paths of the diversions, each with its target.
fn diverted_paths(alloc: Global, diversions: &Diversions) -> Result<Vec<RootPath>, AllocError>
    ensures { IfOk result (λ paths. paths.items ≡ diverted_paths diversions.now.ways.entries) }
{
    let mut paths = Vec::new(alloc);
    add_diverted(&mut paths, diversions)?;
    Ok(paths)
}

// Reads the aliases above the paths of diversions, and then above all listed paths.
fn read_aliases<H: Host>(
    alloc: Global,
    host: &mut H,
    lists: &FileLists,
    diversions: &mut Diversions,
) -> Result<(), HostFault>
    ensures grows { HasMoreAliases (H.state host.new).honest (H.state host.old).world diversions.old
        diversions.new }
    ensures anew { Leaves result
        (λ w _. AreAliasesIn w diversions.old.ways.aliases
        → AreReadAnew lists.now.lists diversions.new.ways w)
        (H.state host.old) (H.state host.new) }
    ensures reads { Reads (H.state host.old) (H.state host.new) }
    ensures silent { Silent (H.state host.old) (H.state host.new) }
    ensures counts { Counts (H.state host.old) (H.state host.new) result }
{
    let Ok(paths) = diverted_paths(alloc, diversions) else {
        return Err(HostFault::NoMemory);
    };
    match read_above_each(alloc, host, paths.as_slice(), diversions) {
        Ok(()) => lists.read_aliases(host, diversions),
        Err(fault) => Err(fault),
    }
}

// Holds a table that was read, with the aliases of the root, in the place of one with other entries. The places of all lists are
// computed anew.
fn take_table<H: Host>(
    host: &mut H,
    administration: &mut Administration,
    diversions: &mut Diversions,
    read: Diversions,
) -> Result<(), HostFault>
    requires bare { read.ways.aliases ≡ [] }
    requires writable { read.closed ≡ false }
    requires open { IsOpen diversions.old.ways administration.old }
    ensures entries { OnOk result (diversions.new.ways.entries ≡ read.ways.entries) }
    ensures anew { Leaves result (λ w _. AreReadAnew administration.old.lists.lists
        diversions.new.ways w) (H.state host.old) (H.state host.new) }
    ensures open { OnOk result (IsOpen diversions.new.ways administration.new) }
    ensures writable { StaysWritable diversions.old diversions.new }
    ensures same { administration.new ≡ record administration.old {
      places = administration.new.places;
    } }
    ensures reads { Reads (H.state host.old) (H.state host.new) }
    ensures silent { Silent (H.state host.old) (H.state host.new) }
    ensures counts { Counts (H.state host.old) (H.state host.new) result }
{
    let alloc = administration.alloc;
    let lists = &administration.lists;
    let mut table = read;
    match read_aliases(alloc, host, lists, &mut table) {
        Ok(()) => {
            *diversions = table;
            refresh(alloc, lists, diversions, &mut administration.places)?;
            Ok(())
        }
        Err(fault) => Err(fault),
    }
}

// Holds a table that was read, if its entries are others than those that are held.
fn take_if_changed<H: Host>(
    host: &mut H,
    administration: &mut Administration,
    diversions: &mut Diversions,
    read: Diversions,
) -> Result<(), HostFault>
    requires bare { read.ways.aliases ≡ [] }
    requires writable { read.closed ≡ false }
    requires open { IsOpen diversions.old.ways administration.old }
    ensures reread { Leaves result (λ w _. HasDiversions w read.ways.entries
        → IsReread (held_by administration.old diversions.old) w diversions.new.ways)
        (H.state host.old) (H.state host.new) }
    ensures open { OnOk result (IsOpen diversions.new.ways administration.new) }
    ensures writable { StaysWritable diversions.old diversions.new }
    ensures same { administration.new ≡ record administration.old {
      places = administration.new.places;
    } }
    ensures reads { Reads (H.state host.old) (H.state host.new) }
    ensures silent { Silent (H.state host.old) (H.state host.new) }
    ensures counts { Counts (H.state host.old) (H.state host.new) result }
{
    if diversions.has_entries_of(&read) {
        return Ok(());
    }
    take_table(host, administration, diversions, read)
}

/// Reads the table again, and holds it in the place of that which was held.
pub(crate) fn reread<H: Host>(
    host: &mut H,
    administration: &mut Administration,
    diversions: &mut Diversions,
) -> Result<(), AdministrationFault>
    requires open { IsOpen diversions.old.ways administration.old }
    ensures reread { Leaves result (λ w _. IsReread (held_by administration.old diversions.old) w
        diversions.new.ways) (H.state host.old) (H.state host.new) }
    ensures damage { IsTrue (H.state host.new).honest
        → IfErr result (IsDiversionsDamage (H.state host.old).world) }
    ensures open { OnOk result (IsOpen diversions.new.ways administration.new) }
    ensures writable { StaysWritable diversions.old diversions.new }
    ensures same { administration.new ≡ record administration.old {
      places = administration.new.places;
    } }
    ensures reads { Reads (H.state host.old) (H.state host.new) }
    ensures silent { Silent (H.state host.old) (H.state host.new) }
    ensures counts { CountsAdministration (H.state host.old) (H.state host.new) result }
{
    match Diversions::open(administration.alloc, host) {
        Ok(read) => match take_if_changed(host, administration, diversions, read) {
            Ok(()) => Ok(()),
            Err(fault) => Err(AdministrationFault::from(fault)),
        },
        Err(fault) => Err(fault),
    }
}

/// Reads what the unit of a tree goes by: the table again, and what is missing of the aliases above the tree's paths.
pub(crate) fn read_for_tree<H: Host>(
    host: &mut H,
    administration: &mut Administration,
    diversions: &mut Diversions,
    incoming: &Package,
) -> Result<(), AdministrationFault>
    requires open { IsOpen diversions.old.ways administration.old }
    ensures read { OnOk result (HasRead incoming.now (held_by administration.old diversions.old)
        diversions.new.ways (H.state host.old).world (H.state host.new).honest) }
    ensures damage { IsTrue (H.state host.new).honest
        → IfErr result (IsDiversionsDamage (H.state host.old).world) }
    ensures open { OnOk result (IsOpen diversions.new.ways administration.new) }
    ensures writable { StaysWritable diversions.old diversions.new }
    ensures same { administration.new ≡ record administration.old {
      places = administration.new.places;
    } }
    ensures reads { Reads (H.state host.old) (H.state host.new) }
    ensures silent { Silent (H.state host.old) (H.state host.new) }
    ensures counts { CountsAdministration (H.state host.old) (H.state host.new) result }
{
    match reread(host, administration, diversions) {
        Ok(()) => match follow_tree(host, administration, diversions, incoming) {
            Ok(()) => Ok(()),
            Err(fault) => Err(AdministrationFault::from(fault)),
        },
        Err(fault) => Err(fault),
    }
}

// The report where the table couldn't be read.
fn unread_report(alloc: Global, fault: &AdministrationFault) -> Report
    ensures units { result.units.items ≡ [] }
    ensures last { IsSomeAnd result.last (λ u. IsBrokenBy (reading_breakage fault.now) u.reply
        × (u.calls.items ≡ []) × TellsNoPackage u) }
{
    Report {
        units: Vec::new(alloc),
        last: Some(broken(alloc, Vec::new(alloc), breakage_of(fault))),
    }
}

/// Reads the table again before a command. Where it can't be read this is the report of the command.
pub(crate) fn read_before<H: Host>(
    host: &mut H,
    administration: &mut Administration,
    diversions: &mut Diversions,
) -> Option<Report>
    requires open { IsOpen diversions.old.ways administration.old }
    ensures read { IfNone result (HasReread (held_by administration.old diversions.old)
        diversions.new.ways (H.state host.old) (H.state host.new)) }
    ensures held { held_by administration.new diversions.new
        ≡ with_ways (held_by administration.old diversions.old) diversions.new.ways }
    ensures open { IfNone result (IsOpen diversions.new.ways administration.new) }
    ensures writable { StaysWritable diversions.old diversions.new }
    ensures same { administration.new ≡ record administration.old {
      places = administration.new.places;
    } }
    ensures unread { IfSome result (λ report. IsUnread report.units.items report.last
        (H.state host.old) (H.state host.new)) }
    ensures counts { IfSome result (λ report. CountsLast (H.state host.old) (H.state host.new)
        report.last) }
    ensures not_closed { IfSome result (λ report. IfSome report.last
        (λ unit. IsBrokenBy Closed unit.reply → ⊥)) }
    ensures not_abandoned { IfSome result (λ report. IfSome report.last
        (λ unit. IsBrokenBy Abandoned unit.reply → ⊥)) }
{
    match reread(host, administration, diversions) {
        Ok(()) => None,
        Err(fault) => Some(unread_report(administration.alloc, &fault)),
    }
}

impl<H: Host> Session<H> {
    /// Reads the table of diversions again, before a command. Where it can't be read the session is closed, and this is the report
    /// of the command.
    pub(crate) fn read_again(&mut self) -> Option<Report>
        requires { self.old.closed ≡ false }
        ensures read { IfNone result (HasReread
            (held_by self.old.administration self.old.diversions) self.new.diversions.ways
            (H.state self.old.host) (H.state self.new.host)) }
        ensures held { held_by self.new.administration self.new.diversions
            ≡ with_ways (held_by self.old.administration self.old.diversions)
            self.new.diversions.ways }
        ensures unread { IfSome result (λ report. IsUnread report.units.items report.last
            (H.state self.old.host) (H.state self.new.host)) }
        ensures counts { IfSome result (λ report. CountsLast (H.state self.old.host)
            (H.state self.new.host) report.last) }
        ensures not_closed { IfSome result (λ report. IfSome report.last
            (λ unit. IsBrokenBy Closed unit.reply → ⊥)) }
        ensures not_abandoned { IfSome result (λ report. IfSome report.last
            (λ unit. IsBrokenBy Abandoned unit.reply → ⊥)) }
        ensures closes { self.new.closed ≡ is_some result }
        ensures diversions { StaysWritable self.old.diversions self.new.diversions }
    {
        let unread = read_before(
            &mut self.host,
            &mut self.administration,
            &mut self.diversions,
        );
        self.closed = unread.is_some();
        unread
    }
}
