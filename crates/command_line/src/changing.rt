// Changes of the diversions: their paths are read, and the root is opened to carry them out.
ghost use Rattle.std.specs.Prelude.{◌≡◌, ◌≤◌, [], false, true, IfOk, IfErr, IsTrue, OnErr};
ghost use Rattle.diversions.specs.Entries.{is_owner};
ghost use Rattle.command_line.specs.Changes.{HasChanged, HasChangedBeside, HasEndedAlone, HasEndedBeside, HasEndedChange, IsChangedBy, IsChangedOn, IsChanging, IsRefusedBeside, IsDivertOf, IsRead, IsUndivertOf, bad_of_divert, bad_of_undivert, owner_in, target_in};
ghost use Rattle.administration.specs.Fault.{CountsAdministration};
ghost use Rattle.diverting_beside.specs.Beside.{IsChangedBeside, IsUnreadBeside};
ghost use Rattle.dpkg_session.specs.Diversions.{HasBroken};
ghost use Rattle.host_core.specs.Host.{Reads, Silent};
ghost use Rattle.unit_reports.specs.Units.{calls_told};
ghost use Rattle.command_line.specs.Roots.{IsGivenUpOn, around};

use crate::fault::{NotOpened, RootFault};
use crate::hosts::Hosts;
use administration::AdministrationFault;
use command_words::ScriptStreams;
use diversions::Owner;
use diverting_beside::{divert_beside, undivert_beside};
use dpkg_session::{Diverting, Report, Session, Undiverting};
use host_core::{Host, ShipPath};
use std::alloc::{AllocError, Global};
use texts::Text;

/// A diversion that is to be added or taken away.
#[derive(Drop)]
pub(crate) enum Change {
    Divert(Diverting),
    Undivert(Undiverting),
}

fn owner_in(owner: &Option<Text>) -> Result<Owner, AllocError>
    ensures { IfOk result (λ read. read ≡ owner_in owner.now) }
{
    match owner {
        None => Ok(Owner::Local),
        Some(name) => Ok(Owner::Package(name.copy()?)),
    }
}

fn target_in(alloc: Global, target: &Option<Text>, path: &Text) -> Result<Text, AllocError>
    ensures { IfOk result (λ text. text ≡ target_in target.now path.now) }
{
    match target {
        None => {
            let path = path.as_str();
            Ok(Text::new(format!(in alloc; "{path}.distrib")?))
        }
        Some(target) => target.copy(),
    }
}

/// The diversion that is to be added, or the text that names no path.
pub(crate) fn diverting_in(
    alloc: Global,
    asked: &command_words::Diverting,
) -> Result<Result<Change, Text>, AllocError>
    requires { is_owner (owner_in asked.now.owner) ≡ true }
    ensures { IfOk result (IsRead (bad_of_divert asked.now) (IsDivertOf asked.now)) }
{
    let text = target_in(alloc, &asked.target, &asked.path)?;
    let owner = owner_in(&asked.owner)?;
    let Some(path) = ShipPath::parse(alloc, asked.path.as_str())? else {
        return Ok(Err(asked.path.copy()?));
    };
    match ShipPath::parse(alloc, text.as_str())? {
        Some(target) => Ok(Ok(Change::Divert(Diverting {
            path,
            target,
            owner,
            rename: asked.rename,
        }))),
        None => Ok(Err(text)),
    }
}

/// The diversion that is to be taken away, or the text that names no path.
pub(crate) fn undiverting_in(
    alloc: Global,
    asked: &command_words::Undiverting,
) -> Result<Result<Change, Text>, AllocError>
    ensures { IfOk result (IsRead (bad_of_undivert asked.now) (IsUndivertOf asked.now)) }
{
    let owner = owner_in(&asked.owner)?;
    match ShipPath::parse(alloc, asked.path.as_str())? {
        Some(path) => Ok(Ok(Change::Undivert(Undiverting {
            path,
            owner,
            rename: asked.rename,
        }))),
        None => Ok(Err(asked.path.copy()?)),
    }
}

// The report of an open session.
fn carry_out<H: Host>(session: &mut Session<H>, asked: &Change) -> Report
    requires { session.old.closed ≡ false }
    ensures { HasChanged asked.now result session.old.administration.database.records
        session.old.administration.lists.lists session.old.diversions.ways
        (H.state session.old.host) (H.state session.new.host) }
{
    match asked {
        Change::Divert(asked) => session.divert(asked),
        Change::Undivert(asked) => session.undivert(asked),
    }
}

// A change on the host of the root, which is given back.
fn change_on<S: Hosts>(
    alloc: Global,
    hosts: &mut S,
    host: S::Opened,
    asked: &Change,
) -> Result<Report, AdministrationFault>
    ensures done { IfOk result (IsChangedOn (S.left hosts.new) (S.Opened.state host) asked.now) }
    ensures refused { IfErr result (IsGivenUpOn (S.left hosts.new) (S.Opened.state host)) }
    ensures faults { S.faults hosts.old ≤ S.faults hosts.new }
    ensures below { S.below hosts.new ≡ S.below hosts.old }
{
    match Session::open(alloc, host) {
        Ok(mut session) => {
            let done = carry_out(&mut session, asked);
            hosts.close_root(session.into_host());
            Ok(done)
        }
        Err((host, fault)) => {
            hosts.close_root(host);
            Err(fault)
        }
    }
}

// The same, on the root's host that was opened for it.
fn change_alone<S: Hosts>(
    alloc: Global,
    hosts: &mut S,
    root: &Text,
    wait: u32,
    asked: &Change,
) -> Result<Report, NotOpened>
    ensures ended { HasEndedAlone (around S.Hosts hosts.old hosts.new) root.now asked.now result }
    ensures below { S.below hosts.new ≡ S.below hosts.old }
{
    match hosts.open_root(root.as_str(), ScriptStreams::Own, wait) {
        Ok(host) => match change_on(alloc, hosts, host, asked) {
            Ok(done) => Ok(done),
            Err(fault) => Err(NotOpened::Opening(fault)),
        },
        Err(RootFault::Locked(lock)) => Err(NotOpened::Locked(lock)),
        Err(RootFault::Host(fault)) => Err(NotOpened::Opening(AdministrationFault::from(fault))),
    }
}

// The report of a change that a script asks for.
fn report_beside<H: Host>(
    alloc: Global,
    host: &mut H,
    asked: &Change,
) -> Result<Report, AdministrationFault>
    ensures done { IfOk result
        (λ done. IsChangedBeside (IsChangedBy asked.now) (IsChanging asked.now) done
        (H.state host.old) (H.state host.new)) }
    ensures broken { IfOk result HasBroken }
    ensures calls { IfOk result (λ done. calls_told done ≡ []) }
    ensures finds { IsTrue (H.state host.new).honest
        → IfErr result (IsUnreadBeside (H.state host.old).world) }
    ensures refused { OnErr result (Reads (H.state host.old) (H.state host.new)) }
    ensures silent { Silent (H.state host.old) (H.state host.new) }
    ensures counts { OnErr result (CountsAdministration (H.state host.old) (H.state host.new) result) }
{
    match asked {
        Change::Divert(asked) => divert_beside(alloc, host, asked),
        Change::Undivert(asked) => undivert_beside(alloc, host, asked),
    }
}

// A script's change on the host of the root, which is given back.
fn change_beside_on<S: Hosts>(
    alloc: Global,
    hosts: &mut S,
    host: S::Opened,
    asked: &Change,
) -> Result<Report, AdministrationFault>
    ensures done { IfOk result (HasChangedBeside (S.left hosts.new) (S.Opened.state host) asked.now) }
    ensures refused { IfErr result (IsRefusedBeside (S.left hosts.new) (S.Opened.state host)) }
    ensures faults { S.faults hosts.old ≤ S.faults hosts.new }
    ensures below { S.below hosts.new ≡ S.below hosts.old }
{
    let mut host = host;
    let done = report_beside(alloc, &mut host, asked);
    hosts.close_root(host);
    done
}

fn change_beside<S: Hosts>(
    alloc: Global,
    hosts: &mut S,
    root: &Text,
    wait: u32,
    asked: &Change,
) -> Result<Report, NotOpened>
    ensures ended { HasEndedBeside (around S.Hosts hosts.old hosts.new) root.now asked.now result }
    ensures below { S.below hosts.new ≡ S.below hosts.old }
{
    match hosts.open_beside(root.as_str(), wait) {
        Ok(host) => match change_beside_on(alloc, hosts, host, asked) {
            Ok(done) => Ok(done),
            Err(fault) => Err(NotOpened::Opening(fault)),
        },
        Err(RootFault::Locked(held)) => Err(NotOpened::Locked(held)),
        Err(RootFault::Host(fault)) => Err(NotOpened::Opening(AdministrationFault::from(fault))),
    }
}

/// Carries a change out under the root, or tells why this can't be opened. A script's is made beside the command that runs it.
pub(crate) fn change_under<S: Hosts>(
    alloc: Global,
    hosts: &mut S,
    root: &Text,
    wait: u32,
    asked: &Change,
) -> Result<Report, NotOpened>
    ensures ended { HasEndedChange (around S.Hosts hosts.old hosts.new) root.now asked.now result }
    ensures below { S.below hosts.new ≡ S.below hosts.old }
{
    if hosts.is_beside() {
        return change_beside(alloc, hosts, root, wait, asked);
    }
    change_alone(alloc, hosts, root, wait, asked)
}
