// Unpacks as turns of a run: each tree is read once the unit of the one before it is told.
ghost use Rattle.std.specs.Prelude.{◌≡◌, ◌∷◌, ◌++◌, List, [], None, Some, IfErr, IfOk, IfSome, IsNone, IsTrue, OnOk, length, map};
ghost use Rattle.host_core.specs.Host.{AtEachMomentOf, Needs, NoFault};
ghost use Rattle.host_core.specs.Loss.{IsAnswered};
ghost use Rattle.held_administration.specs.Open.{IsOpen};
ghost use Rattle.held_administration.specs.Order.{IsInOrder};
ghost use Rattle.recorded_packages.specs.Packages.{ArePackagesOf};
ghost use Rattle.unit_reports.specs.Held.{held_by};
ghost use Rattle.unit_reports.specs.Units.{CountsLast, CountsReply, IsBrokenBy, TellsCalls};
ghost use Rattle.unit_reports.specs.Watching.{IsTold};
ghost use Rattle.unit_reports.specs.declared.report.Breakage.TheVariants.{Abandoned, Closed};
ghost use Rattle.undo_rows.specs.Transcript.{TellsAll};
ghost use Rattle.unit_runs.specs.declared.barring.Bar.TheVariants as bar;
ghost use Rattle.dpkg_session.specs.Growth.{StaysWritable};
ghost use Rattle.dpkg_session.specs.Installs.{label_of};
ghost use Rattle.dpkg_session.specs.Run.{HasRunThrough, IsAmidUnitOf, RunsUnit};
ghost use Rattle.dpkg_session.specs.Trees.{AreRead};
ghost use Rattle.dpkg_session.specs.Turns.{AreAllRead, BreaksTree, IsAmidTree, StaysLent, UnpacksTree, Unread, unread};
ghost use Rattle.dpkg_session.specs.Units.{IsBrokenOff};
ghost use Rattle.dpkg_session.specs.declared.report.Candidate.{Candidate as ACandidate};
ghost use Rattle.unpack_relations.specs.declared.options.UnpackOptions.{UnpackOptions as AnUnpackOptions};

use crate::done::label_of;
use crate::report::Candidate;
use crate::trees::Trees;
use crate::units::unit_of;
use diversions::Diversions;
use held_administration::Administration;
use host_core::Host;
use std::alloc::AllocError;
use texts::Texts;
use unit_reports::{Report, Unit, Watcher, is_broken};
use unit_runs::{Bar, Turns, barred_unit, run_units};
use unpack_relations::UnpackOptions;

/// The trees that are unpacked in turn, the labels of those whose units are done, and the diversions, which are read again before each.
#[derive(Drop)]
pub(crate) struct Unpacks<'a, 'l, 'd, T: Trees> {
    pub(crate) trees: &'a mut T,
    pub(crate) labels: &'l mut Texts,
    pub(crate) diversions: &'d mut Diversions,
    pub(crate) allowed: UnpackOptions,
}

impl<'a, 'l, 'd, H: Host, T: Trees> Turns<H> for Unpacks<'a, 'l, 'd, T> {
    ghost Task = { AnUnpackOptions };

    ghost task = { λ u. u.allowed };

    ghost Left = { Unread T };

    ghost left = { λ u. unread u.trees.now u.labels.now u.diversions.now
        (u.trees.ghost_name, u.labels.ghost_name, u.diversions.ghost_name) };

    ghost size = { λ left. length (T.words left.trees) };

    ghost turn = { UnpacksTree T.words T.reads };

    ghost amid = { IsAmidTree T.words T.reads };

    ghost called = { BreaksTree T.words T.reads };

    ghost goes = { λ allowed. StaysLent };

    ghost diverted = { λ u. u.diversions.now };

    ghost between = { λ u a. IfSome a.packages (ArePackagesOf a.database.records) };

    ghost over = { λ u left held. AreAllRead T.words
        (unread u.trees.now u.labels.now u.diversions.now
        (u.trees.ghost_name, u.labels.ghost_name, u.diversions.ghost_name)) left };

    fn take(
        &mut self,
        host: &mut H,
        administration: &mut Administration,
        barred: Option<Bar>,
    ) -> Result<Option<Unit>, Unit> {
        match self.trees.next() {
            Some(candidate) => match take_unit(
                host,
                administration,
                self.diversions,
                candidate,
                self.allowed,
                self.labels,
                barred,
            ) {
                Ok(unit) => Ok(Some(unit)),
                Err(unit) => Err(unit),
            },
            None => Ok(None),
        }
    }
}

fn add_label(labels: &mut Texts, candidate: &Candidate) -> Result<(), AllocError>
    ensures { OnOk result (labels.new ≡ labels.old ++ label_of candidate.now ∷ []) }
{
    labels.push(label_of(candidate).copy()?)?;
    Ok(())
}

// The label of a candidate, behind those of others, where its unit is to be begun.
fn prepare(labels: &mut Texts, candidate: &Candidate, barred: Option<Bar>) -> Result<(), Bar>
    ensures barred { OnOk result (barred ≡ None) }
    ensures abandoned { IfErr result (λ why. why ≡ bar.Abandoned → barred ≡ Some bar.Abandoned) }
    ensures labels { OnOk result (labels.new ≡ labels.old ++ label_of candidate.now ∷ []) }
{
    match barred {
        Some(bar) => Err(bar),
        None => match add_label(labels, candidate) {
            Ok(()) => Ok(()),
            Err(_) => Err(Bar::NoRoom),
        },
    }
}

// The unit of one candidate more, or the unit that was broken off, as it is where it is not to be begun.
fn take_unit<H: Host>(
    host: &mut H,
    administration: &mut Administration,
    diversions: &mut Diversions,
    candidate: Candidate,
    allowed: UnpackOptions,
    labels: &mut Texts,
    barred: Option<Bar>,
) -> Result<Unit, Unit>
    requires order { Needs (H.state host.old)
        (IsInOrder administration.old.database administration.old.lists.lists) }
    requires open { IsOpen diversions.old.ways administration.old }
    requires indexed { IfSome administration.old.packages
        (ArePackagesOf administration.old.database.records) }
    ensures ok { IfOk result (λ unit. RunsUnit allowed candidate
        (held_by administration.old diversions.old) (held_by administration.new diversions.new)
        unit (H.state host.old) (H.state host.new)) }
    ensures barred { OnOk result (barred ≡ None) }
    ensures order { OnOk result (Needs (H.state host.new)
        (IsInOrder administration.new.database administration.new.lists.lists)) }
    ensures open { OnOk result (IsOpen diversions.new.ways administration.new) }
    ensures indexed { OnOk result (IfSome administration.new.packages
        (ArePackagesOf administration.new.database.records)) }
    ensures broken_off { IfErr result (λ unit. IsBrokenOff allowed candidate
        (held_by administration.old diversions.old) unit (H.state host.old) (H.state host.new)) }
    ensures told { IfOk result (λ unit. TellsAll (H.state host.old) (H.state host.new) []
        unit.calls.items) }
    ensures any_moment { AtEachMomentOf (IsAmidUnitOf allowed candidate.tree
        (held_by administration.old diversions.old)) (H.state host.old) (H.state host.new) }
    ensures no_fault { OnOk result (NoFault (H.state host.old) (H.state host.new)) }
    ensures counts { IfErr result (λ unit. CountsReply (H.state host.old) (H.state host.new)
        unit.reply) }
    ensures not_closed { IfErr result (λ unit. IsBrokenBy Closed unit.reply → ⊥) }
    ensures abandoned { IfErr result (λ unit. IsBrokenBy Abandoned unit.reply
        → barred ≡ Some bar.Abandoned) }
    ensures writable { StaysWritable diversions.old diversions.new }
    ensures labels { OnOk result (labels.new ≡ labels.old ++ label_of candidate ∷ []) }
{
    if let Err(bar) = prepare(labels, &candidate, barred) {
        return Err(barred_unit(administration.alloc, bar));
    }
    let unit = unit_of(host, administration, diversions, candidate, allowed);
    if is_broken(&unit) {
        return Err(unit);
    }
    Ok(unit)
}

// The same of unpacks that are there. Its caller learns here that what it lent is still the same.
fn take_trees<H: Host, T: Trees, W: Watcher>(
    host: &mut H,
    administration: &mut Administration,
    unpacks: &mut Unpacks<'_, '_, '_, T>,
    watcher: &mut W,
) -> Report
    requires none { unpacks.old.labels.now ≡ [] }
    requires order { Needs (H.state host.old)
        (IsInOrder administration.old.database administration.old.lists.lists) }
    requires open { IsOpen unpacks.old.diversions.now.ways administration.old }
    requires indexed { IfSome administration.old.packages
        (ArePackagesOf administration.old.database.records) }
    ensures trees_stay { unpacks.new.trees.ghost_name ≡ unpacks.old.trees.ghost_name }
    ensures labels_stay { unpacks.new.labels.ghost_name ≡ unpacks.old.labels.ghost_name }
    ensures diversions_stay { unpacks.new.diversions.ghost_name
        ≡ unpacks.old.diversions.ghost_name }
    ensures writable { StaysWritable unpacks.old.diversions.now unpacks.new.diversions.now }
    ensures run { (cs : List ACandidate)
        × AreRead T.reads unpacks.old.trees.now cs unpacks.new.trees.now
        × HasRunThrough unpacks.old.allowed cs (T.words unpacks.new.trees.now) result
        (held_by administration.old unpacks.old.diversions.now)
        (held_by administration.new unpacks.new.diversions.now)
        (H.state host.old) (H.state host.new) × (IsNone result.last
        → unpacks.new.labels.now ≡ map label_of cs) }
    ensures told { TellsCalls (H.state host.old) (H.state host.new) result }
    ensures counts { CountsLast (H.state host.old) (H.state host.new) result.last }
    ensures not_closed { IfSome result.last (λ unit. IsBrokenBy Closed unit.reply → ⊥) }
    ensures abandoned { IfSome result.last (λ unit. IsBrokenBy Abandoned unit.reply
        → IsTrue (W.ends watcher.new)) }
    ensures order { IsNone result.last → Needs (H.state host.new)
        (IsInOrder administration.new.database administration.new.lists.lists) }
    ensures open { IsNone result.last → IsOpen unpacks.new.diversions.now.ways administration.new }
    ensures indexed { IsNone result.last → IfSome administration.new.packages
        (ArePackagesOf administration.new.database.records) }
    ensures watched { IsTold W.tells (H.state host.old) watcher.old result.units.items watcher.new }
{
    let mut units = Vec::new(administration.alloc);
    match run_units(host, administration, unpacks, &mut units, watcher) {
        Ok(()) => Report { units, last: None },
        Err(unit) => Report {
            units,
            last: Some(unit),
        },
    }
}

/// The units of trees, each read once the unit of the one before it is told, up to one that is broken off. The labels are those
/// of the trees whose units are told.
pub(crate) fn unpack_trees<H: Host, T: Trees, W: Watcher>(
    host: &mut H,
    administration: &mut Administration,
    diversions: &mut Diversions,
    trees: &mut T,
    allowed: UnpackOptions,
    labels: &mut Texts,
    watcher: &mut W,
) -> Report
    requires none { labels.old ≡ [] }
    requires order { Needs (H.state host.old)
        (IsInOrder administration.old.database administration.old.lists.lists) }
    requires open { IsOpen diversions.old.ways administration.old }
    requires indexed { IfSome administration.old.packages
        (ArePackagesOf administration.old.database.records) }
    ensures run { (cs : List ACandidate) × AreRead T.reads trees.old cs trees.new
        × HasRunThrough allowed cs (T.words trees.new) result
        (held_by administration.old diversions.old) (held_by administration.new diversions.new)
        (H.state host.old) (H.state host.new) × (IsNone result.last
        → labels.new ≡ map label_of cs) }
    ensures writable { StaysWritable diversions.old diversions.new }
    ensures told { TellsCalls (H.state host.old) (H.state host.new) result }
    ensures counts { CountsLast (H.state host.old) (H.state host.new) result.last }
    ensures not_closed { IfSome result.last (λ unit. IsBrokenBy Closed unit.reply → ⊥) }
    ensures abandoned { IfSome result.last (λ unit. IsBrokenBy Abandoned unit.reply
        → IsTrue (W.ends watcher.new)) }
    ensures order { IsNone result.last → Needs (H.state host.new)
        (IsInOrder administration.new.database administration.new.lists.lists) }
    ensures open { IsNone result.last → IsOpen diversions.new.ways administration.new }
    ensures indexed { IsNone result.last → IfSome administration.new.packages
        (ArePackagesOf administration.new.database.records) }
    ensures watched { IsTold W.tells (H.state host.old) watcher.old result.units.items watcher.new }
{
    let mut unpacks = Unpacks {
        trees,
        labels,
        diversions,
        allowed,
    };
    take_trees(host, administration, &mut unpacks, watcher)
}
