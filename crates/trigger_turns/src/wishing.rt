// The wishes for triggers that are pending, and what is to be done in the turn of a package.
ghost use Rattle.std.specs.Prelude.{◌≡◌, ◌∷◌, [], ℕ, List, None, map, IfOk, MatchOption, OnOk};
ghost use Rattle.trigger_chains.specs.Steps.{new_steps};
ghost use Rattle.trigger_chains.specs.Wishes.{first_package, mine, with_wishes};
ghost use Rattle.trigger_chains.specs.declared.wishes.Wish.{Wish as AWish};
ghost use Rattle.trigger_turns.specs.Turns.{IsPrepared, IsWay, first_wishes, giving_up, pending_owners, pending_steps, step_by};

use dpkg_session::{Change, PendingTrigger, RecordChange, Session};
use host_core::Host;
use std::alloc::{AllocError, Global};
use texts::Text;
use trigger_chains::{
    Chain, Step, Wish, add_wishes, chain_behind, divide, first_looped, new_steps, package_of,
    steps_by,
};

/// What is to be done in the turn of a package.
#[derive(Drop)]
pub(crate) enum Way {
    /// Its triggers lead to themselves: it is given up.
    GiveUp(Vec<RecordChange>),
    /// They are processed, and what is asked for meanwhile is wished for with this chain.
    Process(Vec<Text>, Chain),
}

/// A turn before it is taken, and the wishes of other packages.
#[derive(Drop)]
pub(crate) struct Prepared {
    pub(crate) way: Way,
    pub(crate) others: Vec<Wish>,
}

fn steps_of(alloc: Global, pending: Vec<PendingTrigger>) -> Result<Vec<Step>, AllocError>
    ensures { IfOk result (λ steps. steps.items ≡ map step_by pending.items) }
{
    let mut steps = Vec::new(alloc);
    for one in pending {
        let PendingTrigger { package, trigger } = one;
        steps.push(Step { package, trigger })?;
    }
    Ok(steps)
}

// What is pending.
pub(crate) fn pending_steps<H: Host>(
    alloc: Global,
    session: &Session<H>,
) -> Result<Vec<Step>, AllocError>
    ensures { IfOk result (λ steps. steps.items
        ≡ pending_steps session.now.administration.database.records) }
{
    let pending = session.pending_triggers()?;
    steps_of(alloc, pending)
}

fn owners_of(alloc: Global, pending: Vec<PendingTrigger>) -> Result<Vec<Text>, AllocError>
    ensures { IfOk result (λ names. names.items ≡ map (λ p. p.«package») pending.items) }
{
    let mut names = Vec::new(alloc);
    for one in pending {
        names.push(one.package)?;
    }
    Ok(names)
}

/// The packages of which something is pending, in name order.
pub fn pending_owners<H: Host>(alloc: Global, session: &Session<H>) -> Result<Vec<Text>, AllocError>
    ensures { IfOk result (λ names. names.items
        ≡ pending_owners session.now.administration.database.records) }
{
    let pending = session.pending_triggers()?;
    owners_of(alloc, pending)
}

fn wishes_for<H: Host>(
    alloc: Global,
    session: &Session<H>,
    names: Vec<Text>,
) -> Result<Vec<Wish>, AllocError>
    ensures { IfOk result (λ wishes. wishes.items
        ≡ first_wishes names.items session.now.administration.database.records) }
{
    let chain = Chain::new(alloc);
    let steps = pending_steps(alloc, session)?;
    let ordered = steps_by(alloc, names.as_slice(), steps.as_slice())?;
    let mut wishes = Vec::new(alloc);
    add_wishes(&chain, &mut wishes, ordered)?;
    Ok(wishes)
}

pub(crate) fn first_wishes<H: Host>(
    alloc: Global,
    session: &Session<H>,
    names: Result<Vec<Text>, AllocError>,
) -> Result<Vec<Wish>, AllocError>
    ensures { (order : List (List ℕ)) → IfOk names (λ copies. copies.items ≡ order)
        → IfOk result (λ wishes. wishes.items
        ≡ first_wishes order session.now.administration.database.records) }
{
    match names {
        Ok(names) => wishes_for(alloc, session, names),
        Err(fault) => Err(fault),
    }
}

// Wishes for what has become pending since, by what led to the turn.
pub(crate) fn wish_for_new<H: Host>(
    alloc: Global,
    session: &Session<H>,
    chain: &Chain,
    before: &[Step],
    wishes: &mut Vec<Wish>,
) -> Result<(), AllocError>
    ensures { OnOk result (wishes.new.items ≡ with_wishes chain.now wishes.old.items
        (new_steps before.now (pending_steps session.now.administration.database.records))) }
{
    let now = pending_steps(alloc, session)?;
    let more = new_steps(alloc, before, now.as_slice())?;
    add_wishes(chain, wishes, more)
}

fn one_name(alloc: Global, name: Text) -> Result<Vec<Text>, AllocError>
    ensures { IfOk result (λ names. names.items ≡ name ∷ []) }
{
    let mut names = Vec::new(alloc);
    names.push(name)?;
    Ok(names)
}

fn giving_up(alloc: Global, name: Text, trigger: Text) -> Result<Vec<RecordChange>, AllocError>
    ensures { IfOk result (λ changes. changes.items ≡ giving_up name trigger ∷ []) }
{
    let mut changes = Vec::new(alloc);
    changes.push(RecordChange {
        name,
        change: Change::Abandon(trigger),
    })?;
    Ok(changes)
}

fn way_of(alloc: Global, name: Text, own: &[Wish]) -> Result<Way, AllocError>
    ensures { (wishes : List AWish) → own.now ≡ mine name wishes
        → IfOk result (IsWay name wishes) }
{
    match first_looped(own)? {
        Some(trigger) => Ok(Way::GiveUp(giving_up(alloc, name, trigger)?)),
        None => Ok(Way::Process(one_name(alloc, name)?, chain_behind(alloc, own)?)),
    }
}

// The next turn; none where nothing is wished for.
pub(crate) fn prepare(alloc: Global, wishes: Vec<Wish>) -> Result<Option<Prepared>, AllocError>
    ensures { IfOk result (λ next. MatchOption next (first_package wishes.items ≡ None)
        (IsPrepared wishes.items)) }
{
    let name = match package_of(wishes.as_slice()) {
        Some(name) => name.copy()?,
        None => return Ok(None),
    };
    let both = divide(alloc, &name, wishes)?;
    let way = way_of(alloc, name, both.mine.as_slice())?;
    Ok(Some(Prepared {
        way,
        others: both.others,
    }))
}
