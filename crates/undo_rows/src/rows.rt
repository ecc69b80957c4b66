// Rows of script calls: the calls of one on the way forward, and the call that undoes it (Policy 6.6).
ghost use Rattle.std.specs.Prelude.{◌≡◌, IfOk, OnOk, IsTrue, ◌↔◌, Contains};
ghost use Rattle.host_core.specs.World.{is_kept};
ghost use Rattle.host_core.specs.Host.{AtEachMomentOf, Counts, OnlyScripts};
ghost use Rattle.undo_rows.specs.Transcript.{Begins, IsCall, IsOne, Makes, Tries, TriesRow, UndoesAny, UndoesRow};

use host_core::{Call, Host, HostFault, Keep, Outcome};
use std::alloc::AllocError;
use texts::Text;

/// Whose row it is: a package's, or that of the files.
#[derive(Drop)]
pub enum Owner {
    Package(Text),
    Files,
}

impl Owner {
    fn is(&self, other: &Owner) -> bool
        ensures { IsTrue result ↔ (self.now ≡ other.now) }
    {
        match (self, other) {
            (Owner::Package(name), Owner::Package(other)) => name.is(other),
            (Owner::Files, Owner::Files) => true,
            _ => false,
        }
    }

    fn copy(&self) -> Result<Owner, AllocError>
        ensures { IfOk result (λ owner. owner ≡ self.now) }
    {
        match self {
            Owner::Package(name) => Ok(Owner::Package(name.copy()?)),
            Owner::Files => Ok(Owner::Files),
        }
    }
}

/// A call, what is called where it fails, and what undoes it.
#[derive(Drop)]
pub struct Row {
    pub owner: Owner,
    pub forward: Option<Call>,
    pub fallback: Option<Call>,
    pub undo: Option<Call>,
}

/// A script call that was made, and how it ended.
#[derive(Drop)]
pub struct Called {
    pub call: Call,
    pub outcome: Outcome,
}

/// Makes a call, and tells it.
fn call_script<H: Host>(
    host: &mut H,
    keep: &Keep<'_>,
    call: &Call,
    told: &mut Vec<Called>,
) -> Result<Outcome, HostFault>
    ensures calls { IfOk result
        (λ outcome.
        Makes (is_kept keep.now) (IsOne call.now outcome) (H.state host.old) (H.state host.new)
        told.old.items told.new.items) }
    ensures told { Begins (is_kept keep.now) (IsCall call.now) (H.state host.old) (H.state host.new)
        told.old.items told.new.items }
    ensures any_moment { AtEachMomentOf (OnlyScripts (is_kept keep.now)) (H.state host.old)
        (H.state host.new) }
    ensures counts { Counts (H.state host.old) (H.state host.new) result }
{
    told.reserve(1)?;
    let copy = call.copy()?;
    let outcome = host.run(call, keep)?;
    told.push(Called {
        call: copy,
        outcome,
    })
    .unwrap();
    Ok(outcome)
}

/// The calls of a row on the way forward. The answer is whether it succeeded.
pub fn try_row<H: Host>(
    host: &mut H,
    keep: &Keep<'_>,
    row: &Row,
    told: &mut Vec<Called>,
) -> Result<bool, HostFault>
    ensures calls { IfOk result
        (λ ok.
        Makes (is_kept keep.now) (λ ts. Tries row.now ts ok) (H.state host.old) (H.state host.new)
        told.old.items told.new.items) }
    ensures told { Begins (is_kept keep.now) (TriesRow row.now) (H.state host.old)
        (H.state host.new) told.old.items told.new.items }
    ensures any_moment { AtEachMomentOf (OnlyScripts (is_kept keep.now)) (H.state host.old)
        (H.state host.new) }
    ensures counts { Counts (H.state host.old) (H.state host.new) result }
{
    let Some(forward) = &row.forward else {
        return Ok(true);
    };
    let outcome = call_script(host, keep, forward, told)?;
    if outcome.is_success() {
        return Ok(true);
    }
    let Some(fallback) = &row.fallback else {
        return Ok(false);
    };
    let outcome = call_script(host, keep, fallback, told)?;
    Ok(outcome.is_success())
}

fn contains(owners: &[Owner], owner: &Owner) -> bool
    ensures { IsTrue result ↔ Contains owners.now owner.now }
{
    for one in owners {
        if one.is(owner) {
            return true;
        }
    }
    false
}

/// Undoes a row, unless its owner has a failed undo.
pub fn undo_row<H: Host>(
    host: &mut H,
    keep: &Keep<'_>,
    row: &Row,
    owners: &mut Vec<Owner>,
    told: &mut Vec<Called>,
) -> Result<(), HostFault>
    ensures calls { OnOk result
        (Makes (is_kept keep.now) (λ ts. UndoesRow row.now owners.old.items ts owners.new.items)
        (H.state host.old) (H.state host.new) told.old.items told.new.items) }
    ensures told { Begins (is_kept keep.now) (UndoesAny row.now owners.old.items) (H.state host.old)
        (H.state host.new) told.old.items told.new.items }
    ensures any_moment { AtEachMomentOf (OnlyScripts (is_kept keep.now)) (H.state host.old)
        (H.state host.new) }
    ensures counts { Counts (H.state host.old) (H.state host.new) result }
{
    let Some(undo) = &row.undo else {
        return Ok(());
    };
    if contains(owners, &row.owner) {
        return Ok(());
    }
    owners.reserve(1)?;
    let owner = row.owner.copy()?;
    let outcome = call_script(host, keep, undo, told)?;
    if !outcome.is_success() {
        owners.push(owner).unwrap();
    }
    Ok(())
}
