// Which rows an unpack has.
ghost use Rattle.std.specs.Prelude.{◌≡◌, ◌++◌, IfOk, OnOk, map};
ghost use Rattle.std.specs.Option.{option_copied};
ghost use Rattle.unpack_rows.specs.ForwardRows.{records_of};
ghost use Rattle.unpack_rows.specs.declared.kinds.RowKind.TheVariants as kind;
ghost use Rattle.unpack_rows.specs.Kinds.{first_kinds, has_prerm, is_upgrade, kinds_of, last_kinds, own_of, state_of};

use crate::rows::OtherPackage;
use status_records::{Record, State};
use std::alloc::{AllocError, Global};

/// Whose row it is and which: the old prerm; that of another package, which is deconfigured or
/// whose prerm is called since it conflicts; the new preinst; the files; the old postrm.
#[derive(Drop)]
pub enum RowKind {
    Prerm,
    Other(Record),
    Preinst,
    Files,
    Postrm,
}

pub(crate) fn state_of(start: Option<&Record>) -> State
    ensures { result ≡ state_of (option_copied start.entry) }
{
    match start {
        None => State::NotInstalled,
        Some(record) => record.state,
    }
}

pub(crate) fn own_of<'a>(start: Option<&'a Record>, incoming: &'a Record) -> &'a Record
    ensures { result.now ≡ own_of (option_copied start.entry) incoming.now }
{
    match start {
        None => incoming,
        Some(record) => record,
    }
}

pub(crate) fn has_prerm(state: State) -> bool
    ensures { result ≡ has_prerm state }
{
    match state {
        State::NotInstalled => false,
        State::ConfigFiles => false,
        State::HalfInstalled => false,
        State::Unpacked => false,
        State::HalfConfigured => true,
        State::Installed => true,
    }
}

pub(crate) fn is_upgrade(state: State) -> bool
    ensures { result ≡ is_upgrade state }
{
    match state {
        State::NotInstalled => false,
        State::ConfigFiles => false,
        State::HalfInstalled => true,
        State::Unpacked => true,
        State::HalfConfigured => true,
        State::Installed => true,
    }
}

// The row before those of other packages.
fn first_kinds(alloc: Global, state: State) -> Result<Vec<RowKind>, AllocError>
    ensures { IfOk result (λ kinds. kinds.items ≡ first_kinds (has_prerm state)) }
{
    let mut kinds = Vec::new(alloc);
    if has_prerm(state) {
        kinds.push(RowKind::Prerm)?;
    }
    Ok(kinds)
}

fn push_others(kinds: &mut Vec<RowKind>, others: &[OtherPackage]) -> Result<(), AllocError>
    ensures { OnOk result (kinds.new.items ≡ kinds.old.items ++ map (λ r. kind.Other r)
        (records_of others.now)) }
{
    for other in others {
        kinds.push(RowKind::Other(other.record.copy()?))?;
    }
    Ok(())
}

// The rows behind those of other packages.
fn push_last(kinds: &mut Vec<RowKind>, state: State) -> Result<(), AllocError>
    ensures { OnOk result (kinds.new.items ≡ kinds.old.items ++ last_kinds (is_upgrade state)) }
{
    kinds.push(RowKind::Preinst)?;
    kinds.push(RowKind::Files)?;
    if is_upgrade(state) {
        kinds.push(RowKind::Postrm)?;
    }
    Ok(())
}

/// The rows of an unpack that finds this record of the package, in the order in which they are made.
pub fn kinds_of(
    alloc: Global,
    start: Option<&Record>,
    others: &[OtherPackage],
) -> Result<Vec<RowKind>, AllocError>
    ensures { IfOk result (λ kinds. kinds.items ≡ kinds_of (option_copied start.entry)
        (records_of others.now)) }
{
    let state = state_of(start);
    let mut kinds = first_kinds(alloc, state)?;
    push_others(&mut kinds, others)?;
    push_last(&mut kinds, state)?;
    Ok(kinds)
}
