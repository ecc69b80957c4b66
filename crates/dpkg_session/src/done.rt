// Which packages of an unpack are configured then.
ghost use Rattle.std.specs.Prelude.{◌≡◌, ◌⊎◌, ◌≤◌, ◌++◌, filter, length, IfOk, OnOk};
ghost use Rattle.std.specs.List.{list_any};
ghost use Rattle.dpkg_session.specs.Installs.{done_with, has_lost_files, is_told_lost, is_without_files, label_of, names_done, stays, takes_away};

use crate::report::Candidate;
use status_records::{Record, State};
use std::alloc::{AllocError, Global};
use texts::Text;
use unit_reports::{Reply, Touched, Unit};

/// The package of a candidate, or the word that named a tree that can't be read.
pub(crate) fn label_of(candidate: &Candidate) -> &Text
    ensures { result.now ≡ label_of candidate.now }
{
    match &candidate.tree {
        Ok(incoming) => &incoming.name,
        Err(_) => &candidate.label,
    }
}

fn is_without_files(state: State) -> bool
    ensures { result ≡ is_without_files state }
{
    match state {
        State::NotInstalled | State::ConfigFiles | State::HalfInstalled => true,
        State::Unpacked | State::HalfConfigured | State::Installed => false,
    }
}

fn has_lost_files(entry: &Option<Record>) -> bool
    ensures { result ≡ has_lost_files entry.now }
{
    match entry {
        None => true,
        Some(entry) => is_without_files(entry.state),
    }
}

// Whether this tells of the package of this name that it has no files any more.
fn is_told_lost(name: &Text, told: &Touched) -> bool
    ensures { result ≡ is_told_lost name.now told.now }
{
    name.as_str() == told.package.as_str() && has_lost_files(&told.entry)
}

fn is_lost_among(touched: &[Touched], name: &Text) -> bool
    ensures { result ≡ list_any (is_told_lost name.now) touched.now }
{
    touched.iter().any(|told| is_told_lost(name, told))
}

// Whether the unit of a package tells so of another one.
fn takes_away(label: &Text, unit: &Unit, name: &Text) -> bool
    ensures { result ≡ takes_away label.now unit.now name.now }
{
    name.as_str() != label.as_str() && is_lost_among(unit.touched.as_slice(), name)
}

// How many units have a label.
fn labelled(labels: &[Text], units: &[Unit]) -> usize
    ensures labels { result ≤ length labels.now }
    ensures units { result ≤ length units.now }
    ensures whole { (length labels.now ≤ result) ⊎ (length units.now ≤ result) }
{
    if labels.len() < units.len() {
        labels.len()
    } else {
        units.len()
    }
}

// Whether none of these units takes a package away.
fn stays(labels: &[Text], units: &[Unit], name: &Text) -> bool
    ensures { result ≡ stays labels.now units.now name.now }
{
    for at in 0..labelled(labels, units) {
        if takes_away(&labels[at], &units[at], name) {
            return false;
        }
    }
    true
}

// Adds those of these names that no unit takes away.
fn push_staying(
    names: &mut Vec<Text>,
    labels: &[Text],
    units: &[Unit],
    more: &[Text],
) -> Result<(), AllocError>
    ensures { OnOk result (names.new.items ≡ names.old.items ++ filter (stays labels.now units.now)
        more.now) }
{
    for name in more {
        if stays(labels, units, name) {
            names.push(name.copy()?)?;
        }
    }
    Ok(())
}

// A package whose unit answered Done, and those that were deconfigured for it.
fn done_with(alloc: Global, label: &Text, unit: &Unit) -> Result<Vec<Text>, AllocError>
    ensures { IfOk result (λ done. done.items ≡ done_with label.now unit.now) }
{
    let mut done = Vec::new(alloc);
    match &unit.reply {
        Reply::Done => {
            done.push(label.copy()?)?;
            for name in unit.deconfigured.as_slice() {
                done.push(name.copy()?)?;
            }
        }
        Reply::Refused(_) | Reply::Failed(_) | Reply::Looped(_) | Reply::Broken(_) => {}
    }
    Ok(done)
}

// Adds what a unit has done, but for what one of the later units takes away.
fn push_done(
    alloc: Global,
    names: &mut Vec<Text>,
    label: &Text,
    unit: &Unit,
    labels: &[Text],
    units: &[Unit],
) -> Result<(), AllocError>
    ensures { OnOk result (names.new.items ≡ names.old.items ++ filter (stays labels.now units.now)
        (done_with label.now unit.now)) }
{
    let done = done_with(alloc, label, unit)?;
    push_staying(names, labels, units, done.as_slice())
}

/// Of the units of packages of these names, those that answered Done, each with those that were deconfigured for it, without those
/// that a later unit takes away.
pub(crate) fn names_done(
    alloc: Global,
    labels: &[Text],
    units: &[Unit],
) -> Result<Vec<Text>, AllocError>
    ensures { IfOk result (λ names. names.items ≡ names_done labels.now units.now) }
{
    let mut names = Vec::new(alloc);
    for at in 0..labelled(labels, units) {
        push_done(
            alloc,
            &mut names,
            &labels[at],
            &units[at],
            &labels[at + 1..],
            &units[at + 1..],
        )?;
    }
    Ok(names)
}
