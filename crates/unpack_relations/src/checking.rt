// Whether a tree can be unpacked beside the recorded packages.
ghost use Rattle.std.specs.Prelude.{◌≡◌, false, IfOk, List, option_copied};
ghost use Rattle.recorded_packages.specs.Packages.{ArePackagesOf};
ghost use Rattle.status_records.specs.declared.record.Record.{Record as ARecord};
ghost use Rattle.unpack_relations.specs.Checks.{AreBesideApart, IsChecked, IsCheckedBy, other_architecture};

use crate::beside::{Beside, beside_of};
use crate::ignoring::{checked_ignoring, without_pre_depends};
use crate::incoming::incoming_package;
use crate::options::UnpackOptions;
use crate::refusal::rule_of;
use dependency_check::{CheckFault, check_unpack};
use package_tree::Package;
use recorded_packages::root_architecture;
use relation_index::Packages;
use stated_relations::architecture_of;
use std::alloc::{AllocError, Global};
use texts::Text;
use unit_reports::Rule;

/// What an unpack does to other packages, or the first rule that refuses it.
#[derive(Drop)]
pub enum Checked {
    Refused(Rule),
    Planned(Beside),
}

// Where Depends and Pre-Depends are heeded.
fn checked_heeding(
    alloc: Global,
    packages: &Packages,
    incoming: &relation_index::Package,
    auto_deconfigure: bool,
) -> Result<Checked, AllocError>
    ensures checked { IfOk result (IsCheckedBy false packages.now incoming.now auto_deconfigure) }
    ensures apart { IfOk result (λ checked. (records : List ARecord)
        → ArePackagesOf records packages.now → AreBesideApart incoming.now.name records checked) }
{
    let list = packages.as_slice();
    match check_unpack(alloc, packages, incoming, auto_deconfigure) {
        Ok(plan) => Ok(Checked::Planned(beside_of(alloc, list, incoming, &plan)?)),
        Err(CheckFault::Refused(refusal)) => {
            Ok(Checked::Refused(rule_of(list, incoming, refusal)?))
        }
        Err(CheckFault::NoMemory) => Err(AllocError),
    }
}

// Where they are heeded or ignored.
fn checked_where(
    alloc: Global,
    packages: &Packages,
    incoming: relation_index::Package,
    options: UnpackOptions,
) -> Result<Checked, AllocError>
    ensures checked { IfOk result (IsCheckedBy options.ignore_depends packages.now incoming
        options.auto_deconfigure) }
    ensures apart { IfOk result (λ checked. (records : List ARecord)
        → ArePackagesOf records packages.now → AreBesideApart incoming.name records checked) }
{
    if options.ignore_depends {
        let package = without_pre_depends(alloc, incoming)?;
        let ignoring = checked_ignoring(alloc, packages, &package, options.auto_deconfigure)?;
        return Ok(ignoring);
    }
    let heeding = checked_heeding(alloc, packages, &incoming, options.auto_deconfigure)?;
    Ok(heeding)
}

// The architecture of a package, where it is another one than that of the root.
fn other_architecture<'a>(root: Option<&str>, own: Option<&'a str>) -> Option<&'a str>
    ensures { option_copied result ≡ other_architecture (option_copied root.entry) (option_copied
        own.entry) }
{
    match (root, own) {
        (Some(root), Some(own)) if own != root => Some(own),
        _ => None,
    }
}

/// What the unpack of a tree does to other packages, or the first reason that refuses it: its architecture, or by the packages of
/// the records. They are deconfigured only by leave.
pub fn check(
    alloc: Global,
    packages: &Packages,
    incoming: &Package,
    options: UnpackOptions,
) -> Result<Checked, AllocError>
    ensures checked { IfOk result (λ checked. (records : List ARecord)
        → ArePackagesOf records packages.now → IsChecked records incoming.now options
        checked) }
    ensures apart { IfOk result (λ checked. (records : List ARecord)
        → ArePackagesOf records packages.now → AreBesideApart incoming.now.name records checked) }
{
    let root = root_architecture(packages);
    if let Some(other) = other_architecture(root, architecture_of(&incoming.control)) {
        let other = Text::from_str(alloc, other)?;
        return Ok(Checked::Refused(Rule::Architecture(other)));
    }
    let package = incoming_package(alloc, root, incoming)?;
    let checked = checked_where(alloc, packages, package, options)?;
    Ok(checked)
}
