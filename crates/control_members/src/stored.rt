// The control files that are stored in `info/` with a package.
ghost use Rattle.std.specs.Prelude.{◌≡◌, ◌++◌, ◌∷◌, ◌&&◌, ◌↔◌, not, true, ℕ, List, IfOk, IfSome, IfNone, is_some, Contains};
ghost use Rattle.std.specs.BTreeSet.{contains_text};
ghost use Rattle.std.specs.Str.{bytes_eq};
ghost use Rattle.host_core.specs.Outcome.{script_name};
ghost use Rattle.host_core.specs.declared.call.Script.TheVariants.{Postrm};
ghost use Rattle.texts.specs.PackageNames.{is_package_name};
ghost use Rattle.host_core.specs.Host.{AtEachMoment, Counts, Leaves, Needs, Silent};
ghost use Rattle.host_core.specs.Looks.{Looks};
ghost use Rattle.administration.specs.Files.{IsReplaced, IsReplacing, IsDropped, IsDropping};
ghost use Rattle.control_members.specs.Names.{is_member_name};
ghost use Rattle.control_members.specs.Members.{AreInOrder, names_of, member_node};
ghost use Rattle.control_members.specs.Stored.{stored_member_path, AreMemberNames, AreStoredNames, IsMembersReady, AreReplaced, AreReplacing, AreTaken, AreTaking, goes, is_among};
ghost use Rattle.control_members.specs.Written.{AreWritten, AreWriting};

use crate::member::Member;
use crate::members::Members;
use crate::names::is_member_name;
use administration::{INFO, discard, replace};
use host_core::{Host, HostFault, RootPath, Script};
use std::alloc::{AllocError, Global};
use std::collections::BTreeSet;
use texts::{Text, Texts};

// Which control file of a package an entry of `info/` is.
fn member_in<'a>(owner: &Text, entry: &'a Text) -> Option<&'a str>
    ensures some { IfSome result (λ name. (entry.entry.now ≡ owner.now ++ 46 ∷ name.now)
        × (is_member_name name.now ≡ true)) }
    ensures none { IfNone result ((name : List ℕ) → is_member_name name ≡ true
        → entry.entry.now ≡ owner.now ++ 46 ∷ name → ⊥) }
{
    let Some(rest) = entry.as_str().strip_prefix(owner.as_str()) else {
        return None;
    };
    let Some(name) = rest.strip_prefix('.') else {
        return None;
    };
    if is_member_name(name) {
        return Some(name);
    }
    None
}

fn sorted_among(
    alloc: Global,
    owner: &Text,
    entries: &[Text],
) -> Result<BTreeSet<String>, AllocError>
    ensures { IfOk result (λ set. (name : List ℕ) → contains_text set name
        ≡ (is_member_name name && is_among entries.now (owner.now ++ 46 ∷ name))) }
{
    let mut set = BTreeSet::new(alloc);
    for entry in entries {
        if let Some(name) = member_in(owner, entry) {
            set.insert(String::from_str(alloc, name)?)?;
        }
    }
    Ok(set)
}

// The control files of a package among the entries of `info/`.
fn names_among(alloc: Global, owner: &Text, entries: &[Text]) -> Result<Texts, AllocError>
    ensures order { IfOk result AreInOrder }
    ensures exact { IfOk result (λ names. (name : List ℕ) → Contains names name
        ↔ ((is_member_name name && is_among entries.now (owner.now ++ 46 ∷ name)) ≡ true)) }
{
    let mut set = sorted_among(alloc, owner, entries)?;
    let mut names = Texts::new(alloc);
    while let Some(name) = set.pop_first() {
        names.push(Text::new(name))?;
    }
    Ok(names)
}

/// The names of the control files that are stored with a package, in order.
pub fn stored_names<H: Host>(alloc: Global, host: &mut H, owner: &Text) -> Result<Texts, HostFault>
    requires named { is_package_name owner.now ≡ true }
    ensures looks { Looks result (λ names w. AreStoredNames w owner.now names) (H.state host.old)
        (H.state host.new) }
    ensures members { IfOk result AreMemberNames }
{
    let info = RootPath::from_str(alloc, INFO)?;
    let listing = host.list(&info)?;
    Ok(names_among(alloc, owner, listing.names.as_slice())?)
}

// Where a control file of a package is stored.
fn stored_path(alloc: Global, owner: &Text, name: &Text) -> Result<RootPath, AllocError>
    requires owner { is_package_name owner.now ≡ true }
    requires name { is_member_name name.now ≡ true }
    ensures { IfOk result (λ p. p ≡ stored_member_path owner.now name.now) }
{
    let mut text = String::from_str(alloc, "/var/lib/dpkg/info/")?;
    text.push_str(owner.as_str())?;
    text.push('.')?;
    text.push_str(name.as_str())?;
    Ok(RootPath::new(text))
}

fn put_member<H: Host>(
    alloc: Global,
    host: &mut H,
    owner: &Text,
    member: &Member,
) -> Result<(), HostFault>
    requires named { is_package_name owner.now ≡ true }
    requires ready { Needs (H.state host.old) (IsMembersReady owner.now) }
    ensures put { Leaves result (IsReplaced (stored_member_path owner.now member.now.name)
        member.now.node) (H.state host.old) (H.state host.new) }
    ensures any_moment { AtEachMoment (IsReplacing (stored_member_path owner.now member.now.name)
        member.now.node) (H.state host.old) (H.state host.new) }
    ensures silent { Silent (H.state host.old) (H.state host.new) }
    ensures counts { Counts (H.state host.old) (H.state host.new) result }
{
    let path = stored_path(alloc, owner, &member.name)?;
    replace(host, &path, &member.node)
}

// Writes each of them, over what stands under its name.
fn put_members<H: Host>(
    alloc: Global,
    host: &mut H,
    owner: &Text,
    members: &[Member],
) -> Result<(), HostFault>
    requires named { is_package_name owner.now ≡ true }
    requires order { AreInOrder (names_of members.now) }
    requires ready { Needs (H.state host.old) (IsMembersReady owner.now) }
    ensures put { Leaves result (AreWritten owner.now members.now) (H.state host.old)
        (H.state host.new) }
    ensures any_moment { AtEachMoment (AreWriting owner.now members.now) (H.state host.old)
        (H.state host.new) }
    ensures silent { Silent (H.state host.old) (H.state host.new) }
    ensures counts { Counts (H.state host.old) (H.state host.new) result }
{
    for member in members {
        put_member(alloc, host, owner, member)?;
    }
    Ok(())
}

fn discard_member<H: Host>(
    alloc: Global,
    host: &mut H,
    owner: &Text,
    name: &Text,
) -> Result<(), HostFault>
    requires named { is_package_name owner.now ≡ true }
    requires member { is_member_name name.now ≡ true }
    requires ready { Needs (H.state host.old) (IsMembersReady owner.now) }
    ensures dropped { Leaves result (IsDropped (stored_member_path owner.now name.now))
        (H.state host.old) (H.state host.new) }
    ensures any_moment { AtEachMoment (IsDropping (stored_member_path owner.now name.now))
        (H.state host.old) (H.state host.new) }
    ensures silent { Silent (H.state host.old) (H.state host.new) }
    ensures counts { Counts (H.state host.old) (H.state host.new) result }
{
    let path = stored_path(alloc, owner, name)?;
    discard(host, &path)
}

// Removes the old ones whose names no new one has.
fn discard_lacking<H: Host>(
    alloc: Global,
    host: &mut H,
    owner: &Text,
    new: &Members,
    old: &[Text],
) -> Result<(), HostFault>
    requires named { is_package_name owner.now ≡ true }
    requires members { AreMemberNames old.now }
    requires ready { Needs (H.state host.old) (IsMembersReady owner.now) }
    ensures taken { Leaves result (AreTaken owner.now (λ name. is_among old.now name
        && not (is_some (member_node new.now name)))) (H.state host.old) (H.state host.new) }
    ensures any_moment { AtEachMoment (AreTaking owner.now (λ name. is_among old.now name
        && not (is_some (member_node new.now name)))) (H.state host.old) (H.state host.new) }
    ensures silent { Silent (H.state host.old) (H.state host.new) }
    ensures counts { Counts (H.state host.old) (H.state host.new) result }
{
    for name in old {
        if new.find(name).is_some() {
            continue;
        }
        discard_member(alloc, host, owner, name)?;
    }
    Ok(())
}

/// Stores the new control files of a package in the place of the old ones, which are given by their names: each is written
/// aside and renamed, then the old ones go whose names no new one has.
pub fn replace_members<H: Host>(
    alloc: Global,
    host: &mut H,
    owner: &Text,
    new: &Members,
    old: &[Text],
) -> Result<(), HostFault>
    requires named { is_package_name owner.now ≡ true }
    requires members { AreMemberNames old.now }
    requires ready { Needs (H.state host.old) (IsMembersReady owner.now) }
    ensures replaced { Leaves result (AreReplaced owner.now new.now old.now) (H.state host.old)
        (H.state host.new) }
    ensures any_moment { AtEachMoment (AreReplacing owner.now new.now old.now) (H.state host.old)
        (H.state host.new) }
    ensures silent { Silent (H.state host.old) (H.state host.new) }
    ensures counts { Counts (H.state host.old) (H.state host.new) result }
{
    new.law();
    put_members(alloc, host, owner, new.as_slice())?;
    discard_lacking(alloc, host, owner, new, old)
}

// Whether the one of a name stays.
fn stays(name: &Text, keep_postrm: bool) -> bool
    ensures { result ≡ (keep_postrm && bytes_eq name.now (script_name Postrm)) }
{
    keep_postrm && name.as_str() == Script::Postrm.name()
}

/// Removes the stored control files of these names; all but the postrm, where that is to stay.
pub fn discard_members<H: Host>(
    alloc: Global,
    host: &mut H,
    owner: &Text,
    names: &[Text],
    keep_postrm: bool,
) -> Result<(), HostFault>
    requires named { is_package_name owner.now ≡ true }
    requires members { AreMemberNames names.now }
    requires ready { Needs (H.state host.old) (IsMembersReady owner.now) }
    ensures taken { Leaves result (AreTaken owner.now (goes names.now keep_postrm))
        (H.state host.old) (H.state host.new) }
    ensures any_moment { AtEachMoment (AreTaking owner.now (goes names.now keep_postrm))
        (H.state host.old) (H.state host.new) }
    ensures silent { Silent (H.state host.old) (H.state host.new) }
    ensures counts { Counts (H.state host.old) (H.state host.new) result }
{
    for name in names {
        if stays(name, keep_postrm) {
            continue;
        }
        discard_member(alloc, host, owner, name)?;
    }
    Ok(())
}
