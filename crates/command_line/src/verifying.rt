// Packages that are verified: the root is looked at, as for a question, and a tree is read.
ghost use Rattle.std.specs.Prelude.{◌≡◌, ◌≢◌, ◌≤◌, ◌↔◌, ℕ, [], IfErr, IfOk, IsTrue, List, Result};
ghost use Rattle.host_core.specs.Host.{Reads, Silent, State};
ghost use Rattle.host_core.specs.Paths.{Path};
ghost use Rattle.inquiries.specs.Read.{FindsAll, IsAllDamage};
ghost use Rattle.opening.specs.Parts.{fault_in};
ghost use Rattle.verification.specs.Counting.{CountsVerified};
ghost use Rattle.command_line.specs.Roots.{around};
ghost use Rattle.command_line.specs.Verifying.{HasCheckedUnder, HasComparedUnder, HasVerifiedUnder, IsChecked, IsComparedOn, IsLeftUnverifiedOn, IsUnverified, IsVerifiedBetween, IsVerifiedOn, tree_answer, verified_answer};

use crate::answer::{Answer, printed, told};
use crate::hosts::Hosts;
use crate::reading::read_package;
use crate::shown::Shown;
use crate::steady::{Unanswered, settle};
use administration::AdministrationFault;
use command_words::TreeOwners;
use host_core::{Host, HostFault};
use inquiries::Glance;
use package_tree::{Package, TreeFault};
use report_lines::unit_text;
use std::alloc::{AllocError, Global};
use texts::{Text, Texts};
use unit_reports::{Rule, refused};
use verification::{Verified, verify, verify_tree};

fn verified_answer(alloc: Global, verified: Verified) -> Answer
    requires { IsTrue verified.differs ↔ (verified.text ≢ []) }
    ensures answer { result ≡ verified_answer verified.text }
    ensures bound { result.status ≤ 2 }
{
    let status = if verified.differs { 1 } else { 0 };
    told(alloc, verified.text, status)
}

/// What is verified: packages, all where none is named, by what was known of them when they were installed, or the package of a
/// tree against the tree.
#[derive(Drop)]
pub(crate) enum Checking {
    Listed(Texts),
    Shipped(Package),
}

fn check<H: Host>(
    alloc: Global,
    host: &mut H,
    asked: &Checking,
) -> Result<Verified, AdministrationFault>
    ensures told { IfOk result
        (λ v. IsChecked asked.now (H.state host.old) (H.state host.new) v.text) }
    ensures differs { IfOk result (λ v. IsTrue v.differs ↔ (v.text ≢ [])) }
    ensures finds { IsTrue (H.state host.new).honest
        → FindsAll (H.state host.old).world (fault_in result) }
    ensures reads { Reads (H.state host.old) (H.state host.new) }
    ensures silent { Silent (H.state host.old) (H.state host.new) }
    ensures counts { CountsVerified (H.state host.old) (H.state host.new) result }
{
    match asked {
        Checking::Listed(names) => verify(alloc, host, names.as_slice()),
        Checking::Shipped(package) => verify_tree(alloc, host, package),
    }
}

// The answer from what stands on a host.
fn look_over<H: Host>(
    alloc: Global,
    host: &mut H,
    asked: &Checking,
) -> Result<Answer, AdministrationFault>
    ensures answer { IfOk result (IsVerifiedBetween asked.now (H.state host.old)
        (H.state host.new)) }
    ensures bound { IfOk result (λ answer. answer.status ≤ 2) }
    ensures damage { IsTrue (H.state host.new).honest
        → IfErr result (IsAllDamage (H.state host.old).world) }
    ensures reads { Reads (H.state host.old) (H.state host.new) }
    ensures silent { Silent (H.state host.old) (H.state host.new) }
    ensures counts { CountsVerified (H.state host.old) (H.state host.new) result }
{
    match check(alloc, host, asked) {
        Ok(verified) => Ok(verified_answer(alloc, verified)),
        Err(fault) => Err(fault),
    }
}

/// The host of a root whose packages are verified.
struct Verifier<H: Host> {
    host: H,
}

impl<H: Host> Shown for Verifier<H> {
    type Asked = Checking;

    ghost use Rattle.std.specs.Prelude.{true};
    ghost use Rattle.command_line.specs.Queries.{HasMissed, HasShown};
    ghost use Rattle.command_line.specs.Verifying.{HasVerified};

    ghost glanced = { λ asked old new glance. HasShown true (H.state old.host) (H.state new.host) glance };

    ghost missed = { λ asked old new fault. HasMissed (H.state old.host) (H.state new.host) fault };

    ghost answered = { λ asked old new result. HasVerified asked (H.state old.host) (H.state new.host) result };

    fn glance(&mut self, alloc: Global, _asked: &Checking) -> Result<Glance, HostFault> {
        Glance::take(alloc, &mut self.host, true)
    }

    fn answer(&mut self, alloc: Global, asked: &Checking) -> Result<Answer, AdministrationFault> {
        look_over(alloc, &mut self.host, asked)
    }
}

// The answer from the host of the root, which is given back.
fn verify_on<S: Hosts>(
    alloc: Global,
    hosts: &mut S,
    host: S::Opened,
    asked: &Checking,
) -> Result<Answer, Unanswered>
    ensures answer { IfOk result (IsVerifiedOn (S.left hosts.new) (S.Opened.state host) asked.now) }
    ensures bound { IfOk result (λ answer. answer.status ≤ 2) }
    ensures refused { IfErr result (IsLeftUnverifiedOn (S.left hosts.new) (S.Opened.state host)) }
    ensures seen { (s : State) → S.seen hosts.old s → S.seen hosts.new s }
    ensures full { (word : List ℕ) (path : Path) → S.full hosts.old word path
        → S.full hosts.new word path }
    ensures faults { S.faults hosts.old ≤ S.faults hosts.new }
    ensures below { S.below hosts.new ≡ S.below hosts.old }
{
    let mut verifier = Verifier { host };
    let answer = settle(alloc, &mut verifier, asked);
    let Verifier { host } = verifier;
    hosts.close_root(host);
    answer
}

// The answer under the root, or why there is none. Want of memory for the answer is told likewise.
fn verify_under<S: Hosts>(
    alloc: Global,
    hosts: &mut S,
    root: &Text,
    asked: &Checking,
) -> Result<Answer, Unanswered>
    ensures answer { IfOk result (HasVerifiedUnder (around S.Hosts hosts.old hosts.new) root.now
        asked.now) }
    ensures bound { IfOk result (λ answer. answer.status ≤ 2) }
    ensures refused { IfErr result (IsUnverified (around S.Hosts hosts.old hosts.new) root.now) }
    ensures below { S.below hosts.new ≡ S.below hosts.old }
{
    match hosts.look_at_root(root.as_str()) {
        Ok(host) => verify_on(alloc, hosts, host, asked),
        Err(fault) => Err(Unanswered::Fault(AdministrationFault::from(fault))),
    }
}

// A tree that can't be read is refused, as where it is to be unpacked.
fn tree_answer(alloc: Global, word: &Text, fault: TreeFault) -> Result<Answer, AllocError>
    ensures answer { IfOk result (λ answer. answer ≡ tree_answer word.now fault) }
    ensures bound { IfOk result (λ answer. answer.status ≤ 2) }
{
    let unit = refused(alloc, Rule::Tree(fault), word.copy()?);
    let text = unit_text(alloc, &unit)?;
    Ok(printed(alloc, text, 1))
}

// The same, with the host of the root given back.
fn refuse_on<S: Hosts>(
    alloc: Global,
    hosts: &mut S,
    host: S::Opened,
    word: &Text,
    fault: TreeFault,
) -> Result<Answer, Unanswered>
    ensures answer { IfOk result (λ answer. answer ≡ tree_answer word.now fault) }
    ensures bound { IfOk result (λ answer. answer.status ≤ 2) }
    ensures refused { IfErr result (IsLeftUnverifiedOn (S.left hosts.new) (S.Opened.state host)) }
    ensures given { S.left hosts.new (S.Opened.state host) }
    ensures seen { (s : State) → S.seen hosts.old s → S.seen hosts.new s }
    ensures full { (word : List ℕ) (path : Path) → S.full hosts.old word path
        → S.full hosts.new word path }
    ensures faults { S.faults hosts.old ≤ S.faults hosts.new }
    ensures below { S.below hosts.new ≡ S.below hosts.old }
{
    hosts.close_root(host);
    match tree_answer(alloc, word, fault) {
        Ok(answer) => Ok(answer),
        Err(_) => Err(Unanswered::Fault(AdministrationFault::NoMemory)),
    }
}

// The tree is read while the host of the root is open.
fn compare_on<S: Hosts>(
    alloc: Global,
    hosts: &mut S,
    host: S::Opened,
    word: &Text,
    owners: TreeOwners,
) -> Result<Answer, Unanswered>
    ensures answer { IfOk result (IsComparedOn (around S.Hosts hosts.old hosts.new)
        (S.Opened.state host) word.now owners) }
    ensures bound { IfOk result (λ answer. answer.status ≤ 2) }
    ensures refused { IfErr result (IsLeftUnverifiedOn (S.left hosts.new) (S.Opened.state host)) }
    ensures faults { S.faults hosts.old ≤ S.faults hosts.new }
    ensures below { S.below hosts.new ≡ S.below hosts.old }
{
    match read_package(alloc, hosts, owners, word.as_str()) {
        Ok(package) => verify_on(alloc, hosts, host, &Checking::Shipped(package)),
        Err(fault) => refuse_on(alloc, hosts, host, word, fault),
    }
}

fn compare_under<S: Hosts>(
    alloc: Global,
    hosts: &mut S,
    root: &Text,
    word: &Text,
    owners: TreeOwners,
) -> Result<Answer, Unanswered>
    ensures answer { IfOk result (HasComparedUnder (around S.Hosts hosts.old hosts.new) root.now
        word.now owners) }
    ensures bound { IfOk result (λ answer. answer.status ≤ 2) }
    ensures refused { IfErr result (IsUnverified (around S.Hosts hosts.old hosts.new) root.now) }
    ensures below { S.below hosts.new ≡ S.below hosts.old }
{
    match hosts.look_at_root(root.as_str()) {
        Ok(host) => compare_on(alloc, hosts, host, word, owners),
        Err(fault) => Err(Unanswered::Fault(AdministrationFault::from(fault))),
    }
}

/// The answer by the names of packages, or by the tree where one is given; or why there is none.
pub(crate) fn check_under<S: Hosts>(
    alloc: Global,
    hosts: &mut S,
    root: &Text,
    names: Texts,
    tree: Option<Text>,
    owners: TreeOwners,
) -> Result<Answer, Unanswered>
    ensures answer { IfOk result (HasCheckedUnder (around S.Hosts hosts.old hosts.new) root.now
        names tree owners) }
    ensures bound { IfOk result (λ answer. answer.status ≤ 2) }
    ensures refused { IfErr result (IsUnverified (around S.Hosts hosts.old hosts.new) root.now) }
    ensures below { S.below hosts.new ≡ S.below hosts.old }
{
    match tree {
        Some(word) => compare_under(alloc, hosts, root, &word, owners),
        None => verify_under(alloc, hosts, root, &Checking::Listed(names)),
    }
}
