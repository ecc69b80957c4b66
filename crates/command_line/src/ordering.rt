// The rounds of an install: its trees are looked at first, one after another.
ghost use Rattle.std.specs.Prelude.{◌≡◌, ◌≢◌, ◌++◌, ◌∷◌, ◌<◌, [], IsTrue, List, ℕ, Err, IfOk, OnOk, Option, false, length, map, MatchBool};
ghost use Rattle.std.specs.List.{All};
ghost use Rattle.host_core.specs.Host.{Reads, Silent, State};
ghost use Rattle.package_tree.specs.Fault.{CountsTree};
ghost use Rattle.package_tree.specs.declared.control_file.ControlFile.{ControlFile as AControlFile};
ghost use Rattle.package_tree.specs.declared.fault.TreeFault.TheVariants.{NoMemory};
ghost use Rattle.command_line.specs.Order.{AreLookedAt, AreRoundsOf, HasLooked, IsLookedAs, IsLookedAt, IsOrdered, is_one_round, words_at};
ghost use Rattle.command_line.specs.Reading.{HaveGoneOn};
ghost use Rattle.command_line.specs.Roots.{around};

use crate::fault::TreeOpening;
use crate::hosts::Hosts;
use crate::packages::listed;
use command_words::{TreeOwners, Unpacking};
use dependency_sets::Numbers;
use dpkg_session::Session;
use host_core::Host;
use install_order::rounds_of;
use package_tree::{ControlFile, TreeFault, read_control_file};
use std::alloc::{AllocError, Global};
use texts::Text;

// What a look at the tree finds on which a host was opened.
fn look_on<H: Host>(alloc: Global, host: &mut H) -> Result<ControlFile, TreeFault>
    ensures read { IsTrue (H.state host.new).honest → IsLookedAs (H.state host.old).world result }
    ensures reads { Reads (H.state host.old) (H.state host.new) }
    ensures silent { Silent (H.state host.old) (H.state host.new) }
    ensures counts { CountsTree (H.state host.old) (H.state host.new) result }
{
    match read_control_file(alloc, host) {
        Ok(file) => Ok(file),
        Err(fault) => Err(fault),
    }
}

// What is found for a word, unless memory is wanting; a tree that can't be opened has the fault of that.
fn look<S: Hosts>(
    alloc: Global,
    hosts: &mut S,
    owners: TreeOwners,
    word: &str,
) -> Result<ControlFile, TreeFault>
    ensures read { result ≢ Err NoMemory
        → IsLookedAt (around S.Hosts hosts.old hosts.new) word.now result }
    ensures on { HaveGoneOn S.Hosts hosts.old hosts.new }
{
    match hosts.open_tree(word, owners) {
        Ok(mut host) => {
            let read = look_on(alloc, &mut host);
            hosts.close_tree(host);
            return read;
        }
        Err(TreeOpening::NoRoom(path)) => {
            return Err(TreeFault::NoRoom(path));
        }
        Err(TreeOpening::Host(fault)) => {
            return Err(TreeFault::from(fault));
        }
    }
}

fn is_want_of_memory(fault: &TreeFault) -> bool
    ensures { MatchBool result (fault.now ≡ NoMemory) (fault.now ≢ NoMemory) }
{
    match fault {
        TreeFault::NoMemory => true,
        _ => false,
    }
}

fn look_at<S: Hosts>(
    alloc: Global,
    hosts: &mut S,
    owners: TreeOwners,
    word: &str,
) -> Result<Option<ControlFile>, AllocError>
    ensures read { IfOk result (HasLooked (around S.Hosts hosts.old hosts.new) word.now) }
    ensures on { HaveGoneOn S.Hosts hosts.old hosts.new }
{
    match look(alloc, hosts, owners, word) {
        Ok(file) => Ok(Some(file)),
        Err(fault) => {
            if is_want_of_memory(&fault) {
                return Err(AllocError);
            }
            Ok(None)
        }
    }
}

// What is found for words, one after another.
fn look_at_all<S: Hosts>(
    alloc: Global,
    hosts: &mut S,
    owners: TreeOwners,
    words: &[Text],
    looked: &mut Vec<Option<ControlFile>>,
) -> Result<(), AllocError>
    ensures looked { OnOk result ((more : List (Option AControlFile))
        × (looked.new.items ≡ looked.old.items ++ more)
        × AreLookedAt (around S.Hosts hosts.old hosts.new) words.now more) }
    ensures on { HaveGoneOn S.Hosts hosts.old hosts.new }
{
    let Some((word, words)) = words.split_first() else {
        return Ok(());
    };
    let Ok(found) = look_at(alloc, hosts, owners, word.as_str()) else {
        return Err(AllocError);
    };
    if looked.push(found).is_err() {
        return Err(AllocError);
    }
    look_at_all(alloc, hosts, owners, words, looked)
}

// The words of a round, by their numbers.
fn words_at(alloc: Global, words: &[Text], round: &[usize]) -> Result<Vec<Text>, AllocError>
    requires { All (λ x. x < length words.now) round.now }
    ensures { IfOk result (λ copies. copies.items ≡ words_at words.now round.now) }
{
    let mut copies = Vec::new(alloc);
    for number in round {
        copies.push(words[*number].copy()?)?;
    }
    Ok(copies)
}

fn all_words_at(
    alloc: Global,
    words: &[Text],
    rounds: &[Numbers],
) -> Result<Vec<Vec<Text>>, AllocError>
    requires { All (All (λ x. x < length words.now)) rounds.now }
    ensures { IfOk result (λ copies. map (λ v. v.items) copies.items
        ≡ map (words_at words.now) rounds.now) }
{
    let mut copies = Vec::new(alloc);
    for round in rounds {
        copies.push(words_at(alloc, words, round.as_slice())?)?;
    }
    Ok(copies)
}

fn is_one_round(asked: &Unpacking) -> bool
    ensures { result ≡ is_one_round asked.now }
{
    asked.as_given || asked.trees.as_slice().len() <= 1
}

fn one_round(alloc: Global, words: &[Text]) -> Result<Vec<Vec<Text>>, AllocError>
    ensures { IfOk result (λ rounds. map (λ v. v.items) rounds.items ≡ words.now ∷ []) }
{
    let words = listed(alloc, words)?;
    let mut rounds = Vec::new(alloc);
    rounds.push(words)?;
    Ok(rounds)
}

// The rounds of trees that were looked at.
fn ordered<H: Host>(
    alloc: Global,
    session: &Session<H>,
    words: &[Text],
    looked: &[Option<ControlFile>],
) -> Result<Vec<Vec<Text>>, AllocError>
    requires open { session.now.closed ≡ false }
    requires long { length looked.now ≡ length words.now }
    ensures { IfOk result (λ rounds. IsOrdered session.now.administration.database.records words.now
        looked.now (map (λ v. v.items) rounds.items)) }
{
    let packages = session.packages()?;
    let numbers = rounds_of(alloc, &packages, looked)?;
    all_words_at(alloc, words, numbers.as_slice())
}

/// The rounds in which an install takes its trees. Nothing is changed.
pub(crate) fn rounds_for<S: Hosts>(
    alloc: Global,
    hosts: &mut S,
    session: &Session<S::Opened>,
    asked: &Unpacking,
) -> Result<Vec<Vec<Text>>, AllocError>
    requires { session.now.closed ≡ false }
    ensures rounds { IfOk result (λ rounds. AreRoundsOf (around S.Hosts hosts.old hosts.new)
        asked.now session.now.administration.database.records (map (λ v. v.items) rounds.items)) }
    ensures on { HaveGoneOn S.Hosts hosts.old hosts.new }
{
    let words = asked.trees.as_slice();
    if is_one_round(asked) {
        return one_round(alloc, words);
    }
    let mut looked = Vec::new(alloc);
    match look_at_all(alloc, hosts, asked.owners, words, &mut looked) {
        Ok(()) => ordered(alloc, session, words, looked.as_slice()),
        Err(fault) => Err(fault),
    }
}
