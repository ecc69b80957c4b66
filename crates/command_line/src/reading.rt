// The trees behind words, of which one is open at a time.
ghost use Rattle.std.specs.Prelude.{◌≡◌, ◌∷◌, IsTrue, List, ℕ, length};
ghost use Rattle.std.specs.Vec.Iter.{into_iter_items};
ghost use Rattle.host_core.specs.Host.{Reads, Silent, State};
ghost use Rattle.package_tree.specs.Fault.{CountsTree};
ghost use Rattle.command_line.specs.Reading.{HaveGoneOn, IsReadAs, IsReadFor, IsReadOnce, ends_in_slash, is_among, is_same_tree, owned_as, without_slash, words_before};
ghost use Rattle.command_line.specs.Roots.{around};

use crate::fault::TreeOpening;
use crate::hosts::Hosts;
use command_words::{TreeOwners, Unpacking};
use dpkg_session::{Candidate, Trees};
use host_core::Host;
use package_tree::{Package, TreeFault, read_tree};
use std::alloc::Global;
use std::vec::IntoIter;
use texts::Text;

/// The words of the trees of a round that are still to be read, and where they are opened.
#[derive(Drop)]
pub(crate) struct TreeWords<'a, S: Hosts> {
    pub(crate) alloc: Global,
    pub(crate) hosts: &'a mut S,
    pub(crate) asked: &'a Unpacking,
    /// The words of this round, behind those of earlier ones.
    pub(crate) words: &'a [Text],
    pub(crate) left: &'a mut IntoIter<Text>,
}

impl<'a, S: Hosts> Trees for TreeWords<'a, S> {
    ghost words = { λ t. into_iter_items t.left.now };

    ghost reads = { λ old c new. (new.hosts.ghost_name ≡ old.hosts.ghost_name)
        × (new.asked.now ≡ old.asked.now) × (new.words.now ≡ old.words.now)
        × IsReadOnce (around S.Hosts old.hosts.now new.hosts.now) old.asked.now.owners
        (words_before old.words.now (length (into_iter_items old.left.now)))
        c.label c.tree
        × HaveGoneOn S.Hosts old.hosts.now new.hosts.now
        × (into_iter_items old.left.now ≡ c.label ∷ into_iter_items new.left.now) };

    fn next(&mut self) -> Option<Candidate> {
        if self.left.len() == 0 {
            return None;
        }
        let asked = self.asked;
        let earlier = words_before(self.words, self.left.len());
        match self.left.next() {
            Some(label) => {
                let tree = read_once(
                    self.alloc,
                    self.hosts,
                    asked.owners,
                    earlier,
                    label.as_str(),
                );
                Some(Candidate { label, tree })
            }
            None => None,
        }
    }
}

/// The words before as many that are left.
pub(crate) fn words_before(all: &[Text], left: usize) -> &[Text]
    ensures { result.now ≡ words_before all.now left }
{
    &all[..all.len().saturating_sub(left)]
}

fn without_slash(word: &[u8]) -> &[u8]
    ensures { result.now ≡ without_slash word.now }
{
    if !word.is_empty() && word[word.len() - 1] == b'/' {
        return &word[..word.len() - 1];
    }
    word
}

fn is_same_tree(a: &str, b: &str) -> bool
    ensures { result ≡ is_same_tree a.now b.now }
{
    without_slash(a.as_bytes()) == without_slash(b.as_bytes())
}

fn is_among(earlier: &[Text], word: &str) -> bool
    ensures { result ≡ is_among earlier.now word.now }
{
    earlier
        .iter()
        .any(|other| is_same_tree(other.as_str(), word))
}

// What a tree gives, unless its word stood there before.
fn read_once<S: Hosts>(
    alloc: Global,
    hosts: &mut S,
    owners: TreeOwners,
    earlier: &[Text],
    tree: &str,
) -> Result<Package, TreeFault>
    ensures read { IsReadOnce (around S.Hosts hosts.old hosts.new) owners earlier.now tree.now
        result }
    ensures on { HaveGoneOn S.Hosts hosts.old hosts.new }
{
    if is_among(earlier, tree) {
        return Err(TreeFault::Twice);
    }
    read_package(alloc, hosts, owners, tree)
}

/// What a tree gives; one that can't be opened has the fault of that.
pub(crate) fn read_package<S: Hosts>(
    alloc: Global,
    hosts: &mut S,
    owners: TreeOwners,
    tree: &str,
) -> Result<Package, TreeFault>
    ensures read { IsReadFor (around S.Hosts hosts.old hosts.new) owners tree.now result }
    ensures on { HaveGoneOn S.Hosts hosts.old hosts.new }
{
    match hosts.open_tree(tree, owners) {
        Ok(mut host) => {
            let read = read_as(alloc, &mut host, owners);
            hosts.close_tree(host);
            return read;
        }
        Err(TreeOpening::NoRoom(path)) => {
            return Err(TreeFault::NoRoom(path));
        }
        Err(TreeOpening::Host(fault)) => {
            return Err(TreeFault::from(fault));
        }
    }
}

// What the tree gives on which a host was opened.
fn read_as<H: Host>(alloc: Global, host: &mut H, owners: TreeOwners) -> Result<Package, TreeFault>
    ensures read { IsTrue (H.state host.new).honest → IsReadAs owners (H.state host.old).world
        result }
    ensures reads { Reads (H.state host.old) (H.state host.new) }
    ensures silent { Silent (H.state host.old) (H.state host.new) }
    ensures counts { CountsTree (H.state host.old) (H.state host.new) result }
{
    match read_tree(alloc, host) {
        Ok(found) => Ok(owned_as(found, owners)),
        Err(fault) => Err(fault),
    }
}

fn owned_as(mut found: Package, owners: TreeOwners) -> Package
    ensures { result ≡ owned_as owners found }
{
    if let TreeOwners::Root = owners {
        found.give_to_root();
    }
    found
}
