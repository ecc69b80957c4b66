// Trees are installed, round after round.
ghost use Rattle.std.specs.Prelude.{◌≡◌, ◌++◌, ◌∷◌, ◌+◌, ◌<◌, ◌≤◌, [], List, IfOk, None, OnErr, OnOk, false, true, is_some, length, map, vec_capacity, vec_len};
ghost use Rattle.std.specs.List.{flat_map};
ghost use Rattle.std.specs.Vec.Iter.{into_iter_items};
ghost use Rattle.dpkg_session.specs.declared.installing.Installed.{Installed as AnInstalled};
ghost use Rattle.unit_reports.specs.Held.{held_by};
ghost use Rattle.trigger_turns.specs.Told.{AreTold};
ghost use Rattle.command_line.specs.Printing.{AreRoundsTold, last_of_round, last_of_rounds, units_of_round};
ghost use Rattle.command_line.specs.Reading.{HaveGoneOn, IsRoundBefore, words_before};
ghost use Rattle.command_line.specs.Roots.{around};
ghost use Rattle.command_line.specs.Unpacks.{HasInstalledRound, HasInstalledRounds, HasInstalledTrees};

use crate::hosts::Hosts;
use crate::ordering::rounds_for;
use crate::reading::{TreeWords, words_before};
use crate::unpacking::allowed_of;
use command_words::Unpacking;
use dpkg_session::{ConfigureOptions, Installed, Session, Watcher};
use std::alloc::{AllocError, Global};
use std::vec::IntoIter;
use texts::Text;

fn is_broken(came: &Installed) -> bool
    ensures { result ≡ is_some (last_of_round came.now) }
{
    came.unpacked.last.is_some() || came.configured.last.is_some()
}

// What a session makes of the trees of a round. Its caller learns here that the hosts are still the same.
fn install_session<S: Hosts, W: Watcher>(
    session: &mut Session<S::Opened>,
    trees: &mut TreeWords<'_, S>,
    options: ConfigureOptions,
    watcher: &mut W,
) -> Installed
    requires open { session.old.closed ≡ false }
    requires behind { trees.old.words.now
        ≡ words_before trees.old.words.now (length (into_iter_items trees.old.left.now))
        ++ into_iter_items trees.old.left.now }
    ensures same_hosts { trees.new.hosts.ghost_name ≡ trees.old.hosts.ghost_name }
    ensures done { HasInstalledRound (around S.Hosts trees.old.hosts.now trees.new.hosts.now)
        trees.old.asked.now options
        (words_before trees.old.words.now (length (into_iter_items trees.old.left.now)))
        (into_iter_items trees.old.left.now) result
        (held_by session.old.administration session.old.diversions)
        (held_by session.new.administration session.new.diversions)
        (S.Opened.state session.old.host) (S.Opened.state session.new.host) }
    ensures closes { session.new.closed ≡ is_some (last_of_round result) }
    ensures on { HaveGoneOn S.Hosts trees.old.hosts.now trees.new.hosts.now }
    ensures watched { AreTold W.tells watcher.old (units_of_round result) watcher.new }
{
    let allowed = allowed_of(trees.asked);
    session.install(trees, allowed, options, watcher)
}

// The trees of a round, whose words are the last of these.
fn install_round<S: Hosts, W: Watcher>(
    alloc: Global,
    hosts: &mut S,
    session: &mut Session<S::Opened>,
    asked: &Unpacking,
    options: ConfigureOptions,
    words: &[Text],
    round: Vec<Text>,
    watcher: &mut W,
) -> Installed
    requires open { session.old.closed ≡ false }
    requires behind { words.now ≡ words_before words.now (length round.items) ++ round.items }
    ensures done { HasInstalledRound (around S.Hosts hosts.old hosts.new) asked.now options
        (words_before words.now (length round.items)) round.items result
        (held_by session.old.administration session.old.diversions)
        (held_by session.new.administration session.new.diversions)
        (S.Opened.state session.old.host) (S.Opened.state session.new.host) }
    ensures closes { session.new.closed ≡ is_some (last_of_round result) }
    ensures on { HaveGoneOn S.Hosts hosts.old hosts.new }
    ensures watched { AreTold W.tells watcher.old (units_of_round result) watcher.new }
{
    let mut left = round.into_iter();
    let mut trees = TreeWords {
        alloc,
        hosts,
        asked,
        words,
        left: &mut left,
    };
    install_session(session, &mut trees, options, watcher)
}

// The next of the rounds that are left, whose words are the last of all. Answers whether no other is to be begun.
fn run_next<S: Hosts, W: Watcher>(
    alloc: Global,
    hosts: &mut S,
    session: &mut Session<S::Opened>,
    asked: &Unpacking,
    options: ConfigureOptions,
    all: &[Text],
    left: &mut usize,
    rounds: &mut IntoIter<Vec<Text>>,
    reports: &mut Vec<Installed>,
    watcher: &mut W,
) -> bool
    requires open { session.old.closed ≡ false }
    requires behind { all.now ≡ words_before all.now left.old
        ++ flat_map (λ v. v.items) (into_iter_items rounds.old) }
    requires left { left.old ≡ length (flat_map (λ v. v.items) (into_iter_items rounds.old)) }
    requires room { vec_len reports.old + length (into_iter_items rounds.old)
        ≤ vec_capacity reports.old }
    ensures over { result ≡ true → (more : List AnInstalled)
        × (reports.new.items ≡ reports.old.items ++ more)
        × HasInstalledRounds (around S.Hosts hosts.old hosts.new) asked.now options
        (words_before all.now left.old) (map (λ v. v.items) (into_iter_items rounds.old)) more
        (held_by session.old.administration session.old.diversions)
        (held_by session.new.administration session.new.diversions)
        (S.Opened.state session.old.host) (S.Opened.state session.new.host)
        × (session.new.closed ≡ is_some (last_of_rounds more))
        × AreRoundsTold W.tells watcher.old more watcher.new }
    ensures next { result ≡ false → (came : AnInstalled)
        × (reports.new.items ≡ reports.old.items ++ came ∷ [])
        × IsRoundBefore (λ v. v.items) (into_iter_items rounds.old) (into_iter_items rounds.new)
        (words_before all.now left.old) (words_before all.now left.new) (λ words.
        HasInstalledRound (around S.Hosts hosts.old hosts.new) asked.now options
        (words_before all.now left.old) words came
        (held_by session.old.administration session.old.diversions)
        (held_by session.new.administration session.new.diversions)
        (S.Opened.state session.old.host) (S.Opened.state session.new.host))
        × (last_of_round came ≡ None)
        × AreTold W.tells watcher.old (units_of_round came) watcher.new }
    ensures open { result ≡ false → session.new.closed ≡ false }
    ensures behind { result ≡ false → all.now ≡ words_before all.now left.new
        ++ flat_map (λ v. v.items) (into_iter_items rounds.new) }
    ensures left { result ≡ false
        → left.new ≡ length (flat_map (λ v. v.items) (into_iter_items rounds.new)) }
    ensures room { result ≡ false → vec_len reports.new + length (into_iter_items rounds.new)
        ≤ vec_capacity reports.new }
    ensures fewer { result ≡ false
        → length (into_iter_items rounds.new) < length (into_iter_items rounds.old) }
    ensures on { HaveGoneOn S.Hosts hosts.old hosts.new }
{
    let Some(round) = rounds.next() else {
        return true;
    };
    let later = left.saturating_sub(round.len());
    *left = later;
    let words = words_before(all, later);
    let came = install_round(alloc, hosts, session, asked, options, words, round, watcher);
    let broken = is_broken(&came);
    reports.push_reserved(came);
    if broken {
        return true;
    }
    false
}

// The rounds that are left, whose words are the last of all. There is room for the report of each.
fn run_rounds<S: Hosts, W: Watcher>(
    alloc: Global,
    hosts: &mut S,
    session: &mut Session<S::Opened>,
    asked: &Unpacking,
    options: ConfigureOptions,
    all: &[Text],
    left: &mut usize,
    rounds: &mut IntoIter<Vec<Text>>,
    reports: &mut Vec<Installed>,
    watcher: &mut W,
)
    requires open { session.old.closed ≡ false }
    requires behind { all.now ≡ words_before all.now left.old
        ++ flat_map (λ v. v.items) (into_iter_items rounds.old) }
    requires left { left.old ≡ length (flat_map (λ v. v.items) (into_iter_items rounds.old)) }
    requires room { vec_len reports.old + length (into_iter_items rounds.old)
        ≤ vec_capacity reports.old }
    ensures done { (more : List AnInstalled) × (reports.new.items ≡ reports.old.items ++ more)
        × HasInstalledRounds (around S.Hosts hosts.old hosts.new) asked.now options
        (words_before all.now left.old) (map (λ v. v.items) (into_iter_items rounds.old)) more
        (held_by session.old.administration session.old.diversions)
        (held_by session.new.administration session.new.diversions)
        (S.Opened.state session.old.host) (S.Opened.state session.new.host)
        × (session.new.closed ≡ is_some (last_of_rounds more))
        × AreRoundsTold W.tells watcher.old more watcher.new }
    ensures on { HaveGoneOn S.Hosts hosts.old hosts.new }
{
    let over = run_next(
        alloc, hosts, session, asked, options, all, left, rounds, reports, watcher,
    );
    if over {
        return;
    }
    run_rounds(
        alloc, hosts, session, asked, options, all, left, rounds, reports, watcher,
    )
}

// Copies of the words of rounds, one after another.
fn words_of(alloc: Global, rounds: &[Vec<Text>]) -> Result<Vec<Text>, AllocError>
    ensures { IfOk result (λ words. words.items ≡ flat_map (λ v. v.items) rounds.now) }
{
    let mut words = Vec::new(alloc);
    for round in rounds {
        push_all(&mut words, round.as_slice())?;
    }
    Ok(words)
}

fn push_all(words: &mut Vec<Text>, more: &[Text]) -> Result<(), AllocError>
    ensures { OnOk result (words.new.items ≡ words.old.items ++ more.now) }
{
    for word in more {
        words.push(word.copy()?)?;
    }
    Ok(())
}

// All rounds. There is memory for what they come to before the first is begun.
fn install_rounds<S: Hosts, W: Watcher>(
    alloc: Global,
    hosts: &mut S,
    session: &mut Session<S::Opened>,
    asked: &Unpacking,
    options: ConfigureOptions,
    rounds: Vec<Vec<Text>>,
    watcher: &mut W,
) -> Result<Vec<Installed>, AllocError>
    requires { session.old.closed ≡ false }
    ensures done { IfOk result (λ reports. HasInstalledRounds (around S.Hosts hosts.old hosts.new)
        asked.now options [] (map (λ v. v.items) rounds.items) reports.items
        (held_by session.old.administration session.old.diversions)
        (held_by session.new.administration session.new.diversions)
        (S.Opened.state session.old.host) (S.Opened.state session.new.host)) }
    ensures closes { IfOk result (λ reports. session.new.closed
        ≡ is_some (last_of_rounds reports.items)) }
    ensures unread { OnErr result (S.Opened.state session.new.host ≡ S.Opened.state
        session.old.host) }
    ensures on { HaveGoneOn S.Hosts hosts.old hosts.new }
    ensures watched { IfOk result (λ reports. AreRoundsTold W.tells watcher.old reports.items
        watcher.new) }
    ensures unwatched { OnErr result (watcher.new ≡ watcher.old) }
{
    let all = words_of(alloc, rounds.as_slice())?;
    let mut left = all.len();
    let mut reports = Vec::new(alloc);
    reports.reserve(rounds.len())?;
    let mut rounds = rounds.into_iter();
    run_rounds(
        alloc,
        hosts,
        session,
        asked,
        options,
        all.as_slice(),
        &mut left,
        &mut rounds,
        &mut reports,
        watcher,
    );
    Ok(reports)
}

/// What a session makes of trees in their rounds.
pub(crate) fn install_trees<S: Hosts, W: Watcher>(
    alloc: Global,
    hosts: &mut S,
    session: &mut Session<S::Opened>,
    asked: &Unpacking,
    options: ConfigureOptions,
    watcher: &mut W,
) -> Result<Vec<Installed>, AllocError>
    requires { session.old.closed ≡ false }
    ensures done { IfOk result (λ reports. HasInstalledTrees (around S.Hosts hosts.old hosts.new)
        asked.now options reports.items (held_by session.old.administration session.old.diversions)
        (held_by session.new.administration session.new.diversions)
        (S.Opened.state session.old.host) (S.Opened.state session.new.host)) }
    ensures closes { IfOk result (λ reports. session.new.closed
        ≡ is_some (last_of_rounds reports.items)) }
    ensures unread { OnErr result (S.Opened.state session.new.host ≡ S.Opened.state
        session.old.host) }
    ensures on { HaveGoneOn S.Hosts hosts.old hosts.new }
    ensures watched { IfOk result (λ reports. AreRoundsTold W.tells watcher.old reports.items
        watcher.new) }
    ensures unwatched { OnErr result (watcher.new ≡ watcher.old) }
{
    match rounds_for(alloc, hosts, session, asked) {
        Ok(rounds) => install_rounds(alloc, hosts, session, asked, options, rounds, watcher),
        Err(fault) => Err(fault),
    }
}
