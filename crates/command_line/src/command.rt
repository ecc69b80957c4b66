// A command: the answer to words, written.
ghost use Rattle.std.specs.Prelude.{◌≡◌, ◌≤◌, ◌⊎◌, ℕ, List, Option, map, string_bytes, true};
ghost use Rattle.host_overlay.specs.Failing.{foretold};
ghost use Rattle.command_words.specs.Commands.{asked_of, rehearsal_of};
ghost use Rattle.command_words.specs.Topics.{named_in};
ghost use Rattle.command_line.specs.declared.answer.Answer.{Answer};
ghost use Rattle.command_line.specs.Dry.{dry};
ghost use Rattle.command_line.specs.Rehearsed.{IsReplyTo, IsToldBy, IsToldFor, IsWantOf, behind_line, over_by, reply_of, writes};
ghost use Rattle.command_line.specs.Telling.{IsToldBehind, telling};
ghost use Rattle.command_line.specs.declared.telling_hosts.Told.{Told as ATold};
ghost use Rattle.command_line.specs.declared.telling_hosts.Told.TheVariants.{Nothing};
ghost use Rattle.command_line.specs.Reports.{IsAnswerOf, IsGiven, IsGivenInPart, has_units, memory_answer, opens_root, prints};
ghost use Rattle.command_line.specs.Roots.{around};

use crate::answer::{FAILED, Left, answer_to};
use crate::dry_hosts::DryHosts;
use crate::hosts::Hosts;
use crate::telling::give_behind;
use crate::telling_hosts::{TellingHosts, Told};
use crate::writing::{give, give_want_of_memory, write_whole};
use command_words::{Rehearsal, rehearsal_of};
use host_overlay::{AssumedFailure, Plan};
use std::alloc::Global;
use std::io::Write;

// Carries out what the words ask for on these hosts.
fn carry_out<S: Hosts, O: Write, E: Write>(
    alloc: Global,
    hosts: &mut S,
    words: &[String],
    out: &mut O,
    err: &mut E,
) -> u8
    ensures bound { result ≤ 2 }
    ensures answered { (answer : Answer)
        × (IsAnswerOf (around S.Hosts hosts.old hosts.new) (named_in (map string_bytes words.now))
        (asked_of (map string_bytes words.now)) answer
        ⊎ ((answer ≡ memory_answer) × (hosts.new ≡ hosts.old)))
        × (IsGiven answer (O.contents out.old) (O.contents out.new) (E.contents err.old)
        (E.contents err.new) result ⊎ (IsGiven memory_answer (O.contents out.old)
        (O.contents out.new) (E.contents err.old) (E.contents err.new) result
        ⊎ ((has_units (asked_of (map string_bytes words.now)) ≡ true)
        × IsGivenInPart answer (O.contents out.old) (O.contents out.new) (E.contents err.old)
        (E.contents err.new) result))) }
    ensures quiet { (out.new ≡ out.old) ⊎ (prints (asked_of (map string_bytes words.now)) ≡ true) }
    ensures unopened { (hosts.new ≡ hosts.old) ⊎ (opens_root (asked_of (map string_bytes words.now))
        ≡ true) }
    ensures below { S.below hosts.new ≡ S.below hosts.old }
{
    match answer_to(alloc, hosts, words, out) {
        Ok(Left::Rest(answer)) => give(&answer, out, err),
        Ok(Left::Cut) => FAILED,
        Err(_) => give_want_of_memory(err),
    }
}

// The same on hosts of which nothing is changed, behind a first line.
fn rehearse<S: Hosts, O: Write, E: Write>(
    alloc: Global,
    hosts: &mut S,
    failing: Vec<AssumedFailure>,
    words: &[String],
    out: &mut O,
    err: &mut E,
) -> u8
    ensures bound { result ≤ 2 }
    ensures answered { (answer : Answer)
        × (IsAnswerOf (dry (foretold failing.items) (around S.Hosts hosts.old hosts.new))
        (named_in (map string_bytes words.now)) (asked_of (map string_bytes words.now)) answer
        ⊎ ((answer ≡ memory_answer) × (hosts.new ≡ hosts.old)))
        × (IsGiven (behind_line answer) (O.contents out.old) (O.contents out.new)
        (E.contents err.old) (E.contents err.new) result
        ⊎ (IsGiven (behind_line memory_answer) (O.contents out.old)
        (O.contents out.new) (E.contents err.old) (E.contents err.new) result
        ⊎ ((has_units (asked_of (map string_bytes words.now)) ≡ true)
        × IsGivenInPart (behind_line answer) (O.contents out.old) (O.contents out.new)
        (E.contents err.old) (E.contents err.new) result))) }
    ensures unopened { (hosts.new ≡ hosts.old) ⊎ (opens_root (asked_of (map string_bytes words.now))
        ≡ true) }
{
    if !write_whole(out, b"dry run\n") {
        return FAILED;
    }
    let Ok(plan) = Plan::new(alloc, failing) else {
        return give_want_of_memory(err);
    };
    let mut plan = Some(plan);
    let mut dry = DryHosts {
        alloc,
        hosts,
        plan: &mut plan,
    };
    carry_out(alloc, &mut dry, words, out, err)
}

// The same, and behind it the paths are told that would be changed.
fn rehearse_telling<S: Hosts, O: Write, E: Write>(
    alloc: Global,
    hosts: &mut S,
    failing: Vec<AssumedFailure>,
    words: &[String],
    out: &mut O,
    err: &mut E,
) -> u8
    ensures bound { result ≤ 2 }
    ensures answered { (answer : Answer) × (told : ATold) × (output error : Option (List ℕ))
        × (first : ℕ)
        × ((told ≡ Nothing) ⊎ (opens_root (asked_of (map string_bytes words.now)) ≡ true))
        × (IsAnswerOf (telling told (foretold failing.items) (around S.Hosts hosts.old hosts.new))
        (named_in (map string_bytes words.now)) (asked_of (map string_bytes words.now)) answer
        ⊎ ((answer ≡ memory_answer) × (hosts.new ≡ hosts.old) × (told ≡ Nothing)))
        × (IsGiven (behind_line answer) (O.contents out.old) output (E.contents err.old) error first
        ⊎ (IsGiven (behind_line memory_answer) (O.contents out.old) output (E.contents err.old)
        error first ⊎ ((has_units (asked_of (map string_bytes words.now)) ≡ true)
        × IsGivenInPart (behind_line answer) (O.contents out.old) output (E.contents err.old)
        error first)))
        × IsToldBehind told output (O.contents out.new) error (E.contents err.new) first result }
    ensures unopened { (hosts.new ≡ hosts.old) ⊎ (opens_root (asked_of (map string_bytes words.now))
        ≡ true) }
{
    if !write_whole(out, b"dry run\n") {
        return FAILED;
    }
    let Ok(plan) = Plan::new(alloc, failing) else {
        return give_want_of_memory(err);
    };
    let mut plan = Some(plan);
    let mut telling = TellingHosts {
        dry: DryHosts {
            alloc,
            hosts,
            plan: &mut plan,
        },
        told: Told::Nothing,
    };
    let status = carry_out(alloc, &mut telling, words, out, err);
    let TellingHosts { dry, told } = telling;
    let DryHosts { hosts, .. } = dry;
    let _ = hosts;
    give_behind(alloc, told, status, out, err)
}

fn rehearse_as<S: Hosts, O: Write, E: Write>(
    alloc: Global,
    hosts: &mut S,
    rehearsal: Rehearsal,
    words: &[String],
    out: &mut O,
    err: &mut E,
) -> u8
    ensures bound { result ≤ 2 }
    ensures answered { (answer : Answer) × (told : ATold) × (output error : Option (List ℕ))
        × (first : ℕ)
        × IsToldBy rehearsal.changes (asked_of (map string_bytes words.now)) told
        × (IsAnswerOf (over_by rehearsal.changes told (foretold rehearsal.failing.items)
        (around S.Hosts hosts.old hosts.new))
        (named_in (map string_bytes words.now)) (asked_of (map string_bytes words.now)) answer
        ⊎ ((answer ≡ memory_answer) × (hosts.new ≡ hosts.old) × (told ≡ Nothing)))
        × (IsGiven (behind_line answer) (O.contents out.old) output (E.contents err.old) error first
        ⊎ (IsGiven (behind_line memory_answer) (O.contents out.old) output (E.contents err.old)
        error first ⊎ ((has_units (asked_of (map string_bytes words.now)) ≡ true)
        × IsGivenInPart (behind_line answer) (O.contents out.old) output (E.contents err.old)
        error first)))
        × IsToldBehind told output (O.contents out.new) error (E.contents err.new) first result }
    ensures unopened { (hosts.new ≡ hosts.old) ⊎ (opens_root (asked_of (map string_bytes words.now))
        ≡ true) }
{
    let Rehearsal { failing, changes } = rehearsal;
    if changes {
        return rehearse_telling(alloc, hosts, failing, words, out, err);
    }
    rehearse(alloc, hosts, failing, words, out, err)
}

/// Carries out what the words ask for, or rehearses it; the first of the words is the program's name. A failed write ends with
/// status 2.
pub fn run_words<S: Hosts, O: Write, E: Write>(
    alloc: Global,
    hosts: &mut S,
    words: &[String],
    out: &mut O,
    err: &mut E,
) -> u8
    ensures bound { result ≤ 2 }
    ensures answered { (answer : Answer) × (told : ATold) × (output error : Option (List ℕ))
        × (first : ℕ) × IsToldFor (rehearsal_of (map string_bytes words.now))
        (asked_of (map string_bytes words.now)) told
        × (IsReplyTo (around S.Hosts hosts.old hosts.new) (rehearsal_of (map string_bytes words.now))
        told (named_in (map string_bytes words.now)) (asked_of (map string_bytes words.now)) answer
        ⊎ (IsWantOf (rehearsal_of (map string_bytes words.now)) answer
        × (hosts.new ≡ hosts.old) × (told ≡ Nothing)))
        × (IsGiven answer (O.contents out.old) output (E.contents err.old) error first
        ⊎ (IsGiven (reply_of (rehearsal_of (map string_bytes words.now)) memory_answer)
        (O.contents out.old) output (E.contents err.old) error first
        ⊎ ((has_units (asked_of (map string_bytes words.now)) ≡ true)
        × IsGivenInPart answer (O.contents out.old) output (E.contents err.old) error first)))
        × IsToldBehind told output (O.contents out.new) error (E.contents err.new) first result }
    ensures quiet { (out.new ≡ out.old) ⊎ (writes (rehearsal_of (map string_bytes words.now))
        (asked_of (map string_bytes words.now)) ≡ true) }
    ensures unopened { (hosts.new ≡ hosts.old) ⊎ (opens_root (asked_of (map string_bytes words.now))
        ≡ true) }
{
    match rehearsal_of(alloc, words) {
        Ok(None) => carry_out(alloc, hosts, words, out, err),
        Ok(Some(rehearsal)) => rehearse_as(alloc, hosts, rehearsal, words, out, err),
        Err(_) => give_want_of_memory(err),
    }
}
