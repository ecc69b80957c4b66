// What a rehearsal tells behind its reply: the paths that would be changed.
ghost use Rattle.std.specs.Prelude.{◌≡◌, ◌≤◌, ◌⊎◌, IfOk};
ghost use Rattle.command_line.specs.Telling.{IsToldBehind, ended_behind, told_answer};
ghost use Rattle.command_line.specs.Reports.{IsGiven, memory_answer};

use crate::answer::{Answer, not_opened, quiet, told};
use crate::fault::NotOpened;
use crate::telling_hosts::Told;
use crate::writing::{give, give_want_of_memory};
use std::alloc::{AllocError, Global};
use std::io::Write;

fn told_answer(alloc: Global, changes: Told) -> Result<Answer, AllocError>
    ensures { IfOk result (λ answer. answer ≡ told_answer changes) }
{
    match changes {
        Told::Nothing => Ok(quiet(alloc, 0)),
        Told::Lines(text) => Ok(told(alloc, text, 0)),
        Told::Failed(fault) => not_opened(alloc, &NotOpened::Opening(fault)),
    }
}

fn give_told<O: Write, E: Write>(alloc: Global, changes: Told, out: &mut O, err: &mut E) -> u8
    ensures given { IsGiven (told_answer changes) (O.contents out.old) (O.contents out.new)
        (E.contents err.old) (E.contents err.new) result
        ⊎ IsGiven memory_answer (O.contents out.old) (O.contents out.new) (E.contents err.old)
        (E.contents err.new) result }
    ensures bound { result ≤ 2 }
{
    match told_answer(alloc, changes) {
        Ok(answer) => give(&answer, out, err),
        Err(_) => give_want_of_memory(err),
    }
}

fn ended_behind(first: u8, second: u8) -> u8
    ensures value { result ≡ ended_behind first second }
    ensures bound { first ≤ 2 → second ≤ 2 → result ≤ 2 }
{
    if second == 0 { first } else { second }
}

/// Tells them, and gives the status of both.
pub(crate) fn give_behind<O: Write, E: Write>(
    alloc: Global,
    changes: Told,
    first: u8,
    out: &mut O,
    err: &mut E,
) -> u8
    ensures behind { IsToldBehind changes (O.contents out.old) (O.contents out.new)
        (E.contents err.old) (E.contents err.new) first result }
    ensures bound { first ≤ 2 → result ≤ 2 }
{
    let second = give_told(alloc, changes, out, err);
    ended_behind(first, second)
}
