// Answers of one moment: what changes under a question is looked at before an answer and behind it.
ghost use Rattle.std.specs.Prelude.{◌≡◌};
ghost use Rattle.command_line.specs.Steady.{IsCompared, IsSettled, IsTurned, is_final, told_of};

use crate::answer::Answer;
use crate::shown::Shown;
use administration::AdministrationFault;
use inquiries::Glance;
use std::alloc::Global;

/// How often an answer is tried for.
const TURNS: u8 = 10;

/// Why a question has no answer: the root changed in each turn, or can't be read.
#[derive(Drop)]
pub(crate) enum Unanswered {
    Unsteady,
    Fault(AdministrationFault),
}

/// What a turn came to: its end, or what was shown behind it, where that differs.
#[derive(Drop)]
enum Turn {
    Ended(Result<Answer, Unanswered>),
    Again(Glance),
}

// Whether it is told whatever is shown behind it: no answer of damage, which a change may look like.
fn is_final(answer: &Result<Answer, AdministrationFault>) -> bool
    ensures { result ≡ is_final answer.now }
{
    match answer {
        Ok(_) => false,
        Err(AdministrationFault::Damaged { .. }) => false,
        Err(AdministrationFault::Device) => true,
        Err(AdministrationFault::NoMemory) => true,
        Err(AdministrationFault::Declined) => true,
    }
}

fn told(answer: Result<Answer, AdministrationFault>) -> Result<Answer, Unanswered>
    ensures { result ≡ told_of answer }
{
    match answer {
        Ok(answer) => Ok(answer),
        Err(fault) => Err(Unanswered::Fault(fault)),
    }
}

// The answer, where the same was shown before it and behind it.
fn compared(
    alloc: Global,
    answer: Result<Answer, AdministrationFault>,
    before: &Glance,
    after: Glance,
) -> Turn
    ensures { IsCompared answer before.now after result }
{
    match after.is_same(alloc, before) {
        Ok(true) => Turn::Ended(told(answer)),
        Ok(false) => Turn::Again(after),
        Err(_) => Turn::Ended(Err(Unanswered::Fault(AdministrationFault::NoMemory))),
    }
}

// One turn: an answer, and what is shown behind it.
fn take_turn<W: Shown>(alloc: Global, shown: &mut W, asked: &W::Asked, before: &Glance) -> Turn
    ensures { IsTurned W.Shown asked.now shown.old before.now shown.new result }
{
    let answer = shown.answer(alloc, asked);
    if is_final(&answer) {
        return Turn::Ended(told(answer));
    }
    match shown.glance(alloc, asked) {
        Ok(after) => compared(alloc, answer, before, after),
        Err(fault) => Turn::Ended(Err(Unanswered::Fault(AdministrationFault::from(fault)))),
    }
}

/// The first answer before which and behind which the same is shown, of ten at most.
pub(crate) fn settle<W: Shown>(
    alloc: Global,
    shown: &mut W,
    asked: &W::Asked,
) -> Result<Answer, Unanswered>
    ensures { IsSettled W.Shown asked.now shown.old shown.new result }
{
    let mut before = match shown.glance(alloc, asked) {
        Ok(glance) => glance,
        Err(fault) => return Err(Unanswered::Fault(AdministrationFault::from(fault))),
    };
    for _turn in 0..TURNS {
        match take_turn(alloc, shown, asked, &before) {
            Turn::Ended(result) => return result,
            Turn::Again(after) => before = after,
        }
    }
    Err(Unanswered::Unsteady)
}
