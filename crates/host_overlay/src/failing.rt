// Which script calls are assumed to fail, and how that is foretold.
ghost use Rattle.std.specs.Prelude.{◌≡◌, IfOk, map};
ghost use Rattle.host_overlay.specs.Doings.{event_of, told_for};
ghost use Rattle.host_overlay.specs.Failing.{call_for, foretold, is_first, names, outcome_of, left_of};

use crate::done::{DeviceStep, Done};
use host_core::{Call, Outcome, RootPath, Script, Side};
use std::alloc::{AllocError, Global};
use texts::{Text, Texts};

/// A call that is assumed to fail, the first time that it is made: it is named by its package, its script and its first argument.
#[derive(Drop)]
pub struct AssumedFailure {
    pub package: Text,
    pub script: Script,
    pub word: Text,
}

fn is_first(args: &Texts, word: &Text) -> bool
    ensures { result ≡ is_first args.now word.now }
{
    match args.as_slice().first() {
        Some(first) => word.as_str() == first.as_str(),
        None => false,
    }
}

impl AssumedFailure {
    // Whether it names this call.
    fn names(&self, call: &Call) -> bool
        ensures { result ≡ names self.now call.now }
    {
        self.package.as_str() == call.package.as_str()
            && self.script.name() == call.script.name()
            && is_first(&call.args, &self.word)
    }

    // A call that it names.
    fn call(&self, alloc: Global) -> Result<Call, AllocError>
        ensures { IfOk result (λ call. call ≡ call_for self.now) }
    {
        let mut args = Texts::new(alloc);
        args.push(self.word.copy()?)?;
        Ok(Call {
            side: Side::New,
            package: self.package.copy()?,
            script: self.script,
            at: RootPath::from_str(alloc, "")?,
            args,
        })
    }
}

// The calls, as they are foretold.
fn foretold_calls(alloc: Global, failing: &[AssumedFailure]) -> Result<Vec<Done>, AllocError>
    ensures { IfOk result (λ told. told.items ≡ map told_for failing.now) }
{
    let mut told = Vec::new(alloc);
    for failure in failing {
        told.push(Done::Foretold(failure.call(alloc)?))?;
    }
    Ok(told)
}

/// The calls that are assumed to fail in a rehearsal, and what foretells them.
#[derive(Drop)]
pub struct Plan {
    pub(crate) failing: Vec<AssumedFailure>,
    pub(crate) told: Vec<Done>,
    ghost foretold: { map event_of told.items ≡ foretold failing.items },
}

impl Plan {
    pub fn new(alloc: Global, failing: Vec<AssumedFailure>) -> Result<Plan, AllocError>
        ensures { IfOk result (λ plan. plan.failing.items ≡ failing.items) }
    {
        let mut told = foretold_calls(alloc, failing.as_slice())?;
        told.push(Done::Did(DeviceStep::Barrier))?;
        Ok(Plan { failing, told })
    }
}

// How a call ends. One that was assumed to fail does so once.
pub(crate) fn end_call(failing: &mut Vec<AssumedFailure>, call: &Call) -> Outcome
    ensures outcome { result ≡ outcome_of failing.old.items call.now }
    ensures left { failing.new.items ≡ left_of failing.old.items call.now }
{
    match failing.iter().position(|failure| failure.names(call)) {
        Some(index) => {
            failing.remove(index);
            Outcome::Exit(1)
        }
        None => Outcome::Exit(0),
    }
}
