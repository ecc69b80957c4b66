// What is asked while others may change it.
ghost use Rattle.std.specs.Prelude.{IfErr, IfOk, Result};
ghost use Rattle.host_core.specs.declared.fault.HostFault.{HostFault as AHostFault};
ghost use Rattle.administration.specs.declared.fault.AdministrationFault.{AdministrationFault as AnAdministrationFault};
ghost use Rattle.inquiries.specs.declared.glance.Glance.{Glance as AGlance};
ghost use Rattle.command_line.specs.declared.answer.Answer.{Answer as AnAnswer};

use crate::answer::Answer;
use administration::AdministrationFault;
use host_core::HostFault;
use inquiries::Glance;
use std::alloc::Global;

/// What is asked, and may be changed by others meanwhile: nothing is said of what it shows.
pub(crate) trait Shown {
    /// What it is asked.
    type Asked;

    /// What it showed of what changes, from one moment to another.
    ghost glanced: { Self.Asked → Self → Self → AGlance → Type 0 };

    /// Why it showed nothing.
    ghost missed: { Self.Asked → Self → Self → AHostFault → Type 0 };

    /// What it answered.
    ghost answered: { Self.Asked → Self → Self → Result AnAnswer AnAdministrationFault → Type 0 };

    /// Looks at what changes under this question.
    fn glance(&mut self, alloc: Global, asked: &Self::Asked) -> Result<Glance, HostFault>
        ensures glanced { IfOk result (glanced asked.now self.old self.new) }
        ensures missed { IfErr result (missed asked.now self.old self.new) };

    /// The answer, whatever changes meanwhile.
    fn answer(&mut self, alloc: Global, asked: &Self::Asked) -> Result<Answer, AdministrationFault>
        ensures { answered asked.now self.old self.new result };
}
