ghost use Rattle.std.specs.Prelude.{◌≡◌, ◌<◌, is_some, not};
ghost use Rattle.axp_base.specs.Cpus.{cpu_number};
ghost use Rattle.axp_model.specs.Legal.{legal};
ghost use Rattle.axp_world.specs.Reasons.{is_late, reason};
ghost use Rattle.axp_machine.specs.Runs.{processors_of};

use super::Machine;
use axp_access::{Act, Event};
use axp_cpu::{Reason, reason_of};

impl Machine {
    /// Why an event is not legal now: the first of its conditions that fails, in the order of
    /// docs/MACHINE.md, "Which events are legal". `None` exactly where it is legal.
    pub fn reason(&self, event: Event) -> Option<Reason>
        ensures value { result ≡ reason (processors_of self.now) self.now.records event }
        ensures legal { is_some result
            ≡ not (legal (processors_of self.now) self.now.records event) }
    {
        if usize::from(event.cpu.number()) >= self.processors.len() {
            return Some(Reason::NoProcessor);
        }
        let facts = self
            .processor(event.cpu)
            .facts(event.act, self.is_late(event));
        reason_of(event.act, &facts)
    }

    /// Of a take, whether something is late.
    fn is_late(&self, event: Event) -> bool
        requires { cpu_number event.cpu < self.now.cpus }
        ensures { result ≡ is_late event.act (cpu_number event.cpu) self.now.records }
    {
        match event.act {
            Act::Take(bank) => self.bus.late(event.cpu, bank),
            _ => false,
        }
    }
}
