ghost use Rattle.std.specs.Prelude.{◌≡◌, ◌<◌, ◌&&◌, true};
ghost use Rattle.axp_access.specs.Offers.{are_ascending, is_offered};
ghost use Rattle.axp_access.specs.declared.Act.{Act};
ghost use Rattle.axp_base.specs.Cpus.{cpu_number};
ghost use Rattle.axp_model.specs.Legal as model;
ghost use Rattle.axp_model.specs.Legal.{legal};
ghost use Rattle.axp_machine.specs.Offers.{OffersNothing, is_late, offer_of};
ghost use Rattle.axp_image.specs.Contents.{IsValid};
ghost use Rattle.axp_machine.specs.Runs.{IsRun, is_spent, needs_of, processors_of};

use super::{Machine, is_done};
use arrayvec::ArrayVec;
use axp_access::Offer;
use axp_base::{Bank, Cpu};

impl Machine {
    /// The events of a processor that are legal now: exactly those that [`Machine::event`] does not
    /// refuse. Of a processor that the machine does not have none is.
    pub fn offer(&self, cpu: Cpu) -> Offer
        ensures legal { (a : Act) → is_offered result a
            ≡ legal (processors_of self.now) self.now.records (record { cpu = cpu; act = a }) }
        ensures spent { result.spent ≡ is_spent self.now cpu }
        ensures ascending { are_ascending result.drops.items ≡ true }
        ensures needs { result.needs ≡ needs_of self.now cpu }
        ensures value { result ≡ offer_of self.now cpu }
        ensures run { IsRun self.now }
        ensures valid { IsValid self.now.image }
    {
        if usize::from(cpu.number()) >= self.processors.len() {
            return nothing();
        }
        let mut offer = self.processor(cpu).offer();
        offer.late = (
            self.may_take(cpu, Bank::Even, offer.late.0),
            self.may_take(cpu, Bank::Odd, offer.late.1),
        );
        offer
    }

    /// Whether a processor is finished and no write of it waits: then it has no legal event, and any
    /// other has one.
    pub fn is_done(&self, cpu: Cpu) -> bool
        requires { cpu_number cpu < self.now.cpus }
        ensures { result
            ≡ model.is_done (processors_of self.now) self.now.records (cpu_number cpu) }
    {
        is_done(self.processor(cpu))
    }

    /// Whether a processor that may take, or may not, takes something from a bank: it is late there.
    fn may_take(&self, cpu: Cpu, bank: Bank, may: bool) -> bool
        requires { cpu_number cpu < self.now.cpus }
        ensures { result ≡ (may && is_late self.now cpu bank) }
    {
        may && self.bus.late(cpu, bank)
    }
}

/// No event.
fn nothing() -> Offer
    ensures { OffersNothing result }
{
    Offer {
        spent: false,
        step: false,
        fill: false,
        drains: 0,
        late: (false, false),
        drops: ArrayVec::new(),
        needs: None,
        poll: false,
        tick: false,
    }
}
