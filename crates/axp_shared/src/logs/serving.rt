//! The bus answers the seats.
ghost use Rattle.std.specs.Prelude.{◌≡◌, ◌≤◌, [], length, IfOk};
ghost use Rattle.axp_base.specs.declared.processors.TheConstants.{MAX_CPUS, MIN_CPUS};
ghost use Rattle.axp_bus.specs.CallLists.{no_calls};
ghost use Rattle.axp_shared.specs.Answers.{BusFits, IsBusAnswer, start_of};

use super::{BusLog, BusStart};
use axp_base::{Cpu, NoMemory};
use axp_bus::{Bus, Call, CallList};
use axp_image::Image;
use axp_line::{Reply, Request};
use axp_ticket::Served;
use std::alloc::Global;
use std::snapshot::Snapshot;

impl BusLog {
    // The bus of the memory that an image describes and of `cpus` processors, without calls, with
    // room for so many; `NoMemory` where memory was not found for it.
    pub(crate) fn load(
        alloc: Global,
        image: &Image,
        cpus: u8,
        room: u32,
    ) -> Result<BusLog, NoMemory>
        requires least { MIN_CPUS ≤ cpus }
        requires most { cpus ≤ MAX_CPUS }
        ensures image { IfOk result (λ log. log.image.value ≡ image.now) }
        ensures cpus { IfOk result (λ log. length log.bus.ports ≡ cpus) }
        ensures calls { IfOk result (λ log. log.calls ≡ no_calls room) }
    {
        let bus = Bus::load(alloc, image, cpus, room)?;
        let calls = CallList::with_room(alloc, room)?;
        let image = Snapshot::of(image);
        Ok(BusLog { bus, calls, image })
    }

    // Its calls.
    pub(crate) fn into_calls(self) -> CallList
        ensures { result ≡ self.calls }
    {
        let BusLog { calls, .. } = self;
        calls
    }
}

impl Served for BusLog {
    type Start = BusStart;

    type Ask = Request;

    type Answer = Reply;

    ghost start = { λ log. start_of log.image.value (length log.bus.ports) };

    ghost room = { λ log. log.calls.room };

    ghost calls = { λ log. log.calls.items };

    ghost Fits = { BusFits };

    ghost Right = { IsBusAnswer };

    fn reply(&mut self, seat: u8, ask: Request) -> Reply {
        let cpu = Cpu::new(seat).unwrap();
        let answer = self.bus.turn(cpu, &ask);
        self.calls.push(Call { cpu, ask, answer });
        answer
    }

    ghost each_right = { λ log. log.right };
}
