// The smallest value to serve: it answers how many calls it has had, counted from its start.
ghost use Rattle.std.specs.Prelude.{◌≡◌, ◌≤◌, [], IfOk, vec_capacity};
ghost use Rattle.axp_call.specs.Calls.{EachRight};
ghost use Rattle.axp_ticket.specs.Counting.{CountFits, CountRight};

use crate::Served;
use axp_base::{Cpu, NoMemory};
use axp_call::Call;
use std::alloc::Global;

#[derive(Drop)]
pub struct Counter {
    pub start: u32,
    pub room: u32,
    pub calls: Vec<Call<u32, u64>>,
    ghost right: { EachRight CountRight start calls.items },
    ghost roomy: { room ≤ vec_capacity calls },
}

impl Counter {
    pub fn new(alloc: Global, start: u32, room: u32) -> Result<Counter, NoMemory>
        ensures { IfOk result (λ k. (k.start ≡ start) × (k.room ≡ room) × (k.calls.items ≡ [])) }
    {
        let calls = Vec::with_capacity(alloc, room as usize)?;
        Ok(Counter { start, room, calls })
    }
}

impl Served for Counter {
    type Start = u32;

    type Ask = u32;

    type Answer = u64;

    ghost start = { λ k. k.start };

    ghost room = { λ k. k.room };

    ghost calls = { λ k. k.calls.items };

    ghost Fits = { CountFits };

    ghost Right = { CountRight };

    fn reply(&mut self, seat: u8, ask: u32) -> u64 {
        let cpu = Cpu::new(seat).unwrap();
        let answer = u64::from(self.start) + self.calls.len() as u64;
        self.calls.push_reserved(Call { cpu, ask, answer });
        answer
    }

    ghost each_right = { λ k. k.right };
}
