ghost use Rattle.std.specs.Prelude.{◌≡◌, ◌<◌, ◌≤◌, ◌↔◌, true, length, IfOk, IfSome, IsNone, Some};
ghost use Rattle.axp_base.specs.declared.processors.TheConstants.{MAX_BUDGET, MAX_CPUS, MIN_CPUS};
ghost use Rattle.axp_access.specs.Spelling.{Spells};
ghost use Rattle.axp_machine.specs.Runs.{IsRun, is_complete};
ghost use Rattle.axp_seed.specs.Seeds.{behind, end_of, next_record, seeded_start, turn_among};
ghost use Rattle.axp_seed.specs.Seeds.{working};

use arrayvec::ArrayVec;
use axp_access::{Event, Record};
use axp_base::{Cpu, MAX_CPUS, NoMemory};
use axp_image::Image;
use axp_machine::{Machine, NotLegal};
use axp_pick::{Words, choose};
use std::alloc::Global;
use std::marker::Model;

/// How many values bits 15:0 of a word have: they tell whose turn it is.
const TURNS: u64 = 1 << 16;

/// How many processors there are at most.
const PROCESSORS: usize = MAX_CPUS as usize;

/// A machine whose events a seed chooses (docs/FORMATS.md, "The scheduler").
#[derive(Drop)]
pub struct SeededRun {
    machine: Machine,
    words: Words,
}

impl Model for SeededRun {
    ghost use Rattle.axp_seed.specs.Seeds.{Seeded};

    ghost Value = { Seeded };

    ghost view = { λ s. record { machine = s.machine; words = s.words } };
}

impl SeededRun {
    /// The run of a seed before its first event: `cpus` processors, 2 to 8, each with a budget of
    /// steps, 1 to 32,768, over the image's memory.
    pub fn start(
        alloc: Global,
        image: &Image,
        cpus: u8,
        budget: u32,
        seed: u64,
    ) -> Result<SeededRun, NoMemory>
        requires least_cpus { MIN_CPUS ≤ cpus }
        requires most_cpus { cpus ≤ MAX_CPUS }
        requires least_budget { 1 ≤ budget }
        requires most_budget { budget ≤ MAX_BUDGET }
        ensures { IfOk result (λ s. s ≡ seeded_start image.now cpus budget seed) }
    {
        let machine = Machine::load(alloc, image, cpus, budget)?;
        let words = Words::new(seed, 0);
        Ok(SeededRun { machine, words })
    }

    /// The machine after the events so far.
    pub fn machine(&self) -> &Machine
        ensures { result.now ≡ self.now.machine }
    {
        &self.machine
    }

    /// Makes the next event, and tells its record; `None` exactly where the run is complete, and
    /// nothing changes then.
    pub fn next(&mut self) -> Option<Record>
        ensures record { result ≡ next_record self.old }
        ensures after { self.new ≡ behind self.old }
        ensures end { IsNone result ↔ (is_complete self.old.machine ≡ true) }
        ensures run { IfSome result (λ r. IsRun self.new.machine) }
        ensures spelled { IfSome result (λ r. Spells r.event r.outcome) }
        ensures few { self.old.machine.cpus ≤ MAX_CPUS }
    {
        let numbers = working(&self.machine);
        if numbers.is_empty() {
            return None;
        }
        let word = self.words.next();
        let Some(cpu) = Cpu::new(turn_of(numbers.as_slice(), word)) else {
            unreachable!()
        };
        let act = choose(&self.machine.offer(cpu), word);
        let event = Event { cpu, act };
        match self.machine.event(event) {
            Ok(outcome) => Some(Record { event, outcome }),
            Err(NotLegal) => unreachable!(),
        }
    }

    /// Makes all events that are left: the run is complete then.
    pub fn finish(&mut self)
        ensures { self.new.machine ≡ end_of self.old }
    {
        while let Some(_record) = self.next() {}
    }
}

/// The numbers of the processors that are not done, in order.
fn working(machine: &Machine) -> ArrayVec<u8, PROCESSORS>
    ensures value { result.items ≡ working machine.now }
    ensures few { machine.now.cpus ≤ MAX_CPUS }
{
    let mut numbers = ArrayVec::new();
    for n in 0..machine.cpus() {
        let Some(cpu) = Cpu::new(n) else {
            unreachable!()
        };
        if !machine.is_done(cpu) {
            numbers.push(n);
        }
    }
    numbers
}

/// The one of these numbers whose turn it is by a word.
fn turn_of(numbers: &[u8], word: u64) -> u8
    requires { 1 ≤ length numbers.now }
    ensures { Some result ≡ turn_among numbers.now word }
{
    numbers[(word % TURNS % numbers.len() as u64) as usize]
}
