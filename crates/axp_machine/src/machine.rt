ghost use Rattle.std.specs.Prelude.{◌≡◌, ◌+◌, ◌≤◌, ◌<◌, ◌^◌, ℕ, List, length, IfOk, Ok};
ghost use Rattle.axp_base.specs.Cpus.{cpu_number};
ghost use Rattle.axp_base.specs.declared.processors.TheConstants.{MAX_BUDGET, MAX_CPUS, MIN_CPUS};
ghost use Rattle.axp_bus.specs.BusStands.{Stands};
ghost use Rattle.axp_line.specs.BusCalls.{BusCall};
ghost use Rattle.axp_world.specs.Worlds.{calls_for, reply_for};
ghost use Rattle.axp_cpu.specs.Actors.{Actor};
ghost use Rattle.axp_cpu.specs.ActorStands.{IsAt};
ghost use Rattle.axp_machine.specs.Playing.{IsTakenInVain, MayAnswer, bank_taken, is_done};
ghost use Rattle.axp_machine.specs.Starts.{StartsAll};

use axp_access::{Act, Event, Outcome, Record};
use axp_base::{Bank, Cpu, MAX_BUDGET, MAX_CPUS, MIN_CPUS, NoMemory, QUADWORD_BYTES};
use axp_bus::Bus;
use axp_cpu::{NotLegal, Processor};
use axp_image::Image;
use axp_line::{Reply, Request};
use axp_lsu::Ask2;
use axp_regs::REGISTERS;
use axp_world::EVENTS_PER_STEP;
use std::alloc::Global;
use std::marker::Model;

mod entries;
mod offering;
mod reasons;
mod tails;

pub use tails::TailAt;

/// Processors over the bus, with the records of what they did.
#[derive(Drop)]
pub struct Machine {
    image: Image,
    processors: Vec<Processor>,
    bus: Bus,
    budget: u32,
    records: Vec<Record>,
}

impl Model for Machine {
    ghost use Rattle.axp_machine.specs.Runs.{Seen};

    ghost Value = { Seen };

    ghost use Rattle.axp_machine.specs.Ties.{seen, Ties};

    ghost view = { seen };

    ghost invariant = { Ties };
}

impl Machine {
    ghost use Rattle.std.specs.Prelude.{◌≡◌, ◌*◌, ◌^◌, ◌<◌, ◌≤◌, length, not, IfOk, IfErr, Ok, Err};
    ghost use Rattle.axp_access.specs.Spelling.{Spells};
    ghost use Rattle.axp_base.specs.Cpus.{cpu_number};
    ghost use Rattle.axp_image.specs.Contents.{IsValid};
    ghost use Rattle.axp_regs.specs.States.{pc_of, register};
    ghost use Rattle.axp_cpu.specs.ActorStands.{IsAt};
    ghost use Rattle.axp_model.specs.Legal.{legal};
    ghost use Rattle.axp_world.specs.RunLaws.{is_not_legal};
    ghost use Rattle.axp_lsu.specs.Within.{IsAskWithin};
    ghost use Rattle.axp_machine.specs.Constraints.{KeepsConstraints};
    ghost use Rattle.axp_machine.specs.Playing.{actor_of, granted_in};
    ghost use Rattle.axp_machine.specs.Runs.{started, answer_of, after_event, with_record, IsRun};
    ghost use Rattle.axp_machine.specs.Runs.{is_complete, processors_of, seat_of, table_of};
    ghost use Rattle.axp_machine.specs.Runs.{result_alone, steps_of, quadword_of, touches};

    /// A machine at the start: `cpus` processors, 2 to 8, each with a budget of steps, 1 to 32,768,
    /// over the image's memory. All room that the records, the late invalidations and the console
    /// take is taken here.
    pub fn load(alloc: Global, image: &Image, cpus: u8, budget: u32) -> Result<Machine, NoMemory>
        requires least_cpus { MIN_CPUS ≤ cpus }
        requires most_cpus { cpus ≤ MAX_CPUS }
        requires least_budget { 1 ≤ budget }
        requires most_budget { budget ≤ MAX_BUDGET }
        ensures { IfOk result (λ m. m ≡ started image.now cpus budget) }
    {
        let processors = start_all(alloc, image, budget, cpus)?;
        let room = EVENTS_PER_STEP * u32::from(cpus) * budget;
        let bus = Bus::load(alloc, image, cpus, room)?;
        let records = Vec::with_capacity(alloc, room as usize)?;
        let image = image.copy(alloc)?;
        Ok(Machine {
            image,
            processors,
            bus,
            budget,
            records,
        })
    }

    /// The number of processors.
    pub fn cpus(&self) -> u8
        ensures value { result ≡ self.now.cpus }
        ensures most { result ≤ MAX_CPUS }
    {
        self.processors.len() as u8
    }

    /// The number of steps that each processor may make, 1 to 32,768.
    pub fn budget(&self) -> u32
        ensures { result ≡ self.now.budget }
    {
        self.budget
    }

    /// The size of memory in bytes.
    pub fn memory_size(&self) -> u64
        ensures value { result ≡ self.now.image.size }
        ensures valid { IsValid self.now.image }
    {
        self.image.size()
    }

    /// The number of events so far.
    pub fn events(&self) -> u32
        ensures value { result ≡ length self.now.records }
        ensures few { result < 2 ^ 31 }
    {
        self.records.len() as u32
    }

    /// Whether every processor is finished (halted, or its budget of steps made) and no write waits
    /// in a buffer.
    pub fn complete(&self) -> bool
        ensures { result ≡ is_complete self.now }
    {
        let mut done = true;
        for processor in &self.processors {
            done &= is_done(processor);
        }
        done
    }

    /// The processor of this number.
    fn processor(&self, cpu: Cpu) -> &Processor
        requires { cpu_number cpu < self.now.cpus }
        ensures at { IsAt result.now (actor_of self.now (cpu_number cpu)) }
        ensures seat { seat_of self.now (cpu_number cpu)
            ≡ (actor_of self.now (cpu_number cpu)).seat }
        ensures run { IsRun self.now }
        ensures valid { IsValid self.now.image }
    {
        &self.processors[usize::from(cpu.number())]
    }

    /// The program counter of a processor, as its last group of accesses left it.
    pub fn pc(&self, cpu: Cpu) -> u64
        requires { cpu_number cpu < self.now.cpus }
        ensures { result ≡ pc_of (table_of self.now (cpu_number cpu)).state }
    {
        self.processor(cpu).state().pc()
    }

    /// Register `n`, below 32, of a processor, as its last group of accesses left it.
    pub fn register(&self, cpu: Cpu, n: u8) -> u64
        requires cpu { cpu_number cpu < self.now.cpus }
        requires register { n < REGISTERS }
        ensures { result ≡ register (table_of self.now (cpu_number cpu)).state n }
    {
        self.processor(cpu).state().get(n)
    }

    /// The halt code of a processor, once it is halted.
    pub fn halted(&self, cpu: Cpu) -> Option<u8>
        requires { cpu_number cpu < self.now.cpus }
        ensures { result ≡ (table_of self.now (cpu_number cpu)).halted }
    {
        self.processor(cpu).halted()
    }

    /// The number of steps that a processor made.
    pub fn steps(&self, cpu: Cpu) -> u32
        requires { cpu_number cpu < self.now.cpus }
        ensures { result ≡ steps_of self.now (cpu_number cpu) }
    {
        self.processor(cpu).steps()
    }

    /// Whether a turn wrote a byte of the aligned quadword of this number.
    pub fn is_touched(&self, quadword: u64) -> bool
        requires { quadword * QUADWORD_BYTES < self.now.image.size }
        ensures { result ≡ touches self.now quadword }
    {
        self.bus.is_touched(quadword)
    }

    /// What memory has in the aligned quadword of this number.
    pub fn quadword(&self, quadword: u64) -> u64
        requires { quadword * QUADWORD_BYTES < self.now.image.size }
        ensures { result ≡ quadword_of self.now quadword }
    {
        self.bus.tail_memory(quadword * QUADWORD_BYTES)
    }

    /// Does an event and tells its outcome, and keeps the record of both. [`NotLegal`] exactly
    /// where its processor is not one of the machine's, or the event is not legal after the records
    /// so far; a refused event leaves the machine as it was. That an event is not legal is said once
    /// more in the memory model's words (`legal`). The records are always a run, so they keep the
    /// constraints of shared memory, and one line of a trace spells each of them. What the event
    /// gives is fixed by its processor, as its own acts and the bus's answers to them made it, and
    /// by what the bus answers now (`alone`).
    #[tactic(auto, unfolding(crate::specs::Runs::after_event), using(crate::proofs::RunLemmas::keeps_constraints))]
    pub fn event(&mut self, event: Event) -> Result<Outcome, NotLegal>
        ensures answer { result ≡ answer_of self.old event }
        ensures legal { is_not_legal result
            ≡ not (legal (processors_of self.old) self.old.records event) }
        ensures after { self.new ≡ after_event self.old event }
        ensures run { IsRun self.new }
        ensures constraints { KeepsConstraints self.new }
        ensures spelled { IfOk result (Spells event) }
        ensures alone { cpu_number event.cpu < self.old.cpus → result ≡ result_alone self.old event }
    {
        match self.grant(event) {
            Ok(ask) => Ok(self.make(event, ask)),
            Err(NotLegal) => Err(NotLegal),
        }
    }

    /// What an event asks of the bus, or that it is not legal: a take where nothing is late is not
    /// legal.
    fn grant(&self, event: Event) -> Result<Ask2, NotLegal>
        ensures granted { result ≡ granted_in self.now event }
        ensures within { IfOk result (IsAskWithin self.now.image.size) }
        ensures answer { IfErr result (λ refused. answer_of self.now event ≡ Err refused) }
        ensures run { IsRun self.now }
        ensures valid { IsValid self.now.image }
    {
        if usize::from(event.cpu.number()) >= self.processors.len() {
            return Err(NotLegal);
        }
        match self.processor(event.cpu).request(event.act) {
            Err(NotLegal) => Err(NotLegal),
            Ok(ask) => {
                if is_taken_in_vain(&ask, &self.bus, event.cpu) {
                    Err(NotLegal)
                } else {
                    Ok(ask)
                }
            }
        }
    }

    /// Does a granted event, and keeps its record.
    fn make(&mut self, event: Event, ask: Ask2) -> Outcome
        requires granted { granted_in self.old event ≡ Ok ask }
        requires within { IsAskWithin self.old.image.size ask }
        ensures answer { answer_of self.old event ≡ Ok result }
        ensures after { self.new ≡ with_record self.old
            (record { event = event; outcome = result }) }
        ensures run { IsRun self.new }
        ensures valid { IsValid self.new.image }
        ensures spelled { Spells event result }
    {
        let reply = answer(&mut self.bus, event.cpu, ask);
        let outcome = self.processors[usize::from(event.cpu.number())].advance(event.act, reply);
        self.records.push_reserved(Record { event, outcome });
        outcome
    }
}

/// Whether a processor is finished and no write of it waits.
fn is_done(processor: &Processor) -> bool
    ensures { (a : Actor) → IsAt processor.now a → result ≡ is_done a }
{
    processor.finished() && processor.drained()
}

/// Whether it is a take where nothing is late.
fn is_taken_in_vain(ask: &Ask2, bus: &Bus, cpu: Cpu) -> bool
    requires { cpu_number cpu < length bus.now.ports }
    ensures { IsTakenInVain bus.now cpu ask.now result }
{
    match bank_taken(ask) {
        Some(bank) => !bus.late(cpu, bank),
        None => false,
    }
}

/// The bank of a take.
fn bank_taken(ask: &Ask2) -> Option<Bank>
    ensures { result ≡ bank_taken ask.now }
{
    match ask {
        Ask2::Bus(Request::Take { bank }) => Some(*bank),
        _ => None,
    }
}

/// The bus's answer, where it is asked.
fn answer(bus: &mut Bus, cpu: Cpu, ask: Ask2) -> Option<Reply>
    requires { MayAnswer bus.old cpu ask }
    ensures reply { (image : ℕ → ℕ) (cs : List BusCall) → Stands bus.old image cs
        → result ≡ reply_for image cs (cpu_number cpu) (Ok ask) }
    ensures stands { (image : ℕ → ℕ) (cs : List BusCall) → Stands bus.old image cs
        → Stands bus.new image (calls_for image cs cpu (Ok ask)) }
    ensures size { length bus.new.memory ≡ length bus.old.memory }
    ensures cpus { length bus.new.ports ≡ length bus.old.ports }
    ensures room { bus.new.room ≡ bus.old.room }
{
    match ask {
        Ask2::Private => None,
        Ask2::Bus(request) => Some(bus.turn(cpu, &request)),
    }
}

/// All processors at the start.
fn start_all(
    alloc: Global,
    image: &Image,
    budget: u32,
    cpus: u8,
) -> Result<Vec<Processor>, NoMemory>
    requires least_cpus { MIN_CPUS ≤ cpus }
    requires most_cpus { cpus ≤ MAX_CPUS }
    requires least_budget { 1 ≤ budget }
    requires most_budget { budget ≤ MAX_BUDGET }
    ensures { IfOk result (λ ps. StartsAll image.now cpus budget cpus ps.items) }
{
    let mut processors = Vec::with_capacity(alloc, usize::from(cpus))?;
    for n in 0..cpus {
        let Some(cpu) = Cpu::new(n) else {
            unreachable!()
        };
        processors.push(Processor::start(cpu, cpus, image, budget))?;
    }
    Ok(processors)
}
