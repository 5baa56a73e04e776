ghost use Rattle.std.specs.Prelude.{◌≡◌, ◌==◌, ◌<◌, ◌≤◌, [], true, if◌then◌else◌, IfOk, is_ok, length};
ghost use Rattle.axp_access.specs.Offers.{are_ascending, is_offered};
ghost use Rattle.axp_access.specs.declared.Act.{Act};
ghost use Rattle.axp_access.specs.declared.Act.TheVariants.{Step};
ghost use Rattle.axp_base.specs.declared.processors.TheConstants.{MAX_BUDGET, MAX_CPUS, MIN_CPUS};
ghost use Rattle.axp_base.specs.Cpus.{cpu_number};
ghost use Rattle.axp_lsu.specs.EntryStates.{entry_in};
ghost use Rattle.axp_lsu.specs.Fitting.{ShowsFitting};
ghost use Rattle.axp_lsu.specs.Going.{is_entered};
ghost use Rattle.axp_lsu.specs.Offering.{drops_of, full_bank, is_open};
ghost use Rattle.axp_lsu.specs.Reasons.{facts_of};
ghost use Rattle.axp_lsu.specs.Within.{IsAskWithin};
ghost use Rattle.axp_cpu.specs.Actors.{Actor, actor_intent, advanced, first_actor};
ghost use Rattle.axp_cpu.specs.Actors.{moved_by, outcome_of, request_of, seat_after};
ghost use Rattle.axp_cpu.specs.ActorStands.{IsAnswered, IsAt, IsMovable, IsSeated};
ghost use Rattle.axp_cpu.specs.Following as following;
ghost use Rattle.axp_cpu.specs.Seats.{is_finished, next_wanted, table_now};
ghost use Rattle.axp_cpu.specs.Stands.{Stands};
ghost use Rattle.axp_regs.specs.States.{with_fetched};

use crate::refusals::NotLegal;
use crate::sequencers::Sequencer;
use axp_access::{Act, EntryState, Intent, Offer, Outcome};
use axp_base::Cpu;
use axp_image::Image;
use axp_line::Reply;
use axp_lsu::{Ask2, Facts, Lsu};
use axp_regs::State;
use axp_trap::{CLOCK, INTERPROCESSOR};

/// One processor: it goes by the instruction table, and has a write buffer and banks of copies.
/// What it needs from the others it asks of the bus.
#[derive(Drop)]
pub struct Processor {
    cpu: Cpu,
    sequencer: Sequencer,
    unit: Lsu,
}

impl Processor {
    /// Processor `cpu` of a machine of `cpus` processors, 2 to 8, at the start, with a budget of
    /// steps, 1 to 32,768: R16 is its number, R30 the image's stack word, the program counter the
    /// image's entry; its buffer and banks are empty.
    pub fn start(cpu: Cpu, cpus: u8, image: &Image, budget: u32) -> Processor
        requires below { cpu_number cpu < cpus }
        requires least_cpus { MIN_CPUS ≤ cpus }
        requires most_cpus { cpus ≤ MAX_CPUS }
        requires least_budget { 1 ≤ budget }
        requires most_budget { budget ≤ MAX_BUDGET }
        ensures { IsAt result (first_actor image.now cpus budget cpu) }
    {
        Processor {
            cpu,
            sequencer: Sequencer::start(cpu, cpus, image, budget),
            unit: Lsu::empty(),
        }
    }

    /// The state as it is now: that at the start of the group of accesses, but for the count of
    /// fetched instructions, which rises with each fetch.
    pub fn state(&self) -> &State
        ensures now { (a : Actor) → IsAt self.now a → result.now ≡ (table_now a.seat).state }
        ensures registers { (a : Actor) → IsAt self.now a
            → with_fetched result.now 0 ≡ with_fetched a.seat.start.state 0 }
    {
        self.sequencer.state()
    }

    /// The halt code, 1 to 4; `None` exactly where it is not halted.
    pub fn halted(&self) -> Option<u8>
        ensures { (a : Actor) → IsAt self.now a → result ≡ a.seat.start.halted }
    {
        self.sequencer.halted()
    }

    /// The number of steps that it made.
    pub fn steps(&self) -> u32
        ensures { (a : Actor) → IsAt self.now a → result ≡ a.seat.steps }
    {
        self.sequencer.steps()
    }

    /// Whether it is halted or has made its budget of steps.
    pub fn finished(&self) -> bool
        ensures { (a : Actor) → IsAt self.now a → result ≡ is_finished a.seat }
    {
        self.sequencer.finished()
    }

    /// Whether no write of it waits in its buffer.
    pub fn drained(&self) -> bool
        ensures { (a : Actor) → IsAt self.now a → result ≡ (length a.kept.buffer.kept == 0) }
    {
        self.unit.is_drained()
    }

    /// How far the entry of this number of its write buffer has come; entries are numbered from 1.
    pub fn entry(&self, number: u32) -> EntryState
        ensures { (a : Actor) → IsAt self.now a → result ≡ entry_in number a.kept.buffer }
    {
        self.unit.entry(number)
    }

    /// What an act asks of the bus; [`NotLegal`] exactly where it is not legal, whether something is
    /// late aside, which the bus alone knows.
    #[tactic(auto, unfolding(crate::specs::Actors::request_of))]
    pub fn request(&self, act: Act) -> Result<Ask2, NotLegal>
        requires { IsSeated self.now }
        ensures asked { (a : Actor) → IsAt self.now a → result ≡ request_of a act }
        ensures within { (a : Actor) → IsAt self.now a → IfOk result (IsAskWithin a.seat.size) }
    {
        let intent = self.sequencer.intent();
        self.unit.ask(act, &intent).ok_or(NotLegal)
    }

    /// The acts that [`Processor::request`] allows: so a late invalidation is offered also where
    /// none is late, which the bus alone knows.
    #[tactic(auto, unfolding(crate::specs::Actors::request_of))]
    pub fn offer(&self) -> Offer
        requires { IsSeated self.now }
        ensures acts { (a : Actor) → IsAt self.now a
            → (e : Act) → is_offered result e ≡ is_ok (request_of a e) }
        ensures late { (a : Actor) → IsAt self.now a → result.late
            ≡ (is_open (is_finished a.seat) a.kept, is_open (is_finished a.seat) a.kept) }
        ensures spent { (a : Actor) → IsAt self.now a → result.spent ≡ is_finished a.seat }
        ensures drops { (a : Actor) → IsAt self.now a → result.drops.items
            ≡ (if is_open (is_finished a.seat) a.kept then drops_of a.kept else []) }
        ensures ascending { are_ascending result.drops.items ≡ true }
        ensures needs { (a : Actor) → IsAt self.now a
            → result.needs ≡ full_bank (next_wanted a.seat) a.kept }
    {
        let intent = self.sequencer.intent();
        let next = self.sequencer.next_wanted();
        self.unit.offer(&intent, &next)
    }

    /// What the conditions of an act ask (docs/MACHINE.md, "Which events are legal"). Whether
    /// something is late is the bus's to tell.
    pub fn facts(&self, act: Act, late: bool) -> Facts
        requires { IsSeated self.now }
        ensures { (a : Actor) → IsAt self.now a
            → result ≡ facts_of act (actor_intent a) late a.kept }
    {
        let intent = self.sequencer.intent();
        self.unit.facts(act, &intent, late)
    }

    /// Does an act that was asked for, with the bus's answer where it asked, and tells its outcome.
    /// It goes on with the value that the outcome shows.
    #[tactic(auto, unfolding(crate::specs::Actors::outcome_of, crate::specs::Actors::advanced))]
    pub fn advance(&mut self, act: Act, reply: Option<Reply>) -> Outcome
        requires { IsAnswered self.old act reply }
        ensures outcome { (a : Actor) → IsAt self.old a → result ≡ outcome_of a act reply }
        ensures fits { ShowsFitting result }
        ensures at { (a : Actor) → IsAt self.old a → IsAt self.new (advanced a act reply) }
        ensures shown { (a : Actor) → IsAt self.old a
            → (advanced a act reply).seat ≡ following.seat_after act result a.seat }
    {
        let intent = self.sequencer.intent();
        self.sequence(act, &intent, reply);
        self.unit.advance(act, self.cpu, &intent, reply)
    }

    /// Moves the sequencer by an act: a step goes on with the value of the wanted access, and an
    /// interrupt begins its entry.
    fn sequence(&mut self, act: Act, intent: &Intent, reply: Option<Reply>)
        requires { IsMovable self.old act intent.now }
        ensures seat { (a : Actor) → IsAt self.old a
            → Stands self.new.sequencer (seat_after act reply a) }
        ensures cpu { self.new.cpu ≡ self.old.cpu }
        ensures unit { self.new.unit ≡ self.old.unit }
    {
        match act {
            Act::Step => self.step(intent, reply),
            Act::Poll => {
                if is_entered(intent.takes_interrupts, reply) {
                    self.sequencer.interrupt(INTERPROCESSOR);
                }
            }
            Act::Tick => self.sequencer.interrupt(CLOCK),
            Act::Fill | Act::Drain(_) | Act::Take(_) | Act::Drop(_, _) => {}
        }
    }

    /// Moves the sequencer by a step.
    fn step(&mut self, intent: &Intent, reply: Option<Reply>)
        requires { IsMovable self.old Step intent.now }
        ensures seat { (a : Actor) → IsAt self.old a
            → Stands self.new.sequencer (moved_by (actor_intent a).wanted reply a) }
        ensures cpu { self.new.cpu ≡ self.old.cpu }
        ensures unit { self.new.unit ≡ self.old.unit }
    {
        match &intent.wanted {
            Some(wanted) => {
                let value = self.unit.value(wanted, reply);
                self.sequencer.advance(value);
            }
            None => self.sequencer.pass(),
        }
    }
}

/// Whether a poll with this answer enters.
fn is_entered(takes_interrupts: bool, reply: Option<Reply>) -> bool
    ensures { result ≡ is_entered takes_interrupts reply }
{
    match reply {
        Some(Reply::Polled { pending, .. }) => pending && takes_interrupts,
        _ => false,
    }
}
