ghost use Rattle.std.specs.Prelude.{◌≡◌, ◌≤◌, ◌&&◌, IfSome, is_none};
ghost use Rattle.axp_base.specs.Cpus.{cpu_number};
ghost use Rattle.axp_base.specs.declared.processors.TheConstants.{MAX_CPUS};
ghost use Rattle.axp_cpu.specs.Phases.{ended, plan_of, EndingFits, PhaseFits};
ghost use Rattle.axp_cpu.specs.Rows.{arrived};
ghost use Rattle.axp_cpu.specs.Seats.{Seat, first_seat, intent_of, is_finished, next_wanted};
ghost use Rattle.axp_cpu.specs.Seats.{seat_after_none, seat_after_value, seat_interrupted, table_now, wanted};
ghost use Rattle.axp_cpu.specs.Stands.{IsAtBoundary, IsAtEnd, IsMakeable, IsWanting, MakesFit, Standing, Stands};
ghost use Rattle.axp_cpu.specs.Stands.{plan_left};
ghost use Rattle.axp_regs.specs.States.{with_fetched};

use crate::cpu_states::CpuState;
use crate::endings::Ending;
use crate::frames::begin_entry;
use crate::phases::{Phase, Stage, begin, resume};
use axp_access::{Intent, Wanted};
use axp_base::Cpu;
use axp_image::Image;
use axp_regs::State;
use axp_tb::Tb;
use axp_trap::Cause;

/// One processor: its table state, the access that it wants inside of a group, and the number of
/// steps that it made.
#[derive(Debug, Drop)]
pub struct Sequencer {
    size: u64,
    cpus: u8,
    budget: u32,
    table: CpuState,
    making: Option<(Wanted, Stage)>,
    steps: u32,
}

impl Sequencer {
    /// A processor of a machine at the start, with a budget of steps: R16 is its number, R30 the
    /// image's stack word, the program counter the image's entry.
    pub fn start(cpu: Cpu, cpus: u8, image: &Image, budget: u32) -> Sequencer
        requires { cpus ≤ MAX_CPUS }
        ensures { Stands result (first_seat image.now cpus budget (cpu_number cpu)) }
    {
        let number = cpu.number();
        let mut state = State::new(number);
        state.set(16, u64::from(number));
        state.set(30, image.stack());
        state.set_pc(image.entry());
        state.set_ptbr(image.table());
        Sequencer {
            size: image.size(),
            cpus,
            budget,
            table: CpuState {
                state,
                halted: None,
                pending: None,
                itb: Tb::empty(),
                dtb: Tb::empty(),
            },
            making: None,
            steps: 0,
        }
    }

    /// The state as it is now: that at the start of the group of accesses, but for the count of
    /// fetched instructions, which rises with each fetch.
    pub fn state(&self) -> &State
        ensures now { (s : Seat) → Stands self.now s → result.now ≡ (table_now s).state }
        ensures registers { (s : Seat) → Stands self.now s
            → with_fetched result.now 0 ≡ with_fetched s.start.state 0 }
    {
        &self.table.state
    }

    /// The halt code, 1 to 4, once it is halted.
    pub fn halted(&self) -> Option<u8>
        ensures { (s : Seat) → Stands self.now s → result ≡ s.start.halted }
    {
        self.table.halted
    }

    /// The number of steps that it made.
    pub fn steps(&self) -> u32
        ensures { (s : Seat) → Stands self.now s → result ≡ s.steps }
    {
        self.steps
    }

    /// Whether it is halted or has made its budget of steps.
    pub fn finished(&self) -> bool
        ensures { (s : Seat) → Stands self.now s → result ≡ is_finished s }
    {
        self.table.halted.is_some() || self.budget <= self.steps
    }

    /// The access that it wants; `None` where it is finished, or its group ends with no access.
    pub fn wanted(&self) -> Option<Wanted>
        requires { Standing self.now }
        ensures wanted { (s : Seat) → Stands self.now s → result ≡ wanted s }
        ensures makeable { (s : Seat) → Stands self.now s → IfSome result (IsMakeable s.size s.cpus) }
    {
        if self.finished() {
            return None;
        }
        match self.next() {
            Phase::Wants(wanted, _) => Some(wanted),
            Phase::Ends(_) => None,
        }
    }

    /// The access that it would make with a step left; `None` where it is halted, or its group ends
    /// with no access.
    pub fn next_wanted(&self) -> Option<Wanted>
        requires { Standing self.now }
        ensures { (s : Seat) → Stands self.now s → result ≡ next_wanted s }
    {
        if self.table.halted.is_some() {
            return None;
        }
        match self.next() {
            Phase::Wants(wanted, _) => Some(wanted),
            Phase::Ends(_) => None,
        }
    }

    /// What the processor is about to do.
    pub fn intent(&self) -> Intent
        requires { Standing self.now }
        ensures value { (s : Seat) → Stands self.now s → result ≡ intent_of s }
        ensures makeable { (s : Seat) → Stands self.now s
            → IfSome result.wanted (IsMakeable s.size s.cpus) }
    {
        Intent {
            finished: self.finished(),
            boundary: self.is_at_boundary(),
            takes_interrupts: self.table.state.ps() % 8 < 5,
            lock_flag: self.table.state.locked(),
            wanted: self.wanted(),
        }
    }

    /// Whether it has made no access of its next group, and is about to make no entry.
    fn is_at_boundary(&self) -> bool
        ensures { result ≡ (is_none self.now.making && is_none self.now.table.pending) }
    {
        self.making.is_none() && self.table.pending.is_none()
    }

    /// Makes a step whose access gave this value, 0 where it gives none.
    pub fn advance(&mut self, value: u64)
        requires { IsWanting self.old }
        ensures { (s : Seat) → Stands self.old s → Stands self.new (seat_after_value s value) }
    {
        let Phase::Wants(_, stage) = self.next() else {
            return;
        };
        let phase = resume(self.size, self.cpus, &mut self.table, stage, value);
        self.steps += 1;
        match phase {
            Phase::Wants(wanted, stage) => self.making = Some((wanted, stage)),
            Phase::Ends(ending) => {
                finish(self.size, &mut self.table, ending);
                self.making = None;
            }
        }
    }

    /// Makes a step without an access: the group ends with it.
    pub fn pass(&mut self)
        requires { IsAtEnd self.old }
        ensures { (s : Seat) → Stands self.old s → Stands self.new (seat_after_none s) }
    {
        let Phase::Ends(ending) = self.next() else {
            return;
        };
        self.steps += 1;
        finish(self.size, &mut self.table, ending);
        self.making = None;
    }

    /// Begins the entry of an interrupt with this code at a boundary; the processor halts where the
    /// entry's frame cannot be written. It is no step.
    pub fn interrupt(&mut self, code: u64)
        requires { IsAtBoundary self.old }
        ensures { (s : Seat) → Stands self.old s → Stands self.new (seat_interrupted code s) }
    {
        self.table.pending = Some(Cause::Int { code });
        arrive(self.size, &mut self.table);
    }

    /// What its group still has to do.
    fn next(&self) -> Phase
        requires { MakesFit self.now.cpus self.now.table self.now.making }
        ensures plan { plan_of self.now.size self.now.cpus self.now.table result
            ≡ plan_left self.now }
        ensures fits { PhaseFits self.now.cpus self.now.table result }
    {
        match self.making {
            None => begin(self.size, self.cpus, &self.table),
            Some((wanted, stage)) => Phase::Wants(wanted, stage),
        }
    }
}

/// Ends a group, and goes on by itself where it raised an entry whose frame cannot be written: then
/// the processor halts.
fn finish(size: u64, table: &mut CpuState, ending: Ending)
    requires { EndingFits table.old.state ending }
    ensures { table.new ≡ arrived size (ended ending table.old) }
{
    table.end(ending);
    arrive(size, table);
}

/// Goes on by itself behind a group.
#[tactic(auto, unfolding(crate::specs::Rows::arrived))]
fn arrive(size: u64, table: &mut CpuState)
    ensures { table.new ≡ arrived size table.old }
{
    let Some(cause) = table.pending else {
        return;
    };
    if let Phase::Ends(ending) = begin_entry(size, table, cause) {
        table.end(ending);
    }
}
