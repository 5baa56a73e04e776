ghost use Rattle.std.specs.Prelude.{ℕ, ◌≡◌, ◌+◌, ◌≤◌, ◌++◌, if◌then◌else◌, length, IfSome, Some};
ghost use Rattle.std.specs.Prelude.{None};
ghost use Rattle.axp_lsu.specs.declared.asks.Ask2.TheVariants.{Private};
ghost use Rattle.std.specs.List.{AllByRecursion};
ghost use Rattle.axp_base.specs.Cpus.{cpu_of};
ghost use Rattle.axp_base.specs.Lines.{line_number};
ghost use Rattle.axp_line.specs.declared.messages.TheConstants.{MAX_HELD};
ghost use Rattle.axp_model.specs.Legal.{is_timely};
ghost use Rattle.axp_lsu.specs.Asking.{access_ask, act_ask, ask_of, drain_ask, fill_ask, fill_for};
ghost use Rattle.axp_lsu.specs.Asking.{is_ready, signal_to, step_ask, take_ask};
ghost use Rattle.axp_lsu.specs.Fitting.{IsWithinSome};
ghost use Rattle.axp_lsu.specs.Keeping.{addressed, entry_at, has_dropped, held_pairs};
ghost use Rattle.axp_lsu.specs.Within.{IsAskWithin, IsKeptWithin, IsSmall, IsWantedWithin};

use super::Lsu;
use crate::Ask2;
use axp_access::{Act, Intent, Wanted};
use axp_base::{Bank, Cpu, Line, MAX_CPUS};
use axp_line::{Held, Request};
use axp_regs::Kind;

impl Lsu {
    /// What an act asks; `None` exactly where it is not legal, but for a take where nothing is
    /// late, which the bus alone knows.
    pub fn ask(&self, act: Act, intent: &Intent) -> Option<Ask2>
        requires { IsWithinSome self.now }
        ensures value { result ≡ ask_of act intent.now self.now }
        ensures within { (size : ℕ) → IsKeptWithin size self.now
            → IsWantedWithin size intent.now.wanted → IfSome result (IsAskWithin size) }
    {
        self.legal_ask(act, intent)
    }

    #[tactic(auto, unfolding(crate::specs::Asking::ask_of))]
    fn legal_ask(&self, act: Act, intent: &Intent) -> Option<Ask2>
        requires { IsWithinSome self.now }
        ensures { result ≡ ask_of act intent.now self.now }
    {
        if is_timely(act, intent.finished, self.since.filled) {
            self.act_ask(act, intent)
        } else {
            None
        }
    }

    fn act_ask(&self, act: Act, intent: &Intent) -> Option<Ask2>
        requires { IsWithinSome self.now }
        ensures { result ≡ act_ask act intent.now self.now }
    {
        match act {
            Act::Step => self.step_ask(intent),
            Act::Fill => self.fill_ask(intent),
            Act::Drain(k) => self.drain_ask(k),
            Act::Take(bank) => take_ask(bank),
            Act::Drop(bank, line) => {
                private_if(self.holds_in(bank, line) && !self.since.has_dropped(bank))
            }
            Act::Poll => {
                if intent.boundary && !self.since.polled {
                    Some(Ask2::Bus(Request::Poll {
                        below: intent.takes_interrupts,
                    }))
                } else {
                    None
                }
            }
            Act::Tick => private_if(
                intent.boundary && (intent.takes_interrupts && !self.since.ticked),
            ),
        }
    }

    /// A step makes the wanted access, or none at a boundary that wants none.
    fn step_ask(&self, intent: &Intent) -> Option<Ask2>
        requires { IsWithinSome self.now }
        ensures { result
            ≡ step_ask intent.now.boundary intent.now.wanted intent.now.lock_flag self.now }
    {
        match &intent.wanted {
            None => private_if(intent.boundary),
            Some(wanted) => {
                if self.is_ready(wanted.kind, Line::of(wanted.address)) {
                    Some(self.access_ask(wanted, intent.lock_flag))
                } else {
                    None
                }
            }
        }
    }

    /// Whether a step may make an access of this kind to this line now.
    fn is_ready(&self, kind: Kind, line: Line) -> bool
        ensures { result ≡ is_ready kind (line_number line) self.now }
    {
        match kind {
            Kind::Fetch => self.code.holds(line),
            Kind::Read => self.data(line).holds(line),
            Kind::Write => self.buffer.takes(line),
            Kind::Locked => !self.buffer.has_line(line) && self.data(line).has_room(line),
            Kind::Conditional => !self.buffer.has_line(line) && !self.buffer.has_closed(),
            Kind::Barrier | Kind::CodeBarrier => self.buffer.is_empty(),
            Kind::WriteBarrier | Kind::Console => true,
            Kind::Signal => !self.buffer.has_closed(),
            Kind::Poll => false,
        }
    }

    /// What the step of a wanted access asks.
    fn access_ask(&self, wanted: &Wanted, armed: bool) -> Ask2
        requires { IsWithinSome self.now }
        ensures { result ≡ access_ask wanted.now.kind wanted.now armed self.now }
    {
        match wanted.kind {
            Kind::Locked => Ask2::Bus(Request::Locked {
                address: wanted.address,
            }),
            Kind::Conditional => Ask2::Bus(Request::Conditional {
                address: wanted.address,
                size: wanted.size,
                value: wanted.value,
                armed,
            }),
            Kind::Barrier => Ask2::Bus(Request::Barrier { held: self.held() }),
            Kind::CodeBarrier => Ask2::Bus(Request::CodeBarrier { held: self.held() }),
            Kind::Signal => signal_to(wanted.value),
            Kind::Console => Ask2::Bus(Request::Console {
                byte: (wanted.value % 256) as u8,
            }),
            Kind::Fetch | Kind::Read | Kind::Write | Kind::WriteBarrier | Kind::Poll => {
                Ask2::Private
            }
        }
    }

    /// The data lines held, with their copies' stamps.
    fn held(&self) -> Held
        requires { IsWithinSome self.now }
        ensures { result ≡ held_pairs self.now }
    {
        let mut held = Held::empty();
        let even = self.even.lines();
        push_lines(&mut held, even.as_slice());
        let odd = self.odd.lines();
        push_lines(&mut held, odd.as_slice());
        held
    }

    /// A fill brings in the line of a wanted fetch or plain read.
    fn fill_ask(&self, intent: &Intent) -> Option<Ask2>
        ensures { result ≡ fill_ask intent.now.wanted self.now }
    {
        match &intent.wanted {
            None => None,
            Some(wanted) => self.fill_for(wanted),
        }
    }

    fn fill_for(&self, wanted: &Wanted) -> Option<Ask2>
        ensures { result ≡ fill_for wanted.now.kind wanted.now self.now }
    {
        let line = Line::of(wanted.address);
        match wanted.kind {
            Kind::Fetch => {
                if !self.code.holds(line) && self.code.has_room(line) {
                    Some(Ask2::Bus(Request::FillCode { line }))
                } else {
                    None
                }
            }
            Kind::Read => {
                let bank = self.data(line);
                if !bank.holds(line) && bank.has_room(line) {
                    Some(Ask2::Bus(Request::Fill { line }))
                } else {
                    None
                }
            }
            _ => None,
        }
    }

    /// A drain writes an entry of the oldest group to memory.
    fn drain_ask(&self, k: u8) -> Option<Ask2>
        ensures { result ≡ drain_ask (entry_at k self.now) }
    {
        if k >= self.buffer.drains() {
            return None;
        }
        let (_, line, mask, bytes) = self.buffer.oldest(k);
        Some(Ask2::Bus(Request::Drain { line, mask, bytes }))
    }
}

/// Nothing is asked of an act that is legal by this condition.
fn private_if(legal: bool) -> Option<Ask2>
    ensures { result ≡ (if legal then Some Private else None) }
{
    if legal { Some(Ask2::Private) } else { None }
}

/// Whether an act has its time: a finished processor may drain alone, and after a fill only the
/// step is left.
pub(super) fn is_timely(act: Act, finished: bool, filled: bool) -> bool
    ensures { result ≡ is_timely act finished filled }
{
    match act {
        Act::Step => !finished,
        Act::Drain(_) => finished || !filled,
        Act::Fill | Act::Take(_) | Act::Drop(..) | Act::Poll | Act::Tick => !finished && !filled,
    }
}

/// A signal asks the bus; one to a number that no processor has asks nothing.
#[tactic(auto, using(crate::proofs::CpuNumberLemmas::no_cpu_above))]
fn signal_to(target: u64) -> Ask2
    ensures { result ≡ signal_to (cpu_of target) }
{
    if target >= u64::from(MAX_CPUS) {
        return Ask2::Private;
    }
    match Cpu::new(target as u8) {
        None => Ask2::Private,
        Some(target) => Ask2::Bus(Request::Signal { target }),
    }
}

/// A take is of a data bank.
fn take_ask(bank: Bank) -> Option<Ask2>
    ensures { result ≡ take_ask bank }
{
    match bank {
        Bank::Even | Bank::Odd => Some(Ask2::Bus(Request::Take { bank })),
        Bank::Code => None,
    }
}

/// Puts the addresses of these lines with their stamps behind those held.
fn push_lines(held: &mut Held, lines: &[(Line, u64)])
    requires few { length held.old + length lines.now ≤ MAX_HELD }
    requires small { AllByRecursion IsSmall lines.now }
    ensures { held.new ≡ held.old ++ addressed lines.now }
{
    for (line, stamp) in lines {
        held.push(line.address() as u32, *stamp as u32);
    }
}
