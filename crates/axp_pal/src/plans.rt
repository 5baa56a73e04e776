ghost use Rattle.std.specs.Prelude.{◌≡◌, ◌∷◌, []};
ghost use Rattle.axp_regs.specs.States.{ps_of};
ghost use Rattle.axp_trap.specs.Status.{mode_of};
ghost use Rattle.axp_trap.specs.declared.causes.Cause.TheVariants.{If};
ghost use Rattle.axp_pal.specs.Calls.{asks_of, bare_ask, console_row, end_of, row_of, signal_asks};
ghost use Rattle.axp_pal.specs.Calls.{system_call_end};
ghost use Rattle.axp_pal.specs.declared.plans.PalEnd.TheVariants.{Ends, Enters};

use crate::contexts::swap_asks;
use crate::privilege::is_privileged_call;
use crate::returns::{read_call_frame, read_frame};
use arrayvec::ArrayVec;
use axp_decode::PalOp;
use axp_pte::Mode;
use axp_regs::{Ask, Kind, State};
use axp_trap::{A0, A1, BREAKPOINT, BUGCHECK, Cause, GENERATED_TRAP, RESERVED_INSTRUCTION, mode};

/// How many accesses a call makes at most.
pub const MOST_ASKS: usize = 10;

/// The code with which the call halt halts a processor.
pub const HALTED: u8 = 1;

/// The code with which callsys halts a processor in kernel mode.
pub const KERNEL_SYSTEM_CALL: u8 = 3;

/// The service of cserve that sends a byte to the console.
pub const CONSOLE_SERVICE: u64 = 1;

/// How a call ends once its accesses are made.
#[derive(Clone, Copy, Debug, PartialEq, Eq)]
pub enum PalEnd {
    /// It ends, with what [`crate::finish`] makes of the state.
    Ends,
    /// It enters the operating system.
    Enters(Cause),
    /// It halts the processor with this code.
    Halts(u8),
}

/// What a call does: its accesses in order, and its end.
#[derive(Debug, Drop)]
pub struct PalPlan {
    /// The accesses.
    pub asks: ArrayVec<Ask, MOST_ASKS>,
    /// The end.
    pub end: PalEnd,
}

/// The call makes these accesses and ends.
fn ends(asks: ArrayVec<Ask, MOST_ASKS>) -> PalPlan
    ensures asks { result.asks ≡ asks }
    ensures end { result.end ≡ Ends }
{
    PalPlan {
        asks,
        end: PalEnd::Ends,
    }
}

/// The call makes no access.
fn at_once(end: PalEnd) -> PalPlan
    ensures asks { result.asks.items ≡ [] }
    ensures end { result.end ≡ end }
{
    PalPlan {
        asks: ArrayVec::new(),
        end,
    }
}

/// The call raises an instruction fault.
fn faults(code: u64) -> PalPlan
    ensures asks { result.asks.items ≡ [] }
    ensures end { result.end ≡ Enters (If code) }
{
    at_once(PalEnd::Enters(Cause::If { code }))
}

/// An access that names no memory, so that there is nothing to translate.
fn bare(kind: Kind, value: u64) -> Ask
    ensures { result ≡ bare_ask kind value }
{
    Ask {
        kind,
        address: 0,
        direct: true,
        size: 0,
        value,
    }
}

/// The list of one access.
fn one(ask: Ask) -> ArrayVec<Ask, MOST_ASKS>
    ensures { result.items ≡ ask ∷ [] }
{
    let mut asks = ArrayVec::new();
    asks.push(ask);
    asks
}

/// The plan of cserve: the console takes a byte, every other service is reserved.
fn serve_console(state: &State) -> PalPlan
    ensures asks { result.asks.items ≡ (console_row state.now).asks }
    ensures end { result.end ≡ (console_row state.now).end }
{
    if state.get(A0) == CONSOLE_SERVICE {
        ends(one(bare(Kind::Console, state.get(A1) & 0xFF)))
    } else {
        faults(RESERVED_INSTRUCTION)
    }
}

/// The plan of wripir: a signal to the processor of the number in a0, where there is one.
fn signal(state: &State, cpus: u8) -> PalPlan
    ensures asks { result.asks.items ≡ signal_asks state.now cpus }
    ensures end { result.end ≡ Ends }
{
    let target = state.get(A0);
    if target < u64::from(cpus) {
        ends(one(bare(Kind::Signal, target)))
    } else {
        at_once(PalEnd::Ends)
    }
}

/// The plan of callsys, by the mode that makes it.
fn call_system(state: &State) -> PalPlan
    ensures asks { result.asks.items ≡ [] }
    ensures end { result.end ≡ system_call_end (mode_of (ps_of state.now)) }
{
    match mode(state.ps()) {
        Mode::User => at_once(PalEnd::Enters(Cause::Sys)),
        Mode::Kernel => at_once(PalEnd::Halts(KERNEL_SYSTEM_CALL)),
    }
}

/// The plan of a call in a mode that may make it.
#[tactic(auto, unfolding(crate::specs::Calls::row_of))]
fn allowed_plan(op: PalOp, state: &State, cpus: u8) -> PalPlan
    ensures asks { result.asks.items ≡ (row_of op state.now cpus).asks }
    ensures end { result.end ≡ (row_of op state.now cpus).end }
{
    match op {
        PalOp::HALT => at_once(PalEnd::Halts(HALTED)),
        PalOp::CSERVE => serve_console(state),
        PalOp::WRIPIR => signal(state, cpus),
        PalOp::SWPCTX => ends(swap_asks(state)),
        PalOp::RETSYS => ends(read_call_frame(state)),
        PalOp::RTI => ends(read_frame(state)),
        PalOp::BPT => faults(BREAKPOINT),
        PalOp::BUGCHK => faults(BUGCHECK),
        PalOp::GENTRAP => faults(GENERATED_TRAP),
        PalOp::CALLSYS => call_system(state),
        PalOp::IMB => ends(one(bare(Kind::CodeBarrier, 0))),
        PalOp::DRAINA
        | PalOp::WRFEN
        | PalOp::WRVPTPTR
        | PalOp::WRVAL
        | PalOp::RDVAL
        | PalOp::TBI
        | PalOp::WRENT
        | PalOp::SWPIPL
        | PalOp::RDPS
        | PalOp::WRKGP
        | PalOp::WRUSP
        | PalOp::RDUSP
        | PalOp::WHAMI
        | PalOp::RDUNIQUE
        | PalOp::WRUNIQUE => at_once(PalEnd::Ends),
    }
}

/// What a call does in this state, with this many processors: a privileged call from user mode is a
/// reserved instruction. Neither alignment nor rights of its accesses are tested.
pub fn plan(op: PalOp, state: &State, cpus: u8) -> PalPlan
    ensures asks { result.asks.items ≡ asks_of op state.now cpus }
    ensures end { result.end ≡ end_of op state.now cpus }
{
    if is_privileged_call(op) && mode(state.ps()) == Mode::User {
        return faults(RESERVED_INSTRUCTION);
    }
    allowed_plan(op, state, cpus)
}
