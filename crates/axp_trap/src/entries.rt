ghost use Rattle.std.specs.Prelude.{◌≡◌, ◌<◌, ◌≤◌};
ghost use Rattle.axp_regs.specs.declared.states.TheConstants.{ENTRIES, REGISTERS};
ghost use Rattle.axp_trap.specs.declared.frames.TheConstants.{FRAME_WORDS};
ghost use Rattle.axp_trap.specs.Entering.{entered, status_after, with_argument};
ghost use Rattle.axp_trap.specs.Entering.{with_user_stack_kept};
ghost use Rattle.axp_trap.specs.Entries.{fault_code, row_of, way_code};

use crate::frames::address_of_frame;
use crate::status::{kernel_status, status_at_level};
use crate::{A0, A1, A2, Cause, FRAME_WORDS, GP, INTEGER_OVERFLOW, SP, mode};
use axp_pte::{MmFault, Mode, Way};
use axp_regs::State;

/// The interrupt level at which the operating system begins to handle an interrupt.
pub const INTERRUPT_LEVEL: u64 = 5;

/// How many words of a frame a call of the operating system saves.
pub const SYSTEM_CALL_WORDS: usize = 3;

/// The row of an entry: its number, what the arguments and the interrupt level become, where they
/// change, and how many words of its frame are saved.
#[derive(Clone, Copy, Debug, PartialEq, Eq)]
pub(crate) struct EntryRow {
    /// The number of the entry's address, below 6.
    pub number: u8,
    /// What a0 becomes.
    pub a0: Option<u64>,
    /// What a1 becomes.
    pub a1: Option<u64>,
    /// What a2 becomes.
    pub a2: Option<u64>,
    /// What the interrupt level becomes, below 8.
    pub level: Option<u64>,
    /// How many words of the frame are saved.
    pub words: usize,
}

/// How an entry tells a memory management fault.
fn code_of_fault(fault: MmFault) -> u64
    ensures { result ≡ fault_code fault }
{
    match fault {
        MmFault::Tnv => 0,
        MmFault::Acv => 1,
        MmFault::For => 2,
        MmFault::Foe => 3,
        MmFault::Fow => 4,
    }
}

/// How an entry tells what an access was to do: -1, 0 or 1.
fn code_of_way(way: Way) -> u64
    ensures { result ≡ way_code way }
{
    match way {
        Way::Fetch => u64::MAX,
        Way::Load => 0,
        Way::Store => 1,
    }
}

/// The row of an entry.
#[tactic(auto, unfolding(crate::specs::Entries::row_of))]
pub(crate) fn row(cause: Cause) -> EntryRow
    ensures value { result ≡ row_of cause }
    ensures number { result.number < ENTRIES }
    ensures words { result.words ≤ FRAME_WORDS }
{
    match cause {
        Cause::Int { code } => EntryRow {
            number: 0,
            a0: Some(code),
            a1: Some(0),
            a2: Some(0),
            level: Some(INTERRUPT_LEVEL),
            words: FRAME_WORDS,
        },
        Cause::Arith { mask } => EntryRow {
            number: 1,
            a0: Some(INTEGER_OVERFLOW),
            a1: Some(mask),
            a2: None,
            level: None,
            words: FRAME_WORDS,
        },
        Cause::Mm { va, fault, way } => EntryRow {
            number: 2,
            a0: Some(va),
            a1: Some(code_of_fault(fault)),
            a2: Some(code_of_way(way)),
            level: None,
            words: FRAME_WORDS,
        },
        Cause::If { code } => EntryRow {
            number: 3,
            a0: Some(code),
            a1: None,
            a2: None,
            level: None,
            words: FRAME_WORDS,
        },
        Cause::Una { va, opcode, a } => EntryRow {
            number: 4,
            a0: Some(va),
            a1: Some(u64::from(opcode)),
            a2: Some(u64::from(a)),
            level: None,
            words: FRAME_WORDS,
        },
        Cause::Sys => EntryRow {
            number: 5,
            a0: None,
            a1: None,
            a2: None,
            level: None,
            words: SYSTEM_CALL_WORDS,
        },
    }
}

/// In user mode, keeps the stack pointer as the user's.
fn keep_user_stack(state: &mut State)
    ensures { state.new ≡ with_user_stack_kept state.old }
{
    if mode(state.ps()) == Mode::User {
        let stack = state.get(SP);
        state.set_usp(stack);
    }
}

/// Writes an argument, where it changes.
fn write_argument(state: &mut State, n: u8, argument: Option<u64>)
    requires { n < REGISTERS }
    ensures { state.new ≡ with_argument n argument state.old }
{
    if let Some(value) = argument {
        state.set(n, value);
    }
}

/// The status after an entry: kernel mode, at the level that it sets or at the old one.
fn entry_status(level: Option<u64>, ps: u64) -> u64
    ensures { result ≡ status_after level ps }
{
    match level {
        Some(level) => status_at_level(kernel_status(ps), level),
        None => kernel_status(ps),
    }
}

/// Enters the operating system, once the frame is saved: the stack pointer becomes the frame's
/// address, and in user mode the old one is kept as the user's; the global pointer becomes the
/// kernel's; the status, the arguments and the program counter become those of the entry; the lock
/// flag is cleared.
pub fn enter(cause: Cause, state: &mut State)
    ensures { state.new ≡ entered cause state.old }
{
    let row = row(cause);
    let frame = address_of_frame(state);
    let address = state.entry(row.number);
    let global = state.kgp();
    let status = entry_status(row.level, state.ps());
    keep_user_stack(state);
    state.set(SP, frame);
    state.set(GP, global);
    state.set_ps(status);
    write_argument(state, A0, row.a0);
    write_argument(state, A1, row.a1);
    write_argument(state, A2, row.a2);
    state.set_pc(address);
    state.set_locked(false);
}
