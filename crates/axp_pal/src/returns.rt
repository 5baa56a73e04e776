//! The returns from the operating system: retsys from a call of it, rti from any other entry.
ghost use Rattle.std.specs.Prelude.{◌≡◌, length};
ghost use Rattle.axp_pal.specs.Returns.{read_at, returned, return_asks, system_return_asks};
ghost use Rattle.axp_pal.specs.Returns.{system_returned, to_kernel, to_user, with_return};
ghost use Rattle.axp_trap.specs.declared.frames.TheConstants.{FRAME_WORDS};

use crate::MOST_ASKS;
use arrayvec::ArrayVec;
use axp_base::QUADWORD_BYTES;
use axp_pte::Mode;
use axp_regs::{Ask, Kind, State};
use axp_trap::{
    A0, A0_SLOT, A1, A1_SLOT, A2, A2_SLOT, FRAME_BYTES, FRAME_WORDS, GP, GP_SLOT, PC_SLOT, PS_SLOT,
    SP, mode,
};

/// The status to which user mode returns: interrupt level 0.
pub const USER_STATUS: u64 = 8;

/// The read of one word of the frame at an address.
fn reload(frame: u64, slot: u64) -> Ask
    ensures { result ≡ read_at frame slot }
{
    Ask {
        kind: Kind::Read,
        address: frame.wrapping_add(slot),
        direct: false,
        size: QUADWORD_BYTES as u8,
        value: 0,
    }
}

/// The accesses of retsys: reads of the program counter and the global pointer.
pub(crate) fn read_call_frame(state: &State) -> ArrayVec<Ask, MOST_ASKS>
    ensures { result.items ≡ system_return_asks state.now }
{
    let frame = state.get(SP);
    let mut asks = ArrayVec::new();
    asks.push(reload(frame, PC_SLOT));
    asks.push(reload(frame, GP_SLOT));
    asks
}

/// The accesses of rti: reads of the whole frame.
pub(crate) fn read_frame(state: &State) -> ArrayVec<Ask, MOST_ASKS>
    ensures { result.items ≡ return_asks state.now }
{
    let frame = state.get(SP);
    let mut asks = ArrayVec::new();
    asks.push(reload(frame, PS_SLOT));
    asks.push(reload(frame, PC_SLOT));
    asks.push(reload(frame, GP_SLOT));
    asks.push(reload(frame, A0_SLOT));
    asks.push(reload(frame, A1_SLOT));
    asks.push(reload(frame, A2_SLOT));
    asks
}

/// Takes the frame from the stack, in user mode.
fn go_to_user(state: &mut State)
    ensures { state.new ≡ to_user state.old }
{
    let kernel = state.get(SP).wrapping_add(FRAME_BYTES);
    let user = state.usp();
    state.set_ps(USER_STATUS);
    state.set_ksp(kernel);
    state.set(SP, user);
}

/// Takes the frame from the stack, in kernel mode with this status.
fn go_to_kernel(state: &mut State, status: u64)
    ensures { state.new ≡ to_kernel status state.old }
{
    let kernel = state.get(SP).wrapping_add(FRAME_BYTES);
    state.set_ps(status & 15);
    state.set(SP, kernel);
}

/// Goes back to where the entry was raised, with its global pointer, and clears the lock flag.
fn go_back(state: &mut State, pc: u64, global: u64)
    ensures { state.new ≡ with_return pc global state.old }
{
    state.set_pc(pc & !3);
    state.set(GP, global);
    state.set_locked(false);
}

/// Returns from a call of the operating system with the words that were read.
pub(crate) fn return_from_call(state: &mut State, values: &[u64])
    requires { length values.now ≡ 2 }
    ensures { state.new ≡ system_returned state.old values.now }
{
    go_to_user(state);
    go_back(state, values[0], values[1]);
}

/// Returns from an entry with the words of its frame.
pub(crate) fn return_from_entry(state: &mut State, values: &[u64])
    requires { length values.now ≡ FRAME_WORDS }
    ensures { state.new ≡ returned state.old values.now }
{
    match mode(values[0]) {
        Mode::User => go_to_user(state),
        Mode::Kernel => go_to_kernel(state, values[0]),
    }
    go_back(state, values[1], values[2]);
    state.set(A0, values[3]);
    state.set(A1, values[4]);
    state.set(A2, values[5]);
}
