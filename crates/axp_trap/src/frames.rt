ghost use Rattle.std.specs.Prelude.{◌≡◌};
ghost use Rattle.axp_trap.specs.Frames.{frame_address, frame_of, saved_at};

use crate::entries::row;
use crate::{A0, A1, A2, Cause, GP, SP, mode};
use arrayvec::ArrayVec;
use axp_base::QUADWORD_BYTES;
use axp_pte::Mode;
use axp_regs::{Ask, Kind, State};

/// How many bytes a frame takes on the kernel stack.
pub const FRAME_BYTES: u64 = 48;

/// How many words a frame has, each a quadword.
pub const FRAME_WORDS: usize = 6;

/// Where in a frame the processor status lies, in bytes.
pub const PS_SLOT: u64 = 0;

/// Where in a frame the program counter lies, in bytes.
pub const PC_SLOT: u64 = 8;

/// Where in a frame the global pointer lies, in bytes.
pub const GP_SLOT: u64 = 16;

/// Where in a frame a0 lies, in bytes.
pub const A0_SLOT: u64 = 24;

/// Where in a frame a1 lies, in bytes.
pub const A1_SLOT: u64 = 32;

/// Where in a frame a2 lies, in bytes.
pub const A2_SLOT: u64 = 40;

/// Where an entry in this state makes its frame: below the kernel stack pointer, which in kernel
/// mode is the stack pointer itself.
pub(crate) fn address_of_frame(state: &State) -> u64
    ensures { result ≡ frame_address state.now }
{
    let stack = match mode(state.ps()) {
        Mode::User => state.ksp(),
        Mode::Kernel => state.get(SP),
    };
    stack.wrapping_sub(FRAME_BYTES)
}

/// The write of one word of a frame at an address.
fn save(address: u64, slot: u64, value: u64) -> Ask
    ensures { result ≡ saved_at address slot value }
{
    Ask {
        kind: Kind::Write,
        address: address.wrapping_add(slot),
        direct: false,
        size: QUADWORD_BYTES as u8,
        value,
    }
}

/// The accesses that save the frame of an entry: writes of the status, the program counter, the
/// global pointer and the three arguments; a call of the operating system saves the first three
/// alone. The state is that in which the entry is raised, with the program counter that is to be
/// saved. Neither alignment nor rights are tested.
pub fn frame(cause: Cause, state: &State) -> ArrayVec<Ask, FRAME_WORDS>
    ensures { result.items ≡ frame_of cause state.now }
{
    let address = address_of_frame(state);
    let mut asks = ArrayVec::from_array_in(
        (),
        [
            save(address, PS_SLOT, state.ps()),
            save(address, PC_SLOT, state.pc()),
            save(address, GP_SLOT, state.get(GP)),
            save(address, A0_SLOT, state.get(A0)),
            save(address, A1_SLOT, state.get(A1)),
            save(address, A2_SLOT, state.get(A2)),
        ],
    );
    asks.truncate(row(cause).words);
    asks
}
