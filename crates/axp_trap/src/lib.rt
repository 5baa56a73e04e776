//! Entries to the operating system: what raises one, the frame that it saves on the kernel stack,
//! and the state in which the operating system begins. `specs/` has the tables.
#![tactic(auto)]

mod causes;
mod entries;
mod frames;
mod laws;
mod registers;
mod status;

pub use causes::{
    BREAKPOINT, BUGCHECK, CLOCK, Cause, FLOATING_DISABLED, GENERATED_TRAP, INTEGER_OVERFLOW,
    INTERPROCESSOR, RESERVED_INSTRUCTION,
};
pub use entries::{INTERRUPT_LEVEL, enter};
pub use frames::{
    A0_SLOT, A1_SLOT, A2_SLOT, FRAME_BYTES, FRAME_WORDS, GP_SLOT, PC_SLOT, PS_SLOT, frame,
};
pub use laws::{
    codes_are_these, entries_end_in_kernel_mode, entries_go_to_their_addresses,
    entries_keep_the_rest, entries_tell_their_cause, frames_are_saved_in_order,
    mode_and_level_are_apart, numbers_are_these, stacks_change_with_the_mode,
};
pub use registers::{A0, A1, A2, GP, SP, V0};
pub use status::{MODE_BIT, mode, status_at_level};

#[cfg(test)]
mod tests;
