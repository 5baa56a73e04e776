//! The calls of PALcode: the accesses that a call makes, how it ends, and what it makes of the
//! registers and of the translation buffers. `specs/Calls.antt` has the tables, one row a call.
#![tactic(auto)]

mod buffers;
mod contexts;
mod finishing;
mod laws;
mod plans;
mod privilege;
mod returns;

pub use buffers::{ALL_ENTRIES, DATA_PAGE, INSTRUCTION_PAGE, PAGE_IN_BOTH, PROCESS_ENTRIES};
pub use contexts::{
    ASN_PLACE, BLOCK_BYTES, COUNTER_PLACE, FEN_PLACE, PTBR_PLACE, SP_PLACE, UNIQUE_PLACE, USP_PLACE,
};
pub use finishing::finish;
pub use laws::{
    accesses_are_within_bounds, buffers_change_by_tbi, calls_keep_registers, calls_keep_the_status,
    calls_that_do_not_end, contexts_go_on_from_their_blocks, contexts_lie_in_their_blocks,
    entries_return, entry_addresses_are_written, internals_change_by_their_calls,
    numbers_are_these, privileged_calls_are_reserved_in_user_mode, returns_go_back,
    stacks_change_with_the_mode, system_calls_return, values_are_read_into_v0,
};
pub use plans::{CONSOLE_SERVICE, HALTED, KERNEL_SYSTEM_CALL, MOST_ASKS, PalEnd, PalPlan, plan};
pub use privilege::FIRST_UNPRIVILEGED;
pub use returns::USER_STATUS;

#[cfg(test)]
mod tests;
