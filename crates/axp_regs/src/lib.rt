//! What one processor keeps beside its translation buffers: its registers, and an access as it asks
//! for it.
#![tactic(auto)]

mod asks;
mod laws;
mod states;

pub use asks::{Ask, Kind};
pub use laws::{
    entry_writes_are_read_back, field_writes_are_read_back, field_writes_keep_registers,
    first_state_is_empty, register_writes_are_read_back,
};
pub use states::{ENTRIES, FIRST_PS, REGISTERS, State, ZERO_REGISTER};

#[cfg(test)]
mod tests;
