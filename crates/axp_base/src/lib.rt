//! The values that every other crate speaks of: processors, lines and banks, masks of bytes,
//! numbers of 64 bits, and lists of bytes.
#![tactic(auto)]

mod byte_lists;
mod laws;
mod limits;
mod lines;
mod masks;
mod numbers;
mod parts;
mod processors;
mod sizes;

pub use byte_lists::{Bytes, NoMemory};
pub use laws::{
    limits_are_these, put_is_read_back, sign_bit_is_below_zero, sign_extension_keeps_the_integer,
    span_is_its_bytes,
};
pub use limits::{BANK_COPIES, WBUF_ENTRIES};
pub use lines::{Bank, LINE_BYTES, LOCK_BYTES, Line};
pub use masks::{Mask, span};
pub use numbers::sext;
pub use parts::{QUADWORD_BYTES, byte_moved_up, byte_of, number_in, put_number};
pub use processors::{Cpu, MAX_BUDGET, MAX_CPUS, MIN_CPUS};
pub use sizes::Size;

#[cfg(test)]
mod tests;
