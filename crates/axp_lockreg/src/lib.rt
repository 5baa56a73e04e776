//! The lock register of a processor: which block of memory it has locked, so that a conditional
//! store there may succeed.
#![tactic(auto)]

mod laws;
mod registers;

pub use axp_base::LOCK_BYTES;
pub use laws::{allowed_is_still_locked, block_is_in_one_line};
pub use registers::LockReg;

#[cfg(test)]
mod tests;
