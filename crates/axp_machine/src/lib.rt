//! The machine: processors over the bus, by the events that they are given.
//!
//! What an event gives after any records is `answer_of` (`specs/Runs.antt`): each processor goes by
//! its own events and by the bus's answers (`axp_world`), and that is what the memory model says of
//! the records.
#![tactic(auto)]

mod laws;
mod machine;

pub use axp_cpu::{NotLegal, Reason};
pub use axp_regs::{REGISTERS, ZERO_REGISTER};
pub use laws::{records_are_a_run, runs_keep_the_constraints, tails_tell_what_is_left};
pub use machine::{Machine, TailAt};

#[cfg(test)]
mod tests;
