//! The bus that threads share: a lock round it, which serves their calls in one order, and the list
//! of these calls.
//!
//! Each thread has a seat ([`BusSeat`]), whose number is its processor. A call of a seat has one
//! position among all calls, and its reply is what the bus answers after the calls before that
//! position. A seat that waits for its turn sleeps. All room is taken by [`SharedBus::open`], so a
//! call takes no memory. A shared bus is `Sync`, and it and its seats are `Send`.
#![tactic(auto)]

mod buses;
mod laws;
mod logs;

pub use buses::{BusSeat, BusSeats, CALLS_PER_STEP, Shared, SharedBus};
pub use laws::{limits_are_these, right_answers_fit};
pub use logs::{BusLog, BusStart};

#[cfg(test)]
mod tests;
