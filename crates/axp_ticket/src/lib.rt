//! A lock that serves its callers in one order, and keeps one history of their calls.
//!
//! The lock is generic over the value that it serves ([`Served`]). Each call of a seat has one
//! position in the history; the value's answer is right after the calls before it. A seat that
//! waits for its turn sleeps at the place of its ticket, and a pass on wakes the place of the next
//! ticket alone. A sleep begins only while nobody was woken there since before the seat looked, so
//! no wake is lost. A lock is `Sync`, and it and its seats are `Send`, where the value is `Send`.
#![tactic(auto)]

mod board;
mod laws;
mod lock;
mod places;
mod plays;
mod serving;

pub use laws::{callers_are_in_order, each_call_is_right, kept_calls_fix_the_history};
pub use lock::{TicketLock, TicketSeat, TicketSeats};
pub use serving::Served;

#[cfg(test)]
mod tests;
