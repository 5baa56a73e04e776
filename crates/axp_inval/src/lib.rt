//! The invalidations that a processor has not yet seen: which lines other processors wrote, and in
//! which turns, in the order of the turns.
#![tactic(auto)]

mod laws;
mod queues;

pub use laws::{later_is_a_kept_pair, taken_in_order_of_adding};
pub use queues::LateQueue;

#[cfg(test)]
mod tests;
