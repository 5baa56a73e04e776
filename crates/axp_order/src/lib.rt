//! What must be BEFORE what, and what sees what, in a list of accesses, whether a machine made it or not.
#![tactic(auto)]

mod kinds;
mod pairs;

pub use pairs::{issue_pair, visible, write_barrier};

#[cfg(test)]
mod tests;
