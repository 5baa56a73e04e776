//! A processor's load/store unit: its write buffer, its banks of copies, what it asks of the bus,
//! and how it goes on with the answers. It knows no instruction.
#![tactic(auto)]

mod asks;
mod reasons;
mod since;
mod units;

pub use asks::Ask2;
pub use reasons::{Facts, Reason, reason_of};
pub use since::Since;
pub use units::Lsu;

#[cfg(test)]
mod tests;
