//! The translation buffer (TB), which keeps page table entries between the accesses that need them.
//! `specs/Buffers.antt` says what it gives.
#![tactic(auto)]

mod buffers;
mod entries;
mod laws;

pub use buffers::{TB_ENTRIES, Tb};
pub use entries::TbEntry;
pub use laws::{finds_after_drops, finds_after_put, finds_the_last, limits_are_these};

#[cfg(test)]
mod tests;
