//! The data of a line of memory, and how data are merged into it byte by byte.
#![tactic(auto)]

mod contents;
mod laws;
mod messages;

pub use contents::{LineData, NoRoom};
pub use laws::{limits_are_these, line_is_whole, merged_bytes};
pub use messages::{Held, MAX_HELD, Reply, Request};

#[cfg(test)]
mod tests;
