//! Physical memory, read and written by whole lines.
#![tactic(auto)]

mod laws;
mod memories;

pub use laws::write_changes_one_line;
pub use memories::Ram;

#[cfg(test)]
mod tests;
