//! A trace read as the list of its accesses and drains, which a judge takes. Only the grammar is looked at
//! (`docs/FORMATS.md`, "The trace"): whether a machine could have made the trace is not asked.
#![tactic(auto)]

mod collecting;
mod entries;
mod faults;
mod laws;
mod reading;
mod surveys;
mod tails;

pub use entries::{is_undrained, is_waiting};
pub use faults::TraceFault;
pub use laws::{end_lines_end, lists_are_histories};
pub use reading::read_trace;

#[cfg(test)]
mod tests;
