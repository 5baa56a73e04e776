//! The run that a seed defines: a generator's words choose each of its events.
#![tactic(auto)]

mod completion;
mod laws;
mod runs;

pub use completion::seeded_runs_end_complete;
pub use laws::{complete_runs_stay, done_processors_have_no_event, seeded_events_are_legal};
pub use runs::SeededRun;

#[cfg(test)]
mod tests;
