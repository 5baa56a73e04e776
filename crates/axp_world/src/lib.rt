//! Processors over the bus, by the calls that they make: the definition of a run, and laws that it
//! is the memory model's. No code that runs.
#![tactic(auto)]

mod laws;
mod lengths;

pub use laws::{
    played_histories_are_runs, processors_are_never_stuck, processors_go_by_their_own_deeds,
    refused_where_not_legal, runs_are_played,
};
pub use lengths::{EVENTS_PER_STEP, length_of_a_history};
