//! A summary of many seeded runs of a litmus test: which of the allowed outcomes the machine showed,
//! and how often.
#![tactic(auto)]

mod labels;
mod laws;
mod rounds;
mod summaries;

pub use labels::{Label, labels_of};
pub use laws::{counts_are_of_all_rounds, rounds_are_these, rounds_are_whole_runs};
pub use summaries::{Summary, summarize};

#[cfg(test)]
mod tests;
