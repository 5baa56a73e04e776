//! The definitions of the memory model, over lists of records, with worked examples that hold by
//! computation. No code that runs; what the definitions say in other words is proved in `axp_laws`.
#![tactic(auto)]

mod examples;

pub use examples::{
    invalidations_come_late, locks_are_of_blocks, shown_traces_are_runs, signals_are_turns,
    writes_wait, written_code_wants_imb,
};
