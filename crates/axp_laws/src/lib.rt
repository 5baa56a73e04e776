//! What the definitions of the memory model say in other words: laws of every run, each proved as
//! the contract of a function that does nothing.
#![tactic(auto)]

mod causality;
mod entries;
mod interrupts;
mod late;
mod locks;
mod order;
mod storage;

pub use causality::no_causal_loop;
pub use entries::{
    ages_are_write_barriers, drained_turns, entries_that_wait, numbers_of_accesses,
    oldest_group_is_in_front, states_of_entries, write_barrier_stands_between,
};
pub use interrupts::{interrupts_fall_between_groups, poll_rule};
pub use late::{copies_are_held_lines, held_copies, late_by_counting, late_pairs_are_turns};
pub use locks::{locking, undisturbed_in_words};
pub use order::{
    accesses_lie_in_quadwords, before_is_a_strict_order, counts_grow, order_is_kept,
    overlapping_accesses_are_ordered, places_are_bounded, runs_begin_with_runs,
};
pub use storage::{
    closed_form_of_sources, held_copies_are_memory, memory_of_past_turns_stays, storage_is_kept,
    written_quadwords,
};
