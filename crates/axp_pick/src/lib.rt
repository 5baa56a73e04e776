//! Which event comes next: a generator's words, and the act of an offer that a word chooses.
#![tactic(auto)]

mod choices;
mod laws;
mod words;

pub use choices::{choose, is_able};
pub use laws::{chosen_acts_are_offered, offered_acts_can_be_chosen, words_of_a_seed};
pub use words::Words;

#[cfg(test)]
mod tests;
