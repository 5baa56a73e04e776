//! The words of the command line, and the commands that they spell. `docs/FORMATS.md` has the
//! grammar under "The command line".
#![tactic(auto)]

mod commands;
mod laws;
mod numbers;
mod words;

pub use commands::{Command, Usage, read_words};
pub use laws::{
    asm_is_these_two_words, check_is_these_three_words, elf_is_these_five_words,
    gen_is_these_two_words, list_is_these_two_words, numbers_are_their_decimals,
    replay_is_these_three_words, seed_is_these_five_words,
};
pub use words::Word;

#[cfg(test)]
mod tests;
