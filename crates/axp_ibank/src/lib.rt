//! The bank in which a processor keeps copies of lines of code, each with the stamp of its fetch.
#![tactic(auto)]

mod code;
mod laws;

pub use code::{CodeBank, without_stamps};
pub use laws::{
    code_lines_are_the_held_ones, code_lines_stay_distinct_and_few, code_put_is_got,
    dropped_code_line_is_gone, held_code_is_what_is_got,
};

#[cfg(test)]
mod tests;
