//! The statements of an assembler source, one a line, both ways: the line of a directive or an
//! instruction, and the statement that a line spells. `docs/FORMATS.md` has the grammar under
//! "Assembler source".
#![tactic(auto)]

mod cuts;
mod fields;
mod laws;
mod names;
mod numbers;
mod reading;
mod statements;
mod texts;

pub use laws::{
    lines_are_worked_out, lines_of_statements_are_whole, names_are_told_apart,
    statements_are_their_lines,
};
pub use numbers::BRANCH_HALF;
pub use reading::read_statement;
pub use statements::{Directive, Statement};
pub use texts::{write_directive, write_instruction};

#[cfg(test)]
mod tests;
