//! What a person is told of a refusal: the file, the line of the file, and what is wrong there.
#![tactic(auto)]

mod elf_faults;
mod explanations;
mod image_faults;
mod laws;
mod line_faults;
mod reasons;
mod refusals;
mod rules;
mod source_faults;
mod texts;

pub use explanations::explain;
pub use laws::refusals_have_a_reason;
pub use line_faults::{LineAt, LineFault};

#[cfg(test)]
mod tests;
