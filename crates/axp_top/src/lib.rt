//! The top call: it takes the words of the command line, a desk and a sink, does what the words
//! say, and answers with a status.
#![tactic(auto)]

mod checks;
mod events;
mod executables;
mod file_tail;
mod image_files;
mod laws;
mod limits;
mod printing;
mod refusals;
mod replay;
mod seeds;
mod serve;
mod sources;
mod status;
mod summaries;
mod tail;
#[cfg(test)]
mod tests;
mod trace_tasks;

pub use axp_words::Word;
pub use laws::{limits_of_files, no_fault_gives_the_whole_text};
pub use limits::{MAX_IMAGE_BYTES, MAX_TRACE_BYTES};
pub use serve::serve_plain;
pub use status::Status;
