//! The text of event lists and traces, both ways: the lines that are written, the lines that are
//! read, and a file as its lines.
#![tactic(auto)]

mod accesses;
mod cuts;
mod digits;
mod events;
mod fields;
mod files;
mod headers;
mod lines;
mod records;
mod refusals;
mod summaries;
mod tails;
mod verdicts;

pub use digits::{decimal_gives_back, hex_gives_back, write_value};
pub use events::{events_are_their_texts, read_event};
pub use files::{LINE_FEED, first_line, line_feed_is_10, lines_are_whole, lines_begin};
pub use headers::{Header, headers_are_their_texts, read_header, write_header};
pub use lines::{LINE_ROOM, LineText, TraceLine, limits_are_these, lines_are_read_back, read_line};
pub use records::{records_are_their_texts, write_event};
pub use refusals::{
    MOST_KIND, write_bad_elf, write_bad_image, write_bad_source, write_bad_trace, write_differs,
    write_given, write_incomplete, write_not_legal, write_read_fault, write_right, write_too_long,
    write_usage, write_violated,
};
pub use summaries::{MOST_LABEL, write_count, write_events, write_summary_header};
pub use tails::{tails_are_their_texts, write_tail};
pub use verdicts::write_consistent;

#[cfg(test)]
mod tests;
