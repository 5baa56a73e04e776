//! A bank in which a processor keeps copies of lines of data, each with the stamp of its moment.
#![tactic(auto)]

mod banks;
mod copies;
mod laws;

pub use axp_base::BANK_COPIES;
pub use banks::CopyBank;
pub use copies::LineCopy;
pub use laws::{
    copies_are_what_is_got, dropped_line_is_gone, held_is_what_is_got,
    invalidate_removes_an_older_copy, lines_are_the_held_ones, lines_stay_distinct_and_few,
    put_is_got, refresh_changes_a_held_line,
};

#[cfg(test)]
mod tests;
