//! The bus that processors share: memory, what each of them is still to see of the others' writes,
//! their lock registers and interprocessor interrupts, and the console.
#![tactic(auto)]

mod buses;
mod call_lists;
mod laws;
mod marks;
mod ports;
mod replies;
mod steps;
mod writes;

pub use buses::Bus;
pub use call_lists::{Call, CallList};
pub use laws::{
    answers_fit_requests, buses_keep_what_calls_made, gone_has_a_bit_for_each_copy,
    late_turns_were_made, nothing_where_nothing_is_late, refused_without_a_lock,
    told_lines_are_of_memory, turns_are_bounded,
};

#[cfg(test)]
mod tests;
