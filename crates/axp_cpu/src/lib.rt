//! One processor, by the instruction table: what it wants, and how it goes on with the values that
//! its accesses give.
//!
//! The table is a plan for each group of accesses (`specs/Rows.antt`); the code walks through it by
//! phases. A processor stands for a seat, where the definitions have it (`specs/Seats.antt`).
#![tactic(auto)]

mod calls;
mod cpu_states;
mod endings;
mod frames;
mod laws;
mod phases;
mod processors;
mod refusals;
mod rows;
mod sequencers;
mod translation;
mod values;
mod walks;

pub use axp_lsu::{Ask2, Facts, Reason, reason_of};
pub use laws::{
    accesses_need_their_right, groups_change_registers_at_their_end, halts_leave_the_state,
    kept_translations_lead_where_walks_led, registers_get_what_is_shown, walks_go_by_three_entries,
};
pub use processors::Processor;
pub use refusals::NotLegal;
pub use sequencers::Sequencer;
