//! A processor's merging write buffer: stores wait in it for their turn in memory, those to one
//! line in one entry, until a barrier closes the group that they may merge into.
#![tactic(auto)]

mod buffers;
mod entries;
mod laws;
mod lists;

pub use axp_base::WBUF_ENTRIES;
pub use buffers::{Full, Wbuf};
pub use laws::{
    newest_is_overlaid, oldest_group_is_in_front, own_writes_leave_in_order, rules_are_kept,
    store_keeps_other_entries, stored_is_overlaid,
};

#[cfg(test)]
mod tests;
