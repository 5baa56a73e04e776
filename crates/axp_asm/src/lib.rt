//! Images from assembler sources, and the listing of an image as such a source. `docs/FORMATS.md`
//! has the grammar under "Assembler source".
#![tactic(auto)]

mod assembling;
mod drafts;
mod faults;
mod heads;
mod labels;
mod laws;
mod layout;
mod listings;

pub use assembling::assemble;
pub use faults::AsmError;
pub use laws::{
    branches_lead_to_their_labels, labels_have_their_names, listings_give_their_images,
    source_limits_as_numbers, sources_are_worked_out,
};
pub use layout::{ENTRY_LINE, MAX_SOURCE, MEMORY_LINE, STACK_LINE, TABLE_LINE};
pub use listings::listing;

#[cfg(test)]
mod tests;
