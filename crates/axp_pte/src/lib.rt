//! Virtual addresses and page table entries (PTEs): how an address is divided for the walk of three
//! levels of page tables, and what an entry allows. `specs/` has the definitions.
#![tactic(auto)]

mod addresses;
mod entries;
mod faults;
mod laws;
mod protection;

pub use addresses::{Parts, Where, split};
pub use entries::{Pte, PteBits};
pub use faults::{MmFault, Mode, Way};
pub use laws::{
    extension_repeats_bit_42, flags_are_the_named_bits, parts_make_the_address,
    rights_are_their_bits,
};
pub use protection::{rights, upper};

#[cfg(test)]
mod tests;
