//! The operate instructions of opcode 12 (hexadecimal): the shifts (Alpha Architecture Reference
//! Manual, section 4.5) and the byte manipulation instructions without CMPBGE (section 4.6). Their
//! rows are `specs/Rows.antt`, and `src/laws.rt` has what follows from them. Bytes are numbered
//! from the lowest.
#![tactic(auto)]

mod data_parts;
mod laws;
mod operating;
mod zapping;

pub use laws::{
    data_by_bytes, shifts, single_bytes, unaligned_loads, unaligned_stores, zap_by_bytes,
    zapnot_is_zap_of_the_complement,
};
pub use operating::bytes;

#[cfg(test)]
mod tests;
