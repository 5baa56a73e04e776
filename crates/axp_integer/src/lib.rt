//! The operate instructions of opcodes 10, 11, 13 and 1C (hexadecimal), by the sections of the
//! Alpha Architecture Reference Manual: sums, differences, products and comparisons (4.4), logic
//! and conditional moves (4.5), CMPBGE and the sign extensions (4.6), AMASK and IMPLVER (4.11).
//! Their rows are `specs/Rows.antt`, and `laws` says what the rows come to.
#![tactic(auto)]

mod comparing;
mod laws;
mod operating;
mod overflow;
#[cfg(test)]
mod tests;

pub use laws::{
    amask_clears_the_lowest_bit, bytes_compared, difference_takes_back_sum, exact_without_overflow,
    logic_by_bits, logic_by_complements, longwords_are_sign_extended, low_longwords, moves_by_sign,
    opposite_moves, overflow_is_no_fit, overflow_keeps_the_value, scaled_quadwords, whole_product,
};
pub use operating::operate;
