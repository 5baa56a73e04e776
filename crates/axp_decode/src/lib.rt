//! Instruction words of the Alpha and the instructions that they stand for, both ways: `decode`
//! takes every word to an instruction, and `encode` takes each of these back to its word.
//!
//! The formats are those of section 3.3 of the Alpha Architecture Reference Manual, as in
//! `specs/Format.antt`; the names and numbers are those of its appendix C, as in
//! `specs/Table.antt`. `docs/TABLES.md` tells which words are of which format, and what is kept of
//! each.
#![tactic(auto)]

mod decoding;
mod encoding;
mod instructions;
mod laws;
mod names;
mod numbers;
#[cfg(test)]
mod tests;

pub use decoding::decode;
pub use encoding::encode;
pub use instructions::{Instr, Operand};
pub use laws::{
    branch_rows, fields_are_kept, floating_words, memory_rows, misc_rows, operate_rows, pal_rows,
    reserved_words, words_and_instructions, words_stand_for_instructions,
};
pub use names::{BranchOp, MemOp, MiscOp, Op, PalOp};
pub use numbers::{BYTE_OPCODE, memory_code, opcode_number};
