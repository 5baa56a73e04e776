//! Executables in the ELF-64 format of the System V ABI, read as images: a program for a bare Alpha
//! machine, whose segments stand in the kernel's directly mapped memory.
#![tactic(auto)]

mod faults;
mod fields;
mod headers;
mod laws;
mod layout;
mod loading;

pub use faults::{ElfError, ElfField};
pub use laws::{
    executable_limits_as_numbers, headers_of_executable, memory_of_executable, program_of_one_word,
};
pub use loading::read_elf;

#[cfg(test)]
mod tests;
