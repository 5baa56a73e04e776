//! The image: a file that says how large memory is, where processors start, and which bytes memory
//! holds then.
#![tactic(auto)]

mod faults;
mod images;
mod laws;
mod layout;
mod limits;
mod reading;
mod writing;

pub use faults::{ImageError, ImageKind};
pub use images::Image;
pub use laws::{
    cut_and_longer_files, limits_as_numbers, memory_of_segments, no_fault_is_an_image, one_file,
    smallest_image,
};
pub use limits::{INSTRUCTION_BYTES, KSEG, MAX_MEMORY, MAX_SEGMENTS, PAGE_BYTES};
pub use reading::read_image;
pub use writing::write_image;

#[cfg(test)]
mod tests;
