//! The litmus tests that a summary of runs is made over: which test a number chooses, and the image
//! of each.
#![tactic(auto)]

mod images;
mod laws;
mod programs;
mod shapes;

pub use images::litmus;
pub use laws::{litmus_images_are_valid, programs_are_decoded, shapes_by_number};
pub use shapes::{Shape, shape_of};

#[cfg(test)]
mod tests;
