//! The instructions of the branch format (section 4.3 of the architecture manual, control): whether
//! a branch is taken, and its target. Their rows are `specs/Branches.antt`.
#![tactic(auto)]

mod branches;
mod laws;

pub use branches::{taken, target};
pub use laws::{branches_by_sign, opposite_branches, targets};

#[cfg(test)]
mod tests;
