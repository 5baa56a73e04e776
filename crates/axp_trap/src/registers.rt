//! The registers to which the calling standard and PALcode give a use, by their numbers.

/// The register of a function's result, v0.
pub const V0: u8 = 0;

/// The register of the first argument, a0.
pub const A0: u8 = 16;

/// The register of the second argument, a1.
pub const A1: u8 = 17;

/// The register of the third argument, a2.
pub const A2: u8 = 18;

/// The global pointer.
pub const GP: u8 = 29;

/// The stack pointer.
pub const SP: u8 = 30;
