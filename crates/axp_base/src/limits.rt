//! How much the parts of the memory system keep.

/// The most entries that a write buffer keeps.
pub const WBUF_ENTRIES: usize = 8;

/// The most copies that a bank keeps.
pub const BANK_COPIES: usize = 16;
