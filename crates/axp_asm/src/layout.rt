//! How long a source may be, and which line says what.

/// The most bytes of a source, 512 MiB.
pub const MAX_SOURCE: u64 = 536_870_912;

/// The line that says the size of memory.
pub const MEMORY_LINE: u32 = 1;

/// The line that says the entry address.
pub const ENTRY_LINE: u32 = 2;

/// The line that says the stack word.
pub const STACK_LINE: u32 = 3;

/// The line that says the page of the page table.
pub const TABLE_LINE: u32 = 4;

/// The first line behind these.
pub(crate) const BODY_LINE: u32 = 5;
