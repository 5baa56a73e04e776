//! Where the fields of an image file, version 1, stand. All numbers are little-endian.
//!
//! | Offset | Size | Field |
//! |---|---|---|
//! | 0 | 4 | the magic number, the text `AXPI` |
//! | 4 | 2 | the version, 1 |
//! | 6 | 2 | the number of segments, 0 to 64 |
//! | 8 | 8 | the size of memory in bytes, a multiple of 8,192 from 8,192 to 16,777,216 |
//! | 16 | 8 | the entry address, a multiple of 4 from the start of the kernel segment to its last word |
//! | 24 | 8 | the stack word, any |
//! | 32 | 8 | the page on which the page table begins, one of memory |
//! | 40 + 16n | 16 | the record of segment n: its address (8), its length (4), zero (4) |
//! | after the records | | the segments' bytes, in order |

/// The magic number: the text `AXPI`, whose first byte is the lowest.
pub const MAGIC: u32 = 0x4950_5841;

/// The one version that is read.
pub const VERSION: u16 = 1;

/// The offset of the magic number.
pub const MAGIC_AT: usize = 0;

/// The offset of the version.
pub const VERSION_AT: usize = 4;

/// The offset of the number of segments.
pub const COUNT_AT: usize = 6;

/// The offset of the size of memory.
pub const SIZE_AT: usize = 8;

/// The offset of the entry address.
pub const ENTRY_AT: usize = 16;

/// The offset of the stack word.
pub const STACK_AT: usize = 24;

/// The offset of the page table's page.
pub const TABLE_AT: usize = 32;

/// The number of bytes before the first segment's record.
pub const HEADER_BYTES: usize = 40;

/// The number of bytes in a segment's record.
pub const RECORD_BYTES: usize = 16;

/// Where a record has the segment's address.
pub const ADDRESS_AT: usize = 0;

/// Where a record has the segment's length.
pub const LENGTH_AT: usize = 8;

/// Where a record has the word that is zero.
pub const ZERO_AT: usize = 12;
