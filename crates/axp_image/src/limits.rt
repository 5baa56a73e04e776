//! The limits of what an image may say.

/// The number of bytes in a page of memory. A memory is a whole number of pages.
pub const PAGE_BYTES: u64 = 8192;

/// The number of bytes in the largest memory, 16 MiB.
pub const MAX_MEMORY: u64 = 16_777_216;

/// The largest number of segments in an image.
pub const MAX_SEGMENTS: u32 = 64;

/// The virtual address at which the kernel's directly mapped memory starts: the address `KSEG + n`
/// stands for the physical address `n`.
pub const KSEG: u64 = 0xFFFF_FC00_0000_0000;

/// The number of bytes in an instruction. Its address is a multiple of this.
pub const INSTRUCTION_BYTES: u64 = 4;
