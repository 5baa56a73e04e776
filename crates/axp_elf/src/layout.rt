//! Where the fields of an executable stand, by the System V ABI's ELF-64 header and program header.
//! All numbers are little-endian, and a field that is not named here is not read.
//!
//! | Offset | Size | Field |
//! |---|---|---|
//! | 0 | 4 | the magic number, 7F and the text `ELF` |
//! | 4 | 1 | the class, 2: words of 64 bits |
//! | 5 | 1 | the order of bytes, 1: the lowest first |
//! | 6 | 1 | the version of the identification, 1 |
//! | 16 | 2 | the type, 2: an executable |
//! | 18 | 2 | the machine, 9026 hexadecimal: Alpha |
//! | 20 | 4 | the version of the format, 1 |
//! | 24 | 8 | the entry address |
//! | 32 | 8 | the offset of the program headers |
//! | 54 | 2 | the size of a program header, 56 |
//! | 56 | 2 | the number of program headers, 0 to 512 |
//!
//! A program header:
//!
//! | Offset | Size | Field |
//! |---|---|---|
//! | 0 | 4 | its type |
//! | 8 | 8 | the offset of its bytes in the file |
//! | 16 | 8 | its virtual address |
//! | 32 | 8 | the number of its bytes in the file |
//! | 40 | 8 | the number of its bytes in memory |

/// The magic number, whose first byte is the lowest.
pub const MAGIC: u64 = 0x464C_457F;

/// The class of files with words of 64 bits.
pub const CLASS: u64 = 2;

/// The order of bytes that has the lowest first.
pub const DATA: u64 = 1;

/// The one version, of the identification and of the format.
pub const VERSION: u64 = 1;

/// The type of an executable.
pub const EXECUTABLE: u64 = 2;

/// The number of Alpha AXP processors.
pub const MACHINE: u64 = 0x9026;

/// The number of bytes in a program header.
pub const HEADER_BYTES: u64 = 56;

/// The largest number of program headers that is read.
pub const MAX_HEADERS: u64 = 512;

/// The offset of the magic number.
pub const MAGIC_AT: usize = 0;

/// The offset of the class.
pub const CLASS_AT: usize = 4;

/// The offset of the order of bytes.
pub const DATA_AT: usize = 5;

/// The offset of the identification's version.
pub const IDENTITY_AT: usize = 6;

/// The offset of the type.
pub const TYPE_AT: usize = 16;

/// The offset of the machine.
pub const MACHINE_AT: usize = 18;

/// The offset of the format's version.
pub const VERSION_AT: usize = 20;

/// The offset of the entry address.
pub const ENTRY_AT: usize = 24;

/// The offset of the program headers' offset.
pub const START_AT: usize = 32;

/// The offset of the size of a program header.
pub const HEADER_SIZE_AT: usize = 54;

/// The offset of the number of program headers.
pub const COUNT_AT: usize = 56;

/// The type of a header whose bytes are loaded into memory.
pub const LOAD: u64 = 1;

/// The type of a header that asks for dynamic linking.
pub const DYNAMIC: u64 = 2;

/// The type of a header that names a program interpreter, which would link dynamically.
pub const INTERPRETER: u64 = 3;

/// Where a program header has its type.
pub const KIND_AT: usize = 0;

/// Where a program header has the offset of its bytes in the file.
pub const OFFSET_AT: usize = 8;

/// Where a program header has its virtual address.
pub const ADDRESS_AT: usize = 16;

/// Where a program header has the number of its bytes in the file.
pub const FILE_SIZE_AT: usize = 32;

/// Where a program header has the number of its bytes in memory.
pub const MEMORY_SIZE_AT: usize = 40;
