/// Why a file gives no list of accesses.
#[derive(Clone, Copy, Debug, PartialEq, Eq)]
pub enum TraceFault {
    /// The line of this number, from 1, is the first outside the grammar of a trace. An event list is at
    /// fault in line 1, and a file that ends inside its tail in the line after its last.
    Bad {
        /// The line's number.
        line: u32,
    },
    /// Memory was not found.
    Memory,
}
