use axp_pte::{MmFault, Way};

/// The code of an interrupt that another processor requested.
pub const INTERPROCESSOR: u64 = 0;

/// The code of the clock's interrupt.
pub const CLOCK: u64 = 1;

/// The code of an integer overflow (IOV), bit 6 of the exception summary.
pub const INTEGER_OVERFLOW: u64 = 64;

/// The code of the instruction fault of the call bpt.
pub const BREAKPOINT: u64 = 0;

/// The code of the instruction fault of the call bugchk.
pub const BUGCHECK: u64 = 1;

/// The code of the instruction fault of the call gentrap.
pub const GENERATED_TRAP: u64 = 2;

/// The code of the instruction fault of a floating instruction (FEN).
pub const FLOATING_DISABLED: u64 = 3;

/// The code of the instruction fault of a reserved or privileged instruction (OPDEC).
pub const RESERVED_INSTRUCTION: u64 = 4;

/// What raises an entry to the operating system, with what the entry tells of it.
#[derive(Clone, Copy, Debug, PartialEq, Eq)]
pub enum Cause {
    /// An interrupt (entInt).
    Int {
        /// Where it comes from: [`INTERPROCESSOR`] or [`CLOCK`].
        code: u64,
    },
    /// An arithmetic trap (entArith), which is always an integer overflow.
    Arith {
        /// The registers that were written: bit n for register n.
        mask: u64,
    },
    /// A memory management fault (entMM).
    Mm {
        /// The virtual address.
        va: u64,
        /// The fault.
        fault: MmFault,
        /// What the access was to do.
        way: Way,
    },
    /// An instruction fault (entIF).
    If {
        /// Which one, from [`BREAKPOINT`] to [`RESERVED_INSTRUCTION`].
        code: u64,
    },
    /// An access that is not aligned (entUna).
    Una {
        /// The virtual address.
        va: u64,
        /// The instruction's opcode.
        opcode: u8,
        /// The number of the instruction's register Ra.
        a: u8,
    },
    /// A call of the operating system (entSys).
    Sys,
}
