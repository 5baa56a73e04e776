//! What a processor asks of the bus, and what the bus answers.
ghost use Rattle.std.specs.Prelude.{◌≡◌, ◌≤◌, ◌<◌, [], ◌∷◌, ◌++◌, length, slice_get, Some};

use crate::LineData;
use arrayvec::ArrayVec;
use axp_base::{Bank, Cpu, Line, Mask};
use std::marker::Model;

/// The most data lines of which a processor holds copies, in both banks together.
pub const MAX_HELD: usize = 32;

/// The data lines of which a processor holds copies, each with its stamp: those of bank `d0` before
/// those of `d1`, each in ascending order of lines.
#[derive(Debug, Drop)]
pub struct Held {
    pairs: ArrayVec<(u32, u32), MAX_HELD>,
}

impl Model for Held {
    ghost use Rattle.std.specs.Prelude.{ℕ, List};

    /// The address of each line with the copy's stamp.
    ghost Value = { List (ℕ × ℕ) };

    ghost use Rattle.axp_line.specs.HeldParts.{pairs_of, AreFew};

    ghost view = { pairs_of };

    ghost invariant = { AreFew };
}

impl Held {
    /// No line.
    pub fn empty() -> Held
        ensures { result ≡ [] }
    {
        Held {
            pairs: ArrayVec::new(),
        }
    }

    /// Puts the line at an address with its copy's stamp last.
    pub fn push(&mut self, address: u32, stamp: u32)
        requires { length self.old < MAX_HELD }
        ensures { self.new ≡ self.old ++ (address, stamp) ∷ [] }
    {
        self.pairs.push((address, stamp));
    }

    /// How many lines there are, at most [`MAX_HELD`].
    pub fn len(&self) -> u32
        ensures value { result ≡ length self.now }
        ensures few { result ≤ MAX_HELD }
    {
        self.pairs.len() as u32
    }

    /// The address of line `n`, counted from 0, and its copy's stamp.
    pub fn get(&self, n: u32) -> (u32, u32)
        requires { n < length self.now }
        ensures { slice_get self.now n ≡ Some result }
    {
        self.pairs[n as usize]
    }
}

/// What a processor asks of the bus.
#[derive(Debug, Drop)]
pub enum Request {
    /// To copy a line into a data bank.
    Fill {
        /// The line.
        line: Line,
    },
    /// To copy a line into the code bank.
    FillCode {
        /// The line.
        line: Line,
    },
    /// To write an entry of the write buffer to memory.
    Drain {
        /// The entry's line.
        line: Line,
        /// Which bytes of the line it has.
        mask: Mask,
        /// The bytes.
        bytes: LineData,
    },
    /// To read for a load-locked, and to lock the block of the address.
    Locked {
        /// The physical address.
        address: u64,
    },
    /// To store for a store-conditional.
    Conditional {
        /// The physical address, a multiple of the size.
        address: u64,
        /// The number of bytes, 4 or 8.
        size: u8,
        /// The bytes to be stored as a little-endian number.
        value: u64,
        /// Whether the processor's own lock flag is set.
        armed: bool,
    },
    /// To deliver all that is late, for an MB.
    Barrier {
        /// The data lines held.
        held: Held,
    },
    /// The same for an IMB.
    CodeBarrier {
        /// The data lines held.
        held: Held,
    },
    /// To deliver the oldest late invalidation of a data bank.
    Take {
        /// The bank.
        bank: Bank,
    },
    /// Whether an interprocessor interrupt is requested.
    Poll {
        /// Whether the processor's interrupt level is below 5, so that it takes the interrupt.
        below: bool,
    },
    /// To request an interprocessor interrupt.
    Signal {
        /// Of which processor.
        target: Cpu,
    },
    /// To send a byte to the console.
    Console {
        /// The byte.
        byte: u8,
    },
}

/// What the bus answers. A turn is the number of a write that reaches memory or of a signal, or,
/// where nothing is written, the number of turns made before.
#[derive(Clone, Copy, Debug, PartialEq, Eq)]
pub enum Reply {
    /// To a fill or a load-locked: the line.
    Line {
        /// The number of turns made before.
        turn: u64,
        /// The line's bytes.
        bytes: LineData,
    },
    /// To a drain, or a store-conditional that succeeds: it was written.
    Stored {
        /// The number of this turn.
        turn: u64,
        /// The line's bytes after it.
        bytes: LineData,
    },
    /// To a store-conditional that fails.
    Refused {
        /// The number of turns made before.
        turn: u64,
    },
    /// To a barrier: all that was late is delivered.
    Barrier {
        /// The number of turns made before.
        turn: u64,
        /// Bit `n` is 1 where the copy of the held line `n` is removed by it.
        gone: u32,
    },
    /// To a take: the oldest invalidation.
    Late {
        /// Its line.
        line: Line,
        /// The turn that wrote the line.
        turn: u64,
    },
    /// To a take where nothing is late.
    Nothing,
    /// To a poll.
    Polled {
        /// Whether an interrupt is requested.
        pending: bool,
        /// The number of turns made before.
        turn: u64,
    },
    /// To a signal.
    Signalled {
        /// The number of this turn.
        turn: u64,
    },
    /// To a byte for the console.
    Printed {
        /// The number of turns made before.
        turn: u64,
    },
}
