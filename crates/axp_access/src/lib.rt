//! The types of events, accesses and outcomes, and of the lines of a trace.
#![tactic(auto)]

mod access_lists;
mod entry_states;
mod event_lists;
mod kinds;
mod offers;
mod ranks;
mod tail_items;

pub use access_lists::{AccessList, Drain};
use axp_base::WBUF_ENTRIES;
pub use axp_base::{Bank, Bytes, Cpu, Line};
pub use axp_regs::{Ask, Kind};
pub use entry_states::EntryState;
pub use event_lists::EventList;
pub use offers::{MAX_DROPS, Offer};
pub use tail_items::TailItem;

/// How many entries of a write buffer may be drained next, at most: as many as it holds.
pub const MAX_DRAINS: u8 = WBUF_ENTRIES as u8;

/// What a processor does in one event, or what the memory system does for it.
#[derive(Clone, Copy, Debug, PartialEq, Eq)]
pub enum Act {
    /// Makes the access that it wants, and goes on until it wants another or is between two
    /// instructions.
    Step,
    /// Copies the line that it wants from memory into its bank.
    Fill,
    /// Writes the entry of this number of the oldest group of its write buffer to memory: 0 to 7,
    /// counted from 0 in the order in which the entries were made.
    Drain(u8),
    /// Delivers the oldest late invalidation of this data bank.
    Take(Bank),
    /// Gives up the bank's copy of this line.
    Drop(Bank, Line),
    /// Tests whether an interprocessor interrupt is requested.
    Poll,
    /// Takes the clock's interrupt.
    Tick,
}

/// One event: a processor and what it does.
#[derive(Clone, Copy, Debug, PartialEq, Eq)]
pub struct Event {
    /// The processor.
    pub cpu: Cpu,
    /// What it does.
    pub act: Act,
}

/// Where an access stands in the order of memory. A turn is a write that reaches memory, or a
/// signal; turns are numbered from 1.
#[derive(Clone, Copy, Debug, PartialEq, Eq)]
pub enum Place {
    /// A write or a signal that is this turn, or another access that stands just after the turn of
    /// this number: after none where it is 0.
    At(u64),
    /// A plain write whose bytes went into this entry of its processor's write buffer, 1 for the
    /// first that was ever made: it stands where the entry leaves, and after all others until then.
    Entry(u32),
    /// No place: a write barrier.
    Absent,
}

/// An access to physical memory that a processor is to make next.
#[derive(Clone, Copy, Debug, PartialEq, Eq)]
pub struct Wanted {
    /// What it does.
    pub kind: Kind,
    /// The physical address, a multiple of the size.
    pub address: u64,
    /// The number of bytes, 1, 2, 4 or 8; 4 for a fetch.
    pub size: u8,
    /// The bytes to be stored as a little-endian number, the processor that a signal goes to, or
    /// the byte that is sent to the console; else 0.
    pub value: u64,
}

/// What a processor is about to do, by the instruction table.
#[derive(Clone, Copy, Debug, PartialEq, Eq)]
pub struct Intent {
    /// Whether it is halted or has made its budget of steps.
    pub finished: bool,
    /// Whether it is at a boundary: between two groups of accesses.
    pub boundary: bool,
    /// Whether its interrupt level is below 5, so that it takes interrupts.
    pub takes_interrupts: bool,
    /// Whether its lock flag is set.
    pub lock_flag: bool,
    /// The access that it wants; none where its next group makes none.
    pub wanted: Option<Wanted>,
}

/// One access.
#[derive(Clone, Copy, Debug, PartialEq, Eq)]
pub struct Access {
    /// The processor that made it.
    pub cpu: Cpu,
    /// What it does.
    pub kind: Kind,
    /// The physical address, a multiple of the size; 0 where no memory is named.
    pub address: u64,
    /// The number of bytes, 1, 2, 4 or 8; 4 for a fetch, 0 where no memory is named.
    pub size: u8,
    /// The bytes as a little-endian number: those read, or those to be stored; the processor that a
    /// signal goes to; the byte that was sent to the console; else 0.
    pub value: u64,
    /// Whether a store-conditional succeeded, or a poll found an interrupt requested; else false.
    pub yes: bool,
    /// Where it stands in the order of memory.
    pub place: Place,
}

/// What came of an event.
#[derive(Clone, Copy, Debug, PartialEq, Eq)]
pub enum Outcome {
    /// A step made this access.
    Access(Access),
    /// A step made no access.
    NoAccess,
    /// A line was copied from memory.
    Filled {
        /// The bank.
        bank: Bank,
        /// The line.
        line: Line,
        /// The number of turns made before.
        turn: u64,
    },
    /// An entry of the write buffer reached memory.
    Drained {
        /// The entry's number, 1 for the processor's first.
        entry: u32,
        /// The entry's line.
        line: Line,
        /// The number of this turn.
        turn: u64,
    },
    /// A late invalidation was delivered.
    Taken {
        /// The line.
        line: Line,
        /// The turn of another processor that wrote it.
        turn: u64,
        /// Whether the processor's copy of the line went, since it was older.
        gone: bool,
    },
    /// A copy was given up, or the clock's interrupt taken.
    Done,
    /// Whether an interprocessor interrupt was requested.
    Polled {
        /// Whether it was.
        pending: bool,
        /// Whether the processor takes it now.
        entered: bool,
        /// The number of turns made before.
        turn: u64,
    },
}

/// An event with its outcome: one line of a trace.
#[derive(Clone, Copy, Debug, PartialEq, Eq)]
pub struct Record {
    /// What happened.
    pub event: Event,
    /// What came of it.
    pub outcome: Outcome,
}

#[cfg(test)]
mod tests;
