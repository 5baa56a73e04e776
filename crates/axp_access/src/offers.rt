use arrayvec::ArrayVec;
use axp_base::{BANK_COPIES, Bank, Line};

/// How many copies of lines a processor holds at most, in its three banks.
pub const MAX_DROPS: usize = 3 * BANK_COPIES;

/// The events of one processor that are legal now (docs/MACHINE.md, "Which events are legal").
#[derive(Debug, Drop)]
pub struct Offer {
    /// Whether it is finished: halted, or its budget of steps made. Then it may drain alone.
    pub spent: bool,
    /// Whether it may step.
    pub step: bool,
    /// Whether it may fill.
    pub fill: bool,
    /// How many entries of its write buffer may be drained next, 0 to [`crate::MAX_DRAINS`]: each
    /// by its number in the oldest group, from 0.
    pub drains: u8,
    /// Whether a late invalidation of bank `d0`, and whether one of `d1`, may be delivered.
    pub late: (bool, bool),
    /// The copies that it may give up: those of `d0`, of `d1` and of the code bank, each in
    /// ascending order of lines.
    pub drops: ArrayVec<(Bank, Line), MAX_DROPS>,
    /// The full bank that the wanted access waits for: it needs a line that the bank does not
    /// hold, and has no room for.
    pub needs: Option<Bank>,
    /// Whether it may test for an interprocessor interrupt.
    pub poll: bool,
    /// Whether it may take the clock's interrupt.
    pub tick: bool,
}
