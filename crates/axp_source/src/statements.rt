//! What the lines of a source say.
use axp_decode::{BranchOp, Instr};

/// What a source says of the image and its bytes, beside labels and instructions.
#[derive(Clone, Copy, Debug, PartialEq, Eq)]
pub enum Directive {
    /// The size of memory in bytes.
    Memory(u64),
    /// The address at which the processors begin.
    Entry(u64),
    /// The stack word.
    Stack(u64),
    /// The page on which the page table begins.
    Table(u64),
    /// The physical address of what follows.
    At(u32),
    /// A byte.
    Byte(u8),
    /// A longword.
    Word(u32),
}

/// What one line of a source says.
#[derive(Clone, Copy, Debug, PartialEq, Eq)]
pub enum Statement<'a> {
    Directive(Directive),
    /// The name of the place of what follows: letters and digits, the first a letter.
    Label(&'a [u8]),
    /// An instruction; of a branch, one with its displacement.
    Instruction(Instr),
    /// A branch on register Ra, whose number is `a`, to a label.
    BranchTo {
        op: BranchOp,
        a: u8,
        label: &'a [u8],
    },
}
