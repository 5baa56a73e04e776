//! Decoded instructions: the fields of each format. Sections are those of the Alpha Architecture
//! Reference Manual.

use crate::names::{BranchOp, MemOp, MiscOp, Op, PalOp};

/// The second operand of the operate format (section 3.3.3).
#[derive(Clone, Copy, PartialEq, Eq, Debug)]
pub enum Operand {
    /// The register Rb, `n` from 0 to 31, where bit 12 of the word is 0. The `pad`, 0 to 7, is bits
    /// 15:13, which should be zero: they are ignored, and kept.
    Reg { n: u8, pad: u8 },
    /// A literal, 0 to 255, where bit 12 of the word is 1.
    Literal { value: u8 },
}

/// An instruction (section 3.3). `a`, `b` and `c` are the numbers of the registers Ra, Rb and Rc, 0
/// to 31.
#[derive(Clone, Copy, PartialEq, Eq, Debug)]
pub enum Instr {
    /// The memory format (section 3.3.1). `disp` is the displacement, a signed number of 16 bits.
    Memory { op: MemOp, a: u8, b: u8, disp: u16 },
    /// The branch format (section 3.3.2). `disp`, below 2^21, is the displacement, a signed number
    /// of 21 bits.
    Branch { op: BranchOp, a: u8, disp: u32 },
    /// A jump (section 3.3.1.2). Its `kind` is 0 for JMP, 1 for JSR, 2 for RET and 3 for
    /// JSR_COROUTINE; the `hint`, below 2^14, serves prediction alone.
    Jump { kind: u8, a: u8, b: u8, hint: u16 },
    /// The operate format (section 3.3.3).
    Operate { op: Op, a: u8, b: Operand, c: u8 },
    /// The memory format with a function code (section 3.3.1.1). The registers are kept, though
    /// most of these instructions ignore them.
    Misc { op: MiscOp, a: u8, b: u8 },
    /// The PALcode format (section 3.3.5).
    Pal { op: PalOp },
    /// A word whose opcode is one of floating point, kept whole.
    Floating { word: u32 },
    /// A word that stands in no table, kept whole.
    Reserved { word: u32 },
}
