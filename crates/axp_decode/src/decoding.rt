//! From a word to its instruction.
ghost use Rattle.std.specs.Prelude.{◌≡◌, ◌<◌, ◌^◌};
ghost use Rattle.axp_decode.specs.Format.{instr_of, operand_of, FieldsFit, OperandFits, ra_of};
ghost use Rattle.axp_decode.specs.Format.{rb_of, is_floating};

use crate::instructions::{Instr, Operand};
use crate::numbers::{
    JUMP_OPCODE, MISC_OPCODE, PAL_OPCODE, branch_op, memory_op, misc_op, operate_op, pal_op,
};

/// Ra, bits 25:21.
fn ra(word: u32) -> u8
    ensures value { result ≡ ra_of word }
    ensures small { result < 2 ^ 5 }
{
    (word >> 21 & 0x1F) as u8
}

/// Rb, bits 20:16.
fn rb(word: u32) -> u8
    ensures value { result ≡ rb_of word }
    ensures small { result < 2 ^ 5 }
{
    (word >> 16 & 0x1F) as u8
}

/// Whether the opcode is one of floating point.
#[tactic(auto, unfolding(crate::specs::Format::is_floating))]
fn is_floating_opcode(opcode: u8) -> bool
    ensures { result ≡ is_floating opcode }
{
    matches!(opcode, 0x15..=0x17 | 0x20..=0x27 | 0x31..=0x33 | 0x35..=0x37)
}

/// The second operand of the operate format: a literal where bit 12 is 1.
#[tactic(auto, unfolding(crate::specs::Format::operand_of))]
fn read_operand(word: u32) -> Operand
    ensures value { result ≡ operand_of word }
    ensures fits { OperandFits result }
{
    if word >> 12 & 1 == 1 {
        Operand::Literal {
            value: (word >> 13 & 0xFF) as u8,
        }
    } else {
        Operand::Reg {
            n: rb(word),
            pad: (word >> 13 & 7) as u8,
        }
    }
}

/// The instruction that a word stands for. Each word stands for one: what is in no table is
/// `Reserved`. Its fields fit in their places.
#[tactic(auto, unfolding(crate::specs::Format::instr_of))]
pub fn decode(word: u32) -> Instr
    ensures value { result ≡ instr_of word }
    ensures fields { FieldsFit result }
{
    let opcode = (word >> 26) as u8;
    let a = ra(word);
    let b = rb(word);
    let disp = (word & 0xFFFF) as u16;
    if let Some(op) = memory_op(opcode) {
        return Instr::Memory { op, a, b, disp };
    }
    if let Some(op) = branch_op(opcode) {
        return Instr::Branch {
            op,
            a,
            disp: word & 0x1F_FFFF,
        };
    }
    if let Some(op) = operate_op(opcode, (word >> 5 & 0x7F) as u8) {
        return Instr::Operate {
            op,
            a,
            b: read_operand(word),
            c: (word & 0x1F) as u8,
        };
    }
    match opcode {
        JUMP_OPCODE => Instr::Jump {
            kind: (word >> 14 & 3) as u8,
            a,
            b,
            hint: (word & 0x3FFF) as u16,
        },
        MISC_OPCODE => match misc_op(disp) {
            Some(op) => Instr::Misc { op, a, b },
            None => Instr::Reserved { word },
        },
        PAL_OPCODE => match pal_op(word & 0x3FF_FFFF) {
            Some(op) => Instr::Pal { op },
            None => Instr::Reserved { word },
        },
        _ => {
            if is_floating_opcode(opcode) {
                Instr::Floating { word }
            } else {
                Instr::Reserved { word }
            }
        }
    }
}
