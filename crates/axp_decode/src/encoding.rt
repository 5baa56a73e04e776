//! From an instruction to its word.
ghost use Rattle.std.specs.Prelude.{◌≡◌, ◌+◌, ◌*◌, ◌%◌, ◌^◌, ◌<◌};
ghost use Rattle.axp_decode.specs.Format.{word_of, operand_bits};

use crate::instructions::{Instr, Operand};
use crate::numbers::{
    JUMP_OPCODE, MISC_OPCODE, PAL_OPCODE, branch_code, function_number, memory_code, misc_code,
    opcode_number, pal_code,
};

/// The opcode and Ra in their places.
fn with_ra(opcode: u8, a: u8) -> u32
    requires { opcode < 2 ^ 6 }
    ensures { result ≡ opcode * 2 ^ 26 + a % 2 ^ 5 * 2 ^ 21 }
{
    u32::from(opcode) << 26 | u32::from(a & 0x1F) << 21
}

/// Rb in its place.
fn rb_bits(b: u8) -> u32
    ensures { result ≡ b % 2 ^ 5 * 2 ^ 16 }
{
    u32::from(b & 0x1F) << 16
}

/// The second operand of the operate format in its place.
#[tactic(auto, unfolding(crate::specs::Format::operand_bits))]
fn place_operand(b: Operand) -> u32
    ensures value { result ≡ operand_bits b }
    ensures small { result < 2 ^ 21 }
{
    match b {
        Operand::Reg { n, pad } => rb_bits(n) + (u32::from(pad & 7) << 13),
        Operand::Literal { value } => u32::from(value) << 13 | 0x1000,
    }
}

/// The word of an instruction. Of a field that is too large for its place, the low bits are taken;
/// a word that was kept whole is that word.
#[tactic(auto, unfolding(crate::specs::Format::word_of))]
pub fn encode(instr: &Instr) -> u32
    ensures { result ≡ word_of instr.now }
{
    match *instr {
        Instr::Memory { op, a, b, disp } => with_ra(memory_code(op), a)
            + rb_bits(b)
            + u32::from(disp),
        Instr::Branch { op, a, disp } => with_ra(branch_code(op), a) + (disp & 0x1F_FFFF),
        Instr::Jump { kind, a, b, hint } => {
            with_ra(JUMP_OPCODE, a)
                + rb_bits(b)
                + (u32::from(kind & 3) << 14)
                + u32::from(hint & 0x3FFF)
        }
        Instr::Operate { op, a, b, c } => {
            with_ra(opcode_number(op), a)
                + place_operand(b)
                + (u32::from(function_number(op)) << 5)
                + u32::from(c & 0x1F)
        }
        Instr::Misc { op, a, b } => with_ra(MISC_OPCODE, a) + rb_bits(b) + u32::from(misc_code(op)),
        Instr::Pal { op } => (u32::from(PAL_OPCODE) << 26) + pal_code(op),
        Instr::Floating { word } | Instr::Reserved { word } => word,
    }
}
