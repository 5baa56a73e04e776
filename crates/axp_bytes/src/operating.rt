//! The instructions by name.
ghost use Rattle.std.specs.Prelude.{◌≡◌, ◌<◌};
ghost use Rattle.axp_bytes.specs.Results.{shifted_arithmetic};
ghost use Rattle.axp_bytes.specs.Rows.{IsByteOp, value_of};

use crate::data_parts::{extract_high, extract_low, insert_high, insert_low, mask_high, mask_low};
use crate::zapping::zap;
use axp_base::{Size, sext};
use axp_decode::Op;

/// What an instruction of opcode 12 (hexadecimal) writes to Rc, where `a` is the value of Ra and
/// `b` that of Rb or the literal: extract, insert and mask at the byte that the low three bits of
/// `b` number, ZAP and ZAPNOT by its low eight bits, and shifts by its low six bits.
#[tactic(auto, unfolding(crate::specs::Rows::value_of))]
pub fn bytes(op: Op, a: u64, b: u64) -> u64
    requires { IsByteOp op }
    ensures { result ≡ value_of op a b }
{
    let n = (b & 7) as u8;
    match op {
        Op::EXTBL => extract_low(a, n, Size::Byte),
        Op::EXTWL => extract_low(a, n, Size::Word),
        Op::EXTLL => extract_low(a, n, Size::Long),
        Op::EXTQL => extract_low(a, n, Size::Quad),
        Op::EXTWH => extract_high(a, n, Size::Word),
        Op::EXTLH => extract_high(a, n, Size::Long),
        Op::EXTQH => extract_high(a, n, Size::Quad),
        Op::INSBL => insert_low(a, n, Size::Byte),
        Op::INSWL => insert_low(a, n, Size::Word),
        Op::INSLL => insert_low(a, n, Size::Long),
        Op::INSQL => insert_low(a, n, Size::Quad),
        Op::INSWH => insert_high(a, n, Size::Word),
        Op::INSLH => insert_high(a, n, Size::Long),
        Op::INSQH => insert_high(a, n, Size::Quad),
        Op::MSKBL => mask_low(a, n, Size::Byte),
        Op::MSKWL => mask_low(a, n, Size::Word),
        Op::MSKLL => mask_low(a, n, Size::Long),
        Op::MSKQL => mask_low(a, n, Size::Quad),
        Op::MSKWH => mask_high(a, n, Size::Word),
        Op::MSKLH => mask_high(a, n, Size::Long),
        Op::MSKQH => mask_high(a, n, Size::Quad),
        Op::ZAP => zap(a, b),
        Op::ZAPNOT => zap(a, !b),
        Op::SLL => a << (b & 63),
        Op::SRL => a >> (b & 63),
        Op::SRA => shift_right_arithmetic(a, (b & 63) as u32),
        _ => unreachable!(),
    }
}

/// `a` shifted right by `k` bits, below 64, with the sign bit repeated above.
fn shift_right_arithmetic(a: u64, k: u32) -> u64
    requires { k < 64 }
    ensures { result ≡ shifted_arithmetic a k }
{
    sext(a >> k, 64 - k)
}
