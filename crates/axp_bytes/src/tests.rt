//! Rows worked out by hand from what sections 4.5 and 4.6 of the Alpha Architecture Reference
//! Manual say that each instruction does.
use super::*;
use axp_decode::{BYTE_OPCODE, Op, opcode_number};
use std::process::Abort;
use std::test::*;

/// An instruction, the values of Ra and of Rb, and what Rc becomes.
type Row = (Op, u64, u64, u64);

/// Its bytes from the lowest on are 0x11, 0x22, .. 0x88.
const A: u64 = 0x8877_6655_4433_2211;

/// The bytes the other way round.
const REVERSED: u64 = 0x1122_3344_5566_7788;

/// The least and the greatest number of 64 bits with a sign, as bits.
const LEAST: u64 = 0x8000_0000_0000_0000;

const GREATEST: u64 = 0x7FFF_FFFF_FFFF_FFFF;

const ONES: u64 = u64::MAX;

/// Extracts.
const EXTRACTS: [Row; 44] = [
    (Op::EXTBL, A, 0, 0x11),
    (Op::EXTBL, A, 1, 0x22),
    (Op::EXTBL, A, 6, 0x77),
    (Op::EXTBL, A, 7, 0x88),
    (Op::EXTBL, A, 8, 0x11),
    (Op::EXTBL, 0xFF80, 0, 0x80),
    (Op::EXTBL, 0xFF7F, 1, 0xFF),
    (Op::EXTWL, A, 0, 0x2211),
    (Op::EXTWL, A, 1, 0x3322),
    (Op::EXTWL, A, 6, 0x8877),
    (Op::EXTWL, A, 7, 0x88),
    (Op::EXTWL, A, 8, 0x2211),
    (Op::EXTWL, 0x1_8000, 0, 0x8000),
    (Op::EXTWL, 0x8000_0000_0000_7FFF, 6, 0x8000),
    (Op::EXTWL, 0x8000_0000_0000_7FFF, 0, 0x7FFF),
    (Op::EXTLL, A, 0, 0x4433_2211),
    (Op::EXTLL, A, 1, 0x5544_3322),
    (Op::EXTLL, A, 6, 0x8877),
    (Op::EXTLL, A, 7, 0x88),
    (Op::EXTLL, ONES, 0, 0xFFFF_FFFF),
    (Op::EXTLL, 0x7FFF_FFFF_8000_0000, 0, 0x8000_0000),
    (Op::EXTLL, 0x7FFF_FFFF_8000_0000, 4, 0x7FFF_FFFF),
    (Op::EXTQL, A, 0, A),
    (Op::EXTQL, A, 1, 0x0088_7766_5544_3322),
    (Op::EXTQL, A, 7, 0x88),
    (Op::EXTQL, A, 8, A),
    (Op::EXTQL, LEAST, 7, 0x80),
    (Op::EXTWH, A, 0, 0x2211),
    (Op::EXTWH, A, 1, 0),
    (Op::EXTWH, A, 6, 0),
    (Op::EXTWH, A, 7, 0x1100),
    (Op::EXTWH, ONES, 7, 0xFF00),
    (Op::EXTLH, A, 0, 0x4433_2211),
    (Op::EXTLH, A, 1, 0),
    (Op::EXTLH, A, 6, 0x2211_0000),
    (Op::EXTLH, A, 7, 0x3322_1100),
    (Op::EXTLH, 0x1_0000_0000, 7, 0),
    (Op::EXTQH, REVERSED, 0, REVERSED),
    (Op::EXTQH, REVERSED, 2, 0x7788_0000_0000_0000),
    (Op::EXTQH, A, 1, 0x1100_0000_0000_0000),
    (Op::EXTQH, A, 6, 0x6655_4433_2211_0000),
    (Op::EXTQH, A, 7, 0x7766_5544_3322_1100),
    (Op::EXTQH, A, 8, A),
    (Op::EXTQH, ONES, 7, 0xFFFF_FFFF_FFFF_FF00),
];

/// Inserts.
const INSERTS: [Row; 38] = [
    (Op::INSBL, A, 0, 0x11),
    (Op::INSBL, A, 1, 0x1100),
    (Op::INSBL, A, 7, 0x1100_0000_0000_0000),
    (Op::INSBL, A, 8, 0x11),
    (Op::INSBL, 0x100, 0, 0),
    (Op::INSBL, ONES, 6, 0x00FF_0000_0000_0000),
    (Op::INSWL, A, 0, 0x2211),
    (Op::INSWL, A, 1, 0x22_1100),
    (Op::INSWL, A, 6, 0x2211_0000_0000_0000),
    (Op::INSWL, A, 7, 0x1100_0000_0000_0000),
    (Op::INSWL, 0x1_0000, 0, 0),
    (Op::INSLL, A, 0, 0x4433_2211),
    (Op::INSLL, A, 1, 0x44_3322_1100),
    (Op::INSLL, A, 6, 0x2211_0000_0000_0000),
    (Op::INSLL, A, 7, 0x1100_0000_0000_0000),
    (Op::INSLL, 0x7FFF_FFFF_8000_0000, 4, LEAST),
    (Op::INSQL, A, 0, A),
    (Op::INSQL, A, 1, 0x7766_5544_3322_1100),
    (Op::INSQL, A, 6, 0x2211_0000_0000_0000),
    (Op::INSQL, A, 7, 0x1100_0000_0000_0000),
    (Op::INSQL, A, 8, A),
    (Op::INSWH, 0x1122, 7, 0x11),
    (Op::INSWH, A, 0, 0),
    (Op::INSWH, A, 6, 0),
    (Op::INSWH, A, 7, 0x22),
    (Op::INSWH, ONES, 7, 0xFF),
    (Op::INSLH, A, 0, 0),
    (Op::INSLH, A, 4, 0),
    (Op::INSLH, A, 6, 0x4433),
    (Op::INSLH, A, 7, 0x44_3322),
    (Op::INSLH, 0x7FFF_FFFF, 7, 0x7F_FFFF),
    (Op::INSQH, A, 0, 0),
    (Op::INSQH, A, 1, 0x88),
    (Op::INSQH, A, 6, 0x8877_6655_4433),
    (Op::INSQH, A, 7, 0x0088_7766_5544_3322),
    (Op::INSQH, A, 8, 0),
    (Op::INSQH, 0x100, 7, 1),
    (Op::INSQH, 0xFF, 7, 0),
];

/// Masks, and bytes that are cleared.
const CLEARED: [Row; 44] = [
    (Op::MSKBL, A, 0, 0x8877_6655_4433_2200),
    (Op::MSKBL, A, 1, 0x8877_6655_4433_0011),
    (Op::MSKBL, A, 6, 0x8800_6655_4433_2211),
    (Op::MSKBL, A, 7, 0x0077_6655_4433_2211),
    (Op::MSKBL, A, 8, 0x8877_6655_4433_2200),
    (Op::MSKBL, 0, 3, 0),
    (Op::MSKWL, REVERSED, 7, 0x0022_3344_5566_7788),
    (Op::MSKWL, A, 0, 0x8877_6655_4433_0000),
    (Op::MSKWL, A, 1, 0x8877_6655_4400_0011),
    (Op::MSKWL, A, 6, 0x0000_6655_4433_2211),
    (Op::MSKLL, A, 0, 0x8877_6655_0000_0000),
    (Op::MSKLL, A, 1, 0x8877_6600_0000_0011),
    (Op::MSKLL, A, 6, 0x0000_6655_4433_2211),
    (Op::MSKLL, A, 7, 0x0077_6655_4433_2211),
    (Op::MSKQL, A, 0, 0),
    (Op::MSKQL, A, 1, 0x11),
    (Op::MSKQL, A, 7, 0x0077_6655_4433_2211),
    (Op::MSKQL, A, 8, 0),
    (Op::MSKWH, A, 0, A),
    (Op::MSKWH, A, 6, A),
    (Op::MSKWH, A, 7, 0x8877_6655_4433_2200),
    (Op::MSKWH, 1, 7, 0),
    (Op::MSKLH, A, 0, A),
    (Op::MSKLH, A, 4, A),
    (Op::MSKLH, A, 6, 0x8877_6655_4433_0000),
    (Op::MSKLH, A, 7, 0x8877_6655_4400_0000),
    (Op::MSKQH, A, 0, A),
    (Op::MSKQH, A, 1, 0x8877_6655_4433_2200),
    (Op::MSKQH, A, 6, 0x8877_0000_0000_0000),
    (Op::MSKQH, A, 7, 0x8800_0000_0000_0000),
    (Op::MSKQH, A, 8, A),
    (Op::MSKQH, ONES, 4, 0xFFFF_FFFF_0000_0000),
    (Op::ZAP, A, 0, A),
    (Op::ZAP, A, 0x01, 0x8877_6655_4433_2200),
    (Op::ZAP, A, 0x80, 0x0077_6655_4433_2211),
    (Op::ZAP, A, 0xA5, 0x0077_0055_4400_2200),
    (Op::ZAP, A, 0xFF, 0),
    (Op::ZAP, A, 0x100, A),
    (Op::ZAPNOT, A, 0, 0),
    (Op::ZAPNOT, A, 0x01, 0x11),
    (Op::ZAPNOT, A, 0x80, 0x8800_0000_0000_0000),
    (Op::ZAPNOT, A, 0xA5, 0x8800_6600_0033_0011),
    (Op::ZAPNOT, A, 0xFF, A),
    (Op::ZAPNOT, A, 0x100, 0),
];

/// Shifts.
const SHIFTS: [Row; 24] = [
    (Op::SLL, 1, 0, 1),
    (Op::SLL, 1, 1, 2),
    (Op::SLL, 1, 63, LEAST),
    (Op::SLL, 1, 64, 1),
    (Op::SLL, ONES, 1, 0xFFFF_FFFF_FFFF_FFFE),
    (Op::SLL, ONES, 63, LEAST),
    (Op::SLL, GREATEST, ONES, LEAST),
    (Op::SLL, 0, 63, 0),
    (Op::SRL, LEAST, 0, LEAST),
    (Op::SRL, LEAST, 1, 0x4000_0000_0000_0000),
    (Op::SRL, LEAST, 63, 1),
    (Op::SRL, ONES, 1, GREATEST),
    (Op::SRL, ONES, 64, ONES),
    (Op::SRL, GREATEST, 63, 0),
    (Op::SRL, 1, 1, 0),
    (Op::SRA, LEAST, 0, LEAST),
    (Op::SRA, LEAST, 1, 0xC000_0000_0000_0000),
    (Op::SRA, LEAST, 63, ONES),
    (Op::SRA, LEAST, 64, LEAST),
    (Op::SRA, ONES, 1, ONES),
    (Op::SRA, GREATEST, 1, 0x3FFF_FFFF_FFFF_FFFF),
    (Op::SRA, GREATEST, 63, 0),
    (Op::SRA, 0x8000_0000, 31, 1),
    (Op::SRA, 1, 1, 0),
];

/// What `bytes` answers; nothing for an instruction of another opcode.
fn bytes_of(op: Op, a: u64, b: u64) -> Option<u64> {
    if opcode_number(op) != BYTE_OPCODE {
        return None;
    }
    Some(bytes(op, a, b))
}

/// Compares the answers with a table.
fn compare(rt: &impl Abort, rows: &[Row]) {
    for &(op, a, b, value) in rows {
        assert_eq!(rt; bytes_of(op, a, b), Some(value), "{op:?} of {a} and {b}");
    }
}

#[test]
fn extracts_and_inserts(rt: HostRuntime) {
    compare(&rt, &EXTRACTS);
    compare(&rt, &INSERTS);
}

#[test]
fn masks_and_shifts(rt: HostRuntime) {
    compare(&rt, &CLEARED);
    compare(&rt, &SHIFTS);
}
