use super::*;
use axp_decode::{BYTE_OPCODE, Op, opcode_number};
use std::process::Abort;
use std::test::*;

/// An instruction, the values of Ra, of Rb and of Rc before, and what Rc becomes and whether it
/// overflows.
type Row = (Op, u64, u64, u64, u64, bool);

/// The least and the largest integer of 64 bits, and -1.
const LEAST: u64 = 0x8000_0000_0000_0000;

const LARGEST: u64 = 0x7FFF_FFFF_FFFF_FFFF;

const MINUS_1: u64 = 0xFFFF_FFFF_FFFF_FFFF;

/// The least integer of 32 bits, sign-extended.
const LEAST_LONG: u64 = 0xFFFF_FFFF_8000_0000;

/// Sums and differences of longwords.
const LONGWORDS: [Row; 34] = [
    (Op::ADDL, 0x7FFF_FFFF, 1, 0, LEAST_LONG, false),
    (Op::ADDL, 0x1_0000_0005, 0xFFFF_FFFF_0000_0003, 0, 8, false),
    (Op::ADDL, MINUS_1, 1, 0, 0, false),
    (Op::SUBL, 5, 3, 0, 2, false),
    (Op::SUBL, 0, 1, 0, MINUS_1, false),
    (Op::SUBL, 0x8000_0000, 1, 0, 0x7FFF_FFFF, false),
    (Op::S4ADDL, 3, 5, 0, 17, false),
    (Op::S4ADDL, 0x2000_0000, 0, 0, LEAST_LONG, false),
    (Op::S4ADDL, 0x4000_0000, 7, 0, 7, false),
    (Op::S8ADDL, 3, 5, 0, 29, false),
    (Op::S8ADDL, 0x1000_0000, 0, 0, LEAST_LONG, false),
    (Op::S8ADDL, 0x2000_0000, MINUS_1, 0, MINUS_1, false),
    (Op::S4SUBL, 3, 5, 0, 7, false),
    (Op::S4SUBL, 0x2000_0000, 1, 0, 0x7FFF_FFFF, false),
    (Op::S8SUBL, 3, 5, 0, 19, false),
    (Op::S8SUBL, 1, 9, 0, MINUS_1, false),
    (Op::ADDLV, 0x7FFF_FFFF, 1, 0, LEAST_LONG, true),
    (Op::ADDLV, 0x7FFF_FFFE, 1, 0, 0x7FFF_FFFF, false),
    (Op::ADDLV, LEAST_LONG, MINUS_1, 0, 0x7FFF_FFFF, true),
    (
        Op::ADDLV,
        0xFFFF_FFFF_8000_0001,
        MINUS_1,
        0,
        LEAST_LONG,
        false,
    ),
    (Op::ADDLV, 0x8000_0000, 0, 0, LEAST_LONG, false),
    (Op::SUBLV, 0x7FFF_FFFF, MINUS_1, 0, LEAST_LONG, true),
    (Op::SUBLV, 0x7FFF_FFFE, MINUS_1, 0, 0x7FFF_FFFF, false),
    (Op::SUBLV, LEAST_LONG, 1, 0, 0x7FFF_FFFF, true),
    (Op::SUBLV, 0xFFFF_FFFF_8000_0001, 1, 0, LEAST_LONG, false),
    (Op::SUBLV, 0, 0x8000_0000, 0, LEAST_LONG, true),
    (Op::SEXTB, 0, 0x7F, 0, 0x7F, false),
    (Op::SEXTB, 0, 0x80, 0, 0xFFFF_FFFF_FFFF_FF80, false),
    (Op::SEXTB, 5, 0x1FF, 0, MINUS_1, false),
    (Op::SEXTB, 0, 0xFFFF_FFFF_FFFF_FF00, 0, 0, false),
    (Op::SEXTW, 0, 0x7FFF, 0, 0x7FFF, false),
    (Op::SEXTW, 0, 0x8000, 0, 0xFFFF_FFFF_FFFF_8000, false),
    (Op::SEXTW, 5, 0x1_FFFF, 0, MINUS_1, false),
    (Op::SEXTW, 0, 0xFFFF_FFFF_FFFF_0080, 0, 0x80, false),
];

/// Sums and differences of quadwords.
const QUADWORDS: [Row; 29] = [
    (Op::ADDQ, MINUS_1, 1, 0, 0, false),
    (Op::ADDQ, LARGEST, 1, 0, LEAST, false),
    (Op::ADDQ, 0x7FFF_FFFF, 1, 0, 0x8000_0000, false),
    (Op::SUBQ, 5, 3, 0, 2, false),
    (Op::SUBQ, 0, 1, 0, MINUS_1, false),
    (Op::SUBQ, LEAST, 1, 0, LARGEST, false),
    (Op::S4ADDQ, 3, 5, 0, 17, false),
    (Op::S4ADDQ, 0x2000_0000_0000_0000, 0, 0, LEAST, false),
    (Op::S4ADDQ, 0x4000_0000_0000_0000, 7, 0, 7, false),
    (Op::S8ADDQ, 3, 5, 0, 29, false),
    (Op::S8ADDQ, MINUS_1, 8, 0, 0, false),
    (Op::S8ADDQ, 0x2000_0000_0000_0000, 1, 0, 1, false),
    (Op::S4SUBQ, 3, 5, 0, 7, false),
    (
        Op::S4SUBQ,
        MINUS_1,
        MINUS_1,
        0,
        0xFFFF_FFFF_FFFF_FFFD,
        false,
    ),
    (Op::S4SUBQ, 0x2000_0000_0000_0000, 1, 0, LARGEST, false),
    (Op::S8SUBQ, 5, 3, 0, 37, false),
    (Op::S8SUBQ, 1, 8, 0, 0, false),
    (Op::S8SUBQ, 0, 1, 0, MINUS_1, false),
    (Op::ADDQV, LARGEST, 1, 0, LEAST, true),
    (Op::ADDQV, 0x7FFF_FFFF_FFFF_FFFE, 1, 0, LARGEST, false),
    (Op::ADDQV, LEAST, MINUS_1, 0, LARGEST, true),
    (Op::ADDQV, 0x8000_0000_0000_0001, MINUS_1, 0, LEAST, false),
    (Op::ADDQV, MINUS_1, 1, 0, 0, false),
    (Op::SUBQV, LARGEST, MINUS_1, 0, LEAST, true),
    (Op::SUBQV, 0x7FFF_FFFF_FFFF_FFFE, MINUS_1, 0, LARGEST, false),
    (Op::SUBQV, LEAST, 1, 0, LARGEST, true),
    (Op::SUBQV, 0x8000_0000_0000_0001, 1, 0, LEAST, false),
    (Op::SUBQV, 0, LEAST, 0, LEAST, true),
    (Op::SUBQV, 0, 1, 0, MINUS_1, false),
];

/// Comparisons.
const COMPARISONS: [Row; 27] = [
    (Op::CMPEQ, 0, 0, 7, 1, false),
    (Op::CMPEQ, 0, LEAST, 7, 0, false),
    (Op::CMPEQ, MINUS_1, 0xFFFF_FFFF, 7, 0, false),
    (Op::CMPULT, 0, MINUS_1, 7, 1, false),
    (Op::CMPULT, MINUS_1, 0, 7, 0, false),
    (Op::CMPULT, MINUS_1, MINUS_1, 7, 0, false),
    (Op::CMPULT, LARGEST, LEAST, 7, 1, false),
    (Op::CMPULE, MINUS_1, MINUS_1, 7, 1, false),
    (Op::CMPULE, LARGEST, LEAST, 7, 1, false),
    (Op::CMPULE, MINUS_1, 0, 7, 0, false),
    (Op::CMPULE, 1, 0, 7, 0, false),
    (Op::CMPLT, MINUS_1, 0, 7, 1, false),
    (Op::CMPLT, 0, MINUS_1, 7, 0, false),
    (Op::CMPLT, LEAST, LARGEST, 7, 1, false),
    (Op::CMPLT, LARGEST, LEAST, 7, 0, false),
    (Op::CMPLT, LEAST, LEAST, 7, 0, false),
    (Op::CMPLE, LEAST, LEAST, 7, 1, false),
    (Op::CMPLE, MINUS_1, 0, 7, 1, false),
    (Op::CMPLE, 1, 0, 7, 0, false),
    (Op::CMPLE, LARGEST, LEAST, 7, 0, false),
    (Op::CMPBGE, 0, 0, 7, 0xFF, false),
    (Op::CMPBGE, 0, MINUS_1, 7, 0, false),
    (Op::CMPBGE, MINUS_1, 0, 7, 0xFF, false),
    (Op::CMPBGE, 0x80, 0x7F, 7, 0xFF, false),
    (Op::CMPBGE, 0x7F, 0x80, 7, 0xFE, false),
    (
        Op::CMPBGE,
        0x0011_2233_4455_6677,
        0x0010_2333_4454_6777,
        7,
        0xDD,
        false,
    ),
    (Op::CMPBGE, 0xFF, 0x0100_0000_0000_0000, 7, 0x7F, false),
];

/// Logic.
const LOGIC: [Row; 19] = [
    (
        Op::AND,
        0xFF00_FF00_FF00_FF00,
        0x0FF0_0FF0_0FF0_0FF0,
        7,
        0x0F00_0F00_0F00_0F00,
        false,
    ),
    (Op::AND, MINUS_1, LEAST, 7, LEAST, false),
    (
        Op::BIC,
        0xFF00_FF00_FF00_FF00,
        0x0FF0_0FF0_0FF0_0FF0,
        7,
        0xF000_F000_F000_F000,
        false,
    ),
    (Op::BIC, MINUS_1, 1, 7, 0xFFFF_FFFF_FFFF_FFFE, false),
    (
        Op::BIS,
        0xFF00_FF00_FF00_FF00,
        0x0FF0_0FF0_0FF0_0FF0,
        7,
        0xFFF0_FFF0_FFF0_FFF0,
        false,
    ),
    (Op::BIS, LEAST, 1, 7, 0x8000_0000_0000_0001, false),
    (
        Op::ORNOT,
        0xFF00_FF00_FF00_FF00,
        0x0FF0_0FF0_0FF0_0FF0,
        7,
        0xFF0F_FF0F_FF0F_FF0F,
        false,
    ),
    (Op::ORNOT, 0, 0, 7, MINUS_1, false),
    (Op::ORNOT, 1, MINUS_1, 7, 1, false),
    (
        Op::XOR,
        0xFF00_FF00_FF00_FF00,
        0x0FF0_0FF0_0FF0_0FF0,
        7,
        0xF0F0_F0F0_F0F0_F0F0,
        false,
    ),
    (Op::XOR, MINUS_1, MINUS_1, 7, 0, false),
    (
        Op::EQV,
        0xFF00_FF00_FF00_FF00,
        0x0FF0_0FF0_0FF0_0FF0,
        7,
        0x0F0F_0F0F_0F0F_0F0F,
        false,
    ),
    (Op::EQV, 0, 0, 7, MINUS_1, false),
    (Op::EQV, 0, MINUS_1, 7, 0, false),
    (Op::AMASK, 0, MINUS_1, 7, 0xFFFF_FFFF_FFFF_FFFE, false),
    (Op::AMASK, 0, 1, 7, 0, false),
    (Op::AMASK, 5, 0x302, 7, 0x302, false),
    (Op::IMPLVER, 0, 0, 7, 2, false),
    (Op::IMPLVER, MINUS_1, 1, 7, 2, false),
];

/// Conditional moves.
const MOVES: [Row; 33] = [
    (Op::CMOVLBS, 1, 9, 7, 9, false),
    (Op::CMOVLBS, MINUS_1, 9, 7, 9, false),
    (Op::CMOVLBS, 2, 9, 7, 7, false),
    (Op::CMOVLBC, 0, 9, 7, 9, false),
    (Op::CMOVLBC, LEAST, 9, 7, 9, false),
    (Op::CMOVLBC, MINUS_1, 9, 7, 7, false),
    (Op::CMOVEQ, 0, 9, 7, 9, false),
    (Op::CMOVEQ, LEAST, 9, 7, 7, false),
    (Op::CMOVEQ, 1, 9, 7, 7, false),
    (Op::CMOVNE, 0, 9, 7, 7, false),
    (Op::CMOVNE, LEAST, 9, 7, 9, false),
    (Op::CMOVNE, 1, 9, 7, 9, false),
    (Op::CMOVLT, MINUS_1, 9, 7, 9, false),
    (Op::CMOVLT, LEAST, 9, 7, 9, false),
    (Op::CMOVLT, 0, 9, 7, 7, false),
    (Op::CMOVLT, LARGEST, 9, 7, 7, false),
    (Op::CMOVLT, 0x8000_0000, 9, 7, 7, false),
    (Op::CMOVGE, 0, 9, 7, 9, false),
    (Op::CMOVGE, LARGEST, 9, 7, 9, false),
    (Op::CMOVGE, 0x8000_0000, 9, 7, 9, false),
    (Op::CMOVGE, MINUS_1, 9, 7, 7, false),
    (Op::CMOVGE, LEAST, 9, 7, 7, false),
    (Op::CMOVLE, 0, 9, 7, 9, false),
    (Op::CMOVLE, MINUS_1, 9, 7, 9, false),
    (Op::CMOVLE, LEAST, 9, 7, 9, false),
    (Op::CMOVLE, 1, 9, 7, 7, false),
    (Op::CMOVLE, LARGEST, 9, 7, 7, false),
    (Op::CMOVGT, 1, 9, 7, 9, false),
    (Op::CMOVGT, LARGEST, 9, 7, 9, false),
    (Op::CMOVGT, 0x8000_0000, 9, 7, 9, false),
    (Op::CMOVGT, 0, 9, 7, 7, false),
    (Op::CMOVGT, MINUS_1, 9, 7, 7, false),
    (Op::CMOVGT, LEAST, 9, 7, 7, false),
];

/// Products.
const PRODUCTS: [Row; 28] = [
    (Op::MULL, 3, 5, 0, 15, false),
    (Op::MULL, 0x1_0000, 0x8000, 0, LEAST_LONG, false),
    (Op::MULL, 0x1_0000, 0x1_0000, 0, 0, false),
    (Op::MULL, 0xFFFF_FFFF, 2, 0, 0xFFFF_FFFF_FFFF_FFFE, false),
    (Op::MULQ, 0x1_0000, 0x8000, 0, 0x8000_0000, false),
    (Op::MULQ, MINUS_1, MINUS_1, 0, 1, false),
    (Op::MULQ, 0x1_0000_0000, 0x1_0000_0000, 0, 0, false),
    (Op::MULQ, LEAST, MINUS_1, 0, LEAST, false),
    (Op::UMULH, MINUS_1, MINUS_1, 0, 0xFFFF_FFFF_FFFF_FFFE, false),
    (Op::UMULH, 0x1_0000_0000, 0x1_0000_0000, 0, 1, false),
    (Op::UMULH, LEAST, 2, 0, 1, false),
    (Op::UMULH, MINUS_1, 1, 0, 0, false),
    (Op::MULLV, 0x1_0000, 0x8000, 0, LEAST_LONG, true),
    (Op::MULLV, 1, 0x7FFF_FFFF, 0, 0x7FFF_FFFF, false),
    (
        Op::MULLV,
        0xFFFF_FFFF_FFFF_0000,
        0x8000,
        0,
        LEAST_LONG,
        false,
    ),
    (
        Op::MULLV,
        0xFFFF_FFFF_FFFF_FFFD,
        0x2AAA_AAAB,
        0,
        0x7FFF_FFFF,
        true,
    ),
    (Op::MULLV, 0x1_0000, 0x1_0000, 0, 0, true),
    (Op::MULLV, LEAST_LONG, MINUS_1, 0, LEAST_LONG, true),
    (Op::MULLV, 0x1_0000_0003, 5, 0, 15, false),
    (
        Op::MULLV,
        MINUS_1,
        0x7FFF_FFFF,
        0,
        0xFFFF_FFFF_8000_0001,
        false,
    ),
    (Op::MULQV, 0x1_0000_0000, 0x8000_0000, 0, LEAST, true),
    (Op::MULQV, 7, 0x1249_2492_4924_9249, 0, LARGEST, false),
    (
        Op::MULQV,
        0xFFFF_FFFF_0000_0000,
        0x8000_0000,
        0,
        LEAST,
        false,
    ),
    (
        Op::MULQV,
        0xFFFF_FFFF_FFFF_FFFD,
        0x2AAA_AAAA_AAAA_AAAB,
        0,
        LARGEST,
        true,
    ),
    (Op::MULQV, 0x1_0000_0000, 0x1_0000_0000, 0, 0, true),
    (Op::MULQV, LEAST, MINUS_1, 0, LEAST, true),
    (Op::MULQV, LEAST, 1, 0, LEAST, false),
    (Op::MULQV, MINUS_1, LARGEST, 0, 0x8000_0000_0000_0001, false),
];

/// What `operate` answers; nothing for an instruction that is not an integer one.
fn operate_integer(op: Op, a: u64, b: u64, old: u64) -> Option<(u64, bool)> {
    if opcode_number(op) == BYTE_OPCODE {
        return None;
    }
    Some(operate(op, a, b, old))
}

/// Compares the answers with a table that was worked out by hand.
fn compare(rt: &impl Abort, rows: &[Row]) {
    for &(op, a, b, old, value, overflow) in rows {
        assert_eq!(rt;
            operate_integer(op, a, b, old),
            Some((value, overflow)),
            "{op:?} of {a} and {b}"
        );
    }
}

#[test]
fn sums_and_differences(rt: HostRuntime) {
    compare(&rt, &LONGWORDS);
    compare(&rt, &QUADWORDS);
}

#[test]
fn comparisons_logic_and_moves(rt: HostRuntime) {
    compare(&rt, &COMPARISONS);
    compare(&rt, &LOGIC);
    compare(&rt, &MOVES);
}

#[test]
fn products(rt: HostRuntime) {
    compare(&rt, &PRODUCTS);
}
