//! A word for each name and each kind of jump, and words that are kept whole. Each is put together
//! from the places of the fields and the numbers in the manual's tables, and not what this program
//! gave.
use super::*;
use std::process::Abort;
use std::test::*;

/// Words of the memory format: the name, Ra, Rb and the displacement.
const MEMORY: [(u32, MemOp, u8, u8, u16); 16] = [
    (0x203F_0001, MemOp::LDA, 1, 31, 0x0001),
    (0x27BB_2000, MemOp::LDAH, 29, 27, 0x2000),
    (0x2871_0003, MemOp::LDBU, 3, 17, 0x0003),
    (0x3092_FFFE, MemOp::LDWU, 4, 18, 0xFFFE),
    (0xA01E_0010, MemOp::LDL, 0, 30, 0x0010),
    (0xA45E_0000, MemOp::LDQ, 2, 30, 0x0000),
    (0x2FFE_0000, MemOp::LDQ_U, 31, 30, 0x0000),
    (0xA8B0_0004, MemOp::LDL_L, 5, 16, 0x0004),
    (0xACD0_8000, MemOp::LDQ_L, 6, 16, 0x8000),
    (0x38F3_7FFF, MemOp::STB, 7, 19, 0x7FFF),
    (0x34A6_FFFF, MemOp::STW, 5, 6, 0xFFFF),
    (0xB114_FFFC, MemOp::STL, 8, 20, 0xFFFC),
    (0xB75E_0008, MemOp::STQ, 26, 30, 0x0008),
    (0x3D35_0007, MemOp::STQ_U, 9, 21, 0x0007),
    (0xB956_0004, MemOp::STL_C, 10, 22, 0x0004),
    (0xBD77_FFF8, MemOp::STQ_C, 11, 23, 0xFFF8),
];

/// Words of the branch format: the name, Ra and the displacement.
const BRANCHES: [(u32, BranchOp, u8, u32); 10] = [
    (0xC3FF_FFFF, BranchOp::BR, 31, 0x1F_FFFF),
    (0xD340_0100, BranchOp::BSR, 26, 0x00_0100),
    (0xE000_0002, BranchOp::BLBC, 0, 0x00_0002),
    (0xF200_0003, BranchOp::BLBS, 16, 0x00_0003),
    (0xE430_0000, BranchOp::BEQ, 1, 0x10_0000),
    (0xF44F_FFFF, BranchOp::BNE, 2, 0x0F_FFFF),
    (0xE860_0000, BranchOp::BLT, 3, 0x00_0000),
    (0xEC9F_FFFE, BranchOp::BLE, 4, 0x1F_FFFE),
    (0xF8A1_2345, BranchOp::BGE, 5, 0x01_2345),
    (0xFCC0_0010, BranchOp::BGT, 6, 0x00_0010),
];

/// Words of the operate format with a register: the name, Ra, Rb, the pad and Rc.
const REGISTERS: [(u32, Op, u8, u8, u8, u8); 58] = [
    (0x4022_0003, Op::ADDL, 1, 2, 0, 3),
    (0x4043_0124, Op::SUBL, 2, 3, 0, 4),
    (0x4064_0045, Op::S4ADDL, 3, 4, 0, 5),
    (0x4085_0246, Op::S8ADDL, 4, 5, 0, 6),
    (0x40A6_0167, Op::S4SUBL, 5, 6, 0, 7),
    (0x40C7_0368, Op::S8SUBL, 6, 7, 0, 8),
    (0x412A_044B, Op::S4ADDQ, 9, 10, 0, 11),
    (0x414B_064C, Op::S8ADDQ, 10, 11, 0, 12),
    (0x416C_056D, Op::S4SUBQ, 11, 12, 0, 13),
    (0x418D_076E, Op::S8SUBQ, 12, 13, 0, 14),
    (0x41AE_01EF, Op::CMPBGE, 13, 14, 0, 15),
    (0x41CF_03B0, Op::CMPULT, 14, 15, 0, 16),
    (0x41F0_07B1, Op::CMPULE, 15, 16, 0, 17),
    (0x4232_09B3, Op::CMPLT, 17, 18, 0, 19),
    (0x4253_0DB4, Op::CMPLE, 18, 19, 0, 20),
    (0x4295_0936, Op::SUBLV, 20, 21, 0, 22),
    (0x42B6_0C17, Op::ADDQV, 21, 22, 0, 23),
    (0x42D7_0D38, Op::SUBQV, 22, 23, 0, 24),
    (0x454B_010C, Op::BIC, 10, 11, 0, 12),
    (0x47E2_A403, Op::BIS, 31, 2, 5, 3),
    (0x458D_050E, Op::ORNOT, 12, 13, 0, 14),
    (0x45AE_080F, Op::XOR, 13, 14, 0, 15),
    (0x45CF_0910, Op::EQV, 14, 15, 0, 16),
    (0x45F0_0291, Op::CMOVLBS, 15, 16, 0, 17),
    (0x4611_02D2, Op::CMOVLBC, 16, 17, 0, 18),
    (0x4632_0493, Op::CMOVEQ, 17, 18, 0, 19),
    (0x4674_0895, Op::CMOVLT, 19, 20, 0, 21),
    (0x4695_08D6, Op::CMOVGE, 20, 21, 0, 22),
    (0x46B6_0C97, Op::CMOVLE, 21, 22, 0, 23),
    (0x46D7_0CD8, Op::CMOVGT, 22, 23, 0, 24),
    (0x48A6_00C7, Op::EXTBL, 5, 6, 0, 7),
    (0x48C7_02C8, Op::EXTWL, 6, 7, 0, 8),
    (0x48E8_04C9, Op::EXTLL, 7, 8, 0, 9),
    (0x4909_06CA, Op::EXTQL, 8, 9, 0, 10),
    (0x492A_0B4B, Op::EXTWH, 9, 10, 0, 11),
    (0x494B_0D4C, Op::EXTLH, 10, 11, 0, 12),
    (0x496C_EF4D, Op::EXTQH, 11, 12, 7, 13),
    (0x498D_016E, Op::INSBL, 12, 13, 0, 14),
    (0x49AE_036F, Op::INSWL, 13, 14, 0, 15),
    (0x49CF_0570, Op::INSLL, 14, 15, 0, 16),
    (0x49F0_0771, Op::INSQL, 15, 16, 0, 17),
    (0x4A11_0AF2, Op::INSWH, 16, 17, 0, 18),
    (0x4A32_0CF3, Op::INSLH, 17, 18, 0, 19),
    (0x4A53_0EF4, Op::INSQH, 18, 19, 0, 20),
    (0x4A95_0256, Op::MSKWL, 20, 21, 0, 22),
    (0x4AB6_0457, Op::MSKLL, 21, 22, 0, 23),
    (0x4AD7_0658, Op::MSKQL, 22, 23, 0, 24),
    (0x4AF8_0A59, Op::MSKWH, 23, 24, 0, 25),
    (0x4B19_0C5A, Op::MSKLH, 24, 25, 0, 26),
    (0x4B3A_0E5B, Op::MSKQH, 25, 26, 0, 27),
    (0x4B5B_061C, Op::ZAP, 26, 27, 0, 28),
    (0x4BDF_0780, Op::SRA, 30, 31, 0, 0),
    (0x4C22_0003, Op::MULL, 1, 2, 0, 3),
    (0x4CC7_0608, Op::UMULH, 6, 7, 0, 8),
    (0x4D2A_080B, Op::MULLV, 9, 10, 0, 11),
    (0x4D8D_0C0E, Op::MULQV, 12, 13, 0, 14),
    (0x73F0_0000, Op::SEXTB, 31, 16, 0, 0),
    (0x73E1_0022, Op::SEXTW, 31, 1, 0, 2),
];

/// Words of the operate format with a literal: the name, Ra, the literal and Rc.
const LITERALS: [(u32, Op, u8, u8, u8); 13] = [
    (0x40E1_1409, Op::ADDQ, 7, 8, 9),
    (0x4102_152A, Op::SUBQ, 8, 16, 10),
    (0x4200_15B2, Op::CMPEQ, 16, 0, 18),
    (0x427F_F815, Op::ADDLV, 19, 255, 21),
    (0x452F_F00B, Op::AND, 9, 127, 11),
    (0x4640_34D4, Op::CMOVNE, 18, 1, 20),
    (0x47E0_3C20, Op::AMASK, 31, 1, 0),
    (0x47E0_3D81, Op::IMPLVER, 31, 1, 1),
    (0x4A60_7055, Op::MSKBL, 19, 3, 21),
    (0x4B61_F63D, Op::ZAPNOT, 27, 15, 29),
    (0x4B87_F73E, Op::SLL, 28, 63, 30),
    (0x489F_F685, Op::SRL, 4, 255, 5),
    (0x4C8C_9405, Op::MULQ, 4, 100, 5),
];

/// Jumps: the kind, Ra, Rb and the hint.
const JUMPS: [(u32, u8, u8, u8, u16); 4] = [
    (0x6BE1_0000, 0, 31, 1, 0x0000),
    (0x6B5B_7FFF, 1, 26, 27, 0x3FFF),
    (0x6BFA_8001, 2, 31, 26, 0x0001),
    (0x6BBE_E001, 3, 29, 30, 0x2001),
];

/// Miscellaneous instructions: the name, Ra and Rb.
const MISCELLANEOUS: [(u32, MiscOp, u8, u8); 9] = [
    (0x6000_0000, MiscOp::TRAPB, 0, 0),
    (0x6000_0400, MiscOp::EXCB, 0, 0),
    (0x6010_8000, MiscOp::FETCH, 0, 16),
    (0x63F1_A000, MiscOp::FETCH_M, 31, 17),
    (0x63F2_E800, MiscOp::ECB, 31, 18),
    (0x63F3_F800, MiscOp::WH64, 31, 19),
    (0x6000_4000, MiscOp::MB, 0, 0),
    (0x6000_4400, MiscOp::WMB, 0, 0),
    (0x603F_C000, MiscOp::RPCC, 1, 31),
];

/// Calls of PALcode.
const CALLS: [(u32, PalOp); 26] = [
    (0x0000_0000, PalOp::HALT),
    (0x0000_0002, PalOp::DRAINA),
    (0x0000_0009, PalOp::CSERVE),
    (0x0000_000D, PalOp::WRIPIR),
    (0x0000_002B, PalOp::WRFEN),
    (0x0000_002D, PalOp::WRVPTPTR),
    (0x0000_0030, PalOp::SWPCTX),
    (0x0000_0031, PalOp::WRVAL),
    (0x0000_0032, PalOp::RDVAL),
    (0x0000_0033, PalOp::TBI),
    (0x0000_0034, PalOp::WRENT),
    (0x0000_0035, PalOp::SWPIPL),
    (0x0000_0036, PalOp::RDPS),
    (0x0000_0037, PalOp::WRKGP),
    (0x0000_0038, PalOp::WRUSP),
    (0x0000_003A, PalOp::RDUSP),
    (0x0000_003C, PalOp::WHAMI),
    (0x0000_003D, PalOp::RETSYS),
    (0x0000_003F, PalOp::RTI),
    (0x0000_0080, PalOp::BPT),
    (0x0000_0081, PalOp::BUGCHK),
    (0x0000_00AA, PalOp::GENTRAP),
    (0x0000_0083, PalOp::CALLSYS),
    (0x0000_0086, PalOp::IMB),
    (0x0000_009E, PalOp::RDUNIQUE),
    (0x0000_009F, PalOp::WRUNIQUE),
];

/// Words with an opcode of floating point.
const FLOATING: [u32; 4] = [0x5400_0001, 0x8C3E_0000, 0xCC00_0000, 0xD7FF_FFFF];

/// Words in no table: by the opcode, the function of PALcode (one with a high bit set), the
/// function of an operate opcode and the function code of opcode 18 (hexadecimal).
const RESERVED: [u32; 6] = [
    0x0400_0000,
    0x0000_0001,
    0x0200_0083,
    0x4000_0FE0,
    0x6000_0001,
    0x7400_0000,
];

/// Decoding takes the word to its instruction, and encoding the instruction to its word.
fn compare(rt: &impl Abort, word: u32, instr: Instr) {
    assert_eq!(rt; decode(word), instr, "the word {word:#010X}");
    assert_eq!(rt; encode(&instr), word, "the word {word:#010X}");
}

#[test]
fn memory_branches_and_jumps(rt: HostRuntime) {
    for (word, op, a, b, disp) in MEMORY {
        compare(&rt, word, Instr::Memory { op, a, b, disp });
    }
    for (word, op, a, disp) in BRANCHES {
        compare(&rt, word, Instr::Branch { op, a, disp });
    }
    for (word, kind, a, b, hint) in JUMPS {
        compare(&rt, word, Instr::Jump { kind, a, b, hint });
    }
}

#[test]
fn operates(rt: HostRuntime) {
    for (word, op, a, n, pad, c) in REGISTERS {
        let b = Operand::Reg { n, pad };
        compare(&rt, word, Instr::Operate { op, a, b, c });
    }
    for (word, op, a, value, c) in LITERALS {
        let b = Operand::Literal { value };
        compare(&rt, word, Instr::Operate { op, a, b, c });
    }
}

#[test]
fn function_codes_and_whole_words(rt: HostRuntime) {
    for (word, op, a, b) in MISCELLANEOUS {
        compare(&rt, word, Instr::Misc { op, a, b });
    }
    for (word, op) in CALLS {
        compare(&rt, word, Instr::Pal { op });
    }
    for word in FLOATING {
        compare(&rt, word, Instr::Floating { word });
    }
    for word in RESERVED {
        compare(&rt, word, Instr::Reserved { word });
    }
}
