//! The instruction tables as code: from numbers to names, and back.
ghost use Rattle.std.specs.Prelude.{◌≡◌, ◌<◌, ◌^◌};
ghost use Rattle.axp_decode.specs.Table.{memory_number, memory_of, branch_number, branch_of};
ghost use Rattle.axp_decode.specs.Table.{misc_number, misc_of, pal_number, pal_of, operate_opcode};
ghost use Rattle.axp_decode.specs.Table.{operate_function, operate_of};

use crate::names::{BranchOp, MemOp, MiscOp, Op, PalOp};

/// The opcode of every jump, whose kind is bits 15:14.
pub(crate) const JUMP_OPCODE: u8 = 0x1A;

/// The opcode of every miscellaneous instruction, whose function code is bits 15:0.
pub(crate) const MISC_OPCODE: u8 = 0x18;

/// The opcode of every call of PALcode, whose function is bits 25:0.
pub(crate) const PAL_OPCODE: u8 = 0x00;

/// The opcode of the operate format under which the byte manipulations and the shifts stand.
pub const BYTE_OPCODE: u8 = 0x12;

/// The instruction of the memory format with this opcode.
#[tactic(auto, unfolding(crate::specs::Table::memory_of))]
pub(crate) fn memory_op(opcode: u8) -> Option<MemOp>
    ensures { result ≡ memory_of opcode }
{
    match opcode {
        0x08 => Some(MemOp::LDA),
        0x09 => Some(MemOp::LDAH),
        0x0A => Some(MemOp::LDBU),
        0x0C => Some(MemOp::LDWU),
        0x28 => Some(MemOp::LDL),
        0x29 => Some(MemOp::LDQ),
        0x0B => Some(MemOp::LDQ_U),
        0x2A => Some(MemOp::LDL_L),
        0x2B => Some(MemOp::LDQ_L),
        0x0E => Some(MemOp::STB),
        0x0D => Some(MemOp::STW),
        0x2C => Some(MemOp::STL),
        0x2D => Some(MemOp::STQ),
        0x0F => Some(MemOp::STQ_U),
        0x2E => Some(MemOp::STL_C),
        0x2F => Some(MemOp::STQ_C),
        _ => None,
    }
}

/// The opcode of an instruction of the memory format.
pub fn memory_code(op: MemOp) -> u8
    ensures value { result ≡ memory_number op }
    ensures small { result < 2 ^ 6 }
{
    match op {
        MemOp::LDA => 0x08,
        MemOp::LDAH => 0x09,
        MemOp::LDBU => 0x0A,
        MemOp::LDWU => 0x0C,
        MemOp::LDL => 0x28,
        MemOp::LDQ => 0x29,
        MemOp::LDQ_U => 0x0B,
        MemOp::LDL_L => 0x2A,
        MemOp::LDQ_L => 0x2B,
        MemOp::STB => 0x0E,
        MemOp::STW => 0x0D,
        MemOp::STL => 0x2C,
        MemOp::STQ => 0x2D,
        MemOp::STQ_U => 0x0F,
        MemOp::STL_C => 0x2E,
        MemOp::STQ_C => 0x2F,
    }
}

/// The instruction of the branch format with this opcode.
#[tactic(auto, unfolding(crate::specs::Table::branch_of))]
pub(crate) fn branch_op(opcode: u8) -> Option<BranchOp>
    ensures { result ≡ branch_of opcode }
{
    match opcode {
        0x30 => Some(BranchOp::BR),
        0x34 => Some(BranchOp::BSR),
        0x38 => Some(BranchOp::BLBC),
        0x3C => Some(BranchOp::BLBS),
        0x39 => Some(BranchOp::BEQ),
        0x3D => Some(BranchOp::BNE),
        0x3A => Some(BranchOp::BLT),
        0x3B => Some(BranchOp::BLE),
        0x3E => Some(BranchOp::BGE),
        0x3F => Some(BranchOp::BGT),
        _ => None,
    }
}

/// The opcode of an instruction of the branch format.
pub(crate) fn branch_code(op: BranchOp) -> u8
    ensures value { result ≡ branch_number op }
    ensures small { result < 2 ^ 6 }
{
    match op {
        BranchOp::BR => 0x30,
        BranchOp::BSR => 0x34,
        BranchOp::BLBC => 0x38,
        BranchOp::BLBS => 0x3C,
        BranchOp::BEQ => 0x39,
        BranchOp::BNE => 0x3D,
        BranchOp::BLT => 0x3A,
        BranchOp::BLE => 0x3B,
        BranchOp::BGE => 0x3E,
        BranchOp::BGT => 0x3F,
    }
}

/// The miscellaneous instruction with this function code.
#[tactic(auto, unfolding(crate::specs::Table::misc_of))]
pub(crate) fn misc_op(code: u16) -> Option<MiscOp>
    ensures { result ≡ misc_of code }
{
    match code {
        0x0000 => Some(MiscOp::TRAPB),
        0x0400 => Some(MiscOp::EXCB),
        0x8000 => Some(MiscOp::FETCH),
        0xA000 => Some(MiscOp::FETCH_M),
        0xE800 => Some(MiscOp::ECB),
        0xF800 => Some(MiscOp::WH64),
        0x4000 => Some(MiscOp::MB),
        0x4400 => Some(MiscOp::WMB),
        0xC000 => Some(MiscOp::RPCC),
        _ => None,
    }
}

/// The function code of a miscellaneous instruction.
pub(crate) fn misc_code(op: MiscOp) -> u16
    ensures value { result ≡ misc_number op }
    ensures small { result < 2 ^ 16 }
{
    match op {
        MiscOp::TRAPB => 0x0000,
        MiscOp::EXCB => 0x0400,
        MiscOp::FETCH => 0x8000,
        MiscOp::FETCH_M => 0xA000,
        MiscOp::ECB => 0xE800,
        MiscOp::WH64 => 0xF800,
        MiscOp::MB => 0x4000,
        MiscOp::WMB => 0x4400,
        MiscOp::RPCC => 0xC000,
    }
}

/// The call of PALcode with this function.
#[tactic(auto, unfolding(crate::specs::Table::pal_of))]
pub(crate) fn pal_op(function: u32) -> Option<PalOp>
    ensures { result ≡ pal_of function }
{
    match function {
        0x00 => Some(PalOp::HALT),
        0x02 => Some(PalOp::DRAINA),
        0x09 => Some(PalOp::CSERVE),
        0x0D => Some(PalOp::WRIPIR),
        0x2B => Some(PalOp::WRFEN),
        0x2D => Some(PalOp::WRVPTPTR),
        0x30 => Some(PalOp::SWPCTX),
        0x31 => Some(PalOp::WRVAL),
        0x32 => Some(PalOp::RDVAL),
        0x33 => Some(PalOp::TBI),
        0x34 => Some(PalOp::WRENT),
        0x35 => Some(PalOp::SWPIPL),
        0x36 => Some(PalOp::RDPS),
        0x37 => Some(PalOp::WRKGP),
        0x38 => Some(PalOp::WRUSP),
        0x3A => Some(PalOp::RDUSP),
        0x3C => Some(PalOp::WHAMI),
        0x3D => Some(PalOp::RETSYS),
        0x3F => Some(PalOp::RTI),
        0x80 => Some(PalOp::BPT),
        0x81 => Some(PalOp::BUGCHK),
        0xAA => Some(PalOp::GENTRAP),
        0x83 => Some(PalOp::CALLSYS),
        0x86 => Some(PalOp::IMB),
        0x9E => Some(PalOp::RDUNIQUE),
        0x9F => Some(PalOp::WRUNIQUE),
        _ => None,
    }
}

/// The function of a call of PALcode.
pub(crate) fn pal_code(op: PalOp) -> u32
    ensures value { result ≡ pal_number op }
    ensures small { result < 2 ^ 8 }
{
    match op {
        PalOp::HALT => 0x00,
        PalOp::DRAINA => 0x02,
        PalOp::CSERVE => 0x09,
        PalOp::WRIPIR => 0x0D,
        PalOp::WRFEN => 0x2B,
        PalOp::WRVPTPTR => 0x2D,
        PalOp::SWPCTX => 0x30,
        PalOp::WRVAL => 0x31,
        PalOp::RDVAL => 0x32,
        PalOp::TBI => 0x33,
        PalOp::WRENT => 0x34,
        PalOp::SWPIPL => 0x35,
        PalOp::RDPS => 0x36,
        PalOp::WRKGP => 0x37,
        PalOp::WRUSP => 0x38,
        PalOp::RDUSP => 0x3A,
        PalOp::WHAMI => 0x3C,
        PalOp::RETSYS => 0x3D,
        PalOp::RTI => 0x3F,
        PalOp::BPT => 0x80,
        PalOp::BUGCHK => 0x81,
        PalOp::GENTRAP => 0xAA,
        PalOp::CALLSYS => 0x83,
        PalOp::IMB => 0x86,
        PalOp::RDUNIQUE => 0x9E,
        PalOp::WRUNIQUE => 0x9F,
    }
}

/// The instruction of the operate format with this opcode and this function.
#[tactic(auto, unfolding(crate::specs::Table::operate_of))]
pub(crate) fn operate_op(opcode: u8, function: u8) -> Option<Op>
    ensures { result ≡ operate_of opcode function }
{
    match opcode {
        0x10 => arithmetic_op(function),
        0x11 => logic_op(function),
        0x12 => byte_op(function),
        0x13 => multiply_op(function),
        0x1C => extension_op(function),
        _ => None,
    }
}

/// The instruction of integer arithmetic and comparison (opcode 10, hexadecimal) with this
/// function.
#[tactic(auto, unfolding(crate::specs::Table::operate_of))]
fn arithmetic_op(function: u8) -> Option<Op>
    ensures { result ≡ operate_of 16 function }
{
    match function {
        0x00 => Some(Op::ADDL),
        0x09 => Some(Op::SUBL),
        0x02 => Some(Op::S4ADDL),
        0x12 => Some(Op::S8ADDL),
        0x0B => Some(Op::S4SUBL),
        0x1B => Some(Op::S8SUBL),
        0x20 => Some(Op::ADDQ),
        0x29 => Some(Op::SUBQ),
        0x22 => Some(Op::S4ADDQ),
        0x32 => Some(Op::S8ADDQ),
        0x2B => Some(Op::S4SUBQ),
        0x3B => Some(Op::S8SUBQ),
        0x0F => Some(Op::CMPBGE),
        0x1D => Some(Op::CMPULT),
        0x3D => Some(Op::CMPULE),
        0x2D => Some(Op::CMPEQ),
        0x4D => Some(Op::CMPLT),
        0x6D => Some(Op::CMPLE),
        0x40 => Some(Op::ADDLV),
        0x49 => Some(Op::SUBLV),
        0x60 => Some(Op::ADDQV),
        0x69 => Some(Op::SUBQV),
        _ => None,
    }
}

/// The instruction of logic and conditional moves (opcode 11, hexadecimal) with this function.
#[tactic(auto, unfolding(crate::specs::Table::operate_of))]
fn logic_op(function: u8) -> Option<Op>
    ensures { result ≡ operate_of 17 function }
{
    match function {
        0x00 => Some(Op::AND),
        0x08 => Some(Op::BIC),
        0x20 => Some(Op::BIS),
        0x28 => Some(Op::ORNOT),
        0x40 => Some(Op::XOR),
        0x48 => Some(Op::EQV),
        0x14 => Some(Op::CMOVLBS),
        0x16 => Some(Op::CMOVLBC),
        0x24 => Some(Op::CMOVEQ),
        0x26 => Some(Op::CMOVNE),
        0x44 => Some(Op::CMOVLT),
        0x46 => Some(Op::CMOVGE),
        0x64 => Some(Op::CMOVLE),
        0x66 => Some(Op::CMOVGT),
        0x61 => Some(Op::AMASK),
        0x6C => Some(Op::IMPLVER),
        _ => None,
    }
}

/// The instruction of byte manipulation and shifts (opcode 12, hexadecimal) with this function.
#[tactic(auto, unfolding(crate::specs::Table::operate_of))]
fn byte_op(function: u8) -> Option<Op>
    ensures { result ≡ operate_of 18 function }
{
    match function {
        0x06 => Some(Op::EXTBL),
        0x16 => Some(Op::EXTWL),
        0x26 => Some(Op::EXTLL),
        0x36 => Some(Op::EXTQL),
        0x5A => Some(Op::EXTWH),
        0x6A => Some(Op::EXTLH),
        0x7A => Some(Op::EXTQH),
        0x0B => Some(Op::INSBL),
        0x1B => Some(Op::INSWL),
        0x2B => Some(Op::INSLL),
        0x3B => Some(Op::INSQL),
        0x57 => Some(Op::INSWH),
        0x67 => Some(Op::INSLH),
        0x77 => Some(Op::INSQH),
        0x02 => Some(Op::MSKBL),
        0x12 => Some(Op::MSKWL),
        0x22 => Some(Op::MSKLL),
        0x32 => Some(Op::MSKQL),
        0x52 => Some(Op::MSKWH),
        0x62 => Some(Op::MSKLH),
        0x72 => Some(Op::MSKQH),
        0x30 => Some(Op::ZAP),
        0x31 => Some(Op::ZAPNOT),
        0x39 => Some(Op::SLL),
        0x34 => Some(Op::SRL),
        0x3C => Some(Op::SRA),
        _ => None,
    }
}

/// The instruction of multiplication (opcode 13, hexadecimal) with this function.
#[tactic(auto, unfolding(crate::specs::Table::operate_of))]
fn multiply_op(function: u8) -> Option<Op>
    ensures { result ≡ operate_of 19 function }
{
    match function {
        0x00 => Some(Op::MULL),
        0x20 => Some(Op::MULQ),
        0x30 => Some(Op::UMULH),
        0x40 => Some(Op::MULLV),
        0x60 => Some(Op::MULQV),
        _ => None,
    }
}

/// The instruction of sign extension (opcode 1C, hexadecimal) with this function.
#[tactic(auto, unfolding(crate::specs::Table::operate_of))]
fn extension_op(function: u8) -> Option<Op>
    ensures { result ≡ operate_of 28 function }
{
    match function {
        0x00 => Some(Op::SEXTB),
        0x01 => Some(Op::SEXTW),
        _ => None,
    }
}

/// The opcode of an instruction of the operate format.
pub fn opcode_number(op: Op) -> u8
    ensures value { result ≡ operate_opcode op }
    ensures small { result < 2 ^ 6 }
{
    match op {
        Op::ADDL
        | Op::SUBL
        | Op::S4ADDL
        | Op::S8ADDL
        | Op::S4SUBL
        | Op::S8SUBL
        | Op::ADDQ
        | Op::SUBQ
        | Op::S4ADDQ
        | Op::S8ADDQ
        | Op::S4SUBQ
        | Op::S8SUBQ
        | Op::CMPBGE
        | Op::CMPULT
        | Op::CMPULE
        | Op::CMPEQ
        | Op::CMPLT
        | Op::CMPLE
        | Op::ADDLV
        | Op::SUBLV
        | Op::ADDQV
        | Op::SUBQV => 0x10,
        Op::AND
        | Op::BIC
        | Op::BIS
        | Op::ORNOT
        | Op::XOR
        | Op::EQV
        | Op::CMOVLBS
        | Op::CMOVLBC
        | Op::CMOVEQ
        | Op::CMOVNE
        | Op::CMOVLT
        | Op::CMOVGE
        | Op::CMOVLE
        | Op::CMOVGT
        | Op::AMASK
        | Op::IMPLVER => 0x11,
        Op::EXTBL
        | Op::EXTWL
        | Op::EXTLL
        | Op::EXTQL
        | Op::EXTWH
        | Op::EXTLH
        | Op::EXTQH
        | Op::INSBL
        | Op::INSWL
        | Op::INSLL
        | Op::INSQL
        | Op::INSWH
        | Op::INSLH
        | Op::INSQH
        | Op::MSKBL
        | Op::MSKWL
        | Op::MSKLL
        | Op::MSKQL
        | Op::MSKWH
        | Op::MSKLH
        | Op::MSKQH
        | Op::ZAP
        | Op::ZAPNOT
        | Op::SLL
        | Op::SRL
        | Op::SRA => 0x12,
        Op::MULL | Op::MULQ | Op::UMULH | Op::MULLV | Op::MULQV => 0x13,
        Op::SEXTB | Op::SEXTW => 0x1C,
    }
}

/// The function of an instruction of the operate format.
pub(crate) fn function_number(op: Op) -> u8
    ensures value { result ≡ operate_function op }
    ensures small { result < 2 ^ 7 }
{
    match op {
        Op::ADDL => 0x00,
        Op::SUBL => 0x09,
        Op::S4ADDL => 0x02,
        Op::S8ADDL => 0x12,
        Op::S4SUBL => 0x0B,
        Op::S8SUBL => 0x1B,
        Op::ADDQ => 0x20,
        Op::SUBQ => 0x29,
        Op::S4ADDQ => 0x22,
        Op::S8ADDQ => 0x32,
        Op::S4SUBQ => 0x2B,
        Op::S8SUBQ => 0x3B,
        Op::CMPBGE => 0x0F,
        Op::CMPULT => 0x1D,
        Op::CMPULE => 0x3D,
        Op::CMPEQ => 0x2D,
        Op::CMPLT => 0x4D,
        Op::CMPLE => 0x6D,
        Op::ADDLV => 0x40,
        Op::SUBLV => 0x49,
        Op::ADDQV => 0x60,
        Op::SUBQV => 0x69,
        Op::AND => 0x00,
        Op::BIC => 0x08,
        Op::BIS => 0x20,
        Op::ORNOT => 0x28,
        Op::XOR => 0x40,
        Op::EQV => 0x48,
        Op::CMOVLBS => 0x14,
        Op::CMOVLBC => 0x16,
        Op::CMOVEQ => 0x24,
        Op::CMOVNE => 0x26,
        Op::CMOVLT => 0x44,
        Op::CMOVGE => 0x46,
        Op::CMOVLE => 0x64,
        Op::CMOVGT => 0x66,
        Op::AMASK => 0x61,
        Op::IMPLVER => 0x6C,
        Op::EXTBL => 0x06,
        Op::EXTWL => 0x16,
        Op::EXTLL => 0x26,
        Op::EXTQL => 0x36,
        Op::EXTWH => 0x5A,
        Op::EXTLH => 0x6A,
        Op::EXTQH => 0x7A,
        Op::INSBL => 0x0B,
        Op::INSWL => 0x1B,
        Op::INSLL => 0x2B,
        Op::INSQL => 0x3B,
        Op::INSWH => 0x57,
        Op::INSLH => 0x67,
        Op::INSQH => 0x77,
        Op::MSKBL => 0x02,
        Op::MSKWL => 0x12,
        Op::MSKLL => 0x22,
        Op::MSKQL => 0x32,
        Op::MSKWH => 0x52,
        Op::MSKLH => 0x62,
        Op::MSKQH => 0x72,
        Op::ZAP => 0x30,
        Op::ZAPNOT => 0x31,
        Op::SLL => 0x39,
        Op::SRL => 0x34,
        Op::SRA => 0x3C,
        Op::MULL => 0x00,
        Op::MULQ => 0x20,
        Op::UMULH => 0x30,
        Op::MULLV => 0x40,
        Op::MULQV => 0x60,
        Op::SEXTB => 0x00,
        Op::SEXTW => 0x01,
    }
}
