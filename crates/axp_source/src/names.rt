//! The names of the instructions as a source has them, both ways.
ghost use Rattle.std.specs.Prelude.{◌≡◌, ◌<◌, ◌≤◌, length, Some, IfSome};
ghost use Rattle.axp_source.specs.Names.{memory_name, memory_named, branch_name, branch_named};
ghost use Rattle.axp_source.specs.Names.{operate_name, operate_named, misc_name, misc_named};
ghost use Rattle.axp_source.specs.Names.{pal_name, pal_named, jump_name, jump_named};
ghost use Rattle.axp_source.specs.declared.names.TheConstants.{MOST_NAME};

use axp_decode::{BranchOp, MemOp, MiscOp, Op, PalOp};

/// The most bytes of a name.
pub(crate) const MOST_NAME: usize = 13;

/// The instructions of the memory format, in the order of the tables.
const MEMORY: [MemOp; 16] = [
    MemOp::LDA,
    MemOp::LDAH,
    MemOp::LDBU,
    MemOp::LDWU,
    MemOp::LDL,
    MemOp::LDQ,
    MemOp::LDQ_U,
    MemOp::LDL_L,
    MemOp::LDQ_L,
    MemOp::STB,
    MemOp::STW,
    MemOp::STL,
    MemOp::STQ,
    MemOp::STQ_U,
    MemOp::STL_C,
    MemOp::STQ_C,
];

/// The name of an instruction of the memory format.
pub(crate) fn memory_name(op: MemOp) -> &'static [u8]
    ensures value { result.now ≡ memory_name op }
    ensures short { length result.now ≤ MOST_NAME }
{
    match op {
        MemOp::LDA => b"LDA",
        MemOp::LDAH => b"LDAH",
        MemOp::LDBU => b"LDBU",
        MemOp::LDWU => b"LDWU",
        MemOp::LDL => b"LDL",
        MemOp::LDQ => b"LDQ",
        MemOp::LDQ_U => b"LDQ_U",
        MemOp::LDL_L => b"LDL_L",
        MemOp::LDQ_L => b"LDQ_L",
        MemOp::STB => b"STB",
        MemOp::STW => b"STW",
        MemOp::STL => b"STL",
        MemOp::STQ => b"STQ",
        MemOp::STQ_U => b"STQ_U",
        MemOp::STL_C => b"STL_C",
        MemOp::STQ_C => b"STQ_C",
    }
}

/// The instruction of the memory format of this name.
#[tactic(auto, unfolding(crate::specs::Names::memory_named))]
pub(crate) fn memory_named(name: &[u8]) -> Option<MemOp>
    ensures { result ≡ memory_named name.now }
{
    MEMORY.iter().copied().find(|op| name == memory_name(*op))
}

/// The instructions of the branch format, in the order of the tables.
const BRANCHES: [BranchOp; 10] = [
    BranchOp::BR,
    BranchOp::BSR,
    BranchOp::BLBC,
    BranchOp::BLBS,
    BranchOp::BEQ,
    BranchOp::BNE,
    BranchOp::BLT,
    BranchOp::BLE,
    BranchOp::BGE,
    BranchOp::BGT,
];

/// The name of an instruction of the branch format.
pub(crate) fn branch_name(op: BranchOp) -> &'static [u8]
    ensures value { result.now ≡ branch_name op }
    ensures short { length result.now ≤ MOST_NAME }
{
    match op {
        BranchOp::BR => b"BR",
        BranchOp::BSR => b"BSR",
        BranchOp::BLBC => b"BLBC",
        BranchOp::BLBS => b"BLBS",
        BranchOp::BEQ => b"BEQ",
        BranchOp::BNE => b"BNE",
        BranchOp::BLT => b"BLT",
        BranchOp::BLE => b"BLE",
        BranchOp::BGE => b"BGE",
        BranchOp::BGT => b"BGT",
    }
}

/// The instruction of the branch format of this name.
#[tactic(auto, unfolding(crate::specs::Names::branch_named))]
pub(crate) fn branch_named(name: &[u8]) -> Option<BranchOp>
    ensures { result ≡ branch_named name.now }
{
    BRANCHES.iter().copied().find(|op| name == branch_name(*op))
}

/// The instructions of the operate format, in the order of the tables.
const OPERATES: [Op; 71] = [
    Op::ADDL,
    Op::SUBL,
    Op::S4ADDL,
    Op::S8ADDL,
    Op::S4SUBL,
    Op::S8SUBL,
    Op::ADDQ,
    Op::SUBQ,
    Op::S4ADDQ,
    Op::S8ADDQ,
    Op::S4SUBQ,
    Op::S8SUBQ,
    Op::CMPBGE,
    Op::CMPULT,
    Op::CMPULE,
    Op::CMPEQ,
    Op::CMPLT,
    Op::CMPLE,
    Op::ADDLV,
    Op::SUBLV,
    Op::ADDQV,
    Op::SUBQV,
    Op::AND,
    Op::BIC,
    Op::BIS,
    Op::ORNOT,
    Op::XOR,
    Op::EQV,
    Op::CMOVLBS,
    Op::CMOVLBC,
    Op::CMOVEQ,
    Op::CMOVNE,
    Op::CMOVLT,
    Op::CMOVGE,
    Op::CMOVLE,
    Op::CMOVGT,
    Op::AMASK,
    Op::IMPLVER,
    Op::EXTBL,
    Op::EXTWL,
    Op::EXTLL,
    Op::EXTQL,
    Op::EXTWH,
    Op::EXTLH,
    Op::EXTQH,
    Op::INSBL,
    Op::INSWL,
    Op::INSLL,
    Op::INSQL,
    Op::INSWH,
    Op::INSLH,
    Op::INSQH,
    Op::MSKBL,
    Op::MSKWL,
    Op::MSKLL,
    Op::MSKQL,
    Op::MSKWH,
    Op::MSKLH,
    Op::MSKQH,
    Op::ZAP,
    Op::ZAPNOT,
    Op::SLL,
    Op::SRL,
    Op::SRA,
    Op::MULL,
    Op::MULQ,
    Op::UMULH,
    Op::MULLV,
    Op::MULQV,
    Op::SEXTB,
    Op::SEXTW,
];

/// The name of an instruction of the operate format.
pub(crate) fn operate_name(op: Op) -> &'static [u8]
    ensures value { result.now ≡ operate_name op }
    ensures short { length result.now ≤ MOST_NAME }
{
    match op {
        Op::ADDL => b"ADDL",
        Op::SUBL => b"SUBL",
        Op::S4ADDL => b"S4ADDL",
        Op::S8ADDL => b"S8ADDL",
        Op::S4SUBL => b"S4SUBL",
        Op::S8SUBL => b"S8SUBL",
        Op::ADDQ => b"ADDQ",
        Op::SUBQ => b"SUBQ",
        Op::S4ADDQ => b"S4ADDQ",
        Op::S8ADDQ => b"S8ADDQ",
        Op::S4SUBQ => b"S4SUBQ",
        Op::S8SUBQ => b"S8SUBQ",
        Op::CMPBGE => b"CMPBGE",
        Op::CMPULT => b"CMPULT",
        Op::CMPULE => b"CMPULE",
        Op::CMPEQ => b"CMPEQ",
        Op::CMPLT => b"CMPLT",
        Op::CMPLE => b"CMPLE",
        Op::ADDLV => b"ADDL/V",
        Op::SUBLV => b"SUBL/V",
        Op::ADDQV => b"ADDQ/V",
        Op::SUBQV => b"SUBQ/V",
        Op::AND => b"AND",
        Op::BIC => b"BIC",
        Op::BIS => b"BIS",
        Op::ORNOT => b"ORNOT",
        Op::XOR => b"XOR",
        Op::EQV => b"EQV",
        Op::CMOVLBS => b"CMOVLBS",
        Op::CMOVLBC => b"CMOVLBC",
        Op::CMOVEQ => b"CMOVEQ",
        Op::CMOVNE => b"CMOVNE",
        Op::CMOVLT => b"CMOVLT",
        Op::CMOVGE => b"CMOVGE",
        Op::CMOVLE => b"CMOVLE",
        Op::CMOVGT => b"CMOVGT",
        Op::AMASK => b"AMASK",
        Op::IMPLVER => b"IMPLVER",
        Op::EXTBL => b"EXTBL",
        Op::EXTWL => b"EXTWL",
        Op::EXTLL => b"EXTLL",
        Op::EXTQL => b"EXTQL",
        Op::EXTWH => b"EXTWH",
        Op::EXTLH => b"EXTLH",
        Op::EXTQH => b"EXTQH",
        Op::INSBL => b"INSBL",
        Op::INSWL => b"INSWL",
        Op::INSLL => b"INSLL",
        Op::INSQL => b"INSQL",
        Op::INSWH => b"INSWH",
        Op::INSLH => b"INSLH",
        Op::INSQH => b"INSQH",
        Op::MSKBL => b"MSKBL",
        Op::MSKWL => b"MSKWL",
        Op::MSKLL => b"MSKLL",
        Op::MSKQL => b"MSKQL",
        Op::MSKWH => b"MSKWH",
        Op::MSKLH => b"MSKLH",
        Op::MSKQH => b"MSKQH",
        Op::ZAP => b"ZAP",
        Op::ZAPNOT => b"ZAPNOT",
        Op::SLL => b"SLL",
        Op::SRL => b"SRL",
        Op::SRA => b"SRA",
        Op::MULL => b"MULL",
        Op::MULQ => b"MULQ",
        Op::UMULH => b"UMULH",
        Op::MULLV => b"MULL/V",
        Op::MULQV => b"MULQ/V",
        Op::SEXTB => b"SEXTB",
        Op::SEXTW => b"SEXTW",
    }
}

/// The instruction of the operate format of this name.
#[tactic(auto, unfolding(crate::specs::Names::operate_named))]
pub(crate) fn operate_named(name: &[u8]) -> Option<Op>
    ensures { result ≡ operate_named name.now }
{
    OPERATES
        .iter()
        .copied()
        .find(|op| name == operate_name(*op))
}

/// The miscellaneous instructions, in the order of the tables.
const MISCELLANEOUS: [MiscOp; 9] = [
    MiscOp::TRAPB,
    MiscOp::EXCB,
    MiscOp::FETCH,
    MiscOp::FETCH_M,
    MiscOp::ECB,
    MiscOp::WH64,
    MiscOp::MB,
    MiscOp::WMB,
    MiscOp::RPCC,
];

/// The name of a miscellaneous instruction.
pub(crate) fn misc_name(op: MiscOp) -> &'static [u8]
    ensures value { result.now ≡ misc_name op }
    ensures short { length result.now ≤ MOST_NAME }
{
    match op {
        MiscOp::TRAPB => b"TRAPB",
        MiscOp::EXCB => b"EXCB",
        MiscOp::FETCH => b"FETCH",
        MiscOp::FETCH_M => b"FETCH_M",
        MiscOp::ECB => b"ECB",
        MiscOp::WH64 => b"WH64",
        MiscOp::MB => b"MB",
        MiscOp::WMB => b"WMB",
        MiscOp::RPCC => b"RPCC",
    }
}

/// The miscellaneous instruction of this name.
#[tactic(auto, unfolding(crate::specs::Names::misc_named))]
pub(crate) fn misc_named(name: &[u8]) -> Option<MiscOp>
    ensures { result ≡ misc_named name.now }
{
    MISCELLANEOUS
        .iter()
        .copied()
        .find(|op| name == misc_name(*op))
}

/// The calls of PALcode, in the order of the tables.
const PAL_CALLS: [PalOp; 26] = [
    PalOp::HALT,
    PalOp::DRAINA,
    PalOp::CSERVE,
    PalOp::WRIPIR,
    PalOp::WRFEN,
    PalOp::WRVPTPTR,
    PalOp::SWPCTX,
    PalOp::WRVAL,
    PalOp::RDVAL,
    PalOp::TBI,
    PalOp::WRENT,
    PalOp::SWPIPL,
    PalOp::RDPS,
    PalOp::WRKGP,
    PalOp::WRUSP,
    PalOp::RDUSP,
    PalOp::WHAMI,
    PalOp::RETSYS,
    PalOp::RTI,
    PalOp::BPT,
    PalOp::BUGCHK,
    PalOp::GENTRAP,
    PalOp::CALLSYS,
    PalOp::IMB,
    PalOp::RDUNIQUE,
    PalOp::WRUNIQUE,
];

/// The name of a call of PALcode.
pub(crate) fn pal_name(op: PalOp) -> &'static [u8]
    ensures value { result.now ≡ pal_name op }
    ensures short { length result.now ≤ MOST_NAME }
{
    match op {
        PalOp::HALT => b"halt",
        PalOp::DRAINA => b"draina",
        PalOp::CSERVE => b"cserve",
        PalOp::WRIPIR => b"wripir",
        PalOp::WRFEN => b"wrfen",
        PalOp::WRVPTPTR => b"wrvptptr",
        PalOp::SWPCTX => b"swpctx",
        PalOp::WRVAL => b"wrval",
        PalOp::RDVAL => b"rdval",
        PalOp::TBI => b"tbi",
        PalOp::WRENT => b"wrent",
        PalOp::SWPIPL => b"swpipl",
        PalOp::RDPS => b"rdps",
        PalOp::WRKGP => b"wrkgp",
        PalOp::WRUSP => b"wrusp",
        PalOp::RDUSP => b"rdusp",
        PalOp::WHAMI => b"whami",
        PalOp::RETSYS => b"retsys",
        PalOp::RTI => b"rti",
        PalOp::BPT => b"bpt",
        PalOp::BUGCHK => b"bugchk",
        PalOp::GENTRAP => b"gentrap",
        PalOp::CALLSYS => b"callsys",
        PalOp::IMB => b"imb",
        PalOp::RDUNIQUE => b"rdunique",
        PalOp::WRUNIQUE => b"wrunique",
    }
}

/// The call of PALcode of this name.
#[tactic(auto, unfolding(crate::specs::Names::pal_named))]
pub(crate) fn pal_named(name: &[u8]) -> Option<PalOp>
    ensures { result ≡ pal_named name.now }
{
    PAL_CALLS.iter().copied().find(|op| name == pal_name(*op))
}

/// The kinds of the jumps.
const JUMPS: [u8; 4] = [0, 1, 2, 3];

/// The name of the jump of a kind.
pub(crate) fn jump_name(kind: u8) -> &'static [u8]
    ensures value { result.now ≡ jump_name kind }
    ensures short { length result.now ≤ MOST_NAME }
{
    match kind {
        0 => b"JMP",
        1 => b"JSR",
        2 => b"RET",
        _ => b"JSR_COROUTINE",
    }
}

/// The kind of the jump of this name.
#[tactic(auto, unfolding(crate::specs::Names::jump_named))]
pub(crate) fn jump_named(name: &[u8]) -> Option<u8>
    ensures value { result ≡ jump_named name.now }
    ensures fits { IfSome result (λ kind. kind < 4) }
{
    JUMPS.iter().copied().find(|kind| name == jump_name(*kind))
}
