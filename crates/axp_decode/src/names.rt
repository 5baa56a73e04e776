//! The names of the instructions, as the Alpha Architecture Reference Manual spells them; a `V` at
//! the end, as in `ADDLV`, stands for `/V`. Sections are those of the manual, and the numbers of
//! the names are in its appendix C.

/// The loads and stores of integers (section 4.2), told apart by their opcodes.
#[derive(Clone, Copy, PartialEq, Eq, Debug)]
pub enum MemOp {
    LDA,
    LDAH,
    LDBU,
    LDWU,
    LDL,
    LDQ,
    LDQ_U,
    LDL_L,
    LDQ_L,
    STB,
    STW,
    STL,
    STQ,
    STQ_U,
    STL_C,
    STQ_C,
}

/// The branches on integers (section 4.3), told apart by their opcodes.
#[derive(Clone, Copy, PartialEq, Eq, Debug)]
pub enum BranchOp {
    BR,
    BSR,
    BLBC,
    BLBS,
    BEQ,
    BNE,
    BLT,
    BLE,
    BGE,
    BGT,
}

/// The miscellaneous instructions of opcode 0x18 (section 4.11), told apart by their function
/// codes.
#[derive(Clone, Copy, PartialEq, Eq, Debug)]
pub enum MiscOp {
    TRAPB,
    EXCB,
    FETCH,
    FETCH_M,
    ECB,
    WH64,
    MB,
    WMB,
    RPCC,
}

/// The calls of PALcode, of Digital UNIX, told apart by their functions.
#[derive(Clone, Copy, PartialEq, Eq, Debug)]
pub enum PalOp {
    HALT,
    DRAINA,
    CSERVE,
    WRIPIR,
    WRFEN,
    WRVPTPTR,
    SWPCTX,
    WRVAL,
    RDVAL,
    TBI,
    WRENT,
    SWPIPL,
    RDPS,
    WRKGP,
    WRUSP,
    RDUSP,
    WHAMI,
    RETSYS,
    RTI,
    BPT,
    BUGCHK,
    GENTRAP,
    CALLSYS,
    IMB,
    RDUNIQUE,
    WRUNIQUE,
}

/// The instructions of the operate format (sections 4.4 to 4.6, and two of 4.11), told apart by
/// their opcodes and functions.
#[derive(Clone, Copy, PartialEq, Eq, Debug)]
pub enum Op {
    // Opcode 0x10: sums, differences and comparisons.
    ADDL,
    SUBL,
    S4ADDL,
    S8ADDL,
    S4SUBL,
    S8SUBL,
    ADDQ,
    SUBQ,
    S4ADDQ,
    S8ADDQ,
    S4SUBQ,
    S8SUBQ,
    CMPBGE,
    CMPULT,
    CMPULE,
    CMPEQ,
    CMPLT,
    CMPLE,
    ADDLV,
    SUBLV,
    ADDQV,
    SUBQV,
    // Opcode 0x11: logic and conditional moves, and what the implementation has.
    AND,
    BIC,
    BIS,
    ORNOT,
    XOR,
    EQV,
    CMOVLBS,
    CMOVLBC,
    CMOVEQ,
    CMOVNE,
    CMOVLT,
    CMOVGE,
    CMOVLE,
    CMOVGT,
    AMASK,
    IMPLVER,
    // Opcode 0x12: bytes and shifts.
    EXTBL,
    EXTWL,
    EXTLL,
    EXTQL,
    EXTWH,
    EXTLH,
    EXTQH,
    INSBL,
    INSWL,
    INSLL,
    INSQL,
    INSWH,
    INSLH,
    INSQH,
    MSKBL,
    MSKWL,
    MSKLL,
    MSKQL,
    MSKWH,
    MSKLH,
    MSKQH,
    ZAP,
    ZAPNOT,
    SLL,
    SRL,
    SRA,
    // Opcode 0x13: products.
    MULL,
    MULQ,
    UMULH,
    MULLV,
    MULQV,
    // Opcode 0x1C: sign extension.
    SEXTB,
    SEXTW,
}
