//! Entries to the operating system, which faults and traps raise, and the halts that come in their
//! place.
use super::runs::{KERNEL, NO_ACCESS, Run, accesses, first_other, holds, stands, start_over};
use super::*;

/// LDA R16, address(R31); LDA R17, number(R31); wrent; and the word that raises the entry of that
/// number. The frame is that of kernel mode at level 7, and the processor goes on at the address,
/// whose low bits are cleared.
#[test]
fn each_entry_tells_its_cause(rt: HostRuntime) -> Result<(), Fail> {
    const AT: u64 = 0xFFFF_FC00_0000_200C;
    const BEHIND: u64 = 0xFFFF_FC00_0000_2010;
    let (a, _) = both()?;
    for (number, word, saved, a0, a1, a2) in [
        // MULQ/V R30, R30, R2 and R31: the square of a number near -2^42
        (1_u8, 0x4FDE_0C02_u32, BEHIND, 64_u64, 4_u64, 0_u64),
        (
            1_u8,
            0x4FDE_0C1F_u32,
            BEHIND,
            64_u64,
            0x8000_0000_u64,
            0_u64,
        ),
        // bpt, bugchk, gentrap
        (3_u8, 0x80_u32, BEHIND, 0_u64, 3_u64, 0_u64),
        (3_u8, 0x81_u32, BEHIND, 1_u64, 3_u64, 0_u64),
        (3_u8, 0xAA_u32, BEHIND, 2_u64, 3_u64, 0_u64),
        // LDT F1, 0(R30)
        (3_u8, 0x8C3E_0000_u32, AT, 3_u64, 3_u64, 0_u64),
        // a function that is no call; a service that cserve has not
        (3_u8, 0x01_u32, BEHIND, 4_u64, 3_u64, 0_u64),
        (3_u8, 0x09_u32, BEHIND, 4_u64, 3_u64, 0_u64),
        // LDQ R2, 1(R30); STW R3, 1(R30); LDL_L R4, 2(R30); STQ_C R5, 4(R30)
        (
            4_u8,
            0xA45E_0001_u32,
            BEHIND,
            KERNEL + 0x8001,
            0x29_u64,
            2_u64,
        ),
        (
            4_u8,
            0x347E_0001_u32,
            BEHIND,
            KERNEL + 0x8001,
            0x0D_u64,
            3_u64,
        ),
        (
            4_u8,
            0xA89E_0002_u32,
            BEHIND,
            KERNEL + 0x8002,
            0x2A_u64,
            4_u64,
        ),
        (
            4_u8,
            0xBCBE_0004_u32,
            BEHIND,
            KERNEL + 0x8004,
            0x2F_u64,
            5_u64,
        ),
    ] {
        let n = u64::from(number);
        let words = [0x221F_0103, 0x223F_0000 | u32::from(number), 0x34, word];
        let steps = [
            (0x2000, 0x221F_0103),
            (0x2004, 0x223F_0000 | n),
            (0x2008, 0x34),
            (0x200C, u64::from(word)),
            (0x7FD0, 7),
            (0x7FD8, saved),
            (0x7FE0, 0),
            (0x7FE8, 0x103),
            (0x7FF0, n),
            (0x7FF8, 0),
        ];
        let registers = [(16, a0), (17, a1), (18, a2), (30, KERNEL + 0x7FD0)];
        let mut machine = start_over(rt.alloc(), &words, &[])?;
        assert!(rt; accesses(&mut machine, a, &steps));
        assert!(rt; stands(&machine, a, 10, 0x100, None));
        assert_eq!(rt; first_other(&machine, a, &registers), None);
    }
    Ok(())
}

/// What a walk comes to that ends at an entry.
#[derive(Clone, Copy)]
enum Ends {
    /// A fault, by its code.
    Fault(u64),
    /// No memory.
    Beyond,
}

/// LDA R10, 0x2000(R31), and an access by R10: the walk ends at the first entry that leads to a
/// fault or out of memory. A fault is told with the address and what the access was to do; out of
/// memory the processor halts where it was.
#[test]
fn walks_end_at_the_first_fault(rt: HostRuntime) -> Result<(), Fail> {
    const TO_SECOND: u64 = 0x0000_0005_0000_0001;
    const TO_THIRD: u64 = 0x0000_0006_0000_0001;
    const TO_PAGE: u64 = 0x0000_0007_0000_1111;
    const AT: u64 = 0xFFFF_FC00_0000_2004;
    // the word, the program counter where the access has a fault, and the code of what it does
    let load = (0xA44A_0000_u32, AT, 0_u64);
    let locked = (0xAC4A_0000_u32, AT, 0_u64);
    let store = (0xB54A_0000_u32, AT, 1_u64);
    let conditional = (0xBC4A_0000_u32, AT, 1_u64);
    let jump = (0x6BEA_0000_u32, 0x2000_u64, u64::MAX);
    let (a, _) = both()?;
    for ((word, pc, way), first, second, third, read, ends) in [
        // of level 1: V is 0, though all other bits are set; the next entry is at the size of
        // memory
        (
            load,
            0x0000_0005_FFFF_FFFE,
            TO_THIRD,
            TO_PAGE,
            1_usize,
            Ends::Fault(0),
        ),
        (
            load,
            0x0000_0008_0000_0001,
            TO_THIRD,
            TO_PAGE,
            1_usize,
            Ends::Beyond,
        ),
        (
            store,
            0x0000_0005_0000_0000,
            TO_THIRD,
            TO_PAGE,
            1_usize,
            Ends::Fault(0),
        ),
        (
            jump,
            0x0000_0005_0000_0000,
            TO_THIRD,
            TO_PAGE,
            1_usize,
            Ends::Fault(0),
        ),
        // of level 2: the same
        (
            load,
            TO_SECOND,
            0x0000_0006_FFFF_FFFE,
            TO_PAGE,
            2_usize,
            Ends::Fault(0),
        ),
        (
            load,
            TO_SECOND,
            0x0000_0008_0000_0001,
            TO_PAGE,
            2_usize,
            Ends::Beyond,
        ),
        (
            store,
            TO_SECOND,
            0x0000_0006_0000_0000,
            TO_PAGE,
            2_usize,
            Ends::Fault(0),
        ),
        (
            jump,
            TO_SECOND,
            0x0000_0006_0000_0000,
            TO_PAGE,
            2_usize,
            Ends::Fault(0),
        ),
        // of level 3: V is 0; the page is at the size of memory
        (
            load,
            TO_SECOND,
            TO_THIRD,
            0x0000_0007_0000_1110,
            3_usize,
            Ends::Fault(0),
        ),
        (
            load,
            TO_SECOND,
            TO_THIRD,
            0x0000_0008_0000_1111,
            3_usize,
            Ends::Beyond,
        ),
        (
            jump,
            TO_SECOND,
            TO_THIRD,
            0x0000_0007_0000_1110,
            3_usize,
            Ends::Fault(0),
        ),
        (
            jump,
            TO_SECOND,
            TO_THIRD,
            0x0000_0008_0000_1111,
            3_usize,
            Ends::Beyond,
        ),
        // a load without KRE, and with FOR
        (
            load,
            TO_SECOND,
            TO_THIRD,
            0x0000_0007_0000_3211,
            3_usize,
            Ends::Fault(1),
        ),
        (
            load,
            TO_SECOND,
            TO_THIRD,
            0x0000_0007_0000_1113,
            3_usize,
            Ends::Fault(2),
        ),
        (
            locked,
            TO_SECOND,
            TO_THIRD,
            0x0000_0007_0000_3211,
            3_usize,
            Ends::Fault(1),
        ),
        (
            locked,
            TO_SECOND,
            TO_THIRD,
            0x0000_0007_0000_1113,
            3_usize,
            Ends::Fault(2),
        ),
        // a store without KWE, and with FOW
        (
            store,
            TO_SECOND,
            TO_THIRD,
            0x0000_0007_0000_2311,
            3_usize,
            Ends::Fault(1),
        ),
        (
            store,
            TO_SECOND,
            TO_THIRD,
            0x0000_0007_0000_1115,
            3_usize,
            Ends::Fault(4),
        ),
        (
            conditional,
            TO_SECOND,
            TO_THIRD,
            0x0000_0007_0000_2311,
            3_usize,
            Ends::Fault(1),
        ),
        (
            conditional,
            TO_SECOND,
            TO_THIRD,
            0x0000_0007_0000_1115,
            3_usize,
            Ends::Fault(4),
        ),
        // a fetch without KRE, and with FOE
        (
            jump,
            TO_SECOND,
            TO_THIRD,
            0x0000_0007_0000_3211,
            3_usize,
            Ends::Fault(1),
        ),
        (
            jump,
            TO_SECOND,
            TO_THIRD,
            0x0000_0007_0000_1119,
            3_usize,
            Ends::Fault(3),
        ),
        // no right and not valid: the right comes first
        (
            load,
            TO_SECOND,
            TO_THIRD,
            0x0000_0007_0000_0010,
            3_usize,
            Ends::Fault(1),
        ),
    ] {
        let walk = [(0x6000, first), (0xA000, second), (0xC008, third)];
        let fetches = [(0x2000, 0x215F_2000), (0x2004, u64::from(word))];
        let mut machine = start_over(rt.alloc(), &[0x215F_2000, word], &walk)?;
        assert!(rt; accesses(&mut machine, a, &fetches));
        assert!(rt; read <= 3);
        assert!(rt; accesses(&mut machine, a, &walk[..read]));
        let steps = (read as u32).wrapping_add(2);
        match ends {
            Ends::Fault(code) => {
                let frame = [
                    (0x7FD0, 7),
                    (0x7FD8, pc),
                    (0x7FE0, 0),
                    (0x7FE8, 0),
                    (0x7FF0, 0),
                    (0x7FF8, 0),
                ];
                let registers = [(2, 0), (16, 0x2000), (17, code), (18, way)];
                assert!(rt; accesses(&mut machine, a, &frame));
                assert!(rt; stands(&machine, a, steps.wrapping_add(6), 0, None));
                assert_eq!(rt; first_other(&machine, a, &registers), None);
            }
            Ends::Beyond => {
                let registers = [(2, 0), (16, 0), (30, KERNEL + 0x8000)];
                assert!(rt; stands(&machine, a, steps, pc, Some(4)));
                assert_eq!(rt; first_other(&machine, a, &registers), None);
            }
        }
    }
    Ok(())
}

/// LDA R10, 0x2000(R31); LDQ R2, 1(R10): alignment is tested ahead of the walk.
const NOT_ALIGNED: Run = Run {
    words: &[0x215F_2000, 0xA44A_0001],
    quadwords: &[],
    steps: &[
        (0x2000, 0x215F_2000),
        (0x2004, 0xA44A_0001),
        (0x7FD0, 7),
        (0x7FD8, 0xFFFF_FC00_0000_2008),
        (0x7FE0, 0),
        (0x7FE8, 0),
        (0x7FF0, 0),
        (0x7FF8, 0),
    ],
    pc: 0,
    halted: None,
    registers: &[(16, 0x2001), (17, 0x29), (18, 2)],
};

/// LDA R10, 1(R31); SLL R10, 42, R10; LDQ R2, 0(R10): bits 63:43 do not equal bit 42.
const LOAD_OF_NO_ADDRESS: Run = Run {
    words: &[0x215F_0001, 0x4945_572A, 0xA44A_0000],
    quadwords: &[],
    steps: &[
        (0x2000, 0x215F_0001),
        (0x2004, 0x4945_572A),
        (0x2008, 0xA44A_0000),
        (0x7FD0, 7),
        (0x7FD8, 0xFFFF_FC00_0000_2008),
        (0x7FE0, 0),
        (0x7FE8, 0),
        (0x7FF0, 0),
        (0x7FF8, 0),
    ],
    pc: 0,
    halted: None,
    registers: &[(16, 0x0400_0000_0000), (17, 1), (18, 0)],
};

/// JMP R31, (R10) in its place: the step at the new program counter makes no access.
const FETCH_OF_NO_ADDRESS: Run = Run {
    words: &[0x215F_0001, 0x4945_572A, 0x6BEA_0000],
    quadwords: &[],
    steps: &[
        (0x2000, 0x215F_0001),
        (0x2004, 0x4945_572A),
        (0x2008, 0x6BEA_0000),
        NO_ACCESS,
        (0x7FD0, 7),
        (0x7FD8, 0x0400_0000_0000),
        (0x7FE0, 0),
        (0x7FE8, 0),
        (0x7FF0, 0),
        (0x7FF8, 0),
    ],
    pc: 0,
    halted: None,
    registers: &[(16, 0x0400_0000_0000), (17, 1), (18, 0xFFFF_FFFF_FFFF_FFFF)],
};

#[test]
fn addresses_have_faults_ahead_of_a_walk(rt: HostRuntime) -> Result<(), Fail> {
    for run in [&NOT_ALIGNED, &LOAD_OF_NO_ADDRESS, &FETCH_OF_NO_ADDRESS] {
        assert!(rt; holds(rt.alloc(), run)?);
    }
    Ok(())
}

/// LDA R10, 0x4000(R30); LDQ R2, 0x4000(R10): the kernel segment's address of the size of memory.
const LOAD_BEYOND_MEMORY: Run = Run {
    words: &[0x215E_4000, 0xA44A_4000],
    quadwords: &[],
    steps: &[(0x2000, 0x215E_4000), (0x2004, 0xA44A_4000)],
    pc: 0xFFFF_FC00_0000_2004,
    halted: Some(4),
    registers: &[(2, 0), (10, 0xFFFF_FC00_0000_C000), (16, 0)],
};

/// LDA R10, 0x4000(R10); JMP R31, (R10) in its place.
const FETCH_BEYOND_MEMORY: Run = Run {
    words: &[0x215E_4000, 0x214A_4000, 0x6BEA_0000],
    quadwords: &[],
    steps: &[
        (0x2000, 0x215E_4000),
        (0x2004, 0x214A_4000),
        (0x2008, 0x6BEA_0000),
        NO_ACCESS,
    ],
    pc: 0xFFFF_FC00_0001_0000,
    halted: Some(4),
    registers: &[(10, 0xFFFF_FC00_0001_0000), (16, 0)],
};

/// callsys.
const CALL_IN_KERNEL_MODE: Run = Run {
    words: &[0x83],
    quadwords: &[],
    steps: &[(0x2000, 0x83)],
    pc: 0xFFFF_FC00_0000_2000,
    halted: Some(3),
    registers: &[(16, 0), (30, 0xFFFF_FC00_0000_8000)],
};

/// LDA R30, 4(R30); bugchk: the frame is no multiple of a quadword's bytes.
const TRAP_ON_ODD_STACK: Run = Run {
    words: &[0x23DE_0004, 0x81],
    quadwords: &[],
    steps: &[(0x2000, 0x23DE_0004), (0x2004, 0x81)],
    pc: 0xFFFF_FC00_0000_2008,
    halted: Some(2),
    registers: &[(16, 0), (30, 0xFFFF_FC00_0000_8004)],
};

/// LDT F1, 0(R30) in the call's place.
const FAULT_ON_ODD_STACK: Run = Run {
    words: &[0x23DE_0004, 0x8C3E_0000],
    quadwords: &[],
    steps: &[(0x2000, 0x23DE_0004), (0x2004, 0x8C3E_0000)],
    pc: 0xFFFF_FC00_0000_2004,
    halted: Some(2),
    registers: &[(16, 0), (30, 0xFFFF_FC00_0000_8004)],
};

/// rti in its place.
const RETURN_ON_ODD_STACK: Run = Run {
    words: &[0x23DE_0004, 0x3F],
    quadwords: &[],
    steps: &[(0x2000, 0x23DE_0004), (0x2004, 0x3F)],
    pc: 0xFFFF_FC00_0000_2004,
    halted: Some(2),
    registers: &[(16, 0), (30, 0xFFFF_FC00_0000_8004)],
};

/// LDA R30, 0(R31); bugchk: the frame lies at the last bytes of all addresses, whose entry of level
/// 1 is the last of its table and is not valid.
const FRAME_IN_NO_PAGE: Run = Run {
    words: &[0x23DF_0000, 0x81],
    quadwords: &[],
    steps: &[(0x2000, 0x23DF_0000), (0x2004, 0x81), (0x7FF8, 0)],
    pc: 0xFFFF_FC00_0000_2008,
    halted: Some(2),
    registers: &[(16, 0), (30, 0)],
};

/// LDA R30, 0x4000(R30), twice; LDA R30, 24(R30); bugchk: the last three words of the frame lie
/// beyond memory.
const FRAME_OVER_THE_END: Run = Run {
    words: &[0x23DE_4000, 0x23DE_4000, 0x23DE_0018, 0x81],
    quadwords: &[],
    steps: &[
        (0x2000, 0x23DE_4000),
        (0x2004, 0x23DE_4000),
        (0x2008, 0x23DE_0018),
        (0x200C, 0x81),
        (0xFFE8, 7),
        (0xFFF0, 0xFFFF_FC00_0000_2010),
        (0xFFF8, 0),
    ],
    pc: 0xFFFF_FC00_0000_2010,
    halted: Some(4),
    registers: &[(16, 0), (30, 0xFFFF_FC00_0001_0018)],
};

#[test]
fn halts_leave_the_processor_where_it_was(rt: HostRuntime) -> Result<(), Fail> {
    for run in [
        &LOAD_BEYOND_MEMORY,
        &FETCH_BEYOND_MEMORY,
        &CALL_IN_KERNEL_MODE,
        &TRAP_ON_ODD_STACK,
        &FAULT_ON_ODD_STACK,
        &RETURN_ON_ODD_STACK,
        &FRAME_IN_NO_PAGE,
        &FRAME_OVER_THE_END,
    ] {
        assert!(rt; holds(rt.alloc(), run)?);
    }
    Ok(())
}

/// LDA R16, 0x2020, in the kernel segment; LDA R17, 3(R31); wrent; LDQ_L R1, 64(R30); bugchk; and
/// at 0x2020 LDA R2, 7(R31); STQ_C R2, 112(R30), to the same quadword.
const ENTRY_UNLOCKS: Run = Run {
    words: &[
        0x221E_A020,
        0x223F_0003,
        0x34,
        0xAC3E_0040,
        0x81,
        0,
        0,
        0,
        0x205F_0007,
        0xBC5E_0070,
    ],
    quadwords: &[],
    steps: &[
        (0x2000, 0x221E_A020),
        (0x2004, 0x223F_0003),
        (0x2008, 0x34),
        (0x200C, 0xAC3E_0040),
        (0x8040, 0),
        (0x2010, 0x81),
        (0x7FD0, 7),
        (0x7FD8, 0xFFFF_FC00_0000_2014),
        (0x7FE0, 0),
        (0x7FE8, 0xFFFF_FC00_0000_2020),
        (0x7FF0, 3),
        (0x7FF8, 0),
        (0x2020, 0x205F_0007),
        (0x2024, 0xBC5E_0070),
        (0x8040, 7),
    ],
    pc: 0xFFFF_FC00_0000_2028,
    halted: None,
    registers: &[(2, 0)],
};

/// LDQ_L R1, 64(R30); rti; STQ_C R2, 16(R30), to the same quadword.
const RETURN_UNLOCKS: Run = Run {
    words: &[0xAC3E_0040, 0x3F, 0xBC5E_0010],
    quadwords: &[(0x8000, 7), (0x8008, 0xFFFF_FC00_0000_2008)],
    steps: &[
        (0x2000, 0xAC3E_0040),
        (0x8040, 0),
        (0x2004, 0x3F),
        (0x8000, 7),
        (0x8008, 0xFFFF_FC00_0000_2008),
        (0x8010, 0),
        (0x8018, 0),
        (0x8020, 0),
        (0x8028, 0),
        (0x2008, 0xBC5E_0010),
        (0x8040, 0),
    ],
    pc: 0xFFFF_FC00_0000_200C,
    halted: None,
    registers: &[(2, 0), (30, 0xFFFF_FC00_0000_8030)],
};

#[test]
fn entries_and_returns_clear_the_lock_flag(rt: HostRuntime) -> Result<(), Fail> {
    for run in [&ENTRY_UNLOCKS, &RETURN_UNLOCKS] {
        assert!(rt; holds(rt.alloc(), run)?);
    }
    Ok(())
}
