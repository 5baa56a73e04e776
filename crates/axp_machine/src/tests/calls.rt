//! Calls of PALcode: user mode and back, contexts, translation buffers, and the short ones.
use super::runs::{
    KERNEL, NO_ACCESS, Run, accesses, first_other, holds, next_access, stands, start_over,
};
use super::*;

/// The entry of level 1, and that of level 2, which lead to the table at 0xC000.
const TO_SECOND: (u64, u64) = (0x6000, 0x0000_0005_0000_0001);

const TO_THIRD: (u64, u64) = (0xA000, 0x0000_0006_0000_0001);

/// The virtual page at 0x2000 is the frame at 0xE000, for both modes; the one at 0x4000 is the
/// frame at 0x8000, for kernel mode alone.
const USER_PAGE: (u64, u64) = (0xC008, 0x0000_0007_0000_3311);

const KERNEL_PAGE: (u64, u64) = (0xC010, 0x0000_0004_0000_1111);

/// A frame on the stack by which rti goes to user mode at 0x2000: the low bits of its program
/// counter are cleared. The global pointer is in the kernel segment, and a1 in the kernel's page.
const FRAME: [(u64, u64); 6] = [
    (0x8000, 8),
    (0x8008, 0x2003),
    (0x8010, 0xFFFF_FC00_0000_4000),
    (0x8018, 0xA),
    (0x8020, 0x4000),
    (0x8028, 0xC),
];

/// Two processors over a program, that frame, those pages, and the first quadword of user mode.
fn start_user(alloc: Global, words: &[u32], code: u64) -> Result<Machine, Fail> {
    let quadwords = [
        TO_SECOND,
        FRAME[0],
        FRAME[1],
        FRAME[2],
        FRAME[3],
        FRAME[4],
        FRAME[5],
        TO_THIRD,
        USER_PAGE,
        KERNEL_PAGE,
        (0xE000, code),
    ];
    start_over(alloc, words, &quadwords)
}

/// The walk to the page of user mode.
const WALK_TO_USER: [(u64, u64); 3] = [TO_SECOND, TO_THIRD, USER_PAGE];

/// LDA R16, 0x2020, in the kernel segment; LDA R17, 5(R31); wrent; LDA R16, 0x3000(R31); wrusp;
/// rti; and at 0x2020 LDA R0, 77(R31); retsys. In user mode callsys; LDA R1, 1(R30).
#[test]
fn user_mode_calls_the_system_and_goes_on(rt: HostRuntime) -> Result<(), Fail> {
    let (a, _) = both()?;
    let words = [
        0x221E_A020,
        0x223F_0005,
        0x34,
        0x221F_3000,
        0x38,
        0x3F,
        0,
        0,
        0x201F_004D,
        0x3D,
    ];
    let starts = [
        (0x2000, 0x221E_A020),
        (0x2004, 0x223F_0005),
        (0x2008, 0x34),
        (0x200C, 0x221F_3000),
        (0x2010, 0x38),
        (0x2014, 0x3F),
    ];
    let calls = [
        (0xE000, 0x83),
        (0x8000, 8),
        (0x8008, 0x2004),
        (0x8010, KERNEL + 0x4000),
        (0x2020, 0x201F_004D),
        (0x2024, 0x3D),
        (0x8008, 0x2004),
        (0x8010, KERNEL + 0x4000),
        (0xE004, 0x203E_0001),
    ];
    let registers = [
        (0, 77),
        (1, 0x3001),
        (16, 0xA),
        (17, 0x4000),
        (18, 0xC),
        (29, KERNEL + 0x4000),
        (30, 0x3000),
    ];
    let mut machine = start_user(rt.alloc(), &words, 0x203E_0001_0000_0083)?;
    assert!(rt; accesses(&mut machine, a, &starts));
    assert!(rt; accesses(&mut machine, a, &FRAME));
    assert!(rt; accesses(&mut machine, a, &WALK_TO_USER));
    assert!(rt; accesses(&mut machine, a, &calls));
    assert!(rt; stands(&machine, a, 24, 0x2008, None));
    assert_eq!(rt; first_other(&machine, a, &registers), None);
    Ok(())
}

/// rti, and in user mode one instruction, which raises an entry: its frame lies where the kernel's
/// stack was, and the processor goes on in kernel mode at the address 0.
#[test]
fn user_mode_is_kept_out(rt: HostRuntime) -> Result<(), Fail> {
    const GLOBAL: u64 = 0xFFFF_FC00_0000_4000;
    let walk = [TO_SECOND, TO_THIRD, KERNEL_PAGE];
    let none: &[(u64, u64)] = &[];
    let bare: &[(u64, u64)] = &[NO_ACCESS];
    let (a, _) = both()?;
    for (word, between, saved, a0, a1, a2) in [
        // halt, tbi and rti
        (0_u32, none, 0x2004_u64, 4_u64, 0x4000_u64, 0xC_u64),
        (0x33_u32, none, 0x2004_u64, 4_u64, 0x4000_u64, 0xC_u64),
        (0x3F_u32, none, 0x2004_u64, 4_u64, 0x4000_u64, 0xC_u64),
        // LDQ R2, 0(R29); STQ R2, 0(R29); JMP R31, (R29): the kernel segment
        (0xA45D_0000_u32, none, 0x2000_u64, GLOBAL, 1_u64, 0_u64),
        (0xB45D_0000_u32, none, 0x2000_u64, GLOBAL, 1_u64, 1_u64),
        (0x6BFD_0000_u32, bare, GLOBAL, GLOBAL, 1_u64, u64::MAX),
        // LDQ R2, 0(R17): a page without URE
        (
            0xA451_0000_u32,
            &walk[..],
            0x2000_u64,
            0x4000_u64,
            1_u64,
            0_u64,
        ),
    ] {
        let fetches = [(0xE000, u64::from(word))];
        let frame = [
            (0x8000, 8),
            (0x8008, saved),
            (0x8010, GLOBAL),
            (0x8018, 0xA),
            (0x8020, 0x4000),
            (0x8028, 0xC),
        ];
        let registers = [
            (2, 0),
            (16, a0),
            (17, a1),
            (18, a2),
            (29, 0),
            (30, KERNEL + 0x8000),
        ];
        let mut machine = start_user(rt.alloc(), &[0x3F], u64::from(word))?;
        assert!(rt; accesses(&mut machine, a, &[(0x2000, 0x3F)]));
        assert!(rt; accesses(&mut machine, a, &FRAME));
        assert!(rt; accesses(&mut machine, a, &WALK_TO_USER));
        assert!(rt; accesses(&mut machine, a, &fetches));
        assert!(rt; accesses(&mut machine, a, between));
        assert!(rt; accesses(&mut machine, a, &frame));
        let steps = (between.len() as u32).wrapping_add(17);
        assert!(rt; stands(&machine, a, steps, 0, None));
        assert_eq!(rt; first_other(&machine, a, &registers), None);
    }
    Ok(())
}

/// LDA R30, 0x4000(R31); rti; and in user mode callsys. The stack is in the kernel's page: the
/// frame that callsys makes in user mode is written with the rights of kernel mode.
#[test]
fn frames_are_reached_in_kernel_mode(rt: HostRuntime) -> Result<(), Fail> {
    let (a, _) = both()?;
    let mut machine = start_user(rt.alloc(), &[0x23DF_4000, 0x3F], 0x83)?;
    let starts = [
        (0x2000, 0x23DF_4000),
        (0x2004, 0x3F),
        TO_SECOND,
        TO_THIRD,
        KERNEL_PAGE,
    ];
    let calls = [
        (0xE000, 0x83),
        (0x8000, 8),
        (0x8008, 0x2004),
        (0x8010, KERNEL + 0x4000),
    ];
    assert!(rt; accesses(&mut machine, a, &starts));
    assert!(rt; accesses(&mut machine, a, &FRAME));
    assert!(rt; accesses(&mut machine, a, &WALK_TO_USER));
    assert!(rt; accesses(&mut machine, a, &calls));
    assert!(rt; stands(&machine, a, 18, 0, None));
    assert_eq!(rt;
        first_other(&machine, a, &[(16, 0xA), (29, 0), (30, 0x4000)]),
        None
    );
    Ok(())
}

/// rti to kernel mode, and rdps: the status is taken modulo 16.
const RETURN_TO_KERNEL: Run = Run {
    words: &[0x3F, 0, 0x36],
    quadwords: &[
        (0x8000, 0x15),
        (0x8008, 0xFFFF_FC00_0000_200B),
        (0x8010, 1),
        (0x8018, 2),
        (0x8020, 3),
        (0x8028, 4),
    ],
    steps: &[
        (0x2000, 0x3F),
        (0x8000, 0x15),
        (0x8008, 0xFFFF_FC00_0000_200B),
        (0x8010, 1),
        (0x8018, 2),
        (0x8020, 3),
        (0x8028, 4),
        (0x2008, 0x36),
    ],
    pc: 0xFFFF_FC00_0000_200C,
    halted: None,
    registers: &[
        (0, 5),
        (16, 2),
        (17, 3),
        (18, 4),
        (29, 1),
        (30, 0xFFFF_FC00_0000_8030),
    ],
};

/// LDA R16, 0x55(R31); wrunique; LDA R16, 0x30(R31); wrusp; LDA R16, 0x4047(R31); swpctx; RPCC R1;
/// rdunique; BIS R31, R0, R3; BIS R31, R31, R16; swpctx; RPCC R2: to the block at 0x4000 and back
/// to that at 0. The sixth word that is fetched is swpctx, so the counter goes on as 100 behind it;
/// at the second swpctx, the eleventh, it is 105.
const CONTEXT_IS_SWAPPED: Run = Run {
    words: &[
        0x221F_0055,
        0x9F,
        0x221F_0030,
        0x38,
        0x221F_4047,
        0x30,
        0x6020_C000,
        0x9E,
        0x47E0_0403,
        0x47FF_0410,
        0x30,
        0x6040_C000,
    ],
    quadwords: &[
        (0x4000, 0xFFFF_FC00_0000_9000),
        (0x4008, 0x1234),
        (0x4010, 3),
        (0x4018, 0x0000_0007_0000_0064),
        (0x4020, 0x66),
        (0x4028, 3),
    ],
    steps: &[
        (0x2000, 0x221F_0055),
        (0x2004, 0x9F),
        (0x2008, 0x221F_0030),
        (0x200C, 0x38),
        (0x2010, 0x221F_4047),
        (0x2014, 0x30),
        (0x0000, 0xFFFF_FC00_0000_8000),
        (0x0008, 0x30),
        (0x0018, 6),
        (0x0020, 0x55),
        (0x4000, 0xFFFF_FC00_0000_9000),
        (0x4008, 0x1234),
        (0x4010, 3),
        (0x4018, 0x0000_0007_0000_0064),
        (0x4020, 0x66),
        (0x4028, 3),
        (0x2018, 0x6020_C000),
        (0x201C, 0x9E),
        (0x2020, 0x47E0_0403),
        (0x2024, 0x47FF_0410),
        (0x2028, 0x30),
        (0x4000, 0xFFFF_FC00_0000_9000),
        (0x4008, 0x1234),
        (0x4018, 105),
        (0x4020, 0x66),
        (0x0000, 0xFFFF_FC00_0000_8000),
        (0x0008, 0x30),
        (0x0010, 0),
        (0x0018, 6),
        (0x0020, 0x55),
        (0x0028, 0),
        (0x202C, 0x6040_C000),
    ],
    pc: 0xFFFF_FC00_0000_2030,
    halted: None,
    registers: &[
        (0, 0x4000),
        (1, 0x0000_005E_0000_0007),
        (2, 0xFFFF_FFFB_0000_000C),
        (3, 0x66),
        (30, 0xFFFF_FC00_0000_8000),
    ],
};

/// LDAH R16, 1(R31); swpctx: the new block begins at the size of memory. The old one is written.
const NEW_BLOCK_BEYOND_MEMORY: Run = Run {
    words: &[0x261F_0001, 0x30],
    quadwords: &[],
    steps: &[
        (0x2000, 0x261F_0001),
        (0x2004, 0x30),
        (0x0000, 0xFFFF_FC00_0000_8000),
        (0x0008, 0),
        (0x0018, 2),
        (0x0020, 0),
    ],
    pc: 0xFFFF_FC00_0000_2004,
    halted: Some(4),
    registers: &[(0, 0), (16, 0x1_0000), (30, 0xFFFF_FC00_0000_8000)],
};

/// LDA R10, 0x2000(R31); LDQ R2, 0(R10); LDA R16, 0x4000(R31); swpctx; LDQ R3, 0(R10); LDA R16,
/// 0x4080(R31); swpctx; LDQ R4, 0(R10): to a context of another page table and address space
/// number, and on to one of the first number. The page has no ASM. In the second context its
/// translation does not serve, and in the third it does, for it is still kept.
const TRANSLATIONS_ARE_OF_THEIR_SPACE: Run = Run {
    words: &[
        0x215F_2000,
        0xA44A_0000,
        0x221F_4000,
        0x30,
        0xA46A_0000,
        0x221F_4080,
        0x30,
        0xA48A_0000,
    ],
    quadwords: &[
        (0x4000, 0xFFFF_FC00_0000_9000),
        (0x4010, 7),
        (0x4018, 0x0000_0007_0000_0000),
        (0x4080, 0xFFFF_FC00_0000_8000),
        (0x4090, 3),
        TO_SECOND,
        (0x8000, 0x99),
        TO_THIRD,
        (0xC008, 0x0000_0004_0000_1101),
        (0xE000, 0x0000_0005_0000_0001),
    ],
    steps: &[
        (0x2000, 0x215F_2000),
        (0x2004, 0xA44A_0000),
        TO_SECOND,
        TO_THIRD,
        (0xC008, 0x0000_0004_0000_1101),
        (0x8000, 0x99),
        (0x2008, 0x221F_4000),
        (0x200C, 0x30),
        (0x0000, 0xFFFF_FC00_0000_8000),
        (0x0008, 0),
        (0x0018, 4),
        (0x0020, 0),
        (0x4000, 0xFFFF_FC00_0000_9000),
        (0x4008, 0),
        (0x4010, 7),
        (0x4018, 0x0000_0007_0000_0000),
        (0x4020, 0),
        (0x4028, 0),
        (0x2010, 0xA46A_0000),
        (0xE000, 0x0000_0005_0000_0001),
        TO_THIRD,
        (0xC008, 0x0000_0004_0000_1101),
        (0x8000, 0x99),
        (0x2014, 0x221F_4080),
        (0x2018, 0x30),
        (0x4000, 0xFFFF_FC00_0000_9000),
        (0x4008, 0),
        (0x4018, 3),
        (0x4020, 0),
        (0x4080, 0xFFFF_FC00_0000_8000),
        (0x4088, 0),
        (0x4090, 3),
        (0x4098, 0),
        (0x40A0, 0),
        (0x40A8, 0),
        (0x201C, 0xA48A_0000),
        (0x8000, 0x99),
    ],
    pc: 0xFFFF_FC00_0000_2020,
    halted: None,
    registers: &[
        (0, 0x4000),
        (2, 0x99),
        (3, 0x99),
        (4, 0x99),
        (30, 0xFFFF_FC00_0000_8000),
    ],
};

#[test]
fn returns_and_contexts_take_what_is_read(rt: HostRuntime) -> Result<(), Fail> {
    for run in [
        &RETURN_TO_KERNEL,
        &CONTEXT_IS_SWAPPED,
        &NEW_BLOCK_BEYOND_MEMORY,
        &TRANSLATIONS_ARE_OF_THEIR_SPACE,
    ] {
        assert!(rt; holds(rt.alloc(), run)?);
    }
    Ok(())
}

/// LDA R10, 0x2000(R31); JMP R31, (R10); and in the page LDQ R2, 0(R10); LDA R16, what(R31); LDA
/// R17, address(R31); tbi; LDQ R3, 0(R10). The fetch behind tbi walks again, and the load, where
/// the page is dropped from their buffers.
#[test]
fn dropped_translations_are_walked_to_again(rt: HostRuntime) -> Result<(), Fail> {
    const SHARED: u64 = 0x0000_0007_0000_1111;
    const OWN: u64 = 0x0000_0007_0000_1101;
    let (a, _) = both()?;
    for (what, address, page, fetch_walks, load_walks) in [
        // all
        (0xFFFE_u16, 0_u16, SHARED, true, true),
        // all without ASM
        (0xFFFF_u16, 0x2000_u16, SHARED, false, false),
        (0xFFFF_u16, 0_u16, OWN, true, true),
        // the page of an address in it, in one buffer and in both
        (1_u16, 0x2000_u16, SHARED, true, false),
        (2_u16, 0x3FF8_u16, SHARED, false, true),
        (3_u16, 0x2000_u16, OWN, true, true),
        // another page; nothing
        (3_u16, 0x4000_u16, SHARED, false, false),
        (0_u16, 0x2000_u16, SHARED, false, false),
        (4_u16, 0x2000_u16, OWN, false, false),
    ] {
        let first = 0x221F_0000_A44A_0000 | u64::from(what) << 32;
        let second = 0x0000_0033_223F_0000 | u64::from(address);
        let walk = [TO_SECOND, TO_THIRD, (0xC008, page)];
        let quadwords = [
            walk[0],
            walk[1],
            walk[2],
            (0xE000, first),
            (0xE008, second),
            (0xE010, 0xA46A_0000),
        ];
        let calls = [
            (0xE000, first),
            (0xE004, first >> 32),
            (0xE008, second & 0xFFFF_FFFF),
            (0xE00C, 0x33),
        ];
        let mut machine = start_over(rt.alloc(), &[0x215F_2000, 0x6BEA_0000], &quadwords)?;
        assert!(rt;
            accesses(
                &mut machine,
                a,
                &[(0x2000, 0x215F_2000), (0x2004, 0x6BEA_0000)]
            )
        );
        assert!(rt; accesses(&mut machine, a, &walk));
        assert!(rt; accesses(&mut machine, a, &[(0xE000, 0xA44A_0000)]));
        assert!(rt; accesses(&mut machine, a, &walk));
        assert!(rt; accesses(&mut machine, a, &calls));
        assert!(rt; !fetch_walks || accesses(&mut machine, a, &walk));
        assert!(rt; accesses(&mut machine, a, &[(0xE010, 0xA46A_0000)]));
        assert!(rt; !load_walks || accesses(&mut machine, a, &walk));
        assert!(rt; accesses(&mut machine, a, &[(0xE000, first)]));
        assert_eq!(rt; first_other(&machine, a, &[(2, first), (3, first)]), None);
    }
    Ok(())
}

/// Whether a processor makes so many steps.
fn makes_steps(machine: &mut Machine, cpu: Cpu, steps: u32) -> bool {
    for _ in 0..steps {
        if next_access(machine, cpu).is_none() {
            return false;
        }
    }
    true
}

/// Calls that make no access, by processor 1: what was written is read, the interrupt level is
/// taken modulo 8, and the last one, bugchk, shows the level and the kernel's global pointer.
#[test]
fn short_calls_write_and_read(rt: HostRuntime) -> Result<(), Fail> {
    let (_, b) = both()?;
    let words = [
        0x221F_0011, // LDA R16, 0x11(R31)
        0x31, // wrval
        0x38, // wrusp
        0x9F, // wrunique
        0x221F_000B, // LDA R16, 0xB(R31)
        0x32, // rdval
        0x47E0_0401, // BIS R31, R0, R1
        0x3A, // rdusp
        0x47E0_0402, // BIS R31, R0, R2
        0x9E, // rdunique
        0x47E0_0403, // BIS R31, R0, R3
        0x3C, // whami
        0x47E0_0404, // BIS R31, R0, R4
        0x35, // swpipl
        0x47E0_0405, // BIS R31, R0, R5
        0x36, // rdps
        0x02, // draina
        0x2B, // wrfen
        0x2D, // wrvptptr
        0x37, // wrkgp
        0x81, // bugchk
    ];
    let frame = [
        (0x7FD0, 3),
        (0x7FD8, KERNEL + 0x2054),
        (0x7FE0, 0),
        (0x7FE8, 0xB),
        (0x7FF0, 0),
        (0x7FF8, 0),
    ];
    let registers = [
        (0, 3),
        (1, 0x11),
        (2, 0x11),
        (3, 0x11),
        (4, 1),
        (5, 7),
        (16, 1),
        (29, 0xB),
    ];
    let mut machine = start_over(rt.alloc(), &words, &[])?;
    assert!(rt; makes_steps(&mut machine, b, 21));
    assert!(rt; accesses(&mut machine, b, &frame));
    assert!(rt; stands(&machine, b, 27, 0, None));
    assert_eq!(rt; first_other(&machine, b, &registers), None);
    Ok(())
}
