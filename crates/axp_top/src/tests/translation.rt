//! Accesses by virtual addresses: walks through the page tables, and translations that are kept.
use super::worked::{Layout, PLAIN, Worked, holds};
use crate::Status;
use std::test::Fail;

/// JMP R31, (R31): the processor goes on at the virtual address 0.
const JUMP_TO_ZERO: [u32; 1] = [0x6BFF_0000];

/// The jump is done.
const JUMPED: &str = "0 fill : i 00002000 @0\n\
    0 step : i 00002000 6BFF0000 @0\n";

/// The page-table entry of level 1 is wanted, and is not held.
const ENTRY_IS_WANTED: Worked = Worked {
    words: &JUMP_TO_ZERO,
    layout: &PLAIN,
    budget: "20",
    start: JUMPED,
    rest: "axp: not legal at event 3\n",
    more: "0 step\n",
    status: Status::NotLegal { event: 3 },
};

/// Its line is filled into the data bank. The entry is not valid: the frame is saved, with the
/// virtual address 0 as the program counter. Of the entry that is raised no address is set, so the
/// processor comes to the virtual address 0 again.
const ENTRY_IS_HELD: Worked = Worked {
    words: &JUMP_TO_ZERO,
    layout: &PLAIN,
    budget: "20",
    start: JUMPED,
    rest: "0 fill : d0 00000000 @0\n\
        0 step : r 00000000 8 0000000000000000 @0\n\
        0 step : w 00003FD0 8 0000000000000007 e1\n\
        0 step : w 00003FD8 8 0000000000000000 e1\n\
        0 step : w 00003FE0 8 0000000000000000 e1\n\
        0 step : w 00003FE8 8 0000000000000000 e1\n\
        0 step : w 00003FF0 8 0000000000000000 e1\n\
        0 step : w 00003FF8 8 0000000000000000 e1\n\
        0 step : r 00000000 8 0000000000000000 @0\n\
        axp: incomplete after event 11\n",
    more: "",
    status: Status::Incomplete { event: 11 },
};

/// Page tables that lead the virtual page at 0x2000 to the frame at 0xE000: those of level 1 at
/// 0x6000, of level 2 at 0xA000, of level 3 at 0xC000. Levels 1 and 2 have V alone, and level 3
/// has V, ASM, KRE and KWE.
const PAGED: Layout = Layout {
    size: 0x1_0000,
    printed_size: "65536",
    stack: 0x8000,
    table: 3,
    quadwords: &[
        (0x6000, 0x0000_0005_0000_0001),
        (0xA000, 0x0000_0006_0000_0001),
        (0xC008, 0x0000_0007_0000_1111),
    ],
};

/// LDA R10, 0x2000(R31); LDQ R2, 0(R10). The other programs begin likewise, with another access at
/// the address in R10.
const LOAD: &[u32] = &[0x215F_2000, 0xA44A_0000];

/// Both words are fetched.
const LOAD_FETCHED: &str = "0 fill : i 00002000 @0\n\
    0 step : i 00002000 215F2000 @0\n\
    0 step : i 00002004 A44A0000 @0\n";

/// STQ R10, 0(R10).
const STORE: &[u32] = &[0x215F_2000, 0xB54A_0000];

const STORE_FETCHED: &str = "0 fill : i 00002000 @0\n\
    0 step : i 00002000 215F2000 @0\n\
    0 step : i 00002004 B54A0000 @0\n";

/// LDQ_L R2, 0(R10), and behind it STQ_C R2, 0(R10).
const LOCKED: &[u32] = &[0x215F_2000, 0xAC4A_0000, 0xBC4A_0000];

const LOCKED_FETCHED: &str = "0 fill : i 00002000 @0\n\
    0 step : i 00002000 215F2000 @0\n\
    0 step : i 00002004 AC4A0000 @0\n";

/// STQ_C R2, 0(R10).
const CONDITIONAL: &[u32] = &[0x215F_2000, 0xBC4A_0000];

const CONDITIONAL_FETCHED: &str = "0 fill : i 00002000 @0\n\
    0 step : i 00002000 215F2000 @0\n\
    0 step : i 00002004 BC4A0000 @0\n";

/// JMP R31, (R10).
const JUMP: &[u32] = &[0x215F_2000, 0x6BEA_0000];

const JUMP_FETCHED: &str = "0 fill : i 00002000 @0\n\
    0 step : i 00002000 215F2000 @0\n\
    0 step : i 00002004 6BEA0000 @0\n";

/// Two loads of a page: LDQ R2, 0(R10); LDQ R3, 8(R10); halt. The second one makes no walk.
const PAGE_IS_KEPT: Worked = Worked {
    words: &[0x215F_2000, 0xA44A_0000, 0xA46A_0008, 0],
    layout: &PAGED,
    budget: "20",
    start: LOAD_FETCHED,
    rest: "0 fill : d0 00006000 @0\n\
        0 step : r 00006000 8 0000000500000001 @0\n\
        0 fill : d0 0000A000 @0\n\
        0 step : r 0000A000 8 0000000600000001 @0\n\
        0 fill : d0 0000C000 @0\n\
        0 step : r 0000C008 8 0000000700001111 @0\n\
        0 fill : d0 0000E000 @0\n\
        0 step : r 0000E000 8 0000000000000000 @0\n\
        0 step : i 00002008 A46A0008 @0\n\
        0 step : r 0000E008 8 0000000000000000 @0\n\
        axp: incomplete after event 13\n",
    more: "",
    status: Status::Incomplete { event: 13 },
};

/// Loads of two pages, the second one at 0x4000, which the tables lead to the frame at 0x8000:
/// LDQ R2, 0(R10); LDQ R3, 0x2000(R10). Each load makes a walk.
const ANOTHER_PAGE: Worked = Worked {
    words: &[0x215F_2000, 0xA44A_0000, 0xA46A_2000],
    layout: &Layout {
        quadwords: &[
            (0x6000, 0x0000_0005_0000_0001),
            (0x8000, 0x1122_3344_5566_7788),
            (0xA000, 0x0000_0006_0000_0001),
            (0xC008, 0x0000_0007_0000_1111),
            (0xC010, 0x0000_0004_0000_1111),
        ],
        ..PAGED
    },
    budget: "20",
    start: LOAD_FETCHED,
    rest: "0 fill : d0 00006000 @0\n\
        0 step : r 00006000 8 0000000500000001 @0\n\
        0 fill : d0 0000A000 @0\n\
        0 step : r 0000A000 8 0000000600000001 @0\n\
        0 fill : d0 0000C000 @0\n\
        0 step : r 0000C008 8 0000000700001111 @0\n\
        0 fill : d0 0000E000 @0\n\
        0 step : r 0000E000 8 0000000000000000 @0\n\
        0 step : i 00002008 A46A2000 @0\n\
        0 step : r 00006000 8 0000000500000001 @0\n\
        0 step : r 0000A000 8 0000000600000001 @0\n\
        0 step : r 0000C010 8 0000000400001111 @0\n\
        0 fill : d0 00008000 @0\n\
        0 step : r 00008000 8 1122334455667788 @0\n\
        axp: incomplete after event 17\n",
    more: "",
    status: Status::Incomplete { event: 17 },
};

/// A load needs KRE, and FOR to be 0; KWE, FOW and FOE do not matter. Of levels 1 and 2 V alone
/// matters.
const LOAD_IS_ALLOWED: Worked = Worked {
    words: LOAD,
    layout: &Layout {
        quadwords: &[
            (0x6000, 0x0000_0005_0000_000F),
            (0xA000, 0x0000_0006_0000_001F),
            (0xC008, 0x0000_0007_0000_010D),
        ],
        ..PAGED
    },
    budget: "20",
    start: LOAD_FETCHED,
    rest: "0 fill : d0 00006000 @0\n\
        0 step : r 00006000 8 000000050000000F @0\n\
        0 fill : d0 0000A000 @0\n\
        0 step : r 0000A000 8 000000060000001F @0\n\
        0 fill : d0 0000C000 @0\n\
        0 step : r 0000C008 8 000000070000010D @0\n\
        0 fill : d0 0000E000 @0\n\
        0 step : r 0000E000 8 0000000000000000 @0\n\
        axp: incomplete after event 11\n",
    more: "",
    status: Status::Incomplete { event: 11 },
};

/// A store needs KWE, and FOW to be 0; KRE, FOR and FOE do not matter. It goes into the buffer by
/// its physical line.
const STORE_IS_ALLOWED: Worked = Worked {
    words: STORE,
    layout: &Layout {
        quadwords: &[
            (0x6000, 0x0000_0005_0000_0001),
            (0xA000, 0x0000_0006_0000_0001),
            (0xC008, 0x0000_0007_0000_100B),
        ],
        ..PAGED
    },
    budget: "20",
    start: STORE_FETCHED,
    rest: "0 fill : d0 00006000 @0\n\
        0 step : r 00006000 8 0000000500000001 @0\n\
        0 fill : d0 0000A000 @0\n\
        0 step : r 0000A000 8 0000000600000001 @0\n\
        0 fill : d0 0000C000 @0\n\
        0 step : r 0000C008 8 000000070000100B @0\n\
        0 step : w 0000E000 8 0000000000002000 e1\n\
        0 drain 0 : e1 0000E000 @1\n\
        axp: incomplete after event 11\n",
    more: "",
    status: Status::Incomplete { event: 11 },
};

/// Processor 0 goes on in the page, and halts there: BLBS R16, to the fourth word; LDA R10,
/// 0x2000(R31); JMP R31, (R10); halt; and in the page LDA R10, 7(R31); halt. A fetch needs KRE,
/// and FOE to be 0; KWE, FOR and FOW do not matter. The second fetch there makes no walk.
const FETCH_IS_ALLOWED: Worked = Worked {
    words: &[0xF200_0002, 0x215F_2000, 0x6BEA_0000, 0],
    layout: &Layout {
        quadwords: &[
            (0x6000, 0x0000_0005_0000_0001),
            (0xA000, 0x0000_0006_0000_0001),
            (0xC008, 0x0000_0007_0000_0107),
            (0xE000, 0x0000_0000_215F_0007),
        ],
        ..PAGED
    },
    budget: "20",
    start: "0 fill : i 00002000 @0\n\
        0 step : i 00002000 F2000002 @0\n\
        0 step : i 00002004 215F2000 @0\n\
        0 step : i 00002008 6BEA0000 @0\n",
    rest: "0 fill : d0 00006000 @0\n\
        0 step : r 00006000 8 0000000500000001 @0\n\
        0 fill : d0 0000A000 @0\n\
        0 step : r 0000A000 8 0000000600000001 @0\n\
        0 fill : d0 0000C000 @0\n\
        0 step : r 0000C008 8 0000000700000107 @0\n\
        0 fill : i 0000E000 @0\n\
        0 step : i 0000E000 215F0007 @0\n\
        0 step : i 0000E004 00000000 @0\n\
        1 fill : i 00002000 @0\n\
        1 step : i 00002000 F2000002 @0\n\
        1 step : i 0000200C 00000000 @0\n\
        cpu 0 halt 1 steps 8 pc 0000000000002008\n\
        reg 0 10 0000000000000007\n\
        reg 0 30 FFFFFC0000008000\n\
        cpu 1 halt 1 steps 2 pc FFFFFC0000002010\n\
        reg 1 16 0000000000000001\n\
        reg 1 30 FFFFFC0000008000\n\
        console -\n\
        end 16\n",
    more: "",
    status: Status::Done,
};

/// A load-locked and a store-conditional of a page with KRE and KWE. They share a kept translation.
const CONDITIONAL_STORES: Worked = Worked {
    words: LOCKED,
    layout: &Layout {
        quadwords: &[
            (0x6000, 0x0000_0005_0000_0001),
            (0xA000, 0x0000_0006_0000_0001),
            (0xC008, 0x0000_0007_0000_1101),
            (0xE000, 0x1122_3344_5566_7788),
        ],
        ..PAGED
    },
    budget: "20",
    start: LOCKED_FETCHED,
    rest: "0 fill : d0 00006000 @0\n\
        0 step : r 00006000 8 0000000500000001 @0\n\
        0 fill : d0 0000A000 @0\n\
        0 step : r 0000A000 8 0000000600000001 @0\n\
        0 fill : d0 0000C000 @0\n\
        0 step : r 0000C008 8 0000000700001101 @0\n\
        0 step : l 0000E000 8 1122334455667788 @0\n\
        0 step : i 00002008 BC4A0000 @0\n\
        0 step : c 0000E000 8 1122334455667788 yes @1\n\
        axp: incomplete after event 12\n",
    more: "",
    status: Status::Incomplete { event: 12 },
};

/// With KRE alone the load-locked is made, and the store-conditional has a fault with its fetch: its
/// translation is kept, and has no right to it. The frame saves the address of the instruction.
const CONDITIONAL_HAS_A_FAULT: Worked = Worked {
    words: LOCKED,
    layout: &Layout {
        quadwords: &[
            (0x6000, 0x0000_0005_0000_0001),
            (0xA000, 0x0000_0006_0000_0001),
            (0xC008, 0x0000_0007_0000_0101),
        ],
        ..PAGED
    },
    budget: "20",
    start: LOCKED_FETCHED,
    rest: "0 fill : d0 00006000 @0\n\
        0 step : r 00006000 8 0000000500000001 @0\n\
        0 fill : d0 0000A000 @0\n\
        0 step : r 0000A000 8 0000000600000001 @0\n\
        0 fill : d0 0000C000 @0\n\
        0 step : r 0000C008 8 0000000700000101 @0\n\
        0 step : l 0000E000 8 0000000000000000 @0\n\
        0 step : i 00002008 BC4A0000 @0\n\
        0 step : w 00007FD0 8 0000000000000007 e1\n\
        0 step : w 00007FD8 8 FFFFFC0000002008 e1\n\
        axp: incomplete after event 13\n",
    more: "",
    status: Status::Incomplete { event: 13 },
};

/// With KWE alone a store-conditional is made; it fails, since nothing is locked.
const CONDITIONAL_IS_ALLOWED: Worked = Worked {
    words: CONDITIONAL,
    layout: &Layout {
        quadwords: &[
            (0x6000, 0x0000_0005_0000_0001),
            (0xA000, 0x0000_0006_0000_0001),
            (0xC008, 0x0000_0007_0000_1001),
        ],
        ..PAGED
    },
    budget: "20",
    start: CONDITIONAL_FETCHED,
    rest: "0 fill : d0 00006000 @0\n\
        0 step : r 00006000 8 0000000500000001 @0\n\
        0 fill : d0 0000A000 @0\n\
        0 step : r 0000A000 8 0000000600000001 @0\n\
        0 fill : d0 0000C000 @0\n\
        0 step : r 0000C008 8 0000000700001001 @0\n\
        0 step : c 0000E000 8 0000000000000000 no @0\n\
        axp: incomplete after event 10\n",
    more: "",
    status: Status::Incomplete { event: 10 },
};

/// In the page stands LDQ R2, 0(R10): a load of the page that the processor runs in makes a walk of
/// its own, for it has a buffer of its own.
const LOAD_AFTER_FETCH: Worked = Worked {
    words: JUMP,
    layout: &Layout {
        quadwords: &[
            (0x6000, 0x0000_0005_0000_0001),
            (0xA000, 0x0000_0006_0000_0001),
            (0xC008, 0x0000_0007_0000_1111),
            (0xE000, 0x0000_0000_A44A_0000),
        ],
        ..PAGED
    },
    budget: "20",
    start: JUMP_FETCHED,
    rest: "0 fill : d0 00006000 @0\n\
        0 step : r 00006000 8 0000000500000001 @0\n\
        0 fill : d0 0000A000 @0\n\
        0 step : r 0000A000 8 0000000600000001 @0\n\
        0 fill : d0 0000C000 @0\n\
        0 step : r 0000C008 8 0000000700001111 @0\n\
        0 fill : i 0000E000 @0\n\
        0 step : i 0000E000 A44A0000 @0\n\
        0 step : r 00006000 8 0000000500000001 @0\n\
        0 step : r 0000A000 8 0000000600000001 @0\n\
        0 step : r 0000C008 8 0000000700001111 @0\n\
        0 fill : d0 0000E000 @0\n\
        0 step : r 0000E000 8 00000000A44A0000 @0\n\
        axp: incomplete after event 16\n",
    more: "",
    status: Status::Incomplete { event: 16 },
};

/// LDQ R2, 0(R10); JMP R31, (R10): a fetch of the page that was loaded from makes a walk too.
const FETCH_AFTER_LOAD: Worked = Worked {
    words: &[0x215F_2000, 0xA44A_0000, 0x6BEA_0000],
    layout: &PAGED,
    budget: "20",
    start: LOAD_FETCHED,
    rest: "0 fill : d0 00006000 @0\n\
        0 step : r 00006000 8 0000000500000001 @0\n\
        0 fill : d0 0000A000 @0\n\
        0 step : r 0000A000 8 0000000600000001 @0\n\
        0 fill : d0 0000C000 @0\n\
        0 step : r 0000C008 8 0000000700001111 @0\n\
        0 fill : d0 0000E000 @0\n\
        0 step : r 0000E000 8 0000000000000000 @0\n\
        0 step : i 00002008 6BEA0000 @0\n\
        0 step : r 00006000 8 0000000500000001 @0\n\
        0 step : r 0000A000 8 0000000600000001 @0\n\
        0 step : r 0000C008 8 0000000700001111 @0\n\
        0 fill : i 0000E000 @0\n\
        0 step : i 0000E000 00000000 @0\n\
        axp: incomplete after event 17\n",
    more: "",
    status: Status::Incomplete { event: 17 },
};

#[test]
fn page_table_entries_are_read(rt: HostRuntime) -> Result<(), Fail> {
    for worked in [&ENTRY_IS_WANTED, &ENTRY_IS_HELD] {
        assert!(rt; holds(rt.alloc(), worked)?);
    }
    Ok(())
}

#[test]
fn kept_translations_make_no_walk(rt: HostRuntime) -> Result<(), Fail> {
    for worked in [&PAGE_IS_KEPT, &ANOTHER_PAGE] {
        assert!(rt; holds(rt.alloc(), worked)?);
    }
    Ok(())
}

#[test]
fn accesses_need_their_own_rights_alone(rt: HostRuntime) -> Result<(), Fail> {
    for worked in [
        &LOAD_IS_ALLOWED,
        &STORE_IS_ALLOWED,
        &FETCH_IS_ALLOWED,
        &CONDITIONAL_STORES,
        &CONDITIONAL_HAS_A_FAULT,
        &CONDITIONAL_IS_ALLOWED,
    ] {
        assert!(rt; holds(rt.alloc(), worked)?);
    }
    Ok(())
}

#[test]
fn fetches_have_a_buffer_of_their_own(rt: HostRuntime) -> Result<(), Fail> {
    for worked in [&LOAD_AFTER_FETCH, &FETCH_AFTER_LOAD] {
        assert!(rt; holds(rt.alloc(), worked)?);
    }
    Ok(())
}
