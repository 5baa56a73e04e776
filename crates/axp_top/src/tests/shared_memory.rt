//! Stores that wait, copies that are stale, and the barriers.
use super::worked::{Layout, PLAIN, Worked, holds};
use crate::Status;
use std::test::Fail;

/// As `PLAIN`, with the pointer of the dependent load at the stack's address: at first it leads two
/// lines behind it.
const POINTING: Layout = Layout {
    quadwords: &[(0x4000, 0xFFFF_FC00_0000_4080)],
    ..PLAIN
};

/// Each processor stores to its own line and loads the other's: LDA R1, 1(R31); BNE R16, to the
/// fifth word; STQ R1, 0(R30); LDQ R2, 64(R30); halt; STQ R1, 64(R30); LDQ R2, 0(R30); halt.
const STORE_BUFFERING: [u32; 8] = [
    0x203F_0001,
    0xF200_0003,
    0xB43E_0000,
    0xA45E_0040,
    0x0000_0000,
    0xB43E_0040,
    0xA45E_0000,
    0x0000_0000,
];

/// Processor 0 stores a value, and behind a barrier the pointer to it; processor 1 loads what the
/// pointer points to: BNE R16, to the seventh word; LDA R1, 1(R31); STQ R1, 64(R30); MB; LDA R2,
/// 64(R30); STQ R2, 0(R30); halt; LDQ R3, 64(R30); LDQ R4, 0(R30); LDQ R5, 0(R4); halt.
const DEPENDENT_LOAD: [u32; 11] = [
    0xF200_0006,
    0x203F_0001,
    0xB43E_0040,
    0x6000_4000,
    0x205E_0040,
    0xB45E_0000,
    0x0000_0000,
    0xA47E_0040,
    0xA49E_0000,
    0xA4A4_0000,
    0x0000_0000,
];

/// As `DEPENDENT_LOAD`, with a barrier between the reader's two dependent loads.
const DEPENDENT_LOAD_BARRIER: [u32; 12] = [
    0xF200_0006,
    0x203F_0001,
    0xB43E_0040,
    0x6000_4000,
    0x205E_0040,
    0xB45E_0000,
    0x0000_0000,
    0xA47E_0040,
    0xA49E_0000,
    0x6000_4000,
    0xA4A4_0000,
    0x0000_0000,
];

/// Two processors store one byte each of a quadword that processor 0 has read: BNE R16, to the
/// seventh word; LDQ R2, 0(R30); LDA R1, 0x11(R31); STB R1, 0(R30); LDQ R3, 0(R30); LDQ R4,
/// 0(R30); halt; LDA R1, 0x22(R31); STB R1, 1(R30); halt.
const MIXED_SOURCES: [u32; 10] = [
    0xF200_0006,
    0xA45E_0000,
    0x203F_0011,
    0x383E_0000,
    0xA47E_0000,
    0xA49E_0000,
    0x0000_0000,
    0x203F_0022,
    0x383E_0001,
    0x0000_0000,
];

/// Processor 0 stores to two lines, and to the first again; processor 1 loads both: BNE R16, to
/// the seventh word; LDA R1, 1(R31); LDA R2, 2(R31); STQ R1, 0(R30); STQ R1, 64(R30); STQ R2,
/// 0(R30); halt; LDQ R3, 0(R30); LDQ R4, 64(R30); halt.
const MERGING: [u32; 10] = [
    0xF200_0006,
    0x203F_0001,
    0x205F_0002,
    0xB43E_0000,
    0xB43E_0040,
    0xB45E_0000,
    0x0000_0000,
    0xA47E_0000,
    0xA49E_0040,
    0x0000_0000,
];

/// As `MERGING`, with a write barrier behind the first store.
const WRITE_BARRIER: [u32; 11] = [
    0xF200_0007,
    0x203F_0001,
    0x205F_0002,
    0xB43E_0000,
    0x6000_4400,
    0xB43E_0040,
    0xB45E_0000,
    0x0000_0000,
    0xA47E_0000,
    0xA49E_0040,
    0x0000_0000,
];

/// A processor stores over its own code, two words behind a barrier: LDAH R1, 0x203F(R31); LDA R1,
/// 2(R1), which is the word of LDA R1, 2(R31); STL R1, -8176(R30); MB; LDA R1, 1(R31); halt.
const CODE_AFTER_MB: [u32; 6] = [
    0x243F_203F,
    0x2021_0002,
    0xB03E_E010,
    0x6000_4000,
    0x203F_0001,
    0x0000_0000,
];

/// As `CODE_AFTER_MB`, with an instruction memory barrier in its place.
const CODE_AFTER_IMB: [u32; 6] = [
    0x243F_203F,
    0x2021_0002,
    0xB03E_E010,
    0x0000_0086,
    0x203F_0001,
    0x0000_0000,
];

/// Stores to nine lines: STQ R31, 64n(R30).
const FULL_BUFFER: [u32; 9] = [
    0xB7FE_0000,
    0xB7FE_0040,
    0xB7FE_0080,
    0xB7FE_00C0,
    0xB7FE_0100,
    0xB7FE_0140,
    0xB7FE_0180,
    0xB7FE_01C0,
    0xB7FE_0200,
];

/// Processor 1 holds the old value; processor 0 stores both, and processor 1 reads the new pointer.
const POINTER_READ: &str = "1 fill : i 00002000 @0\n\
    1 step : i 00002000 F2000006 @0\n\
    1 step : i 0000201C A47E0040 @0\n\
    1 fill : d1 00004040 @0\n\
    1 step : r 00004040 8 0000000000000000 @0\n\
    0 fill : i 00002000 @0\n\
    0 step : i 00002000 F2000006 @0\n\
    0 step : i 00002004 203F0001 @0\n\
    0 step : i 00002008 B43E0040 @0\n\
    0 step : w 00004040 8 0000000000000001 e1\n\
    0 step : i 0000200C 60004000 @0\n\
    0 drain 0 : e1 00004040 @1\n\
    0 step : m @1\n\
    0 step : i 00002010 205E0040 @0\n\
    0 step : i 00002014 B45E0000 @0\n\
    0 step : w 00004000 8 FFFFFC0000004040 e2\n\
    0 drain 0 : e2 00004000 @2\n\
    1 step : i 00002020 A49E0000 @0\n\
    1 fill : d0 00004000 @2\n\
    1 step : r 00004000 8 FFFFFC0000004040 @2\n";

/// Eight lines wait, and the store to the ninth is fetched.
const EIGHT_LINES: &str = "0 fill : i 00002000 @0\n\
    0 step : i 00002000 B7FE0000 @0\n\
    0 step : w 00004000 8 0000000000000000 e1\n\
    0 step : i 00002004 B7FE0040 @0\n\
    0 step : w 00004040 8 0000000000000000 e2\n\
    0 step : i 00002008 B7FE0080 @0\n\
    0 step : w 00004080 8 0000000000000000 e3\n\
    0 step : i 0000200C B7FE00C0 @0\n\
    0 step : w 000040C0 8 0000000000000000 e4\n\
    0 step : i 00002010 B7FE0100 @0\n\
    0 step : w 00004100 8 0000000000000000 e5\n\
    0 step : i 00002014 B7FE0140 @0\n\
    0 step : w 00004140 8 0000000000000000 e6\n\
    0 step : i 00002018 B7FE0180 @0\n\
    0 step : w 00004180 8 0000000000000000 e7\n\
    0 step : i 0000201C B7FE01C0 @0\n\
    0 step : w 000041C0 8 0000000000000000 e8\n\
    0 step : i 00002020 B7FE0200 @0\n";

/// The three stores wait, the first in a group of its own.
const THREE_STORES: &str = "0 fill : i 00002000 @0\n\
    0 step : i 00002000 F2000007 @0\n\
    0 step : i 00002004 203F0001 @0\n\
    0 step : i 00002008 205F0002 @0\n\
    0 step : i 0000200C B43E0000 @0\n\
    0 step : w 00004000 8 0000000000000001 e1\n\
    0 step : i 00002010 60004400 @0\n\
    0 step : s\n\
    0 step : i 00002014 B43E0040 @0\n\
    0 step : w 00004040 8 0000000000000001 e2\n\
    0 step : i 00002018 B45E0000 @0\n\
    0 step : w 00004000 8 0000000000000002 e3\n";

/// The store over the code waits.
const STORED_CODE: &str = "0 fill : i 00002000 @0\n\
    0 step : i 00002000 243F203F @0\n\
    0 step : i 00002004 20210002 @0\n\
    0 step : i 00002008 B03EE010 @0\n\
    0 step : w 00002010 4 203F0002 e1\n";

/// Both processors read the old value: each store still waits in its own buffer.
pub(super) const BOTH_WAIT: Worked = Worked {
    words: &STORE_BUFFERING,
    layout: &PLAIN,
    budget: "20",
    start: "",
    rest: "0 fill : i 00002000 @0\n\
        0 step : i 00002000 203F0001 @0\n\
        0 step : i 00002004 F2000003 @0\n\
        0 step : i 00002008 B43E0000 @0\n\
        0 step : w 00004000 8 0000000000000001 e1\n\
        1 fill : i 00002000 @0\n\
        1 step : i 00002000 203F0001 @0\n\
        1 step : i 00002004 F2000003 @0\n\
        1 step : i 00002014 B43E0040 @0\n\
        1 step : w 00004040 8 0000000000000001 e1\n\
        0 step : i 0000200C A45E0040 @0\n\
        0 fill : d1 00004040 @0\n\
        0 step : r 00004040 8 0000000000000000 @0\n\
        1 step : i 00002018 A45E0000 @0\n\
        1 fill : d0 00004000 @0\n\
        1 step : r 00004000 8 0000000000000000 @0\n\
        0 step : i 00002010 00000000 @0\n\
        1 step : i 0000201C 00000000 @0\n\
        0 drain 0 : e1 00004000 @1\n\
        1 drain 0 : e1 00004040 @2\n\
        cpu 0 halt 1 steps 7 pc FFFFFC0000002014\n\
        reg 0 1 0000000000000001\n\
        reg 0 30 FFFFFC0000004000\n\
        cpu 1 halt 1 steps 7 pc FFFFFC0000002020\n\
        reg 1 1 0000000000000001\n\
        reg 1 16 0000000000000001\n\
        reg 1 30 FFFFFC0000004000\n\
        mem 00004000 0000000000000001\n\
        mem 00004040 0000000000000001\n\
        console -\n\
        end 20\n",
    more: "",
    status: Status::Done,
};

/// The new pointer and the old value: what is late for the line of the value was not taken.
pub(super) const VALUE_IS_LATE: Worked = Worked {
    words: &DEPENDENT_LOAD,
    layout: &POINTING,
    budget: "20",
    start: POINTER_READ,
    rest: "1 step : i 00002024 A4A40000 @0\n\
        1 step : r 00004040 8 0000000000000000 @0\n\
        1 step : i 00002028 00000000 @0\n\
        0 step : i 00002018 00000000 @0\n\
        cpu 0 halt 1 steps 10 pc FFFFFC000000201C\n\
        reg 0 1 0000000000000001\n\
        reg 0 2 FFFFFC0000004040\n\
        reg 0 30 FFFFFC0000004000\n\
        cpu 1 halt 1 steps 8 pc FFFFFC000000202C\n\
        reg 1 4 FFFFFC0000004040\n\
        reg 1 16 0000000000000001\n\
        reg 1 30 FFFFFC0000004000\n\
        mem 00004000 FFFFFC0000004040\n\
        mem 00004040 0000000000000001\n\
        console -\n\
        end 24\n",
    more: "",
    status: Status::Done,
};

/// The late invalidation is taken before the last read, so the line is filled anew.
pub(super) const VALUE_IS_TAKEN: Worked = Worked {
    words: &DEPENDENT_LOAD,
    layout: &POINTING,
    budget: "20",
    start: POINTER_READ,
    rest: "1 step : i 00002024 A4A40000 @0\n\
        1 take 1 : 00004040 @1 gone\n\
        1 fill : d1 00004040 @2\n\
        1 step : r 00004040 8 0000000000000001 @2\n\
        1 step : i 00002028 00000000 @0\n\
        0 step : i 00002018 00000000 @0\n\
        cpu 0 halt 1 steps 10 pc FFFFFC000000201C\n\
        reg 0 1 0000000000000001\n\
        reg 0 2 FFFFFC0000004040\n\
        reg 0 30 FFFFFC0000004000\n\
        cpu 1 halt 1 steps 8 pc FFFFFC000000202C\n\
        reg 1 4 FFFFFC0000004040\n\
        reg 1 5 0000000000000001\n\
        reg 1 16 0000000000000001\n\
        reg 1 30 FFFFFC0000004000\n\
        mem 00004000 FFFFFC0000004040\n\
        mem 00004040 0000000000000001\n\
        console -\n\
        end 26\n",
    more: "",
    status: Status::Done,
};

/// Once its copy is gone the read has nothing to read from.
const NOTHING_IS_HELD: Worked = Worked {
    words: &DEPENDENT_LOAD,
    layout: &POINTING,
    budget: "20",
    start: POINTER_READ,
    rest: "1 step : i 00002024 A4A40000 @0\n\
        1 take 1 : 00004040 @1 gone\n\
        axp: not legal at event 23\n",
    more: "1 step\n",
    status: Status::NotLegal { event: 23 },
};

/// A barrier of the reader delivers what is late.
pub(super) const BARRIER_DELIVERS: Worked = Worked {
    words: &DEPENDENT_LOAD_BARRIER,
    layout: &POINTING,
    budget: "20",
    start: POINTER_READ,
    rest: "1 step : i 00002024 60004000 @0\n\
        1 step : m @2\n\
        1 step : i 00002028 A4A40000 @0\n\
        1 fill : d1 00004040 @2\n\
        1 step : r 00004040 8 0000000000000001 @2\n\
        1 step : i 0000202C 00000000 @0\n\
        0 step : i 00002018 00000000 @0\n\
        cpu 0 halt 1 steps 10 pc FFFFFC000000201C\n\
        reg 0 1 0000000000000001\n\
        reg 0 2 FFFFFC0000004040\n\
        reg 0 30 FFFFFC0000004000\n\
        cpu 1 halt 1 steps 10 pc FFFFFC0000002030\n\
        reg 1 4 FFFFFC0000004040\n\
        reg 1 5 0000000000000001\n\
        reg 1 16 0000000000000001\n\
        reg 1 30 FFFFFC0000004000\n\
        mem 00004000 FFFFFC0000004040\n\
        mem 00004040 0000000000000001\n\
        console -\n\
        end 27\n",
    more: "",
    status: Status::Done,
};

/// A read finds its own store over the old copy; after its drain the other byte is new too.
pub(super) const BYTES_ARE_MIXED: Worked = Worked {
    words: &MIXED_SOURCES,
    layout: &PLAIN,
    budget: "20",
    start: "",
    rest: "0 fill : i 00002000 @0\n\
        0 step : i 00002000 F2000006 @0\n\
        0 step : i 00002004 A45E0000 @0\n\
        0 fill : d0 00004000 @0\n\
        0 step : r 00004000 8 0000000000000000 @0\n\
        1 fill : i 00002000 @0\n\
        1 step : i 00002000 F2000006 @0\n\
        1 step : i 0000201C 203F0022 @0\n\
        1 step : i 00002020 383E0001 @0\n\
        1 step : w 00004001 1 22 e1\n\
        1 drain 0 : e1 00004000 @1\n\
        0 step : i 00002008 203F0011 @0\n\
        0 step : i 0000200C 383E0000 @0\n\
        0 step : w 00004000 1 11 e1\n\
        0 step : i 00002010 A47E0000 @0\n\
        0 step : r 00004000 8 0000000000000011 @0\n\
        0 drain 0 : e1 00004000 @2\n\
        0 step : i 00002014 A49E0000 @0\n\
        0 step : r 00004000 8 0000000000002211 @2\n\
        0 step : i 00002018 00000000 @0\n\
        1 step : i 00002024 00000000 @0\n\
        cpu 0 halt 1 steps 11 pc FFFFFC000000201C\n\
        reg 0 1 0000000000000011\n\
        reg 0 3 0000000000000011\n\
        reg 0 4 0000000000002211\n\
        reg 0 30 FFFFFC0000004000\n\
        cpu 1 halt 1 steps 5 pc FFFFFC0000002028\n\
        reg 1 1 0000000000000022\n\
        reg 1 16 0000000000000001\n\
        reg 1 30 FFFFFC0000004000\n\
        mem 00004000 0000000000002211\n\
        console -\n\
        end 21\n",
    more: "",
    status: Status::Done,
};

/// The second store to a line is merged into its entry.
pub(super) const STORES_ARE_MERGED: Worked = Worked {
    words: &MERGING,
    layout: &PLAIN,
    budget: "20",
    start: "",
    rest: "0 fill : i 00002000 @0\n\
        0 step : i 00002000 F2000006 @0\n\
        0 step : i 00002004 203F0001 @0\n\
        0 step : i 00002008 205F0002 @0\n\
        0 step : i 0000200C B43E0000 @0\n\
        0 step : w 00004000 8 0000000000000001 e1\n\
        0 step : i 00002010 B43E0040 @0\n\
        0 step : w 00004040 8 0000000000000001 e2\n\
        0 step : i 00002014 B45E0000 @0\n\
        0 step : w 00004000 8 0000000000000002 e1\n\
        0 drain 0 : e1 00004000 @1\n\
        1 fill : i 00002000 @1\n\
        1 step : i 00002000 F2000006 @1\n\
        1 step : i 0000201C A47E0000 @1\n\
        1 fill : d0 00004000 @1\n\
        1 step : r 00004000 8 0000000000000002 @1\n\
        1 step : i 00002020 A49E0040 @1\n\
        1 fill : d1 00004040 @1\n\
        1 step : r 00004040 8 0000000000000000 @1\n\
        0 drain 0 : e2 00004040 @2\n\
        0 step : i 00002018 00000000 @0\n\
        1 step : i 00002024 00000000 @1\n\
        cpu 0 halt 1 steps 10 pc FFFFFC000000201C\n\
        reg 0 1 0000000000000001\n\
        reg 0 2 0000000000000002\n\
        reg 0 30 FFFFFC0000004000\n\
        cpu 1 halt 1 steps 6 pc FFFFFC0000002028\n\
        reg 1 3 0000000000000002\n\
        reg 1 16 0000000000000001\n\
        reg 1 30 FFFFFC0000004000\n\
        mem 00004000 0000000000000002\n\
        mem 00004040 0000000000000001\n\
        console -\n\
        end 22\n",
    more: "",
    status: Status::Done,
};

/// A write barrier keeps the third store apart from the first.
const STORES_ARE_APART: Worked = Worked {
    words: &WRITE_BARRIER,
    layout: &PLAIN,
    budget: "20",
    start: THREE_STORES,
    rest: "0 drain 0 : e1 00004000 @1\n\
        0 drain 1 : e3 00004000 @2\n\
        axp: incomplete after event 14\n",
    more: "",
    status: Status::Incomplete { event: 14 },
};

/// The entries behind a write barrier are not drained before those in front of it.
const LATER_GROUP_WAITS: Worked = Worked {
    words: &WRITE_BARRIER,
    layout: &PLAIN,
    budget: "20",
    start: THREE_STORES,
    rest: "axp: not legal at event 13\n",
    more: "0 drain 1\n",
    status: Status::NotLegal { event: 13 },
};

/// A memory barrier leaves the code bank: the old word is fetched.
const OLD_CODE: Worked = Worked {
    words: &CODE_AFTER_MB,
    layout: &PLAIN,
    budget: "20",
    start: STORED_CODE,
    rest: "0 step : i 0000200C 60004000 @0\n\
        0 drain 0 : e1 00002000 @1\n\
        0 step : m @1\n\
        0 step : i 00002010 203F0001 @0\n\
        axp: incomplete after event 9\n",
    more: "",
    status: Status::Incomplete { event: 9 },
};

/// An instruction memory barrier empties it: the new word is fetched.
const NEW_CODE: Worked = Worked {
    words: &CODE_AFTER_IMB,
    layout: &PLAIN,
    budget: "20",
    start: STORED_CODE,
    rest: "0 step : i 0000200C 00000086 @0\n\
        0 drain 0 : e1 00002000 @1\n\
        0 step : b @1\n\
        0 fill : i 00002000 @1\n\
        0 step : i 00002010 203F0002 @1\n\
        axp: incomplete after event 10\n",
    more: "",
    status: Status::Incomplete { event: 10 },
};

/// A ninth line waits for a drain.
const NINTH_LINE: Worked = Worked {
    words: &FULL_BUFFER,
    layout: &PLAIN,
    budget: "40",
    start: EIGHT_LINES,
    rest: "0 drain 0 : e1 00004000 @1\n\
        0 step : w 00004200 8 0000000000000000 e9\n\
        axp: incomplete after event 20\n",
    more: "",
    status: Status::Incomplete { event: 20 },
};

/// A store to a ninth line is not legal while eight lines wait.
const NINTH_LINE_WAITS: Worked = Worked {
    words: &FULL_BUFFER,
    layout: &PLAIN,
    budget: "40",
    start: EIGHT_LINES,
    rest: "axp: not legal at event 19\n",
    more: "0 step\n",
    status: Status::NotLegal { event: 19 },
};

#[test]
fn stores_wait_in_buffers(rt: HostRuntime) -> Result<(), Fail> {
    for worked in [&BOTH_WAIT, &BYTES_ARE_MIXED] {
        assert!(rt; holds(rt.alloc(), worked)?);
    }
    Ok(())
}

#[test]
fn stale_copies_are_read_until_delivered(rt: HostRuntime) -> Result<(), Fail> {
    for worked in [
        &VALUE_IS_LATE,
        &VALUE_IS_TAKEN,
        &NOTHING_IS_HELD,
        &BARRIER_DELIVERS,
    ] {
        assert!(rt; holds(rt.alloc(), worked)?);
    }
    Ok(())
}

#[test]
fn stores_are_merged_within_a_group(rt: HostRuntime) -> Result<(), Fail> {
    for worked in [&STORES_ARE_MERGED, &STORES_ARE_APART, &LATER_GROUP_WAITS] {
        assert!(rt; holds(rt.alloc(), worked)?);
    }
    Ok(())
}

#[test]
fn code_is_kept_until_a_code_barrier(rt: HostRuntime) -> Result<(), Fail> {
    for worked in [&OLD_CODE, &NEW_CODE] {
        assert!(rt; holds(rt.alloc(), worked)?);
    }
    Ok(())
}

#[test]
fn eight_lines_wait_at_most(rt: HostRuntime) -> Result<(), Fail> {
    for worked in [&NINTH_LINE, &NINTH_LINE_WAITS] {
        assert!(rt; holds(rt.alloc(), worked)?);
    }
    Ok(())
}
