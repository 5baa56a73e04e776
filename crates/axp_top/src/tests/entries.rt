//! Entries to the operating system, interrupts among them, and the calls of PALcode that reach beyond
//! their processor.
use super::worked::{Layout, PLAIN, Worked, holds};
use crate::Status;
use std::test::Fail;

/// LDAH R1, -0x8000(R31); LDA R1, -1(R1); ADDL/V R1, 1, R2: the sum does not fit in a longword. The
/// result is written, and the frame saves the address behind the instruction. Each processor then
/// has made its budget.
const OVERFLOW: Worked = Worked {
    words: &[0x243F_8000, 0x2021_FFFF, 0x4020_3802],
    layout: &PLAIN,
    budget: "9",
    start: "0 fill : i 00002000 @0\n\
        0 step : i 00002000 243F8000 @0\n\
        0 step : i 00002004 2021FFFF @0\n\
        0 step : i 00002008 40203802 @0\n\
        0 step : w 00003FD0 8 0000000000000007 e1\n\
        0 step : w 00003FD8 8 FFFFFC000000200C e1\n\
        0 step : w 00003FE0 8 0000000000000000 e1\n\
        0 step : w 00003FE8 8 0000000000000000 e1\n\
        0 step : w 00003FF0 8 0000000000000000 e1\n\
        0 step : w 00003FF8 8 0000000000000000 e1\n\
        0 drain 0 : e1 00003FC0 @1\n",
    rest: "1 fill : i 00002000 @1\n\
        1 step : i 00002000 243F8000 @1\n\
        1 step : i 00002004 2021FFFF @1\n\
        1 step : i 00002008 40203802 @1\n\
        1 step : w 00003FD0 8 0000000000000007 e1\n\
        1 step : w 00003FD8 8 FFFFFC000000200C e1\n\
        1 step : w 00003FE0 8 0000000000000000 e1\n\
        1 step : w 00003FE8 8 0000000000000001 e1\n\
        1 step : w 00003FF0 8 0000000000000000 e1\n\
        1 step : w 00003FF8 8 0000000000000000 e1\n\
        1 drain 0 : e1 00003FC0 @2\n\
        cpu 0 spent steps 9 pc 0000000000000000\n\
        reg 0 1 FFFFFFFF7FFFFFFF\n\
        reg 0 2 FFFFFFFF80000000\n\
        reg 0 16 0000000000000040\n\
        reg 0 17 0000000000000004\n\
        reg 0 30 FFFFFC0000003FD0\n\
        cpu 1 spent steps 9 pc 0000000000000000\n\
        reg 1 1 FFFFFFFF7FFFFFFF\n\
        reg 1 2 FFFFFFFF80000000\n\
        reg 1 16 0000000000000040\n\
        reg 1 17 0000000000000004\n\
        reg 1 30 FFFFFC0000003FD0\n\
        mem 00003FD0 0000000000000007\n\
        mem 00003FD8 FFFFFC000000200C\n\
        mem 00003FE0 0000000000000000\n\
        mem 00003FE8 0000000000000001\n\
        mem 00003FF0 0000000000000000\n\
        mem 00003FF8 0000000000000000\n\
        console -\n\
        end 22\n",
    more: "",
    status: Status::Done,
};

/// LDT F1, 0(R30): the frame saves the address of the instruction itself.
const FLOATING: Worked = Worked {
    words: &[0x8C3E_0000],
    layout: &PLAIN,
    budget: "7",
    start: "0 fill : i 00002000 @0\n\
        0 step : i 00002000 8C3E0000 @0\n\
        0 step : w 00003FD0 8 0000000000000007 e1\n\
        0 step : w 00003FD8 8 FFFFFC0000002000 e1\n\
        0 step : w 00003FE0 8 0000000000000000 e1\n\
        0 step : w 00003FE8 8 0000000000000000 e1\n\
        0 step : w 00003FF0 8 0000000000000000 e1\n\
        0 step : w 00003FF8 8 0000000000000000 e1\n\
        0 drain 0 : e1 00003FC0 @1\n",
    rest: "1 fill : i 00002000 @1\n\
        1 step : i 00002000 8C3E0000 @1\n\
        1 step : w 00003FD0 8 0000000000000007 e1\n\
        1 step : w 00003FD8 8 FFFFFC0000002000 e1\n\
        1 step : w 00003FE0 8 0000000000000000 e1\n\
        1 step : w 00003FE8 8 0000000000000001 e1\n\
        1 step : w 00003FF0 8 0000000000000000 e1\n\
        1 step : w 00003FF8 8 0000000000000000 e1\n\
        1 drain 0 : e1 00003FC0 @2\n\
        cpu 0 spent steps 7 pc 0000000000000000\n\
        reg 0 16 0000000000000003\n\
        reg 0 30 FFFFFC0000003FD0\n\
        cpu 1 spent steps 7 pc 0000000000000000\n\
        reg 1 16 0000000000000003\n\
        reg 1 30 FFFFFC0000003FD0\n\
        mem 00003FD0 0000000000000007\n\
        mem 00003FD8 FFFFFC0000002000\n\
        mem 00003FE0 0000000000000000\n\
        mem 00003FE8 0000000000000001\n\
        mem 00003FF0 0000000000000000\n\
        mem 00003FF8 0000000000000000\n\
        console -\n\
        end 18\n",
    more: "",
    status: Status::Done,
};

/// LDA R10, 1(R31); SLL R10, 42, R10; JMP R31, (R10): no access is made at the new program counter.
/// It is what the frame saves.
const NO_ACCESS: Worked = Worked {
    words: &[0x215F_0001, 0x4945_572A, 0x6BEA_0000],
    layout: &PLAIN,
    budget: "20",
    start: "0 fill : i 00002000 @0\n\
        0 step : i 00002000 215F0001 @0\n\
        0 step : i 00002004 4945572A @0\n\
        0 step : i 00002008 6BEA0000 @0\n",
    rest: "0 step : n\n\
        0 step : w 00003FD0 8 0000000000000007 e1\n\
        0 step : w 00003FD8 8 0000040000000000 e1\n\
        axp: incomplete after event 7\n",
    more: "",
    status: Status::Incomplete { event: 7 },
};

/// The budget ends with the second word of the frame: the result stands, and the program counter
/// and the other registers are those with which the entry began.
const SPENT_INSIDE_AN_ENTRY: Worked = Worked {
    budget: "5",
    start: "0 fill : i 00002000 @0\n\
        0 step : i 00002000 243F8000 @0\n\
        0 step : i 00002004 2021FFFF @0\n\
        0 step : i 00002008 40203802 @0\n\
        0 step : w 00003FD0 8 0000000000000007 e1\n\
        0 step : w 00003FD8 8 FFFFFC000000200C e1\n\
        0 drain 0 : e1 00003FC0 @1\n",
    rest: "1 fill : i 00002000 @1\n\
        1 step : i 00002000 243F8000 @1\n\
        1 step : i 00002004 2021FFFF @1\n\
        1 step : i 00002008 40203802 @1\n\
        1 step : w 00003FD0 8 0000000000000007 e1\n\
        1 step : w 00003FD8 8 FFFFFC000000200C e1\n\
        1 drain 0 : e1 00003FC0 @2\n\
        cpu 0 spent steps 5 pc FFFFFC000000200C\n\
        reg 0 1 FFFFFFFF7FFFFFFF\n\
        reg 0 2 FFFFFFFF80000000\n\
        reg 0 30 FFFFFC0000004000\n\
        cpu 1 spent steps 5 pc FFFFFC000000200C\n\
        reg 1 1 FFFFFFFF7FFFFFFF\n\
        reg 1 2 FFFFFFFF80000000\n\
        reg 1 16 0000000000000001\n\
        reg 1 30 FFFFFC0000004000\n\
        mem 00003FD0 0000000000000007\n\
        mem 00003FD8 FFFFFC000000200C\n\
        console -\n\
        end 14\n",
    ..OVERFLOW
};

/// The stack is no multiple of a quadword's bytes: the step that raises the entry halts the
/// processor, though it is the last of the budget. The result stands, and the program counter is
/// the one that the frame was to save.
const FRAME_IS_NOT_ALIGNED: Worked = Worked {
    budget: "3",
    layout: &Layout {
        stack: 0x4004,
        ..PLAIN
    },
    start: "0 fill : i 00002000 @0\n\
        0 step : i 00002000 243F8000 @0\n\
        0 step : i 00002004 2021FFFF @0\n\
        0 step : i 00002008 40203802 @0\n",
    rest: "1 fill : i 00002000 @0\n\
        1 step : i 00002000 243F8000 @0\n\
        1 step : i 00002004 2021FFFF @0\n\
        1 step : i 00002008 40203802 @0\n\
        cpu 0 halt 2 steps 3 pc FFFFFC000000200C\n\
        reg 0 1 FFFFFFFF7FFFFFFF\n\
        reg 0 2 FFFFFFFF80000000\n\
        reg 0 30 FFFFFC0000004004\n\
        cpu 1 halt 2 steps 3 pc FFFFFC000000200C\n\
        reg 1 1 FFFFFFFF7FFFFFFF\n\
        reg 1 2 FFFFFFFF80000000\n\
        reg 1 16 0000000000000001\n\
        reg 1 30 FFFFFC0000004004\n\
        console -\n\
        end 8\n",
    ..OVERFLOW
};

/// LDA R16, 1(R31); wripir: processor 1 is signalled. At level 7 its poll leaves the request.
const SIGNAL: Worked = Worked {
    words: &[0x221F_0001, 0x0000_000D],
    layout: &PLAIN,
    budget: "20",
    start: "0 fill : i 00002000 @0\n\
        0 step : i 00002000 221F0001 @0\n",
    rest: "0 step : i 00002004 0000000D @0\n\
        0 step : g 1 @1\n\
        0 poll : 0 @1 stay\n\
        1 poll : 1 @1 stay\n\
        axp: incomplete after event 6\n",
    more: "",
    status: Status::Incomplete { event: 6 },
};

/// swpipl, to level 0; wripir, to itself: the poll begins the entry.
const SIGNAL_TO_ITSELF: Worked = Worked {
    words: &[0x0000_0035, 0x0000_000D, 0],
    layout: &PLAIN,
    budget: "20",
    start: "0 fill : i 00002000 @0\n\
        0 step : i 00002000 00000035 @0\n\
        0 step : i 00002004 0000000D @0\n\
        0 step : g 0 @1\n\
        0 poll : 1 @1 enter\n",
    rest: "0 step : w 00003FD0 8 0000000000000000 e1\n\
        0 step : w 00003FD8 8 FFFFFC0000002008 e1\n\
        axp: incomplete after event 7\n",
    more: "",
    status: Status::Incomplete { event: 7 },
};

/// A poll in place of the first write is refused.
const POLL_AFTER_ONE_THAT_ENTERED: Worked = Worked {
    rest: "axp: not legal at event 6\n",
    more: "0 poll\n",
    status: Status::NotLegal { event: 6 },
    ..SIGNAL_TO_ITSELF
};

/// wripir, to itself, at level 7: the first poll stays, and the second is one too many.
const TWO_POLLS: Worked = Worked {
    words: &[0x0000_000D, 0],
    layout: &PLAIN,
    budget: "20",
    start: "0 fill : i 00002000 @0\n\
        0 step : i 00002000 0000000D @0\n",
    rest: "0 step : g 0 @1\n\
        0 poll : 1 @1 stay\n\
        axp: not legal at event 5\n",
    more: "0 poll\n",
    status: Status::NotLegal { event: 5 },
};

/// LDA R16, 1(R31); LDA R17, 0x14B(R31); cserve: the low byte goes to the console.
const CONSOLE: Worked = Worked {
    words: &[0x221F_0001, 0x223F_014B, 0x0000_0009],
    layout: &PLAIN,
    budget: "20",
    start: "0 fill : i 00002000 @0\n\
        0 step : i 00002000 221F0001 @0\n\
        0 step : i 00002004 223F014B @0\n",
    rest: "0 step : i 00002008 00000009 @0\n\
        0 step : p 4B @0\n\
        axp: incomplete after event 5\n",
    more: "",
    status: Status::Incomplete { event: 5 },
};

/// LDA R17, 0x4B(R16); LDA R16, 1(R31); cserve: each processor sends 4B and its number. The console
/// has the bytes in the order of the steps.
const TWO_BYTES: Worked = Worked {
    words: &[0x2230_004B, 0x221F_0001, 0x0000_0009],
    layout: &PLAIN,
    budget: "4",
    start: "1 fill : i 00002000 @0\n\
        1 step : i 00002000 2230004B @0\n\
        1 step : i 00002004 221F0001 @0\n\
        1 step : i 00002008 00000009 @0\n\
        1 step : p 4C @0\n",
    rest: "0 fill : i 00002000 @0\n\
        0 step : i 00002000 2230004B @0\n\
        0 step : i 00002004 221F0001 @0\n\
        0 step : i 00002008 00000009 @0\n\
        0 step : p 4B @0\n\
        cpu 0 spent steps 4 pc FFFFFC000000200C\n\
        reg 0 16 0000000000000001\n\
        reg 0 17 000000000000004B\n\
        reg 0 30 FFFFFC0000004000\n\
        cpu 1 spent steps 4 pc FFFFFC000000200C\n\
        reg 1 16 0000000000000001\n\
        reg 1 17 000000000000004C\n\
        reg 1 30 FFFFFC0000004000\n\
        console 4C4B\n\
        end 10\n",
    more: "",
    status: Status::Done,
};

/// swpipl, to level 0; bpt: at the boundary between them a tick is legal.
const TICK_AT_A_BOUNDARY: Worked = Worked {
    words: &[0x0000_0035, 0x0000_0080],
    layout: &PLAIN,
    budget: "20",
    start: "0 fill : i 00002000 @0\n\
        0 step : i 00002000 00000035 @0\n",
    rest: "0 tick : ok\n\
        0 step : w 00003FD0 8 0000000000000000 e1\n\
        0 step : w 00003FD8 8 FFFFFC0000002004 e1\n\
        axp: incomplete after event 5\n",
    more: "",
    status: Status::Incomplete { event: 5 },
};

/// Behind a fill only the step is legal.
const TICK_AFTER_A_FILL: Worked = Worked {
    start: "0 fill : i 00002000 @0\n",
    rest: "axp: not legal at event 2\n",
    more: "0 tick\n",
    status: Status::NotLegal { event: 2 },
    ..TICK_AT_A_BOUNDARY
};

/// The stack is no multiple of a quadword's bytes: the tick halts its processor. It is no step, and
/// the registers and the program counter stay.
const TICK_HALTS: Worked = Worked {
    layout: &Layout {
        stack: 0x4004,
        ..PLAIN
    },
    rest: "0 tick : ok\n\
        1 fill : i 00002000 @0\n\
        1 step : i 00002000 00000035 @0\n\
        1 tick : ok\n\
        cpu 0 halt 2 steps 1 pc FFFFFC0000002004\n\
        reg 0 0 0000000000000007\n\
        reg 0 30 FFFFFC0000004004\n\
        cpu 1 halt 2 steps 1 pc FFFFFC0000002004\n\
        reg 1 0 0000000000000007\n\
        reg 1 16 0000000000000001\n\
        reg 1 30 FFFFFC0000004004\n\
        console -\n\
        end 6\n",
    status: Status::Done,
    ..TICK_AT_A_BOUNDARY
};

/// Between two writes of the frame it is not legal.
const TICK_INSIDE_AN_ENTRY: Worked = Worked {
    words: &[0x0000_0035, 0x0000_0080],
    layout: &PLAIN,
    budget: "20",
    start: "0 fill : i 00002000 @0\n\
        0 step : i 00002000 00000035 @0\n",
    rest: "0 step : i 00002004 00000080 @0\n\
        0 step : w 00003FD0 8 0000000000000000 e1\n\
        axp: not legal at event 5\n",
    more: "0 tick\n",
    status: Status::NotLegal { event: 5 },
};

/// Nor is it, or a poll, between the call that raised the entry and the first write.
const POLL_AHEAD_OF_A_FRAME: Worked = Worked {
    words: &[0x0000_0035, 0x0000_0080],
    layout: &PLAIN,
    budget: "20",
    start: "0 fill : i 00002000 @0\n\
        0 step : i 00002000 00000035 @0\n",
    rest: "0 step : i 00002004 00000080 @0\n\
        axp: not legal at event 4\n",
    more: "0 poll\n",
    status: Status::NotLegal { event: 4 },
};

#[test]
fn entries_save_their_frames(rt: HostRuntime) -> Result<(), Fail> {
    for worked in [&OVERFLOW, &FLOATING, &NO_ACCESS, &SPENT_INSIDE_AN_ENTRY] {
        assert!(rt; holds(rt.alloc(), worked)?);
    }
    Ok(())
}

#[test]
fn frames_that_cannot_be_saved_halt(rt: HostRuntime) -> Result<(), Fail> {
    for worked in [&FRAME_IS_NOT_ALIGNED, &TICK_HALTS] {
        assert!(rt; holds(rt.alloc(), worked)?);
    }
    Ok(())
}

#[test]
fn signals_and_console_bytes_are_printed(rt: HostRuntime) -> Result<(), Fail> {
    for worked in [&SIGNAL, &SIGNAL_TO_ITSELF, &CONSOLE, &TWO_BYTES] {
        assert!(rt; holds(rt.alloc(), worked)?);
    }
    Ok(())
}

#[test]
fn interrupts_come_at_boundaries_alone(rt: HostRuntime) -> Result<(), Fail> {
    for worked in [
        &POLL_AFTER_ONE_THAT_ENTERED,
        &TWO_POLLS,
        &TICK_AT_A_BOUNDARY,
        &TICK_AFTER_A_FILL,
        &TICK_INSIDE_AN_ENTRY,
        &POLL_AHEAD_OF_A_FRAME,
    ] {
        assert!(rt; holds(rt.alloc(), worked)?);
    }
    Ok(())
}
