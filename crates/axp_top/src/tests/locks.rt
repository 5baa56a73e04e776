//! Load-locked and store-conditional.
use super::worked::{PLAIN, Worked, holds};
use crate::Status;
use std::test::Fail;

/// BNE R16, to the fifth word; LDQ_L R1, 0(R30); STQ_C R1, 0(R30); halt; and for processor 1 STQ
/// R1, 16(R30); halt.
const LOCK_RANGE: [u32; 6] = [
    0xF200_0003,
    0xAC3E_0000,
    0xBC3E_0000,
    0x0000_0000,
    0xB43E_0010,
    0x0000_0000,
];

/// LDQ_L R1, 0(R30); STQ_C R1, 16(R30); halt.
const ANOTHER_BLOCK: [u32; 3] = [0xAC3E_0000, 0xBC3E_0010, 0x0000_0000];

/// LDQ_L R1, 0(R30); STQ R1, 8(R30); STQ_C R1, 0(R30); halt.
const OWN_STORE: [u32; 4] = [0xAC3E_0000, 0xB43E_0008, 0xBC3E_0000, 0x0000_0000];

/// The own store to the locked line waits, and the store-conditional is fetched.
const OWN_STORE_WAITS: &str = "0 fill : i 00002000 @0\n\
    0 step : i 00002000 AC3E0000 @0\n\
    0 step : l 00004000 8 0000000000000000 @0\n\
    0 step : i 00002004 B43E0008 @0\n\
    0 step : w 00004008 8 0000000000000000 e1\n\
    0 step : i 00002008 BC3E0000 @0\n";

/// A store of another processor to the locked line disturbs the lock, so the store-conditional
/// fails.
pub(super) const DISTURBED: Worked = Worked {
    words: &LOCK_RANGE,
    layout: &PLAIN,
    budget: "20",
    start: "",
    rest: "0 fill : i 00002000 @0\n\
        0 step : i 00002000 F2000003 @0\n\
        0 step : i 00002004 AC3E0000 @0\n\
        0 step : l 00004000 8 0000000000000000 @0\n\
        1 fill : i 00002000 @0\n\
        1 step : i 00002000 F2000003 @0\n\
        1 step : i 00002010 B43E0010 @0\n\
        1 step : w 00004010 8 0000000000000000 e1\n\
        1 drain 0 : e1 00004000 @1\n\
        0 step : i 00002008 BC3E0000 @0\n\
        0 step : c 00004000 8 0000000000000000 no @1\n\
        0 step : i 0000200C 00000000 @0\n\
        1 step : i 00002014 00000000 @0\n\
        cpu 0 halt 1 steps 6 pc FFFFFC0000002010\n\
        reg 0 30 FFFFFC0000004000\n\
        cpu 1 halt 1 steps 4 pc FFFFFC0000002018\n\
        reg 1 16 0000000000000001\n\
        reg 1 30 FFFFFC0000004000\n\
        mem 00004010 0000000000000000\n\
        console -\n\
        end 13\n",
    more: "",
    status: Status::Done,
};

/// A store-conditional to another block of 16 bytes fails.
const OTHER_BLOCK: Worked = Worked {
    words: &ANOTHER_BLOCK,
    layout: &PLAIN,
    budget: "20",
    start: "",
    rest: "0 fill : i 00002000 @0\n\
        0 step : i 00002000 AC3E0000 @0\n\
        0 step : l 00004000 8 0000000000000000 @0\n\
        0 step : i 00002004 BC3E0010 @0\n\
        0 step : c 00004010 8 0000000000000000 no @0\n\
        axp: incomplete after event 5\n",
    more: "",
    status: Status::Incomplete { event: 5 },
};

/// Once the own store to the locked line is drained, the store-conditional succeeds.
const DRAINED: Worked = Worked {
    words: &OWN_STORE,
    layout: &PLAIN,
    budget: "20",
    start: OWN_STORE_WAITS,
    rest: "0 drain 0 : e1 00004000 @1\n\
        0 step : c 00004000 8 0000000000000000 yes @2\n\
        axp: incomplete after event 8\n",
    more: "",
    status: Status::Incomplete { event: 8 },
};

/// A store-conditional does not pass an own store to its line that waits.
const NOT_DRAINED: Worked = Worked {
    words: &OWN_STORE,
    layout: &PLAIN,
    budget: "20",
    start: OWN_STORE_WAITS,
    rest: "axp: not legal at event 7\n",
    more: "0 step\n",
    status: Status::NotLegal { event: 7 },
};

#[test]
fn another_store_or_block_fails(rt: HostRuntime) -> Result<(), Fail> {
    for worked in [&DISTURBED, &OTHER_BLOCK] {
        assert!(rt; holds(rt.alloc(), worked)?);
    }
    Ok(())
}

#[test]
fn own_store_is_drained_first(rt: HostRuntime) -> Result<(), Fail> {
    for worked in [&DRAINED, &NOT_DRAINED] {
        assert!(rt; holds(rt.alloc(), worked)?);
    }
    Ok(())
}
