use super::*;
use axp_decode::BranchOp;
use std::test::*;

/// The least integer and the greatest.
const LEAST: u64 = 1 << 63;

const GREATEST: u64 = (1 << 63) - 1;

#[test]
fn branches_are_taken_by_their_tests(rt: HostRuntime) {
    // at 0, 1, -1, the least integer and the greatest
    for (op, wanted) in [
        (BranchOp::BR, [true, true, true, true, true]),
        (BranchOp::BSR, [true, true, true, true, true]),
        (BranchOp::BLBC, [true, false, false, true, false]),
        (BranchOp::BLBS, [false, true, true, false, true]),
        (BranchOp::BEQ, [true, false, false, false, false]),
        (BranchOp::BNE, [false, true, true, true, true]),
        (BranchOp::BLT, [false, false, true, true, false]),
        (BranchOp::BLE, [true, false, true, true, false]),
        (BranchOp::BGE, [true, true, false, false, true]),
        (BranchOp::BGT, [false, true, false, false, true]),
    ] {
        let are = [0, 1, u64::MAX, LEAST, GREATEST].map(|a| taken(op, a));
        assert_eq!(rt; are, wanted, "{op:?}");
    }
}

#[test]
fn targets_are_those_worked_out_by_hand(rt: HostRuntime) {
    for (next, disp, wanted) in [
        (0x2004, 0, 0x2004),
        (0x2004, 3, 0x2010),
        // to the branch itself
        (0x2004, 0x1F_FFFF, 0x2000),
        // as far as can be, forward and backward
        (0x40_0000, 0x0F_FFFF, 0x7F_FFFC),
        (0x40_0000, 0x10_0000, 0),
        // around both ends of the addresses
        (0xFFFF_FFFF_FFFF_FFFC, 1, 0),
        (0, 0x1F_FFFF, 0xFFFF_FFFF_FFFF_FFFC),
        // a bit above the 21 of the displacement
        (0x2004, 0x20_0003, 0x2010),
    ] {
        assert_eq!(rt; target(next, disp), wanted, "{next:X} {disp:X}");
    }
}
