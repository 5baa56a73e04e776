use super::*;
use axp_base::Line;
use std::test::*;

#[test]
fn a_lock_is_of_one_block(rt: HostRuntime) {
    let mut register = LockReg::clear();
    assert_eq!(rt; register.allows(0x4000), false, "nothing is locked");
    register.set(0x4000);
    assert_eq!(rt; register.allows(0x4008), true, "the same block");
    assert_eq!(rt; register.allows(0x4010), false, "the next block");
    assert_eq!(rt; register.allows(0x3FFF), false, "the block before");
    register.set(0x4010);
    assert_eq!(rt; register.allows(0x4008), false, "another block was locked");
    assert_eq!(rt; register.allows(0x401F), true, "the last byte");
    register.release();
    assert_eq!(rt; register.allows(0x4010), false, "released");
}

#[test]
fn a_write_to_the_line_clears(rt: HostRuntime) {
    let mut register = LockReg::clear();
    register.set(0x4010);
    register.disturb(Line::of(0x4040));
    assert_eq!(rt; register.allows(0x4010), true, "a write to the next line");
    register.disturb(Line::of(0x4000));
    assert_eq!(rt; register.allows(0x4010), false, "a write to the line");
    register.disturb(Line::of(0x4000));
    assert_eq!(rt; register, LockReg::clear());
}
