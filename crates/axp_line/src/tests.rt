use super::*;
use axp_base::{LINE_BYTES, span};
use std::test::*;

#[test]
fn lines_hold_what_is_put(rt: HostRuntime) {
    let mut line = LineData::zero();
    assert_eq!(rt; line, LineData::default());
    line.set(8, 4, 0xFFFF_FFFF_4433_2211);
    assert_eq!(rt; line.get(8, 8), 0x4433_2211);
    assert_eq!(rt; line.get(10, 2), 0x4433);
    line.set(56, 8, 0x0102_0304_0506_0708);
    assert_eq!(rt; line.get(63, 1), 1);

    let mut other = LineData::zero();
    other.set(0, 8, u64::MAX);
    other.set(8, 8, u64::MAX);
    line.merge(span(LINE_BYTES + 8, 2), &other);
    assert_eq!(rt; line.get(0, 8), 0);
    assert_eq!(rt; line.get(8, 8), 0x4433_FFFF);
    assert_eq!(rt; line.get(56, 8), 0x0102_0304_0506_0708);
}

#[test]
fn held_lines_stay_in_order(rt: HostRuntime) {
    let mut held = Held::empty();
    assert_eq!(rt; held.len(), 0);
    held.push(0x4080, 7);
    held.push(0x4040, 9);
    assert_eq!(rt; held.len(), 2);
    if held.len() == 2 {
        assert_eq!(rt; held.get(0), (0x4080, 7));
        assert_eq!(rt; held.get(1), (0x4040, 9));
    }
}
