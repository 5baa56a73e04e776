use super::*;
use axp_base::Line;
use axp_line::LineData;
use std::test::*;

/// The data whose first byte is this one.
fn starting_with(byte: u64) -> LineData {
    let mut bytes = LineData::zero();
    bytes.set(0, 1, byte);
    bytes
}

/// The stamp and the first quadword of a line's copy.
fn copy_of(bank: &CopyBank, line: Line) -> Option<(u64, u64)> {
    let (stamp, bytes) = bank.get(line)?;
    Some((stamp, bytes.get(0, 8)))
}

/// A bank of the lines 1 to 16, each with its number plus 100 as its stamp; whether all were taken.
fn sixteen() -> (CopyBank, bool) {
    let mut bank = CopyBank::empty();
    let mut taken = true;
    // 5, 10, 15, 3, 8, .. modulo 17: each of 1 to 16 once
    for k in 1..17u64 {
        let number = k * 5 % 17;
        taken &= bank
            .put(Line::of(number * 64), 100 + number, starting_with(number))
            .is_ok();
    }
    (bank, taken)
}

#[test]
fn lines_are_told_in_order(rt: HostRuntime) {
    let (bank, taken) = sixteen();
    assert!(rt; taken);
    let lines = bank.lines();
    assert_eq!(rt; lines.len(), 16);
    for (k, held) in lines.as_slice().iter().enumerate() {
        let number = k as u64 + 1;
        assert_eq!(rt; held.0.address(), number * 64);
        assert_eq!(rt; held.1, 100 + number);
    }
}

#[test]
fn a_seventeenth_copy_is_refused(rt: HostRuntime) {
    let (mut bank, _) = sixteen();
    let more = Line::of(20 * 64);
    assert!(rt; bank.put(more, 1, LineData::zero()).is_err());
    assert_eq!(rt; copy_of(&bank, more), None);
    // one that is held is put once more
    assert!(rt; bank.put(Line::of(7 * 64), 200, starting_with(77)).is_ok());
    assert_eq!(rt; copy_of(&bank, Line::of(7 * 64)), Some((200, 77)));
    assert_eq!(rt; copy_of(&bank, Line::of(8 * 64)), Some((108, 8)));
    assert!(rt; bank.drop_line(Line::of(7 * 64)));
    assert!(rt; bank.put(more, 1, LineData::zero()).is_ok());
    assert_eq!(rt; bank.lines().len(), 16);
}

#[test]
fn copies_change_and_go(rt: HostRuntime) {
    let mut bank = CopyBank::empty();
    let line = Line::of(0x1000);
    bank.refresh(line, 3, starting_with(1));
    assert_eq!(rt; copy_of(&bank, line), None);
    assert!(rt; bank.put(line, 3, starting_with(1)).is_ok());
    bank.refresh(line, 5, starting_with(9));
    assert_eq!(rt; copy_of(&bank, line), Some((5, 9)));
    assert!(rt; !bank.invalidate(line, 5));
    assert!(rt; bank.invalidate(line, 6));
    assert_eq!(rt; copy_of(&bank, line), None);
    assert!(rt; !bank.invalidate(line, 6));
}
