use super::*;
use axp_base::Line;
use axp_line::LineData;
use std::test::*;

/// The data whose first byte is this one.
fn starting_with(byte: u64) -> LineData {
    let mut bytes = LineData::zero();
    bytes.set(0, 1, byte);
    bytes
}

#[test]
fn sixteen_lines_of_code_and_no_more(rt: HostRuntime) {
    let mut bank = CodeBank::empty();
    assert!(rt; bank.lines().is_empty());
    // 5, 10, 15, 3, 8, .. modulo 17: each of 1 to 16 once
    for k in 1..17u64 {
        let number = k * 5 % 17;
        assert!(rt;
            bank.put_at(Line::of(number * 64), 100 + number, starting_with(number))
                .is_ok(),
            "line {number}"
        );
    }
    let lines = bank.lines();
    assert_eq!(rt; lines.len(), 16);
    for (k, line) in lines.as_slice().iter().enumerate() {
        let number = k as u64 + 1;
        assert_eq!(rt; line.address(), number * 64);
        assert_eq!(rt; bank.stamp(*line), Some(100 + number));
    }
    assert!(rt; bank.put(Line::of(20 * 64), LineData::zero()).is_err());
    assert!(rt; bank.get(Line::of(20 * 64)).is_none());
    assert_eq!(rt; bank.stamp(Line::of(20 * 64)), None);
    assert!(rt; bank.put(Line::of(7 * 64), starting_with(77)).is_ok());
    assert_eq!(rt; bank.stamp(Line::of(7 * 64)), Some(0));
    let Some(bytes) = bank.get(Line::of(7 * 64)) else {
        panic!(rt; "line 7 is held");
    };
    assert_eq!(rt; bytes.get(0, 8), 77);
    let Some(bytes) = bank.get(Line::of(8 * 64)) else {
        panic!(rt; "line 8 is held");
    };
    assert_eq!(rt; bytes.get(0, 8), 8);
    assert!(rt; bank.drop_line(Line::of(7 * 64)));
    assert!(rt; !bank.drop_line(Line::of(7 * 64)));
    assert!(rt; bank.put_at(Line::of(20 * 64), 1, LineData::zero()).is_ok());
    assert_eq!(rt; bank.lines().len(), 16);
    bank.clear();
    assert!(rt; bank.lines().is_empty());
    assert!(rt; bank.get(Line::of(8 * 64)).is_none());
}
