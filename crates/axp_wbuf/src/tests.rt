ghost use Rattle.std.specs.Prelude.{◌≡◌, ◌+◌, ◌^◌, ◌<◌, ◌≤◌};

use super::*;
use axp_base::{Line, Mask, span};
use axp_line::LineData;
use std::test::*;

/// The data of a line with this quadword at its start.
fn line_with(value: u64) -> LineData {
    let mut data = LineData::zero();
    data.set(0, 8, value);
    data
}

/// The entry of this number that a store of 8 bytes makes at the start of a line.
fn entry(number: u32, address: u64, value: u64) -> (u32, Line, Mask, LineData) {
    (number, Line::of(address), span(0, 8), line_with(value))
}

/// Whether it is empty, how many entries may leave, and whether a group is closed.
fn parts(buffer: &Wbuf) -> (bool, u8, bool) {
    (buffer.is_empty(), buffer.drains(), buffer.has_closed())
}

/// The line at an address, as its newest entries have it over zeros.
fn over_zeros(buffer: &Wbuf, address: u64) -> LineData {
    let mut data = LineData::zero();
    buffer.overlay(Line::of(address), &mut data);
    data
}

/// The entry `k` of those that may leave.
fn told(buffer: &Wbuf, k: u8) -> Option<(u32, Line, Mask, LineData)> {
    if k < buffer.drains() {
        return Some(buffer.oldest(k));
    }
    None
}

/// Whether the entry `k` may leave; it leaves then.
fn leaves(buffer: &mut Wbuf, k: u8) -> bool {
    if k < buffer.drains() {
        buffer.remove(k);
        return true;
    }
    false
}

/// Stores a quadword at the start of each of four lines, the first of them below 0x10000.
fn store_four(buffer: &mut Wbuf, line: u16) -> [Result<u32, Full>; 4]
    requires { buffer.old.made + 4 < 2 ^ 32 }
    ensures { buffer.new.made ≤ buffer.old.made + 4 }
{
    let address = 64 * u64::from(line);
    [
        buffer.store(address, 8, 0),
        buffer.store(address + 64, 8, 1),
        buffer.store(address + 128, 8, 2),
        buffer.store(address + 192, 8, 3),
    ]
}

#[test]
fn a_store_is_kept_until_it_leaves(rt: HostRuntime) {
    let mut buffer = Wbuf::empty();
    assert_eq!(rt; parts(&buffer), (true, 0, false));
    assert_eq!(rt; buffer.store(0x4008, 4, 0xFFFF_FFFF_1122_3344), Ok(1));
    assert_eq!(rt; parts(&buffer), (false, 1, false));
    buffer.close_group();
    assert_eq!(rt; parts(&buffer), (false, 1, true));
    let mut held = LineData::zero();
    held.set(8, 4, 0x1122_3344);
    assert_eq!(rt;
        told(&buffer, 0),
        Some((1, Line::of(0x4000), span(0x4008, 4), held))
    );
    assert!(rt; leaves(&mut buffer, 0));
    assert_eq!(rt; parts(&buffer), (true, 0, false));
    buffer.is_tidy();
}

#[test]
fn stores_to_one_line_merge(rt: HostRuntime) {
    let mut buffer = Wbuf::empty();
    assert_eq!(rt; buffer.store(0x4000, 8, 5), Ok(1));
    assert_eq!(rt; buffer.store(0x4040, 8, 6), Ok(2));
    assert_eq!(rt; buffer.store(0x4000, 8, 7), Ok(1));
    assert_eq!(rt; parts(&buffer), (false, 2, false));
    assert_eq!(rt; told(&buffer, 0), Some(entry(1, 0x4000, 7)));
    assert_eq!(rt; told(&buffer, 1), Some(entry(2, 0x4040, 6)));
}

#[test]
fn groups_leave_in_order(rt: HostRuntime) {
    let mut buffer = Wbuf::empty();
    assert_eq!(rt; buffer.store(0x4000, 8, 5), Ok(1));
    buffer.close_group();
    assert_eq!(rt; buffer.store(0x4000, 8, 6), Ok(2));
    assert_eq!(rt; buffer.store(0x4040, 8, 7), Ok(3));
    assert_eq!(rt; told(&buffer, 0), Some(entry(1, 0x4000, 5)));
    assert!(rt; leaves(&mut buffer, 0));
    assert_eq!(rt; parts(&buffer), (false, 2, false));
    assert!(rt; leaves(&mut buffer, 1));
    assert_eq!(rt; parts(&buffer), (false, 1, false));
    assert_eq!(rt; told(&buffer, 0), Some(entry(2, 0x4000, 6)));
}

/// A ninth entry is refused, and a store that merges is not.
#[test]
fn a_full_buffer_merges_still(rt: HostRuntime) {
    let mut buffer = Wbuf::empty();
    let first = store_four(&mut buffer, 0x100);
    assert_eq!(rt; first, [Ok(1), Ok(2), Ok(3), Ok(4)]);
    let second = store_four(&mut buffer, 0x104);
    assert_eq!(rt; second, [Ok(5), Ok(6), Ok(7), Ok(8)]);
    assert_eq!(rt; buffer.store(0x8000, 8, 9), Err(Full));
    assert_eq!(rt; buffer.store(0x4048, 8, 9), Ok(2));
    assert_eq!(rt; buffer.drains(), 8);
}

#[test]
fn overlay_takes_the_newest(rt: HostRuntime) {
    let mut buffer = Wbuf::empty();
    assert_eq!(rt; buffer.store(0x4000, 8, 0x1111_1111_1111_1111), Ok(1));
    buffer.close_group();
    assert_eq!(rt; buffer.store(0x4002, 2, 0x2222), Ok(2));
    assert_eq!(rt;
        over_zeros(&buffer, 0x4000),
        line_with(0x1111_1111_2222_1111)
    );
    assert_eq!(rt; over_zeros(&buffer, 0x4040), LineData::zero());
    assert_eq!(rt; buffer.has_line(Line::of(0x403F)), true);
    assert_eq!(rt; buffer.has_line(Line::of(0x4040)), false);
}

/// Which of the entries 0 to 4 are kept.
fn kept(buffer: &Wbuf) -> [bool; 5] {
    [
        buffer.keeps(0),
        buffer.keeps(1),
        buffer.keeps(2),
        buffer.keeps(3),
        buffer.keeps(4),
    ]
}

/// Three entries are made, the first in a group of its own: it leaves, and then the third.
#[test]
fn an_entry_is_kept_from_its_first_store_until_it_leaves(rt: HostRuntime) {
    let mut buffer = Wbuf::empty();
    assert_eq!(rt; (buffer.made(), kept(&buffer)), (0, [false; 5]));
    assert_eq!(rt; buffer.store(0x4000, 8, 5), Ok(1));
    buffer.close_group();
    assert_eq!(rt; buffer.store(0x4040, 8, 6), Ok(2));
    assert_eq!(rt; buffer.store(0x4080, 8, 7), Ok(3));
    assert_eq!(rt; buffer.store(0x4048, 8, 8), Ok(2));
    assert_eq!(rt;
        (buffer.made(), kept(&buffer)),
        (3, [false, true, true, true, false])
    );
    assert!(rt; leaves(&mut buffer, 0));
    assert!(rt; leaves(&mut buffer, 1));
    assert_eq!(rt;
        (buffer.made(), kept(&buffer)),
        (3, [false, false, true, false, false])
    );
}
