use super::*;
use axp_base::{LINE_BYTES, Line, span};
use axp_image::read_image;
use axp_line::LineData;
use std::test::*;

/// Two pages of memory, with three bytes at 0x3FF0 and two at the end.
const TWO_SEGMENTS: [u8; 77] = [
    0x41, 0x58, 0x50, 0x49, 1, 0, 2, 0, // magic, version, count
    0, 0x40, 0, 0, 0, 0, 0, 0, // size
    4, 0x20, 0, 0, 0, 0xFC, 0xFF, 0xFF, // entry
    0, 0x40, 0, 0, 0, 0xFC, 0xFF, 0xFF, // stack
    1, 0, 0, 0, 0, 0, 0, 0, // table
    0xF0, 0x3F, 0, 0, 0, 0, 0, 0, 3, 0, 0, 0, 0, 0, 0, 0, // the first record
    0xFE, 0x3F, 0, 0, 0, 0, 0, 0, 2, 0, 0, 0, 0, 0, 0, 0, // the second record
    11, 12, 13, 21, 22,
];

/// The greatest memory, and a segment of 65,537 bytes at its end, without the segment's bytes.
const GREATEST: [u8; 56] = [
    0x41, 0x58, 0x50, 0x49, 1, 0, 1, 0, // magic, version, count
    0, 0, 0, 1, 0, 0, 0, 0, // size
    0, 0, 0, 0, 0, 0xFC, 0xFF, 0xFF, // entry
    0, 0, 0, 0, 0, 0, 0, 0, // stack
    0, 0, 0, 0, 0, 0, 0, 0, // table
    0xFF, 0xFF, 0xFE, 0, 0, 0, 0, 0, 1, 0, 1, 0, 0, 0, 0, 0, // the record
];

#[test]
fn the_greatest_memory_is_loaded(rt: HostRuntime) -> Result<(), Fail> {
    let mut file = Vec::from_slice(rt.alloc(), &GREATEST)?;
    for _ in 0..0x1_0001 {
        file.push(7)?;
    }
    let image = read_image(rt.alloc(), file.as_slice())?;
    let ram = Ram::load(rt.alloc(), &image).ok().ok_or("memory")?;
    assert_eq!(rt; ram.size(), 0x0100_0000);
    if ram.size() == 0x0100_0000 {
        for (address, at, byte) in [
            (0x00FE_FFC0, 62, 0),
            (0x00FE_FFC0, 63, 7),
            (0x00FF_FFC0, 63, 7),
        ] {
            assert_eq!(rt;
                ram.line(Line::of(address)).get(at, 1),
                byte,
                "{at} of {address}"
            );
        }
    }
    Ok(())
}

#[test]
fn lines_are_read_and_written(rt: HostRuntime) -> Result<(), Fail> {
    let image = read_image(rt.alloc(), &TWO_SEGMENTS)?;
    let mut ram = Ram::load(rt.alloc(), &image).ok().ok_or("memory")?;
    assert_eq!(rt; ram.size(), 0x4000);
    if ram.size() == 0x4000 {
        let first = Line::of(0);
        let before = Line::of(0x3F80);
        let last = Line::of(0x3FC0);
        assert_eq!(rt; ram.line(first), LineData::zero());
        let line = ram.line(last);
        assert_eq!(rt; line.get(48, 8), 0x000D_0C0B);
        assert_eq!(rt; line.get(56, 8), 0x1615_0000_0000_0000);

        let mut change = LineData::zero();
        change.set(48, 8, 0x8877_6655_4433_2211);
        change.set(56, 8, u64::MAX);
        ram.write(last, span(0x3FF2, 2), &change);
        let line = ram.line(last);
        assert_eq!(rt; line.get(48, 8), 0x4433_0C0B, "two bytes were changed");
        assert_eq!(rt; line.get(56, 8), 0x1615_0000_0000_0000);
        assert_eq!(rt; ram.line(before), LineData::zero());
        assert_eq!(rt; ram.line(first), LineData::zero());

        ram.write(first, span(LINE_BYTES + 48, 8), &change);
        assert_eq!(rt; ram.line(first).get(48, 8), 0x8877_6655_4433_2211);
        assert_eq!(rt; ram.line(first).get(56, 8), 0, "the mask has none of these");
        assert_eq!(rt; ram.size(), 0x4000);
    }
    Ok(())
}
