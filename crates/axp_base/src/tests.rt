use super::*;
use std::test::*;

#[test]
fn values_are_those_worked_out_by_hand(rt: HostRuntime) {
    assert_eq!(rt; Cpu::new(7).map(Cpu::number), Some(7));
    assert_eq!(rt; Cpu::new(8), None);

    for (address, first, bank) in [
        (0x4000, 0x4000, Bank::Even),
        (0x4040, 0x4040, Bank::Odd),
        (0x407F, 0x4040, Bank::Odd),
    ] {
        let line = Line::of(address);
        assert_eq!(rt; line.address(), first, "the line at {address}");
        assert_eq!(rt; line.bank(), bank, "the line at {address}");
    }
    assert_eq!(rt; Line::default(), Line::of(0x3F));

    let word = span(0x4004, 4);
    for n in 0..64 {
        assert_eq!(rt; word.has(n), matches!(n, 4..=7), "byte {n}");
    }
    assert_eq!(rt; word.join(span(0x4000, 4)), span(0x4000, 8));

    for (value, bits, extended) in [
        (0xFFFF, 16, u64::MAX),
        (0x7FFF, 16, 0x7FFF),
        (0x1_8000, 16, 0xFFFF_FFFF_FFFF_8000),
        (1, 1, u64::MAX),
        (0x8123_4567_89AB_CDEF, 64, 0x8123_4567_89AB_CDEF),
    ] {
        assert_eq!(rt; sext(value, bits), extended, "the low {bits} of {value}");
    }
}

#[test]
fn sizes_are_those_of_the_manual(rt: HostRuntime) {
    for (size, bytes, bits, low) in [
        (Size::Byte, 1, 8, 0xEF),
        (Size::Word, 2, 16, 0xCDEF),
        (Size::Long, 4, 32, 0x89AB_CDEF),
        (Size::Quad, 8, 64, 0x0123_4567_89AB_CDEF),
    ] {
        assert_eq!(rt; (size.bytes(), size.bits()), (bytes, bits), "{size:?}");
        assert_eq!(rt; size.low(0x0123_4567_89AB_CDEF), low, "{size:?}");
    }
    assert_eq!(rt; byte_of(0x0123_4567_89AB_CDEF, 0), 0xEF);
    assert_eq!(rt; byte_of(0x0123_4567_89AB_CDEF, 7), 0x01);
    assert_eq!(rt; byte_moved_up(0xAB, 7), 0xAB00_0000_0000_0000);
}

#[test]
fn bytes_hold_what_is_put(rt: HostRuntime) -> Result<(), Fail> {
    let alloc = rt.alloc();
    let mut list = Bytes::copy(alloc, b"one")?;
    list.append(alloc, b", two")?;
    assert_eq!(rt; list.as_slice(), b"one, two".as_slice());
    assert_eq!(rt; Bytes::empty(alloc).as_slice().len(), 0);

    let mut quadword = [1, 2, 3, 4, 5, 6, 7, 0x88];
    assert_eq!(rt; number_in(&quadword, 0, 8), 0x8807_0605_0403_0201);
    assert_eq!(rt; number_in(&quadword, 6, 2), 0x8807);
    put_number(&mut quadword, 2, 4, 0xFFFF_FFFF_4433_2211);
    assert_eq!(rt; quadword, [1, 2, 0x11, 0x22, 0x33, 0x44, 7, 0x88]);
    put_number(&mut quadword, 0, 8, 0x0102_0304_0506_0708);
    assert_eq!(rt; quadword, [8, 7, 6, 5, 4, 3, 2, 1]);
    Ok(())
}
