use super::*;
use axp_base::NoMemory;
use std::alloc::Global;
use std::test::*;

/// One page of memory, no segment.
const SMALLEST: [u8; 40] = [
    0x41, 0x58, 0x50, 0x49, 1, 0, 0, 0, // magic, version, count
    0, 0x20, 0, 0, 0, 0, 0, 0, // size
    0, 0, 0, 0, 0, 0xFC, 0xFF, 0xFF, // entry
    0, 0, 0, 0, 0, 0, 0, 0, // stack
    0, 0, 0, 0, 0, 0, 0, 0, // table
];

/// Two pages of memory, with three bytes at 0x3FF0 and two at the end.
const TWO_SEGMENTS: [u8; 77] = [
    0x41, 0x58, 0x50, 0x49, 1, 0, 2, 0, // magic, version, count
    0, 0x40, 0, 0, 0, 0, 0, 0, // size
    4, 0x20, 0, 0, 0, 0xFC, 0xFF, 0xFF, // entry
    0, 0x40, 0, 0, 0, 0xFC, 0xFF, 0xFF, // stack
    1, 0, 0, 0, 0, 0, 0, 0, // table
    0xF0, 0x3F, 0, 0, 0, 0, 0, 0, 3, 0, 0, 0, 0, 0, 0, 0, // the first record
    0xFE, 0x3F, 0, 0, 0, 0, 0, 0, 2, 0, 0, 0, 0, 0, 0, 0, // the second record
    11, 12, 13, 21, 22,
];

/// The first fault of a file, with its offset; `None` where the file is an image.
fn fault_of(alloc: Global, file: &[u8]) -> Result<Option<(ImageKind, u64)>, NoMemory> {
    match read_image(alloc, file) {
        Ok(_) => Ok(None),
        Err(ImageError::Bad { kind, offset }) => Ok(Some((kind, offset))),
        Err(ImageError::Memory) => Err(NoMemory),
    }
}

/// The first fault of the file with another byte at one place.
fn fault_with(
    alloc: Global,
    file: &[u8],
    at: usize,
    byte: u8,
) -> Result<Option<(ImageKind, u64)>, NoMemory> {
    let mut changed = Vec::from_slice(alloc, file)?;
    if let Some(place) = changed.get_mut(at) {
        *place = byte;
    }
    fault_of(alloc, changed.as_slice())
}

#[test]
fn reads_numbers_and_bytes(rt: HostRuntime) -> Result<(), Fail> {
    let image = read_image(rt.alloc(), &SMALLEST)?;
    assert_eq!(rt; image.size(), 8192);
    assert_eq!(rt; image.entry(), 0xFFFF_FC00_0000_0000);
    assert_eq!(rt; image.stack(), 0);
    assert_eq!(rt; image.table(), 0);
    assert_eq!(rt; image.segments(), 0);

    let image = read_image(rt.alloc(), &TWO_SEGMENTS)?;
    assert_eq!(rt; image.size(), 0x4000);
    assert_eq!(rt; image.entry(), 0xFFFF_FC00_0000_2004);
    assert_eq!(rt; image.stack(), 0xFFFF_FC00_0000_4000);
    assert_eq!(rt; image.table(), 1);
    assert_eq!(rt; image.segments(), 2);
    for (address, byte) in [
        (0x3FEF, 0),
        (0x3FF0, 11),
        (0x3FF2, 13),
        (0x3FF3, 0),
        (0x3FFD, 0),
        (0x3FFE, 21),
        (0x3FFF, 22),
    ] {
        if address < image.size() {
            assert_eq!(rt; image.byte(address), byte, "at {address}");
        }
    }
    if image.segments() == 2 {
        let (address, bytes) = image.segment(1);
        assert_eq!(rt; address, 0x3FFE);
        assert_eq!(rt; bytes, [21, 22].as_slice());
    }
    Ok(())
}

#[test]
fn each_byte_of_the_smallest_image_changed(rt: HostRuntime) -> Result<(), Fail> {
    for (from, to, fault) in [
        (0, 4, Some((ImageKind::Magic, 0))),
        (4, 6, Some((ImageKind::Version, 4))),
        (6, 8, Some((ImageKind::Count, 6))),
        (8, 10, Some((ImageKind::Size, 8))),
        (10, 11, None),
        (11, 16, Some((ImageKind::Size, 8))),
        (16, 22, Some((ImageKind::Entry, 16))),
        (22, 32, None),
        (32, 40, Some((ImageKind::Table, 32))),
    ] {
        for at in from..to {
            let found = fault_with(rt.alloc(), &SMALLEST, at, 0xFF)?;
            assert_eq!(rt; found, fault, "FF at {at}");
        }
    }
    Ok(())
}

#[test]
fn the_first_fault_is_named(rt: HostRuntime) -> Result<(), Fail> {
    for (at, byte, fault) in [
        (6, 65, Some((ImageKind::Count, 6))),
        (6, 3, Some((ImageKind::Short, 77))),
        (17, 0x40, Some((ImageKind::Entry, 16))),
        (32, 2, Some((ImageKind::Table, 32))),
        (41, 0x40, Some((ImageKind::Segment, 40))),
        (48, 0, Some((ImageKind::Segment, 40))),
        (48, 15, Some((ImageKind::Segment, 56))),
        (48, 4, Some((ImageKind::Short, 77))),
        (48, 2, Some((ImageKind::Extra, 76))),
        (52, 1, Some((ImageKind::Segment, 40))),
        (56, 0xF2, Some((ImageKind::Segment, 56))),
        (56, 0xF3, None),
        (56, 0xFF, Some((ImageKind::Segment, 56))),
    ] {
        let found = fault_with(rt.alloc(), &TWO_SEGMENTS, at, byte)?;
        assert_eq!(rt; found, fault, "{byte} at {at} of two segments");
    }
    for length in [0, 3, 5, 39, 40, 55, 71, 76] {
        let fault = fault_of(rt.alloc(), &TWO_SEGMENTS[..length])?;
        assert_eq!(rt;
            fault,
            Some((ImageKind::Short, length as u64)),
            "a front of {length}"
        );
    }
    for (kind, name) in [
        (ImageKind::Magic, "magic"),
        (ImageKind::Version, "version"),
        (ImageKind::Count, "count"),
        (ImageKind::Size, "size"),
        (ImageKind::Entry, "entry"),
        (ImageKind::Table, "table"),
        (ImageKind::Segment, "segment"),
        (ImageKind::Short, "short"),
        (ImageKind::Extra, "extra"),
    ] {
        assert_eq!(rt; kind.name(), name);
    }
    Ok(())
}

#[test]
fn an_image_is_made_and_written(rt: HostRuntime) -> Result<(), Fail> {
    let alloc = rt.alloc();
    let smallest = Image::start(alloc, PAGE_BYTES, KSEG, 0, 0)?;
    assert_eq!(rt;
        write_image(alloc, &smallest)?.as_slice(),
        SMALLEST.as_slice()
    );

    let mut image = Image::start(
        alloc,
        0x4000,
        0xFFFF_FC00_0000_2004,
        0xFFFF_FC00_0000_4000,
        1,
    )?;
    image.add(alloc, 0x3FF0, &[11, 12, 13])?;
    image.add(alloc, 0x3FFE, &[21, 22])?;
    assert_eq!(rt;
        write_image(alloc, &image)?.as_slice(),
        TWO_SEGMENTS.as_slice()
    );
    let copy = image.copy(alloc)?;
    assert_eq!(rt;
        write_image(alloc, &copy)?.as_slice(),
        TWO_SEGMENTS.as_slice()
    );
    Ok(())
}

/// The file of a memory of `size` bytes with `count` segments of `length` sevens each, with nothing
/// between them.
fn file_of_sevens(alloc: Global, size: u64, count: u16, length: u32) -> Result<Vec<u8>, NoMemory> {
    let mut file = Vec::from_slice(alloc, &SMALLEST[..6])?;
    file.extend_from_slice(&count.to_le_bytes())?;
    file.extend_from_slice(&size.to_le_bytes())?;
    file.extend_from_slice(&SMALLEST[16..])?;
    for n in 0..count {
        let address = u64::from(n) * u64::from(length);
        file.extend_from_slice(&address.to_le_bytes())?;
        // The length in four bytes, and a word of zeros.
        file.extend_from_slice(&u64::from(length).to_le_bytes())?;
    }
    for _ in 0..count {
        for _ in 0..length {
            file.push(7)?;
        }
    }
    Ok(file)
}

#[test]
fn reads_up_to_each_limit(rt: HostRuntime) -> Result<(), Fail> {
    let alloc = rt.alloc();
    for (size, count, length, fault) in [
        (0x2000, 64, 3, None),
        (0x2000, 65, 3, Some((ImageKind::Count, 6))),
        (0x0100_0000, 0, 0, None),
        (0x0100_2000, 0, 0, Some((ImageKind::Size, 8))),
        (0x2_0000, 1, 0x1_0001, None),
        (0x0100_0000, 1, 0x0100_0000, None),
        (0x0100_0000, 1, 0x0100_0001, Some((ImageKind::Segment, 40))),
    ] {
        let file = file_of_sevens(alloc, size, count, length)?;
        assert_eq!(rt;
            fault_of(alloc, file.as_slice())?,
            fault,
            "{count} segments of {length} in {size}"
        );
        if let Ok(image) = read_image(alloc, file.as_slice()) {
            let bytes = u64::from(count) * u64::from(length);
            assert_eq!(rt; (image.size(), image.segments()), (size, u32::from(count)));
            if 0 < bytes && bytes <= image.size() {
                assert_eq!(rt; image.byte(bytes - 1), 7, "the last byte");
            }
        }
    }
    Ok(())
}
