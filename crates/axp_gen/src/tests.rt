use super::*;
use axp_image::write_image;
use std::test::*;

/// Whether these eight bytes stand in a file at an offset.
fn has_at(file: &[u8], at: usize, bytes: &[u8; 8]) -> bool {
    at <= file.len() && file[at..].starts_with(bytes)
}

#[test]
fn numbers_are_shapes(rt: HostRuntime) {
    for (number, shape, name) in [
        (0, Shape::Sb, "sb"),
        (1, Shape::Dl, "dl"),
        (2, Shape::Dm, "dm"),
        (3, Shape::Lock, "lock"),
        (7, Shape::Lock, "lock"),
        (u64::MAX, Shape::Lock, "lock"),
    ] {
        assert_eq!(rt; shape_of(number), shape, "{number}");
        assert_eq!(rt; shape.name(), name, "{number}");
    }
}

#[test]
fn images_have_their_bytes(rt: HostRuntime) -> Result<(), Fail> {
    let store_buffering: &[(usize, [u8; 8])] = &[
        (0, [0x41, 0x58, 0x50, 0x49, 1, 0, 1, 0]), // one segment
        (8, [0, 0x80, 0, 0, 0, 0, 0, 0]),
        (16, [0, 0x20, 0, 0, 0, 0xFC, 0xFF, 0xFF]),
        (24, [0, 0x40, 0, 0, 0, 0xFC, 0xFF, 0xFF]),
        (32, [0, 0, 0, 0, 0, 0, 0, 0]),
        (40, [0, 0x20, 0, 0, 0, 0, 0, 0]),
        (48, [32, 0, 0, 0, 0, 0, 0, 0]),
        (56, [1, 0, 0x3F, 0x20, 3, 0, 0, 0xF2]), // LDA R1,1(R31); BLBS R16,2014
        (80, [0, 0, 0x5E, 0xA4, 0, 0, 0, 0]), // LDQ R2,0(R30); halt
    ];
    let dependent_load: &[(usize, [u8; 8])] = &[
        (0, [0x41, 0x58, 0x50, 0x49, 1, 0, 2, 0]), // two segments
        (48, [44, 0, 0, 0, 0, 0, 0, 0]),
        (56, [0, 0x40, 0, 0, 0, 0, 0, 0]),
        (64, [8, 0, 0, 0, 0, 0, 0, 0]),
        (72, [6, 0, 0, 0xF2, 1, 0, 0x3F, 0x20]), // BLBS R16,201C; LDA R1,1(R31)
        (108, [0, 0, 0xA4, 0xA4, 0, 0, 0, 0]), // LDQ R5,0(R4); halt
        (116, [0x80, 0x40, 0, 0, 0, 0xFC, 0xFF, 0xFF]), // the pointer
    ];
    let with_barrier: &[(usize, [u8; 8])] = &[
        (0, [0x41, 0x58, 0x50, 0x49, 1, 0, 2, 0]), // two segments
        (48, [48, 0, 0, 0, 0, 0, 0, 0]),
        (72, [6, 0, 0, 0xF2, 1, 0, 0x3F, 0x20]), // BLBS R16,201C; LDA R1,1(R31)
        (108, [0, 0x40, 0, 0x60, 0, 0, 0xA4, 0xA4]), // MB; LDQ R5,0(R4)
        (116, [0, 0, 0, 0, 0x80, 0x40, 0, 0]), // halt; the front of the pointer
    ];
    let spin_lock: &[(usize, [u8; 8])] = &[
        (0, [0x41, 0x58, 0x50, 0x49, 1, 0, 4, 0]), // four segments
        (8, [0, 0, 1, 0, 0, 0, 0, 0]),
        (24, [0, 0x80, 0, 0, 0, 0xFC, 0xFF, 0xFF]),
        (32, [3, 0, 0, 0, 0, 0, 0, 0]),
        (48, [188, 0, 0, 0, 0, 0, 0, 0]),
        (56, [0, 0x60, 0, 0, 0, 0, 0, 0]),
        (72, [0, 0xA0, 0, 0, 0, 0, 0, 0]),
        (88, [8, 0xC0, 0, 0, 0, 0, 0, 0]),
        (104, [0x0B, 4, 0xF0, 0x47, 0, 0x20, 0x5F, 0x21]), // BIS R31,R16,R11; LDA R10,2000(R31)
        (284, [9, 0, 0, 0, 0x3F, 0, 0, 0]), // cserve; rti
        (292, [1, 0, 0, 0, 5, 0, 0, 0]),
        (300, [1, 0, 0, 0, 6, 0, 0, 0]),
        (308, [0x11, 0x11, 0, 0, 7, 0, 0, 0]),
    ];
    for (shape, length, pieces) in [
        (Shape::Sb, 88, store_buffering),
        (Shape::Dl, 124, dependent_load),
        (Shape::Dm, 128, with_barrier),
        (Shape::Lock, 316, spin_lock),
    ] {
        let image = litmus(rt.alloc(), shape)?;
        let file = write_image(rt.alloc(), &image)?;
        let file = file.as_slice();
        assert_eq!(rt; file.len(), length, "{shape:?}");
        for (at, bytes) in pieces {
            assert!(rt; has_at(file, *at, bytes), "{shape:?} at {at}");
        }
    }
    Ok(())
}
