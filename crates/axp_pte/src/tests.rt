use super::MmFault::{Acv, Foe, Fow, Tnv};
use super::Mode::{Kernel, User};
use super::Way::{Fetch, Load, Store};
use super::*;
use std::test::*;

#[test]
fn addresses_lead_where_they_should(rt: HostRuntime) {
    let mapped = |l1, l2, l3, offset| Ok(Where::Mapped(Parts { l1, l2, l3, offset }));
    for (va, kernel, user) in [
        // 1 * 2^33 + 2 * 2^23 + 3 * 2^13 + 4
        (
            0x0000_0002_0100_6004,
            mapped(1, 2, 3, 4),
            mapped(1, 2, 3, 4),
        ),
        (0, mapped(0, 0, 0, 0), mapped(0, 0, 0, 0)),
        // the last address of the lower half, and the first above KSEG, and the last of all
        (
            0x0000_03FF_FFFF_FFFF,
            mapped(0x1FF, 0x3FF, 0x3FF, 0x1FFF),
            mapped(0x1FF, 0x3FF, 0x3FF, 0x1FFF),
        ),
        (
            0xFFFF_FE00_0000_0000,
            mapped(0x300, 0, 0, 0),
            mapped(0x300, 0, 0, 0),
        ),
        (
            u64::MAX,
            mapped(0x3FF, 0x3FF, 0x3FF, 0x1FFF),
            mapped(0x3FF, 0x3FF, 0x3FF, 0x1FFF),
        ),
        // KSEG: its first address, one inside, and its last
        (0xFFFF_FC00_0000_0000, Ok(Where::Direct(0)), Err(Acv)),
        (
            0xFFFF_FC01_2345_6789,
            Ok(Where::Direct(0x1_2345_6789)),
            Err(Acv),
        ),
        (
            0xFFFF_FDFF_FFFF_FFFF,
            Ok(Where::Direct(0x1FF_FFFF_FFFF)),
            Err(Acv),
        ),
        // bits 63:43 do not all equal bit 42
        (0x0000_0400_0000_0000, Err(Acv), Err(Acv)),
        (0x0000_0800_0000_0000, Err(Acv), Err(Acv)),
        (0xFFFF_F800_0000_0000, Err(Acv), Err(Acv)),
        (0x7FFF_FC00_0000_0000, Err(Acv), Err(Acv)),
        (0x8000_0000_0000_0000, Err(Acv), Err(Acv)),
    ] {
        assert_eq!(rt; split(va, Mode::Kernel), kernel, "kernel {va:X}");
        assert_eq!(rt; split(va, Mode::User), user, "user {va:X}");
    }
}

#[test]
fn pages_are_numbered_by_their_indices(rt: HostRuntime) {
    for (l1, l2, l3, offset, page) in [
        (0, 0, 0, 0x1FFF, 0),
        // 1 * 2^20 + 2 * 2^10 + 3
        (1, 2, 3, 4, 0x10_0803),
        (0, 0, 0x3FF, 0, 0x3FF),
        (0, 0x3FF, 0, 0, 0xF_FC00),
        (0x3FF, 0, 0, 0, 0x3FF0_0000),
        (0x3FF, 0x3FF, 0x3FF, 0x1FFF, 0x3FFF_FFFF),
    ] {
        let parts = Parts { l1, l2, l3, offset };
        assert_eq!(rt; parts.page(), page, "{l1:X} {l2:X} {l3:X}");
    }
}

#[test]
fn entries_keep_their_word(rt: HostRuntime) {
    let pte = Pte::of(0xDEAD_BEEF_0000_CAFE);
    assert_eq!(rt; pte.word(), 0xDEAD_BEEF_0000_CAFE);
    assert_eq!(rt; pte.pfn(), 0xDEAD_BEEF);
    // CAFE has bits 1 to 7, 9, 11, 14 and 15
    let named = PteBits::FOR | PteBits::FOW | PteBits::FOE | PteBits::ASM | PteBits::URE;
    assert_eq!(rt; pte.bits(), named);
    assert_eq!(rt; pte.matches_every_asn(), true);
    assert_eq!(rt; Pte::of(!0x10).matches_every_asn(), false);
    assert_eq!(rt; Pte::default(), Pte::of(0));
    let all = PteBits::V | named | PteBits::KRE | PteBits::KWE | PteBits::UWE;
    assert_eq!(rt; Pte::of(u64::MAX).bits(), all);
}

#[test]
fn upper_entries_want_v_alone(rt: HostRuntime) {
    for (word, wanted) in [
        (0x0000_0007_0000_0001, Ok(7)),
        (0x0000_0007_0000_000F, Ok(7)),
        (0x0000_0007_0000_3310, Err(Tnv)),
        (0xFFFF_FFFF_FFFF_FFFE, Err(Tnv)),
    ] {
        assert_eq!(rt; upper(Pte::of(word)), wanted, "{word:X}");
    }
}

#[test]
fn rights_come_before_v_before_the_faults_that_are_asked_for(rt: HostRuntime) {
    for (word, mode, way, wanted) in [
        // V, ASM, KRE and KWE
        (0x0000_0007_0000_1111, Kernel, Fetch, Ok(7)),
        (0x0000_0007_0000_1111, Kernel, Load, Ok(7)),
        (0x0000_0007_0000_1111, Kernel, Store, Ok(7)),
        (0x0000_0007_0000_1111, User, Fetch, Err(Acv)),
        (0x0000_0007_0000_1111, User, Load, Err(Acv)),
        (0x0000_0007_0000_1111, User, Store, Err(Acv)),
        // V and URE, V and UWE
        (0xFFFF_FFFF_0000_0201, User, Load, Ok(0xFFFF_FFFF)),
        (0xFFFF_FFFF_0000_0201, User, Store, Err(Acv)),
        (0xFFFF_FFFF_0000_2001, User, Store, Ok(0xFFFF_FFFF)),
        (0xFFFF_FFFF_0000_2001, User, Fetch, Err(Acv)),
        (0xFFFF_FFFF_0000_2201, Kernel, Load, Err(Acv)),
        // V = 0
        (0x0000_0007_0000_1110, Kernel, Load, Err(Tnv)),
        // FOR, FOW and FOE, each for its own way alone
        (0x0000_0007_0000_1113, Kernel, Load, Err(MmFault::For)),
        (0x0000_0007_0000_111D, Kernel, Load, Ok(7)),
        (0x0000_0007_0000_1115, Kernel, Store, Err(Fow)),
        (0x0000_0007_0000_111B, Kernel, Store, Ok(7)),
        (0x0000_0007_0000_1119, Kernel, Fetch, Err(Foe)),
        (0x0000_0007_0000_1117, Kernel, Fetch, Ok(7)),
        // no right and V = 0
        (0x0000_0007_0000_1110, User, Load, Err(Acv)),
        (0, Kernel, Fetch, Err(Acv)),
        // no right and a fault that is asked for
        (0x0000_0007_0000_111F, User, Fetch, Err(Acv)),
        (0x0000_0007_0000_111F, User, Load, Err(Acv)),
        (0x0000_0007_0000_111F, User, Store, Err(Acv)),
        // V = 0 and a fault that is asked for
        (0x0000_0007_0000_111E, Kernel, Fetch, Err(Tnv)),
        (0x0000_0007_0000_111E, Kernel, Load, Err(Tnv)),
        (0x0000_0007_0000_111E, Kernel, Store, Err(Tnv)),
        // all three
        (0x0000_0007_0000_000E, User, Load, Err(Acv)),
    ] {
        assert_eq!(rt;
            rights(Pte::of(word), mode, way),
            wanted,
            "{word:X} {mode:?} {way:?}"
        );
    }
}
