//! Page tables: how many translations are kept.
use super::runs::{goes_by, stands};
use super::*;

/// Eight pages of memory, with the page table of level 1 at 0x6000 and three segments: the program
/// at 0x2000, where every processor starts, one entry of level 1, one of level 2 at 0xA000, and
/// those of level 3 from 0xC000 on; the segments follow.
const PAGED_HEAD: [u8; 40] = [
    0x41, 0x58, 0x50, 0x49, 1, 0, 4, 0, // magic, version, count
    0, 0, 1, 0, 0, 0, 0, 0, // size
    0, 0x20, 0, 0, 0, 0xFC, 0xFF, 0xFF, // entry
    0, 0x80, 0, 0, 0, 0xFC, 0xFF, 0xFF, // stack
    3, 0, 0, 0, 0, 0, 0, 0, // table
];

/// The entry of level 1 that leads to the table at 0xA000.
const TO_SECOND: u64 = 0x0000_0005_0000_0001;

/// The entry of level 2 that leads to the table at 0xC000.
const TO_THIRD: u64 = 0x0000_0006_0000_0001;

/// The entry of level 3 that leads to the frame at 0xE000: V, ASM, KRE and KWE.
const TO_PAGE: u64 = 0x0000_0007_0000_1111;

/// Two processors over a program and page tables that lead so many pages, from the virtual address
/// 0 on, to one frame; each has a budget of 300 steps.
fn start_paged(alloc: Global, words: &[u32], pages: u64) -> Result<Machine, Fail> {
    let mut file = Vec::from_slice(alloc, &PAGED_HEAD)?;
    for (address, length) in [
        (0x2000, (words.len() as u64).wrapping_mul(4)),
        (0x6000, 8),
        (0xA000, 8),
        (0xC000, pages.wrapping_mul(8)),
    ] {
        let address: u64 = address;
        file.extend_from_slice(&address.to_le_bytes())?;
        file.extend_from_slice(&length.to_le_bytes())?;
    }
    for word in words {
        file.extend_from_slice(&word.to_le_bytes())?;
    }
    file.extend_from_slice(&TO_SECOND.to_le_bytes())?;
    file.extend_from_slice(&TO_THIRD.to_le_bytes())?;
    for _ in 0..pages {
        file.extend_from_slice(&TO_PAGE.to_le_bytes())?;
    }
    let image = read_image(alloc, file.as_slice())?;
    Ok(Machine::load(alloc, &image, 2, 300)?)
}

/// Whether a processor loads from so many pages, one after the other, each with a walk.
fn walks_to_each(machine: &mut Machine, cpu: Cpu, pages: u64) -> bool {
    let mut entry = 0xC000_u64;
    for _ in 0..pages {
        let loads = goes_by(machine, cpu, &[0x2004, 0x6000, 0xA000, entry, 0xE000]);
        if !loads || !goes_by(machine, cpu, &[0x2008, 0x200C, 0x2010]) {
            return false;
        }
        entry = entry.wrapping_add(8);
    }
    true
}

/// LDA R11, pages(R31); LDQ R2, 0(R10); LDA R10, 0x2000(R10); SUBQ R11, 1, R11; BNE R11, to the
/// second word; a load of the first page or of the last; halt.
fn page_loop(pages: u16, load: u32) -> [u32; 7] {
    [
        0x217F_0000 | u32::from(pages),
        0xA44A_0000,
        0x214A_2000,
        0x4160_352B,
        0xF57F_FFFC,
        load,
        0,
    ]
}

/// LDQ R3, 0(R31).
const LOAD_FIRST: u32 = 0xA47F_0000;

/// LDQ R3, -0x2000(R10).
const LOAD_LAST: u32 = 0xA46A_E000;

/// Each page is loaded from once, with a walk. Then the translations of 32 pages are kept, and of 33
/// that of the last alone.
#[test]
fn translations_of_32_pages_are_kept(rt: HostRuntime) -> Result<(), Fail> {
    let (a, _) = both()?;
    for (pages, load, last, steps, events) in [
        // 1 + 32 * 8 + 2 + 1 steps; 8 fills: of the code, of an entry of level 1 and one of level 2,
        // of 4 lines of entries of level 3, and of the frame
        (32_u16, LOAD_FIRST, &[0xE000_u64][..], 260, 268),
        // 1 + 33 * 8 + 5 + 1 steps, and one more line of entries
        (
            33_u16,
            LOAD_FIRST,
            &[0x6000, 0xA000, 0xC000, 0xE000][..],
            271,
            280,
        ),
        // 1 + 33 * 8 + 2 + 1 steps
        (33_u16, LOAD_LAST, &[0xE000][..], 268, 277),
    ] {
        let words = page_loop(pages, load);
        let mut machine = start_paged(rt.alloc(), &words, u64::from(pages))?;
        assert!(rt; goes_by(&mut machine, a, &[0x2000]));
        assert!(rt; walks_to_each(&mut machine, a, u64::from(pages)));
        assert!(rt; goes_by(&mut machine, a, &[0x2014]));
        assert!(rt; goes_by(&mut machine, a, last));
        assert!(rt; goes_by(&mut machine, a, &[0x2018]));
        assert!(rt; stands(&machine, a, steps, 0xFFFF_FC00_0000_201C, Some(1)));
        assert_eq!(rt; machine.events(), events);
    }
    Ok(())
}
