use super::*;
use axp_base::NoMemory;
use axp_image::{KSEG, write_image};
use std::alloc::Global;
use std::test::*;

/// A program of one word, the first of memory.
const PROGRAM: [u8; 124] = [
    0x7F, 0x45, 0x4C, 0x46, 2, 1, 1, 0, 0, 0, 0, 0, 0, 0, 0, 0, // magic, class, data, version
    2, 0, 0x26, 0x90, 1, 0, 0, 0, // type, machine, version
    0, 0, 0, 0, 0, 0xFC, 0xFF, 0xFF, // entry
    0x40, 0, 0, 0, 0, 0, 0, 0, // offset of the program headers
    0, 0, 0, 0, 0, 0, 0, 0, 0, 0, 0, 0, 0x40, 0, // not read
    0x38, 0, 1, 0, 0, 0, 0, 0, 0, 0, // size and number of program headers
    1, 0, 0, 0, 5, 0, 0, 0, // the program header: its type
    0x78, 0, 0, 0, 0, 0, 0, 0, // offset
    0, 0, 0, 0, 0, 0xFC, 0xFF, 0xFF, // virtual address
    0, 0, 0, 0, 0, 0xFC, 0xFF, 0xFF, // not read
    4, 0, 0, 0, 0, 0, 0, 0, // size in the file
    4, 0, 0, 0, 0, 0, 0, 0, // size in memory
    0, 0x20, 0, 0, 0, 0, 0, 0, // not read
    0, 0, 0, 0, // the word
];

/// The image of the program in one page of memory.
const IMAGE: [u8; 60] = [
    0x41, 0x58, 0x50, 0x49, 1, 0, 1, 0, // magic, version, count
    0, 0x20, 0, 0, 0, 0, 0, 0, // size
    0, 0, 0, 0, 0, 0xFC, 0xFF, 0xFF, // entry
    0, 0, 0, 0, 0, 0, 0, 0, // stack
    0, 0, 0, 0, 0, 0, 0, 0, // table
    0, 0, 0, 0, 0, 0, 0, 0, 4, 0, 0, 0, 0, 0, 0, 0, // the record
    0, 0, 0, 0, // the word
];

/// The first fault of a file in one page of memory; `None` where it is an executable.
fn fault_of(alloc: Global, file: &[u8]) -> Result<Option<(ElfField, u64)>, NoMemory> {
    match read_elf(alloc, file, 8192, 0, 0) {
        Ok(_) => Ok(None),
        Err(ElfError::Bad { field, offset }) => Ok(Some((field, offset))),
        Err(ElfError::Memory) => Err(NoMemory),
    }
}

/// The first fault of the program with another number of two bytes at one place.
fn fault_with(alloc: Global, at: u8, number: u16) -> Result<Option<(ElfField, u64)>, NoMemory> {
    let mut changed = Vec::from_slice(alloc, &PROGRAM)?;
    let mut at = usize::from(at);
    for byte in number.to_le_bytes() {
        if let Some(place) = changed.get_mut(at) {
            *place = byte;
        }
        at = at.wrapping_add(1);
    }
    fault_of(alloc, changed.as_slice())
}

/// The program's file header with another number of program headers.
fn start_of_file(alloc: Global, count: u16) -> Result<Vec<u8>, NoMemory> {
    let mut file = Vec::from_slice(alloc, &PROGRAM[..56])?;
    file.extend_from_slice(&count.to_le_bytes())?;
    file.extend_from_slice(&[0; 6])?;
    Ok(file)
}

/// Appends a program header of this type, offset, physical address, size in the file and size in
/// memory.
fn push_header(file: &mut Vec<u8>, header: [u64; 5]) -> Result<(), NoMemory> {
    let [kind, offset, physical, file_size, memory_size] = header;
    let address = KSEG.wrapping_add(physical);
    for number in [kind, offset, address, 0, file_size, memory_size, 0] {
        file.extend_from_slice(&number.to_le_bytes())?;
    }
    Ok(())
}

#[test]
fn reads_the_program(rt: HostRuntime) -> Result<(), Fail> {
    let alloc = rt.alloc();
    let image = read_elf(alloc, &PROGRAM, 8192, 0, 0)?;
    assert_eq!(rt; write_image(alloc, &image)?.as_slice(), IMAGE.as_slice());

    let image = read_elf(alloc, &PROGRAM, 0x4000, 0x1234, 1)?;
    assert_eq!(rt;
        (image.size(), image.stack(), image.table()),
        (0x4000, 0x1234, 1)
    );
    Ok(())
}

#[test]
fn a_field_at_fault_is_named(rt: HostRuntime) -> Result<(), Fail> {
    for (at, number, fault) in [
        (0, 0x457E, Some((ElfField::Magic, 0))),
        (2, 0x464D, Some((ElfField::Magic, 0))),
        (4, 0x0101, Some((ElfField::Class, 4))),
        (5, 0x0102, Some((ElfField::Data, 5))),
        (6, 0x0000, Some((ElfField::Version, 6))),
        (7, 0xFFFF, None),
        (16, 0x0003, Some((ElfField::Type, 16))),
        (18, 0x003E, Some((ElfField::Machine, 18))),
        (20, 0x0002, Some((ElfField::Version, 20))),
        (24, 0x0002, Some((ElfField::Entry, 24))),
        (24, 0x1FFC, None),
        (24, 0x2000, Some((ElfField::Entry, 24))),
        (30, 0xFFFE, Some((ElfField::Entry, 24))),
        (32, 0x0045, Some((ElfField::Short, 124))),
        (38, 0xFFFF, Some((ElfField::Short, 124))),
        (54, 0x0037, Some((ElfField::Headers, 54))),
        (56, 0x0201, Some((ElfField::Headers, 56))),
        (56, 0x0200, Some((ElfField::Short, 124))),
        (56, 0x0000, None),
        (64, 0x0002, Some((ElfField::Dynamic, 64))),
        (64, 0x0003, Some((ElfField::Dynamic, 64))),
        (64, 0x0004, None),
        (72, 0x0079, Some((ElfField::Short, 124))),
        (78, 0xFFFF, Some((ElfField::Short, 124))),
        (80, 0x1FFD, Some((ElfField::Segment, 64))),
        (80, 0x1FFC, None),
        (84, 0xFB00, Some((ElfField::Segment, 64))),
        (96, 0x0005, Some((ElfField::Segment, 64))),
        (96, 0x0000, None),
        (104, 0x0003, Some((ElfField::Segment, 64))),
        (104, 0x2000, None),
        (104, 0x2001, Some((ElfField::Segment, 64))),
        (110, 0xFFFF, Some((ElfField::Segment, 64))),
    ] {
        let found = fault_with(rt.alloc(), at, number)?;
        assert_eq!(rt; found, fault, "{number:X} at {at}");
    }
    Ok(())
}

#[test]
fn each_front_of_the_program_is_short(rt: HostRuntime) -> Result<(), Fail> {
    for length in 0..PROGRAM.len() {
        let fault = fault_of(rt.alloc(), &PROGRAM[..length])?;
        assert_eq!(rt;
            fault,
            Some((ElfField::Short, length as u64)),
            "a front of {length}"
        );
    }
    Ok(())
}

/// A header of no bytes in memory, at fault in all else.
const EMPTY: [u64; 5] = [1, u64::MAX, 0xFFFF_FFFF, u64::MAX, 0];

#[test]
fn segments_are_in_order(rt: HostRuntime) -> Result<(), Fail> {
    let alloc = rt.alloc();
    for (headers, fault) in [
        ([[1, 0, 0, 4, 16], EMPTY, [1, 4, 16, 1, 1]], None),
        (
            [[1, 0, 0, 4, 16], EMPTY, [1, 4, 15, 1, 1]],
            Some((ElfField::Segment, 176)),
        ),
        (
            [[1, 0, 0, 0, 16], EMPTY, [1, 4, 15, 0, 1]],
            Some((ElfField::Segment, 176)),
        ),
        (
            [[1, 0, 0, 4, 16], [1, 229, 16, 4, 4], [2, 0, 0, 0, 0]],
            Some((ElfField::Short, 232)),
        ),
        ([[1, u64::MAX, 0, 0, 16], EMPTY, [7, 0, 0, 9, 1]], None),
    ] {
        let mut file = start_of_file(alloc, 3)?;
        for header in headers {
            push_header(&mut file, header)?;
        }
        assert_eq!(rt; fault_of(alloc, file.as_slice())?, fault);
    }
    Ok(())
}

#[test]
fn reads_up_to_64_segments(rt: HostRuntime) -> Result<(), Fail> {
    let alloc = rt.alloc();
    for (file_size, fault) in [(0, None), (1, Some((ElfField::Segment, 3648)))] {
        let mut file = start_of_file(alloc, 65)?;
        for n in 0..64 {
            push_header(&mut file, [1, 0, n, 1, 1])?;
        }
        push_header(&mut file, [1, 0, 64, file_size, 1])?;
        assert_eq!(rt; fault_of(alloc, file.as_slice())?, fault);
    }
    Ok(())
}

#[test]
fn each_field_has_its_word(rt: HostRuntime) -> Result<(), Fail> {
    for (field, name) in [
        (ElfField::Magic, "magic"),
        (ElfField::Class, "class"),
        (ElfField::Data, "data"),
        (ElfField::Version, "version"),
        (ElfField::Type, "type"),
        (ElfField::Machine, "machine"),
        (ElfField::Entry, "entry"),
        (ElfField::Headers, "headers"),
        (ElfField::Dynamic, "dynamic"),
        (ElfField::Segment, "segment"),
        (ElfField::Short, "short"),
    ] {
        assert_eq!(rt; field.name(), name);
    }
    Ok(())
}
