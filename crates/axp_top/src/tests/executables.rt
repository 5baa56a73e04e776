use super::*;
use axp_elf::ElfField;

/// A program of one word, the first of memory.
const PROGRAM: [u8; 124] = [
    0x7F, 0x45, 0x4C, 0x46, 2, 1, 1, 0, 0, 0, 0, 0, 0, 0, 0, 0, // magic, class, data, version
    2, 0, 0x26, 0x90, 1, 0, 0, 0, // type, machine, version
    0, 0, 0, 0, 0, 0xFC, 0xFF, 0xFF, // entry
    0x40, 0, 0, 0, 0, 0, 0, 0, // offset of the program headers
    0, 0, 0, 0, 0, 0, 0, 0, 0, 0, 0, 0, 0x40, 0, // not read
    0x38, 0, 1, 0, 0, 0, 0, 0, 0, 0, // size and number of program headers
    1, 0, 0, 0, 5, 0, 0, 0, // the program header: its type
    0x78, 0, 0, 0, 0, 0, 0, 0, // offset
    0, 0, 0, 0, 0, 0xFC, 0xFF, 0xFF, // virtual address
    0, 0, 0, 0, 0, 0xFC, 0xFF, 0xFF, // not read
    4, 0, 0, 0, 0, 0, 0, 0, // size in the file
    4, 0, 0, 0, 0, 0, 0, 0, // size in memory
    0, 0x20, 0, 0, 0, 0, 0, 0, // not read
    0, 0, 0, 0, // the word
];

/// Its image in one page of memory: that of zeros, with a segment.
const IMAGE: [u8; 60] = [
    0x41, 0x58, 0x50, 0x49, 1, 0, 1, 0, // magic, version, count
    0, 0x20, 0, 0, 0, 0, 0, 0, // size
    0, 0, 0, 0, 0, 0xFC, 0xFF, 0xFF, // entry
    0, 0, 0, 0, 0, 0, 0, 0, // stack
    0, 0, 0, 0, 0, 0, 0, 0, // table
    0, 0, 0, 0, 0, 0, 0, 0, 4, 0, 0, 0, 0, 0, 0, 0, // the record
    0, 0, 0, 0, // the word
];

/// Whether the image of a file in one page of memory is answered so, with this text, after one ask.
fn answers(alloc: Global, file: &[u8], status: Status, text: &[u8]) -> Result<bool, Fail> {
    let mut words = Vec::new(alloc);
    for word in ["elf", "file", "8192", "0", "0"] {
        words.push(Word::new(alloc, word)?)?;
    }
    let mut desk = TableDesk::new(alloc, &[])?;
    desk.add(alloc, "file", file)?;
    let mut sink = ListSink::new(alloc, &[], 0)?;
    let answered = serve_plain(alloc, words.as_slice(), &mut desk, &mut sink);
    Ok(answered == status && sink.taken() == text && desk.asks().len() == 1)
}

#[test]
fn prints_the_image_of_an_executable(rt: HostRuntime) -> Result<(), Fail> {
    assert!(rt; answers(rt.alloc(), &PROGRAM, Status::Done, &IMAGE)?);
    Ok(())
}

#[test]
fn refuses_a_file_that_is_no_executable(rt: HostRuntime) -> Result<(), Fail> {
    let short = Status::BadElf {
        field: ElfField::Short,
        offset: 123,
    };
    let cut = &PROGRAM[..123];
    assert!(rt; answers(rt.alloc(), cut, short, b"axp: bad elf short at 123\n")?);
    let magic = Status::BadElf {
        field: ElfField::Magic,
        offset: 0,
    };
    assert!(rt; answers(rt.alloc(), &IMAGE, magic, b"axp: bad elf magic at 0\n")?);
    assert!(rt; magic.number() == 14);
    Ok(())
}
