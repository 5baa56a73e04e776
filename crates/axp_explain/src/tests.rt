ghost use Rattle.std.specs.Prelude.{◌≤◌, length};

use super::*;
use axp_base::{Bytes, NoMemory};
use axp_elf::ElfField;
use axp_image::{Image, ImageKind, KSEG, write_image};
use axp_io::TableDesk;
use axp_top::Status;
use axp_words::Word;
use std::alloc::Global;
use std::test::Fail;

/// STQ R1, 0(R30), then MB.
const STORE_AND_BARRIER: [u8; 8] = [0, 0, 0x3E, 0xB4, 0, 0x40, 0, 0x60];

/// One page of memory that is all zero.
const ZEROS: [u8; 40] = [
    0x41, 0x58, 0x50, 0x49, 1, 0, 0, 0, // magic, version, count
    0, 0x20, 0, 0, 0, 0, 0, 0, // size
    0, 0, 0, 0, 0, 0xFC, 0xFF, 0xFF, // entry
    0, 0, 0, 0, 0, 0, 0, 0, // stack
    0, 0, 0, 0, 0, 0, 0, 0, // table
];

/// The file of the image that has this code at its entry.
fn file_of(alloc: Global, code: &[u8]) -> Result<Bytes, NoMemory>
    requires least { 1 ≤ length code.now }
    requires most { length code.now ≤ 64 }
{
    let mut image = Image::start(alloc, 0x8000, KSEG + 0x2000, KSEG + 0x4000, 0)?;
    image.add(alloc, 0x2000, code)?;
    write_image(alloc, &image)
}

/// The words of a replay of these two files.
fn words(alloc: Global) -> Result<Vec<Word>, NoMemory> {
    let mut words = Vec::new(alloc);
    for text in ["replay", "image", "list"] {
        words.push(Word::new(alloc, text)?)?;
    }
    Ok(words)
}

/// Whether the line for a person is this one, where these are the files and the status.
fn tells(
    alloc: Global,
    image: &[u8],
    list: &str,
    status: Status,
    line: Option<&str>,
) -> Result<bool, NoMemory> {
    let mut desk = TableDesk::new(alloc, &[])?;
    desk.add(alloc, "image", image)?;
    desk.add(alloc, "list", list.as_bytes())?;
    let words = words(alloc)?;
    match (explain(alloc, words.as_slice(), &mut desk, status)?, line) {
        (Some(text), Some(line)) => Ok(text.as_slice() == line.as_bytes()),
        (None, None) => Ok(true),
        _ => Ok(false),
    }
}

#[test]
fn an_event_that_is_not_legal_has_its_reason(rt: HostRuntime) -> Result<(), Fail> {
    let file = file_of(rt.alloc(), &STORE_AND_BARRIER)?;
    let rows: [(&str, u32, &str); 10] = [
        (
            "0 step\n",
            1,
            "axp: list, line 2: a read of a line that the bank does not hold: a fill must come before it\n",
        ),
        (
            "0 fill\n0 fill\n",
            2,
            "axp: list, line 3: the processor filled a line, and its step must come next\n",
        ),
        (
            "0 fill\n0 step\n0 poll\n",
            3,
            "axp: list, line 4: the processor is not at a boundary: it is between two accesses of one instruction or entry\n",
        ),
        (
            "0 fill\n0 step\n0 step\n0 fill\n",
            4,
            "axp: list, line 5: a fill of a line that the bank holds\n",
        ),
        (
            "0 fill\n0 step\n0 step\n0 drain 1\n",
            4,
            "axp: list, line 5: a drain past the oldest group of the write buffer: the group has no entry of this number\n",
        ),
        (
            "0 fill\n0 step\n0 step\n0 step\n0 step\n",
            5,
            "axp: list, line 6: a barrier while a write waits in the write buffer: it must be drained before\n",
        ),
        (
            "1 take 0\n",
            1,
            "axp: list, line 2: there is nothing to take: no invalidation is late for this bank\n",
        ),
        (
            "0 drop i 00002000\n",
            1,
            "axp: list, line 2: a drop of a line that the bank does not hold\n",
        ),
        (
            "0 poll\n0 poll\n",
            2,
            "axp: list, line 3: a second poll since the processor's last step\n",
        ),
        (
            "0 tick\n",
            1,
            "axp: list, line 2: the processor takes no interrupt: its interrupt level is 5 or above\n",
        ),
    ];
    for (events, event, line) in &rows {
        let mut list = String::new(rt.alloc());
        list.push_str("axp-events 1 cpus 2 budget 9\n")?;
        list.push_str(events)?;
        let status = Status::NotLegal { event: *event };
        assert!(rt;
            tells(
                rt.alloc(),
                file.as_slice(),
                list.as_str(),
                status,
                Some(line)
            )?
        );
    }
    Ok(())
}

#[test]
fn a_finished_processor_and_a_full_buffer_are_named(rt: HostRuntime) -> Result<(), Fail> {
    let halts = "axp-events 1 cpus 2 budget 1\n0 fill\n0 step\n0 step\n";
    let finished =
        "axp: list, line 4: the processor is finished (halted, or its budget of steps made), and may drain alone\n";
    assert!(rt;
        tells(
            rt.alloc(),
            &ZEROS,
            halts,
            Status::NotLegal { event: 3 },
            Some(finished)
        )?
    );
    // Nine stores of R31, each to a line of its own.
    let mut code = [0_u8; 36];
    for k in 0..9_usize {
        let displacement = 64 * k as u16;
        code[4 * k] = (displacement % 256) as u8;
        code[4 * k + 1] = (displacement / 256) as u8;
        code[4 * k + 2] = 0xFE;
        code[4 * k + 3] = 0xB7;
    }
    let file = file_of(rt.alloc(), &code)?;
    let mut list = String::new(rt.alloc());
    list.push_str("axp-events 1 cpus 2 budget 18\n0 fill\n")?;
    for _ in 0..18_u8 {
        list.push_str("0 step\n")?;
    }
    let full =
        "axp: list, line 20: the write buffer is full: it has 8 entries, and none takes this write\n";
    let status = Status::NotLegal { event: 19 };
    assert!(rt;
        tells(
            rt.alloc(),
            file.as_slice(),
            list.as_str(),
            status,
            Some(full)
        )?
    );
    Ok(())
}

#[test]
fn a_line_outside_the_grammar_has_its_fault(rt: HostRuntime) -> Result<(), Fail> {
    let rows: [(&str, u32, &str); 8] = [
        (
            "axp-events 1 cpus 2 budget 9\r\n",
            1,
            "axp: list, line 1: the line ends with a carriage return: lines end with a line feed alone\n",
        ),
        (
            "axp-events 1 cpus 9 budget 9\n",
            1,
            "axp: list, line 1: the first line is no header: an event list begins with axp-events 1 cpus N budget B, a trace with axp-trace 1 cpus N budget B memory M\n",
        ),
        (
            "",
            1,
            "axp: list, line 1: the file ends before this line, which it must have\n",
        ),
        (
            "axp-events 1 cpus 2 budget 9\n0 fill\n0 step \n",
            3,
            "axp: list, line 3: a space stands at the end of the line\n",
        ),
        (
            "axp-events 1 cpus 2 budget 9\n2 step\n",
            2,
            "axp: list, line 2: the first line has fewer processors than this: they are numbered from 0\n",
        ),
        (
            "axp-events 1 cpus 8 budget 9\n10 step\n",
            2,
            "axp: list, line 2: the first line has fewer processors than this: they are numbered from 0\n",
        ),
        (
            "axp-events 1 cpus 2 budget 9\n0 walk\n",
            2,
            "axp: list, line 2: this is no line of the form (docs/FORMATS.md), or none that may stand here\n",
        ),
        (
            "axp-events 1 cpus 2 budget 9\n0 fill\n0 st",
            3,
            "axp: list, line 3: the last line does not end with a line feed\n",
        ),
    ];
    for (list, number, line) in &rows {
        let status = Status::BadTrace { line: *number };
        assert!(rt; tells(rt.alloc(), &ZEROS, list, status, Some(line))?);
    }
    Ok(())
}

#[test]
fn a_field_of_an_image_has_its_value_and_limits(rt: HostRuntime) -> Result<(), Fail> {
    let rows: [(usize, u8, ImageKind, u64, &str); 7] = [
        (
            0,
            0x42,
            ImageKind::Magic,
            0,
            "axp: image: the file does not begin with AXPI, as an image does\n",
        ),
        (
            4,
            2,
            ImageKind::Version,
            4,
            "axp: image: the version is 2: it must be 1\n",
        ),
        (
            6,
            65,
            ImageKind::Count,
            6,
            "axp: image: the number of segments is 65: it must be at most 64\n",
        ),
        (
            8,
            1,
            ImageKind::Size,
            8,
            "axp: image: the size of memory is 8193: it must be a multiple of 8192 from 8192 to 16777216\n",
        ),
        (
            16,
            2,
            ImageKind::Entry,
            16,
            "axp: image: the entry address is FFFFFC0000000002: it must be a multiple of 4 within the 8192 bytes from FFFFFC0000000000 on\n",
        ),
        (
            32,
            1,
            ImageKind::Table,
            32,
            "axp: image: the page table begins on page 1: it must be one of the 1 pages of memory, counted from 0\n",
        ),
        (
            6,
            1,
            ImageKind::Short,
            40,
            "axp: image: the file ends after 40 bytes, inside of a field, a record or the segments' bytes\n",
        ),
    ];
    for (at, byte, kind, offset, line) in &rows {
        let mut file = ZEROS;
        file[*at] = *byte;
        let status = Status::BadImage {
            kind: *kind,
            offset: *offset,
        };
        assert!(rt; tells(rt.alloc(), &file, "", status, Some(line))?);
    }
    Ok(())
}

#[test]
fn other_refusals_have_a_line_and_what_is_done_has_none(rt: HostRuntime) -> Result<(), Fail> {
    let list = "axp-events 1 cpus 2 budget 9\n";
    let differs = "axp: list, line 1: the trace has another line here than the right one\n";
    let ends =
        "axp: list, line 1: the events end here, and a processor is not finished or a write waits in its buffer\n";
    assert!(rt;
        tells(
            rt.alloc(),
            &ZEROS,
            list,
            Status::Differs { line: 1 },
            Some(differs)
        )?
    );
    assert!(rt;
        tells(
            rt.alloc(),
            &ZEROS,
            list,
            Status::Incomplete { event: 0 },
            Some(ends)
        )?
    );
    assert!(rt; tells(rt.alloc(), &ZEROS, list, Status::Done, None)?);
    assert!(rt; tells(rt.alloc(), &ZEROS, list, Status::WriteFault, None)?);
    let mut desk = TableDesk::new(rt.alloc(), &[2])?;
    desk.add(rt.alloc(), "image", &ZEROS)?;
    let words = words(rt.alloc())?;
    let told = explain(rt.alloc(), words.as_slice(), &mut desk, Status::ReadFault)?;
    let line = told.expect(&rt, "a read fault has a line");
    let text = "axp: list: the file could not be opened or read\n";
    assert!(rt; line.as_slice() == text.as_bytes());
    Ok(())
}

#[test]
fn a_seeded_run_has_a_line_for_its_image_alone(rt: HostRuntime) -> Result<(), Fail> {
    let mut words = Vec::new(rt.alloc());
    for text in ["seed", "image", "2", "5", "0"] {
        words.push(Word::new(rt.alloc(), text)?)?;
    }
    let mut desk = TableDesk::new(rt.alloc(), &[])?;
    desk.add(rt.alloc(), "image", &[])?;
    let status = Status::BadImage {
        kind: ImageKind::Short,
        offset: 0,
    };
    let told = explain(rt.alloc(), words.as_slice(), &mut desk, status)?;
    let line = told.expect(&rt, "a file that is no image has a line");
    let text =
        "axp: image: the file ends after 0 bytes, inside of a field, a record or the segments' bytes\n";
    assert!(rt; line.as_slice() == text.as_bytes());
    Ok(())
}

#[test]
fn tells_what_a_line_of_a_source_lacks(rt: HostRuntime) -> Result<(), Fail> {
    let alloc = rt.alloc();
    let mut words = Vec::new(alloc);
    for text in ["asm", "program.s"] {
        words.push(Word::new(alloc, text)?)?;
    }
    let mut desk = TableDesk::new(alloc, &[])?;
    let source = ".memory 8192\n.entry FFFFFC0000000000\n.stack 0000000000000000\n.table 0\n\
        halt\n.at 00000000\nx:\nBR R31,y\nBR R31, x\nhalt";
    desk.add(alloc, "program.s", source.as_bytes())?;
    for (line, told) in [
        (
            2,
            "axp: program.s, line 2: .entry and the entry address stand here, a multiple of 4 in memory, which begins at FFFFFC0000000000\n",
        ),
        (
            5,
            "axp: program.s, line 5: there is no .at line in front of these bytes, or they end behind memory\n",
        ),
        (
            6,
            "axp: program.s, line 6: a segment begins in memory, behind the segment before it, and has bytes; there are at most 64\n",
        ),
        (
            7,
            "axp: program.s, line 7: there is no .at line in front of this label, or a line before has the same label\n",
        ),
        (
            8,
            "axp: program.s, line 8: there is no .at line in front of this branch, it ends behind memory, or its label stands nowhere, too far away, or no whole number of words away\n",
        ),
        (
            9,
            "axp: program.s, line 9: the line is no directive, label or instruction; one blank stands between two words, and there are no other blanks and no comments\n",
        ),
        (
            10,
            "axp: program.s, line 10: the line has no line feed at its end\n",
        ),
    ] {
        let status = Status::BadSource { line };
        let text = explain(alloc, words.as_slice(), &mut desk, status)?.ok_or("no line")?;
        assert!(rt; text.as_slice() == told.as_bytes(), "{told}");
    }
    let long = explain(alloc, words.as_slice(), &mut desk, Status::TooLong)?.ok_or("no line")?;
    let told = "axp: program.s: the file is longer than 536870912 bytes\n";
    assert!(rt; long.as_slice() == told.as_bytes());
    Ok(())
}

#[test]
fn tells_the_field_of_an_executable(rt: HostRuntime) -> Result<(), Fail> {
    let alloc = rt.alloc();
    let mut words = Vec::new(alloc);
    for text in ["elf", "a.out", "8192", "0", "0"] {
        words.push(Word::new(alloc, text)?)?;
    }
    let mut desk = TableDesk::new(alloc, &[])?;
    let status = Status::BadElf {
        field: ElfField::Machine,
        offset: 18,
    };
    let line = b"axp: a.out: the machine is not 9026 hexadecimal, that of Alpha\n";
    let text = explain(alloc, words.as_slice(), &mut desk, status)?.ok_or("no line")?;
    assert!(rt; text.as_slice() == line.as_slice());
    assert!(rt; desk.asks().is_empty());
    Ok(())
}
