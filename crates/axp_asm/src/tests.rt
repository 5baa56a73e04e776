use super::*;
use axp_base::NoMemory;
use axp_image::{Image, read_image, write_image};
use std::alloc::Global;
use std::test::*;

/// The image of a load-locked and a store-conditional.
const LOCKED: [u8; 68] = [
    0x41, 0x58, 0x50, 0x49, 1, 0, 1, 0, // magic, version, count
    0, 0x80, 0, 0, 0, 0, 0, 0, // size
    0, 0x20, 0, 0, 0, 0xFC, 0xFF, 0xFF, // entry
    0, 0x40, 0, 0, 0, 0xFC, 0xFF, 0xFF, // stack
    0, 0, 0, 0, 0, 0, 0, 0, // table
    0, 0x20, 0, 0, 0, 0, 0, 0, 12, 0, 0, 0, 0, 0, 0, 0, // the record
    0, 0, 0x3E, 0xAC, 0x10, 0, 0x3E, 0xBC, 0, 0, 0, 0,
];

const LOCKED_LISTING: &str = ".memory 32768\n\
    .entry FFFFFC0000002000\n\
    .stack FFFFFC0000004000\n\
    .table 0\n\
    .at 00002000\n\
    LDQ_L R1,0(R30)\n\
    STQ_C R1,16(R30)\n\
    halt\n";

/// An image with segments whose address or length is not that of words, and with words that have
/// no line of an instruction.
const MIXED: [u8; 111] = [
    0x41, 0x58, 0x50, 0x49, 1, 0, 3, 0, // magic, version, count
    0, 0x40, 0, 0, 0, 0, 0, 0, // size
    0xFC, 0x3F, 0, 0, 0, 0xFC, 0xFF, 0xFF, // entry
    0xEF, 0xCD, 0xAB, 0x89, 0x67, 0x45, 0x23, 0x01, // stack
    1, 0, 0, 0, 0, 0, 0, 0, // table
    2, 0, 0, 0, 0, 0, 0, 0, 4, 0, 0, 0, 0, 0, 0, 0, // the first record
    8, 0, 0, 0, 0, 0, 0, 0, 3, 0, 0, 0, 0, 0, 0, 0, // the second
    0xF0, 0x3F, 0, 0, 0, 0, 0, 0, 16, 0, 0, 0, 0, 0, 0, 0, // the third
    0, 0, 0, 0, 0x0A, 0xFF, 0x10, // bytes
    0x03, 0x24, 0x22, 0x40, // an addition with a pad of 1
    0, 0, 0, 0x58, // floating point
    0, 0, 0, 0x04, // no instruction
    0xFF, 0xFF, 0xFF, 0xC3, // a branch to itself
];

const MIXED_LISTING: &str = ".memory 16384\n\
    .entry FFFFFC0000003FFC\n\
    .stack 0123456789ABCDEF\n\
    .table 1\n\
    .at 00000002\n\
    .byte 00\n\
    .byte 00\n\
    .byte 00\n\
    .byte 00\n\
    .at 00000008\n\
    .byte 0A\n\
    .byte FF\n\
    .byte 10\n\
    .at 00003FF0\n\
    .word 40222403\n\
    .word 58000000\n\
    .word 04000000\n\
    BR R31,-1\n";

/// A source with a line of each form.
const FORMS: &str = ".memory 8192\n\
    .entry FFFFFC0000000100\n\
    .stack 0000000000002000\n\
    .table 0\n\
    .at 00000100\n\
    start:\n\
    LDA R1,-1(R31)\n\
    BEQ R1,-5\n\
    BNE R1,start\n\
    RET R31,(R26),1\n\
    ADDQ R1,R2,R3\n\
    BIS R31,#255,R0\n\
    MB R0,R0\n\
    halt\n\
    .word DEADBEEF\n\
    .byte 7F\n";

/// Its image.
const FORMS_IMAGE: [u8; 93] = [
    0x41, 0x58, 0x50, 0x49, 1, 0, 1, 0, // magic, version, count
    0, 0x20, 0, 0, 0, 0, 0, 0, // size
    0, 1, 0, 0, 0, 0xFC, 0xFF, 0xFF, // entry
    0, 0x20, 0, 0, 0, 0, 0, 0, // stack
    0, 0, 0, 0, 0, 0, 0, 0, // table
    0, 1, 0, 0, 0, 0, 0, 0, 37, 0, 0, 0, 0, 0, 0, 0, // the record
    0xFF, 0xFF, 0x3F, 0x20, // LDA
    0xFB, 0xFF, 0x3F, 0xE4, // BEQ
    0xFD, 0xFF, 0x3F, 0xF4, // BNE
    0x01, 0x80, 0xFA, 0x6B, // RET
    0x03, 0x04, 0x22, 0x40, // ADDQ
    0x00, 0xF4, 0xFF, 0x47, // BIS
    0x00, 0x40, 0x00, 0x60, // MB
    0, 0, 0, 0, // halt
    0xEF, 0xBE, 0xAD, 0xDE, 0x7F,
];

/// First lines that fit together: two pages of memory.
const HEAD: &str = ".memory 16384\n\
    .entry FFFFFC0000000000\n\
    .stack 0000000000000000\n\
    .table 1\n";

/// The same with the most memory.
const LARGE_HEAD: &str = ".memory 16777216\n\
    .entry FFFFFC0000FFFFFC\n\
    .stack FFFFFFFFFFFFFFFF\n\
    .table 2047\n";

/// The image of a source, or its line at fault.
fn outcome(alloc: Global, text: &[u8]) -> Result<Result<Image, u32>, NoMemory> {
    if text.len() as u64 > MAX_SOURCE {
        return Err(NoMemory);
    }
    match assemble(alloc, text) {
        Ok(image) => Ok(Ok(image)),
        Err(AsmError::Bad { line }) => Ok(Err(line)),
        Err(AsmError::Memory) => Err(NoMemory),
    }
}

/// A text of two parts.
fn joined(alloc: Global, head: &str, body: &str) -> Result<Vec<u8>, NoMemory> {
    let mut text = Vec::from_slice(alloc, head.as_bytes())?;
    text.extend_from_slice(body.as_bytes())?;
    Ok(text)
}

/// The line at fault of a source; `None` where it gives an image.
fn fault_of(alloc: Global, text: &[u8]) -> Result<Option<u32>, NoMemory> {
    match outcome(alloc, text)? {
        Ok(_) => Ok(None),
        Err(line) => Ok(Some(line)),
    }
}

/// Whether a source gives the image of this file.
fn gives(alloc: Global, text: &[u8], file: &[u8]) -> Result<bool, NoMemory> {
    match outcome(alloc, text)? {
        Ok(image) => Ok(write_image(alloc, &image)?.as_slice() == file),
        Err(_) => Ok(false),
    }
}

#[test]
fn listings_are_written_and_read(rt: HostRuntime) -> Result<(), Fail> {
    let alloc = rt.alloc();
    for (file, text) in [
        (LOCKED.as_slice(), LOCKED_LISTING),
        (MIXED.as_slice(), MIXED_LISTING),
    ] {
        let image = read_image(alloc, file)?;
        assert_eq!(rt; listing(alloc, &image)?.as_slice(), text.as_bytes());
        assert!(rt; gives(alloc, text.as_bytes(), file)?);
    }
    assert!(rt; gives(alloc, FORMS.as_bytes(), &FORMS_IMAGE)?);
    Ok(())
}

#[test]
fn labels_stand_before_and_after_their_use(rt: HostRuntime) -> Result<(), Fail> {
    let alloc = rt.alloc();
    for (head, labelled, plain) in [
        (
            HEAD,
            ".at 00000100\nBR R31,after\nback:\nhalt\nafter:\nBEQ R0,back\n",
            ".at 00000100\nBR R31,1\nhalt\nBEQ R0,-2\n",
        ),
        // at the end of a segment, and in another one
        (
            HEAD,
            ".at 00000000\nBR R31,end\nend:\n.at 00000010\nBSR R26,end\nBR R31,next\nnext:\nhalt\n",
            ".at 00000000\nBR R31,0\n.at 00000010\nBSR R26,-4\nBR R31,0\nhalt\n",
        ),
        // in an unaligned segment
        (
            HEAD,
            ".at 00000001\nBR R31,x\n.byte 01\n.byte 02\n.byte 03\n.byte 04\nx:\n",
            ".at 00000001\nBR R31,1\n.byte 01\n.byte 02\n.byte 03\n.byte 04\n",
        ),
        // names that differ by case or length, and one that is a register's
        (
            HEAD,
            ".at 00000000\na:\nhalt\nA:\nhalt\naR1:\nR1:\nBR R1,a\nBR R1,A\nBR R1,aR1\nBR R1,R1\n",
            ".at 00000000\nhalt\nhalt\nBR R1,-3\nBR R1,-3\nBR R1,-3\nBR R1,-4\n",
        ),
        // as far as a branch leads
        (
            LARGE_HEAD,
            ".at 00000000\nBR R31,x\n.at 00400000\nx:\nhalt\n",
            ".at 00000000\nBR R31,1048575\n.at 00400000\nhalt\n",
        ),
        (
            LARGE_HEAD,
            ".at 00000000\nx:\nhalt\n.at 003FFFFC\nBR R31,x\n",
            ".at 00000000\nhalt\n.at 003FFFFC\nBR R31,-1048576\n",
        ),
    ] {
        let plain = joined(alloc, head, plain)?;
        let Ok(image) = outcome(alloc, plain.as_slice())? else {
            assert!(rt; false, "{labelled}");
            return Ok(());
        };
        let file = write_image(alloc, &image)?;
        let labelled_text = joined(alloc, head, labelled)?;
        assert!(rt;
            gives(alloc, labelled_text.as_slice(), file.as_slice())?,
            "{labelled}"
        );
    }
    Ok(())
}

#[test]
fn first_lines_at_fault_are_named(rt: HostRuntime) -> Result<(), Fail> {
    for (text, fault) in [
        ("", Some(1)),
        ("\n", Some(1)),
        (".memory 8192", Some(1)),
        (".memory 8192\n", Some(2)),
        (".memory 8192\n.entry FFFFFC0000000000\n", Some(3)),
        (
            ".memory 8192\n.entry FFFFFC0000000000\n.stack 0000000000000000\n",
            Some(4),
        ),
        (
            ".memory 8192\n.entry FFFFFC0000001FFC\n.stack FFFFFFFFFFFFFFFF\n.table 0\n",
            None,
        ),
        // another order
        (
            ".entry FFFFFC0000000000\n.memory 8192\n.stack 0000000000000000\n.table 0\n",
            Some(1),
        ),
        (
            ".memory 8192\n.stack 0000000000000000\n.entry FFFFFC0000000000\n.table 0\n",
            Some(2),
        ),
        (
            ".memory 8192\n.entry FFFFFC0000000000\n.table 0\n.stack 0000000000000000\n",
            Some(3),
        ),
        (
            ".memory 8192\n.entry FFFFFC0000000000\n.stack 0000000000000000\n.at 00000000\nhalt\n",
            Some(4),
        ),
        ("x:\n.memory 8192\n", Some(1)),
        ("halt\n.memory 8192\n", Some(1)),
        // refused sizes
        (".memory 0\n", Some(1)),
        (".memory 8191\n", Some(1)),
        (".memory 12288\n", Some(1)),
        (".memory 16785408\n", Some(1)),
        // refused entry addresses
        (".memory 8192\n.entry 0000000000000000\n", Some(2)),
        (".memory 8192\n.entry FFFFFBFFFFFFFFFC\n", Some(2)),
        (".memory 8192\n.entry FFFFFC0000000002\n", Some(2)),
        (".memory 8192\n.entry FFFFFC0000002000\n", Some(2)),
        // a refused page
        (
            ".memory 8192\n.entry FFFFFC0000000000\n.stack 0000000000000000\n.table 1\n",
            Some(4),
        ),
        // the first line that is no statement decides
        (
            ".memory 0\n.entry 0000000000000000\n.byte\nhalt \n",
            Some(3),
        ),
    ] {
        let found = fault_of(rt.alloc(), text.as_bytes())?;
        assert_eq!(rt; found, fault, "{text}");
    }
    Ok(())
}

#[test]
fn lines_behind_them_at_fault_are_named(rt: HostRuntime) -> Result<(), Fail> {
    for (body, fault) in [
        ("", None),
        // before the first segment
        ("halt\n.at 00000000\nhalt\n", Some(5)),
        (".byte 00\n.byte 00\n", Some(5)),
        ("x:\n.at 00000000\nhalt\n", Some(5)),
        // no bytes
        (".at 00000000\n", Some(5)),
        (".at 00000000\nx:\n", Some(5)),
        (".at 00000000\nx:\n.at 00000000\nhalt\n", Some(5)),
        (".at 00000000\nx:\n.byte 00\ny:\n", None),
        // in memory
        (".at 00004000\n.byte 00\n", Some(5)),
        (".at FFFFFFFF\n.byte 00\n", Some(5)),
        (".at 00003FFF\n.byte 00\n", None),
        (".at 00003FFF\n.byte 00\nx:\n.byte 00\n", Some(8)),
        (".at 00003FFD\nhalt\n", Some(6)),
        (".at 00003FFC\nhalt\n", None),
        // labels
        (".at 00000000\nx:\nhalt\nx:\n", Some(8)),
        (".at 00000000\nx:\nx:\nhalt\n", Some(7)),
        (".at 00000000\nBR R31,x\nhalt\nx:\nx:\n", Some(9)),
        (".at 00000000\nhalt\nBR R31,x\nBR R31,x\n", Some(7)),
        (".at 00000000\nBR R31,y\ny1:\nY:\nhalt\n", Some(6)),
        (".at 00000000\nBR R31,x\n.byte 00\nx:\n", Some(6)),
        (".at 00000000\nx:\n.byte 00\nBR R31,x\n", Some(8)),
        // order
        (".at 00000004\nhalt\n.at 00000007\nhalt\n", Some(7)),
        (".at 00000004\nhalt\n.at 00000000\nhalt\n", Some(7)),
        (".at 00000004\nhalt\n.at 00000004\nhalt\n", Some(7)),
        (".at 00000004\nhalt\n.at 00000008\nhalt\n", None),
        // a first line once more
        (".memory 16384\n", Some(5)),
        (".at 00000000\nhalt\n.table 1\n", Some(7)),
        (".at 00000000\n.entry FFFFFC0000000000\nhalt\n", Some(6)),
        (".at 00000000\n.stack 0000000000000000\n", Some(5)),
        // no statement
        (".at 00000000\nhalt", Some(6)),
        (".at 00000000\nhalt\n\n", Some(7)),
        ("halt\nhalt\nHALT\nhalt", Some(7)),
        (".at 00000000\nLDA R1,32768(R31)\n", Some(6)),
        (".at 00000000\nhalt\r\n", Some(6)),
    ] {
        let text = joined(rt.alloc(), HEAD, body)?;
        let found = fault_of(rt.alloc(), text.as_slice())?;
        assert_eq!(rt; found, fault, "{body}");
    }
    Ok(())
}

#[test]
fn branches_lead_no_farther(rt: HostRuntime) -> Result<(), Fail> {
    for (body, fault) in [
        (".at 00000000\nBR R31,x\n.at 00400004\nx:\nhalt\n", Some(6)),
        (".at 00000000\nx:\nhalt\n.at 00400000\nBR R31,x\n", Some(9)),
        (".at 00000000\nBR R31,x\n.at 00800004\nx:\nhalt\n", Some(6)),
        (".at 00FFFFFC\nhalt\n", None),
        (".at 01000000\nhalt\n", Some(5)),
    ] {
        let text = joined(rt.alloc(), LARGE_HEAD, body)?;
        let found = fault_of(rt.alloc(), text.as_slice())?;
        assert_eq!(rt; found, fault, "{body}");
    }
    Ok(())
}

const DIGITS: [u8; 16] = *b"0123456789ABCDEF";

#[test]
fn a_source_has_up_to_64_segments(rt: HostRuntime) -> Result<(), Fail> {
    let alloc = rt.alloc();
    let mut text = Vec::from_slice(alloc, HEAD.as_bytes())?;
    for n in 0..65_usize {
        let fault = fault_of(alloc, text.as_slice())?;
        assert_eq!(rt; fault, None, "{n} segments");
        text.extend_from_slice(".at 000000".as_bytes())?;
        text.extend_from_slice(&[DIGITS[n / 16], DIGITS[n % 16]])?;
        text.extend_from_slice("\n.byte 00\n".as_bytes())?;
    }
    assert_eq!(rt; fault_of(alloc, text.as_slice())?, Some(133));
    Ok(())
}
