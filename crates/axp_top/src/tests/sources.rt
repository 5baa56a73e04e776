use super::*;
use axp_asm::MAX_SOURCE;

/// A load-locked and a store-conditional, and its image.
const SOURCE: &str = ".memory 32768\n\
    .entry FFFFFC0000002000\n\
    .stack FFFFFC0000004000\n\
    .table 0\n\
    .at 00002000\n\
    LDQ_L R1,0(R30)\n\
    STQ_C R1,16(R30)\n\
    halt\n";

const IMAGE: [u8; 68] = [
    0x41, 0x58, 0x50, 0x49, 1, 0, 1, 0, // magic, version, count
    0, 0x80, 0, 0, 0, 0, 0, 0, // size
    0, 0x20, 0, 0, 0, 0xFC, 0xFF, 0xFF, // entry
    0, 0x40, 0, 0, 0, 0xFC, 0xFF, 0xFF, // stack
    0, 0, 0, 0, 0, 0, 0, 0, // table
    0, 0x20, 0, 0, 0, 0, 0, 0, 12, 0, 0, 0, 0, 0, 0, 0, // the record
    0, 0, 0x3E, 0xAC, // LDQ_L
    0x10, 0, 0x3E, 0xBC, // STQ_C
    0, 0, 0, 0, // halt
];

/// Whether a command over a file is answered so, with this text, after one ask of so many bytes.
fn answers(
    alloc: Global,
    command: (&str, u64),
    file: &[u8],
    status: Status,
    text: &[u8],
) -> Result<bool, Fail> {
    let (verb, most) = command;
    let mut words = Vec::new(alloc);
    for word in [verb, "file"] {
        words.push(Word::new(alloc, word)?)?;
    }
    let mut desk = TableDesk::new(alloc, &[])?;
    desk.add(alloc, "file", file)?;
    let mut sink = ListSink::new(alloc, &[], 0)?;
    let answered = serve_plain(alloc, words.as_slice(), &mut desk, &mut sink);
    let asked = match desk.asks() {
        [ask] => ask.name.as_str() == "file" && ask.most == most,
        _ => false,
    };
    Ok(answered == status && sink.taken() == text && asked)
}

const ASM: (&str, u64) = ("asm", MAX_SOURCE);

const LIST: (&str, u64) = ("list", MAX_IMAGE_BYTES);

#[test]
fn prints_the_image_of_a_source_and_its_listing(rt: HostRuntime) -> Result<(), Fail> {
    let alloc = rt.alloc();
    let source = SOURCE.as_bytes();
    assert!(rt; answers(alloc, ASM, source, Status::Done, &IMAGE)?);
    assert!(rt; answers(alloc, LIST, &IMAGE, Status::Done, source)?);
    Ok(())
}

#[test]
fn refuses_a_source_and_an_image_to_list(rt: HostRuntime) -> Result<(), Fail> {
    let alloc = rt.alloc();
    let first = Status::BadSource { line: 1 };
    assert!(rt; answers(alloc, ASM, b"", first, b"axp: bad source at line 1\n")?);
    let cut = &SOURCE.as_bytes()[..SOURCE.len() - 1];
    let last = Status::BadSource { line: 8 };
    assert!(rt; answers(alloc, ASM, cut, last, b"axp: bad source at line 8\n")?);
    assert!(rt; last.number() == 15);
    let mut later = IMAGE;
    later[4] = 2;
    let version = Status::BadImage {
        kind: ImageKind::Version,
        offset: 4,
    };
    assert!(rt;
        answers(
            alloc,
            LIST,
            &later,
            version,
            b"axp: bad image version at 4\n"
        )?
    );
    Ok(())
}
