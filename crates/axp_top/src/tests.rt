use super::*;
use axp_image::ImageKind;
use axp_io::{ListSink, TableDesk};
use std::alloc::Global;
use std::test::Fail;

mod checks;
mod entries;
mod executables;
mod locks;
mod seeds;
mod shared_memory;
mod sources;
mod summaries;
mod traces;
mod translation;
mod worked;

/// One page of memory that is all zero, so that each processor's first instruction halts.
const ZEROS: [u8; 40] = [
    0x41, 0x58, 0x50, 0x49, 1, 0, 0, 0, // magic, version, count
    0, 0x20, 0, 0, 0, 0, 0, 0, // size
    0, 0, 0, 0, 0, 0xFC, 0xFF, 0xFF, // entry
    0, 0, 0, 0, 0, 0, 0, 0, // stack
    0, 0, 0, 0, 0, 0, 0, 0, // table
];

const LIST_HEADER: &str = "axp-events 1 cpus 2 budget 1\n";

const TEXT_HEADER: &str = "axp-trace 1 cpus 2 budget 1 memory 8192\n";

/// Both processors halt.
const HALTS: &str = "0 fill\n0 step\n1 fill\n1 step\n";

const HALTS_PRINTED: &str = "0 fill : i 00000000 @0\n\
    0 step : i 00000000 00000000 @0\n\
    1 fill : i 00000000 @0\n\
    1 step : i 00000000 00000000 @0\n\
    cpu 0 halt 1 steps 1 pc FFFFFC0000000004\n\
    cpu 1 halt 1 steps 1 pc FFFFFC0000000004\n\
    reg 1 16 0000000000000001\n\
    console -\n\
    end 4\n";

const READ_FAULT: &str = "axp: read fault\n";

/// How a call of `serve_plain` over two files ends.
#[derive(Drop)]
struct Call {
    /// The words of the command line.
    words: [&'static str; 3],
    /// The number of the fetch that fails, from 1; 0 for none.
    failing_fetch: u32,
    /// The number of the put that fails without a byte, from 1; 0 for none.
    failing_put: u32,
    status: Status,
    /// The number of names that were asked for.
    asks: usize,
}

/// The words of a command over both files.
const REPLAY: [&str; 3] = ["replay", "image", "events"];

/// The call of that command which ends with this status, where nothing fails outside.
fn replayed(status: Status, asks: usize) -> Call {
    Call {
        words: REPLAY,
        failing_fetch: 0,
        failing_put: 0,
        status,
        asks,
    }
}

/// Whether a call over these files ends so, with this text.
fn gives(
    alloc: Global,
    call: &Call,
    image: &[u8],
    events: &[u8],
    text: &[u8],
) -> Result<bool, Fail> {
    let mut desk = TableDesk::new(alloc, &[call.failing_fetch])?;
    desk.add(alloc, "image", image)?;
    desk.add(alloc, "events", events)?;
    let mut sink = ListSink::new(alloc, &[call.failing_put], 0)?;
    let mut words = Vec::new(alloc);
    for word in call.words {
        words.push(Word::new(alloc, word)?)?;
    }
    let status = serve_plain(alloc, words.as_slice(), &mut desk, &mut sink);
    Ok(status == call.status && sink.taken() == text && desk.asks().len() == call.asks)
}

/// Two texts, one behind the other.
fn joined(alloc: Global, text: &str, rest: &str) -> Result<Vec<u8>, Fail> {
    let mut both = Vec::from_slice(alloc, text.as_bytes())?;
    both.extend_from_slice(rest.as_bytes())?;
    Ok(both)
}

/// How a list of events over the page of zeros ends: its lines behind the header, and what is
/// printed behind the header's line.
#[derive(Drop)]
struct Ended {
    events: &'static str,
    printed: &'static str,
    status: Status,
}

/// Whether lists end so.
fn all_end(alloc: Global, lists: &[Ended]) -> Result<bool, Fail> {
    let mut all = true;
    for list in lists {
        let events = joined(alloc, LIST_HEADER, list.events)?;
        let text = joined(alloc, TEXT_HEADER, list.printed)?;
        let call = replayed(list.status, 2);
        all &= gives(alloc, &call, &ZEROS, events.as_slice(), text.as_slice())?;
    }
    Ok(all)
}

#[test]
fn prints_the_run_of_an_event_list(rt: HostRuntime) -> Result<(), Fail> {
    let halts = Ended {
        events: HALTS,
        printed: HALTS_PRINTED,
        status: Status::Done,
    };
    assert!(rt; all_end(rt.alloc(), &[halts])?);
    Ok(())
}

#[test]
fn ends_at_the_first_event_that_is_not_legal(rt: HostRuntime) -> Result<(), Fail> {
    let lists = [
        // the code bank does not hold the line
        Ended {
            events: "0 step\n",
            printed: "axp: not legal at event 1\n",
            status: Status::NotLegal { event: 1 },
        },
        // a finished processor steps
        Ended {
            events: "0 fill\n0 step\n0 step\n1 fill\n",
            printed: "0 fill : i 00000000 @0\n\
                0 step : i 00000000 00000000 @0\n\
                axp: not legal at event 3\n",
            status: Status::NotLegal { event: 3 },
        },
        // nothing waits in the buffer
        Ended {
            events: "1 drain 0\n",
            printed: "axp: not legal at event 1\n",
            status: Status::NotLegal { event: 1 },
        },
        // an interrupt at interrupt level 7
        Ended {
            events: "0 tick\n",
            printed: "axp: not legal at event 1\n",
            status: Status::NotLegal { event: 1 },
        },
    ];
    assert!(rt; all_end(rt.alloc(), &lists)?);
    Ok(())
}

#[test]
fn ends_at_the_first_line_that_is_no_event(rt: HostRuntime) -> Result<(), Fail> {
    let lists = [
        // no processor has number 2
        Ended {
            events: "2 step\n",
            printed: "axp: bad trace at line 2\n",
            status: Status::BadTrace { line: 2 },
        },
        // a line that is no event
        Ended {
            events: "0 fill\n0 walk\n",
            printed: "0 fill : i 00000000 @0\naxp: bad trace at line 3\n",
            status: Status::BadTrace { line: 3 },
        },
        // a last line without its line feed
        Ended {
            events: "0 fill\n0 step",
            printed: "0 fill : i 00000000 @0\naxp: bad trace at line 3\n",
            status: Status::BadTrace { line: 3 },
        },
    ];
    assert!(rt; all_end(rt.alloc(), &lists)?);
    Ok(())
}

#[test]
fn ends_where_the_list_is_incomplete(rt: HostRuntime) -> Result<(), Fail> {
    let lists = [
        // no event at all
        Ended {
            events: "",
            printed: "axp: incomplete after event 0\n",
            status: Status::Incomplete { event: 0 },
        },
        // nothing is requested, and no processor stepped
        Ended {
            events: "1 poll\n",
            printed: "1 poll : 0 @0 stay\naxp: incomplete after event 1\n",
            status: Status::Incomplete { event: 1 },
        },
        // processor 1 is not finished
        Ended {
            events: "0 fill\n0 step\n",
            printed: "0 fill : i 00000000 @0\n\
                0 step : i 00000000 00000000 @0\n\
                axp: incomplete after event 2\n",
            status: Status::Incomplete { event: 2 },
        },
    ];
    assert!(rt; all_end(rt.alloc(), &lists)?);
    Ok(())
}

/// The greatest budget is served.
#[test]
fn serves_the_greatest_budget(rt: HostRuntime) -> Result<(), Fail> {
    let call = replayed(Status::Incomplete { event: 0 }, 2);
    let events = "axp-events 1 cpus 2 budget 32768\n";
    let text = "axp-trace 1 cpus 2 budget 32768 memory 8192\naxp: incomplete after event 0\n";
    assert!(rt;
        gives(
            rt.alloc(),
            &call,
            &ZEROS,
            events.as_bytes(),
            text.as_bytes()
        )?
    );
    Ok(())
}

#[test]
fn asks_nothing_for_unknown_words(rt: HostRuntime) -> Result<(), Fail> {
    for words in [
        ["replay", "", "events"],
        ["replay", "image", ""],
        ["Replay", "image", "events"],
    ] {
        let call = Call {
            words,
            ..replayed(Status::Usage, 0)
        };
        let events = LIST_HEADER.as_bytes();
        assert!(rt; gives(rt.alloc(), &call, &ZEROS, events, b"axp: usage\n")?);
    }
    Ok(())
}

#[test]
fn prints_one_line_for_a_refused_file(rt: HostRuntime) -> Result<(), Fail> {
    let kind = ImageKind::Short;
    let bad_image = replayed(Status::BadImage { kind, offset: 4 }, 1);
    let events = LIST_HEADER.as_bytes();
    let text = b"axp: bad image short at 4\n";
    assert!(rt; gives(rt.alloc(), &bad_image, b"AXPI", events, text)?);
    let bad_trace = replayed(Status::BadTrace { line: 1 }, 2);
    let text = b"axp: bad trace at line 1\n";
    for events in [
        "",
        "axp-events 1 cpus 1 budget 1\n",
        "axp-events 1 cpus 2 budget 1",
        "axp-trace 1 cpus 2 budget 1\n",
    ] {
        assert!(rt; gives(rt.alloc(), &bad_trace, &ZEROS, events.as_bytes(), text)?);
    }
    Ok(())
}

/// A file one byte longer than an image may be is refused, and the list is not asked for.
#[test]
fn refuses_a_long_image(rt: HostRuntime) -> Result<(), Fail> {
    let long = vec![in rt.alloc(); 0_u8; 33_554_433]?;
    let call = replayed(Status::TooLong, 1);
    let events = LIST_HEADER.as_bytes();
    assert!(rt;
        gives(
            rt.alloc(),
            &call,
            long.as_slice(),
            events,
            b"axp: too long\n"
        )?
    );
    Ok(())
}

/// Whether a call over the list of two halts ends so, with this text.
fn halts_give(alloc: Global, call: &Call, text: &str) -> Result<bool, Fail> {
    let events = joined(alloc, LIST_HEADER, HALTS)?;
    gives(alloc, call, &ZEROS, events.as_slice(), text.as_bytes())
}

#[test]
fn tells_that_the_desk_failed(rt: HostRuntime) -> Result<(), Fail> {
    for (words, failing_fetch, asks) in [
        (REPLAY, 1, 1),
        (REPLAY, 2, 2),
        // no list has the name
        (["replay", "absent", "events"], 0, 1),
        (["replay", "image", "absent"], 0, 2),
    ] {
        let call = Call {
            words,
            failing_fetch,
            ..replayed(Status::ReadFault, asks)
        };
        assert!(rt; halts_give(rt.alloc(), &call, READ_FAULT)?);
    }
    Ok(())
}

#[test]
fn tells_that_the_sink_failed(rt: HostRuntime) -> Result<(), Fail> {
    for (failing_fetch, failing_put, text, asks) in [
        (1, 1, "", 1),
        (0, 1, "", 2),
        (0, 2, TEXT_HEADER, 2),
    ] {
        let call = Call {
            failing_fetch,
            failing_put,
            ..replayed(Status::WriteFault, asks)
        };
        assert!(rt; halts_give(rt.alloc(), &call, text)?);
    }
    Ok(())
}

#[test]
fn each_status_has_its_number(rt: HostRuntime) {
    let kind = ImageKind::Short;
    assert_eq!(rt; Status::Done.number(), 0);
    assert_eq!(rt; Status::Usage.number(), 1);
    assert_eq!(rt; Status::ReadFault.number(), 2);
    assert_eq!(rt; Status::WriteFault.number(), 3);
    assert_eq!(rt; Status::BadImage { kind, offset: 5 }.number(), 4);
    assert_eq!(rt; Status::BadTrace { line: 5 }.number(), 5);
    assert_eq!(rt; Status::NotLegal { event: 5 }.number(), 6);
    assert_eq!(rt; Status::Differs { line: 5 }.number(), 7);
    assert_eq!(rt; Status::Incomplete { event: 5 }.number(), 9);
    assert_eq!(rt; Status::TooLong.number(), 10);
    assert_eq!(rt; Status::Memory.number(), 11);
}
