//! A trace that is replayed: the right one prints itself, and one that was altered is answered by
//! the earliest line that is not right.
use super::{HALTS_PRINTED, TEXT_HEADER, ZEROS, gives, joined, replayed};
use crate::Status;
use std::alloc::Global;
use std::test::Fail;

/// The lines of the events of two halts, and those of the tail.
const EVENTS: [&str; 4] = [
    "0 fill : i 00000000 @0\n",
    "0 step : i 00000000 00000000 @0\n",
    "1 fill : i 00000000 @0\n",
    "1 step : i 00000000 00000000 @0\n",
];

const TAIL: [&str; 5] = [
    "cpu 0 halt 1 steps 1 pc FFFFFC0000000004\n",
    "cpu 1 halt 1 steps 1 pc FFFFFC0000000004\n",
    "reg 1 16 0000000000000001\n",
    "console -\n",
    "end 4\n",
];

/// An altered trace over the page of zeros: its lines behind the header, in pieces, and what is
/// printed behind the header's line, in pieces.
#[derive(Drop)]
struct Altered<'a> {
    lines: &'a [&'static str],
    printed: &'a [&'static str],
    status: Status,
}

/// The pieces, one behind the other, behind this header.
fn text(alloc: Global, header: &str, pieces: &[&'static str]) -> Result<Vec<u8>, Fail> {
    let mut all = Vec::from_slice(alloc, header.as_bytes())?;
    for piece in pieces {
        all.extend_from_slice(piece.as_bytes())?;
    }
    Ok(all)
}

/// Whether a trace ends so.
fn ends(alloc: Global, altered: &Altered<'_>) -> Result<bool, Fail> {
    let trace = text(alloc, TEXT_HEADER, altered.lines)?;
    let printed = text(alloc, TEXT_HEADER, altered.printed)?;
    let call = replayed(altered.status, 2);
    gives(alloc, &call, &ZEROS, trace.as_slice(), printed.as_slice())
}

#[test]
fn a_trace_prints_itself(rt: HostRuntime) -> Result<(), Fail> {
    let trace = joined(rt.alloc(), TEXT_HEADER, HALTS_PRINTED)?;
    let call = replayed(Status::Done, 2);
    assert!(rt;
        gives(
            rt.alloc(),
            &call,
            &ZEROS,
            trace.as_slice(),
            trace.as_slice()
        )?
    );
    Ok(())
}

#[test]
fn a_trace_may_have_no_tail(rt: HostRuntime) -> Result<(), Fail> {
    let trace = text(rt.alloc(), TEXT_HEADER, &EVENTS)?;
    let printed = joined(rt.alloc(), TEXT_HEADER, HALTS_PRINTED)?;
    let call = replayed(Status::Done, 2);
    assert!(rt;
        gives(
            rt.alloc(),
            &call,
            &ZEROS,
            trace.as_slice(),
            printed.as_slice()
        )?
    );
    Ok(())
}

#[test]
fn an_altered_event_line_is_answered_by_its_number(rt: HostRuntime) -> Result<(), Fail> {
    let [first, second, third, fourth] = EVENTS;
    for altered in [
        // another place
        Altered {
            lines: &["0 fill : i 00000000 @1\n", second, third, fourth],
            printed: &[
                "axp: differs at line 2\n",
                "trace: 0 fill : i 00000000 @1\n",
                "right: 0 fill : i 00000000 @0\n",
            ],
            status: Status::Differs { line: 2 },
        },
        // a drain of an entry that no write made, which is outside the grammar before it is not
        // legal
        Altered {
            lines: &[first, "0 drain 0 : e1 00000000 @1\n", third, fourth],
            printed: &[first, "axp: bad trace at line 3\n"],
            status: Status::BadTrace { line: 3 },
        },
        // no processor has number 2
        Altered {
            lines: &[first, second, "2 fill : i 00000000 @0\n", fourth],
            printed: &[first, second, "axp: bad trace at line 4\n"],
            status: Status::BadTrace { line: 4 },
        },
        // an event of a list
        Altered {
            lines: &[first, "0 step\n", third, fourth],
            printed: &[first, "axp: bad trace at line 3\n"],
            status: Status::BadTrace { line: 3 },
        },
        // two lines exchanged: the step is not legal, whatever it shows
        Altered {
            lines: &[second, first, third, fourth],
            printed: &["axp: not legal at event 1\n"],
            status: Status::NotLegal { event: 1 },
        },
        // the file ends within a line
        Altered {
            lines: &[first, "0 step : i 0000"],
            printed: &[first, "axp: bad trace at line 3\n"],
            status: Status::BadTrace { line: 3 },
        },
        // the file ends behind a line
        Altered {
            lines: &[first, second],
            printed: &[first, second, "axp: incomplete after event 2\n"],
            status: Status::Incomplete { event: 2 },
        },
        // the tail begins too early, which no line shows
        Altered {
            lines: &[first, second, "console -\n"],
            printed: &[first, second, "axp: incomplete after event 2\n"],
            status: Status::Incomplete { event: 2 },
        },
    ] {
        assert!(rt; ends(rt.alloc(), &altered)?);
    }
    Ok(())
}

/// The lines of the events, and of an altered tail behind them, end so.
fn tail_ends(
    alloc: Global,
    lines: &[&'static str],
    printed: &[&'static str],
    status: Status,
) -> Result<bool, Fail> {
    let mut trace = text(alloc, TEXT_HEADER, &EVENTS)?;
    let mut answer = text(alloc, TEXT_HEADER, &EVENTS)?;
    for line in lines {
        trace.extend_from_slice(line.as_bytes())?;
    }
    for line in printed {
        answer.extend_from_slice(line.as_bytes())?;
    }
    let call = replayed(status, 2);
    gives(alloc, &call, &ZEROS, trace.as_slice(), answer.as_slice())
}

#[test]
fn an_altered_tail_is_answered_by_its_line(rt: HostRuntime) -> Result<(), Fail> {
    let [zero, one, register, console, end] = TAIL;
    // a register's line is missing
    assert!(rt;
        tail_ends(
            rt.alloc(),
            &[zero, one, console, end],
            &[
                "axp: differs at line 8\n",
                "trace: console -\n",
                "right: reg 1 16 0000000000000001\n",
            ],
            Status::Differs { line: 8 },
        )?
    );
    // another number of events
    assert!(rt;
        tail_ends(
            rt.alloc(),
            &[zero, one, register, console, "end 5\n"],
            &[
                "axp: differs at line 10\n",
                "trace: end 5\n",
                "right: end 4\n"
            ],
            Status::Differs { line: 10 },
        )?
    );
    // the last line has no line feed
    assert!(rt;
        tail_ends(
            rt.alloc(),
            &[zero, one, register, console, "end 4"],
            &["axp: bad trace at line 10\n"],
            Status::BadTrace { line: 10 },
        )?
    );
    // two lines are missing
    assert!(rt;
        tail_ends(
            rt.alloc(),
            &[zero, one, register],
            &["axp: bad trace at line 9\n"],
            Status::BadTrace { line: 9 },
        )?
    );
    // one line is too many
    assert!(rt;
        tail_ends(
            rt.alloc(),
            &[zero, one, register, console, end, end],
            &["axp: bad trace at line 11\n"],
            Status::BadTrace { line: 11 },
        )?
    );
    // an event stands in the tail
    assert!(rt;
        tail_ends(
            rt.alloc(),
            &[zero, "0 poll : 0 @0 stay\n", register, console, end],
            &["axp: bad trace at line 7\n"],
            Status::BadTrace { line: 7 },
        )?
    );
    Ok(())
}

/// The right header is printed first, and then that the trace's is another.
#[test]
fn another_size_of_memory_differs_at_the_first_line(rt: HostRuntime) -> Result<(), Fail> {
    let header = "axp-trace 1 cpus 2 budget 1 memory 16384\n";
    let trace = joined(rt.alloc(), header, HALTS_PRINTED)?;
    let printed = text(
        rt.alloc(),
        TEXT_HEADER,
        &[
            "axp: differs at line 1\n",
            "trace: axp-trace 1 cpus 2 budget 1 memory 16384\n",
            "right: axp-trace 1 cpus 2 budget 1 memory 8192\n",
        ],
    )?;
    let call = replayed(Status::Differs { line: 1 }, 2);
    assert!(rt;
        gives(
            rt.alloc(),
            &call,
            &ZEROS,
            trace.as_slice(),
            printed.as_slice()
        )?
    );
    Ok(())
}

/// A list shows nothing, so a line of a trace is outside its grammar.
#[test]
fn a_list_has_no_lines_of_a_trace(rt: HostRuntime) -> Result<(), Fail> {
    for (line, number) in [
        ("0 fill : i 00000000 @0\n", "axp: bad trace at line 2\n"),
        ("end 0\n", "axp: bad trace at line 2\n"),
    ] {
        let list = joined(rt.alloc(), super::LIST_HEADER, line)?;
        let printed = joined(rt.alloc(), TEXT_HEADER, number)?;
        let call = replayed(Status::BadTrace { line: 2 }, 2);
        assert!(rt;
            gives(
                rt.alloc(),
                &call,
                &ZEROS,
                list.as_slice(),
                printed.as_slice()
            )?
        );
    }
    Ok(())
}

/// The numbers of the lines of a trace, each with the line that refuses it.
const REFUSALS: [(u32, &str); 10] = [
    (1, "axp: bad trace at line 1\n"),
    (2, "axp: bad trace at line 2\n"),
    (3, "axp: bad trace at line 3\n"),
    (4, "axp: bad trace at line 4\n"),
    (5, "axp: bad trace at line 5\n"),
    (6, "axp: bad trace at line 6\n"),
    (7, "axp: bad trace at line 7\n"),
    (8, "axp: bad trace at line 8\n"),
    (9, "axp: bad trace at line 9\n"),
    (10, "axp: bad trace at line 10\n"),
];

/// Whether a trace of these lines is refused so at the line of this number, where the byte at this
/// offset in it is an `x`. An `x` stands in no line but in the header's first word.
fn refuses_at(
    alloc: Global,
    lines: &[&'static str],
    number: u32,
    at: usize,
    refusal: &str,
) -> Result<bool, Fail> {
    let mut trace = Vec::new(alloc);
    let mut printed = Vec::new(alloc);
    let mut altered = 0;
    let mut current = 1_u32;
    for line in lines {
        if current == number {
            altered = trace.len().wrapping_add(at);
        }
        // the header and the lines of the events are printed, where they are ahead of the refusal
        if current < number && current <= 5 {
            printed.extend_from_slice(line.as_bytes())?;
        }
        trace.extend_from_slice(line.as_bytes())?;
        current = current.wrapping_add(1);
    }
    printed.extend_from_slice(refusal.as_bytes())?;
    if let Some(byte) = trace.get_mut(altered) {
        if *byte == b'x' {
            return Ok(true);
        }
        *byte = b'x';
    }
    let call = replayed(Status::BadTrace { line: number }, 2);
    gives(alloc, &call, &ZEROS, trace.as_slice(), printed.as_slice())
}

#[test]
fn each_altered_byte_is_answered_by_its_line(rt: HostRuntime) -> Result<(), Fail> {
    let [first, second, third, fourth] = EVENTS;
    let [zero, one, register, console, end] = TAIL;
    let lines = [
        TEXT_HEADER,
        first,
        second,
        third,
        fourth,
        zero,
        one,
        register,
        console,
        end,
    ];
    for (number, refusal) in REFUSALS {
        if let Some(line) = lines.get(number.wrapping_sub(1) as usize) {
            for at in 0..line.len() {
                assert!(rt; refuses_at(rt.alloc(), &lines, number, at, refusal)?);
            }
        }
    }
    Ok(())
}
