ghost use Rattle.std.specs.Prelude.{false};
ghost use Rattle.axp_access.specs.Spelling.{IsLine, IsSpelled, IsSpelledAs, IsTurn, Spells};

use super::*;
use axp_access::{Access, Act, Bytes, Event, Kind, Outcome, Place, TailItem};
use axp_base::{Bank, Cpu, Line};
use std::test::*;

// The line of a step that makes this access.
fn accessed(access: Access) -> LineText
    requires { IsSpelled access }
{
    let event = Event {
        cpu: access.cpu,
        act: Act::Step,
    };
    write_event(event, Outcome::Access(access))
}

// The line of a step that makes an access of data at address 0x4000.
fn moved(cpu: Cpu, kind: Kind, size: u8, value: u64, yes: bool, place: Place) -> LineText
    requires { IsSpelledAs kind (record {
      cpu = cpu;
      kind = kind;
      address = 16384;
      size = size;
      value = value;
      yes = yes;
      place = place;
    }) }
{
    accessed(Access {
        cpu,
        kind,
        address: 0x4000,
        size,
        value,
        yes,
        place,
    })
}

// The line of a step that makes an access that names no memory.
fn bare(cpu: Cpu, kind: Kind, value: u64, place: Place) -> LineText
    requires { IsSpelledAs kind (record {
      cpu = cpu;
      kind = kind;
      address = 0;
      size = 0;
      value =
          value;
      yes = false;
      place = place;
    }) }
{
    accessed(Access {
        cpu,
        kind,
        address: 0,
        size: 0,
        value,
        yes: false,
        place,
    })
}

#[test]
fn steps_have_their_text(rt: HostRuntime) {
    let zero = Cpu::new(0).expect(&rt, "0 is a processor");
    let seven = Cpu::new(7).expect(&rt, "7 is a processor");
    let step = Event {
        cpu: zero,
        act: Act::Step,
    };
    let last = 0xFFFF_FFFF;
    let lines: [(LineText, &[u8]); 13] = [
        (write_event(step, Outcome::NoAccess), b"0 step : n"),
        (
            moved(zero, Kind::Fetch, 4, 0x47FF_041F, false, Place::At(1)),
            b"0 step : i 00004000 47FF041F @1",
        ),
        (
            moved(zero, Kind::Read, 2, 0xBEEF, false, Place::At(10)),
            b"0 step : r 00004000 2 BEEF @10",
        ),
        (
            moved(zero, Kind::Locked, 4, 0x1F, false, Place::At(0)),
            b"0 step : l 00004000 4 0000001F @0",
        ),
        (
            moved(zero, Kind::Write, 8, 1, false, Place::Entry(32_768)),
            b"0 step : w 00004000 8 0000000000000001 e32768",
        ),
        (
            moved(zero, Kind::Write, 1, 0x5A, false, Place::Entry(3)),
            b"0 step : w 00004000 1 5A e3",
        ),
        (
            moved(
                seven,
                Kind::Conditional,
                8,
                0x0123_4567_89AB_CDEF,
                true,
                Place::At(last),
            ),
            b"7 step : c 00004000 8 0123456789ABCDEF yes @4294967295",
        ),
        (
            moved(zero, Kind::Conditional, 4, 0, false, Place::At(2)),
            b"0 step : c 00004000 4 00000000 no @2",
        ),
        (bare(zero, Kind::Barrier, 0, Place::At(2)), b"0 step : m @2"),
        (
            bare(zero, Kind::CodeBarrier, 0, Place::At(2)),
            b"0 step : b @2",
        ),
        (
            bare(zero, Kind::WriteBarrier, 0, Place::Absent),
            b"0 step : s",
        ),
        (
            bare(zero, Kind::Signal, 7, Place::At(4)),
            b"0 step : g 7 @4",
        ),
        (
            bare(seven, Kind::Console, 10, Place::At(4)),
            b"7 step : p 0A @4",
        ),
    ];
    for (line, text) in &lines {
        assert!(rt; line.as_slice() == *text);
    }
}

// The line of what the memory system does for a processor.
fn done(cpu: Cpu, act: Act, outcome: Outcome) -> LineText
    requires { Spells (record { cpu = cpu; act = act }) outcome }
{
    write_event(Event { cpu, act }, outcome)
}

// The line of a fill.
fn filled(cpu: Cpu, bank: Bank, line: Line, turn: u64) -> LineText
    requires line { IsLine line }
    requires turn { IsTurn turn }
{
    done(cpu, Act::Fill, Outcome::Filled { bank, line, turn })
}

// The line of a poll after turn 2.
fn polled(cpu: Cpu, pending: bool, entered: bool) -> LineText {
    let outcome = Outcome::Polled {
        pending,
        entered,
        turn: 2,
    };
    done(cpu, Act::Poll, outcome)
}

#[test]
fn other_acts_have_their_text(rt: HostRuntime) {
    let zero = Cpu::new(0).expect(&rt, "0 is a processor");
    let one = Cpu::new(1).expect(&rt, "1 is a processor");
    let even = Line::of(0x4000);
    let odd = Line::of(0x4040);
    let last = Line::of(0xFFFF_FFC0);
    let lines: [(LineText, &[u8]); 13] = [
        (
            filled(zero, Bank::Even, even, 3),
            b"0 fill : d0 00004000 @3",
        ),
        (filled(one, Bank::Odd, odd, 0), b"1 fill : d1 00004040 @0"),
        (filled(one, Bank::Code, odd, 0), b"1 fill : i 00004040 @0"),
        (
            done(
                zero,
                Act::Drain(0),
                Outcome::Drained {
                    entry: 1,
                    line: even,
                    turn: 12,
                },
            ),
            b"0 drain 0 : e1 00004000 @12",
        ),
        (
            done(
                one,
                Act::Drain(7),
                Outcome::Drained {
                    entry: 32_768,
                    line: last,
                    turn: 0xFFFF_FFFF,
                },
            ),
            b"1 drain 7 : e32768 FFFFFFC0 @4294967295",
        ),
        (
            done(
                zero,
                Act::Take(Bank::Even),
                Outcome::Taken {
                    line: even,
                    turn: 2,
                    gone: true,
                },
            ),
            b"0 take 0 : 00004000 @2 gone",
        ),
        (
            done(
                zero,
                Act::Take(Bank::Odd),
                Outcome::Taken {
                    line: odd,
                    turn: 2,
                    gone: false,
                },
            ),
            b"0 take 1 : 00004040 @2 kept",
        ),
        (
            done(zero, Act::Drop(Bank::Even, even), Outcome::Done),
            b"0 drop d0 00004000 : ok",
        ),
        (
            done(zero, Act::Drop(Bank::Code, last), Outcome::Done),
            b"0 drop i FFFFFFC0 : ok",
        ),
        (polled(zero, true, true), b"0 poll : 1 @2 enter"),
        (polled(zero, true, false), b"0 poll : 1 @2 stay"),
        (polled(zero, false, false), b"0 poll : 0 @2 stay"),
        (done(one, Act::Tick, Outcome::Done), b"1 tick : ok"),
    ];
    for (line, text) in &lines {
        assert!(rt; line.as_slice() == *text);
    }
}

#[test]
fn other_lines_have_their_text(rt: HostRuntime) {
    let lines: [(LineText, &[u8]); 13] = [
        (
            write_header(2, 20, 65_536),
            b"axp-trace 1 cpus 2 budget 20 memory 65536",
        ),
        (write_usage(), b"axp: usage"),
        (write_read_fault(), b"axp: read fault"),
        (write_too_long(), b"axp: too long"),
        (write_bad_image(b"extra", 40), b"axp: bad image extra at 40"),
        (
            write_bad_image(b"segment", 18_446_744_073_709_551_615),
            b"axp: bad image segment at 18446744073709551615",
        ),
        (write_bad_elf(b"machine", 18), b"axp: bad elf machine at 18"),
        (write_bad_source(5), b"axp: bad source at line 5"),
        (write_bad_trace(11), b"axp: bad trace at line 11"),
        (write_not_legal(7), b"axp: not legal at event 7"),
        (write_incomplete(0), b"axp: incomplete after event 0"),
        (write_differs(14), b"axp: differs at line 14"),
        (
            write_differs(4_294_967_295),
            b"axp: differs at line 4294967295",
        ),
    ];
    for (line, text) in &lines {
        assert!(rt; line.as_slice() == *text);
    }
}

#[test]
fn lines_of_a_summary_have_their_text(rt: HostRuntime) {
    let lines: [(LineText, &[u8]); 4] = [
        (
            write_summary_header(1, b"dl", 1_024),
            b"gen 1 dl rounds 1024",
        ),
        (
            write_summary_header(u64::MAX, b"lock", 64),
            b"gen 18446744073709551615 lock rounds 64",
        ),
        (write_count(b"weak", 0), b"weak 0"),
        (write_events(7), b"events 7"),
    ];
    for (line, text) in &lines {
        assert!(rt; line.as_slice() == *text);
    }
}

#[test]
fn a_difference_shows_both_lines(rt: HostRuntime) -> Result<(), Fail> {
    let given = write_given(rt.alloc(), b"0 step : m @1")?;
    assert_eq!(rt; given.as_slice(), b"trace: 0 step : m @1".as_slice());
    let right = write_right(rt.alloc(), b"0 step : m @2")?;
    assert_eq!(rt; right.as_slice(), b"right: 0 step : m @2".as_slice());
    Ok(())
}

#[test]
fn items_of_the_tail_have_their_text(rt: HostRuntime) -> Result<(), Fail> {
    let zero = Cpu::new(0).ok_or("0 is a processor")?;
    let one = Cpu::new(1).ok_or("1 is a processor")?;
    let halted = TailItem::Cpu {
        cpu: zero,
        halt: 1,
        steps: 1,
        pc: 0xFFFF_FC00_0000_0004,
    };
    let spent = TailItem::Cpu {
        cpu: one,
        halt: 0,
        steps: 20,
        pc: 0,
    };
    let register = TailItem::Reg {
        cpu: one,
        n: 16,
        value: 1,
    };
    let quadword = TailItem::Mem {
        address: 0x4000,
        value: 1,
    };
    let silent = TailItem::Console {
        bytes: Bytes::copy(rt.alloc(), b"")?,
    };
    let said = TailItem::Console {
        bytes: Bytes::copy(rt.alloc(), b"K6\n")?,
    };
    let end = TailItem::End { events: 14 };
    let lines: [(&TailItem, &[u8]); 7] = [
        (&halted, b"cpu 0 halt 1 steps 1 pc FFFFFC0000000004"),
        (&spent, b"cpu 1 spent steps 20 pc 0000000000000000"),
        (&register, b"reg 1 16 0000000000000001"),
        (&quadword, b"mem 00004000 0000000000000001"),
        (&silent, b"console -"),
        (&said, b"console 4B360A"),
        (&end, b"end 14"),
    ];
    for (item, text) in &lines {
        assert_eq!(rt; write_tail(rt.alloc(), item)?.as_slice(), *text);
    }
    Ok(())
}

// The header of a trace of two processors.
fn trace() -> Header {
    Header {
        full: true,
        cpus: 2,
        budget: 20,
        memory: 32_768,
    }
}

#[test]
fn lines_of_a_trace_are_read(rt: HostRuntime) {
    for line in [
        "0 fill : i 00000000 @0",
        "1 fill : d1 00004040 @2",
        "0 step : n",
        "0 step : i 0000200C A45E0040 @0",
        "0 step : r 00004000 8 FFFFFC0000004040 @2",
        "0 step : l 00004000 8 0000000000000000 @0",
        "0 step : w 00003FD0 8 0000000000000000 e32768",
        "0 step : c 00004000 8 0000000000000000 no @1",
        "0 step : c 00004010 4 00000001 yes @4294967295",
        "0 step : s",
        "1 step : m @2",
        "1 step : b @1",
        "0 step : g 1 @4",
        "1 step : p 0A @4",
        "0 drain 7 : e3 00004000 @2",
        "1 take 1 : 00004040 @1 gone",
        "1 take 0 : 00004000 @1 kept",
        "0 drop i 00002000 : ok",
        "1 poll : 1 @2 enter",
        "0 poll : 0 @0 stay",
        "0 tick : ok",
    ] {
        let read = match read_line(line.as_bytes(), &trace()) {
            Some(TraceLine::Full(event, outcome)) => {
                write_event(event, outcome).as_slice() == line.as_bytes()
            }
            _ => false,
        };
        assert!(rt; read, "at {line}");
    }
}

#[test]
fn lines_of_a_tail_are_read(rt: HostRuntime) {
    for line in [
        "cpu 0 halt 1 steps 7 pc FFFFFC0000002014",
        "cpu 1 halt 4 steps 4294967295 pc 0000000000000000",
        "cpu 1 spent steps 0 pc 0000000000000000",
        "reg 0 0 0000000000000000",
        "reg 1 30 FFFFFC0000003FD0",
        "mem 0000E040 0000000000000006",
        "mem FFFFFFF8 0000000000000006",
        "console -",
        "console 4B36",
        "end 0",
        "end 4294967295",
    ] {
        let read = read_line(line.as_bytes(), &trace());
        assert!(rt; read == Some(TraceLine::Tail), "at {line}");
    }
}

#[test]
fn lines_outside_the_grammar_are_refused(rt: HostRuntime) {
    for line in [
        "",
        ":",
        " : ",
        "0 step",
        "0 step :",
        "0 step : ",
        "0 step: n",
        "0 step :n",
        "0 step : n ",
        "0 step : n : n",
        "0 step : N",
        "0 step : m @02",
        "0 step : m 2",
        "0 step : m @4294967296",
        "0 step : s @1",
        "0 step : i 0000200E A45E0040 @0",
        "0 step : i 0000200C A45E004 @0",
        "0 step : i 0000200C a45E0040 @0",
        "0 step : i 0000200G A45E0040 @0",
        "0 step : r 00004004 8 FFFFFC0000004040 @2",
        "0 step : r 00004000 3 FFFFFC @2",
        "0 step : r 00004000 0  @2",
        "0 step : r 00004000 8 FFFFFC0000004040 e2",
        "0 step : w 00004000 8 FFFFFC0000004040 @2",
        "0 step : w 00003FD0 8 0000000000000000 e0",
        "0 step : w 00003FD0 8 0000000000000000 e32769",
        "0 step : c 00004000 8 0000000000000000 maybe @1",
        "0 step : g 2 @4",
        "0 step : p 0a @4",
        "0 step : p 100 @4",
        "2 step : n",
        "0 fill : d2 00004040 @2",
        "0 fill : i 00000020 @0",
        "0 fill : n",
        "0 drain 8 : e3 00004000 @2",
        "0 drain 0 : 3 00004000 @2",
        "0 take 2 : 00004040 @1 gone",
        "0 take 1 : 00004040 @1 lost",
        "0 drop i 00002000 : no",
        "0 drop i 00002000 : ok ok",
        "0 poll : 2 @2 stay",
        "0 poll : 1 @2 leave",
        "0 tick : ok ok",
        "cpu 2 halt 1 steps 7 pc FFFFFC0000002014",
        "cpu 0 halt 0 steps 7 pc FFFFFC0000002014",
        "cpu 0 halt 5 steps 7 pc FFFFFC0000002014",
        "cpu 0 spent steps 07 pc FFFFFC0000002014",
        "cpu 0 spent steps 7 pc FFFFFC000000201",
        "reg 0 31 0000000000000000",
        "reg 2 0 0000000000000000",
        "mem 0000E044 0000000000000006",
        "mem 0000E040 00000006",
        "console",
        "console ",
        "console 4",
        "console 4B3",
        "console 4b36",
        "console --",
        "Console -",
        "end",
        "end 01",
        "end 4294967296",
        "end 5 ",
    ] {
        assert!(rt; read_line(line.as_bytes(), &trace()).is_none(), "at {line}");
    }
}

#[test]
fn an_event_list_has_events_alone(rt: HostRuntime) {
    let list = Header {
        full: false,
        cpus: 2,
        budget: 20,
        memory: 0,
    };
    let bare = match read_line(b"1 drain 0", &list) {
        Some(TraceLine::Bare(event)) => event.act == Act::Drain(0) && event.cpu.number() == 1,
        _ => false,
    };
    assert!(rt; bare);
    for line in ["2 step", "0 step : n", "console -", "end 5", "0 step "] {
        assert!(rt; read_line(line.as_bytes(), &list).is_none(), "at {line}");
    }
}
