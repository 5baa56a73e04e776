ghost use Rattle.std.specs.Prelude.{IsTrue};
ghost use Rattle.axp_bus.specs.Buses.{MayAsk};

use super::*;
use axp_base::{Bank, Cpu, Line, Mask, QUADWORD_BYTES, span};
use axp_image::read_image;
use axp_line::{Held, LineData, Reply, Request};
use std::alloc::Global;
use std::process::Abort;
use std::test::*;

/// Two pages of memory, with three bytes at 0x3FF0 and two at the end.
const TWO_SEGMENTS: [u8; 77] = [
    0x41, 0x58, 0x50, 0x49, 1, 0, 2, 0, // magic, version, count
    0, 0x40, 0, 0, 0, 0, 0, 0, // size
    4, 0x20, 0, 0, 0, 0xFC, 0xFF, 0xFF, // entry
    0, 0x40, 0, 0, 0, 0xFC, 0xFF, 0xFF, // stack
    1, 0, 0, 0, 0, 0, 0, 0, // table
    0xF0, 0x3F, 0, 0, 0, 0, 0, 0, 3, 0, 0, 0, 0, 0, 0, 0, // the first record
    0xFE, 0x3F, 0, 0, 0, 0, 0, 0, 2, 0, 0, 0, 0, 0, 0, 0, // the second record
    11, 12, 13, 21, 22,
];

/// The data of a line: where a quadword stands in it and its value, and the same of a second. All
/// other bytes are 0.
type Data = (u8, u64, u8, u64);

/// A request of a row.
#[derive(Clone, Copy, Debug)]
enum Asks {
    Fill(u64),
    FillCode(u64),
    /// The bytes that an access of this size at the address takes, of these data of the line.
    Drain(u64, u8, Data),
    Barrier,
    CodeBarrier,
    Take(Bank),
    Locked(u64),
    Conditional(u64, u8, u64, bool),
    Poll(bool),
    /// To request an interrupt of the processor 0.
    Signal,
    Console(u8),
}

/// An answer of a row, with its turn first.
#[derive(Clone, Copy)]
enum Gives {
    Line(u64, Data),
    Stored(u64, Data),
    Refused(u64),
    Barrier(u64, u32),
    Nothing,
    Late(u64, u64),
    Polled(u64, bool),
    Signalled(u64),
    Printed(u64),
}

/// The last line but for the quadwords at 0x3FF0 and 0x3FF8 is zeros: as it is loaded, and after a
/// drain of two bytes.
const LOADED: Data = (48, 0x000D_0C0B, 56, 0x1615_0000_0000_0000);

const DRAINED: Data = (48, 0x4433_0C0B, 56, 0x1615_0000_0000_0000);

const ZEROS: Data = (0, 0, 8, 0);

/// What processors ask in turn, and what they are answered.
const CALLS: [(u8, Asks, Gives); 32] = [
    // what another drained is in memory, and late
    (0, Asks::Fill(0x3FC0), Gives::Line(0, LOADED)),
    (
        1,
        Asks::Drain(0x3FF2, 2, (48, 0x8877_6655_4433_2211, 56, u64::MAX)),
        Gives::Stored(1, DRAINED),
    ),
    (0, Asks::Fill(0x3FC0), Gives::Line(1, DRAINED)),
    (0, Asks::FillCode(0x3FC0), Gives::Line(1, DRAINED)),
    (0, Asks::Take(Bank::Even), Gives::Nothing),
    (0, Asks::Take(Bank::Code), Gives::Nothing),
    (0, Asks::Take(Bank::Odd), Gives::Late(1, 0x3FC0)),
    (0, Asks::Take(Bank::Odd), Gives::Nothing),
    (1, Asks::Take(Bank::Odd), Gives::Nothing),
    // a barrier removes the copies that are older
    (
        1,
        Asks::Drain(0, 8, (0, 5, 8, 0)),
        Gives::Stored(2, (0, 5, 8, 0)),
    ),
    (
        1,
        Asks::Drain(0x40, 8, (0, 6, 8, 0)),
        Gives::Stored(3, (0, 6, 8, 0)),
    ),
    (0, Asks::Barrier, Gives::Barrier(3, 2)),
    (0, Asks::CodeBarrier, Gives::Barrier(3, 0)),
    // a store-conditional to the other quadword of the block, once
    (0, Asks::Locked(0x1000), Gives::Line(3, ZEROS)),
    (
        0,
        Asks::Conditional(0x1008, 8, 7, true),
        Gives::Stored(4, (0, 0, 8, 7)),
    ),
    (0, Asks::Conditional(0x1008, 8, 9, true), Gives::Refused(4)),
    // another's drain to the line unlocks, an own one does not
    (0, Asks::Locked(0x1000), Gives::Line(4, (0, 0, 8, 7))),
    (
        1,
        Asks::Drain(0x1020, 8, (0, 0, 32, 8)),
        Gives::Stored(5, (8, 7, 32, 8)),
    ),
    (0, Asks::Conditional(0x1000, 4, 1, true), Gives::Refused(5)),
    (0, Asks::Locked(0x1000), Gives::Line(5, (8, 7, 32, 8))),
    (
        0,
        Asks::Drain(0x1020, 8, ZEROS),
        Gives::Stored(6, (0, 0, 8, 7)),
    ),
    (
        0,
        Asks::Conditional(0x1000, 4, 0xFFFF_FFFF_0000_0001, true),
        Gives::Stored(7, (0, 1, 8, 7)),
    ),
    // another block, and a flag that is not set
    (0, Asks::Locked(0x1000), Gives::Line(7, (0, 1, 8, 7))),
    (0, Asks::Conditional(0x1010, 8, 1, true), Gives::Refused(7)),
    (0, Asks::Locked(0x1000), Gives::Line(7, (0, 1, 8, 7))),
    (0, Asks::Conditional(0x1000, 8, 1, false), Gives::Refused(7)),
    // a signal waits until it is taken
    (1, Asks::Signal, Gives::Signalled(8)),
    (0, Asks::Poll(false), Gives::Polled(8, true)),
    (0, Asks::Poll(true), Gives::Polled(8, true)),
    (0, Asks::Poll(true), Gives::Polled(8, false)),
    (1, Asks::Console(b'h'), Gives::Printed(8)),
    (0, Asks::Console(b'i'), Gives::Printed(8)),
];

/// What is asked, and how many of the quadwords of [`TOUCHED`] are touched then, the first ones.
const WRITES: [(u8, Asks, usize); 6] = [
    (1, Asks::Drain(0x3FCF, 1, ZEROS), 1),
    (1, Asks::Drain(0x3FEC, 4, ZEROS), 2),
    // neither writes a byte: one is refused, one has an empty mask
    (0, Asks::Conditional(0x1004, 4, 0, true), 2),
    (0, Asks::Drain(0, 0, (0, 1, 8, 1)), 2),
    // a read writes none
    (0, Asks::Locked(0x1004), 2),
    (0, Asks::Conditional(0x1004, 4, 0, true), 3),
];

/// The quadwords at 0x3FC8, 0x3FE8 and 0x1000.
const TOUCHED: [u64; 3] = [0x7F9, 0x7FD, 0x200];

/// The data of a line.
fn line_with((offset, value, other, beside): Data) -> LineData {
    let mut line = LineData::zero();
    if offset <= 56 && other <= 56 {
        line.set(offset, 8, value);
        line.set(other, 8, beside);
    }
    line
}

/// The lines at 0, 0x40 and 0x80, the first two with stamp 2.
fn three_copies() -> Held {
    let mut held = Held::empty();
    held.push(0, 2);
    held.push(0x40, 2);
    held.push(0x80, 0);
    held
}

/// The bytes that an aligned access takes of its line; none of one that is not.
fn mask_of(address: u64, size: u8) -> Mask {
    match size {
        1 => span(address, 1),
        2 if address % 2 == 0 => span(address, 2),
        4 if address % 4 == 0 => span(address, 4),
        8 if address % 8 == 0 => span(address, 8),
        _ => Mask::default(),
    }
}

/// The request of a row.
fn request_of(asks: Asks, first: Cpu) -> Request {
    match asks {
        Asks::Fill(address) => Request::Fill {
            line: Line::of(address),
        },
        Asks::FillCode(address) => Request::FillCode {
            line: Line::of(address),
        },
        Asks::Drain(address, size, data) => Request::Drain {
            line: Line::of(address),
            mask: mask_of(address, size),
            bytes: line_with(data),
        },
        Asks::Barrier => Request::Barrier {
            held: three_copies(),
        },
        Asks::CodeBarrier => Request::CodeBarrier {
            held: three_copies(),
        },
        Asks::Take(bank) => Request::Take { bank },
        Asks::Locked(address) => Request::Locked { address },
        Asks::Conditional(address, size, value, armed) => Request::Conditional {
            address,
            size,
            value,
            armed,
        },
        Asks::Poll(below) => Request::Poll { below },
        Asks::Signal => Request::Signal { target: first },
        Asks::Console(byte) => Request::Console { byte },
    }
}

/// The reply of a row.
fn reply_of(gives: Gives) -> Reply {
    match gives {
        Gives::Line(turn, data) => Reply::Line {
            turn,
            bytes: line_with(data),
        },
        Gives::Stored(turn, data) => Reply::Stored {
            turn,
            bytes: line_with(data),
        },
        Gives::Refused(turn) => Reply::Refused { turn },
        Gives::Barrier(turn, gone) => Reply::Barrier { turn, gone },
        Gives::Nothing => Reply::Nothing,
        Gives::Late(turn, address) => Reply::Late {
            line: Line::of(address),
            turn,
        },
        Gives::Polled(turn, pending) => Reply::Polled { pending, turn },
        Gives::Signalled(turn) => Reply::Signalled { turn },
        Gives::Printed(turn) => Reply::Printed { turn },
    }
}

/// Whether a bus of this memory and of so many processors may be asked so.
fn may_ask(size: u64, cpus: u8, request: &Request) -> bool
    ensures { IsTrue result → MayAsk size cpus request.now }
{
    match request {
        Request::Fill { line } => line.address() < size,
        Request::FillCode { line } => line.address() < size,
        Request::Drain { line, .. } => line.address() < size,
        Request::Locked { address } => *address < size,
        Request::Conditional {
            address,
            size: width,
            ..
        } => {
            *address < size
                && ((*width == 4 && address % 4 == 0) || (*width == 8 && address % 8 == 0))
        }
        Request::Signal { target } => target.number() < cpus,
        _ => true,
    }
}

/// What the bus answers a processor; `None` where it may not be asked.
fn ask(bus: &mut Bus, number: u8, request: &Request) -> Option<Reply> {
    let cpu = Cpu::new(number)?;
    let room = bus.room();
    if number < bus.cpus()
        && may_ask(bus.size(), bus.cpus(), request)
        && bus.turns() < u64::from(room)
        && bus.console().len() < room as usize
    {
        return Some(bus.turn(cpu, request));
    }
    None
}

/// What the bus answers a processor that asks what a row says.
fn ask_row(bus: &mut Bus, cpu: u8, asks: Asks, first: Cpu) -> Option<Reply> {
    ask(bus, cpu, &request_of(asks, first))
}

/// A bus of two processors, with room for 16 turns.
fn loaded(alloc: Global) -> Result<Bus, Fail> {
    let image = read_image(alloc, &TWO_SEGMENTS)?;
    Ok(Bus::load(alloc, &image, 2, 16).ok().ok_or("memory")?)
}

/// Asks what the rows say, and compares the answers.
fn compare(rt: &impl Abort, bus: &mut Bus, first: Cpu, rows: &[(u8, Asks, Gives)]) {
    for &(cpu, asks, gives) in rows {
        let reply = ask_row(bus, cpu, asks, first);
        assert_eq!(rt; reply, Some(reply_of(gives)), "{asks:?}");
    }
}

/// Compares what the bus tells of itself after all calls.
fn compare_parts(rt: &impl Abort, bus: &Bus, first: Cpu) {
    assert_eq!(rt;
        (bus.size(), bus.cpus(), bus.room(), bus.turns()),
        (0x4000, 2, 16, 8)
    );
    assert_eq!(rt; bus.console(), b"hi".as_slice());
    if bus.size() == 0x4000 && first.number() < bus.cpus() {
        assert_eq!(rt; bus.tail_memory(0x1008), 7);
        assert!(rt; bus.late(first, Bank::Even), "the drain to the locked line");
        assert!(rt; !bus.late(first, Bank::Odd));
    }
}

#[test]
fn calls_are_answered_in_turn(rt: HostRuntime) -> Result<(), Fail> {
    let mut bus = loaded(rt.alloc())?;
    let first = Cpu::new(0).ok_or("a processor")?;
    compare(&rt, &mut bus, first, &CALLS);
    compare_parts(&rt, &bus, first);
    Ok(())
}

/// Whether the bus tells of these quadwords, and of no other, that a turn wrote one of their bytes.
fn touches(bus: &Bus, quadwords: &[u64]) -> bool {
    for quadword in 0..bus.size() / QUADWORD_BYTES {
        if bus.is_touched(quadword) != quadwords.contains(&quadword) {
            return false;
        }
    }
    true
}

/// Asks what the rows say, each of which is answered, and compares which quadwords are touched
/// then.
fn compare_touched(rt: &impl Abort, bus: &mut Bus, first: Cpu, rows: &[(u8, Asks, usize)]) {
    for &(cpu, asks, count) in rows {
        let reply = ask_row(bus, cpu, asks, first);
        assert!(rt; reply.is_some(), "{asks:?}");
        assert!(rt;
            touches(bus, TOUCHED.get(..count).unwrap_or(&[])),
            "{asks:?}"
        );
    }
}

#[test]
fn written_quadwords_are_touched(rt: HostRuntime) -> Result<(), Fail> {
    let mut bus = loaded(rt.alloc())?;
    let first = Cpu::new(0).ok_or("a processor")?;
    assert!(rt; touches(&bus, &[]), "the image's bytes are no turn's");
    compare_touched(&rt, &mut bus, first, &WRITES);
    Ok(())
}

/// The call of a processor that sends its byte to the console.
fn printed(cpu: Cpu, byte: u8, turn: u64) -> Call {
    Call {
        cpu,
        ask: Request::Console { byte },
        answer: Reply::Printed { turn },
    }
}

/// The number of a call's processor, and what was answered.
fn told(call: &Call) -> (u8, Reply) {
    (call.cpu.number(), call.answer)
}

#[test]
fn calls_are_listed_in_order(rt: HostRuntime) -> Result<(), Fail> {
    let first = Cpu::new(1).ok_or("a processor")?;
    let second = Cpu::new(0).ok_or("a processor")?;
    let mut list = CallList::with_room(rt.alloc(), 2)?;
    assert_eq!(rt; list.len(), 0);
    list.push(printed(first, b'a', 5));
    assert_eq!(rt; list.len(), 1);
    list.push(printed(second, b'b', 6));
    assert_eq!(rt; list.len(), 2);
    assert_eq!(rt; told(list.get(0)), (1, Reply::Printed { turn: 5 }));
    assert_eq!(rt; told(list.get(1)), (0, Reply::Printed { turn: 6 }));
    Ok(())
}
