// Threads share the bus of a page of zeros.
ghost use Rattle.std.specs.Prelude.{◌≡◌, ◌*◌, ◌≤◌, All, IfOk, OnOk};
ghost use Rattle.axp_ticket.specs.Seats.{AreAllThere};
ghost use Rattle.axp_shared.specs.Asking.{HasAsked, IsReady, MayAskOften};
ghost use Rattle.axp_shared.specs.Buses.{AreSeatsOfBus, bus_allowance, bus_start};

use crate::{BusSeat, BusSeats, SharedBus};
use axp_base::{Bank, Line, NoMemory, span};
use axp_bus::CallList;
use axp_image::read_image;
use axp_line::{LineData, Reply, Request};
use std::alloc::Global;
use std::process::Abort;
use std::sync::Wait;
use std::test::*;
use std::thread;
use std::thread::Threads;
use std::time::Instant;

mod sharing;

use sharing::{bus_is_send, bus_is_sync, seats_are_send};

// An image of one page, with no segment.
const PAGE: [u8; 40] = [
    0x41, 0x58, 0x50, 0x49, 1, 0, 0, 0, // magic, version, count
    0, 0x20, 0, 0, 0, 0, 0, 0, // size
    0, 0, 0, 0, 0, 0xFC, 0xFF, 0xFF, // entry
    0, 0, 0, 0, 0, 0, 0, 0, // stack
    0, 0, 0, 0, 0, 0, 0, 0, // table
];

// The bus of the page, with all its seats.
fn opened(
    rt: &impl Abort,
    alloc: Global,
    cpus: u8,
    budget: u32,
) -> Result<(SharedBus, BusSeats), Fail>
    requires least { 2 ≤ cpus }
    requires most { cpus ≤ 8 }
    requires budget { budget ≤ 200 }
    ensures cpus { IfOk result (λ t. (bus_start t.0).cpus ≡ cpus) }
    ensures size { IfOk result (λ t. (bus_start t.0).image.size ≡ 8192) }
    ensures allowance { IfOk result (λ t. bus_allowance t.0 ≡ 13 * budget) }
    ensures seats { IfOk result (λ t. AreSeatsOfBus t.0 t.1) }
    ensures all_there { IfOk result (λ t. AreAllThere t.1) }
{
    let image = read_image(alloc, &PAGE)?;
    assert_eq!(rt; image.size(), 0x2000);
    Ok(SharedBus::open(alloc, &image, cpus, budget)?)
}

// So many fills of line 0, and the position of the last.
fn fill_often<R: Wait>(rt: &R, bus: &SharedBus, seat: BusSeat, times: u32) -> (BusSeat, u32)
    requires seat { IsReady bus.now seat }
    requires often { MayAskOften bus.now times }
    ensures { HasAsked bus.now seat result.0 times }
{
    let mut seat = seat;
    let mut last = 0;
    for _n in 0..times {
        let line = Line::of(0);
        let (next, position, _reply) = bus.turn(rt, seat, Request::Fill { line });
        seat = next;
        last = position;
    }
    (seat, last)
}

fn both<R: Threads + Wait + Sync>(
    rt: &R,
    bus: &SharedBus,
    one: BusSeat,
    other: BusSeat,
    times: u32,
) -> (BusSeat, BusSeat)
    requires one { IsReady bus.now one }
    requires other { IsReady bus.now other }
    requires often { MayAskOften bus.now times }
    ensures one { HasAsked bus.now one result.0 times }
    ensures other { HasAsked bus.now other result.1 times }
{
    let (one, other) = thread::join(
        rt,
        || fill_often(rt, bus, one, times),
        || fill_often(rt, bus, other, times),
    );
    (one.0, other.0)
}

// Compares each call with a fill of line 0 that found zeros; how many are of the processor 1.
fn of_the_second(rt: &impl Abort, calls: &CallList) -> u32 {
    let zeros = Reply::Line {
        turn: 0,
        bytes: LineData::zero(),
    };
    let mut count = 0_u32;
    for n in 0..calls.len() {
        let call = calls.get(n);
        assert!(rt; matches!(call.ask, Request::Fill { line } if line == Line::of(0)));
        assert_eq!(rt; call.answer, zeros);
        if call.cpu.number() == 1 {
            count = count.wrapping_add(1);
        }
    }
    count
}

#[test]
fn two_threads_fill(rt: HostRuntime) -> Result<(), Fail> {
    let (bus, mut seats) = opened(&rt, rt.alloc(), 2, 8)?;
    let one = bus.next(&mut seats).unwrap();
    let other = bus.next(&mut seats).unwrap();
    let third = bus.next(&mut seats);
    assert!(rt; third.is_none());
    let (one, other) = both(&rt, &bus, one, other, 100);
    bus.give(&mut seats, one);
    bus.give(&mut seats, other);
    let calls = bus.close(seats);
    assert_eq!(rt; calls.len(), 200);
    assert_eq!(rt; of_the_second(&rt, &calls), 100);
    Ok(())
}

// The seats of all eight processors.
fn eight_seats(
    alloc: Global,
    bus: &SharedBus,
    seats: &mut BusSeats,
) -> Result<Vec<BusSeat>, NoMemory>
    requires seats { AreSeatsOfBus bus.now seats.old }
    requires all_there { AreAllThere seats.old }
    requires eight { (bus_start bus.now).cpus ≡ 8 }
    ensures ready { IfOk result (λ v. All (IsReady bus.now) v.items) }
    ensures seats { OnOk result (AreSeatsOfBus bus.now seats.new) }
{
    let mut all = Vec::with_capacity(alloc, 8)?;
    for _n in 0..8u8 {
        let seat = bus.next(seats).unwrap();
        all.push_reserved(seat);
    }
    Ok(all)
}

// So many fills of each seat, each in a thread of its own; the greatest position.
fn fill_side_by_side<R: Threads + Wait + Sync>(
    rt: &R,
    bus: &SharedBus,
    seats: Vec<BusSeat>,
    times: u32,
) -> Result<u32, NoMemory>
    requires ready { All (IsReady bus.now) seats.items }
    requires often { MayAskOften bus.now times }
{
    let lasts = thread::map_vec(
        rt,
        seats,
        &|seat: BusSeat| -> u32
            requires { IsReady bus.now seat × MayAskOften bus.now times }
        { fill_often(rt, bus, seat, times).1 },
    )?;
    Ok(lasts.iter().copied().max().unwrap_or(0))
}

// A seat that waits sleeps. Eight threads need a tenth of a second; where each looks again and
// again until it has its turn, they need half a minute on four processors.
#[test]
fn eight_threads_sleep_while_they_wait(rt: HostRuntime) -> Result<(), Fail> {
    let (bus, mut seats) = opened(&rt, rt.alloc(), 8, 200)?;
    let all = eight_seats(rt.alloc(), &bus, &mut seats)?;
    assert!(rt; bus.next(&mut seats).is_none());
    let start = Instant::now(&rt).ok().ok_or("a clock")?;
    let last = fill_side_by_side(&rt, &bus, all, 2_000)?;
    let took = start.elapsed(&rt).ok().ok_or("a clock")?;
    assert_eq!(rt; last, 15_999);
    assert!(rt; took.as_secs() < 10);
    Ok(())
}

// The last quadword of line 1 is written, with the other bytes at 0.
fn written() -> LineData {
    let mut line = LineData::zero();
    line.set(56, 8, 0x0123_4567_89AB_CDEF);
    line
}

// The number of the processor of each call.
fn processors(alloc: Global, calls: &CallList) -> Result<Vec<u8>, NoMemory> {
    let mut numbers = Vec::new(alloc);
    for n in 0..calls.len() {
        numbers.push(calls.get(n).cpu.number())?;
    }
    Ok(numbers)
}

#[test]
fn replies_know_the_calls_before(rt: HostRuntime) -> Result<(), Fail> {
    let (bus, mut seats) = opened(&rt, rt.alloc(), 2, 1)?;
    let one = bus.next(&mut seats).unwrap();
    let other = bus.next(&mut seats).unwrap();
    let line = Line::of(0x40);
    let bytes = written();
    let drain = Request::Drain {
        line,
        mask: span(56, 8),
        bytes,
    };
    let (other, position, reply) = bus.turn(&rt, other, drain);
    assert_eq!(rt; (position, reply), (0, Reply::Stored { turn: 1, bytes }));
    let (one, position, reply) = bus.turn(&rt, one, Request::Fill { line });
    assert_eq!(rt; (position, reply), (1, Reply::Line { turn: 1, bytes }));
    let take = Request::Take { bank: Bank::Odd };
    let (one, position, reply) = bus.turn(&rt, one, take);
    assert_eq!(rt; (position, reply), (2, Reply::Late { line, turn: 1 }));
    let take = Request::Take { bank: Bank::Odd };
    let (one, position, reply) = bus.turn(&rt, one, take);
    assert_eq!(rt; (position, reply), (3, Reply::Nothing));
    bus.give(&mut seats, one);
    bus.give(&mut seats, other);
    let calls = bus.close(seats);
    let numbers = processors(rt.alloc(), &calls)?;
    assert_eq!(rt; numbers.as_slice(), [1, 0, 0, 0].as_slice());
    Ok(())
}

#[test]
fn a_bus_is_shared_and_its_seats_are_sent(_rt: HostRuntime) {
    bus_is_sync();
    bus_is_send();
    seats_are_send();
}
