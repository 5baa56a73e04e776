// A counter is served to threads.
ghost use Rattle.std.specs.Prelude.{◌≡◌, ◌≤◌, ◌+◌};
ghost use Rattle.axp_ticket.specs.Counting.{IsReady, HasCounted};
ghost use Rattle.axp_ticket.specs.Seats.{lock_allowance, lock_value};

use crate::{TicketLock, TicketSeat};
use std::sync::Wait;
use std::test::*;
use std::thread;
use std::thread::Threads;

mod counter;
mod sharing;

use counter::Counter;
use sharing::{lock_is_send, lock_is_sync, seats_are_send};

// A hundred calls of one seat.
fn work<R: Wait>(
    rt: &R,
    lock: &TicketLock<Counter>,
    seat: TicketSeat<Counter>,
) -> TicketSeat<Counter>
    requires seat { IsReady lock.now seat }
    requires few { 100 ≤ lock_allowance lock.now }
    ensures { HasCounted lock.now seat result 100 }
{
    let mut seat = seat;
    for i in 0..100u32 {
        let (next, _position, _answer) = lock.turn(rt, seat, i);
        seat = next;
    }
    seat
}

// One call, whose count is known at once by its position.
fn count<R: Wait>(
    rt: &R,
    lock: &TicketLock<Counter>,
    seat: TicketSeat<Counter>,
) -> (TicketSeat<Counter>, u32, u64)
    requires seat { IsReady lock.now seat }
    requires few { 1 ≤ lock_allowance lock.now }
    ensures seat { HasCounted lock.now seat result.0 1 }
    ensures count { result.2 ≡ (lock_value lock.now).start + result.1 }
{
    lock.turn(rt, seat, 0)
}

fn both<R: Threads + Wait + Sync>(
    rt: &R,
    lock: &TicketLock<Counter>,
    one: TicketSeat<Counter>,
    other: TicketSeat<Counter>,
) -> (TicketSeat<Counter>, TicketSeat<Counter>)
    requires one { IsReady lock.now one }
    requires other { IsReady lock.now other }
    requires few { 100 ≤ lock_allowance lock.now }
    ensures one { HasCounted lock.now one result.0 100 }
    ensures other { HasCounted lock.now other result.1 100 }
{
    thread::join(rt, || work(rt, lock, one), || work(rt, lock, other))
}

#[test]
fn two_threads_count(rt: HostRuntime) -> Result<(), Fail> {
    let counter = Counter::new(rt.alloc(), 7, 200)?;
    let (lock, mut seats) = TicketLock::open(rt.alloc(), counter, 2, 100)?;
    let one = lock.next(&mut seats).unwrap();
    let other = lock.next(&mut seats).unwrap();
    let third = lock.next(&mut seats);
    assert!(rt; third.is_none());
    let (one, other) = both(&rt, &lock, one, other);
    lock.give(&mut seats, one);
    lock.give(&mut seats, other);
    let counter = lock.close(seats);
    assert_eq!(rt; counter.calls.len(), 200);
    let mut count = 7_u64;
    let mut of_the_other = 0_u32;
    for call in &counter.calls {
        assert_eq!(rt; call.answer, count);
        count = count.wrapping_add(1);
        if call.cpu.number() == 1 {
            assert_eq!(rt; call.ask, of_the_other);
            of_the_other = of_the_other.wrapping_add(1);
        }
    }
    assert_eq!(rt; of_the_other, 100);
    Ok(())
}

#[test]
fn three_seats_of_one_thread(rt: HostRuntime) -> Result<(), Fail> {
    let counter = Counter::new(rt.alloc(), 0, 6)?;
    let (lock, mut seats) = TicketLock::open(rt.alloc(), counter, 3, 2)?;
    let first = lock.next(&mut seats).unwrap();
    let second = lock.next(&mut seats).unwrap();
    let third = lock.next(&mut seats).unwrap();
    let (third, position, answer) = lock.turn(&rt, third, 9);
    assert_eq!(rt; (position, answer), (0, 0));
    let (first, position, answer) = lock.turn(&rt, first, 8);
    assert_eq!(rt; (position, answer), (1, 1));
    let (third, position, answer) = lock.turn(&rt, third, 7);
    assert_eq!(rt; (position, answer), (2, 2));
    lock.give(&mut seats, first);
    lock.give(&mut seats, second);
    lock.give(&mut seats, third);
    let counter = lock.close(seats);
    let mut asks = Vec::new(rt.alloc());
    for call in &counter.calls {
        asks.push((call.cpu.number(), call.ask))?;
    }
    assert_eq!(rt; asks.as_slice(), [(2, 9), (0, 8), (2, 7)].as_slice());
    Ok(())
}

#[test]
fn a_count_is_known_at_once(rt: HostRuntime) -> Result<(), Fail> {
    let counter = Counter::new(rt.alloc(), 5, 2)?;
    let (lock, mut seats) = TicketLock::open(rt.alloc(), counter, 2, 1)?;
    let first = lock.next(&mut seats).unwrap();
    let second = lock.next(&mut seats).unwrap();
    let (_second, position, answer) = count(&rt, &lock, second);
    assert_eq!(rt; (position, answer), (0, 5));
    let (_first, position, answer) = count(&rt, &lock, first);
    assert_eq!(rt; (position, answer), (1, 6));
    Ok(())
}

#[test]
fn a_lock_is_shared_and_its_seats_are_sent(_rt: HostRuntime) {
    lock_is_sync::<Counter>();
    lock_is_send::<Counter>();
    seats_are_send::<Counter>();
}
