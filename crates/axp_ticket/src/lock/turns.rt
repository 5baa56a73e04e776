//! What a lock and its seats do.
ghost use Rattle.std.specs.Prelude.{◌≡◌, ◌≢◌, ◌+◌, ◌*◌, ◌<◌, ◌≤◌, ◌^◌, [], ◌∷◌, ◌++◌, length, IfOk};
ghost use Rattle.std.specs.Prelude.{IfSome, IfNone, Some, None};
ghost use Rattle.axp_ticket.specs.History.{AllBefore, IsOneLonger};
ghost use Rattle.axp_ticket.specs.Moves.{IsIdle, IsWaiting, IsTurning, IsSame, IsTaken, HasTurned};
ghost use Rattle.axp_ticket.specs.Moves.{HasValue, HasCalled, waiting, turning, own_of, pass_calls};
ghost use Rattle.axp_ticket.specs.Seats.{lock_seats, lock_allowance, lock_value, IsLockOf};
ghost use Rattle.axp_ticket.specs.Seats.{IsSeatsOf, IsSeatOf, IsNewSeatOf, IsPassIn, AreAllThere};
ghost use Rattle.axp_ticket.specs.Seats.{AllHome, seats_given, seats_kept, seat_number, seat_calls};
ghost use Rattle.axp_ticket.specs.Seats.{seat_own, HasOneCallMore, LaterThan, IsRightInTurn};
ghost use Rattle.axp_ticket.specs.Seats.{KeepsHistory, KeepsHistoryOf, KeepsOneHistory};
ghost use Rattle.axp_ticket.specs.Seats.{KeepsOneHistoryOf};

use super::{TicketLock, TicketSeat, TicketSeats};
use crate::board::{Opening, View};
use crate::places::Places;
use crate::plays::{Draw, HandOut, Look, PassOn, Settle, TakeBack};
use crate::serving::Served;
use atomic_table::{Seat, Table};
use axp_base::NoMemory;
use std::alloc::Global;
use std::snapshot::Snapshot;
use std::sync::Wait;

impl<S: Served> TicketLock<S> {
    /// A lock round a value without calls, for so many seats with so many calls each, and all its
    /// seats. There is at least one seat, all seats together make fewer than 2^32 calls, and the
    /// value has room for these. [`NoMemory`] where memory was not found for the table; the value
    /// is dropped then.
    pub fn open(
        alloc: Global,
        value: S,
        seats: u8,
        allowance: u32,
    ) -> Result<(TicketLock<S>, TicketSeats<S>), NoMemory>
        requires some_seat { 1 ≤ seats }
        requires few { seats * allowance < 2 ^ 32 }
        requires room { seats * allowance ≤ S.room value }
        requires empty { S.calls value ≡ [] }
        ensures lock { IfOk result (λ t. IsLockOf t.0 value seats allowance) }
        ensures seats { IfOk result (λ t. IsSeatsOf t.0 t.1) }
        ensures all_there { IfOk result (λ t. AreAllThere t.1) }
    {
        let about = Opening {
            seats,
            allowance,
            value: Snapshot::of(&value),
        };
        let mut slots = Vec::with_capacity(alloc, 1)?;
        slots.push_reserved(Some(value));
        match Table::new(alloc, &[0, 0], slots, &about) {
            Ok((table, pass)) => {
                let places = Places::new();
                let lock = TicketLock {
                    table,
                    seats,
                    places,
                };
                let seats = TicketSeats { given: 0, pass };
                Ok((lock, seats))
            }
            Err(_) => Err(NoMemory),
        }
    }

    /// The seat of the least number that was not handed out, from 0 on, without calls; `None`
    /// exactly where all were handed out.
    pub fn next(&self, seats: &mut TicketSeats<S>) -> Option<TicketSeat<S>>
        requires seats { IsSeatsOf self.now seats.old }
        ensures seats { IsSeatsOf self.now seats.new }
        ensures kept { seats_kept seats.new ≡ seats_kept seats.old }
        ensures all_out { IfNone result (seats_given seats.old ≡ lock_seats self.now) }
        ensures none_given { IfNone result (seats_given seats.new ≡ seats_given seats.old) }
        ensures some_left { IfSome result (λ s. seats_given seats.old < lock_seats self.now) }
        ensures one_given { IfSome result (λ s. seats_given seats.new ≡ seats_given seats.old + 1) }
        ensures seat { IfSome result (λ s. IsNewSeatOf self.now (seats_given seats.old) s) }
    {
        if seats.given >= self.seats {
            return None;
        }
        let number = seats.given;
        let pass = self.table.shared.split_seat::<HandOut>(&mut seats.pass);
        seats.given = number + 1;
        Some(TicketSeat { number, pass })
    }

    // Draws a ticket for one call more of the number.
    fn draw(&self, pass: &mut Seat<Option<S>, View<S, S::Ask, S::Answer>>, number: u8) -> u64
        requires own { IsPassIn self.now pass.old }
        requires idle { IsIdle number pass.old }
        requires few { length (pass_calls pass.old) < lock_allowance self.now }
        ensures same { IsSame pass.old pass.new }
        ensures drawn { pass.new.me ≡ waiting pass.old.me result }
        ensures small { result < 2 ^ 32 }
    {
        self.table.shared.fetch_add::<Draw>(pass, 0, 1)
    }

    // The ticket that is served. Where it is the seat's, the seat has the turn, and the value's
    // slot is its own.
    fn look(&self, pass: &mut Seat<Option<S>, View<S, S::Ask, S::Answer>>, ticket: u64) -> u64
        requires own { IsPassIn self.now pass.old }
        requires waits { IsWaiting ticket pass.old }
        ensures same { IsSame pass.old pass.new }
        ensures late { result ≢ ticket → pass.new.me ≡ pass.old.me }
        ensures turns { result ≡ ticket
            → HasTurned S.start S.room S.calls ticket pass.old.me pass.new.me }
        ensures small { result < 2 ^ 32 }
    {
        self.table.shared.load::<Look<S>>(pass, 1)
    }

    // Takes the value from its slot.
    fn take(&self, pass: &mut Seat<Option<S>, View<S, S::Ask, S::Answer>>) -> S
        requires own { IsPassIn self.now pass.old }
        requires turns { HasValue pass.old.me }
        ensures same { IsSame pass.old pass.new }
        ensures taken { pass.old.me.1 ≡ (0, Some result) ∷ [] }
        ensures left { pass.new.me ≡ (pass.old.me.0, (0, None) ∷ []) }
    {
        self.table.shared.exchange(pass, 0, None).unwrap()
    }

    // Waits for the turn, and takes the value. It sleeps at its ticket's place only while nobody
    // was woken there since before it looked, and each pass on serves a ticket before it wakes
    // there, so no wake is lost.
    fn wait<R: Wait>(
        &self,
        rt: &R,
        pass: &mut Seat<Option<S>, View<S, S::Ask, S::Answer>>,
        ticket: u64,
    ) -> S
        requires own { IsPassIn self.now pass.old }
        requires waits { IsWaiting ticket pass.old }
        ensures same { IsSame pass.old pass.new }
        ensures turns { pass.new.me ≡ turning pass.old.me ticket result None }
        ensures taken { IsTaken S.start S.room S.calls pass.old.me.0 ticket result }
    {
        for _ in rt.forever() {
            let wakes = self.places.wakes(ticket);
            if self.look(pass, ticket) == ticket {
                return self.take(pass);
            }
            self.places.sleep(rt, ticket, wakes);
        }
        unreachable!()
    }

    // Wakes the seat whose ticket is served after this position. Where that ticket is not yet drawn
    // nobody sleeps, and whoever draws it finds it served.
    fn wake_next(&self, position: u64) {
        let ticket = position.wrapping_add(1);
        if self.table.shared.peek(0) != ticket {
            self.places.wake(ticket);
        }
    }

    // Gives the value back, one call longer, and passes the turn on. The snapshots have no bytes:
    // they name what the value was and what was asked.
    fn pass_on(
        &self,
        pass: &mut Seat<Option<S>, View<S, S::Ask, S::Answer>>,
        value: S,
        number: u8,
        ticket: u64,
        before: &Snapshot<S>,
        ask: &Snapshot<S::Ask>,
        answer: &S::Answer,
    ) -> u64
        requires own { IsPassIn self.now pass.old }
        requires turns { IsTurning ticket before.now.value None pass.old }
        requires whose { number ≡ (own_of pass.old.me.0.role).number }
        requires longer { IsOneLonger (S.calls before.now.value) (S.calls value)
            number ask.now.value answer.now }
        requires start { S.start value ≡ S.start before.now.value }
        requires room { S.room value ≡ S.room before.now.value }
        requires right { S.Right (S.start before.now.value) (S.calls before.now.value)
            number ask.now.value answer.now }
        ensures same { IsSame pass.old pass.new }
        ensures idle { HasCalled number ask.now.value answer.now result pass.old.me pass.new.me }
        ensures ticket { result ≡ ticket }
        ensures later { AllBefore (pass_calls pass.old) result }
    {
        self.table.shared.exchange(pass, 0, Some(value));
        let position = self.table.shared.fetch_add::<PassOn<S>>(pass, 1, 1);
        self.wake_next(position);
        position
    }

    /// Waits for the turn, and has the value answer the ask. Gives the seat back, one call longer,
    /// with the call's position among all calls, from 0 on, and the answer. The answer is right
    /// after the calls before that position, and the seat's own among these are its earlier calls.
    /// The ask has to fit the seat at the lock's start, and the seat to have made fewer calls than
    /// it is allowed. A seat that waits sleeps. No order is promised between seats, nor that a seat
    /// is ever served.
    pub fn turn<R: Wait>(
        &self,
        rt: &R,
        seat: TicketSeat<S>,
        ask: S::Ask,
    ) -> (TicketSeat<S>, u32, S::Answer)
        requires seat { IsSeatOf self.now seat }
        requires fits { S.Fits (S.start (lock_value self.now)) (seat_number seat) ask }
        requires few { length (seat_calls seat) < lock_allowance self.now }
        ensures seat { IsSeatOf self.now result.0 }
        ensures number { seat_number result.0 ≡ seat_number seat }
        ensures call { HasOneCallMore seat result.0 result.1 ask result.2 }
        ensures later { LaterThan seat result.1 }
        ensures right { IsRightInTurn self.now seat result.1 ask result.2 }
    {
        let TicketSeat { number, mut pass } = seat;
        let ticket = self.draw(&mut pass, number);
        let mut value = self.wait(rt, &mut pass, ticket);
        let before = Snapshot::of(&value);
        let asked = Snapshot::of(&ask);
        let answer = value.reply(number, ask);
        let position = self.pass_on(&mut pass, value, number, ticket, &before, &asked, &answer);
        (TicketSeat { number, pass }, position as u32, answer)
    }

    // Takes a number back with its calls.
    fn take_back(&self, seats: &mut TicketSeats<S>, seat: TicketSeat<S>)
        requires seats { IsSeatsOf self.now seats.old }
        requires seat { IsSeatOf self.now seat }
        ensures seats { IsSeatsOf self.now seats.new }
        ensures given { seats_given seats.new ≡ seats_given seats.old }
        ensures kept { seats_kept seats.new ≡ seats_kept seats.old ++ seat_own seat ∷ [] }
    {
        let TicketSeat { number: _, pass } = seat;
        self.table
            .shared
            .join_seat::<TakeBack>(&mut seats.pass, pass);
    }

    // Learns from the table that what is kept are calls of one history.
    fn settle(&self, seats: &mut TicketSeats<S>)
        requires seats { IsSeatsOf self.now seats.old }
        ensures seats { IsSeatsOf self.now seats.new }
        ensures given { seats_given seats.new ≡ seats_given seats.old }
        ensures kept { seats_kept seats.new ≡ seats_kept seats.old }
        ensures history { KeepsHistory self.now seats.new }
    {
        self.table.shared.load::<Settle<S>>(&mut seats.pass, 0);
    }

    /// Takes a seat back with its calls. What the seats keep are calls of one history: each is
    /// right after those before it. Once every seat that was handed out came back, the calls that
    /// are kept have the positions from 0 without a gap, each once.
    pub fn give(&self, seats: &mut TicketSeats<S>, seat: TicketSeat<S>)
        requires seats { IsSeatsOf self.now seats.old }
        requires seat { IsSeatOf self.now seat }
        ensures seats { IsSeatsOf self.now seats.new }
        ensures given { seats_given seats.new ≡ seats_given seats.old }
        ensures kept { seats_kept seats.new ≡ seats_kept seats.old ++ seat_own seat ∷ [] }
        ensures history { KeepsHistory self.now seats.new }
        ensures whole { AllHome seats.new → KeepsOneHistory self.now seats.new }
    {
        self.take_back(seats, seat);
        self.settle(seats);
    }

    /// The value, once every seat that was handed out came back. The calls that it stores are those
    /// of the seats, each at its position.
    pub fn close(self, seats: TicketSeats<S>) -> S
        requires seats { IsSeatsOf self seats }
        requires home { AllHome seats }
        ensures start { S.start result ≡ S.start (lock_value self) }
        ensures room { S.room result ≡ S.room (lock_value self) }
        ensures history { KeepsHistoryOf self seats (S.calls result) }
        ensures whole { KeepsOneHistoryOf self seats (S.calls result) }
    {
        let TicketLock { table, .. } = self;
        let TicketSeats { given: _, pass } = seats;
        let mut closed = table.close_with(pass);
        let value = closed.take(0).unwrap();
        closed.free();
        value
    }
}
