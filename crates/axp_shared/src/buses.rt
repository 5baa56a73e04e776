//! The bus that threads share, and its seats.
ghost use Rattle.std.specs.Prelude.{◌≡◌, ◌+◌, ◌++◌, ◌∷◌, ◌<◌, ◌≤◌, [], List, length};
ghost use Rattle.std.specs.Prelude.{IfOk, IfSome, IfNone};
ghost use Rattle.axp_base.specs.declared.processors.TheConstants.{MAX_BUDGET, MAX_CPUS, MIN_CPUS};
ghost use Rattle.axp_line.specs.BusCalls.{BusCall};
ghost use Rattle.axp_ticket.specs.Seats.{AllHome, AreAllThere, HasOneCallMore, LaterThan};
ghost use Rattle.axp_ticket.specs.Seats.{seat_calls, seat_number, seat_own, seats_given};
ghost use Rattle.axp_ticket.specs.Seats.{seats_kept};
ghost use Rattle.axp_shared.specs.Answers.{MayAskBus};
ghost use Rattle.axp_shared.specs.Buses.{AreSeatsOfBus, IsBusOf, IsNewSeatOfBus, IsReplyInTurn};
ghost use Rattle.axp_shared.specs.Buses.{IsSeatOfBus, KeepsBusHistory, bus_allowance, bus_start};

use crate::logs::BusLog;
use axp_base::NoMemory;
use axp_bus::CallList;
use axp_image::Image;
use axp_line::{Reply, Request};
use axp_ticket::{Served, TicketLock, TicketSeat, TicketSeats};
use std::alloc::Global;
use std::sync::Wait;

/// How many calls a seat may make for each step of the budget.
pub const CALLS_PER_STEP: u32 = 13;

/// A value that threads share. Only over any value is it proved that threads may share it, so
/// [`SharedBus`] is a name for one such type.
#[derive(Drop)]
pub struct Shared<S: Served> {
    lock: TicketLock<S>,
}

/// The bus that threads share, with a seat for each processor.
pub type SharedBus = Shared<BusLog>;

/// The seats of a shared bus that were not yet handed out, and those that came back with their
/// calls.
pub type BusSeats = TicketSeats<BusLog>;

/// A seat of a shared bus: its number, which is that of its processor, and the calls that were made
/// with it.
pub type BusSeat = TicketSeat<BusLog>;

impl Shared<BusLog> {
    /// The bus of the memory that an image describes and of `cpus` processors, from [`MIN_CPUS`] to
    /// [`MAX_CPUS`], with all its seats. Each may make [`CALLS_PER_STEP`] calls for each step of
    /// the budget, which is at most [`MAX_BUDGET`], and all room for them is taken here.
    /// [`NoMemory`] where memory was not found for it.
    ///
    /// [`MIN_CPUS`]: axp_base::MIN_CPUS
    /// [`MAX_CPUS`]: axp_base::MAX_CPUS
    /// [`MAX_BUDGET`]: axp_base::MAX_BUDGET
    pub fn open(
        alloc: Global,
        image: &Image,
        cpus: u8,
        budget: u32,
    ) -> Result<(SharedBus, BusSeats), NoMemory>
        requires least { MIN_CPUS ≤ cpus }
        requires most { cpus ≤ MAX_CPUS }
        requires budget { budget ≤ MAX_BUDGET }
        ensures bus { IfOk result (λ t. IsBusOf t.0 image.now cpus budget) }
        ensures seats { IfOk result (λ t. AreSeatsOfBus t.0 t.1) }
        ensures all_there { IfOk result (λ t. AreAllThere t.1) }
    {
        let allowance = CALLS_PER_STEP * budget;
        let log = BusLog::load(alloc, image, cpus, u32::from(cpus) * allowance)?;
        let (lock, seats) = TicketLock::open(alloc, log, cpus, allowance)?;
        Ok((Shared { lock }, seats))
    }

    /// The seat of the first processor whose seat was not handed out, without calls; `None` exactly
    /// where all were.
    pub fn next(&self, seats: &mut BusSeats) -> Option<BusSeat>
        requires seats { AreSeatsOfBus self.now seats.old }
        ensures seats { AreSeatsOfBus self.now seats.new }
        ensures kept { seats_kept seats.new ≡ seats_kept seats.old }
        ensures all_out { IfNone result (seats_given seats.old ≡ (bus_start self.now).cpus) }
        ensures none_given { IfNone result (seats_given seats.new ≡ seats_given seats.old) }
        ensures some_left { IfSome result (λ s. seats_given seats.old < (bus_start self.now).cpus) }
        ensures one_given { IfSome result (λ s. seats_given seats.new ≡ seats_given seats.old + 1) }
        ensures seat { IfSome result (IsNewSeatOfBus self.now (seats_given seats.old)) }
    {
        self.lock.next(seats)
    }

    /// Waits for the seat's turn, and has the bus answer the request of the seat's processor. Gives
    /// the seat back with exactly this call more, the call's position among all calls, from 0 on,
    /// and the reply. The position is above those of the seat's earlier calls, and the reply is
    /// what the bus answers after the calls before it. The seat has to have made fewer calls than
    /// it is allowed. A seat that waits sleeps. No order is promised between seats, nor that a seat
    /// is ever served.
    pub fn turn<R: Wait>(&self, rt: &R, seat: BusSeat, request: Request) -> (BusSeat, u32, Reply)
        requires seat { IsSeatOfBus self.now seat }
        requires asks { MayAskBus (bus_start self.now) request }
        requires few { length (seat_calls seat) < bus_allowance self.now }
        ensures seat { IsSeatOfBus self.now result.0 }
        ensures number { seat_number result.0 ≡ seat_number seat }
        ensures call { HasOneCallMore seat result.0 result.1 request result.2 }
        ensures later { LaterThan seat result.1 }
        ensures reply { IsReplyInTurn self.now seat result.1 request result.2 }
    {
        self.lock.turn(rt, seat, request)
    }

    /// Takes a seat back with its calls. The calls that came back stand in one list of calls of the
    /// bus, each reply of which is the bus's after the calls before it. Once every seat that was
    /// handed out came back, they are all calls of that list.
    pub fn give(&self, seats: &mut BusSeats, seat: BusSeat)
        requires seats { AreSeatsOfBus self.now seats.old }
        requires seat { IsSeatOfBus self.now seat }
        ensures seats { AreSeatsOfBus self.now seats.new }
        ensures given { seats_given seats.new ≡ seats_given seats.old }
        ensures kept { seats_kept seats.new ≡ seats_kept seats.old ++ seat_own seat ∷ [] }
        ensures history { (log : List BusCall) × KeepsBusHistory self.now seats.new log }
    {
        self.lock.give(seats, seat)
    }

    /// All calls of the bus, the earliest first, once every seat that was handed out came back:
    /// those of the seats, each at its position.
    pub fn close(self, seats: BusSeats) -> CallList
        requires seats { AreSeatsOfBus self seats }
        requires home { AllHome seats }
        ensures { KeepsBusHistory self seats result.items }
    {
        let Shared { lock } = self;
        lock.close(seats).into_calls()
    }
}
