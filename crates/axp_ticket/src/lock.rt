//! The lock and its seats.
ghost use Rattle.std.specs.Prelude.{◌≡◌, ◌*◌, ◌<◌, ◌^◌};
ghost use Rattle.axp_ticket.specs.Moves.{IsIdle, IsGathering};

use crate::board::{InTurn, Opening, View};
use crate::places::Places;
use crate::serving::Served;
use atomic_table::{Seat, Table};
use std::alloc::Global;

mod turns;

/// A lock round one value, whose callers are served in the order of the tickets that they draw. It
/// has a number of seats, and an allowance of calls for each of them.
#[derive(Drop)]
pub struct TicketLock<S: Served> {
    table: Table<Option<S>, View<S, S::Ask, S::Answer>, Opening<S>, InTurn<S>, Global>,
    seats: u8,
    places: Places,
    ghost sized: { (table.shared.table_id.words ≡ 2) × (table.shared.table_id.slots ≡ 1) },
    ghost same: { seats ≡ table.shared.key.seats },
    ghost few: { table.shared.key.seats * table.shared.key.allowance < 2 ^ 32 },
}

/// The seats of a lock that were not yet handed out, and those that were given back with their
/// calls.
#[derive(Drop)]
pub struct TicketSeats<S: Served> {
    given: u8,
    pass: Seat<Option<S>, View<S, S::Ask, S::Answer>>,
    ghost gathers: { IsGathering given pass },
}

/// One seat of a lock: its number, and the calls that were made with it.
#[derive(Drop)]
pub struct TicketSeat<S: Served> {
    number: u8,
    pass: Seat<Option<S>, View<S, S::Ask, S::Answer>>,
    ghost idle: { IsIdle number pass },
}
