// A lock may be shared and its seats may be sent where the value may be sent, and so may what wraps
// a lock generically. A wrapper at one type alone gets no such proof, so a layer above writes its
// wrapper over any `S: Served` and names the type by an alias.
use crate::{Served, TicketLock, TicketSeat, TicketSeats};

fn is_sync<T: Sync>() {}

fn is_send<T: Send>() {}

// A wrapper as a layer above writes it.
struct Wrapper<S: Served> {
    lock: TicketLock<S>,
}

pub fn lock_is_sync<S: Served + Send>() {
    is_sync::<TicketLock<S>>();
    is_sync::<Wrapper<S>>();
}

pub fn lock_is_send<S: Served + Send>() {
    is_send::<TicketLock<S>>();
}

pub fn seats_are_send<S: Served + Send>() {
    is_send::<TicketSeat<S>>();
    is_send::<TicketSeats<S>>();
}
