// Threads may share the bus, and its seats may be sent to them.
use crate::{BusSeat, BusSeats, SharedBus};

fn is_sync<T: Sync>() {}

fn is_send<T: Send>() {}

pub fn bus_is_sync() {
    is_sync::<SharedBus>();
}

pub fn bus_is_send() {
    is_send::<SharedBus>();
}

pub fn seats_are_send() {
    is_send::<BusSeat>();
    is_send::<BusSeats>();
}
