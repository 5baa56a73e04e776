//! Where seats sleep while they wait for their turn.
use std::array;
use std::sync::Wait;
use std::sync::atomic::{AtomicU64, Ordering};

// Tickets that are so many apart share a place.
const PLACES: usize = 16;

// The places where seats sleep, by their tickets, so that a pass on wakes one seat and not all that
// wait. Each has a word that every wake there changes.
#[derive(Drop)]
pub(crate) struct Places {
    words: [AtomicU64; PLACES],
}

impl Places {
    pub(crate) fn new() -> Places {
        Places {
            words: array::from_fn(|_| AtomicU64::new(0)),
        }
    }

    fn word(&self, ticket: u64) -> &AtomicU64 {
        &self.words[(ticket % PLACES as u64) as usize]
    }

    // How often the seats at the ticket's place were woken, as a number of 32 bits.
    pub(crate) fn wakes(&self, ticket: u64) -> u32 {
        (self.word(ticket).load(Ordering::SeqCst) & u64::from(u32::MAX)) as u32
    }

    // Sleeps at the ticket's place, unless the seats there were woken since.
    pub(crate) fn sleep<R: Wait>(&self, rt: &R, ticket: u64, wakes: u32) {
        self.word(ticket).park(rt, wakes);
    }

    // Wakes the seats at the ticket's place.
    pub(crate) fn wake(&self, ticket: u64) {
        let word = self.word(ticket);
        word.fetch_add(1, Ordering::SeqCst);
        word.wake_all();
    }
}
