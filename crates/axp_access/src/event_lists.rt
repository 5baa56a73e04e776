ghost use Rattle.std.specs.Prelude.{◌≡◌, ◌-◌, ◌<◌, ◌≤◌, Some, length, slice_get, IfOk, IsOk};
ghost use Rattle.axp_access.specs.Events.{no_events, with_event};

use crate::Event;
use axp_base::NoMemory;
use std::alloc::Global;
use std::marker::Model;

/// A list of events that owns its memory, seen as its events and its room: how many there may be.
#[derive(Debug, Drop)]
pub struct EventList {
    items: Vec<Event>,
}

impl Model for EventList {
    ghost use Rattle.axp_access.specs.Events.{Events};

    ghost Value = { Events };

    ghost use Rattle.axp_access.specs.EventLists.{events_of, HasRoom};

    ghost view = { events_of };

    ghost invariant = { HasRoom };
}

impl EventList {
    /// A list of no event with this room, all of whose memory is taken here; a list without room
    /// takes none.
    pub fn with_room(alloc: Global, room: u32) -> Result<EventList, NoMemory>
        ensures value { IfOk result (λ list. list ≡ no_events room) }
        ensures no_room { room ≡ 0 → IsOk result }
    {
        let items = Vec::with_capacity(alloc, room as usize)?;
        Ok(EventList { items })
    }

    /// The number of events.
    pub fn len(&self) -> u32
        ensures value { result ≡ length self.now.items }
        ensures within { result ≤ self.now.room }
    {
        self.items.len() as u32
    }

    /// Puts an event last; there is to be room for it, so no memory is taken.
    pub fn push(&mut self, event: Event)
        requires { length self.old.items < self.old.room }
        ensures { self.new ≡ with_event self.old event }
    {
        self.items.push_reserved(event);
    }

    /// The event of this number, counted from 1 to the number of events.
    pub fn get(&self, n: u32) -> Event
        requires least { 1 ≤ n }
        requires most { n ≤ length self.now.items }
        ensures { slice_get self.now.items (n - 1) ≡ Some result }
    {
        self.items[n as usize - 1]
    }
}
