//! The list of the calls of a bus.
ghost use Rattle.std.specs.Prelude.{◌≡◌, ◌<◌, ◌≤◌, Some, length, slice_get, IfOk};
ghost use Rattle.axp_bus.specs.CallLists.{no_calls, with_call};

use axp_base::NoMemory;
use axp_line::{Reply, Request};
use std::alloc::Global;
use std::marker::Model;

/// A call of a bus: the processor that made it, what it asked, and what it was answered.
pub type Call = axp_call::Call<Request, Reply>;

/// A list of calls that owns its memory, seen as its calls and its room: how many there may be.
#[derive(Debug, Drop)]
pub struct CallList {
    items: Vec<Call>,
}

impl Model for CallList {
    ghost use Rattle.axp_bus.specs.CallLists.{Calls};

    ghost Value = { Calls };

    ghost use Rattle.axp_bus.specs.CallListParts.{calls_of, HasRoom};

    ghost view = { calls_of };

    ghost invariant = { HasRoom };
}

impl CallList {
    /// A list of no call with this room, all of whose memory is taken here; [`NoMemory`] where it
    /// was not found.
    pub fn with_room(alloc: Global, room: u32) -> Result<CallList, NoMemory>
        ensures { IfOk result (λ list. list ≡ no_calls room) }
    {
        let items = Vec::with_capacity(alloc, room as usize)?;
        Ok(CallList { items })
    }

    /// Puts a call last; there is to be room for it, so no memory is taken.
    pub fn push(&mut self, call: Call)
        requires { length self.old.items < self.old.room }
        ensures { self.new ≡ with_call self.old call }
    {
        self.items.push_reserved(call);
    }

    /// The number of calls.
    pub fn len(&self) -> u32
        ensures value { result ≡ length self.now.items }
        ensures within { result ≤ self.now.room }
    {
        self.items.len() as u32
    }

    /// The call of this number, counted from 0.
    pub fn get(&self, n: u32) -> &Call
        requires { n < length self.now.items }
        ensures { slice_get self.now.items n ≡ Some result.now }
    {
        &self.items[n as usize]
    }
}
