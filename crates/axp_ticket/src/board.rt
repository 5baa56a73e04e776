//! The table that all seats share. Word 0 is the next ticket, and word 1 the ticket that is served.
//! The one slot holds the value.
use crate::serving::Served;
use atomic_table::TableRule;
use axp_call::Call;
use std::collections::LinkedList;
use std::marker::PhantomData;
use std::snapshot::Snapshot;

/// A call and its position among all calls, from 0 on.
pub struct Placed<Ask, Answer> {
    pub position: u64,
    pub call: Call<Ask, Answer>,
}

/// A number and its calls.
pub struct Own<Ask, Answer> {
    pub number: u64,
    pub calls: LinkedList<Placed<Ask, Answer>>,
}

/// What a seat of the table is for.
pub enum Role<Value, Ask, Answer> {
    /// Its number and calls went to the seat that gathers.
    Nobody,
    /// Between two calls of its number.
    Idle(Own<Ask, Answer>),
    /// With the ticket that was drawn.
    Waits(Own<Ask, Answer>, u64),
    /// With the ticket, and the value as it was taken.
    Turns(Own<Ask, Answer>, u64, Value),
    /// How many numbers were handed out, and those that came back with their calls.
    Gathers(u64, LinkedList<Own<Ask, Answer>>),
}

/// What a seat of the table knows: the value that the lock was opened with, and its role. No value
/// of it is made.
pub struct View<Value, Ask, Answer> {
    pub opened: Option<Value>,
    pub role: Role<Value, Ask, Answer>,
}

/// What the lock was opened with.
#[derive(Drop)]
pub struct Opening<Value> {
    pub seats: u8,
    pub allowance: u32,
    pub value: Snapshot<Value>,
}

/// The rule of the table.
pub struct InTurn<S> {
    served: PhantomData<S>,
}

impl<S: Served> TableRule<Option<S>, View<S, S::Ask, S::Answer>, Opening<S>> for InTurn<S> {
    ghost use Rattle.axp_ticket.specs.Queue.{Queued, terms_of, gathering};

    ghost holds = { λ key. Queued (terms_of S.start S.room S.calls S.Right
        key.seats key.allowance key.value.value) };

    ghost first = { λ key. gathering key.value.value };
}
