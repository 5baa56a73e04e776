//! What each step on the table tells.
ghost use Rattle.axp_ticket.specs.Moves.{drawn, looked, passed, settled, left_of, right_of};
ghost use Rattle.axp_ticket.specs.Moves.{both_of, nobody};

use crate::board::View;
use crate::serving::Served;
use atomic_table::{Join, Play, Split};
use std::marker::PhantomData;

// Draws the next ticket.
pub(crate) struct Draw;

impl<Value, Ask, Answer> Play<Option<Value>, View<Value, Ask, Answer>> for Draw {
    ghost then = { drawn };
}

// Looks whether the ticket is served, and takes the turn where it is.
pub(crate) struct Look<S> {
    served: PhantomData<S>,
}

impl<S: Served> Play<Option<S>, View<S, S::Ask, S::Answer>> for Look<S> {
    ghost then = { looked S.start S.room S.calls };
}

// Serves the next ticket, with the value back in its slot.
pub(crate) struct PassOn<S> {
    served: PhantomData<S>,
}

impl<S: Served> Play<Option<S>, View<S, S::Ask, S::Answer>> for PassOn<S> {
    ghost then = { passed S.calls };
}

// Tells the seat that gathers that what it keeps is of one history.
pub(crate) struct Settle<S> {
    served: PhantomData<S>,
}

impl<S: Served> Play<Option<S>, View<S, S::Ask, S::Answer>> for Settle<S> {
    ghost then = { settled S.start S.Right };
}

// Hands out the next number.
pub(crate) struct HandOut;

impl<Value, Ask, Answer> Split<View<Value, Ask, Answer>> for HandOut {
    ghost left = { left_of };

    ghost right = { right_of };
}

// Takes back a number with its calls.
pub(crate) struct TakeBack;

impl<Value, Ask, Answer> Join<View<Value, Ask, Answer>> for TakeBack {
    ghost both = { both_of };

    ghost spent = { nobody };
}
