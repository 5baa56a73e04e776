//! Laws of the lock's rule and of the histories that it keeps, each proved as the contract of a
//! function that does nothing.
ghost use Rattle.std.specs.Prelude.{◌≡◌, ℕ, List, [], ◌∷◌, ◌++◌, Option};
ghost use Rattle.atomic_table.specs.Table.{State};
ghost use Rattle.axp_call.specs.declared.calls.Call.{Call};
ghost use Rattle.axp_call.specs.Calls.{caller, AllRight, EachRight};
ghost use Rattle.axp_ticket.specs.declared.board.Own.{Own};
ghost use Rattle.axp_ticket.specs.declared.board.View.{View};
ghost use Rattle.axp_ticket.specs.History.{IsOneHistory};
ghost use Rattle.axp_ticket.specs.Queue.{Queued, terms_of};
ghost use Rattle.axp_ticket.specs.Parts.{IsInOrder};

use crate::serving::Served;

/// Between any two steps the tickets from the one that is served on are each held by one view, the
/// value is away exactly where a view has the turn, each number that was handed out stands in one
/// view, their calls have the positions of one history, each once, and the value stores that
/// history.
pub fn callers_are_in_order<S: Served>()
    ensures { (seats allowance : ℕ) (opened : S) (s : State (Option S) (View S S.Ask S.Answer))
        → Queued (terms_of S.start S.room S.calls S.Right seats allowance opened) s
        → (next given : ℕ) × (value : S) × (log : List (Call S.Ask S.Answer))
        × IsInOrder (terms_of S.start S.room S.calls S.Right seats allowance opened)
        s next given value log }
{}

/// The calls that are kept fix the history in which they stand.
pub fn kept_calls_fix_the_history<S: Served>()
    ensures { (start : S.Start) (kept : List (Own S.Ask S.Answer))
        (one other : List (Call S.Ask S.Answer))
        → IsOneHistory S.Right start kept one → IsOneHistory S.Right start kept other
        → one ≡ other }
{}

/// Where every call is right after those before it, by the recursion, each one by itself is right
/// after those before it. And this stays so where a call that is right after all of them is
/// appended.
pub fn each_call_is_right<S: Served>()
    ensures each { (start : S.Start) (calls : List (Call S.Ask S.Answer))
        → AllRight S.Right start calls → EachRight S.Right start calls }
    ensures longer { (start : S.Start) (calls : List (Call S.Ask S.Answer))
        (c : Call S.Ask S.Answer)
        → EachRight S.Right start calls → S.Right start calls (caller c) c.ask c.answer
        → EachRight S.Right start (calls ++ c ∷ []) }
{}
