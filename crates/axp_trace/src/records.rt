//! The lines of a trace's events, both ways: an event, and what came of it.
ghost use Rattle.std.specs.Prelude.{ℕ, List, ◌≡◌, ◌≢◌, ◌+◌, ◌≤◌, ◌<◌, ◌++◌, ◌↔◌, IfSome, Some, map};
ghost use Rattle.arrayvec.specs.ArrayVec.{array_vec_len};
ghost use Rattle.axp_access.specs.declared.Act.TheVariants.{Step};
ghost use Rattle.axp_access.specs.declared.Record.{Record};
ghost use Rattle.axp_access.specs.Spelling.{IsOutcomeOf, Spells};
ghost use Rattle.axp_trace.specs.Lines.{copy_text, bit_text, poll_text, outcome_text, line_text};
ghost use Rattle.axp_trace.specs.Records.{filled_in, drained_in, taken_in, polled_in, done_in};
ghost use Rattle.axp_trace.specs.Records.{named_line, outcome_in, is_target_below, record_of, IsRecord};
ghost use Rattle.axp_trace.specs.declared.lines.TheConstants.{LINE_ROOM};

use crate::LineText;
use crate::accesses::{guess_step, push_access};
use crate::cuts::cut;
use crate::digits::push_all;
use crate::events::{push_event, read_event};
use crate::fields::{
    guess_bank, guess_entry, guess_line, guess_turn, push_address, push_bank, push_entry,
    push_turn, words,
};
use arrayvec::ArrayVec;
use axp_access::{Act, Event, Kind, Outcome, Record};

/// The byte between an event and what came of it.
const COLON: u8 = b':';

/// Appends what became of the copy of a line for which a late invalidation was delivered.
fn push_copy(out: &mut LineText, gone: bool)
    requires { array_vec_len out.old + 4 ≤ LINE_ROOM }
    ensures text { out.new.items ≡ out.old.items ++ copy_text gone }
    ensures len { array_vec_len out.new ≡ array_vec_len out.old + 4 }
{
    if gone {
        push_all(out, b"gone");
    } else {
        push_all(out, b"kept");
    }
}

/// Appends a bit.
fn push_bit(out: &mut LineText, bit: bool)
    requires { array_vec_len out.old + 1 ≤ LINE_ROOM }
    ensures text { out.new.items ≡ out.old.items ++ bit_text bit }
    ensures len { array_vec_len out.new ≡ array_vec_len out.old + 1 }
{
    if bit {
        push_all(out, b"1");
    } else {
        push_all(out, b"0");
    }
}

/// Appends whether the processor takes the interrupt for which it polled.
fn push_poll(out: &mut LineText, entered: bool)
    requires { array_vec_len out.old + 5 ≤ LINE_ROOM }
    ensures text { out.new.items ≡ out.old.items ++ poll_text entered }
    ensures len { array_vec_len out.new ≤ array_vec_len out.old + 5 }
{
    if entered {
        push_all(out, b"enter");
    } else {
        push_all(out, b"stay");
    }
}

/// Appends what came of an event.
#[tactic(auto, unfolding(crate::specs::Lines::outcome_text), using(crate::proofs::SpellingLemmas::step_of_access))]
fn push_outcome(out: &mut LineText, event: Event, outcome: Outcome)
    requires room { array_vec_len out.old + 47 ≤ LINE_ROOM }
    requires spelled { Spells event outcome }
    ensures text { out.new.items ≡ out.old.items ++ outcome_text outcome }
    ensures len { array_vec_len out.new ≤ array_vec_len out.old + 47 }
    ensures others { event.act ≢ Step → array_vec_len out.new ≤ array_vec_len out.old + 32 }
{
    match outcome {
        Outcome::Access(access) => push_access(out, &access),
        Outcome::NoAccess => push_all(out, b"n"),
        Outcome::Filled { bank, line, turn } => {
            push_bank(out, bank);
            push_all(out, b" ");
            push_address(out, line);
            push_turn(out, turn);
        }
        Outcome::Drained { entry, line, turn } => {
            push_entry(out, entry);
            push_all(out, b" ");
            push_address(out, line);
            push_turn(out, turn);
        }
        Outcome::Taken { line, turn, gone } => {
            push_address(out, line);
            push_turn(out, turn);
            push_all(out, b" ");
            push_copy(out, gone);
        }
        Outcome::Done => push_all(out, b"ok"),
        Outcome::Polled {
            pending,
            entered,
            turn,
        } => {
            push_bit(out, pending);
            push_turn(out, turn);
            push_all(out, b" ");
            push_poll(out, entered);
        }
    }
}

/// The line of an event and its outcome in a trace, without its line feed, in at most 64 bytes
/// (`docs/FORMATS.md`, "The trace"). The outcome is to be one of the event's, with its numbers in
/// the ranges that are printed.
#[tactic(auto, unfolding(crate::specs::Lines::line_text))]
pub fn write_event(event: Event, outcome: Outcome) -> LineText
    requires { Spells event outcome }
    ensures text { result.items ≡ line_text event outcome }
    ensures short { array_vec_len result ≤ 64 }
{
    let mut out = ArrayVec::new();
    push_event(&mut out, event);
    push_all(&mut out, b" : ");
    push_outcome(&mut out, event, outcome);
    out
}

/// What the words of a fill's outcome mean.
fn guess_filled(words: &[&[u8]]) -> Option<Outcome>
    ensures { result ≡ filled_in (map (λ w. w.now) words.now) }
{
    let [bank, address, turn] = words else {
        return None;
    };
    Some(Outcome::Filled {
        bank: guess_bank(bank)?,
        line: guess_line(address)?,
        turn: guess_turn(turn)?,
    })
}

/// What the words of a drain's outcome mean.
fn guess_drained(words: &[&[u8]]) -> Option<Outcome>
    ensures { result ≡ drained_in (map (λ w. w.now) words.now) }
{
    let [entry, address, turn] = words else {
        return None;
    };
    Some(Outcome::Drained {
        entry: guess_entry(entry)? as u32,
        line: guess_line(address)?,
        turn: guess_turn(turn)?,
    })
}

/// What the words of a take's outcome mean.
fn guess_taken(words: &[&[u8]]) -> Option<Outcome>
    ensures { result ≡ taken_in (map (λ w. w.now) words.now) }
{
    let [address, turn, fate] = words else {
        return None;
    };
    Some(Outcome::Taken {
        line: guess_line(address)?,
        turn: guess_turn(turn)?,
        gone: *fate == b"gone" as &[u8],
    })
}

/// What the words of a poll's outcome mean.
fn guess_polled(words: &[&[u8]]) -> Option<Outcome>
    ensures { result ≡ polled_in (map (λ w. w.now) words.now) }
{
    let [bit, turn, answer] = words else {
        return None;
    };
    Some(Outcome::Polled {
        pending: *bit == b"1" as &[u8],
        entered: *answer == b"enter" as &[u8],
        turn: guess_turn(turn)?,
    })
}

/// What the word of a drop's or a tick's outcome means.
fn guess_done(words: &[&[u8]]) -> Option<Outcome>
    ensures { result ≡ done_in (map (λ w. w.now) words.now) }
{
    match words {
        [_] => Some(Outcome::Done),
        _ => None,
    }
}

/// What the words behind the colon mean, of this event.
fn guess_outcome(event: Event, words: &[&[u8]]) -> Option<Outcome>
    ensures { result ≡ outcome_in event.cpu event.act (map (λ w. w.now) words.now) }
{
    match event.act {
        Act::Step => guess_step(event.cpu, words),
        Act::Fill => guess_filled(words),
        Act::Drain(_) => guess_drained(words),
        Act::Take(_) => guess_taken(words),
        Act::Drop(_, _) => guess_done(words),
        Act::Poll => guess_polled(words),
        Act::Tick => guess_done(words),
    }
}

/// Whether a signal goes to a processor below the count; every other outcome names none.
fn is_target_below_count(outcome: Outcome, cpus: u8) -> bool
    ensures { result ≡ is_target_below cpus outcome }
{
    match outcome {
        Outcome::Access(access) => match access.kind {
            Kind::Signal => access.value < cpus as u64,
            _ => true,
        },
        _ => true,
    }
}

/// The record that a line of a trace spells, where there are so many processors; `None` where the
/// line is the text of no record that names processors below the count alone.
#[tactic(auto, unfolding(crate::specs::Records::record_of))]
pub(crate) fn read_record(line: &[u8], cpus: u8) -> Option<Record>
    ensures { result ≡ record_of cpus line.now }
{
    let (front, back) = cut(line, COLON)?;
    let event = read_event(&front[..front.len().saturating_sub(1)], cpus)?;
    let words = words(back)?;
    let [_before, words @ ..] = words.as_slice() else {
        return None;
    };
    let outcome = guess_outcome(event, words)?;
    if is_target_below_count(outcome, cpus) && write_event(event, outcome).as_slice() == line {
        Some(Record { event, outcome })
    } else {
        None
    }
}

/// A line is read as a record exactly where it is the record's text, the record is one that is
/// printed, and the processors that it names are below the count.
pub fn records_are_their_texts()
    ensures { (cpus : ℕ) (line : List ℕ) (r : Record)
        → (record_of cpus line ≡ Some r) ↔ ((line ≡ line_text r.event r.outcome) × IsRecord cpus r) }
{}
