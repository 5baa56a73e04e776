//! The access of a step, both ways.
ghost use Rattle.std.specs.Prelude.{◌≡◌, ◌+◌, ◌-◌, ◌*◌, ◌≤◌, ◌++◌, Some, map};
ghost use Rattle.std.specs.Str.{bytes_eq};
ghost use Rattle.arrayvec.specs.ArrayVec.{array_vec_len};
ghost use Rattle.axp_base.specs.Masks.{IsSize};
ghost use Rattle.axp_base.specs.declared.processors.TheConstants.{MAX_CPUS};
ghost use Rattle.axp_access.specs.Spelling.{IsSpelled};
ghost use Rattle.axp_trace.specs.Digits.{number_of, hex_number_of, number_within};
ghost use Rattle.axp_trace.specs.Fields.{turn_in, entry_in, moved_in, data_in, bare_of};
ghost use Rattle.axp_trace.specs.Lines.{place_text, data_text, success_text, move_text, access_text};
ghost use Rattle.axp_trace.specs.Records.{access_of, placed_by, stored_by, write_barrier_of};
ghost use Rattle.axp_trace.specs.Records.{barrier_kind, read_kind, alone_in, message_in, memory_in};
ghost use Rattle.axp_trace.specs.Records.{fence_in, fetch_in, conditional_in, step_in};
ghost use Rattle.axp_trace.specs.declared.lines.TheConstants.{LINE_ROOM};

use crate::LineText;
use crate::digits::{push_all, push_byte, push_hex, read_hex, read_within};
use crate::fields::{
    Moved, guess_data, guess_entry, guess_moved, guess_turn, push_entry, push_turn,
};
use axp_access::{Access, Kind, Outcome, Place};
use axp_base::{Cpu, MAX_CPUS};

/// Appends where an access stands, behind a blank.
#[tactic(auto, using(crate::proofs::SpellingLemmas::turn_of_access))]
fn push_place(out: &mut LineText, access: &Access)
    requires room { array_vec_len out.old + 12 ≤ LINE_ROOM }
    requires spelled { IsSpelled access.now }
    ensures text { out.new.items ≡ out.old.items ++ place_text access.now.place }
    ensures len { array_vec_len out.new ≤ array_vec_len out.old + 12 }
{
    match access.place {
        Place::At(turn) => push_turn(out, turn),
        Place::Entry(number) => {
            push_all(out, b" ");
            push_entry(out, number);
        }
        Place::Absent => {}
    }
}

/// Appends what an access of data moves.
fn push_data(out: &mut LineText, access: &Access)
    requires room { array_vec_len out.old + 29 ≤ LINE_ROOM }
    requires size { IsSize access.now.size }
    ensures text { out.new.items ≡ out.old.items ++ data_text access.now }
    ensures len { array_vec_len out.new ≤ array_vec_len out.old + 29 }
{
    push_hex(out, 8, access.address);
    push_all(out, b" ");
    push_byte(out, access.size);
    push_all(out, b" ");
    push_hex(out, 2 * access.size, access.value);
}

/// Appends whether a store-conditional succeeded.
fn push_success(out: &mut LineText, yes: bool)
    requires { array_vec_len out.old + 3 ≤ LINE_ROOM }
    ensures text { out.new.items ≡ out.old.items ++ success_text yes }
    ensures len { array_vec_len out.new ≤ array_vec_len out.old + 3 }
{
    if yes {
        push_all(out, b"yes");
    } else {
        push_all(out, b"no");
    }
}

/// Appends what an access does.
#[tactic(auto, unfolding(crate::specs::Lines::move_text))]
fn push_move(out: &mut LineText, access: &Access)
    requires room { array_vec_len out.old + 35 ≤ LINE_ROOM }
    requires spelled { IsSpelled access.now }
    ensures text { out.new.items ≡ out.old.items ++ move_text access.now.kind access.now }
    ensures len { array_vec_len out.new ≤ array_vec_len out.old + 35 }
{
    match access.kind {
        Kind::Fetch => {
            push_all(out, b"i ");
            push_hex(out, 8, access.address);
            push_all(out, b" ");
            push_hex(out, 8, access.value);
        }
        Kind::Read => {
            push_all(out, b"r ");
            push_data(out, access);
        }
        Kind::Write => {
            push_all(out, b"w ");
            push_data(out, access);
        }
        Kind::Locked => {
            push_all(out, b"l ");
            push_data(out, access);
        }
        Kind::Conditional => {
            push_all(out, b"c ");
            push_data(out, access);
            push_all(out, b" ");
            push_success(out, access.yes);
        }
        Kind::Barrier => push_all(out, b"m"),
        Kind::WriteBarrier => push_all(out, b"s"),
        Kind::CodeBarrier => push_all(out, b"b"),
        Kind::Signal => {
            push_all(out, b"g ");
            push_byte(out, access.value as u8);
        }
        Kind::Console => {
            push_all(out, b"p ");
            push_hex(out, 2, access.value);
        }
        Kind::Poll => {}
    }
}

/// Appends an access.
#[tactic(auto, unfolding(crate::specs::Lines::access_text))]
pub(crate) fn push_access(out: &mut LineText, access: &Access)
    requires room { array_vec_len out.old + 47 ≤ LINE_ROOM }
    requires spelled { IsSpelled access.now }
    ensures text { out.new.items ≡ out.old.items ++ access_text access.now }
    ensures len { array_vec_len out.new ≤ array_vec_len out.old + 47 }
{
    push_move(out, access);
    push_place(out, access);
}

/// What came of a step with this access.
fn accessed(cpu: Cpu, kind: Kind, moved: Moved, yes: bool, place: Place) -> Outcome
    ensures { result ≡ access_of cpu kind moved yes place }
{
    Outcome::Access(Access {
        cpu,
        kind,
        address: moved.address,
        size: moved.size,
        value: moved.value,
        yes,
        place,
    })
}

/// What came of a step with an access at the turn that a word names.
fn placed(cpu: Cpu, kind: Kind, moved: Moved, yes: bool, turn: &[u8]) -> Option<Outcome>
    ensures { result ≡ placed_by cpu (Some kind) (Some moved) yes (turn_in turn.now) }
{
    let turn = guess_turn(turn)?;
    Some(accessed(cpu, kind, moved, yes, Place::At(turn)))
}

/// What came of a step with a plain write into the entry that a word names.
fn stored(cpu: Cpu, moved: Moved, entry: &[u8]) -> Option<Outcome>
    ensures { result ≡ stored_by cpu (Some moved) (entry_in entry.now) }
{
    let entry = guess_entry(entry)?;
    let place = Place::Entry(entry as u32);
    Some(accessed(cpu, Kind::Write, moved, false, place))
}

/// A number that names no memory.
fn bare(value: u64) -> Moved
    ensures { Some result ≡ bare_of (Some value) }
{
    Moved {
        address: 0,
        size: 0,
        value,
    }
}

/// The kind of the barrier that a letter names, which has a place.
fn guess_barrier(letter: &[u8]) -> Option<Kind>
    ensures { result ≡ barrier_kind letter.now }
{
    if letter == b"m" as &[u8] {
        Some(Kind::Barrier)
    } else if letter == b"b" as &[u8] {
        Some(Kind::CodeBarrier)
    } else {
        None
    }
}

/// The kind of the read that a letter names.
fn guess_read(letter: &[u8]) -> Option<Kind>
    ensures { result ≡ read_kind letter.now }
{
    if letter == b"r" as &[u8] {
        Some(Kind::Read)
    } else if letter == b"l" as &[u8] {
        Some(Kind::Locked)
    } else {
        None
    }
}

/// What one word means: no access, or a write barrier.
fn guess_alone(cpu: Cpu, letter: &[u8]) -> Option<Outcome>
    ensures { result ≡ alone_in cpu letter.now }
{
    if letter == b"n" as &[u8] {
        Some(Outcome::NoAccess)
    } else if letter == b"s" as &[u8] {
        let barrier = accessed(cpu, Kind::WriteBarrier, bare(0), false, Place::Absent);
        Some(barrier)
    } else {
        None
    }
}

/// What a letter, a number and a turn mean: a signal, or a byte to the console.
fn guess_message(cpu: Cpu, letter: &[u8], value: &[u8], turn: &[u8]) -> Option<Outcome>
    ensures { result ≡ message_in cpu letter.now value.now turn.now }
{
    if letter == b"g" as &[u8] {
        let target = read_within(value, 0, MAX_CPUS as u64 - 1)?;
        placed(cpu, Kind::Signal, bare(target), false, turn)
    } else if letter == b"p" as &[u8] {
        let byte = read_hex(value, 2)?;
        placed(cpu, Kind::Console, bare(byte), false, turn)
    } else {
        None
    }
}

/// What a letter and a turn mean: a barrier that has a place.
fn guess_fence(cpu: Cpu, letter: &[u8], turn: &[u8]) -> Option<Outcome>
    ensures { result ≡ fence_in cpu letter.now turn.now }
{
    let kind = guess_barrier(letter)?;
    placed(cpu, kind, bare(0), false, turn)
}

/// What an address, a word and a turn mean: a fetch.
fn guess_fetch(cpu: Cpu, address: &[u8], word: &[u8], turn: &[u8]) -> Option<Outcome>
    ensures { result ≡ fetch_in cpu address.now word.now turn.now }
{
    let moved = guess_moved(address, 4, word)?;
    placed(cpu, Kind::Fetch, moved, false, turn)
}

/// What a letter, bytes of memory and a place mean: a plain write, or a read.
fn guess_memory(cpu: Cpu, letter: &[u8], moved: Option<Moved>, place: &[u8]) -> Option<Outcome>
    ensures { result ≡ memory_in cpu letter.now moved place.now }
{
    let moved = moved?;
    if letter == b"w" as &[u8] {
        stored(cpu, moved, place)
    } else {
        let kind = guess_read(letter)?;
        placed(cpu, kind, moved, false, place)
    }
}

/// What bytes of memory, whether they were stored, and a turn mean: a store-conditional.
fn guess_conditional(cpu: Cpu, moved: Option<Moved>, yes: &[u8], turn: &[u8]) -> Option<Outcome>
    ensures { result ≡ conditional_in cpu moved yes.now turn.now }
{
    let yes = yes == b"yes" as &[u8];
    placed(cpu, Kind::Conditional, moved?, yes, turn)
}

/// What the words of a step's outcome mean.
pub(crate) fn guess_step(cpu: Cpu, words: &[&[u8]]) -> Option<Outcome>
    ensures { result ≡ step_in cpu (map (λ w. w.now) words.now) }
{
    match words {
        [letter] => guess_alone(cpu, letter),
        [letter, turn] => guess_fence(cpu, letter, turn),
        [letter, value, turn] => guess_message(cpu, letter, value, turn),
        [_, address, word, turn] => guess_fetch(cpu, address, word, turn),
        [letter, address, size, value, place] => {
            guess_memory(cpu, letter, guess_data(address, size, value), place)
        }
        [_, address, size, value, yes, turn] => {
            guess_conditional(cpu, guess_data(address, size, value), yes, turn)
        }
        _ => None,
    }
}
