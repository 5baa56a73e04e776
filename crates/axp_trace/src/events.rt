//! The lines of an event list: a processor, and what it does.
ghost use Rattle.std.specs.Prelude.{ℕ, List, ◌≡◌, ◌+◌, ◌≤◌, ◌<◌, ◌++◌, IfSome, Some, map, ◌↔◌};
ghost use Rattle.arrayvec.specs.ArrayVec.{array_vec_len};
ghost use Rattle.axp_base.specs.Cpus.{cpu_number};
ghost use Rattle.axp_access.specs.Spelling.{IsNamed};
ghost use Rattle.axp_access.specs.declared.Act.TheVariants.{Step};
ghost use Rattle.axp_access.specs.declared.Event.{Event};
ghost use Rattle.axp_trace.specs.Digits.{number_of, hex_number_of};
ghost use Rattle.axp_trace.specs.Fields.{line_in, bank_in, data_bank_in};
ghost use Rattle.axp_trace.specs.Lines.{act_text, event_text};
ghost use Rattle.axp_trace.specs.Reading.{bare_act_in, drain_in, take_in, numbered_act_in, drop_by};
ghost use Rattle.axp_trace.specs.Reading.{act_in, event_in, event_of};
ghost use Rattle.axp_trace.specs.declared.digits.TheConstants.{ADDRESS_DIGITS};
ghost use Rattle.axp_trace.specs.declared.lines.TheConstants.{LINE_ROOM};

use crate::LineText;
use crate::digits::{push_all, push_byte, read_number};
use crate::fields::{
    data_bank, guess_bank, guess_cpu, guess_line, push_address, push_bank, push_bank_number, words,
};
use arrayvec::ArrayVec;
use axp_access::{Act, Event, MAX_DRAINS};
#[cfg(test)]
use axp_base::{Bank, Line};

/// Appends what a processor does.
#[tactic(auto, unfolding(crate::specs::Lines::act_text))]
fn push_act(out: &mut LineText, act: Act)
    requires { array_vec_len out.old + 16 ≤ LINE_ROOM }
    ensures text { out.new.items ≡ out.old.items ++ act_text act }
    ensures len { array_vec_len out.new ≤ array_vec_len out.old + 16 }
    ensures step { act ≡ Step → array_vec_len out.new ≤ array_vec_len out.old + 4 }
{
    match act {
        Act::Step => push_all(out, b"step"),
        Act::Fill => push_all(out, b"fill"),
        Act::Drain(number) => {
            push_all(out, b"drain ");
            push_byte(out, number);
        }
        Act::Take(bank) => {
            push_all(out, b"take ");
            push_bank_number(out, bank);
        }
        Act::Drop(bank, line) => {
            push_all(out, b"drop ");
            push_bank(out, bank);
            push_all(out, b" ");
            push_address(out, line);
        }
        Act::Poll => push_all(out, b"poll"),
        Act::Tick => push_all(out, b"tick"),
    }
}

/// Appends an event.
#[tactic(auto, unfolding(crate::specs::Lines::event_text))]
pub(crate) fn push_event(out: &mut LineText, event: Event)
    requires { array_vec_len out.old + 20 ≤ LINE_ROOM }
    ensures text { out.new.items ≡ out.old.items ++ event_text event }
    ensures len { array_vec_len out.new ≤ array_vec_len out.old + 20 }
    ensures step { event.act ≡ Step → array_vec_len out.new ≤ array_vec_len out.old + 8 }
{
    push_byte(out, event.cpu.number());
    push_all(out, b" ");
    push_act(out, event.act);
}

/// What an act of one word means.
fn guess_bare_act(verb: &[u8]) -> Option<Act>
    ensures { result ≡ bare_act_in verb.now }
{
    if verb == b"step" as &[u8] {
        Some(Act::Step)
    } else if verb == b"fill" as &[u8] {
        Some(Act::Fill)
    } else if verb == b"poll" as &[u8] {
        Some(Act::Poll)
    } else if verb == b"tick" as &[u8] {
        Some(Act::Tick)
    } else {
        None
    }
}

/// The drain of this number.
fn drain(number: u64) -> Option<Act>
    ensures { result ≡ drain_in (Some number) }
{
    if number < MAX_DRAINS as u64 {
        Some(Act::Drain(number as u8))
    } else {
        None
    }
}

/// What an act of a word and a number means.
fn guess_numbered_act(verb: &[u8], word: &[u8]) -> Option<Act>
    ensures { result ≡ numbered_act_in verb.now (number_of word.now) }
{
    if verb == b"drain" as &[u8] {
        drain(read_number(word)?)
    } else if verb == b"take" as &[u8] {
        Some(Act::Take(data_bank(read_number(word)?)?))
    } else {
        None
    }
}

/// What the words behind `drop` mean.
fn guess_drop(bank: &[u8], address: &[u8]) -> Option<Act>
    ensures { result ≡ drop_by (bank_in bank.now) (line_in (hex_number_of ADDRESS_DIGITS address.now)) }
{
    Some(Act::Drop(guess_bank(bank)?, guess_line(address)?))
}

/// What the words of an act mean.
fn guess_act(words: &[&[u8]]) -> Option<Act>
    ensures { result ≡ act_in (map (λ w. w.now) words.now) }
{
    match words {
        [verb] => guess_bare_act(verb),
        [verb, number] => guess_numbered_act(verb, number),
        [verb, bank, address] if *verb == b"drop" as &[u8] => guess_drop(bank, address),
        _ => None,
    }
}

/// What the words of an event mean.
fn guess_event(words: &[&[u8]]) -> Option<Event>
    ensures { result ≡ event_in (map (λ w. w.now) words.now) }
{
    let [cpu, act @ ..] = words else {
        return None;
    };
    let cpu = guess_cpu(cpu)?;
    let act = guess_act(act)?;
    Some(Event { cpu, act })
}

/// The text of an event.
fn event_line(event: Event) -> LineText
    ensures { result.items ≡ event_text event }
{
    let mut out = ArrayVec::new();
    push_event(&mut out, event);
    out
}

/// The event that a line, without its line feed, spells in a list for this many processors; `None`
/// where the line is the text of no event of one of them (`docs/FORMATS.md`, "The event list").
#[tactic(auto, unfolding(crate::specs::Reading::event_of), using(crate::proofs::ReadingLemmas::event_in_long, crate::proofs::ActNameLemmas::named_event))]
pub fn read_event(line: &[u8], cpus: u8) -> Option<Event>
    ensures value { result ≡ event_of cpus line.now }
    ensures spelled { IfSome result (λ e. line.now ≡ event_text e) }
    ensures below { IfSome result (λ e. cpu_number e.cpu < cpus) }
    ensures named { IfSome result (λ e. IsNamed e.act) }
{
    let words = words(line)?;
    let event = guess_event(words.as_slice())?;
    if event.cpu.number() < cpus && event_line(event).as_slice() == line {
        Some(event)
    } else {
        None
    }
}

/// A line is read as an event exactly where it is the event's text, the event's processor is below
/// the count, and its act is one that is printed.
pub fn events_are_their_texts()
    ensures { (cpus : ℕ) (line : List ℕ) (e : Event)
        → (event_of cpus line ≡ Some e) ↔
        ((line ≡ event_text e) × (cpu_number e.cpu < cpus) × IsNamed e.act) }
{}

#[cfg(test)]
mod tests {
    use super::*;

    #[test]
    fn a_line_is_read_as_it_is_spelled(rt: HostRuntime) {
        for (line, cpus, cpu) in [
            ("0 step", 8, Some(0)),
            ("7 step", 8, Some(7)),
            ("8 step", 8, None),
            ("2 step", 2, None),
            ("00 step", 8, None),
            (" 0 step", 8, None),
            ("0  step", 8, None),
            ("0 step ", 8, None),
            ("0 stepx", 8, None),
            ("0 fill", 8, Some(0)),
            ("", 8, None),
        ] {
            let event = read_event(line.as_bytes(), cpus);
            assert!(rt; event.map(|e| e.cpu.number()) == cpu, "at {line}");
        }
    }

    #[test]
    fn acts_are_read_as_they_are_spelled(rt: HostRuntime) {
        let even = Line::of(0x4000);
        for (line, act) in [
            ("0 step", Act::Step),
            ("0 fill", Act::Fill),
            ("0 drain 0", Act::Drain(0)),
            ("0 drain 7", Act::Drain(7)),
            ("0 take 0", Act::Take(Bank::Even)),
            ("0 take 1", Act::Take(Bank::Odd)),
            ("0 drop d0 00004000", Act::Drop(Bank::Even, even)),
            (
                "0 drop d1 FFFFFFC0",
                Act::Drop(Bank::Odd, Line::of(0xFFFF_FFC0)),
            ),
            ("0 drop i 00000000", Act::Drop(Bank::Code, Line::of(0))),
            ("0 poll", Act::Poll),
            ("0 tick", Act::Tick),
        ] {
            let event = read_event(line.as_bytes(), 8);
            assert!(rt; event.map(|e| e.act) == Some(act), "at {line}");
        }
    }

    #[test]
    fn acts_spelled_otherwise_are_refused(rt: HostRuntime) {
        for line in [
            "0 Step",
            "0 step 0",
            "0 fill ",
            "0 fill d0",
            "0 drain",
            "0 drain ",
            "0 drain 8",
            "0 drain 08",
            "0 drain 07",
            "0 drain 256",
            "0 drain x",
            "0 take",
            "0 take 2",
            "0 take i",
            "0 take d0",
            "0 take 00",
            "0 drop d0",
            "0 drop d0 00004010",
            "0 drop d2 00004000",
            "0 drop 0 00004000",
            "0 drop d0 4000",
            "0 drop d0 000004000",
            "0 drop d0 0000400O",
            "0 drop d0 ffffffc0",
            "0 drop d0 00004000 ",
            "0 poll 1",
            "0 ticks",
        ] {
            assert!(rt; read_event(line.as_bytes(), 8).is_none(), "at {line}");
        }
    }
}
