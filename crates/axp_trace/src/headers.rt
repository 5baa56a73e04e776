//! The first line of an event list and of a trace.
ghost use Rattle.std.specs.Prelude.{ℕ, List, ◌≡◌, ◌^◌, ◌≤◌, ◌<◌, ◌++◌, IfSome, Some, map, ◌↔◌};
ghost use Rattle.std.specs.Prelude.{true, false};
ghost use Rattle.arrayvec.specs.ArrayVec.{array_vec_len};
ghost use Rattle.axp_trace.specs.Lines.{events_header, trace_header};
ghost use Rattle.axp_trace.specs.Reading.{header_in, header_of, header_text, header_by, HasRange};
ghost use Rattle.axp_trace.specs.Reading.{cpus_in, budget_in};
ghost use Rattle.axp_trace.specs.declared.headers.Header.{Header};
ghost use Rattle.axp_trace.specs.declared.lines.TheConstants.{LINE_ROOM};

use crate::LineText;
use crate::digits::{push_all, push_byte, push_decimal, read_within};
use crate::fields::{MOST_NUMBER, words};
use arrayvec::ArrayVec;
use axp_base::{MAX_BUDGET, MAX_CPUS, MIN_CPUS};

/// What the first line of an event list or a trace says.
#[derive(Clone, Copy, Debug, PartialEq, Eq)]
pub struct Header {
    /// Whether it is that of a trace, whose lines have what came of their events.
    pub full: bool,
    /// The number of processors, [`MIN_CPUS`] to [`MAX_CPUS`].
    pub cpus: u8,
    /// How many steps each processor makes at most, 1 to [`MAX_BUDGET`].
    pub budget: u32,
    /// The bytes of memory, below 2^32; 0 in an event list.
    pub memory: u64,
}

/// The first line of a trace, without its line feed: the number of processors, the steps that each
/// makes at most, and the bytes of memory, below 2^32 (`docs/FORMATS.md`, "The trace").
#[tactic(auto, unfolding(crate::specs::Lines::trace_header))]
pub fn write_header(cpus: u8, budget: u32, memory: u64) -> LineText
    requires { memory < 2 ^ 32 }
    ensures text { result.items ≡ trace_header cpus budget memory }
    ensures short { array_vec_len result < LINE_ROOM }
{
    let mut out = ArrayVec::new();
    push_all(&mut out, b"axp-trace 1 cpus ");
    push_byte(&mut out, cpus);
    push_all(&mut out, b" budget ");
    push_decimal(&mut out, budget);
    push_all(&mut out, b" memory ");
    push_decimal(&mut out, memory as u32);
    out
}

/// The first line of an event list with these numbers.
#[tactic(auto, unfolding(crate::specs::Lines::events_header))]
fn write_events_header(cpus: u8, budget: u32) -> LineText
    ensures { result.items ≡ events_header cpus budget }
{
    let mut out = ArrayVec::new();
    push_all(&mut out, b"axp-events 1 cpus ");
    push_byte(&mut out, cpus);
    push_all(&mut out, b" budget ");
    push_decimal(&mut out, budget);
    out
}

/// The first line of an event list or a trace with this header.
fn header_line(header: &Header) -> LineText
    requires { header.now.memory < 2 ^ 32 }
    ensures { result.items ≡ header_text header.now }
{
    if header.full {
        write_header(header.cpus, header.budget, header.memory)
    } else {
        write_events_header(header.cpus, header.budget)
    }
}

/// The number of processors that a word names.
fn guess_cpus(word: &[u8]) -> Option<u8>
    ensures { result ≡ cpus_in word.now }
{
    Some(read_within(word, MIN_CPUS as u64, MAX_CPUS as u64)? as u8)
}

/// The number of steps that a word names.
fn guess_budget(word: &[u8]) -> Option<u32>
    ensures { result ≡ budget_in word.now }
{
    Some(read_within(word, 1, MAX_BUDGET as u64)? as u32)
}

/// What the words of a header mean.
fn guess_header(words: &[&[u8]]) -> Option<Header>
    ensures value { result ≡ header_in (map (λ w. w.now) words.now) }
    ensures memory { IfSome result (λ h. h.memory < 2 ^ 32) }
{
    match words {
        [_, _, _, cpus, _, budget] => Some(Header {
            full: false,
            cpus: guess_cpus(cpus)?,
            budget: guess_budget(budget)?,
            memory: 0,
        }),
        [_, _, _, cpus, _, budget, _, memory] => Some(Header {
            full: true,
            cpus: guess_cpus(cpus)?,
            budget: guess_budget(budget)?,
            memory: read_within(memory, 0, MOST_NUMBER)?,
        }),
        _ => None,
    }
}

/// The header that the first line of an event list or a trace, without its line feed, spells; `None`
/// where the line is the text of no header with numbers in range (`docs/FORMATS.md`, "The event
/// list" and "Reading a trace").
#[tactic(auto, unfolding(crate::specs::Reading::header_of), using(crate::proofs::ReadingLemmas::header_in_long))]
pub fn read_header(line: &[u8]) -> Option<Header>
    ensures value { result ≡ header_of line.now }
    ensures spelled { IfSome result (λ h. line.now ≡ header_text h) }
    ensures in_range { IfSome result HasRange }
{
    let words = words(line)?;
    let header = guess_header(words.as_slice())?;
    if header_line(&header).as_slice() == line {
        Some(header)
    } else {
        None
    }
}

/// A line is read as a header exactly where it is the header's text and the header's numbers are in
/// range.
pub fn headers_are_their_texts()
    ensures { (line : List ℕ) (h : Header)
        → (header_of line ≡ Some h) ↔ ((line ≡ header_text h) × HasRange h) }
{}

#[cfg(test)]
mod tests {
    use super::*;

    #[test]
    fn a_header_is_read_as_it_is_spelled(rt: HostRuntime) {
        for (line, header) in [
            ("axp-events 1 cpus 2 budget 20", Some((false, 2, 20, 0))),
            (
                "axp-events 1 cpus 8 budget 32768",
                Some((false, 8, 32_768, 0)),
            ),
            ("axp-events 1 cpus 1 budget 20", None),
            ("axp-events 1 cpus 9 budget 20", None),
            ("axp-events 1 cpus 2 budget 0", None),
            ("axp-events 1 cpus 2 budget 32769", None),
            ("axp-events 1 cpus 2 budget 020", None),
            ("axp-events 2 cpus 2 budget 20", None),
            ("axp-events 1 cpus 2 budget 20 ", None),
            (
                "axp-trace 1 cpus 2 budget 1 memory 8192",
                Some((true, 2, 1, 8192)),
            ),
            (
                "axp-trace 1 cpus 8 budget 20 memory 4294967295",
                Some((true, 8, 20, 4_294_967_295)),
            ),
            ("axp-trace 1 cpus 2 budget 1 memory 4294967296", None),
            ("axp-trace 1 cpus 2 budget 1 memory 08192", None),
            ("axp-trace 1 cpus 2 budget 1", None),
            ("axp-events 1 cpus 2 budget 20 memory 8192", None),
            ("", None),
        ] {
            let read = read_header(line.as_bytes());
            let expected = header.map(|(full, cpus, budget, memory)| Header {
                full,
                cpus,
                budget,
                memory,
            });
            assert!(rt; read == expected, "at {line}");
        }
    }
}
