//! What a line behind the first of an event list or a trace is.
ghost use Rattle.std.specs.Prelude.{ℕ, List, ◌≡◌, ◌≢◌, ◌↔◌, Some, IsNone, IfSome, true, false};
ghost use Rattle.axp_access.specs.declared.Event.{Event};
ghost use Rattle.axp_access.specs.declared.Outcome.{Outcome};
ghost use Rattle.axp_access.specs.declared.tail_items.TailItem.{TailItem};
ghost use Rattle.axp_trace.specs.Lines.{line_text, tail_line};
ghost use Rattle.axp_trace.specs.TraceLines.{line_of, line_by, as_record, SpellsLine};
ghost use Rattle.axp_trace.specs.Records.{IsRecord};
ghost use Rattle.axp_trace.specs.Tails.{IsItem};
ghost use Rattle.axp_trace.specs.declared.fields.TheConstants.{BLANK, MOST_NUMBER};
ghost use Rattle.axp_trace.specs.declared.headers.Header.{Header};
ghost use Rattle.axp_trace.specs.declared.lines.TheConstants.{LINE_ROOM};
ghost use Rattle.axp_trace.specs.declared.lines.TraceLine.{TraceLine};
ghost use Rattle.axp_trace.specs.declared.lines.TraceLine.TheVariants.{Full, Tail};
ghost use Rattle.axp_trace.specs.declared.records.TheConstants.{COLON};
ghost use Rattle.axp_trace.specs.declared.tails.TheConstants.{MOST_HALT, MOST_REGISTER};

use crate::Header;
use crate::events::read_event;
use crate::records::read_record;
use crate::tails::is_tail;
use arrayvec::ArrayVec;
use axp_access::{Event, Outcome};

/// The most bytes of a line that is neither the console's nor one of two that show a difference, its
/// line feed among them.
pub const LINE_ROOM: usize = 96;

/// The text of one line, without its line feed.
pub type LineText = ArrayVec<u8, LINE_ROOM>;

/// What a line behind the first is.
#[derive(Clone, Copy, Debug, PartialEq, Eq)]
pub enum TraceLine {
    /// An event of an event list.
    Bare(Event),
    /// An event of a trace, and what came of it.
    Full(Event, Outcome),
    /// A line of a trace's tail.
    Tail,
}

/// What a line of a trace for so many processors is.
fn read_full(line: &[u8], cpus: u8) -> Option<TraceLine>
    ensures { result ≡ line_by true cpus line.now }
{
    match read_record(line, cpus) {
        Some(record) => Some(TraceLine::Full(record.event, record.outcome)),
        None if is_tail(line, cpus) => Some(TraceLine::Tail),
        None => None,
    }
}

/// What a line of an event list for so many processors is.
fn read_bare(line: &[u8], cpus: u8) -> Option<TraceLine>
    ensures { result ≡ line_by false cpus line.now }
{
    let event = read_event(line, cpus)?;
    Some(TraceLine::Bare(event))
}

/// What a line is, where the first line is that of a trace or of an event list.
#[tactic(auto, unfolding(crate::specs::TraceLines::line_of))]
fn read_either(line: &[u8], header: &Header) -> Option<TraceLine>
    ensures { result ≡ line_of header.now line.now }
{
    if header.full {
        read_full(line, header.cpus)
    } else {
        read_bare(line, header.cpus)
    }
}

/// What a line, without its line feed, is under the header of its file; `None` where it is outside
/// the grammar: in an event list where it spells no event of a processor below the header's count,
/// in a trace where it spells neither such an event with what came of it, nor a line of the tail
/// (`docs/FORMATS.md`, "The event list" and "Reading a trace").
pub fn read_line(line: &[u8], header: &Header) -> Option<TraceLine>
    ensures value { result ≡ line_of header.now line.now }
    ensures spelled { (l : TraceLine) → (result ≡ Some l)
        ↔ SpellsLine header.now.full header.now.cpus line.now l }
    ensures means { IfSome result (SpellsLine header.now.full header.now.cpus line.now) }
    ensures none { IsNone result
        ↔ ((l : TraceLine) → SpellsLine header.now.full header.now.cpus line.now l → ⊥) }
{
    read_either(line, header)
}

/// What is written is read back under a header of a trace: a record whose processors are below the
/// header's count, and an item of the tail in the same way; a line that is read as a record is
/// written so again, and no line is both a record's and the tail's.
pub fn lines_are_read_back()
    ensures record { (h : Header) (e : Event) (o : Outcome) → h.full ≡ true
        → IsRecord h.cpus (as_record e o) → line_of h (line_text e o) ≡ Some (Full e o) }
    ensures tail { (h : Header) (i : TailItem) → h.full ≡ true
        → IsItem h.cpus i → line_of h (tail_line i) ≡ Some Tail }
    ensures written { (h : Header) (line : List ℕ) (e : Event) (o : Outcome)
        → line_of h line ≡ Some (Full e o) → line_text e o ≡ line }
    ensures apart { (e : Event) (o : Outcome) (i : TailItem) → line_text e o ≢ tail_line i }
{}

/// The limits of the fields of lines, as numbers.
pub fn limits_are_these()
    ensures room { LINE_ROOM ≡ 96 }
    ensures number { MOST_NUMBER ≡ 4294967295 }
    ensures halt { MOST_HALT ≡ 4 }
    ensures register { MOST_REGISTER ≡ 30 }
    ensures blank { BLANK ≡ 32 }
    ensures colon { COLON ≡ 58 }
{}
