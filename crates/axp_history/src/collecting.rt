//! The second pass over a trace: its accesses and drains are put into a list.
ghost use Rattle.std.specs.Prelude.{◌≡◌, ◌+◌, ◌≤◌, [], true, length, IfSome};
ghost use Rattle.axp_access.specs.Lists.{no_accesses};
ghost use Rattle.axp_trace.specs.Files.{lines_of};
ghost use Rattle.axp_trace.specs.TraceLines.{line_of};
ghost use Rattle.axp_history.specs.Shown.{HasPlaceFor, IsSpelledRecord, list_of, record_by, with_record_in};
ghost use Rattle.axp_history.specs.Surveys.{accesses_of, count_in};
ghost use Rattle.axp_history.specs.Traces.{front_of};

use axp_access::{Access, AccessList, Kind, Outcome, Place, Record};
use axp_trace::{Header, TraceLine, first_line, read_line};

/// The record that a line shows, if it shows one.
fn read_record(line: &[u8], header: &Header) -> Option<Record>
    ensures value { result ≡ record_by (line_of header.now line.now) }
    ensures spelled { IfSome result IsSpelledRecord }
{
    match read_line(line, header) {
        Some(TraceLine::Full(event, outcome)) => Some(Record { event, outcome }),
        Some(TraceLine::Tail | TraceLine::Bare(_)) | None => None,
    }
}

/// Puts what a record shows last: an access, the turn of a drain, or nothing.
fn put_record(list: &mut AccessList, shown: Record)
    requires spelled { IsSpelledRecord shown }
    requires room { length list.old.items + count_in shown.outcome ≤ list.old.room }
    requires place { HasPlaceFor list.old shown.event shown.outcome }
    ensures { list.new ≡ with_record_in shown.event shown.outcome list.old }
{
    let cpu = shown.event.cpu;
    match shown.outcome {
        Outcome::Access(access) => list.push(access),
        Outcome::Polled { pending, turn, .. } => list.push(Access {
            cpu,
            kind: Kind::Poll,
            address: 0,
            size: 0,
            value: 0,
            yes: pending,
            place: Place::At(turn),
        }),
        Outcome::Drained { entry, turn, .. } => list.drained(cpu, entry, turn),
        Outcome::NoAccess | Outcome::Filled { .. } | Outcome::Taken { .. } | Outcome::Done => {}
    }
}

/// Puts what the events' lines of a trace show into a list without accesses; the lines up to the tail
/// are in the grammar, and there is room for their accesses.
pub(crate) fn collect(list: &mut AccessList, header: &Header, lines: &[u8])
    requires start { list.old ≡ no_accesses list.old.room }
    requires good { (front_of header.now [] (lines_of lines.now)).good ≡ true }
    requires room { accesses_of (front_of header.now [] (lines_of lines.now)).records ≤ list.old.room }
    ensures { list.new ≡ list_of list.old.room (front_of header.now [] (lines_of lines.now)).records }
{
    let mut rest = lines;
    while let Some((line, more)) = first_line(rest) {
        let Some(shown) = read_record(line, header) else {
            return;
        };
        put_record(list, shown);
        rest = more;
    }
}
