//! One line of a file behind the first: its event is done and printed, or it is refused.
ghost use Rattle.std.specs.Prelude.{◌≡◌, ◌+◌, ◌^◌, ◌<◌, Some};
ghost use Rattle.axp_access.specs.Spelling.{Spells};
ghost use Rattle.axp_machine.specs.Runs.{answer_of};
ghost use Rattle.axp_top.specs.Outside.{sink_state};
ghost use Rattle.axp_top.specs.Replays.{event_result, full_result, is_in_order};
ghost use Rattle.axp_top.specs.Replays.{next_line, refused_event, refused_line};
ghost use Rattle.axp_top.specs.Replays.{result_of, right_result};
ghost use Rattle.axp_top.specs.Walks.{PrintsLine, PrintsStep};

use crate::Status;
use crate::printing::{Stop, print_line};
use crate::refusals::{print_bad_trace, print_difference, print_not_legal};
use axp_access::{Event, Outcome, Place, Record};
use axp_history::{is_undrained, is_waiting};
use axp_io::Sink;
use axp_machine::{Machine, NotLegal};
use axp_trace::{Header, TraceLine, read_line, write_event};
use std::alloc::Global;

/// What came of a line.
#[derive(Clone, Copy, Debug, PartialEq, Eq)]
pub enum Step {
    /// Its event is done, and its line printed.
    Recorded,
    /// It begins the tail of a trace.
    OfTail,
    /// It is refused, which is printed; the work ends with this status.
    Refused(Status),
}

/// The number of the line behind a machine's records: the header is the first.
pub fn next_line(machine: &Machine) -> u32
    ensures value { result ≡ next_line machine.now }
    ensures few { result < 2 ^ 31 + 2 }
{
    machine.events() + 2
}

/// Does the event of a line and prints its line, or prints why the line is refused.
pub fn print_event<K: Sink>(
    alloc: Global,
    sink: &mut K,
    machine: &mut Machine,
    header: &Header,
    line: &[u8],
) -> Result<Step, Stop>
    ensures { let seen = sink_state K.taken K.faults K.puts in
        PrintsLine (seen sink.old) (seen sink.new) machine.old machine.new
        (result_of header.now machine.old (Some line.now)) result }
{
    match read_line(line, header) {
        None => refuse_line(alloc, sink, machine),
        Some(TraceLine::Bare(event)) => print_bare(alloc, sink, machine, event),
        Some(TraceLine::Full(event, outcome)) => {
            print_full(alloc, sink, machine, line, event, outcome)
        }
        Some(TraceLine::Tail) => Ok(Step::OfTail),
    }
}

/// Refuses a line that is outside the grammar.
fn refuse_line<K: Sink>(alloc: Global, sink: &mut K, machine: &mut Machine) -> Result<Step, Stop>
    ensures { let seen = sink_state K.taken K.faults K.puts in
        PrintsLine (seen sink.old) (seen sink.new) machine.old machine.new
        (refused_line machine.old) result }
{
    let status = print_bad_trace(alloc, sink, next_line(machine))?;
    Ok(Step::Refused(status))
}

/// Refuses the next event, which is not legal.
fn refuse_event<K: Sink>(alloc: Global, sink: &mut K, machine: &mut Machine) -> Result<Step, Stop>
    ensures { let seen = sink_state K.taken K.faults K.puts in
        PrintsLine (seen sink.old) (seen sink.new) machine.old machine.new
        (refused_event machine.old) result }
{
    let status = print_not_legal(alloc, sink, machine.events() + 1)?;
    Ok(Step::Refused(status))
}

/// Does an event of a list.
fn print_bare<K: Sink>(
    alloc: Global,
    sink: &mut K,
    machine: &mut Machine,
    event: Event,
) -> Result<Step, Stop>
    ensures { let seen = sink_state K.taken K.faults K.puts in
        PrintsLine (seen sink.old) (seen sink.new) machine.old machine.new
        (event_result machine.old event (answer_of machine.old event)) result }
{
    match machine.event(event) {
        Err(NotLegal) => refuse_event(alloc, sink, machine),
        Ok(outcome) => {
            print_line(alloc, sink, write_event(event, outcome))?;
            Ok(Step::Recorded)
        }
    }
}

/// Does an event of a trace, whose line must be the right one.
fn print_full<K: Sink>(
    alloc: Global,
    sink: &mut K,
    machine: &mut Machine,
    line: &[u8],
    event: Event,
    outcome: Outcome,
) -> Result<Step, Stop>
    ensures { let seen = sink_state K.taken K.faults K.puts in
        PrintsLine (seen sink.old) (seen sink.new) machine.old machine.new
        (full_result machine.old line.now event outcome) result }
{
    if !is_in_order(machine, event, outcome) {
        return refuse_line(alloc, sink, machine);
    }
    let number = next_line(machine);
    match machine.event(event) {
        Err(NotLegal) => refuse_event(alloc, sink, machine),
        Ok(outcome) => print_right(alloc, sink, number, line, Record { event, outcome }),
    }
}

/// Prints the line of a record, or how the line of this number differs from it.
fn print_right<K: Sink>(
    alloc: Global,
    sink: &mut K,
    number: u32,
    line: &[u8],
    shown: Record,
) -> Result<Step, Stop>
    requires { Spells shown.event shown.outcome }
    ensures { let seen = sink_state K.taken K.faults K.puts in
        PrintsStep (seen sink.old) (seen sink.new) (right_result number line.now shown) result }
{
    let right = write_event(shown.event, shown.outcome);
    if right.as_slice() == line {
        print_line(alloc, sink, right)?;
        Ok(Step::Recorded)
    } else {
        let status = print_difference(alloc, sink, number, line, right.as_slice())?;
        Ok(Step::Refused(status))
    }
}

/// Whether a line may show this outcome: a write names no entry that a drain named before it, and a
/// drain names one that a write named before it, and no drain.
fn is_in_order(machine: &Machine, event: Event, outcome: Outcome) -> bool
    ensures { result ≡ is_in_order machine.now event outcome }
{
    match outcome {
        Outcome::Access(access) => match access.place {
            Place::Entry(n) => is_undrained(machine.entry(event.cpu, n)),
            Place::At(_) | Place::Absent => true,
        },
        Outcome::Drained { entry, .. } => is_waiting(machine.entry(event.cpu, entry)),
        Outcome::NoAccess
        | Outcome::Filled { .. }
        | Outcome::Taken { .. }
        | Outcome::Done
        | Outcome::Polled { .. } => true,
    }
}
