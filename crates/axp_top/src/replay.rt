//! The run of a file's events over an image: its text, up to the first line that is refused.
ghost use Rattle.std.specs.Prelude.{◌≡◌, ◌<◌, ◌≤◌, ◌^◌, [], length, IfOk};
ghost use Rattle.arrayvec.specs.ArrayVec.{array_vec_len};
ghost use Rattle.axp_trace.specs.Files.{lines_of};
ghost use Rattle.axp_trace.specs.declared.lines.TheConstants.{LINE_ROOM};
ghost use Rattle.axp_top.specs.Texts.{right_header};
ghost use Rattle.axp_top.specs.Outside.{sink_state};
ghost use Rattle.axp_top.specs.Printing.{Ends};
ghost use Rattle.axp_top.specs.Replays.{answer_of_lines, answer_of_run, answer_of_start, bad_trace};
ghost use Rattle.axp_top.specs.Replays.{complete_ending, events_ending, is_other_memory, whole_ending};
ghost use Rattle.axp_top.specs.Walks.{PrintsAnswer, PrintsEvents, result_parts};

use crate::Status;
use crate::events::{Step, next_line, print_event};
use crate::file_tail::print_tail_refusal;
use crate::printing::{Stop, print_line, refuse};
use crate::refusals::{print_bad_trace, print_difference, print_incomplete};
use crate::tail::print_tail;
use axp_image::Image;
use axp_io::Sink;
use axp_machine::Machine;
use axp_trace::{Header, LineText, first_line, read_header, write_bad_trace, write_header};
use std::alloc::Global;

/// Does the events of a file's lines and prints a line for each, up to the first line that is
/// refused, which is printed, or that begins the tail. Tells the status of the refusal, or the lines
/// that are left where there is none.
fn print_events<'a, K: Sink>(
    alloc: Global,
    sink: &mut K,
    machine: &mut Machine,
    header: &Header,
    lines: &'a [u8],
) -> Result<(Option<Status>, &'a [u8]), Stop>
    ensures printed { let seen = sink_state K.taken K.faults K.puts in
        PrintsEvents (seen sink.old) (seen sink.new) header.now machine.old machine.new
        (lines_of lines.now) (result_parts (λ r. r.now) result) }
    ensures rest { IfOk result (λ r. length r.1.now ≤ length lines.now) }
{
    let mut rest = lines;
    while let Some((line, more)) = first_line(rest) {
        match print_event(alloc, sink, machine, header, line)? {
            Step::Recorded => rest = more,
            Step::OfTail => return Ok((None, rest)),
            Step::Refused(status) => return Ok((Some(status), rest)),
        }
    }
    if rest.is_empty() {
        Ok((None, rest))
    } else {
        let status = print_bad_trace(alloc, sink, next_line(machine))?;
        Ok((Some(status), rest))
    }
}

/// Prints the whole tail.
fn print_whole<K: Sink>(alloc: Global, sink: &mut K, machine: &Machine) -> Result<Status, Stop>
    ensures { let seen = sink_state K.taken K.faults K.puts in
        PrintsAnswer (seen sink.old) (seen sink.new) (whole_ending machine.now) result }
{
    print_tail(alloc, sink, machine)?;
    Ok(Status::Done)
}

/// Prints how a complete run ends: the file has no tail, or the right one, or its tail is refused.
fn print_complete<K: Sink>(
    alloc: Global,
    sink: &mut K,
    machine: &Machine,
    header: &Header,
    rest: &[u8],
) -> Result<Status, Stop>
    requires { length rest.now < 2 ^ 30 }
    ensures { let seen = sink_state K.taken K.faults K.puts in
        PrintsAnswer (seen sink.old) (seen sink.new)
        (complete_ending header.now machine.now (lines_of rest.now)) result }
{
    if rest.is_empty() {
        return print_whole(alloc, sink, machine);
    }
    match print_tail_refusal(alloc, sink, machine, header, rest)? {
        Some(status) => Ok(status),
        None => print_whole(alloc, sink, machine),
    }
}

/// Prints how a run ends whose events were all done.
fn print_ending<K: Sink>(
    alloc: Global,
    sink: &mut K,
    machine: &Machine,
    header: &Header,
    rest: &[u8],
) -> Result<Status, Stop>
    requires { length rest.now < 2 ^ 30 }
    ensures { let seen = sink_state K.taken K.faults K.puts in
        PrintsAnswer (seen sink.old) (seen sink.new)
        (events_ending header.now machine.now (lines_of rest.now)) result }
{
    if machine.complete() {
        print_complete(alloc, sink, machine, header, rest)
    } else {
        print_incomplete(alloc, sink, machine.events())
    }
}

/// The first line of the right trace.
pub fn right_header(machine: &Machine) -> LineText
    ensures text { result.items ≡ right_header machine.now }
    ensures short { array_vec_len result < LINE_ROOM }
{
    write_header(machine.cpus(), machine.budget(), machine.memory_size())
}

/// Prints the run of a file's lines behind the first over a machine at the start.
fn print_run<K: Sink>(
    alloc: Global,
    sink: &mut K,
    machine: &mut Machine,
    header: &Header,
    lines: &[u8],
) -> Result<Status, Stop>
    requires start { machine.old.records ≡ [] }
    requires most { length lines.now < 2 ^ 30 }
    ensures { let seen = sink_state K.taken K.faults K.puts in
        PrintsAnswer (seen sink.old) (seen sink.new)
        (answer_of_run header.now machine.old (lines_of lines.now)) result }
{
    print_line(alloc, sink, right_header(machine))?;
    let (refused, rest) = print_events(alloc, sink, machine, header, lines)?;
    match refused {
        Some(status) => Ok(status),
        None => print_ending(alloc, sink, machine, header, rest),
    }
}

/// Prints what a file gives over a machine at the start: its run, or that it is a trace of another
/// size of memory.
fn print_file<K: Sink>(
    alloc: Global,
    sink: &mut K,
    machine: &mut Machine,
    header: &Header,
    first: &[u8],
    lines: &[u8],
) -> Result<Status, Stop>
    requires start { machine.old.records ≡ [] }
    requires most { length lines.now < 2 ^ 30 }
    ensures { let seen = sink_state K.taken K.faults K.puts in
        PrintsAnswer (seen sink.old) (seen sink.new)
        (answer_of_start header.now machine.old first.now (lines_of lines.now)) result }
{
    if header.full && header.memory != machine.memory_size() {
        print_line(alloc, sink, right_header(machine))?;
        print_difference(alloc, sink, 1, first, right_header(machine).as_slice())
    } else {
        print_run(alloc, sink, machine, header, lines)
    }
}

/// Refuses a file whose first line is outside the grammar.
fn refuse_file<K: Sink>(alloc: Global, sink: &mut K) -> Status
    ensures { let seen = sink_state K.taken K.faults K.puts in
        Ends (seen sink.old) (seen sink.new) (bad_trace 1) result }
{
    refuse(
        alloc,
        sink,
        write_bad_trace(1),
        Status::BadTrace { line: 1 },
    )
}

/// Prints the run of an event list, or of a trace, over an image.
pub fn replay<K: Sink>(alloc: Global, sink: &mut K, image: &Image, file: &[u8]) -> Status
    requires { length file.now < 2 ^ 30 }
    ensures { let seen = sink_state K.taken K.faults K.puts in
        Ends (seen sink.old) (seen sink.new)
        (answer_of_lines image.now (lines_of file.now)) result }
{
    let Some((first, lines)) = first_line(file) else {
        return refuse_file(alloc, sink);
    };
    let Some(header) = read_header(first) else {
        return refuse_file(alloc, sink);
    };
    let Ok(mut machine) = Machine::load(alloc, image, header.cpus, header.budget) else {
        return Status::Memory;
    };
    match print_file(alloc, sink, &mut machine, &header, first, lines) {
        Ok(status) => status,
        Err(stop) => stop.status(),
    }
}
