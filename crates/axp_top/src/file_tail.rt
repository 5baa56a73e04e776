//! The tail of a trace, compared with the right one line by line.
ghost use Rattle.std.specs.Prelude.{◌≡◌, ◌<◌, ◌≤◌, ◌^◌, length, false};
ghost use Rattle.axp_trace.specs.Files.{lines_of};
ghost use Rattle.axp_trace.specs.TraceLines.{line_of};
ghost use Rattle.axp_machine.specs.Tails.{tail_items};
ghost use Rattle.axp_top.specs.Outside.{sink_state};
ghost use Rattle.axp_top.specs.Replays.{is_tail_line, item_refusal, next_line, tail_refusal};
ghost use Rattle.axp_top.specs.Walks.{PrintsRefusal};

use crate::Status;
use crate::events::next_line;
use crate::printing::Stop;
use crate::refusals::{print_bad_trace, print_difference};
use axp_io::Sink;
use axp_machine::{Machine, TailAt};
use axp_trace::{Header, TraceLine, first_line, read_line, write_tail};
use std::alloc::Global;

/// Compares the lines behind the events of a trace with the tail of the machine, which is complete.
/// Prints why the first of them is refused that is, and tells the status; `None` where all are
/// right.
pub fn print_tail_refusal<K: Sink>(
    alloc: Global,
    sink: &mut K,
    machine: &Machine,
    header: &Header,
    lines: &[u8],
) -> Result<Option<Status>, Stop>
    requires { length lines.now < 2 ^ 30 }
    ensures { let seen = sink_state K.taken K.faults K.puts in
        PrintsRefusal (seen sink.old) (seen sink.new)
        (tail_refusal header.now (next_line machine.now) (tail_items machine.now)
        (lines_of lines.now)) result }
{
    let mut at = TailAt::start();
    let mut number = next_line(machine);
    let mut rest = lines;
    while let Some((item, next)) = machine.tail_next(alloc, at)? {
        let Some((line, more)) = first_line(rest) else {
            return Ok(Some(print_bad_trace(alloc, sink, number)?));
        };
        let right = write_tail(alloc, &item)?;
        let refused = print_item_refusal(alloc, sink, header, number, line, right.as_slice())?;
        if refused.is_some() {
            return Ok(refused);
        }
        at = next;
        number += 1;
        rest = more;
    }
    if rest.is_empty() {
        Ok(None)
    } else {
        Ok(Some(print_bad_trace(alloc, sink, number)?))
    }
}

/// Prints why a line of the tail is refused that has this number, and should be this one.
fn print_item_refusal<K: Sink>(
    alloc: Global,
    sink: &mut K,
    header: &Header,
    number: u32,
    line: &[u8],
    right: &[u8],
) -> Result<Option<Status>, Stop>
    ensures { let seen = sink_state K.taken K.faults K.puts in
        PrintsRefusal (seen sink.old) (seen sink.new)
        (item_refusal header.now number line.now right.now) result }
{
    if !is_tail_line(line, header) {
        return Ok(Some(print_bad_trace(alloc, sink, number)?));
    }
    if right == line {
        return Ok(None);
    }
    Ok(Some(print_difference(alloc, sink, number, line, right)?))
}

/// Whether a line is one of the tail of a trace.
fn is_tail_line(line: &[u8], header: &Header) -> bool
    ensures { result ≡ is_tail_line (line_of header.now line.now) }
{
    match read_line(line, header) {
        Some(TraceLine::Tail) => true,
        Some(TraceLine::Bare(_) | TraceLine::Full(..)) | None => false,
    }
}
