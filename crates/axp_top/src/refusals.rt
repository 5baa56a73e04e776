//! Refusals while a file is replayed: their lines, and the status that each ends with.
ghost use Rattle.axp_top.specs.Outside.{sink_state};
ghost use Rattle.axp_top.specs.Replays.{bad_trace, differs, incomplete, not_legal};
ghost use Rattle.axp_top.specs.Walks.{PrintsAnswer};

use crate::Status;
use crate::printing::{Stop, print_line, print_long_line};
use axp_io::Sink;
use axp_trace::{
    write_bad_trace, write_differs, write_given, write_incomplete, write_not_legal, write_right,
};
use std::alloc::Global;

/// Prints that the line of this number is outside the grammar.
pub fn print_bad_trace<K: Sink>(alloc: Global, sink: &mut K, line: u32) -> Result<Status, Stop>
    ensures { let seen = sink_state K.taken K.faults K.puts in
        PrintsAnswer (seen sink.old) (seen sink.new) (bad_trace line) result }
{
    print_line(alloc, sink, write_bad_trace(line))?;
    Ok(Status::BadTrace { line })
}

/// Prints that the event of this number is not legal.
pub fn print_not_legal<K: Sink>(alloc: Global, sink: &mut K, event: u32) -> Result<Status, Stop>
    ensures { let seen = sink_state K.taken K.faults K.puts in
        PrintsAnswer (seen sink.old) (seen sink.new) (not_legal event) result }
{
    print_line(alloc, sink, write_not_legal(event))?;
    Ok(Status::NotLegal { event })
}

/// Prints that the events end before the machine is complete.
pub fn print_incomplete<K: Sink>(alloc: Global, sink: &mut K, event: u32) -> Result<Status, Stop>
    ensures { let seen = sink_state K.taken K.faults K.puts in
        PrintsAnswer (seen sink.old) (seen sink.new) (incomplete event) result }
{
    print_line(alloc, sink, write_incomplete(event))?;
    Ok(Status::Incomplete { event })
}

/// Prints that the line of this number is another than the right one, and both.
pub fn print_difference<K: Sink>(
    alloc: Global,
    sink: &mut K,
    line: u32,
    given: &[u8],
    right: &[u8],
) -> Result<Status, Stop>
    ensures { let seen = sink_state K.taken K.faults K.puts in
        PrintsAnswer (seen sink.old) (seen sink.new) (differs line given.now right.now) result }
{
    print_line(alloc, sink, write_differs(line))?;
    print_long_line(alloc, sink, write_given(alloc, given)?)?;
    print_long_line(alloc, sink, write_right(alloc, right)?)?;
    Ok(Status::Differs { line })
}
