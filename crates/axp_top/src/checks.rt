//! The verdict on a trace.
ghost use Rattle.std.specs.Prelude.{◌<◌, ◌^◌, length};
ghost use Rattle.axp_trace.specs.Files.{lines_of};
ghost use Rattle.axp_top.specs.Checks.{checked_answer, verdict_answer};
ghost use Rattle.axp_top.specs.Outside.{sink_state};
ghost use Rattle.axp_top.specs.Printing.{Ends};

use crate::Status;
use crate::printing::{print_line, refuse};
use axp_check::{Verdict, check};
use axp_history::{TraceFault, read_trace};
use axp_image::Image;
use axp_io::Sink;
use axp_trace::{write_bad_trace, write_consistent, write_violated};
use std::alloc::Global;

/// Prints a verdict.
fn print_verdict<K: Sink>(alloc: Global, sink: &mut K, verdict: Verdict) -> Status
    ensures { let seen = sink_state K.taken K.faults K.puts in
        Ends (seen sink.old) (seen sink.new) (verdict_answer verdict) result }
{
    match verdict {
        Verdict::Consistent => match print_line(alloc, sink, write_consistent()) {
            Ok(()) => Status::Done,
            Err(stop) => stop.status(),
        },
        Verdict::Violated {
            rule,
            first,
            second,
        } => refuse(
            alloc,
            sink,
            write_violated(rule.name().as_bytes(), first, second),
            Status::Violated {
                rule,
                first,
                second,
            },
        ),
    }
}

/// Prints whether the accesses of a trace keep the rules of shared memory over an image.
pub fn print_check<K: Sink>(alloc: Global, sink: &mut K, image: &Image, file: &[u8]) -> Status
    requires { length file.now < 2 ^ 30 }
    ensures { let seen = sink_state K.taken K.faults K.puts in
        Ends (seen sink.old) (seen sink.new) (checked_answer image.now (lines_of file.now)) result }
{
    match read_trace(alloc, file) {
        Ok(list) => match check(alloc, image, &list) {
            Ok(verdict) => print_verdict(alloc, sink, verdict),
            Err(_) => Status::Memory,
        },
        Err(TraceFault::Bad { line }) => {
            refuse(
                alloc,
                sink,
                write_bad_trace(line),
                Status::BadTrace { line },
            )
        }
        Err(TraceFault::Memory) => Status::Memory,
    }
}
