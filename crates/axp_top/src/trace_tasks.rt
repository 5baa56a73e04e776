//! What is done with a list or trace.
ghost use Rattle.std.specs.Prelude.{◌<◌, ◌^◌, length};
ghost use Rattle.axp_trace.specs.Files.{lines_of};
ghost use Rattle.axp_top.specs.Answers.{answer_to_lines};
ghost use Rattle.axp_top.specs.Outside.{sink_state};
ghost use Rattle.axp_top.specs.Printing.{Ends};

use crate::Status;
use crate::checks::print_check;
use crate::replay::replay;
use axp_image::Image;
use axp_io::Sink;
use std::alloc::Global;

/// What a command does with the list or trace in its second file.
#[derive(Clone, Copy, Debug, PartialEq, Eq)]
pub enum TraceTask {
    /// Its events are done and printed.
    Replay,
    /// Its accesses are judged.
    Check,
}

/// Does this with a file over an image.
pub fn do_task<K: Sink>(
    alloc: Global,
    sink: &mut K,
    task: TraceTask,
    image: &Image,
    file: &[u8],
) -> Status
    requires { length file.now < 2 ^ 30 }
    ensures { let seen = sink_state K.taken K.faults K.puts in
        Ends (seen sink.old) (seen sink.new)
        (answer_to_lines task image.now (lines_of file.now)) result }
{
    match task {
        TraceTask::Replay => replay(alloc, sink, image, file),
        TraceTask::Check => print_check(alloc, sink, image, file),
    }
}
