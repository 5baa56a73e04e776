ghost use Rattle.std.specs.Prelude.{◌≡◌, ◌<◌, [], ◌∷◌, length};
ghost use Rattle.arrayvec.specs.ArrayVec.{array_vec_len};
ghost use Rattle.axp_trace.specs.declared.lines.TheConstants.{LINE_ROOM};
ghost use Rattle.axp_trace.specs.Lines.{with_feed};
ghost use Rattle.axp_top.specs.Outside.{sink_state};
ghost use Rattle.axp_top.specs.Printing.{Prints, Ends, IsRefusal, status_of_stop};
ghost use Rattle.axp_top.specs.Replays.{answer_in_one_line};
ghost use Rattle.axp_top.specs.declared.printing.Stop.TheVariants as stop;

use crate::Status;
use axp_base::{Bytes, NoMemory};
use axp_io::{Sink, SinkFault};
use axp_trace::{LINE_FEED, LineText};
use std::alloc::Global;

/// Why printing stopped.
#[derive(Clone, Copy, Debug, PartialEq, Eq)]
pub enum Stop {
    /// The sink failed.
    WriteFault,
    /// Memory was not found.
    Memory,
}

impl From<NoMemory> for Stop {
    ghost from_gives = { λ _ s. s ≡ stop.Memory };

    fn from(_: NoMemory) -> Stop {
        Stop::Memory
    }
}

impl Stop {
    /// The status that it ends with.
    pub fn status(self) -> Status
        ensures { result ≡ status_of_stop self }
    {
        match self {
            Stop::WriteFault => Status::WriteFault,
            Stop::Memory => Status::Memory,
        }
    }
}

/// Prints a piece, which is not empty.
pub fn print<K: Sink>(alloc: Global, sink: &mut K, piece: &[u8]) -> Result<(), Stop>
    requires { 0 < length piece.now }
    ensures { let seen = sink_state K.taken K.faults K.puts in
        Prints (seen sink.old) (seen sink.new) (piece.now ∷ []) result }
{
    match sink.put(alloc, piece) {
        Ok(()) => Ok(()),
        Err(SinkFault::Failed) => Err(Stop::WriteFault),
        Err(SinkFault::Memory) => Err(Stop::Memory),
    }
}

/// Prints a line with its line feed, as one piece.
pub fn print_line<K: Sink>(alloc: Global, sink: &mut K, mut line: LineText) -> Result<(), Stop>
    requires { array_vec_len line < LINE_ROOM }
    ensures { let seen = sink_state K.taken K.faults K.puts in
        Prints (seen sink.old) (seen sink.new) (with_feed line.items ∷ []) result }
{
    line.push(LINE_FEED);
    print(alloc, sink, line.as_slice())
}

/// Prints a line of any length with its line feed, as one piece.
pub fn print_long_line<K: Sink>(alloc: Global, sink: &mut K, mut line: Bytes) -> Result<(), Stop>
    ensures { let seen = sink_state K.taken K.faults K.puts in
        Prints (seen sink.old) (seen sink.new) (with_feed line ∷ []) result }
{
    line.append(alloc, &[LINE_FEED])?;
    print(alloc, sink, line.as_slice())
}

/// Prints the line of a refusal, and ends so.
pub fn refuse<K: Sink>(alloc: Global, sink: &mut K, line: LineText, status: Status) -> Status
    requires short { array_vec_len line < LINE_ROOM }
    requires refusal { IsRefusal status }
    ensures { let seen = sink_state K.taken K.faults K.puts in
        Ends (seen sink.old) (seen sink.new) (answer_in_one_line status line.items) result }
{
    match print_line(alloc, sink, line) {
        Ok(()) => status,
        Err(stop) => stop.status(),
    }
}
