ghost use Rattle.axp_top.specs.Outside.{sink_state};
ghost use Rattle.axp_top.specs.Printing.{Prints};
ghost use Rattle.axp_top.specs.Texts.{tail};

use crate::printing::{Stop, print_long_line};
use axp_io::Sink;
use axp_machine::{Machine, TailAt};
use axp_trace::write_tail;
use std::alloc::Global;

/// Prints the tail of a trace: what the processors, memory and the console hold at the end, and the
/// number of events.
pub fn print_tail<K: Sink>(alloc: Global, sink: &mut K, machine: &Machine) -> Result<(), Stop>
    ensures { let seen = sink_state K.taken K.faults K.puts in
        Prints (seen sink.old) (seen sink.new) (tail machine.now) result }
{
    let mut at = TailAt::start();
    while let Some((item, next)) = machine.tail_next(alloc, at)? {
        let line = write_tail(alloc, &item)?;
        print_long_line(alloc, sink, line)?;
        at = next;
    }
    Ok(())
}
