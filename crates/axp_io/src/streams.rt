ghost use Rattle.std.specs.Prelude.{◌≡◌, ◌≤◌, [], None};
ghost use Rattle.axp_io.specs.Causes.{PutCount};
ghost use Rattle.axp_io.specs.Streams.{fresh_out};

use crate::buffers::OutBuffer;
use crate::writing::{StandardWriter, Tally};
use crate::{Sink, SinkFault};
use std::alloc::Global;
use std::io;
use std::marker::Model;

/// The sink over standard output, which writes up to 64 KiB at a time: what it took last is written
/// only once `flush` is called.
///
/// A write that fails or takes nothing is a failure of the put or the flush that made it, and what
/// was not written then never is. It tells no bytes, since no contract knows what standard output
/// holds; that the pieces are written whole and in order is the contract of `OutBuffer`.
#[derive(Drop)]
pub struct OutSink<R> {
    rt: R,
    waiting: OutBuffer,
    tally: Tally,
}

impl<R> Model for OutSink<R> {
    ghost use Rattle.axp_io.specs.Streams.{OutView};

    ghost Value = { OutView };

    ghost view = { λ s. record {
      faults = s.tally.faults;
      puts = s.tally.puts;
      waiting = s.waiting;
    } };
}

impl<R> OutSink<R> {
    /// The sink over the runtime's standard output.
    pub fn new(alloc: Global, rt: R) -> OutSink<R>
        ensures { result ≡ fresh_out }
    {
        OutSink {
            rt,
            waiting: OutBuffer::new(alloc),
            tally: Tally::new(),
        }
    }

    /// The number of failures so far, at most 2^64 - 1.
    pub fn faults(&self) -> u64
        ensures { result ≡ self.now.faults }
    {
        self.tally.faults
    }

    /// The number of pieces it was handed so far, at most 2^64 - 1.
    pub fn puts(&self) -> u64
        ensures { result ≡ self.now.puts }
    {
        self.tally.puts
    }
}

impl<R: Print> OutSink<R> {
    /// Writes what waits; where that fails, what was not written never is.
    pub fn flush(&mut self) -> Result<(), SinkFault>
        ensures faults_grow { self.old.faults ≤ self.new.faults }
        ensures count { PutCount self.old.faults self.new.faults result }
        ensures puts { self.new.puts ≡ self.old.puts }
        ensures none_waits { self.new.waiting ≡ [] }
    {
        let inner = io::writer(&self.rt);
        let result = self.waiting.flush(&mut StandardWriter { inner });
        self.tally.answer(result)
    }
}

impl<R: Print> Sink for OutSink<R> {
    ghost taken = { λ _. None };

    ghost faults = { λ s. s.faults };

    ghost puts = { λ s. s.puts };

    fn put(&mut self, _alloc: Global, piece: &[u8]) -> Result<(), SinkFault> {
        self.tally.begin_put();
        let inner = io::writer(&self.rt);
        let result = self.waiting.put(&mut StandardWriter { inner }, piece);
        self.tally.answer(result)
    }
}

#[cfg(test)]
mod tests {
    use super::*;
    use crate::tests::puts;

    #[test]
    fn standard_output_takes_a_piece(rt: HostRuntime) {
        let mut sink = OutSink::new(rt.alloc(), &rt);
        assert_eq!(rt; puts(&mut sink, rt.alloc(), b"a piece\n"), Ok(()));
        assert_eq!(rt; sink.flush(), Ok(()));
        assert_eq!(rt; (sink.faults(), sink.puts()), (0, 1));
    }
}
