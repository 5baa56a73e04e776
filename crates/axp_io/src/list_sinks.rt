ghost use Rattle.std.specs.Prelude.{◌≡◌, ◌≤◌, ◌<◌, length, Some, IfOk};
ghost use Rattle.std.specs.Option.{is_some};
ghost use Rattle.axp_io.specs.Causes.{raised, PutCount, PutTaken};
ghost use Rattle.axp_io.specs.ListSinks.{fresh_sink, ListPut};

use crate::{Sink, SinkFault};
use axp_base::{Bytes, NoMemory};
use std::alloc::Global;
use std::marker::Model;

/// A sink that keeps what it takes in a list, and some of whose calls fail.
#[derive(Debug, Drop)]
pub struct ListSink {
    taken: Bytes,
    fails: Vec<u32>,
    part: u32,
    calls: u32,
    faults: u64,
    puts: u64,
}

impl Model for ListSink {
    ghost use Rattle.axp_io.specs.ListSinks.{SinkView};

    ghost Value = { SinkView };

    ghost view = { λ s. record {
      taken = s.taken;
      fails = s.fails.items;
      part = s.part;
      calls = s.calls;
      faults = s.faults;
      puts = s.puts;
    } };
}

impl ListSink {
    /// A sink that took nothing yet, whose puts of these numbers fail; the first put has number 1.
    ///
    /// A put that fails takes the first `part` bytes of its piece, or the whole piece where it is
    /// shorter.
    pub fn new(alloc: Global, fails: &[u32], part: u32) -> Result<ListSink, NoMemory>
        ensures { IfOk result (λ sink. sink ≡ fresh_sink fails.now part) }
    {
        let fails = Vec::from_slice(alloc, fails)?;
        Ok(ListSink {
            taken: Bytes::empty(alloc),
            fails,
            part,
            calls: 0,
            faults: 0,
            puts: 0,
        })
    }

    /// The bytes taken so far.
    pub fn taken(&self) -> &[u8]
        ensures { result.now ≡ self.now.taken }
    {
        self.taken.as_slice()
    }

    /// The number of puts that failed so far, at most 2^64 - 1.
    pub fn faults(&self) -> u64
        ensures { result ≡ self.now.faults }
    {
        self.faults
    }

    /// The number of pieces it was handed so far, at most 2^64 - 1.
    pub fn puts(&self) -> u64
        ensures { result ≡ self.now.puts }
    {
        self.puts
    }
}

impl Sink for ListSink {
    ghost taken = { λ s. Some s.taken };

    ghost faults = { λ s. s.faults };

    ghost puts = { λ s. s.puts };

    fn put(&mut self, alloc: Global, piece: &[u8]) -> Result<(), SinkFault>
        ensures tells { is_some (Some self.new.taken) ≡ is_some (Some self.old.taken) }
        ensures taken { PutTaken (Some self.old.taken) (Some self.new.taken) piece.now result }
        ensures faults_grow { self.old.faults ≤ self.new.faults }
        ensures count { PutCount self.old.faults self.new.faults result }
        ensures puts { self.new.puts ≡ raised self.old.puts 1 }
        ensures list { ListPut self.old self.new piece.now result }
    {
        self.calls = self.calls.saturating_add(1);
        self.puts = self.puts.saturating_add(1);
        if self.fails.contains(&self.calls) {
            let part = (self.part as usize).min(piece.len());
            let Ok(()) = self.taken.append(alloc, &piece[..part]) else {
                return Err(SinkFault::Memory);
            };
            self.faults = self.faults.saturating_add(1);
            return Err(SinkFault::Failed);
        }
        let Ok(()) = self.taken.append(alloc, piece) else {
            return Err(SinkFault::Memory);
        };
        Ok(())
    }
}

#[cfg(test)]
mod tests {
    use super::*;
    use crate::tests::puts;
    use std::test::Fail;

    #[test]
    fn a_failing_put_takes_a_part(rt: HostRuntime) -> Result<(), Fail> {
        let alloc = rt.alloc();
        let mut sink = ListSink::new(alloc, &[2, 3], 2)?;

        assert_eq!(rt; puts(&mut sink, alloc, b"one,"), Ok(()));
        assert_eq!(rt; puts(&mut sink, alloc, b"two,"), Err(SinkFault::Failed));
        assert_eq!(rt; puts(&mut sink, alloc, b"3"), Err(SinkFault::Failed));
        assert_eq!(rt; puts(&mut sink, alloc, b"4"), Ok(()));

        assert_eq!(rt; sink.taken(), b"one,tw34".as_slice());
        assert_eq!(rt; (sink.faults(), sink.puts()), (2, 4));
        Ok(())
    }
}
