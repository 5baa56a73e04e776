ghost use Rattle.std.specs.Prelude.{◌≡◌, Some, OnOk, OnErr, IfOk};
ghost use Rattle.axp_io.specs.Asks.{asks_in};
ghost use Rattle.axp_io.specs.Lists.{list_or_empty, PutUnder};
ghost use Rattle.axp_io.specs.Sure.{fresh_sure, fresh_sure_sink};

use crate::asks::{Asked, Asks};
use crate::lists::{Lists, hand_over};
use crate::{Desk, FetchFault, Sink, SinkFault};
use axp_base::{Bytes, NoMemory};
use std::alloc::Global;
use std::marker::Model;

/// A desk in memory that never fails. It has a list under every name: the empty one where none was
/// given.
#[derive(Drop)]
pub struct SureDesk {
    lists: Lists,
    given: u64,
    asks: Asks,
}

impl Model for SureDesk {
    ghost use Rattle.axp_io.specs.Sure.{SureView};

    ghost Value = { SureView };

    ghost view = { λ d. record { lists = d.lists; given = d.given; asks = d.asks } };
}

impl SureDesk {
    /// A desk that was given no list yet.
    pub fn new(alloc: Global) -> Result<SureDesk, NoMemory>
        ensures { IfOk result (λ desk. desk ≡ fresh_sure) }
    {
        Ok(SureDesk {
            lists: Lists::empty(alloc),
            given: 0,
            asks: Asks::empty(alloc),
        })
    }

    /// Puts a list under a name, in place of an earlier one; after want of memory the desk is as
    /// before.
    pub fn add(&mut self, alloc: Global, name: &str, bytes: &[u8]) -> Result<(), NoMemory>
        ensures lists { OnOk result (PutUnder self.old.lists self.new.lists name.now bytes.now) }
        ensures others { self.new ≡ record self.old { lists = self.new.lists } }
        ensures err { OnErr result (self.new ≡ self.old) }
    {
        self.lists.put(alloc, name, bytes)
    }

    /// The asks that came so far, in order.
    pub fn asks(&self) -> &[Asked]
        ensures { asks_in result.now ≡ self.now.asks }
    {
        self.asks.as_slice()
    }

    /// The number of bytes given so far, at most 2^64 - 1.
    pub fn given(&self) -> u64
        ensures { result ≡ self.now.given }
    {
        self.given
    }
}

impl Desk for SureDesk {
    ghost told = { λ d name. Some (list_or_empty d.lists name) };

    ghost faults = { λ _. 0 };

    ghost given = { λ d. d.given };

    ghost asks = { λ d. d.asks };

    fn fetch(&mut self, alloc: Global, name: &str, most: u64) -> Result<Bytes, FetchFault> {
        let Ok(()) = self.asks.keep(alloc, name, most) else {
            return Err(FetchFault::Memory);
        };
        let list = self.lists.get_or_empty(name);
        hand_over(alloc, list, most, &mut self.given)
    }
}

/// A sink in memory that never fails, and keeps what it takes in a list.
#[derive(Debug, Drop)]
pub struct SureSink {
    taken: Bytes,
    puts: u64,
}

impl Model for SureSink {
    ghost use Rattle.axp_io.specs.Sure.{SureSinkView};

    ghost Value = { SureSinkView };

    ghost view = { λ s. record { taken = s.taken; puts = s.puts } };
}

impl SureSink {
    /// A sink that took nothing yet.
    pub fn new(alloc: Global) -> Result<SureSink, NoMemory>
        ensures { IfOk result (λ sink. sink ≡ fresh_sure_sink) }
    {
        Ok(SureSink {
            taken: Bytes::empty(alloc),
            puts: 0,
        })
    }

    /// The bytes taken so far.
    pub fn taken(&self) -> &[u8]
        ensures { result.now ≡ self.now.taken }
    {
        self.taken.as_slice()
    }

    /// The number of pieces it was handed so far, at most 2^64 - 1.
    pub fn puts(&self) -> u64
        ensures { result ≡ self.now.puts }
    {
        self.puts
    }
}

impl Sink for SureSink {
    ghost taken = { λ s. Some s.taken };

    ghost faults = { λ _. 0 };

    ghost puts = { λ s. s.puts };

    fn put(&mut self, alloc: Global, piece: &[u8]) -> Result<(), SinkFault> {
        self.puts = self.puts.saturating_add(1);
        match self.taken.append(alloc, piece) {
            Ok(()) => Ok(()),
            Err(_) => Err(SinkFault::Memory),
        }
    }
}

#[cfg(test)]
mod tests {
    use super::*;
    use crate::tests::{answers, puts};
    use std::test::Fail;

    #[test]
    fn a_desk_has_a_list_under_every_name(rt: HostRuntime) -> Result<(), Fail> {
        let alloc = rt.alloc();
        let mut desk = SureDesk::new(alloc)?;
        desk.add(alloc, "a", b"old")?;
        desk.add(alloc, "a", b"four")?;

        assert!(rt; answers(&mut desk, alloc, "a", 4, Ok(b"four")));
        assert!(rt; answers(&mut desk, alloc, "b", 0, Ok(b"")));
        assert!(rt; answers(&mut desk, alloc, "a", 3, Err(FetchFault::TooLong)));

        assert_eq!(rt; (desk.asks().len(), desk.given()), (3, 8));
        Ok(())
    }

    #[test]
    fn a_sink_takes_all(rt: HostRuntime) -> Result<(), Fail> {
        let alloc = rt.alloc();
        let mut sink = SureSink::new(alloc)?;
        puts(&mut sink, alloc, b"one")?;
        puts(&mut sink, alloc, b", two")?;
        assert_eq!(rt; sink.taken(), b"one, two".as_slice());
        assert_eq!(rt; sink.puts(), 2);
        Ok(())
    }
}
