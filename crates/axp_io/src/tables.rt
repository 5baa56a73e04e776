ghost use Rattle.std.specs.Prelude.{◌≡◌, ◌≤◌, ℕ, List, length, IfOk, IfSome, OnOk, OnErr};
ghost use Rattle.axp_io.specs.Asks.{asks_in};
ghost use Rattle.axp_io.specs.Causes.{FetchCount, FetchGiven, FetchTold, FetchAsks};
ghost use Rattle.axp_io.specs.Lists.{list_under, PutUnder};
ghost use Rattle.axp_io.specs.Tables.{fresh_table, TableFetch};

use crate::asks::{Asked, Asks};
use crate::lists::{Lists, hand_over};
use crate::{Desk, FetchFault};
use axp_base::{Bytes, NoMemory};
use std::alloc::Global;
use std::marker::Model;

/// A desk of named lists in memory, some of whose calls fail.
///
/// A fetch of a name that has no list fails, and counts as a fault.
#[derive(Drop)]
pub struct TableDesk {
    lists: Lists,
    fails: Vec<u32>,
    calls: u32,
    faults: u64,
    given: u64,
    asks: Asks,
}

impl Model for TableDesk {
    ghost use Rattle.axp_io.specs.Tables.{TableView};

    ghost Value = { TableView };

    ghost view = { λ d. record {
      lists = d.lists;
      fails = d.fails.items;
      calls = d.calls;
      faults = d.faults;
      given = d.given;
      asks = d.asks;
    } };
}

impl TableDesk {
    /// A desk with no lists, whose fetches of these numbers fail; the first fetch has number 1.
    pub fn new(alloc: Global, fails: &[u32]) -> Result<TableDesk, NoMemory>
        ensures { IfOk result (λ desk. desk ≡ fresh_table fails.now) }
    {
        let fails = Vec::from_slice(alloc, fails)?;
        Ok(TableDesk {
            lists: Lists::empty(alloc),
            fails,
            calls: 0,
            faults: 0,
            given: 0,
            asks: Asks::empty(alloc),
        })
    }

    /// Puts a list under a name, in place of an earlier one; after want of memory the desk is as
    /// before.
    pub fn add(&mut self, alloc: Global, name: &str, bytes: &[u8]) -> Result<(), NoMemory>
        ensures lists { OnOk result (PutUnder self.old.lists self.new.lists name.now bytes.now) }
        ensures others { self.new ≡ record self.old { lists = self.new.lists } }
        ensures err { OnErr result (self.new ≡ self.old) }
    {
        self.lists.put(alloc, name, bytes)
    }

    /// The asks that came so far, in order.
    pub fn asks(&self) -> &[Asked]
        ensures { asks_in result.now ≡ self.now.asks }
    {
        self.asks.as_slice()
    }

    /// The number of fetches that failed so far, at most 2^64 - 1.
    pub fn faults(&self) -> u64
        ensures { result ≡ self.now.faults }
    {
        self.faults
    }

    /// The number of bytes given so far, at most 2^64 - 1.
    pub fn given(&self) -> u64
        ensures { result ≡ self.now.given }
    {
        self.given
    }
}

impl Desk for TableDesk {
    ghost told = { λ d. list_under d.lists };

    ghost faults = { λ d. d.faults };

    ghost given = { λ d. d.given };

    ghost asks = { λ d. d.asks };

    fn fetch(&mut self, alloc: Global, name: &str, most: u64) -> Result<Bytes, FetchFault>
        ensures stays { (n : List ℕ) → list_under self.new.lists n ≡ list_under self.old.lists n }
        ensures told { IfSome (list_under self.old.lists name.now)
            (λ list. FetchTold list most result) }
        ensures most { IfOk result (λ bytes. length bytes ≤ most) }
        ensures faults_grow { self.old.faults ≤ self.new.faults }
        ensures count { FetchCount self.old.faults self.new.faults result }
        ensures given_grow { self.old.given ≤ self.new.given }
        ensures given { FetchGiven self.old.given self.new.given most result }
        ensures asks { FetchAsks self.old.asks self.new.asks (name.now, most) result }
        ensures table { TableFetch self.old self.new (name.now, most) result }
    {
        self.calls = self.calls.saturating_add(1);
        let Ok(()) = self.asks.keep(alloc, name, most) else {
            return Err(FetchFault::Memory);
        };
        if self.fails.contains(&self.calls) {
            self.faults = self.faults.saturating_add(1);
            return Err(FetchFault::Failed);
        }
        let Some(list) = self.lists.get(name) else {
            self.faults = self.faults.saturating_add(1);
            return Err(FetchFault::Failed);
        };
        hand_over(alloc, list.as_slice(), most, &mut self.given)
    }
}

#[cfg(test)]
mod tests {
    use super::*;
    use crate::tests::answers;
    use std::test::Fail;

    #[test]
    fn answers_by_name_call_and_limit(rt: HostRuntime) -> Result<(), Fail> {
        let alloc = rt.alloc();
        let mut desk = TableDesk::new(alloc, &[3])?;
        desk.add(alloc, "a", b"old")?;
        desk.add(alloc, "a", b"four")?;
        desk.add(alloc, "c", b"")?;

        assert!(rt; answers(&mut desk, alloc, "a", 4, Ok(b"four")));
        assert!(rt; answers(&mut desk, alloc, "a", 3, Err(FetchFault::TooLong)));
        assert!(rt;
            answers(&mut desk, alloc, "a", 4, Err(FetchFault::Failed)),
            "the third call"
        );
        assert!(rt;
            answers(&mut desk, alloc, "b", 9, Err(FetchFault::Failed)),
            "no such list"
        );
        assert!(rt; answers(&mut desk, alloc, "c", 0, Ok(b"")));

        assert_eq!(rt; (desk.asks().len(), desk.faults(), desk.given()), (5, 2, 8));
        Ok(())
    }
}
