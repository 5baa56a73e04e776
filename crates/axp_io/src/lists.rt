ghost use Rattle.std.specs.Prelude.{◌≡◌, ◌≤◌, ◌+◌, [], length, min, OnOk, OnErr, option_copied};
ghost use Rattle.axp_io.specs.Causes.{raised, FetchTold};
ghost use Rattle.axp_io.specs.Lists.{NeverFails, list_under, list_or_empty, PutUnder};

use crate::FetchFault;
use axp_base::{Bytes, NoMemory};
use std::alloc::Global;
use std::collections::BTreeMap;
use std::marker::Model;

/// Lists of bytes under names.
#[derive(Drop)]
pub(crate) struct Lists {
    table: BTreeMap<String, Bytes>,
}

impl Model for Lists {
    ghost use Rattle.std.specs.Prelude.{List};
    ghost use Rattle.axp_io.specs.Lists.{Named, named_in};

    ghost Value = { List Named };

    ghost view = { λ l. named_in l.table.entries };
}

impl Lists {
    /// No lists.
    pub(crate) fn empty(alloc: Global) -> Lists
        ensures { result ≡ [] }
    {
        Lists {
            table: BTreeMap::new(alloc),
        }
    }

    /// Puts a list under a name, in place of an earlier one; after want of memory all is as before.
    pub(crate) fn put(&mut self, alloc: Global, name: &str, list: &[u8]) -> Result<(), NoMemory>
        ensures ok { OnOk result (PutUnder self.old self.new name.now list.now) }
        ensures err { OnErr result (self.new ≡ self.old) }
    {
        let key = String::from_str(alloc, name)?;
        let copy = Bytes::copy(alloc, list)?;
        match self.table.insert(key, copy) {
            Ok(_earlier) => Ok(()),
            Err(_) => Err(NoMemory),
        }
    }

    /// The list under a name.
    pub(crate) fn get(&self, name: &str) -> Option<&Bytes>
        ensures { option_copied result ≡ list_under self.now name.now }
    {
        self.table.get(name)
    }

    /// The list under a name, the empty one where none was given.
    pub(crate) fn get_or_empty(&self, name: &str) -> &[u8]
        ensures { result.now ≡ list_or_empty self.now name.now }
    {
        match self.get(name) {
            Some(list) => list.as_slice(),
            None => &[],
        }
    }
}

/// Hands a list over, where it is not longer than `most`, and counts the bytes given.
pub(crate) fn hand_over(
    alloc: Global,
    list: &[u8],
    most: u64,
    given: &mut u64,
) -> Result<Bytes, FetchFault>
    ensures told { FetchTold list.now most result }
    ensures never_fails { NeverFails result }
    ensures grows { given.old ≤ given.new }
    ensures given { given.new ≡ raised given.old (min (length list.now) (most + 1)) }
{
    let length = list.len() as u64;
    if length > most {
        // A reader of more than `most` bytes knows from one byte more that the list is too long.
        *given = given.saturating_add(most + 1);
        return Err(FetchFault::TooLong);
    }
    *given = given.saturating_add(length);
    let Ok(copy) = Bytes::copy(alloc, list) else {
        return Err(FetchFault::Memory);
    };
    Ok(copy)
}
