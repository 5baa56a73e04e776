ghost use Rattle.std.specs.Prelude.{◌≡◌, ◌-◌, ◌<◌, ◌≤◌, true, None, Some, length, slice_get, IfOk, IfSome, if◌then◌else◌};
ghost use Rattle.std.specs.List.{list_any};
ghost use Rattle.axp_base.specs.Cpus.{cpu_number};
ghost use Rattle.axp_access.specs.Kinds.{is_plain_write};
ghost use Rattle.axp_access.specs.Order.{before, key};
ghost use Rattle.axp_access.specs.Ranks.{FitsRank, rank};
ghost use Rattle.axp_access.specs.Lists.{IsSound, IsUndrained, access_at, append_access, append_drain, is_write_in, no_accesses, settled_place, times_of, turn_in};

use crate::ranks::{is_rank_before, rank_at};
use crate::{Access, Cpu, Place};
use axp_base::NoMemory;
use std::alloc::Global;
use std::collections::HashMap;
use std::marker::Model;

/// The drain of an entry of a processor's write buffer.
#[derive(Clone, Copy, Debug, PartialEq, Eq)]
pub struct Drain {
    /// The processor.
    pub cpu: Cpu,
    /// The entry's number, 1 for the processor's first.
    pub entry: u32,
    /// The number of the turn that the drain was.
    pub turn: u64,
}

/// A list of accesses that owns its memory, with the drains that were told beside them: what a trace
/// shows, whoever made it. Accesses have the numbers 1 to the length.
#[derive(Drop)]
pub struct AccessList {
    items: Vec<Access>,
    drains: Vec<Drain>,
    turns: HashMap<(u8, u32), u64>,
}

impl Model for AccessList {
    ghost use Rattle.axp_access.specs.Lists.{Accesses};

    ghost Value = { Accesses };

    ghost use Rattle.axp_access.specs.ListParts.{accesses_of, HasParts};

    ghost view = { accesses_of };

    ghost invariant = { HasParts };
}

impl AccessList {
    /// A list of no access with this room, all of whose memory is taken here.
    pub fn with_room(alloc: Global, room: u32) -> Result<AccessList, NoMemory>
        ensures { IfOk result (λ list. list ≡ no_accesses room) }
    {
        let items = Vec::with_capacity(alloc, room as usize)?;
        let drains = Vec::with_capacity(alloc, room as usize)?;
        let turns = HashMap::with_capacity(alloc, room as usize)?;
        Ok(AccessList {
            items,
            drains,
            turns,
        })
    }

    /// The number of accesses.
    pub fn len(&self) -> u32
        ensures value { result ≡ length self.now.items }
        ensures within { result ≤ self.now.room }
    {
        self.items.len() as u32
    }

    /// The access of this number as it was put, counted from 1 to the number of accesses.
    pub fn get(&self, n: u32) -> Access
        requires least { 1 ≤ n }
        requires most { n ≤ length self.now.items }
        ensures value { slice_get self.now.items (n - 1) ≡ Some result }
        ensures sound { IsSound result }
    {
        self.items[n as usize - 1]
    }

    /// Puts an access last; there is to be room for it, so no memory is taken. Where it stands in an
    /// entry of a write buffer, no drain of that entry has been told.
    pub fn push(&mut self, access: Access)
        requires room { length self.old.items < self.old.room }
        requires sound { IsSound access }
        requires undrained { IsUndrained self.old.drains (cpu_number access.cpu) access.place }
        ensures { self.new ≡ append_access self.old access }
    {
        self.items.push_reserved(access);
    }

    /// Tells of a drain: of an entry in which a plain write of the list stands, and once of each.
    pub fn drained(&mut self, cpu: Cpu, entry: u32, turn: u64)
        requires written { list_any (is_write_in (cpu_number cpu) entry) self.old.items ≡ true }
        requires once { turn_in self.old.drains (cpu_number cpu) entry ≡ None }
        ensures { self.new ≡ append_drain self.old (record { cpu = cpu; entry = entry; turn = turn }) }
    {
        self.drains.push_reserved(Drain { cpu, entry, turn });
        let _ = self.turns.insert((cpu.number(), entry), turn);
    }

    /// Where the access of this number stands: a plain write at its entry's drain, where that was
    /// told, and else where it was put.
    pub fn place(&self, n: u32) -> Place
        requires least { 1 ≤ n }
        requires most { n ≤ length self.now.items }
        ensures { IfSome (slice_get self.now.items (n - 1)) (λ a. result ≡ (if is_plain_write a.kind then settled_place self.now.drains (cpu_number a.cpu) a.place else a.place)) }
    {
        let access = self.get(n);
        if access.is_plain_write() {
            self.settled(access.cpu, access.place)
        } else {
            access.place
        }
    }

    /// A place of a processor, at its entry's drain where that was told.
    fn settled(&self, cpu: Cpu, place: Place) -> Place
        ensures { result ≡ settled_place self.now.drains (cpu_number cpu) place }
    {
        match place {
            Place::Entry(entry) => match self.turns.get(&(cpu.number(), entry)) {
                Some(turn) => Place::At(*turn),
                None => Place::Entry(entry),
            },
            place => place,
        }
    }

    /// The rank of the access of this number, which tells BEFORE by one comparison: of two accesses
    /// that have a place, the one BEFORE has the lesser; 0 where there is no place. Its low 32 bits
    /// are the number. `docs/MODEL.md`, "The machine's notions".
    pub fn rank(&self, n: u32) -> u128
        requires least { 1 ≤ n }
        requires most { n ≤ length self.now.items }
        ensures value { IfSome (access_at self.now n) (λ u. result ≡ rank (times_of self.now) u) }
        ensures fits { IfSome (access_at self.now n) (λ u. FitsRank (key (times_of self.now) u)) }
    {
        let access = self.get(n);
        let place = self.settled(access.cpu, access.place);
        rank_at(place, !access.is_write(), access.cpu.number(), n)
    }

    /// Whether the access of the first number is BEFORE that of the second in the order of memory.
    pub fn before(&self, i: u32, j: u32) -> bool
        requires least_first { 1 ≤ i }
        requires most_first { i ≤ length self.now.items }
        requires least_second { 1 ≤ j }
        requires most_second { j ≤ length self.now.items }
        ensures { IfSome (access_at self.now i) (λ u. IfSome (access_at self.now j) (λ v. result ≡ before (times_of self.now) u v)) }
    {
        let first = self.rank(i);
        let second = self.rank(j);
        is_rank_before(first, second)
    }
}
