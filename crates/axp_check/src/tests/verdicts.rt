ghost use Rattle.std.specs.Prelude.{◌≡◌, false};
ghost use Rattle.axp_access.specs.Kinds.{is_write_barrier};
ghost use Rattle.axp_access.specs.declared.Place.TheVariants.{Absent, At, Entry};
ghost use Rattle.axp_access.specs.Lists.{IsSound};

use crate::{Rule, Verdict, check};
use axp_access::{Access, AccessList, Cpu, Kind, Place};
use axp_base::NoMemory;
use axp_image::{Image, KSEG};
use std::alloc::Global;
use std::test::*;

/// An access of a quadword at this turn; a store-conditional succeeds.
fn quadword(cpu: Cpu, kind: Kind, quadword: u32, value: u64, turn: u64) -> Access
    requires { is_write_barrier kind ≡ false }
    ensures sound { IsSound result }
    ensures place { result.place ≡ At turn }
{
    Access {
        cpu,
        kind,
        address: u64::from(quadword) * 8,
        size: 8,
        value,
        yes: true,
        place: Place::At(turn),
    }
}

/// A write of a quadword that waits in its processor's first entry.
fn waiting(cpu: Cpu, quadword: u32, value: u64) -> Access
    ensures sound { IsSound result }
    ensures place { result.place ≡ Entry 1 }
{
    Access {
        cpu,
        kind: Kind::Write,
        address: u64::from(quadword) * 8,
        size: 8,
        value,
        yes: false,
        place: Place::Entry(1),
    }
}

/// A WMB.
fn write_barrier(cpu: Cpu) -> Access
    ensures sound { IsSound result }
    ensures place { result.place ≡ Absent }
{
    Access {
        cpu,
        kind: Kind::WriteBarrier,
        address: 0,
        size: 0,
        value: 0,
        yes: false,
        place: Place::Absent,
    }
}

/// The verdict over a memory of one page of zeros.
fn judged(alloc: Global, list: &AccessList) -> Result<Verdict, NoMemory> {
    let image = Image::start(alloc, 8192, KSEG, 0, 0)?;
    check(alloc, &image, list)
}

/// That two accesses break a rule.
fn broken(rule: Rule, first: u32, second: u32) -> Verdict {
    Verdict::Violated {
        rule,
        first,
        second,
    }
}

#[test]
fn read_gives_the_bytes_of_its_source(rt: HostRuntime) -> Result<(), Fail> {
    let cpu = Cpu::new(0).ok_or("0 is a processor's number")?;
    let other = Cpu::new(1).ok_or("1 is a processor's number")?;
    // its own write that waits, seen by issue order; another processor reads the image
    let mut list = AccessList::with_room(rt.alloc(), 5)?;
    assert_eq!(rt; judged(rt.alloc(), &list)?, Verdict::Consistent);
    list.push(waiting(cpu, 1, 5));
    list.push(quadword(cpu, Kind::Read, 1, 5, 0));
    list.push(quadword(other, Kind::Read, 1, 0, 0));
    assert_eq!(rt; judged(rt.alloc(), &list)?, Verdict::Consistent);
    list.push(quadword(other, Kind::Read, 1, 5, 0));
    assert_eq!(rt; judged(rt.alloc(), &list)?, broken(Rule::Storage, 0, 4));
    // a source may stand behind its read in the list
    let mut list = AccessList::with_room(rt.alloc(), 3)?;
    list.push(quadword(cpu, Kind::Read, 1, 5, 1));
    list.push(quadword(other, Kind::Write, 1, 5, 1));
    assert_eq!(rt; judged(rt.alloc(), &list)?, Verdict::Consistent);
    list.push(quadword(cpu, Kind::Read, 1, 6, 2));
    assert_eq!(rt; judged(rt.alloc(), &list)?, broken(Rule::Storage, 2, 3));
    Ok(())
}

#[test]
fn byte_above_memory_is_zero(rt: HostRuntime) -> Result<(), Fail> {
    let cpu = Cpu::new(3).ok_or("3 is a processor's number")?;
    let mut list = AccessList::with_room(rt.alloc(), 2)?;
    list.push(quadword(cpu, Kind::Read, 1024, 0, 0));
    assert_eq!(rt; judged(rt.alloc(), &list)?, Verdict::Consistent);
    list.push(quadword(cpu, Kind::Read, 1025, 1, 0));
    assert_eq!(rt; judged(rt.alloc(), &list)?, broken(Rule::Storage, 0, 2));
    Ok(())
}

#[test]
fn values_that_come_from_each_other_are_a_loop(rt: HostRuntime) -> Result<(), Fail> {
    let cpu = Cpu::new(0).ok_or("0 is a processor's number")?;
    let other = Cpu::new(1).ok_or("1 is a processor's number")?;
    // each reads what the other writes behind its own read
    let mut list = AccessList::with_room(rt.alloc(), 4)?;
    list.push(quadword(cpu, Kind::Read, 1, 7, 2));
    list.push(quadword(cpu, Kind::Write, 2, 7, 1));
    list.push(quadword(other, Kind::Read, 2, 7, 1));
    list.push(quadword(other, Kind::Write, 1, 7, 2));
    assert_eq!(rt; judged(rt.alloc(), &list)?, broken(Rule::Loop, 1, 1));
    // a fetch may stand in place of a read
    let mut list = AccessList::with_room(rt.alloc(), 4)?;
    list.push(quadword(cpu, Kind::Read, 1, 7, 2));
    list.push(quadword(cpu, Kind::Write, 2, 7, 1));
    list.push(quadword(other, Kind::Fetch, 2, 7, 1));
    list.push(quadword(other, Kind::Write, 1, 7, 2));
    assert_eq!(rt; judged(rt.alloc(), &list)?, broken(Rule::Loop, 1, 1));
    // one of them reads the image
    let mut list = AccessList::with_room(rt.alloc(), 4)?;
    list.push(quadword(cpu, Kind::Read, 1, 7, 2));
    list.push(quadword(cpu, Kind::Write, 2, 7, 1));
    list.push(quadword(other, Kind::Read, 2, 0, 0));
    list.push(quadword(other, Kind::Write, 1, 7, 2));
    assert_eq!(rt; judged(rt.alloc(), &list)?, Verdict::Consistent);
    Ok(())
}

#[test]
fn lesser_rule_is_named_first(rt: HostRuntime) -> Result<(), Fail> {
    let cpu = Cpu::new(0).ok_or("0 is a processor's number")?;
    let mut list = AccessList::with_room(rt.alloc(), 6)?;
    list.push(quadword(cpu, Kind::Conditional, 1, 0, 3));
    assert_eq!(rt; judged(rt.alloc(), &list)?, broken(Rule::Locking, 0, 1));
    list.push(quadword(cpu, Kind::Read, 2, 9, 3));
    assert_eq!(rt; judged(rt.alloc(), &list)?, broken(Rule::Storage, 0, 2));
    list.push(write_barrier(cpu));
    list.push(quadword(cpu, Kind::Write, 3, 0, 2));
    assert_eq!(rt; judged(rt.alloc(), &list)?, broken(Rule::Barrier, 1, 4));
    list.push(quadword(cpu, Kind::Read, 4, 0, 4));
    list.push(quadword(cpu, Kind::Write, 4, 0, 3));
    assert_eq!(rt; judged(rt.alloc(), &list)?, broken(Rule::Issue, 5, 6));
    Ok(())
}
