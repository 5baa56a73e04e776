ghost use Rattle.std.specs.Prelude.{◌≡◌, ◌%◌, false};
ghost use Rattle.axp_access.specs.declared.Place.TheVariants.{At, Entry, Absent};
ghost use Rattle.axp_access.specs.Kinds as kinds;
ghost use Rattle.axp_access.specs.Lists.{IsSound};

use super::*;
use axp_access::{Access, AccessList, Cpu, Kind, Place};
use std::test::*;

/// An access of four bytes that succeeds, at this turn.
fn access_at(cpu: Cpu, kind: Kind, address: u64, turn: u64) -> Access
    requires aligned { address % 4 ≡ 0 }
    requires placed { kinds.is_write_barrier kind ≡ false }
    ensures sound { IsSound result }
    ensures place { result.place ≡ At turn }
{
    Access {
        cpu,
        kind,
        address,
        size: 4,
        value: 7,
        yes: true,
        place: Place::At(turn),
    }
}

/// A store-conditional of four bytes that failed, at this turn.
fn failed_at(cpu: Cpu, address: u64, turn: u64) -> Access
    requires aligned { address % 4 ≡ 0 }
    ensures sound { IsSound result }
    ensures place { result.place ≡ At turn }
{
    Access {
        cpu,
        kind: Kind::Conditional,
        address,
        size: 4,
        value: 7,
        yes: false,
        place: Place::At(turn),
    }
}

/// A write of four bytes that waits in this entry.
fn waiting_write(cpu: Cpu, address: u64, entry: u32) -> Access
    requires aligned { address % 4 ≡ 0 }
    ensures sound { IsSound result }
    ensures place { result.place ≡ Entry entry }
{
    Access {
        cpu,
        kind: Kind::Write,
        address,
        size: 4,
        value: 7,
        yes: false,
        place: Place::Entry(entry),
    }
}

/// A WMB.
fn write_barrier_of(cpu: Cpu) -> Access
    ensures sound { IsSound result }
    ensures place { result.place ≡ Absent }
{
    Access {
        cpu,
        kind: Kind::WriteBarrier,
        address: 0,
        size: 0,
        value: 0,
        yes: false,
        place: Place::Absent,
    }
}

#[test]
fn overlapping_accesses_stay_in_order(rt: HostRuntime) -> Result<(), Fail> {
    let cpu = Cpu::new(0).ok_or("0 is a processor's number")?;
    let other = Cpu::new(1).ok_or("1 is a processor's number")?;
    let mut list = AccessList::with_room(rt.alloc(), 9)?;
    list.push(access_at(cpu, Kind::Fetch, 0x1000, 0));
    list.push(access_at(cpu, Kind::Read, 0x2000, 0));
    list.push(access_at(cpu, Kind::Write, 0x2000, 1));
    list.push(access_at(cpu, Kind::Fetch, 0x1000, 1));
    list.push(access_at(cpu, Kind::Write, 0x1000, 2));
    list.push(failed_at(cpu, 0x2000, 2));
    list.push(access_at(cpu, Kind::Conditional, 0x2000, 3));
    list.push(access_at(cpu, Kind::Locked, 0x2000, 3));
    list.push(access_at(other, Kind::Write, 0x2000, 4));
    // fetches of one word, and of a word and of what is no code
    assert_eq!(rt;
        (issue_pair(&list, 1, 4), issue_pair(&list, 4, 1)),
        (true, false)
    );
    assert_eq!(rt;
        (issue_pair(&list, 1, 2), issue_pair(&list, 1, 3)),
        (false, false)
    );
    // a read, and a write or read of its bytes and of others
    assert_eq!(rt;
        (issue_pair(&list, 2, 3), issue_pair(&list, 2, 8)),
        (true, true)
    );
    assert_eq!(rt;
        (issue_pair(&list, 2, 5), issue_pair(&list, 2, 4)),
        (false, false)
    );
    // writes; a store-conditional that failed is none
    assert_eq!(rt;
        (issue_pair(&list, 3, 7), issue_pair(&list, 3, 5)),
        (true, false)
    );
    assert_eq!(rt;
        (issue_pair(&list, 3, 6), issue_pair(&list, 6, 7)),
        (false, false)
    );
    // a write and a read of its bytes, which may be forwarded
    assert_eq!(rt;
        (issue_pair(&list, 3, 8), issue_pair(&list, 7, 8)),
        (false, false)
    );
    // a fetch, and a write of what was fetched
    assert_eq!(rt;
        (issue_pair(&list, 4, 5), issue_pair(&list, 5, 4)),
        (true, false)
    );
    // another processor's
    assert_eq!(rt;
        (issue_pair(&list, 3, 9), issue_pair(&list, 9, 3)),
        (false, false)
    );
    Ok(())
}

#[test]
fn barriers_part_what_they_order(rt: HostRuntime) -> Result<(), Fail> {
    let cpu = Cpu::new(0).ok_or("0 is a processor's number")?;
    let mut list = AccessList::with_room(rt.alloc(), 9)?;
    list.push(access_at(cpu, Kind::Fetch, 0x1000, 0));
    list.push(access_at(cpu, Kind::Read, 0x2000, 0));
    list.push(access_at(cpu, Kind::Barrier, 0, 0));
    list.push(access_at(cpu, Kind::Signal, 0, 1));
    list.push(access_at(cpu, Kind::Poll, 0, 1));
    list.push(access_at(cpu, Kind::Barrier, 0, 1));
    list.push(access_at(cpu, Kind::CodeBarrier, 0, 1));
    list.push(access_at(cpu, Kind::Fetch, 0x3000, 1));
    list.push(write_barrier_of(cpu));
    // in front of an MB
    assert_eq!(rt;
        (issue_pair(&list, 1, 3), issue_pair(&list, 2, 3)),
        (false, true)
    );
    assert_eq!(rt;
        (issue_pair(&list, 4, 6), issue_pair(&list, 5, 6)),
        (true, true)
    );
    // behind one
    assert_eq!(rt;
        (issue_pair(&list, 3, 4), issue_pair(&list, 3, 5)),
        (true, true)
    );
    assert_eq!(rt;
        (issue_pair(&list, 3, 6), issue_pair(&list, 3, 8)),
        (true, false)
    );
    // two with an MB between them, of which neither is one
    assert_eq!(rt; issue_pair(&list, 2, 4), false);
    // an IMB and what has a place
    assert_eq!(rt;
        (issue_pair(&list, 1, 7), issue_pair(&list, 7, 8)),
        (true, true)
    );
    assert_eq!(rt;
        (issue_pair(&list, 7, 9), issue_pair(&list, 8, 7)),
        (false, false)
    );
    Ok(())
}

#[test]
fn write_barrier_parts_writes_of_its_processor(rt: HostRuntime) -> Result<(), Fail> {
    let cpu = Cpu::new(0).ok_or("0 is a processor's number")?;
    let other = Cpu::new(1).ok_or("1 is a processor's number")?;
    let mut list = AccessList::with_room(rt.alloc(), 8)?;
    list.push(access_at(cpu, Kind::Write, 0x1000, 1));
    list.push(write_barrier_of(other));
    list.push(access_at(cpu, Kind::Write, 0x2000, 2));
    list.push(write_barrier_of(cpu));
    list.push(access_at(cpu, Kind::Signal, 0, 3));
    list.push(access_at(cpu, Kind::Read, 0x1000, 3));
    list.push(failed_at(cpu, 0x1000, 3));
    list.push(access_at(other, Kind::Write, 0x1000, 4));
    // another processor's WMB parts nothing
    assert_eq!(rt;
        (write_barrier(&list, 1, 3), write_barrier(&list, 1, 5)),
        (false, true)
    );
    assert_eq!(rt;
        (write_barrier(&list, 3, 5), write_barrier(&list, 5, 3)),
        (true, false)
    );
    // no writes
    assert_eq!(rt;
        (write_barrier(&list, 1, 6), write_barrier(&list, 1, 7)),
        (false, false)
    );
    assert_eq!(rt;
        (write_barrier(&list, 1, 4), write_barrier(&list, 4, 5)),
        (false, false)
    );
    // another processor's write
    assert_eq!(rt;
        (write_barrier(&list, 1, 8), write_barrier(&list, 1, 1)),
        (false, false)
    );
    Ok(())
}

#[test]
fn read_sees_what_is_before_it_and_its_own_writes(rt: HostRuntime) -> Result<(), Fail> {
    let cpu = Cpu::new(0).ok_or("0 is a processor's number")?;
    let other = Cpu::new(1).ok_or("1 is a processor's number")?;
    let mut list = AccessList::with_room(rt.alloc(), 8)?;
    list.push(access_at(cpu, Kind::Read, 0x2000, 0));
    list.push(waiting_write(cpu, 0x2000, 1));
    list.push(access_at(cpu, Kind::Read, 0x2000, 2));
    list.push(access_at(cpu, Kind::Fetch, 0x2000, 2));
    list.push(access_at(other, Kind::Locked, 0x2000, 2));
    list.push(access_at(other, Kind::Conditional, 0x2000, 2));
    list.push(failed_at(other, 0x2000, 2));
    list.push(access_at(other, Kind::Signal, 0, 1));
    // its own waiting write, which a fetch and another processor do not see
    assert_eq!(rt; (visible(&list, 2, 3), visible(&list, 2, 4)), (true, false));
    assert_eq!(rt;
        (visible(&list, 2, 5), visible(&list, 2, 1)),
        (false, false)
    );
    // a write that is BEFORE them all, but for the first
    assert_eq!(rt; (visible(&list, 6, 3), visible(&list, 6, 4)), (true, true));
    assert_eq!(rt; (visible(&list, 6, 5), visible(&list, 6, 1)), (true, false));
    // neither a failed store-conditional nor a signal is seen, and only a read or fetch sees
    assert_eq!(rt;
        (visible(&list, 7, 3), visible(&list, 8, 3)),
        (false, false)
    );
    assert_eq!(rt;
        (visible(&list, 6, 2), visible(&list, 1, 3)),
        (false, false)
    );
    Ok(())
}
