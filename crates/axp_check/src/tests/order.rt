ghost use Rattle.std.specs.Prelude.{◌≡◌, ◌%◌, false};
ghost use Rattle.axp_access.specs.declared.Place.TheVariants.{At, Entry, Absent};
ghost use Rattle.axp_access.specs.Kinds as kinds;
ghost use Rattle.axp_access.specs.Lists.{IsSound};

use crate::barrier::first_barrier;
use crate::issue::first_issue;
use axp_access::{Access, AccessList, Cpu, Kind, Place};
use std::test::*;

/// An access of four bytes that succeeds, at this turn.
fn access_at(cpu: Cpu, kind: Kind, address: u64, turn: u64) -> Access
    requires aligned { address % 4 ≡ 0 }
    requires placed { kinds.is_write_barrier kind ≡ false }
    ensures sound { IsSound result }
    ensures place { result.place ≡ At turn }
{
    Access {
        cpu,
        kind,
        address,
        size: 4,
        value: 7,
        yes: true,
        place: Place::At(turn),
    }
}

/// A write of four bytes that waits in this entry.
fn waiting_write(cpu: Cpu, address: u64, entry: u32) -> Access
    requires aligned { address % 4 ≡ 0 }
    ensures sound { IsSound result }
    ensures place { result.place ≡ Entry entry }
{
    Access {
        cpu,
        kind: Kind::Write,
        address,
        size: 4,
        value: 7,
        yes: false,
        place: Place::Entry(entry),
    }
}

/// A WMB.
fn write_barrier_of(cpu: Cpu) -> Access
    ensures sound { IsSound result }
    ensures place { result.place ≡ Absent }
{
    Access {
        cpu,
        kind: Kind::WriteBarrier,
        address: 0,
        size: 0,
        value: 0,
        yes: false,
        place: Place::Absent,
    }
}

#[test]
fn overlapping_writes_out_of_order_are_found(rt: HostRuntime) -> Result<(), Fail> {
    let cpu = Cpu::new(0).ok_or("0 is a processor's number")?;
    let other = Cpu::new(1).ok_or("1 is a processor's number")?;
    let mut list = AccessList::with_room(rt.alloc(), 5)?;
    assert_eq!(rt; first_issue(&list), None);
    list.push(waiting_write(cpu, 0x1000, 1));
    list.push(access_at(cpu, Kind::Read, 0x1000, 0));
    // in the same quadword, but it has no byte in common
    list.push(access_at(cpu, Kind::Write, 0x1004, 2));
    list.push(access_at(other, Kind::Write, 0x1000, 1));
    assert_eq!(rt; first_issue(&list), None);
    list.push(access_at(cpu, Kind::Write, 0x1000, 3));
    assert_eq!(rt; first_issue(&list), Some((1, 5)));
    Ok(())
}

#[test]
fn what_a_barrier_parts_is_found(rt: HostRuntime) -> Result<(), Fail> {
    let cpu = Cpu::new(0).ok_or("0 is a processor's number")?;
    let mut list = AccessList::with_room(rt.alloc(), 6)?;
    list.push(access_at(cpu, Kind::Fetch, 0x1000, 4));
    list.push(waiting_write(cpu, 0x2000, 1));
    list.push(write_barrier_of(cpu));
    list.push(access_at(cpu, Kind::Poll, 0, 3));
    assert_eq!(rt; first_issue(&list), None);
    list.push(access_at(cpu, Kind::Barrier, 0, 5));
    list.push(access_at(cpu, Kind::CodeBarrier, 0, 2));
    assert_eq!(rt; first_issue(&list), Some((2, 5)));
    Ok(())
}

#[test]
fn writes_on_the_wrong_side_of_a_write_barrier_are_found(rt: HostRuntime) -> Result<(), Fail> {
    let cpu = Cpu::new(0).ok_or("0 is a processor's number")?;
    let other = Cpu::new(1).ok_or("1 is a processor's number")?;
    let mut list = AccessList::with_room(rt.alloc(), 6)?;
    assert_eq!(rt; first_barrier(&list), None);
    list.push(access_at(cpu, Kind::Write, 0x1000, 4));
    list.push(write_barrier_of(other));
    list.push(access_at(cpu, Kind::Write, 0x2000, 3));
    list.push(write_barrier_of(cpu));
    list.push(access_at(other, Kind::Write, 0x2000, 1));
    assert_eq!(rt; first_barrier(&list), None);
    list.push(access_at(cpu, Kind::Signal, 0, 2));
    assert_eq!(rt; first_barrier(&list), Some((1, 6)));
    Ok(())
}
