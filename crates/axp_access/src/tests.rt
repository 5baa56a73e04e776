ghost use Rattle.std.specs.Prelude.{◌≡◌, true};
ghost use Rattle.axp_base.specs.Cpus.{cpu_number};
ghost use Rattle.axp_access.specs.declared.Place.TheVariants.{At, Entry, Absent};
ghost use Rattle.axp_access.specs.Lists.{IsSound, is_write_in};

use super::*;
use std::test::*;

/// A step of this processor.
fn step_of(cpu: Cpu) -> Event {
    Event {
        cpu,
        act: Act::Step,
    }
}

#[test]
fn events_are_kept_in_order(rt: HostRuntime) -> Result<(), Fail> {
    let first = step_of(Cpu::new(3).ok_or("3 is a processor's number")?);
    let second = step_of(Cpu::new(0).ok_or("0 is a processor's number")?);
    let mut list = EventList::with_room(rt.alloc(), 2)?;
    assert_eq!(rt; list.len(), 0);
    list.push(first);
    assert_eq!(rt; list.len(), 1);
    list.push(second);
    assert_eq!(rt; list.len(), 2);
    assert_eq!(rt; (list.get(1), list.get(2)), (first, second));
    assert_eq!(rt; EventList::with_room(rt.alloc(), 0)?.len(), 0);
    Ok(())
}

/// A write of a byte at 4000 that stands in this entry.
fn write_in(cpu: Cpu, entry: u32) -> Access
    ensures sound { IsSound result }
    ensures written { is_write_in (cpu_number cpu) entry result ≡ true }
    ensures place { result.place ≡ Entry entry }
{
    Access {
        cpu,
        kind: Kind::Write,
        address: 0x4000,
        size: 1,
        value: 7,
        yes: false,
        place: Place::Entry(entry),
    }
}

/// An MB at this turn.
fn barrier_at(cpu: Cpu, turn: u64) -> Access
    ensures sound { IsSound result }
    ensures place { result.place ≡ At turn }
{
    Access {
        cpu,
        kind: Kind::Barrier,
        address: 0,
        size: 0,
        value: 0,
        yes: false,
        place: Place::At(turn),
    }
}

/// A WMB.
fn write_barrier(cpu: Cpu) -> Access
    ensures sound { IsSound result }
    ensures place { result.place ≡ Absent }
{
    Access {
        cpu,
        kind: Kind::WriteBarrier,
        address: 0,
        size: 0,
        value: 0,
        yes: false,
        place: Place::Absent,
    }
}

/// A signal to processor 0 that is this turn.
fn signal_at(cpu: Cpu, turn: u64) -> Access
    ensures sound { IsSound result }
    ensures place { result.place ≡ At turn }
{
    Access {
        cpu,
        kind: Kind::Signal,
        address: 0,
        size: 0,
        value: 0,
        yes: false,
        place: Place::At(turn),
    }
}

#[test]
fn accesses_are_kept_as_they_were_put(rt: HostRuntime) -> Result<(), Fail> {
    let cpu = Cpu::new(2).ok_or("2 is a processor's number")?;
    let mut list = AccessList::with_room(rt.alloc(), 2)?;
    assert_eq!(rt; list.len(), 0);
    list.push(write_in(cpu, 1));
    list.push(write_barrier(cpu));
    list.drained(cpu, 1, 9);
    assert_eq!(rt; list.len(), 2);
    assert_eq!(rt; list.get(1), write_in(cpu, 1));
    assert_eq!(rt; list.get(2), write_barrier(cpu));
    assert_eq!(rt; AccessList::with_room(rt.alloc(), 0)?.len(), 0);
    Ok(())
}

#[test]
fn write_stands_where_its_entry_was_drained(rt: HostRuntime) -> Result<(), Fail> {
    let first = Cpu::new(0).ok_or("0 is a processor's number")?;
    let second = Cpu::new(1).ok_or("1 is a processor's number")?;
    let mut list = AccessList::with_room(rt.alloc(), 6)?;
    list.push(write_in(first, 1));
    list.push(write_in(second, 1));
    list.push(barrier_at(second, 5));
    list.push(write_barrier(first));
    list.push(signal_at(first, 5));
    list.push(barrier_at(first, 5));
    // both wait: the lesser processor is the first
    assert_eq!(rt; (list.before(1, 2), list.before(2, 1)), (true, false));
    list.drained(second, 1, 4);
    assert_eq!(rt;
        (list.place(1), list.place(2)),
        (Place::Entry(1), Place::At(4))
    );
    assert_eq!(rt; (list.before(1, 2), list.before(2, 1)), (false, true));
    // a write that waits is behind all
    assert_eq!(rt; (list.before(3, 1), list.before(1, 3)), (true, false));
    // a write barrier has no place
    assert_eq!(rt; (list.before(2, 4), list.before(4, 2)), (false, false));
    // at one place the signal comes first, then the processors by their numbers
    assert_eq!(rt; (list.before(5, 3), list.before(6, 3)), (true, true));
    assert_eq!(rt; list.before(3, 3), false);
    assert_eq!(rt;
        (list.place(4), list.place(5)),
        (Place::Absent, Place::At(5))
    );
    Ok(())
}

#[test]
fn console_line_owns_its_bytes(rt: HostRuntime) -> Result<(), Fail> {
    let line = TailItem::Console {
        bytes: Bytes::copy(rt.alloc(), b"ok")?,
    };
    let kept = match line {
        TailItem::Console { bytes } => Some(bytes),
        _ => None,
    };
    let bytes = kept.ok_or("it is the console's line")?;
    assert_eq!(rt; bytes.as_slice(), b"ok".as_slice());
    Ok(())
}
