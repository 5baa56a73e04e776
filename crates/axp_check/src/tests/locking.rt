ghost use Rattle.std.specs.Prelude.{◌≡◌, false};
ghost use Rattle.axp_access.specs.Kinds.{is_write_barrier};
ghost use Rattle.axp_access.specs.declared.Place.TheVariants.{At};
ghost use Rattle.axp_access.specs.Lists.{IsSound};

use crate::locking::first_unlocked;
use axp_access::{Access, AccessList, Cpu, Kind, Place};
use std::test::*;

/// An access of this quadword of memory at this turn.
fn moved(cpu: Cpu, kind: Kind, quadword: u32, turn: u64) -> Access
    requires { is_write_barrier kind ≡ false }
    ensures sound { IsSound result }
    ensures place { result.place ≡ At turn }
{
    Access {
        cpu,
        kind,
        address: u64::from(quadword) * 8,
        size: 8,
        value: 0,
        yes: false,
        place: Place::At(turn),
    }
}

/// A store-conditional that succeeds.
fn stored(cpu: Cpu, quadword: u32, turn: u64) -> Access
    ensures sound { IsSound result }
    ensures place { result.place ≡ At turn }
{
    Access {
        yes: true,
        ..moved(cpu, Kind::Conditional, quadword, turn)
    }
}

#[test]
fn store_conditional_wants_a_load_locked(rt: HostRuntime) -> Result<(), Fail> {
    let cpu = Cpu::new(0).ok_or("0 is a processor's number")?;
    let other = Cpu::new(1).ok_or("1 is a processor's number")?;
    let mut list = AccessList::with_room(rt.alloc(), 5)?;
    assert_eq!(rt; first_unlocked(&list), None);
    list.push(moved(cpu, Kind::Locked, 0, 1));
    list.push(stored(cpu, 1, 2));
    // another processor's is not its own
    assert_eq!(rt; first_unlocked(&list), None);
    list.push(stored(other, 0, 3));
    assert_eq!(rt; first_unlocked(&list), Some((0, 3)));
    // the first stays the first
    list.push(stored(cpu, 0, 4));
    assert_eq!(rt; first_unlocked(&list), Some((0, 3)));
    Ok(())
}

#[test]
fn pair_is_of_one_block_with_nothing_between(rt: HostRuntime) -> Result<(), Fail> {
    let cpu = Cpu::new(2).ok_or("2 is a processor's number")?;
    // the third quadword is of the line, but of its second block
    let mut list = AccessList::with_room(rt.alloc(), 3)?;
    list.push(moved(cpu, Kind::Locked, 0, 1));
    list.push(stored(cpu, 2, 2));
    assert_eq!(rt; first_unlocked(&list), Some((0, 2)));
    // a store-conditional that fails stands between
    let mut list = AccessList::with_room(rt.alloc(), 3)?;
    list.push(moved(cpu, Kind::Locked, 0, 1));
    list.push(moved(cpu, Kind::Conditional, 0, 1));
    list.push(stored(cpu, 0, 2));
    assert_eq!(rt; first_unlocked(&list), Some((0, 3)));
    Ok(())
}

#[test]
fn write_of_another_on_the_line_disturbs(rt: HostRuntime) -> Result<(), Fail> {
    let cpu = Cpu::new(0).ok_or("0 is a processor's number")?;
    let other = Cpu::new(7).ok_or("7 is a processor's number")?;
    let mut list = AccessList::with_room(rt.alloc(), 8)?;
    list.push(moved(cpu, Kind::Locked, 0, 1));
    // its own write, one of another line, one in front, one that fails
    list.push(moved(cpu, Kind::Write, 4, 3));
    list.push(moved(other, Kind::Write, 8, 3));
    list.push(moved(other, Kind::Write, 4, 0));
    list.push(moved(other, Kind::Conditional, 4, 3));
    list.push(stored(cpu, 1, 5));
    assert_eq!(rt; first_unlocked(&list), None);
    // one behind
    list.push(moved(other, Kind::Write, 4, 6));
    assert_eq!(rt; first_unlocked(&list), None);
    // one that stands between, though it comes later in the list
    list.push(moved(other, Kind::Write, 4, 4));
    assert_eq!(rt; first_unlocked(&list), Some((8, 6)));
    Ok(())
}
