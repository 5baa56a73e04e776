ghost use Rattle.std.specs.Prelude.{◌≡◌, ◌==◌, ◌&&◌, ◌||◌};
ghost use Rattle.axp_base.specs.Cpus.{cpu_number};
ghost use Rattle.axp_access.specs.Kinds as kinds;
ghost use Rattle.axp_model.specs.Issue as issue;
ghost use Rattle.axp_order.specs.Pairs as cases;

use axp_access::{Access, Cpu, Kind, Place};

/// Whether it is an MB.
fn is_barrier(access: &Access) -> bool
    ensures { result ≡ kinds.is_barrier access.now.kind }
{
    matches!(access.kind, Kind::Barrier)
}

/// Whether it is a WMB of this processor.
pub(crate) fn is_write_barrier_of(access: &Access, cpu: Cpu) -> bool
    ensures { result ≡ ((cpu_number access.now.cpu == cpu_number cpu) && kinds.is_write_barrier access.now.kind) }
{
    let own = access.cpu.number() == cpu.number();
    own && matches!(access.kind, Kind::WriteBarrier)
}

/// Whether it is an IMB.
fn is_code_barrier(access: &Access) -> bool
    ensures { result ≡ kinds.is_code_barrier access.now.kind }
{
    matches!(access.kind, Kind::CodeBarrier)
}

/// Whether it is a Poll.
fn is_poll(access: &Access) -> bool
    ensures { result ≡ kinds.is_poll access.now.kind }
{
    matches!(access.kind, Kind::Poll)
}

/// Whether it has a place in the order of memory.
fn has_place(access: &Access) -> bool
    ensures { result ≡ issue.has_place access.now.place }
{
    !matches!(access.place, Place::Absent)
}

/// Whether it takes bytes from memory: a read or a fetch.
pub(crate) fn takes_bytes(access: &Access) -> bool
    ensures { result ≡ (kinds.is_read access.now.kind || kinds.is_fetch access.now.kind) }
{
    access.is_read() || access.is_fetch()
}

/// Whether two accesses of memory have a byte in common.
fn overlap(u: &Access, v: &Access) -> bool
    ensures { result ≡ issue.overlap u.now v.now }
{
    let first = u.is_read() || u.is_memory_write() || u.is_fetch();
    let second = v.is_read() || v.is_memory_write() || v.is_fetch();
    // the byte behind the last may be the 2^64th
    let (a, b) = (u128::from(u.address), u128::from(v.address));
    first && second && a < b + u128::from(v.size) && b < a + u128::from(u.size)
}

/// Whether they are fetches that overlap.
fn are_fetches(u: &Access, v: &Access) -> bool
    ensures { result ≡ cases.are_fetches u.now v.now }
{
    u.is_fetch() && v.is_fetch() && overlap(u, v)
}

/// Whether the first is a read, and the second a read or memory write that overlaps it.
fn is_behind_read(u: &Access, v: &Access) -> bool
    ensures { result ≡ cases.is_behind_read u.now v.now }
{
    u.is_read() && (v.is_read() || v.is_memory_write()) && overlap(u, v)
}

/// Whether they are memory writes that overlap.
fn are_writes(u: &Access, v: &Access) -> bool
    ensures { result ≡ cases.are_writes u.now v.now }
{
    v.is_memory_write() && u.is_memory_write() && overlap(u, v)
}

/// Whether the second is an MB, and the first stands in front of one: a read, write or Poll.
fn is_before_barrier(u: &Access, v: &Access) -> bool
    ensures { result ≡ cases.is_before_barrier u.now v.now }
{
    is_barrier(v) && (u.is_read() || u.is_write() || is_poll(u))
}

/// Whether the first is an MB, and the second stands behind one: a read, write, Poll or MB.
fn is_behind_barrier(u: &Access, v: &Access) -> bool
    ensures { result ≡ cases.is_behind_barrier u.now v.now }
{
    is_barrier(u) && (v.is_read() || v.is_write() || is_poll(v) || is_barrier(v))
}

/// Whether one is an IMB, and the other has a place.
fn is_at_code_barrier(u: &Access, v: &Access) -> bool
    ensures { result ≡ cases.is_at_code_barrier u.now v.now }
{
    is_code_barrier(u) && has_place(v) || is_code_barrier(v) && has_place(u)
}

/// Whether the first is a fetch, and the second a memory write of what was fetched.
fn is_behind_fetch(u: &Access, v: &Access) -> bool
    ensures { result ≡ cases.is_behind_fetch u.now v.now }
{
    u.is_fetch() && v.is_memory_write() && overlap(u, v)
}

/// The cases of the issue constraint, of an access and a later one of its processor.
pub(crate) fn is_demanded(u: &Access, v: &Access) -> bool
    ensures { result ≡ issue.is_demanded u.now v.now }
{
    if are_fetches(u, v) {
        return true;
    }
    if is_behind_read(u, v) {
        return true;
    }
    if are_writes(u, v) {
        return true;
    }
    if is_before_barrier(u, v) {
        return true;
    }
    if is_behind_barrier(u, v) {
        return true;
    }
    is_at_code_barrier(u, v) || is_behind_fetch(u, v)
}
