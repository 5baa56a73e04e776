ghost use Rattle.std.specs.Prelude.{◌≡◌, ◌==◌, ◌&&◌, ◌||◌, ◌-◌, ◌≤◌, IfSome, length, nat_lt};
ghost use Rattle.axp_base.specs.Cpus.{cpu_number};
ghost use Rattle.axp_access.specs.Lists.{access_at, accesses_to, times_of};
ghost use Rattle.axp_access.specs.Numbering.{write_barriers_in};
ghost use Rattle.axp_model.specs.Issue.{barrier_demands, issue_demands};
ghost use Rattle.axp_order.specs.Pairs.{is_seen};

use crate::kinds::{is_demanded, is_write_barrier_of, takes_bytes};
use axp_access::{AccessList, Cpu};

/// Whether the issue constraint demands that the access of the first number is BEFORE that of the
/// second; numbers count from 1. `docs/MODEL.md`, "The constraints".
pub fn issue_pair(list: &AccessList, i: u32, j: u32) -> bool
    requires least_first { 1 ≤ i }
    requires most_first { i ≤ length list.now.items }
    requires least_second { 1 ≤ j }
    requires most_second { j ≤ length list.now.items }
    ensures { IfSome (access_at list.now i) (λ u. IfSome (access_at list.now j) (λ v. result ≡ issue_demands u v)) }
{
    let first = list.get(i);
    let second = list.get(j);
    let ahead = is_ahead(first.cpu.number(), i, second.cpu.number(), j);
    let demand = is_demanded(&first, &second);
    both(ahead, demand)
}

/// Whether a write barrier demands that the access of the first number is BEFORE that of the second:
/// both are writes of one processor, with a WMB of it between them. `docs/MODEL.md`, "The constraints".
pub fn write_barrier(list: &AccessList, i: u32, j: u32) -> bool
    requires least_first { 1 ≤ i }
    requires most_first { i ≤ length list.now.items }
    requires least_second { 1 ≤ j }
    requires most_second { j ≤ length list.now.items }
    ensures { IfSome (access_at list.now i) (λ u. IfSome (access_at list.now j) (λ v. result ≡ barrier_demands u v)) }
{
    let first = list.get(i);
    let second = list.get(j);
    let ahead = is_ahead(first.cpu.number(), i, second.cpu.number(), j);
    let writes = both(first.is_write(), second.is_write());
    let concerned = both(ahead, writes);
    concerned && is_parted(list, first.cpu, i, j)
}

/// Whether the access of the first number is a memory write that is visible to that of the second,
/// a read or fetch: it is BEFORE it, or precedes the read in issue order. `docs/MODEL.md`, "The
/// constraints".
pub fn visible(list: &AccessList, u: u32, v: u32) -> bool
    requires least_first { 1 ≤ u }
    requires most_first { u ≤ length list.now.items }
    requires least_second { 1 ≤ v }
    requires most_second { v ≤ length list.now.items }
    ensures { IfSome (access_at list.now u) (λ x. IfSome (access_at list.now v) (λ y. result ≡ is_seen (times_of list.now) x y)) }
{
    let write = list.get(u);
    let read = list.get(v);
    let moves = both(write.is_memory_write(), takes_bytes(&read));
    let before = list.before(u, v);
    let ahead = is_ahead(write.cpu.number(), u, read.cpu.number(), v);
    let forwarded = both(!read.is_fetch(), ahead);
    both(moves, either(before, forwarded))
}

/// Whether an access of this processor and number precedes another in issue order.
fn is_ahead(cpu: u8, i: u32, other: u8, j: u32) -> bool
    ensures { result ≡ ((cpu == other) && nat_lt i j) }
{
    cpu == other && i < j
}

/// Whether a WMB of this processor is among the accesses from the first number up to the second.
fn is_parted(list: &AccessList, cpu: Cpu, i: u32, j: u32) -> bool
    requires least { 1 ≤ i }
    requires most { j ≤ length list.now.items }
    ensures { result ≡ nat_lt (write_barriers_in (cpu_number cpu) (accesses_to list.now (i - 1))) (write_barriers_in (cpu_number cpu) (accesses_to list.now (j - 1))) }
{
    for n in i..j {
        let access = list.get(n);
        if is_write_barrier_of(&access, cpu) {
            return true;
        }
    }
    false
}

fn both(first: bool, second: bool) -> bool
    ensures { result ≡ (first && second) }
{
    first && second
}

fn either(first: bool, second: bool) -> bool
    ensures { result ≡ (first || second) }
{
    first || second
}
