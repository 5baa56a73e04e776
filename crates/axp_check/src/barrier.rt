ghost use Rattle.std.specs.Prelude.{◌≡◌, ◌==◌, ◌&&◌, ◌||◌, ◌-◌, ◌<◌, ◌≤◌, IfSome, if◌then◌else◌, length, nat_le, nat_lt, not};
ghost use Rattle.std.specs.Option.{option_map};
ghost use Rattle.axp_base.specs.Cpus.{cpu_number};
ghost use Rattle.axp_access.specs.Kinds as kinds;
ghost use Rattle.axp_access.specs.Lists.{access_at, accesses_in, accesses_to, times_of};
ghost use Rattle.axp_access.specs.Numbering.{cpu_of};
ghost use Rattle.axp_model.specs.Issue.{barrier_demands};
ghost use Rattle.axp_order.specs.Oldest.{oldest_that};
ghost use Rattle.axp_order.specs.Pairs.{breaks_barrier};
ghost use Rattle.axp_check.specs.Guards.{HasTops};
ghost use Rattle.axp_check.specs.LastBarriers.{IsLastBarrier};
ghost use Rattle.axp_check.specs.Verdicts.{barrier_fault};

use axp_access::{Access, AccessList, Cpu, Kind};
use axp_base::MAX_CPUS;

/// The greatest ranks of a processor's writes so far.
#[derive(Clone, Copy, Debug, PartialEq, Eq)]
pub(crate) struct WriteTops {
    /// Of all of them.
    pub(crate) all: u128,
    /// Of those with a WMB of the processor behind them.
    pub(crate) closed: u128,
}

/// The pair by which a list breaks what a write barrier demands, of the least second and then of the
/// least first.
pub(crate) fn first_barrier(list: &AccessList) -> Option<(u32, u32)>
    ensures { result ≡ barrier_fault (times_of list.now) (accesses_in list.now) }
{
    let mut tops = [WriteTops { all: 0, closed: 0 }; MAX_CPUS as usize];
    for n in 0..list.len() {
        let cpu = usize::from(list.get(n + 1).cpu.number());
        if let Some(i) = first_unless_clear(list, n + 1, tops[cpu]) {
            return Some((i, n + 1));
        }
        tops[cpu] = raise(list, n + 1, tops[cpu]);
    }
    None
}

/// The number of the first access that breaks with the j-th what a write barrier demands. No other is
/// looked at where the tops of the j-th's processor say that there is none.
fn first_unless_clear(list: &AccessList, j: u32, tops: WriteTops) -> Option<u32>
    requires least { 1 ≤ j }
    requires most { j ≤ length list.now.items }
    requires tops { IfSome (access_at list.now j) (λ v. HasTops list.now (j - 1) (cpu_of v) tops) }
    ensures { IfSome (access_at list.now j) (λ v. result ≡ option_map (λ u. u.number) (oldest_that (λ u. breaks_barrier (times_of list.now) u v) (accesses_to list.now (j - 1)))) }
{
    if is_clear(list.get(j).is_write(), list.rank(j), tops.closed) {
        None
    } else {
        first_against(list, j)
    }
}

/// Whether an access of this rank is no write, or is behind each write that is to be BEFORE it.
fn is_clear(writes: bool, rank: u128, closed: u128) -> bool
    ensures { result ≡ (not writes || nat_lt closed rank) }
{
    !writes || closed < rank
}

/// The tops of the j-th's processor with the j-th access.
fn raise(list: &AccessList, j: u32, tops: WriteTops) -> WriteTops
    requires least { 1 ≤ j }
    requires most { j ≤ length list.now.items }
    requires tops { IfSome (access_at list.now j) (λ v. HasTops list.now (j - 1) (cpu_of v) tops) }
    ensures { IfSome (access_at list.now j) (λ v. HasTops list.now j (cpu_of v) result) }
{
    let access = list.get(j);
    let rank = list.rank(j);
    WriteTops {
        all: raise_all(&access, rank, tops.all),
        closed: raise_closed(&access, tops),
    }
}

/// The greatest rank of all writes with one access more.
fn raise_all(access: &Access, rank: u128, all: u128) -> u128
    ensures { result ≡ (if kinds.is_write access.now && nat_lt all rank then rank else all) }
{
    if access.is_write() && all < rank {
        rank
    } else {
        all
    }
}

/// That of the writes with a WMB behind them: behind one more, they are all.
fn raise_closed(access: &Access, tops: WriteTops) -> u128
    ensures { result ≡ (if kinds.is_write_barrier access.now.kind then tops.all else tops.closed) }
{
    match access.kind {
        Kind::WriteBarrier => tops.all,
        _ => tops.closed,
    }
}

/// The number of the first access that breaks with the j-th what a write barrier demands.
fn first_against(list: &AccessList, j: u32) -> Option<u32>
    requires least { 1 ≤ j }
    requires most { j ≤ length list.now.items }
    ensures { IfSome (access_at list.now j) (λ v. result ≡ option_map (λ u. u.number) (oldest_that (λ u. breaks_barrier (times_of list.now) u v) (accesses_to list.now (j - 1)))) }
{
    let last = last_write_barrier(list, j);
    for i in 1..j {
        if is_broken(list, i, j, last) {
            return Some(i);
        }
    }
    None
}

/// The number of the last WMB of the j-th access's processor in front of it; 0 where there is none.
fn last_write_barrier(list: &AccessList, j: u32) -> u32
    requires least { 1 ≤ j }
    requires most { j ≤ length list.now.items }
    ensures { IfSome (access_at list.now j) (λ v. IsLastBarrier list.now (cpu_of v) j result) }
{
    let cpu = list.get(j).cpu;
    let mut last = 0;
    for n in 1..j {
        let access = list.get(n);
        last = if_found(is_write_barrier_of(&access, cpu), n, last);
    }
    last
}

/// The number where it was found, and else the last one.
fn if_found(found: bool, n: u32, last: u32) -> u32
    ensures { result ≡ (if found then n else last) }
{
    if found { n } else { last }
}

/// Whether it is a WMB of this processor.
fn is_write_barrier_of(access: &Access, cpu: Cpu) -> bool
    ensures { result ≡ ((cpu_number access.now.cpu == cpu_number cpu) && kinds.is_write_barrier access.now.kind) }
{
    let own = access.cpu.number() == cpu.number();
    own && matches!(access.kind, Kind::WriteBarrier)
}

/// Whether a write barrier demands that the i-th access is BEFORE the j-th, which it is not; `last` is
/// the number of the last WMB of the j-th's processor in front of it.
fn is_broken(list: &AccessList, i: u32, j: u32, last: u32) -> bool
    requires least { 1 ≤ i }
    requires less { i < j }
    requires most { j ≤ length list.now.items }
    requires last { IfSome (access_at list.now j) (λ v. IsLastBarrier list.now (cpu_of v) j last) }
    ensures { IfSome (access_at list.now i) (λ u. IfSome (access_at list.now j) (λ v. result ≡ breaks_barrier (times_of list.now) u v)) }
{
    is_parted(list, i, j, last) && !list.before(i, j)
}

/// Whether a write barrier demands that the i-th access is BEFORE the j-th: both are writes of one
/// processor, of which the first is not behind the last WMB.
fn is_parted(list: &AccessList, i: u32, j: u32, last: u32) -> bool
    requires least { 1 ≤ i }
    requires less { i < j }
    requires most { j ≤ length list.now.items }
    requires last { IfSome (access_at list.now j) (λ v. IsLastBarrier list.now (cpu_of v) j last) }
    ensures { IfSome (access_at list.now i) (λ u. IfSome (access_at list.now j) (λ v. result ≡ barrier_demands u v)) }
{
    let first = list.get(i);
    let second = list.get(j);
    let own = is_own_up_to(first.cpu.number(), i, second.cpu.number(), last);
    let writes = both(first.is_write(), second.is_write());
    both(own, writes)
}

/// Whether an access of this processor and number is of the other's, and not behind the last number.
fn is_own_up_to(cpu: u8, i: u32, other: u8, last: u32) -> bool
    ensures { result ≡ ((cpu == other) && nat_le i last) }
{
    cpu == other && i <= last
}

fn both(first: bool, second: bool) -> bool
    ensures { result ≡ (first && second) }
{
    first && second
}
