ghost use Rattle.std.specs.Prelude.{◌≡◌, ◌&&◌, ◌||◌, ◌-◌, ◌<◌, ◌≤◌, IfSome, if◌then◌else◌, length, nat_lt, not};
ghost use Rattle.std.specs.List.{AllByRecursion};
ghost use Rattle.std.specs.Option.{option_map};
ghost use Rattle.axp_base.specs.Cpus.{cpu_number};
ghost use Rattle.axp_access.specs.Kinds as kinds;
ghost use Rattle.axp_access.specs.Lists.{IsSound, access_at, accesses_in, accesses_to, times_of};
ghost use Rattle.axp_access.specs.Numbering.{cpu_of};
ghost use Rattle.axp_order.specs.Oldest.{oldest_that};
ghost use Rattle.axp_order.specs.Pairs.{breaks_issue};
ghost use Rattle.axp_check.specs.IssueGuards.{HasIssueTops, HasSlotTop, slot_at};
ghost use Rattle.axp_check.specs.Verdicts.{issue_fault};

use axp_access::{Access, AccessList, Kind};
use axp_base::MAX_CPUS;
use axp_order::issue_pair;

/// How many slots there are for the quadwords that are written.
const SLOTS: usize = 512;

/// The greatest ranks of a processor's accesses so far.
#[derive(Clone, Copy, Debug, PartialEq, Eq)]
pub(crate) struct IssueTops {
    /// Of its memory writes.
    pub(crate) writes: u128,
    /// Of the others that have a place.
    pub(crate) others: u128,
}

/// The pair by which a list breaks the issue constraint, of the least second and then of the least
/// first.
pub(crate) fn first_issue(list: &AccessList) -> Option<(u32, u32)>
    ensures { result ≡ issue_fault (times_of list.now) (accesses_in list.now) }
{
    let mut tops = [IssueTops {
        writes: 0,
        others: 0,
    }; MAX_CPUS as usize];
    let mut slots = [0; SLOTS];
    for n in 0..list.len() {
        let access = list.get(n + 1);
        let cpu = usize::from(access.cpu.number());
        let slot = slot_of(&access);
        if let Some(i) = first_unless_clear(list, n + 1, tops[cpu], slots[slot]) {
            return Some((i, n + 1));
        }
        tops[cpu] = raise(list, n + 1, tops[cpu]);
        slots[slot] = raise_slot(list, n + 1, slots[slot]);
    }
    None
}

/// The slot of the quadword of an access. Quadwords share slots, so what one holds is only a bound; the
/// sum keeps most apart whose distance is a power of 2.
fn slot_of(access: &Access) -> usize
    ensures value { result ≡ slot_at (cpu_number access.now.cpu) access.now.address }
    ensures below { result < 512 }
{
    let quadword = access.address / 8;
    let sum = quadword
        + quadword / 0x200
        + quadword / 0x4_0000
        + u64::from(access.cpu.number()) * 0x40;
    (sum % 0x200) as usize
}

/// The number of the first access that breaks the issue constraint with the j-th. No other is looked
/// at where the tops say that there is none.
fn first_unless_clear(list: &AccessList, j: u32, tops: IssueTops, slot: u128) -> Option<u32>
    requires least { 1 ≤ j }
    requires most { j ≤ length list.now.items }
    requires sound { AllByRecursion (λ u. IsSound u.access) (accesses_to list.now (j - 1)) }
    requires tops { IfSome (access_at list.now j) (λ v. HasIssueTops list.now (j - 1) (cpu_of v) tops) }
    requires slot { IfSome (access_at list.now j) (λ v. HasSlotTop list.now (j - 1) (slot_at (cpu_of v) v.access.address) slot) }
    ensures { IfSome (access_at list.now j) (λ v. result ≡ option_map (λ u. u.number) (oldest_that (λ u. breaks_issue (times_of list.now) u v) (accesses_to list.now (j - 1)))) }
{
    let access = list.get(j);
    if is_clear(&access, list.rank(j), tops, slot) {
        None
    } else {
        first_against(list, j)
    }
}

/// Whether an access of this rank is behind each access that can be demanded to be BEFORE it.
fn is_clear(access: &Access, rank: u128, tops: IssueTops, slot: u128) -> bool
    ensures { result ≡ (kinds.is_write_barrier access.now.kind || (nat_lt tops.others rank && ((not (kinds.is_memory_write access.now) || nat_lt slot rank) && (not (kinds.is_barrier access.now.kind || kinds.is_code_barrier access.now.kind) || nat_lt tops.writes rank)))) }
{
    match access.kind {
        Kind::WriteBarrier => true,
        Kind::Barrier | Kind::CodeBarrier => tops.others < rank && tops.writes < rank,
        Kind::Write => tops.others < rank && slot < rank,
        Kind::Conditional => tops.others < rank && (!access.yes || slot < rank),
        _ => tops.others < rank,
    }
}

/// The tops of the j-th's processor with the j-th access.
fn raise(list: &AccessList, j: u32, tops: IssueTops) -> IssueTops
    requires least { 1 ≤ j }
    requires most { j ≤ length list.now.items }
    requires tops { IfSome (access_at list.now j) (λ v. HasIssueTops list.now (j - 1) (cpu_of v) tops) }
    ensures { IfSome (access_at list.now j) (λ v. HasIssueTops list.now j (cpu_of v) result) }
{
    let rank = list.rank(j);
    let writes = list.get(j).is_memory_write();
    IssueTops {
        writes: raise_where(writes, rank, tops.writes),
        others: raise_where(!writes, rank, tops.others),
    }
}

/// The top of the j-th's slot with the j-th access.
fn raise_slot(list: &AccessList, j: u32, top: u128) -> u128
    requires least { 1 ≤ j }
    requires most { j ≤ length list.now.items }
    requires slot { IfSome (access_at list.now j) (λ v. HasSlotTop list.now (j - 1) (slot_at (cpu_of v) v.access.address) top) }
    ensures { IfSome (access_at list.now j) (λ v. HasSlotTop list.now j (slot_at (cpu_of v) v.access.address) result) }
{
    let rank = list.rank(j);
    let writes = list.get(j).is_memory_write();
    raise_where(writes, rank, top)
}

/// The greater of a rank that counts and the greatest so far.
fn raise_where(counts: bool, rank: u128, top: u128) -> u128
    ensures { result ≡ (if counts && nat_lt top rank then rank else top) }
{
    if counts && top < rank { rank } else { top }
}

/// The number of the first access that breaks the issue constraint with the j-th.
fn first_against(list: &AccessList, j: u32) -> Option<u32>
    requires least { 1 ≤ j }
    requires most { j ≤ length list.now.items }
    ensures { IfSome (access_at list.now j) (λ v. result ≡ option_map (λ u. u.number) (oldest_that (λ u. breaks_issue (times_of list.now) u v) (accesses_to list.now (j - 1)))) }
{
    for i in 1..j {
        if is_broken(list, i, j) {
            return Some(i);
        }
    }
    None
}

/// Whether the issue constraint demands that the i-th access is BEFORE the j-th, which it is not.
fn is_broken(list: &AccessList, i: u32, j: u32) -> bool
    requires least_first { 1 ≤ i }
    requires most_first { i ≤ length list.now.items }
    requires least_second { 1 ≤ j }
    requires most_second { j ≤ length list.now.items }
    ensures { IfSome (access_at list.now i) (λ u. IfSome (access_at list.now j) (λ v. result ≡ breaks_issue (times_of list.now) u v)) }
{
    issue_pair(list, i, j) && !list.before(i, j)
}
