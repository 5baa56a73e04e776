//! Locking: what stands between a store-conditional that succeeds and its load-locked.
ghost use Rattle.std.specs.Prelude.{◌≡◌, ◌==◌, ◌&&◌, ◌||◌, ◌-◌, ◌≤◌, not, length, IfSome};
ghost use Rattle.std.specs.Option.{option_map};
ghost use Rattle.axp_base.specs.Cpus.{cpu_number};
ghost use Rattle.axp_base.specs.Lines.{line_of};
ghost use Rattle.axp_access.specs.Kinds as kinds;
ghost use Rattle.axp_access.specs.Lists.{access_at, accesses_in, times_of};
ghost use Rattle.axp_model.specs.Locking as model;
ghost use Rattle.axp_order.specs.Oldest.{oldest_that};
ghost use Rattle.axp_check.specs.Locking.{disturbs, locking_fault};
ghost use Rattle.axp_check.specs.LockingParts.{AreNewest, fault_by, is_pair, access_or_none};

use axp_access::{Access, AccessList, Kind};
use axp_base::{LINE_BYTES, LOCK_BYTES, MAX_CPUS};

/// How many processors there are at most.
const PROCESSORS: usize = MAX_CPUS as usize;

/// Whether an access is a load-locked.
fn is_locked(access: &Access) -> bool
    ensures { result ≡ kinds.is_locked access.now.kind }
{
    matches!(access.kind, Kind::Locked)
}

/// Whether an access is a load-locked, or a store-conditional of any outcome.
fn is_locking(access: &Access) -> bool
    ensures { result ≡ model.is_locking access.now }
{
    matches!(access.kind, Kind::Locked | Kind::Conditional)
}

/// Whether an access is a store-conditional that succeeds.
fn is_success(access: &Access) -> bool
    ensures { result ≡ kinds.is_success access.now }
{
    matches!(access.kind, Kind::Conditional) && access.yes
}

/// Neither of two.
fn neither(first: bool, second: bool) -> bool
    ensures { result ≡ not (first || second) }
{
    !(first || second)
}

/// Whether an access is a memory write of another processor than the store-conditional's, on the
/// load-locked's line.
fn is_write_of_another(lock: &Access, store: &Access, write: &Access) -> bool
    ensures { result ≡ (kinds.is_memory_write write.now && (not (cpu_number write.now.cpu == cpu_number store.now.cpu) && (line_of write.now.address == line_of lock.now.address))) }
{
    write.is_memory_write()
        && write.cpu.number() != store.cpu.number()
        && write.address / LINE_BYTES == lock.address / LINE_BYTES
}

/// Whether the k-th access disturbs the i-th, a load-locked, and the j-th, its store-conditional: it is
/// a memory write of another processor on the line, neither BEFORE the one nor behind the other.
fn is_disturbed(list: &AccessList, i: u32, j: u32, k: u32) -> bool
    requires least_lock { 1 ≤ i }
    requires most_lock { i ≤ length list.now.items }
    requires least_store { 1 ≤ j }
    requires most_store { j ≤ length list.now.items }
    requires least_write { 1 ≤ k }
    requires most_write { k ≤ length list.now.items }
    ensures { IfSome (access_at list.now i) (λ u. IfSome (access_at list.now j) (λ v. IfSome (access_at list.now k) (λ w. result ≡ disturbs (times_of list.now) u v w))) }
{
    let lock = list.get(i);
    let store = list.get(j);
    let write = list.get(k);
    if !is_write_of_another(&lock, &store, &write) {
        return false;
    }
    let ahead = list.before(k, i);
    let behind = list.before(j, k);
    neither(ahead, behind)
}

/// The number of the oldest access that disturbs the i-th, a load-locked, and the j-th, its
/// store-conditional.
fn first_disturber(list: &AccessList, i: u32, j: u32) -> Option<u32>
    requires least_lock { 1 ≤ i }
    requires most_lock { i ≤ length list.now.items }
    requires least_store { 1 ≤ j }
    requires most_store { j ≤ length list.now.items }
    ensures { IfSome (access_at list.now i) (λ u. IfSome (access_at list.now j) (λ v. result ≡ option_map (λ w. w.number) (oldest_that (disturbs (times_of list.now) u v) (accesses_in list.now)))) }
{
    for n in 0..list.len() {
        if is_disturbed(list, i, j, n + 1) {
            return Some(n + 1);
        }
    }
    None
}

/// Whether the j-th access is paired with its processor's newest load-locked or store-conditional in
/// front of it, which is the i-th, or none where i is 0: a load-locked of the same block.
fn is_paired(list: &AccessList, i: u32, j: u32) -> bool
    requires most_lock { i ≤ length list.now.items }
    requires least_store { 1 ≤ j }
    requires most_store { j ≤ length list.now.items }
    ensures { IfSome (access_at list.now j) (λ v. result ≡ is_pair v (access_or_none list.now i)) }
{
    if i == 0 {
        return false;
    }
    let lock = list.get(i);
    let store = list.get(j);
    is_locked(&lock) && lock.address / LOCK_BYTES == store.address / LOCK_BYTES
}

/// What breaks locking at the j-th access, whose processor's newest load-locked or store-conditional
/// in front of it is the i-th, or none where i is 0: 0 where the access is a store-conditional that
/// succeeds and is not paired, and else the number of the oldest access that disturbs the pair.
fn fault_at(list: &AccessList, i: u32, j: u32) -> Option<u32>
    requires most_lock { i ≤ length list.now.items }
    requires least_store { 1 ≤ j }
    requires most_store { j ≤ length list.now.items }
    ensures { IfSome (access_at list.now j) (λ v. result ≡ fault_by list.now v (access_or_none list.now i)) }
{
    let store = list.get(j);
    if !is_success(&store) {
        return None;
    }
    if !is_paired(list, i, j) {
        return Some(0);
    }
    first_disturber(list, i, j)
}

/// Notes the n-th access, where it is a load-locked or store-conditional, as its processor's newest.
fn note(list: &AccessList, newest: &mut [u32], n: u32)
    requires least { 1 ≤ n }
    requires most { n ≤ length list.now.items }
    requires newest { AreNewest list.now (n - 1) newest.old }
    ensures { AreNewest list.now n newest.new }
{
    let access = list.get(n);
    if is_locking(&access) {
        newest[usize::from(access.cpu.number())] = n;
    }
}

/// The pair by which the list breaks locking: the oldest store-conditional that succeeds and is not
/// paired with a load-locked, with 0 in front, or is disturbed, with the number of the oldest access
/// that disturbs the pair in front.
pub(crate) fn first_unlocked(list: &AccessList) -> Option<(u32, u32)>
    ensures { result ≡ locking_fault (times_of list.now) (accesses_in list.now) }
{
    let mut newest = [0_u32; PROCESSORS];
    for n in 0..list.len() {
        let access = list.get(n + 1);
        let last = newest[usize::from(access.cpu.number())];
        if let Some(first) = fault_at(list, last, n + 1) {
            return Some((first, n + 1));
        }
        note(list, &mut newest, n + 1);
    }
    None
}
