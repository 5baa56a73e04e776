ghost use Rattle.std.specs.Prelude.{◌≡◌, ◌-◌, ◌<◌, ◌≤◌, ◌||◌, ℕ, None, true, false, length, nat_lt, IfSome};
ghost use Rattle.std.specs.List.{All, list_any};
ghost use Rattle.std.specs.Option.{option_map};
ghost use Rattle.axp_access.specs.Kinds.{is_fetch, is_read};
ghost use Rattle.axp_access.specs.Lists.{access_at, accesses_in, accesses_to, times_of};
ghost use Rattle.axp_access.specs.Numbering.{NumberedAccess};
ghost use Rattle.axp_model.specs.Sources.{takes_bytes};
ghost use Rattle.axp_order.specs.Oldest.{oldest_that};
ghost use Rattle.axp_check.specs.Loops as loops;
ghost use Rattle.axp_check.specs.Reached.{IsClosedAt, IsClosedTo, IsReaching, has_source_behind, is_behind, least_of, source_numbers, total_of};
ghost use Rattle.axp_check.specs.Sources.{AreSources};

use crate::reached::Reached;
use axp_access::{Access, AccessList};
use axp_base::QUADWORD_BYTES;

/// The number of the oldest access that may have come from itself; None where no value may. Only a read
/// or fetch with a source of greater number can be that, so only such are searched from.
pub(crate) fn first_on_cycle(list: &AccessList, sources: &[u32]) -> Option<u32>
    requires { AreSources list.now sources.now }
    ensures { result ≡ option_map (λ u. u.number) (oldest_that (loops.is_on_cycle (times_of list.now) (accesses_in list.now)) (accesses_in list.now)) }
{
    for n in 0..list.len() {
        if is_first_on_cycle(list, sources, n + 1) {
            return Some(n + 1);
        }
    }
    None
}

/// Whether the value of the access of this number may have come from itself, where that of no older one
/// may.
fn is_first_on_cycle(list: &AccessList, sources: &[u32], n: u32) -> bool
    requires sources { AreSources list.now sources.now }
    requires least { 1 ≤ n }
    requires most { n ≤ length list.now.items }
    requires older { oldest_that (loops.is_on_cycle (times_of list.now) (accesses_in list.now)) (accesses_to list.now (n - 1)) ≡ None }
    ensures { IfSome (access_at list.now n) (λ v. result ≡ loops.is_on_cycle (times_of list.now) (accesses_in list.now) v) }
{
    if !has_later_source(list, sources, n) {
        return false;
    }
    is_on_cycle(list, sources, n)
}

/// Whether it is a read or a fetch.
fn takes_bytes(access: &Access) -> bool
    ensures { result ≡ (is_read access.now.kind || is_fetch access.now.kind) }
{
    access.is_read() || access.is_fetch()
}

/// The numbers of the sources of each byte of a read or fetch, 0 for the image; none of another access.
fn sources_of<'a>(list: &AccessList, sources: &'a [u32], n: u32) -> &'a [u32]
    requires sources { AreSources list.now sources.now }
    requires least { 1 ≤ n }
    requires most { n ≤ length list.now.items }
    ensures value { IfSome (access_at list.now n) (λ v. result.now ≡ source_numbers list.now v) }
    ensures within { All (λ m. m ≤ length list.now.items) result.now }
{
    let access = list.get(n);
    if takes_bytes(&access) {
        let first = (n as usize - 1) * QUADWORD_BYTES as usize;
        &sources[first..first + usize::from(access.size)]
    } else {
        &[]
    }
}

/// Whether the access of this number is a read or fetch with a source of greater number.
fn has_later_source(list: &AccessList, sources: &[u32], n: u32) -> bool
    requires sources { AreSources list.now sources.now }
    requires least { 1 ≤ n }
    requires most { n ≤ length list.now.items }
    ensures { IfSome (access_at list.now n) (λ v. result ≡ list_any (nat_lt n) (source_numbers list.now v)) }
{
    is_any_above(sources_of(list, sources, n), n)
}

/// Whether one of these numbers is greater than `n`.
fn is_any_above(numbers: &[u32], n: u32) -> bool
    ensures { result ≡ list_any (nat_lt n) numbers.now }
{
    numbers.iter().any(|&m| n < m)
}

/// Whether the access of this number is behind the number of its processor; 0 is not.
fn is_reached(list: &AccessList, reached: &Reached, m: u32) -> bool
    requires { m ≤ length list.now.items }
    ensures { result ≡ is_behind list.now reached.now m }
{
    if m == 0 {
        return false;
    }
    reached.least(list.get(m).cpu) < m
}

/// Whether the access of this number is a read or fetch with a source that is reached.
fn has_reached_source(list: &AccessList, sources: &[u32], reached: &Reached, n: u32) -> bool
    requires sources { AreSources list.now sources.now }
    requires least { 1 ≤ n }
    requires most { n ≤ length list.now.items }
    ensures { IfSome (access_at list.now n) (λ v. result ≡ has_source_behind list.now reached.now v) }
{
    is_any_reached(list, reached, sources_of(list, sources, n))
}

/// Whether one of the accesses of these numbers is behind the number of its processor.
fn is_any_reached(list: &AccessList, reached: &Reached, numbers: &[u32]) -> bool
    requires { All (λ m. m ≤ length list.now.items) numbers.now }
    ensures { result ≡ list_any (is_behind list.now reached.now) numbers.now }
{
    for &m in numbers {
        if is_reached(list, reached, m) {
            return true;
        }
    }
    false
}

/// Takes in the access of this number where it is a read or fetch with a source that is reached and is
/// older than what is reached of its processor, and tells whether it is.
fn reach_access(list: &AccessList, sources: &[u32], reached: &mut Reached, n: u32) -> bool
    requires sources { AreSources list.now sources.now }
    requires least { 1 ≤ n }
    requires most { n ≤ length list.now.items }
    ensures keeps { (r : NumberedAccess) → IsReaching list.now reached.old r → IsReaching list.now reached.new r }
    ensures falls { result ≡ true → total_of reached.new < total_of reached.old }
    ensures same { result ≡ false → reached.new ≡ reached.old }
    ensures closed { result ≡ false → IfSome (access_at list.now n) (IsClosedAt list.now reached.new) }
{
    let cpu = list.get(n).cpu;
    if reached.least(cpu) <= n {
        return false;
    }
    if !has_reached_source(list, sources, reached, n) {
        return false;
    }
    reached.lower(cpu, n);
    true
}

/// Goes through the list once and takes in what is reached; tells whether anything was new.
fn spread(list: &AccessList, sources: &[u32], reached: &mut Reached) -> bool
    requires sources { AreSources list.now sources.now }
    ensures keeps { (r : NumberedAccess) → IsReaching list.now reached.old r → IsReaching list.now reached.new r }
    ensures falls { result ≡ true → total_of reached.new < total_of reached.old }
    ensures closed { result ≡ false → IsClosedTo list.now reached.new (length list.now.items) }
{
    let mut changed = false;
    for n in 0..list.len() {
        if reach_access(list, sources, reached, n + 1) {
            changed = true;
        }
    }
    changed
}

/// All that is reached from the read or fetch of this number.
fn reach(list: &AccessList, sources: &[u32], n: u32) -> Reached
    requires sources { AreSources list.now sources.now }
    requires least { 1 ≤ n }
    requires most { n ≤ length list.now.items }
    ensures reached { IfSome (access_at list.now n) (λ r. takes_bytes r ≡ true → IsReaching list.now result r) }
    ensures closed { IsClosedTo list.now result (length list.now.items) }
{
    let mut reached = Reached::from_access(list.get(n).cpu, n, list.len());
    while spread(list, sources, &mut reached) {}
    reached
}

/// Whether the value of the read or fetch of this number may have come from itself.
fn is_on_cycle(list: &AccessList, sources: &[u32], n: u32) -> bool
    requires sources { AreSources list.now sources.now }
    requires least { 1 ≤ n }
    requires most { n ≤ length list.now.items }
    ensures { IfSome (access_at list.now n) (λ r. takes_bytes r ≡ true → result ≡ loops.is_on_cycle (times_of list.now) (accesses_in list.now) r) }
{
    let reached = reach(list, sources, n);
    has_reached_source(list, sources, &reached, n)
}
