//! Lists of entries, oldest first: what is looked for in them, and how they change.
ghost use Rattle.std.specs.Prelude.{◌+◌, ◌^◌, ◌++◌, ◌∷◌, [], true, nat_lt, if◌then◌else◌, ◌≡◌, ◌<◌};
ghost use Rattle.std.specs.Prelude.{◌≤◌, ◌/◌, ◌%◌, ℕ, length, is_some, IfNone, IfSome, OnSome};
ghost use Rattle.std.specs.List.{list_any, position_from, remove};
ghost use Rattle.arrayvec.specs.ArrayVec.{array_vec_len};
ghost use Rattle.axp_base.specs.Lines.{line_number};
ghost use Rattle.axp_base.specs.Masks.{IsSize};
ghost use Rattle.axp_base.specs.declared.lines.TheConstants.{LINE_BYTES};
ghost use Rattle.axp_line.specs.Lines.{bytes_of_line};
ghost use Rattle.axp_wbuf.specs.Pending.{Pending, is_at, is_before, is_numbered, is_of_group};
ghost use Rattle.axp_wbuf.specs.Pending.{is_of_line};
ghost use Rattle.axp_wbuf.specs.Pending.{made_by, number_at_line, overlaid, put_into, with_store};
ghost use Rattle.axp_wbuf.specs.Drains.{in_front, oldest_group};
ghost use Rattle.axp_wbuf.specs.Views.{all_pending};
ghost use Rattle.axp_base.specs.declared.limits.TheConstants.{WBUF_ENTRIES};

use crate::entries::Entry;
use arrayvec::ArrayVec;
use axp_base::{Line, WBUF_ENTRIES};
use axp_line::LineData;

/// The entries of a buffer, oldest first.
pub(crate) type Entries = ArrayVec<Entry, WBUF_ENTRIES>;

/// The place of the entry of this group and line.
pub(crate) fn place_in(entries: &[Entry], group: u32, line: Line) -> Option<usize>
    ensures place { result
        ≡ position_from (is_at group (line_number line)) 0 (all_pending entries.now) }
    ensures inside { IfSome result (λ n. n < length entries.now) }
{
    for n in 0..entries.len() {
        if entries[n].is_at(group, line) {
            return Some(n);
        }
    }
    None
}

/// Whether an entry is of this group and line.
pub(crate) fn has_place(entries: &[Entry], group: u32, line: Line) -> bool
    ensures { result ≡ list_any (is_at group (line_number line)) (all_pending entries.now) }
{
    for entry in entries {
        if entry.is_at(group, line) {
            return true;
        }
    }
    false
}

/// Whether an entry is of this line.
pub(crate) fn any_of_line(entries: &[Entry], line: Line) -> bool
    ensures { result ≡ list_any (is_of_line (line_number line)) (all_pending entries.now) }
{
    for entry in entries {
        if entry.line == line {
            return true;
        }
    }
    false
}

/// Whether an entry is of this group.
fn any_of_group(entries: &[Entry], group: u32) -> bool
    ensures { result ≡ list_any (is_of_group group) (all_pending entries.now) }
{
    for entry in entries {
        if entry.group == group {
            return true;
        }
    }
    false
}

/// Whether an entry is of a group before this one.
pub(crate) fn any_before(entries: &[Entry], group: u32) -> bool
    ensures { result ≡ list_any (is_before group) (all_pending entries.now) }
{
    for entry in entries {
        if entry.group < group {
            return true;
        }
    }
    false
}

/// Whether an entry has this number.
pub(crate) fn any_numbered(entries: &[Entry], number: u32) -> bool
    ensures { result ≡ list_any (is_numbered number) (all_pending entries.now) }
{
    for entry in entries {
        if entry.number == number {
            return true;
        }
    }
    false
}

/// How many entries stand before the first one of another group.
#[tactic(auto, using(crate::proofs::Fronts::front_end))]
fn front_count(entries: &[Entry], group: u32) -> usize
    ensures count { result ≡ length (in_front group (all_pending entries.now)) }
    ensures within { result ≤ length entries.now }
{
    for n in 0..entries.len() {
        if entries[n].group != group {
            return n;
        }
    }
    entries.len()
}

/// How many entries are of the oldest group.
#[tactic(auto, unfolding(crate::specs::Drains::in_front))]
pub(crate) fn oldest_count(entries: &[Entry]) -> usize
    ensures count { result ≡ length (oldest_group (all_pending entries.now)) }
    ensures within { result ≤ length entries.now }
{
    if entries.is_empty() {
        return 0;
    }
    front_count(entries, entries[0].group)
}

/// Puts the bytes of each entry of the line over those of the line, the oldest entry first.
#[tactic(auto, unfolding(crate::specs::Pending::overlaid))]
pub(crate) fn overlay_each(entries: &[Entry], line: Line, onto: &mut LineData)
    ensures { bytes_of_line onto.new
        ≡ overlaid (line_number line) (all_pending entries.now) (bytes_of_line onto.old) }
{
    for n in 0..entries.len() {
        let entry = &entries[n];
        if entry.line == line {
            onto.merge(entry.mask, &entry.data);
        }
    }
}

/// Puts a store's bytes into the entry of this group and the address's line, and gives its number,
/// where there is one.
pub(crate) fn merge_into(
    entries: &mut [Entry],
    group: u32,
    address: u64,
    size: u8,
    value: u64,
) -> Option<u32>
    requires sized { IsSize size }
    requires aligned { address % size ≡ 0 }
    ensures merges { is_some result
        ≡ list_any (is_at group (address / LINE_BYTES)) (all_pending entries.old) }
    ensures number { IfSome result (λ n. (next : ℕ)
        → n ≡ number_at_line group (address / LINE_BYTES) next (all_pending entries.old)) }
    ensures kept { OnSome result ((new : Pending)
        → all_pending entries.new ≡ put_into group (address / LINE_BYTES)
        (with_store address size value) new (all_pending entries.old)) }
    ensures absent { IfNone result (entries.new ≡ entries.old) }
{
    match place_in(entries, group, Line::of(address)) {
        Some(place) => {
            let number = entries[place].number;
            entries[place].put(address, size, value);
            Some(number)
        }
        None => None,
    }
}

/// Whether there is room for one entry more.
#[tactic(auto, using(crate::proofs::Stores::as_many_pending))]
pub(crate) fn has_room(entries: &Entries) -> bool
    ensures { result ≡ nat_lt (length (all_pending entries.now.items)) WBUF_ENTRIES }
{
    entries.len() < WBUF_ENTRIES
}

/// Keeps a new entry that has a store's bytes alone as the newest one, counts it, and gives its
/// number.
#[tactic(auto, using(crate::proofs::Stores::pushed_pending, crate::proofs::Stores::as_many_pending))]
pub(crate) fn append(
    entries: &mut Entries,
    made: &mut u32,
    group: u32,
    address: u64,
    size: u8,
    value: u64,
) -> u32
    requires sized { IsSize size }
    requires aligned { address % size ≡ 0 }
    requires few_made { made.old + 1 < 2 ^ 32 }
    requires room { length (all_pending entries.old.items) < WBUF_ENTRIES }
    ensures number { result ≡ made.old + 1 }
    ensures made { made.new ≡ made.old + 1 }
    ensures kept { all_pending entries.new.items
        ≡ all_pending entries.old.items ++ made_by (made.old + 1) group address size value ∷ [] }
{
    *made += 1;
    let number = *made;
    entries.push(Entry::of_store(number, group, address, size, value));
    number
}

/// Removes the entry at this place.
#[tactic(auto, using(crate::proofs::Orders::removed_pending))]
pub(crate) fn remove_at(entries: &mut Entries, k: u8)
    requires { k < array_vec_len entries.old }
    ensures { all_pending entries.new.items ≡ remove (all_pending entries.old.items) k }
{
    entries.remove(usize::from(k));
}

/// The newest group's number after this group is closed, where it has an entry.
pub(crate) fn newest_after(entries: &[Entry], newest: u32) -> u32
    requires { list_any (is_of_group newest) (all_pending entries.now) ≡ true
        → newest + 1 < 2 ^ 32 }
    ensures { result
        ≡ (if list_any (is_of_group newest) (all_pending entries.now) then newest + 1 else newest) }
{
    if any_of_group(entries, newest) {
        newest + 1
    } else {
        newest
    }
}
