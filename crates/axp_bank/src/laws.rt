//! Laws of a bank's list of copies, each proved as the contract of a function that does nothing.
ghost use Rattle.std.specs.Prelude.{ℕ, List, ◌≡◌, ◌≢◌, ◌≤◌, ◌<◌, ◌&&◌, not, true, false, []};
ghost use Rattle.std.specs.Prelude.{length, slice_index_or, is_some, Some, None};
ghost use Rattle.axp_base.specs.Lines.{line_number};
ghost use Rattle.axp_base.specs.declared.lines.Line.{Line};
ghost use Rattle.axp_line.specs.declared.contents.LineData.{LineData};
ghost use Rattle.axp_bank.specs.Copies.{Whole, line_of, is_held, get_of, stamp_of, has_older};
ghost use Rattle.axp_bank.specs.Copies.{has_room, put, refreshed, invalidated, dropped, held_lines};
ghost use Rattle.axp_bank.specs.Copies.{has_line, stamp_beside};
ghost use Rattle.axp_bank.specs.declared.copies.LineCopy.{LineCopy};
ghost use Rattle.axp_base.specs.declared.limits.TheConstants.{BANK_COPIES};

/// A line is held exactly where its stamp and data can be got.
pub fn held_is_what_is_got()
    ensures { (n : ℕ) (cs : List LineCopy) → is_held n cs ≡ is_some (get_of n cs) }
{}

/// After a put with room, the line gives what was put, and every other line what it gave before.
/// There is no room exactly where the line is not held and as many others are as fit; nothing
/// changes then.
pub fn put_is_got()
    ensures line { (c : LineCopy) (cs : List LineCopy) → has_room (line_of c) cs ≡ true
        → get_of (line_of c) (put c cs) ≡ Some (c.stamp, c.bytes) }
    ensures others { (c : LineCopy) (cs : List LineCopy) (n : ℕ) → n ≢ line_of c
        → get_of n (put c cs) ≡ get_of n cs }
    ensures full { (c : LineCopy) (cs : List LineCopy) → has_room (line_of c) cs ≡ false
        → put c cs ≡ cs }
    ensures held_has_room { (n : ℕ) (cs : List LineCopy) → is_held n cs ≡ true
        → has_room n cs ≡ true }
    ensures few_have_room { (n : ℕ) (cs : List LineCopy) → length cs < BANK_COPIES
        → has_room n cs ≡ true }
    ensures no_room { (n : ℕ) (cs : List LineCopy) → Whole cs → has_room n cs ≡ false
        → (is_held n cs ≡ false) × (length cs ≡ BANK_COPIES) }
{}

/// After a refresh, a line that was held gives the new stamp and data, every other line what it
/// gave before; no line is held that was not, and where the line was not held nothing changes.
pub fn refresh_changes_a_held_line()
    ensures line { (c : LineCopy) (cs : List LineCopy) → is_held (line_of c) cs ≡ true
        → get_of (line_of c) (refreshed c cs) ≡ Some (c.stamp, c.bytes) }
    ensures others { (c : LineCopy) (cs : List LineCopy) (n : ℕ) → n ≢ line_of c
        → get_of n (refreshed c cs) ≡ get_of n cs }
    ensures nothing_new { (c : LineCopy) (cs : List LineCopy) (n : ℕ)
        → is_held n (refreshed c cs) ≡ is_held n cs }
    ensures absent { (c : LineCopy) (cs : List LineCopy) → is_held (line_of c) cs ≡ false
        → refreshed c cs ≡ cs }
{}

/// An invalidation removes the copy of its line where that is older than the turn, and nothing
/// else; its answer is whether the line was held before and is not after.
pub fn invalidate_removes_an_older_copy()
    ensures older { (n turn : ℕ) (cs : List LineCopy) (s : ℕ) (b : LineData)
        → get_of n cs ≡ Some (s, b) → s < turn → get_of n (invalidated n turn cs) ≡ None }
    ensures newer { (n turn : ℕ) (cs : List LineCopy) (s : ℕ) (b : LineData)
        → get_of n cs ≡ Some (s, b) → turn ≤ s → invalidated n turn cs ≡ cs }
    ensures absent { (n turn : ℕ) (cs : List LineCopy) → get_of n cs ≡ None
        → invalidated n turn cs ≡ cs }
    ensures others { (n turn : ℕ) (cs : List LineCopy) (m : ℕ) → m ≢ n
        → get_of m (invalidated n turn cs) ≡ get_of m cs }
    ensures told { (n turn : ℕ) (cs : List LineCopy)
        → has_older n turn cs ≡ (is_held n cs && not (is_held n (invalidated n turn cs))) }
{}

/// A line that was dropped is not held, and every other line gives what it gave before.
pub fn dropped_line_is_gone()
    ensures line { (n : ℕ) (cs : List LineCopy) → is_held n (dropped n cs) ≡ false }
    ensures others { (n : ℕ) (cs : List LineCopy) (m : ℕ) → m ≢ n
        → get_of m (dropped n cs) ≡ get_of m cs }
{}

/// Lines that ascend are distinct, and ascending copies that fit stay so by every change.
pub fn lines_stay_distinct_and_few()
    ensures distinct { (cs : List LineCopy) (i j : ℕ) (d : LineCopy) → Whole cs → i < j
        → j < length cs → line_of (slice_index_or cs i d) < line_of (slice_index_or cs j d) }
    ensures few { (cs : List LineCopy) → Whole cs → length cs ≤ BANK_COPIES }
    ensures empty { Whole [] }
    ensures put { (c : LineCopy) (cs : List LineCopy) → Whole cs → Whole (put c cs) }
    ensures refresh { (c : LineCopy) (cs : List LineCopy) → Whole cs → Whole (refreshed c cs) }
    ensures invalidate { (n turn : ℕ) (cs : List LineCopy) → Whole cs
        → Whole (invalidated n turn cs) }
    ensures drop_line { (n : ℕ) (cs : List LineCopy) → Whole cs → Whole (dropped n cs) }
{}

/// The lines that a bank gives are those that are held, with their stamps, in ascending order.
pub fn lines_are_the_held_ones()
    ensures held { (n : ℕ) (cs : List LineCopy) → has_line n (held_lines cs) ≡ is_held n cs }
    ensures stamps { (n : ℕ) (cs : List LineCopy) → stamp_beside n (held_lines cs) ≡ stamp_of n cs }
    ensures ascending { (cs : List LineCopy) (i j : ℕ) (d : Line × ℕ) → Whole cs → i < j
        → j < length (held_lines cs)
        → line_number (slice_index_or (held_lines cs) i d).0 < line_number
        (slice_index_or (held_lines cs) j d).0 }
{}

/// Two banks that give the same for every line have the same copies, in the same order.
pub fn copies_are_what_is_got()
    ensures { (cs ds : List LineCopy) → Whole cs → Whole ds → ((n : ℕ) → get_of n cs ≡ get_of n ds)
        → cs ≡ ds }
{}
