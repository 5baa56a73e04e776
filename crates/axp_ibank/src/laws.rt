//! Laws of the code bank's list of copies, each proved as the contract of a function that does
//! nothing.
ghost use Rattle.std.specs.Prelude.{ℕ, List, ◌≡◌, ◌≢◌, ◌≤◌, ◌<◌, true, false, [], length};
ghost use Rattle.std.specs.Prelude.{slice_index_or, is_some, Some, None};
ghost use Rattle.axp_base.specs.Lines.{line_number};
ghost use Rattle.axp_base.specs.declared.lines.Line.{Line};
ghost use Rattle.axp_bank.specs.Copies.{Whole, line_of, is_held, stamp_of, has_room, put, dropped};
ghost use Rattle.axp_bank.specs.declared.copies.LineCopy.{LineCopy};
ghost use Rattle.axp_base.specs.declared.limits.TheConstants.{BANK_COPIES};
ghost use Rattle.axp_ibank.specs.Code.{bytes_of, code_lines, names_line};

/// A line is held exactly where its data can be got, and exactly where its stamp can be; an empty
/// bank holds none.
pub fn held_code_is_what_is_got()
    ensures bytes { (n : ℕ) (cs : List LineCopy) → is_held n cs ≡ is_some (bytes_of n cs) }
    ensures stamp { (n : ℕ) (cs : List LineCopy) → is_held n cs ≡ is_some (stamp_of n cs) }
    ensures empty { (n : ℕ) → is_held n [] ≡ false }
{}

/// After a put with room, the line gives the data and the stamp that were put, and every other line
/// what it gave before. There is no room exactly where the line is not held and as many others are
/// as fit; nothing changes then.
pub fn code_put_is_got()
    ensures bytes { (c : LineCopy) (cs : List LineCopy) → has_room (line_of c) cs ≡ true
        → bytes_of (line_of c) (put c cs) ≡ Some c.bytes }
    ensures stamp { (c : LineCopy) (cs : List LineCopy) → has_room (line_of c) cs ≡ true
        → stamp_of (line_of c) (put c cs) ≡ Some c.stamp }
    ensures other_bytes { (c : LineCopy) (cs : List LineCopy) (n : ℕ) → n ≢ line_of c
        → bytes_of n (put c cs) ≡ bytes_of n cs }
    ensures other_stamps { (c : LineCopy) (cs : List LineCopy) (n : ℕ) → n ≢ line_of c
        → stamp_of n (put c cs) ≡ stamp_of n cs }
    ensures full { (c : LineCopy) (cs : List LineCopy) → has_room (line_of c) cs ≡ false
        → put c cs ≡ cs }
    ensures held_has_room { (n : ℕ) (cs : List LineCopy) → is_held n cs ≡ true
        → has_room n cs ≡ true }
    ensures few_have_room { (n : ℕ) (cs : List LineCopy) → length cs < BANK_COPIES
        → has_room n cs ≡ true }
    ensures no_room { (n : ℕ) (cs : List LineCopy) → Whole cs → has_room n cs ≡ false
        → (is_held n cs ≡ false) × (length cs ≡ BANK_COPIES) }
{}

/// A line that was dropped is not held, and every other line gives what it gave before.
pub fn dropped_code_line_is_gone()
    ensures line { (n : ℕ) (cs : List LineCopy) → is_held n (dropped n cs) ≡ false }
    ensures other_bytes { (n : ℕ) (cs : List LineCopy) (m : ℕ) → m ≢ n
        → bytes_of m (dropped n cs) ≡ bytes_of m cs }
    ensures other_stamps { (n : ℕ) (cs : List LineCopy) (m : ℕ) → m ≢ n
        → stamp_of m (dropped n cs) ≡ stamp_of m cs }
{}

/// Lines that ascend are distinct, and ascending copies that fit stay so by every change.
pub fn code_lines_stay_distinct_and_few()
    ensures distinct { (cs : List LineCopy) (i j : ℕ) (d : LineCopy) → Whole cs → i < j
        → j < length cs → line_of (slice_index_or cs i d) < line_of (slice_index_or cs j d) }
    ensures few { (cs : List LineCopy) → Whole cs → length cs ≤ BANK_COPIES }
    ensures empty { Whole [] }
    ensures put { (c : LineCopy) (cs : List LineCopy) → Whole cs → Whole (put c cs) }
    ensures drop_line { (n : ℕ) (cs : List LineCopy) → Whole cs → Whole (dropped n cs) }
{}

/// The lines that a bank gives are those that are held, in ascending order.
pub fn code_lines_are_the_held_ones()
    ensures held { (n : ℕ) (cs : List LineCopy) → names_line n (code_lines cs) ≡ is_held n cs }
    ensures ascending { (cs : List LineCopy) (i j : ℕ) (d : Line) → Whole cs → i < j
        → j < length (code_lines cs)
        → line_number (slice_index_or (code_lines cs) i d) < line_number
        (slice_index_or (code_lines cs) j d) }
{}
