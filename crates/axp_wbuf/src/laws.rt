//! Laws of the write buffer, each proved as the contract of a function that does nothing.
ghost use Rattle.std.specs.Prelude.{ℕ, List, ◌≡◌, ◌≢◌, ◌+◌, ◌/◌, ◌%◌, ◌<◌, ◌≤◌, ◌⊎◌, true, false};
ghost use Rattle.std.specs.Prelude.{Some, length, slice_get, slice_index};
ghost use Rattle.axp_base.specs.Masks.{IsSize, span_of, has_bit};
ghost use Rattle.axp_base.specs.Parts.{byte};
ghost use Rattle.axp_base.specs.declared.lines.TheConstants.{LINE_BYTES};
ghost use Rattle.axp_wbuf.specs.Pending.{Buffer, IsTidy, Pending, closed, has_byte, no_entries};
ghost use Rattle.axp_wbuf.specs.Pending.{overlaid, stored, takes};
ghost use Rattle.axp_wbuf.specs.Drains.{first_group, oldest_group, without};
ghost use Rattle.axp_wbuf.specs.Runs.{Step, run};

/// An overlay takes each byte that entries have from the one of them that was made last, and keeps
/// every byte that none has.
pub fn newest_is_overlaid()
    ensures newest { (b : Buffer) (k line n : ℕ) (e : Pending) (bytes : List ℕ) → IsTidy b
        → LINE_BYTES ≤ length bytes → n < LINE_BYTES
        → slice_get b.kept k ≡ Some e → has_byte line n e ≡ true
        → ((j : ℕ) (f : Pending) → slice_get b.kept j ≡ Some f → has_byte line n f ≡ true
        → f.number ≤ e.number)
        → slice_index (overlaid line b.kept bytes) n ≡ slice_index e.bytes n }
    ensures others { (kept : List Pending) (line n : ℕ) (bytes : List ℕ) → LINE_BYTES ≤ length bytes
        → n < LINE_BYTES
        → ((j : ℕ) (f : Pending) → slice_get kept j ≡ Some f → has_byte line n f ≡ false)
        → slice_index (overlaid line kept bytes) n ≡ slice_index bytes n }
    ensures as_long { (kept : List Pending) (line : ℕ) (bytes : List ℕ)
        → length (overlaid line kept bytes) ≡ length bytes }
{}

/// After a store an overlay gives the store's bytes from its value, and every other byte as before.
pub fn stored_is_overlaid()
    ensures bytes { (b : Buffer) (address size value i : ℕ) (bytes : List ℕ) → IsTidy b
        → LINE_BYTES ≤ length bytes
        → IsSize size → address % size ≡ 0 → i < size
        → slice_index (overlaid (address / LINE_BYTES) (stored address size value b).kept bytes)
        ((address + i) % LINE_BYTES)
        ≡ byte value i }
    ensures others { (b : Buffer) (address size value line n : ℕ) (bytes : List ℕ)
        → LINE_BYTES ≤ length bytes → n < LINE_BYTES
        → (line ≢ address / LINE_BYTES) ⊎ (has_bit (span_of address size) n ≡ false)
        → slice_index (overlaid line (stored address size value b).kept bytes) n
        ≡ slice_index (overlaid line b.kept bytes) n }
{}

/// A store leaves each entry of another line, or of a closed group, as it is and where it is.
pub fn store_keeps_other_entries()
    ensures { (b : Buffer) (address size value k : ℕ) (e : Pending) → slice_get b.kept k ≡ Some e
        → (e.group ≢ b.newest) ⊎ (e.line ≢ address / LINE_BYTES)
        → slice_get (stored address size value b).kept k ≡ Some e }
{}

/// The oldest group is the front of the entries: all those of the first entry's group, at the same
/// places, and no entry is of an older group.
pub fn oldest_group_is_in_front()
    ensures same { (kept : List Pending) (k : ℕ) (e : Pending)
        → slice_get (oldest_group kept) k ≡ Some e
        → (slice_get kept k ≡ Some e) × (e.group ≡ first_group kept) }
    ensures all { (b : Buffer) (k : ℕ) (e : Pending) → IsTidy b → slice_get b.kept k ≡ Some e
        → e.group ≡ first_group b.kept
        → slice_get (oldest_group b.kept) k ≡ Some e }
    ensures oldest { (b : Buffer) (k : ℕ) (e : Pending) → IsTidy b → slice_get b.kept k ≡ Some e
        → first_group b.kept ≤ e.group }
{}

/// Each step of a buffer keeps its rules.
pub fn rules_are_kept()
    ensures none { IsTidy no_entries }
    ensures stored { (b : Buffer) (address size value : ℕ) → IsTidy b
        → takes (address / LINE_BYTES) b ≡ true → IsTidy (stored address size value b) }
    ensures closed { (b : Buffer) → IsTidy b → IsTidy (closed b) }
    ensures without { (b : Buffer) (k : ℕ) → IsTidy b → IsTidy (without k b) }
{}

/// Own writes of one byte leave in the order of issue, whatever drains are chosen: of two entries
/// that have the byte the one made first is in an older group, so no entry that may leave has a
/// byte that an entry made before it has too. From the start on, of two entries that left and had
/// the byte, the one that left later was made later.
pub fn own_writes_leave_in_order()
    ensures older_group { (b : Buffer) (i j line n : ℕ) (e f : Pending) → IsTidy b
        → slice_get b.kept i ≡ Some e → slice_get b.kept j ≡ Some f
        → has_byte line n e ≡ true → has_byte line n f ≡ true → e.number < f.number
        → e.group < f.group }
    ensures first_leaves_first { (b : Buffer) (i k line n : ℕ) (e f : Pending) → IsTidy b
        → slice_get b.kept i ≡ Some e → slice_get (oldest_group b.kept) k ≡ Some f
        → has_byte line n e ≡ true → has_byte line n f ≡ true
        → f.number ≤ e.number }
    ensures in_every_run { (steps : List Step) (i j line n : ℕ) (e f : Pending)
        → slice_get (run steps).gone i ≡ Some e → slice_get (run steps).gone j ≡ Some f
        → has_byte line n e ≡ true → has_byte line n f ≡ true → i < j
        → f.number < e.number }
{}
