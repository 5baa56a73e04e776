//! Laws of memory, each proved as the contract of a function that does nothing.
ghost use Rattle.std.specs.Prelude.{ℕ, List, ◌+◌, ◌*◌, ◌≤◌, length};
ghost use Rattle.axp_base.specs.declared.lines.TheConstants.{LINE_BYTES};
ghost use Rattle.axp_memory.specs.Bytes.{ChangesOneLine};

/// A write to a line of memory leaves that line merged, changes exactly those of its bytes that the
/// mask has, and keeps every other line and the size.
pub fn write_changes_one_line()
    ensures { (line mask : ℕ) (from bytes : List ℕ) → line * LINE_BYTES + LINE_BYTES ≤ length bytes
        → ChangesOneLine line mask from bytes }
{}
