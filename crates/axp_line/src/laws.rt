//! Laws of lines, each proved as the contract of a function that does nothing.
ghost use Rattle.std.specs.Prelude.{ℕ, List, ◌≡◌, ◌≤◌, ◌<◌, length, slice_index, if◌then◌else◌};
ghost use Rattle.axp_base.specs.Masks.{has_bit};
ghost use Rattle.axp_base.specs.declared.lines.TheConstants.{LINE_BYTES};
ghost use Rattle.axp_line.specs.Lines.{bytes_of_line, merged};
ghost use Rattle.axp_line.specs.declared.contents.LineData.{LineData};
ghost use Rattle.axp_line.specs.declared.messages.TheConstants.{MAX_HELD};

/// The most lines that a processor holds, as a number.
pub fn limits_are_these()
    ensures held { MAX_HELD ≡ 32 }
{}

/// A line's data have the line's bytes.
pub fn line_is_whole()
    ensures { (d : LineData) → length (bytes_of_line d) ≡ LINE_BYTES }
{}

/// Merging gives each byte of the line that the mask has from the other line, and keeps every other
/// byte and the length.
pub fn merged_bytes()
    ensures each { (mask : ℕ) (from old : List ℕ) (n : ℕ) → LINE_BYTES ≤ length old → n < LINE_BYTES
        → slice_index (merged mask from old) n
        ≡ (if has_bit mask n then slice_index from n else slice_index old n) }
    ensures past { (mask : ℕ) (from old : List ℕ) (n : ℕ) → LINE_BYTES ≤ n
        → slice_index (merged mask from old) n ≡ slice_index old n }
    ensures as_long { (mask : ℕ) (from old : List ℕ) → length (merged mask from old) ≡ length old }
{}
