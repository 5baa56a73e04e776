//! Laws of lock registers, each proved as the contract of a function that does nothing.
ghost use Rattle.std.specs.Prelude.{ℕ, ◌≡◌, ◌/◌};
ghost use Rattle.axp_base.specs.declared.lines.TheConstants.{LINE_BYTES};
ghost use Rattle.axp_base.specs.Blocks.{block_of, line_of_block};
ghost use Rattle.axp_lockreg.specs.Steps.{AllowedIsStillLocked};

/// The block of an address is in the address's line, and so is each of the block's bytes.
pub fn block_is_in_one_line()
    ensures { (address : ℕ) → line_of_block (block_of address) ≡ address / LINE_BYTES }
{}

/// An address is allowed exactly where the last lock was of its block and since then neither a
/// release came nor another processor's write to its line.
pub fn allowed_is_still_locked()
    ensures { AllowedIsStillLocked }
{}
