//! Locks, and the constraint on store-conditionals that succeed.
ghost use Rattle.std.specs.Prelude.{IsTrue, ◌↔◌, ℕ, List};
ghost use Rattle.axp_laws.specs.Runs.{Run};
ghost use Rattle.axp_base.specs.Blocks.{is_allowed};
ghost use Rattle.axp_access.specs.declared.Record.{Record};
ghost use Rattle.axp_model.specs.Locks.{lock};
ghost use Rattle.axp_laws.specs.LockLaws.{IsStillLocked};
ghost use Rattle.axp_model.specs.Locking.{KeepsLocking};

/// An STx_C of a processor may succeed at an address, as far as its lock register says, exactly
/// where the processor's last LDx_L was of the same block of 16 bytes and since then it made no
/// STx_C, of any outcome, and no other processor made a turn on the block's line.
pub fn undisturbed_in_words()
    ensures { (p address : ℕ) (h : List Record)
        → IsTrue (is_allowed address (lock p h)) ↔ IsStillLocked p address h }
{}

/// Each STx_C that succeeds is paired with an LDx_L of its processor: that precedes it in issue
/// order with no other LDx_L or STx_C of the processor between them, and both lie in one aligned
/// block of 16 bytes. Each memory write of another processor on the LDx_L's line is BEFORE the
/// LDx_L, or has the STx_C BEFORE it, however the run goes on.
pub fn locking()
    ensures { (h : List Record) → Run h → KeepsLocking h }
{}
