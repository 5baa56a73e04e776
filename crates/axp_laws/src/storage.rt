//! Laws of values: a read or fetch has the bytes of its sources, and what these are.
ghost use Rattle.std.specs.Prelude.{ℕ, List, Option, true, ◌≡◌, ◌≤◌, ◌+◌, ◌*◌, ◌++◌, ◌∷◌};
ghost use Rattle.std.specs.List.{list_any};
ghost use Rattle.std.specs.Option.{option_or};
ghost use Rattle.axp_laws.specs.Runs.{Run};
ghost use Rattle.axp_base.specs.Cpus.{cpu_number};
ghost use Rattle.axp_regs.specs.declared.asks.Kind.TheVariants.{Fetch, Read, Locked};
ghost use Rattle.axp_access.specs.declared.Access.{Access};
ghost use Rattle.axp_access.specs.declared.Record.{Record};
ghost use Rattle.axp_access.specs.Kinds.{has_byte};
ghost use Rattle.axp_base.specs.Lines.{line_of};
ghost use Rattle.axp_model.specs.Turns.{turns, stamp, code_stamp, read_place};
ghost use Rattle.axp_model.specs.Late.{held};
ghost use Rattle.axp_model.specs.Accesses.{accesses};
ghost use Rattle.axp_model.specs.Memory.{is_touched, newest_waiting};
ghost use Rattle.axp_base.specs.declared.parts.TheConstants.{QUADWORD_BYTES};
ghost use Rattle.axp_model.specs.Storage.{HasBytes, KeepsEachByte, KeepsStorage};
ghost use Rattle.axp_laws.specs.StorageLaws.{Makes, memory_after, reaches_bytes, source_in};

/// Each read and fetch of a run has the bytes of its sources, now and after every later record.
pub fn storage_is_kept()
    ensures value { (h : List Record) (run : Run h) → KeepsStorage run.image h }
    ensures bytes { (h : List Record) (run : Run h) → HasBytes run.image
        → KeepsEachByte run.image h }
{}

/// What the source of a byte is. A plain read takes it from the last own earlier write of the byte
/// that waits in a write buffer at the read; where there is none, from memory as it is after the
/// turns up to the read's place. A load-locked takes it from memory as it is, a fetch from memory
/// after the turns up to its place. No later record changes this.
pub fn closed_form_of_sources()
    ensures of_a_read { (more : List Record) (r : Record) (h : List Record) (a : Access) (at : ℕ)
        → Run (more ++ r ∷ h) → Makes r Read a → has_byte at a ≡ true
        → source_in (more ++ r ∷ h) h at a
        ≡ option_or (newest_waiting (cpu_number a.cpu) at h)
        (memory_after h (read_place (cpu_number a.cpu) (line_of at) h) at) }
    ensures of_a_load_locked { (more : List Record) (r : Record) (h : List Record) (a : Access)
        (at : ℕ)
        → Run (more ++ r ∷ h) → Makes r Locked a → has_byte at a ≡ true
        → source_in (more ++ r ∷ h) h at a ≡ memory_after h (turns h) at }
    ensures of_a_fetch { (more : List Record) (r : Record) (h : List Record) (a : Access) (at : ℕ)
        → Run (more ++ r ∷ h) → Makes r Fetch a → has_byte at a ≡ true
        → source_in (more ++ r ∷ h) h at a
        ≡ memory_after h (code_stamp (cpu_number a.cpu) (line_of at) h) at }
{}

/// What memory is after turns that were made, later records leave as it is.
pub fn memory_of_past_turns_stays()
    ensures { (more h : List Record) (n at : ℕ) → Run (more ++ h) → n ≤ turns h
        → memory_after (more ++ h) n at ≡ memory_after h n at }
{}

/// Of a line that a processor holds, memory has the same bytes after the line's stamp, when its
/// copy was brought in or written, and where a plain read of the line stands.
pub fn held_copies_are_memory()
    ensures { (h : List Record) (p at : ℕ) → Run h → held p (line_of at) h ≡ true
        → memory_after h (read_place p (line_of at) h) at
        ≡ memory_after h (stamp p (line_of at) h) at }
{}

/// A byte of an aligned quadword was written by a drain or a store-conditional that succeeded
/// exactly where a memory write of the history that reached memory has a byte of it.
pub fn written_quadwords()
    ensures { (h : List Record) (q : ℕ) → is_touched h q
        ≡ list_any (reaches_bytes h (q * QUADWORD_BYTES) QUADWORD_BYTES) (accesses h) }
{}
