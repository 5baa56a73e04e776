//! Laws of the readers and writers of a state, each proved as the contract of a function that does
//! nothing.
ghost use Rattle.std.specs.Prelude.{ℕ, Bool, ◌≡◌, ◌≢◌, ◌<◌, length};
ghost use Rattle.axp_regs.specs.declared.states.State.{State};
ghost use Rattle.axp_regs.specs.declared.states.TheConstants.{ENTRIES, REGISTERS, ZERO_REGISTER};
ghost use Rattle.axp_regs.specs.States.{register, with_register, entry_of, with_entry, number_of};
ghost use Rattle.axp_regs.specs.States.{first_state, pc_of, with_pc, ps_of, with_ps, ksp_of};
ghost use Rattle.axp_regs.specs.States.{with_ksp, usp_of, with_usp, kgp_of, with_kgp, ptbr_of};
ghost use Rattle.axp_regs.specs.States.{with_ptbr, pcbb_of, with_pcbb, asn_of, with_asn, offset_of};
ghost use Rattle.axp_regs.specs.States.{with_offset, unique_of, with_unique, fen_of, with_fen};
ghost use Rattle.axp_regs.specs.States.{sysvalue_of, with_sysvalue, vptptr_of, with_vptptr};
ghost use Rattle.axp_regs.specs.States.{locked_of, with_locked, fetched_of, with_fetched};
ghost use Rattle.axp_regs.specs.Keeps.{KeepsFields, KeepsRegisters, KeepsEntries};

/// A register that is written is read back, but for R31, which reads as 0 in every state. Each
/// other register stays, and so do the number of registers, the entries and all else.
pub fn register_writes_are_read_back()
    ensures same { (s : State) (n v : ℕ) → length s.registers ≡ REGISTERS → n < REGISTERS
        → n ≢ ZERO_REGISTER
        → register (with_register s n v) n ≡ v }
    ensures zero { (s : State) → register s ZERO_REGISTER ≡ 0 }
    ensures lost { (s : State) (v : ℕ) → with_register s ZERO_REGISTER v ≡ s }
    ensures others { (s : State) (n v m : ℕ) → m ≢ n
        → register (with_register s n v) m ≡ register s m }
    ensures as_long { (s : State) (n v : ℕ)
        → length (with_register s n v).registers ≡ length s.registers }
    ensures entries { (s : State) (n v : ℕ) → KeepsEntries s (with_register s n v) }
    ensures fields { (s : State) (n v : ℕ) → KeepsFields s (with_register s n v) }
{}

/// An entry that is written is read back. Each other entry stays, and so do the number of entries,
/// the registers and all else.
pub fn entry_writes_are_read_back()
    ensures same { (s : State) (n v : ℕ) → length s.entries ≡ ENTRIES → n < ENTRIES
        → entry_of (with_entry s n v) n ≡ v }
    ensures others { (s : State) (n v m : ℕ) → m ≢ n
        → entry_of (with_entry s n v) m ≡ entry_of s m }
    ensures as_long { (s : State) (n v : ℕ) → length (with_entry s n v).entries ≡ length s.entries }
    ensures registers { (s : State) (n v : ℕ) → KeepsRegisters s (with_entry s n v) }
    ensures fields { (s : State) (n v : ℕ) → KeepsFields s (with_entry s n v) }
{}

/// What is written beside the registers and the entries is read back.
pub fn field_writes_are_read_back()
    ensures pc { (s : State) (v : ℕ) → pc_of (with_pc s v) ≡ v }
    ensures ps { (s : State) (v : ℕ) → ps_of (with_ps s v) ≡ v }
    ensures ksp { (s : State) (v : ℕ) → ksp_of (with_ksp s v) ≡ v }
    ensures usp { (s : State) (v : ℕ) → usp_of (with_usp s v) ≡ v }
    ensures kgp { (s : State) (v : ℕ) → kgp_of (with_kgp s v) ≡ v }
    ensures ptbr { (s : State) (v : ℕ) → ptbr_of (with_ptbr s v) ≡ v }
    ensures pcbb { (s : State) (v : ℕ) → pcbb_of (with_pcbb s v) ≡ v }
    ensures asn { (s : State) (v : ℕ) → asn_of (with_asn s v) ≡ v }
    ensures offset { (s : State) (v : ℕ) → offset_of (with_offset s v) ≡ v }
    ensures unique { (s : State) (v : ℕ) → unique_of (with_unique s v) ≡ v }
    ensures fen { (s : State) (v : Bool) → fen_of (with_fen s v) ≡ v }
    ensures sysvalue { (s : State) (v : ℕ) → sysvalue_of (with_sysvalue s v) ≡ v }
    ensures vptptr { (s : State) (v : ℕ) → vptptr_of (with_vptptr s v) ≡ v }
    ensures locked { (s : State) (v : Bool) → locked_of (with_locked s v) ≡ v }
    ensures fetched { (s : State) (v : ℕ) → fetched_of (with_fetched s v) ≡ v }
{}

/// A write of anything but a register keeps every register.
pub fn field_writes_keep_registers()
    ensures pc { (s : State) (v : ℕ) → KeepsRegisters s (with_pc s v) }
    ensures ps { (s : State) (v : ℕ) → KeepsRegisters s (with_ps s v) }
    ensures ksp { (s : State) (v : ℕ) → KeepsRegisters s (with_ksp s v) }
    ensures usp { (s : State) (v : ℕ) → KeepsRegisters s (with_usp s v) }
    ensures kgp { (s : State) (v : ℕ) → KeepsRegisters s (with_kgp s v) }
    ensures ptbr { (s : State) (v : ℕ) → KeepsRegisters s (with_ptbr s v) }
    ensures pcbb { (s : State) (v : ℕ) → KeepsRegisters s (with_pcbb s v) }
    ensures asn { (s : State) (v : ℕ) → KeepsRegisters s (with_asn s v) }
    ensures offset { (s : State) (v : ℕ) → KeepsRegisters s (with_offset s v) }
    ensures unique { (s : State) (v : ℕ) → KeepsRegisters s (with_unique s v) }
    ensures fen { (s : State) (v : Bool) → KeepsRegisters s (with_fen s v) }
    ensures sysvalue { (s : State) (v : ℕ) → KeepsRegisters s (with_sysvalue s v) }
    ensures vptptr { (s : State) (v : ℕ) → KeepsRegisters s (with_vptptr s v) }
    ensures locked { (s : State) (v : Bool) → KeepsRegisters s (with_locked s v) }
    ensures fetched { (s : State) (v : ℕ) → KeepsRegisters s (with_fetched s v) }
{}

/// At the start every register and every entry reads as 0, and there are as many as there should
/// be.
pub fn first_state_is_empty()
    ensures registers { (number n : ℕ) → register (first_state number) n ≡ 0 }
    ensures register_count { (number : ℕ) → length (first_state number).registers ≡ REGISTERS }
    ensures entries { (number n : ℕ) → entry_of (first_state number) n ≡ 0 }
    ensures entry_count { (number : ℕ) → length (first_state number).entries ≡ ENTRIES }
{}
