//! Laws of frames and entries, each proved as the contract of a function that does nothing.
ghost use Rattle.std.specs.Prelude.{ℕ, ◌≡◌, ◌≢◌, ◌*◌, ◌-◌, ◌^◌, Some, slice_get, false, length};
ghost use Rattle.axp_base.specs.Numbers.{add, sub};
ghost use Rattle.axp_pte.specs.declared.faults.MmFault.{MmFault};
ghost use Rattle.axp_pte.specs.declared.faults.MmFault.TheVariants.{Tnv, Acv, For, Foe, Fow};
ghost use Rattle.axp_pte.specs.declared.faults.Mode.TheVariants.{Kernel, User};
ghost use Rattle.axp_pte.specs.declared.faults.Way.{Way};
ghost use Rattle.axp_pte.specs.declared.faults.Way.TheVariants.{Fetch, Load, Store};
ghost use Rattle.axp_regs.specs.declared.asks.Ask.{Ask};
ghost use Rattle.axp_regs.specs.declared.asks.Kind.TheVariants.{Write};
ghost use Rattle.axp_regs.specs.declared.states.State.{State};
ghost use Rattle.axp_regs.specs.States.{register, entry_of, pc_of, ps_of, ksp_of, usp_of, kgp_of};
ghost use Rattle.axp_regs.specs.States.{locked_of};
ghost use Rattle.axp_trap.specs.declared.causes.Cause.{Cause};
ghost use Rattle.axp_trap.specs.declared.causes.Cause.TheVariants.{Int, Arith, Mm, If, Una, Sys};
ghost use Rattle.axp_trap.specs.declared.causes.TheConstants.{INTERPROCESSOR, CLOCK};
ghost use Rattle.axp_trap.specs.declared.causes.TheConstants.{INTEGER_OVERFLOW, BREAKPOINT};
ghost use Rattle.axp_trap.specs.declared.causes.TheConstants.{BUGCHECK, GENERATED_TRAP};
ghost use Rattle.axp_trap.specs.declared.causes.TheConstants.{FLOATING_DISABLED};
ghost use Rattle.axp_trap.specs.declared.causes.TheConstants.{RESERVED_INSTRUCTION};
ghost use Rattle.axp_trap.specs.declared.entries.TheConstants.{INTERRUPT_LEVEL};
ghost use Rattle.axp_trap.specs.declared.frames.TheConstants.{FRAME_BYTES, FRAME_WORDS, PS_SLOT};
ghost use Rattle.axp_trap.specs.declared.frames.TheConstants.{PC_SLOT, GP_SLOT, A0_SLOT, A1_SLOT};
ghost use Rattle.axp_trap.specs.declared.frames.TheConstants.{A2_SLOT};
ghost use Rattle.axp_trap.specs.declared.registers.TheConstants.{V0, A0, A1, A2, GP, SP};
ghost use Rattle.axp_trap.specs.declared.status.TheConstants.{MODE_BIT};
ghost use Rattle.axp_trap.specs.Entering.{entered};
ghost use Rattle.axp_trap.specs.Entries.{fault_code, way_code};
ghost use Rattle.axp_trap.specs.Frames.{frame_address, frame_of};
ghost use Rattle.axp_trap.specs.Keeping.{IsWhole, HasArguments, KeepsInternals};
ghost use Rattle.axp_trap.specs.Status.{interrupt_level, mode_of, with_level};

/// The numbers of registers, the places of a frame's words, and the bit of the mode.
pub fn numbers_are_these()
    ensures v0 { V0 ≡ 0 }
    ensures arguments { (A0 ≡ 16) × (A1 ≡ 17) × (A2 ≡ 18) }
    ensures pointers { (GP ≡ 29) × (SP ≡ 30) }
    ensures frame { (FRAME_BYTES ≡ 48) × (FRAME_WORDS ≡ 6) }
    ensures first_slots { (PS_SLOT ≡ 0) × (PC_SLOT ≡ 8) × (GP_SLOT ≡ 16) }
    ensures argument_slots { (A0_SLOT ≡ 24) × (A1_SLOT ≡ 32) × (A2_SLOT ≡ 40) }
    ensures status { (MODE_BIT ≡ 3) × (INTERRUPT_LEVEL ≡ 5) }
{}

/// The codes by which an entry tells what raised it.
pub fn codes_are_these()
    ensures interrupts { (INTERPROCESSOR ≡ 0) × (CLOCK ≡ 1) }
    ensures arithmetic { INTEGER_OVERFLOW ≡ 2 ^ 6 }
    ensures calls { (BREAKPOINT ≡ 0) × (BUGCHECK ≡ 1) × (GENERATED_TRAP ≡ 2) }
    ensures instructions { (FLOATING_DISABLED ≡ 3) × (RESERVED_INSTRUCTION ≡ 4) }
    ensures faults { (fault_code Tnv ≡ 0) × (fault_code Acv ≡ 1) × (fault_code For ≡ 2)
        × (fault_code Foe ≡ 3) × (fault_code Fow ≡ 4) }
    ensures ways { (way_code Fetch ≡ 2 ^ 64 - 1) × (way_code Load ≡ 0) × (way_code Store ≡ 1) }
{}

/// Of a status whose mode or level is set, the other one stays.
pub fn mode_and_level_are_apart()
    ensures level { (ps level : ℕ) → interrupt_level (with_level ps level) ≡ interrupt_level level }
    ensures mode { (ps level : ℕ) → mode_of (with_level ps level) ≡ mode_of ps }
{}

/// Every entry ends in kernel mode. The interrupt level becomes 5 by an interrupt, and no other
/// entry changes it.
#[tactic(auto, unfolding(crate::specs::Entries::row_of))]
pub fn entries_end_in_kernel_mode()
    ensures mode { (cause : Cause) (s : State) → mode_of (ps_of (entered cause s)) ≡ Kernel }
    ensures interrupt { (code : ℕ) (s : State)
        → interrupt_level (ps_of (entered (Int code) s)) ≡ 5 }
    ensures arithmetic { (mask : ℕ) (s : State)
        → interrupt_level (ps_of (entered (Arith mask) s)) ≡ interrupt_level (ps_of s) }
    ensures memory { (va : ℕ) (fault : MmFault) (way : Way) (s : State)
        → interrupt_level (ps_of (entered (Mm va fault way) s)) ≡ interrupt_level (ps_of s) }
    ensures instruction { (code : ℕ) (s : State)
        → interrupt_level (ps_of (entered (If code) s)) ≡ interrupt_level (ps_of s) }
    ensures unaligned { (va opcode a : ℕ) (s : State)
        → interrupt_level (ps_of (entered (Una va opcode a) s)) ≡ interrupt_level (ps_of s) }
    ensures system_call { (s : State)
        → interrupt_level (ps_of (entered Sys s)) ≡ interrupt_level (ps_of s) }
{}

/// What an entry tells in a0, a1 and a2: those that it does not tell stay.
#[tactic(auto, unfolding(crate::specs::Entries::row_of))]
pub fn entries_tell_their_cause()
    ensures interrupt { (code : ℕ) (s : State) → IsWhole s
        → HasArguments (entered (Int code) s) code 0 0 }
    ensures arithmetic { (mask : ℕ) (s : State) → IsWhole s
        → HasArguments (entered (Arith mask) s) 64 mask (register s A2) }
    ensures memory { (va : ℕ) (fault : MmFault) (way : Way) (s : State) → IsWhole s
        → HasArguments (entered (Mm va fault way) s) va (fault_code fault) (way_code way) }
    ensures instruction { (code : ℕ) (s : State) → IsWhole s
        → HasArguments (entered (If code) s) code (register s A1) (register s A2) }
    ensures unaligned { (va opcode a : ℕ) (s : State) → IsWhole s
        → HasArguments (entered (Una va opcode a) s) va opcode a }
    ensures system_call { (s : State) → IsWhole s
        → HasArguments (entered Sys s) (register s A0) (register s A1) (register s A2) }
{}

/// Where the operating system begins: each entry has its own address.
#[tactic(auto, unfolding(crate::specs::Entries::row_of))]
pub fn entries_go_to_their_addresses()
    ensures interrupt { (code : ℕ) (s : State) → pc_of (entered (Int code) s) ≡ entry_of s 0 }
    ensures arithmetic { (mask : ℕ) (s : State) → pc_of (entered (Arith mask) s) ≡ entry_of s 1 }
    ensures memory { (va : ℕ) (fault : MmFault) (way : Way) (s : State)
        → pc_of (entered (Mm va fault way) s) ≡ entry_of s 2 }
    ensures instruction { (code : ℕ) (s : State) → pc_of (entered (If code) s) ≡ entry_of s 3 }
    ensures unaligned { (va opcode a : ℕ) (s : State)
        → pc_of (entered (Una va opcode a) s) ≡ entry_of s 4 }
    ensures system_call { (s : State) → pc_of (entered Sys s) ≡ entry_of s 5 }
{}

/// The stack pointers change places exactly where an entry raises the mode: from user mode the
/// frame lies below the kernel's, and the user's is kept; from kernel mode the frame lies below the
/// stack pointer, and nothing is kept. The kernel's own one stays.
pub fn stacks_change_with_the_mode()
    ensures from_user { (cause : Cause) (s : State) → IsWhole s → mode_of (ps_of s) ≡ User
        → register (entered cause s) SP ≡ sub (ksp_of s) 48 }
    ensures from_kernel { (cause : Cause) (s : State) → IsWhole s → mode_of (ps_of s) ≡ Kernel
        → register (entered cause s) SP ≡ sub (register s SP) 48 }
    ensures user_kept { (cause : Cause) (s : State) → mode_of (ps_of s) ≡ User
        → usp_of (entered cause s) ≡ register s SP }
    ensures not_kept { (cause : Cause) (s : State) → mode_of (ps_of s) ≡ Kernel
        → usp_of (entered cause s) ≡ usp_of s }
    ensures kernel { (cause : Cause) (s : State) → ksp_of (entered cause s) ≡ ksp_of s }
{}

/// An entry clears the lock flag and takes the kernel's global pointer. Every register but SP, GP
/// and the arguments stays, and so do all internal registers but those that the other laws name.
#[tactic(auto, using(crate::proofs::EntryLemmas::internals_kept))]
pub fn entries_keep_the_rest()
    ensures lock { (cause : Cause) (s : State) → locked_of (entered cause s) ≡ false }
    ensures global { (cause : Cause) (s : State) → IsWhole s
        → register (entered cause s) GP ≡ kgp_of s }
    ensures registers { (cause : Cause) (s : State) (n : ℕ) → n ≢ SP → n ≢ GP → n ≢ A0 → n ≢ A1
        → n ≢ A2 → register (entered cause s) n ≡ register s n }
    ensures internals { (cause : Cause) (s : State) → KeepsInternals s (entered cause s) }
    ensures whole { (cause : Cause) (s : State) → IsWhole s → IsWhole (entered cause s) }
{}

/// A frame is saved by writes of 8 bytes that are translated, one behind the other from where the
/// stack pointer will be: three for a call of the operating system, else six.
#[tactic(auto, unfolding(crate::specs::Entries::row_of))]
pub fn frames_are_saved_in_order()
    ensures system_call { (s : State) → length (frame_of Sys s) ≡ 3 }
    ensures others { (cause : Cause) (s : State) → cause ≢ Sys → length (frame_of cause s) ≡ 6 }
    ensures stack { (cause : Cause) (s : State) → IsWhole s
        → register (entered cause s) SP ≡ frame_address s }
    ensures address { (cause : Cause) (s : State) (n : ℕ) (ask : Ask)
        → slice_get (frame_of cause s) n ≡ Some ask
        → ask.address ≡ add (frame_address s) (8 * n) }
    ensures kind { (cause : Cause) (s : State) (n : ℕ) (ask : Ask)
        → slice_get (frame_of cause s) n ≡ Some ask
        → (ask.kind ≡ Write) × (ask.size ≡ 8) × (ask.direct ≡ false) }
{}
