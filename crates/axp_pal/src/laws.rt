//! Laws of the calls, each proved as the contract of a function that does nothing.
ghost use Rattle.std.specs.Prelude.{ℕ, List, ◌≡◌, ◌≢◌, ◌<◌, ◌≤◌, ◌-◌, ◌*◌, ◌/◌, ◌%◌, ◌^◌};
ghost use Rattle.std.specs.Prelude.{◌∷◌, [], All, drop, length, map, slice_index, true, false};
ghost use Rattle.axp_base.specs.Masks.{has_bit};
ghost use Rattle.axp_base.specs.Numbers.{add};
ghost use Rattle.axp_decode.specs.Table.{pal_number};
ghost use Rattle.axp_decode.specs.declared.names.PalOp.{PalOp};
ghost use Rattle.axp_decode.specs.declared.names.PalOp.TheVariants.{SWPCTX, TBI, WRENT, SWPIPL};
ghost use Rattle.axp_decode.specs.declared.names.PalOp.TheVariants.{WRUSP, RDUSP, WRVAL, RDVAL};
ghost use Rattle.axp_decode.specs.declared.names.PalOp.TheVariants.{RDUNIQUE, WRUNIQUE, RDPS};
ghost use Rattle.axp_decode.specs.declared.names.PalOp.TheVariants.{RETSYS, RTI, WHAMI, WRKGP};
ghost use Rattle.axp_decode.specs.declared.names.PalOp.TheVariants.{WRVPTPTR, WRFEN, CSERVE};
ghost use Rattle.axp_decode.specs.declared.names.PalOp.TheVariants.{HALT, BPT, BUGCHK, GENTRAP};
ghost use Rattle.axp_decode.specs.declared.names.PalOp.TheVariants.{CALLSYS};
ghost use Rattle.axp_pte.specs.declared.faults.Mode.TheVariants.{Kernel, User};
ghost use Rattle.axp_regs.specs.declared.asks.Kind.TheVariants.{Console, Signal};
ghost use Rattle.axp_regs.specs.declared.states.State.{State};
ghost use Rattle.axp_regs.specs.States.{register, entry_of, number_of, pc_of, ps_of, ksp_of};
ghost use Rattle.axp_regs.specs.States.{usp_of, ptbr_of, pcbb_of, asn_of, unique_of, fen_of};
ghost use Rattle.axp_regs.specs.States.{sysvalue_of, locked_of, fetched_of, kgp_of, vptptr_of};
ghost use Rattle.axp_regs.specs.States.{offset_of, with_locked};
ghost use Rattle.axp_regs.specs.States.{with_ps, with_usp};
ghost use Rattle.axp_tb.specs.Buffers.{without_page, without_process};
ghost use Rattle.axp_tb.specs.declared.entries.TbEntry.{TbEntry};
ghost use Rattle.axp_trap.specs.declared.causes.Cause.{Cause};
ghost use Rattle.axp_trap.specs.declared.causes.Cause.TheVariants.{If, Sys};
ghost use Rattle.axp_trap.specs.declared.registers.TheConstants.{V0, A0, A1, A2, GP, SP};
ghost use Rattle.axp_trap.specs.Entering.{entered};
ghost use Rattle.axp_trap.specs.Frames.{frame_of};
ghost use Rattle.axp_trap.specs.Keeping.{IsWhole};
ghost use Rattle.axp_trap.specs.Status.{interrupt_level, mode_of};
ghost use Rattle.axp_pal.specs.declared.buffers.TheConstants.{ALL_ENTRIES, PROCESS_ENTRIES};
ghost use Rattle.axp_pal.specs.declared.buffers.TheConstants.{INSTRUCTION_PAGE, DATA_PAGE};
ghost use Rattle.axp_pal.specs.declared.buffers.TheConstants.{PAGE_IN_BOTH};
ghost use Rattle.axp_pal.specs.declared.contexts.TheConstants.{BLOCK_BYTES, SP_PLACE, USP_PLACE};
ghost use Rattle.axp_pal.specs.declared.contexts.TheConstants.{PTBR_PLACE, COUNTER_PLACE};
ghost use Rattle.axp_pal.specs.declared.contexts.TheConstants.{ASN_PLACE, UNIQUE_PLACE, FEN_PLACE};
ghost use Rattle.axp_pal.specs.declared.plans.PalEnd.TheVariants.{Ends, Enters, Halts};
ghost use Rattle.axp_pal.specs.declared.plans.TheConstants.{CONSOLE_SERVICE, HALTED, MOST_ASKS};
ghost use Rattle.axp_pal.specs.declared.plans.TheConstants.{KERNEL_SYSTEM_CALL};
ghost use Rattle.axp_pal.specs.declared.privilege.TheConstants.{FIRST_UNPRIVILEGED};
ghost use Rattle.axp_pal.specs.declared.returns.TheConstants.{USER_STATUS};
ghost use Rattle.axp_pal.specs.Calls.{asks_of, data_buffer, end_of, finished, instruction_buffer};
ghost use Rattle.axp_pal.specs.Calls.{row_of, IsAnswered};
ghost use Rattle.axp_pal.specs.Contexts.{counter_of};
ghost use Rattle.axp_pal.specs.Invalidations.{page_of};

/// The limits, the codes and the places of a process control block, as numbers.
pub fn numbers_are_these()
    ensures calls { (FIRST_UNPRIVILEGED ≡ 0x40) × (MOST_ASKS ≡ 10) × (CONSOLE_SERVICE ≡ 1) }
    ensures halts { (HALTED ≡ 1) × (KERNEL_SYSTEM_CALL ≡ 3) }
    ensures status { USER_STATUS ≡ 8 }
    ensures block { (BLOCK_BYTES ≡ 128) × (SP_PLACE ≡ 0) × (USP_PLACE ≡ 8) × (PTBR_PLACE ≡ 16) }
    ensures block_end { (COUNTER_PLACE ≡ 24) × (ASN_PLACE ≡ 28) × (UNIQUE_PLACE ≡ 32)
        × (FEN_PLACE ≡ 40) }
    ensures buffers { (ALL_ENTRIES ≡ 2 ^ 64 - 2) × (PROCESS_ENTRIES ≡ 2 ^ 64 - 1) }
    ensures pages { (INSTRUCTION_PAGE ≡ 1) × (DATA_PAGE ≡ 2) × (PAGE_IN_BOTH ≡ 3) }
{}

/// Every call with a function below 0x40 is privileged: from user mode it makes no access and
/// raises an instruction fault, as a reserved instruction does. Each other call is that of its row
/// in both modes.
#[tactic(auto, unfolding(crate::specs::Calls::row_of))]
pub fn privileged_calls_are_reserved_in_user_mode()
    ensures asks { (op : PalOp) (s : State) (cpus : ℕ) → pal_number op < 0x40
        → mode_of (ps_of s) ≡ User → asks_of op s cpus ≡ [] }
    ensures end { (op : PalOp) (s : State) (cpus : ℕ) → pal_number op < 0x40
        → mode_of (ps_of s) ≡ User → end_of op s cpus ≡ Enters (If 4) }
    ensures other_asks { (op : PalOp) (s : State) (cpus : ℕ) → 0x40 ≤ pal_number op
        → asks_of op s cpus ≡ (row_of op s cpus).asks }
    ensures other_end { (op : PalOp) (s : State) (cpus : ℕ) → 0x40 ≤ pal_number op
        → end_of op s cpus ≡ (row_of op s cpus).end }
{}

/// Which calls do not end: halt and, in kernel mode, callsys halt the processor; callsys from user
/// mode, the calls of traps and an unknown service enter the operating system. These make no
/// access.
#[tactic(auto, unfolding(crate::specs::Calls::row_of))]
pub fn calls_that_do_not_end()
    ensures halt { (s : State) (cpus : ℕ) → mode_of (ps_of s) ≡ Kernel
        → end_of HALT s cpus ≡ Halts 1 }
    ensures system_call { (s : State) (cpus : ℕ) → mode_of (ps_of s) ≡ User
        → end_of CALLSYS s cpus ≡ Enters Sys }
    ensures kernel_system_call { (s : State) (cpus : ℕ) → mode_of (ps_of s) ≡ Kernel
        → end_of CALLSYS s cpus ≡ Halts 3 }
    ensures breakpoint { (s : State) (cpus : ℕ) → end_of BPT s cpus ≡ Enters (If 0) }
    ensures bugcheck { (s : State) (cpus : ℕ) → end_of BUGCHK s cpus ≡ Enters (If 1) }
    ensures trap { (s : State) (cpus : ℕ) → end_of GENTRAP s cpus ≡ Enters (If 2) }
    ensures unknown_service { (s : State) (cpus : ℕ) → register s A0 ≢ 1
        → end_of CSERVE s cpus ≡ Enters (If 4) }
    ensures no_access { (op : PalOp) (s : State) (cpus : ℕ) → end_of op s cpus ≢ Ends
        → asks_of op s cpus ≡ [] }
{}

/// In user mode no call changes the status, so an entry alone raises the mode. In kernel mode
/// swpipl, rti and retsys alone change it: swpipl the level and not the mode, rti to the saved one,
/// or to user mode at level 0, and retsys to user mode at level 0.
#[tactic(auto, unfolding(crate::specs::Calls::row_of, crate::specs::Calls::finished))]
pub fn calls_keep_the_status()
    ensures user { (op : PalOp) (s : State) (values : List ℕ) → mode_of (ps_of s) ≡ User
        → IsAnswered op s values → ps_of (finished op s values) ≡ ps_of s }
    ensures unprivileged { (op : PalOp) (s : State) (values : List ℕ) → 0x40 ≤ pal_number op
        → ps_of (finished op s values) ≡ ps_of s }
    ensures others { (op : PalOp) (s : State) (values : List ℕ) → op ≢ SWPIPL → op ≢ RTI
        → op ≢ RETSYS → ps_of (finished op s values) ≡ ps_of s }
    ensures level { (s : State) (values : List ℕ)
        → interrupt_level (ps_of (finished SWPIPL s values)) ≡ register s A0 % 8 }
    ensures mode { (s : State) (values : List ℕ)
        → mode_of (ps_of (finished SWPIPL s values)) ≡ mode_of (ps_of s) }
    ensures to_kernel { (s : State) (values : List ℕ) → mode_of (slice_index values 0) ≡ Kernel
        → ps_of (finished RTI s values) ≡ slice_index values 0 % 16 }
    ensures to_user { (s : State) (values : List ℕ) → mode_of (slice_index values 0) ≡ User
        → ps_of (finished RTI s values) ≡ 8 }
    ensures system { (s : State) (values : List ℕ) → ps_of (finished RETSYS s values) ≡ 8 }
{}

/// The stack pointers change places exactly where a return goes to user mode: the kernel's is kept
/// without the frame, and the stack pointer is the user's. Beside the returns, swpctx alone changes
/// SP, and wrusp and swpctx USP.
#[tactic(auto, unfolding(crate::specs::Calls::finished))]
pub fn stacks_change_with_the_mode()
    ensures kernel_kept { (op : PalOp) (s : State) (values : List ℕ) → op ≢ RTI → op ≢ RETSYS
        → ksp_of (finished op s values) ≡ ksp_of s }
    ensures user_kept { (op : PalOp) (s : State) (values : List ℕ) → op ≢ WRUSP → op ≢ SWPCTX
        → usp_of (finished op s values) ≡ usp_of s }
    ensures stack_kept { (op : PalOp) (s : State) (values : List ℕ) → op ≢ SWPCTX → op ≢ RTI
        → op ≢ RETSYS → register (finished op s values) SP ≡ register s SP }
    ensures system_kernel { (s : State) (values : List ℕ)
        → ksp_of (finished RETSYS s values) ≡ add (register s SP) 48 }
    ensures system_stack { (s : State) (values : List ℕ) → IsWhole s
        → register (finished RETSYS s values) SP ≡ usp_of s }
    ensures to_user_kernel { (s : State) (values : List ℕ) → mode_of (slice_index values 0) ≡ User
        → ksp_of (finished RTI s values) ≡ add (register s SP) 48 }
    ensures to_user_stack { (s : State) (values : List ℕ) → IsWhole s
        → mode_of (slice_index values 0) ≡ User → register (finished RTI s values) SP ≡ usp_of s }
    ensures to_kernel_kernel { (s : State) (values : List ℕ)
        → mode_of (slice_index values 0) ≡ Kernel → ksp_of (finished RTI s values) ≡ ksp_of s }
    ensures to_kernel_stack { (s : State) (values : List ℕ) → IsWhole s
        → mode_of (slice_index values 0) ≡ Kernel
        → register (finished RTI s values) SP ≡ add (register s SP) 48 }
{}

/// The returns alone change the program counter, to a multiple of 4, and the lock flag, which they
/// clear.
#[tactic(auto, unfolding(crate::specs::Calls::finished))]
pub fn returns_go_back()
    ensures pc_kept { (op : PalOp) (s : State) (values : List ℕ) → op ≢ RTI → op ≢ RETSYS
        → pc_of (finished op s values) ≡ pc_of s }
    ensures lock_kept { (op : PalOp) (s : State) (values : List ℕ) → op ≢ RTI → op ≢ RETSYS
        → locked_of (finished op s values) ≡ locked_of s }
    ensures system_pc { (s : State) (values : List ℕ)
        → pc_of (finished RETSYS s values) ≡ slice_index values 0 / 4 * 4 }
    ensures system_lock { (s : State) (values : List ℕ)
        → locked_of (finished RETSYS s values) ≡ false }
    ensures entry_pc { (s : State) (values : List ℕ)
        → pc_of (finished RTI s values) ≡ slice_index values 1 / 4 * 4 }
    ensures entry_lock { (s : State) (values : List ℕ) → locked_of (finished RTI s values) ≡ false }
{}

/// What is written is read: sysvalue, the user's stack pointer and the unique value. The other
/// reads give the status and the processor's number.
#[tactic(auto, unfolding(crate::specs::Calls::finished))]
pub fn values_are_read_into_v0()
    ensures sysvalue { (s : State) (a b : List ℕ) → IsWhole s
        → register (finished RDVAL (finished WRVAL s a) b) V0 ≡ register s A0 }
    ensures user_stack { (s : State) (a b : List ℕ) → IsWhole s
        → register (finished RDUSP (finished WRUSP s a) b) V0 ≡ register s A0 }
    ensures unique { (s : State) (a b : List ℕ) → IsWhole s
        → register (finished RDUNIQUE (finished WRUNIQUE s a) b) V0 ≡ register s A0 }
    ensures status { (s : State) (values : List ℕ) → IsWhole s
        → register (finished RDPS s values) V0 ≡ ps_of s }
    ensures number { (s : State) (values : List ℕ) → IsWhole s
        → register (finished WHAMI s values) V0 ≡ number_of s }
    ensures level { (s : State) (values : List ℕ) → IsWhole s
        → register (finished SWPIPL s values) V0 ≡ interrupt_level (ps_of s) }
{}

/// A call changes no other register than v0, SP, GP and the arguments; GP and the arguments by a
/// return alone, and v0 only where it gives a value.
#[tactic(auto, unfolding(crate::specs::Calls::finished))]
pub fn calls_keep_registers()
    ensures others { (op : PalOp) (s : State) (values : List ℕ) (n : ℕ) → n ≢ V0 → n ≢ A0
        → n ≢ A1 → n ≢ A2 → n ≢ GP → n ≢ SP → register (finished op s values) n ≡ register s n }
    ensures arguments { (op : PalOp) (s : State) (values : List ℕ) (n : ℕ) → n ≢ V0 → n ≢ SP
        → op ≢ RTI → op ≢ RETSYS → register (finished op s values) n ≡ register s n }
    ensures value { (op : PalOp) (s : State) (values : List ℕ) → op ≢ SWPCTX → op ≢ RDVAL
        → op ≢ SWPIPL → op ≢ RDPS → op ≢ RDUSP → op ≢ WHAMI → op ≢ RDUNIQUE
        → register (finished op s values) V0 ≡ register s V0 }
{}

/// Each internal register has the calls that change it: a write takes a0, of which FEN is bit 0,
/// and swpctx what a context has. No call changes the processor's number or the count of fetched
/// instructions.
#[tactic(auto, unfolding(crate::specs::Calls::finished))]
pub fn internals_change_by_their_calls()
    ensures global { (s : State) (values : List ℕ)
        → kgp_of (finished WRKGP s values) ≡ register s A0 }
    ensures table_address { (s : State) (values : List ℕ)
        → vptptr_of (finished WRVPTPTR s values) ≡ register s A0 }
    ensures floating { (s : State) (values : List ℕ)
        → fen_of (finished WRFEN s values) ≡ has_bit (register s A0) 0 }
    ensures global_kept { (op : PalOp) (s : State) (values : List ℕ) → op ≢ WRKGP
        → kgp_of (finished op s values) ≡ kgp_of s }
    ensures table_address_kept { (op : PalOp) (s : State) (values : List ℕ) → op ≢ WRVPTPTR
        → vptptr_of (finished op s values) ≡ vptptr_of s }
    ensures floating_kept { (op : PalOp) (s : State) (values : List ℕ) → op ≢ WRFEN → op ≢ SWPCTX
        → fen_of (finished op s values) ≡ fen_of s }
    ensures unique_kept { (op : PalOp) (s : State) (values : List ℕ) → op ≢ WRUNIQUE → op ≢ SWPCTX
        → unique_of (finished op s values) ≡ unique_of s }
    ensures sysvalue_kept { (op : PalOp) (s : State) (values : List ℕ) → op ≢ WRVAL
        → sysvalue_of (finished op s values) ≡ sysvalue_of s }
    ensures context_kept { (op : PalOp) (s : State) (values : List ℕ) → op ≢ SWPCTX
        → (ptbr_of (finished op s values) ≡ ptbr_of s)
        × (pcbb_of (finished op s values) ≡ pcbb_of s)
        × (asn_of (finished op s values) ≡ asn_of s)
        × (offset_of (finished op s values) ≡ offset_of s) }
    ensures entries_kept { (op : PalOp) (s : State) (values : List ℕ) (n : ℕ) → op ≢ WRENT
        → entry_of (finished op s values) n ≡ entry_of s n }
    ensures fetched { (op : PalOp) (s : State) (values : List ℕ)
        → fetched_of (finished op s values) ≡ fetched_of s }
    ensures number { (op : PalOp) (s : State) (values : List ℕ)
        → number_of (finished op s values) ≡ number_of s }
    ensures whole { (op : PalOp) (s : State) (values : List ℕ) → IsWhole s
        → IsWhole (finished op s values) }
{}

/// wrent writes the address of the entry that a1 names, with its two low bits cleared; where there
/// is no such entry, it does nothing.
#[tactic(auto, unfolding(crate::specs::Calls::finished))]
pub fn entry_addresses_are_written()
    ensures written { (s : State) (values : List ℕ) → IsWhole s → register s A1 < 6
        → entry_of (finished WRENT s values) (register s A1) ≡ register s A0 / 4 * 4 }
    ensures others { (s : State) (values : List ℕ) (n : ℕ) → n ≢ register s A1
        → entry_of (finished WRENT s values) n ≡ entry_of s n }
    ensures nothing { (s : State) (values : List ℕ) → 6 ≤ register s A1
        → finished WRENT s values ≡ s }
{}

/// No call makes more accesses than there is room for, and those that are translated are reads of a
/// frame, by rti and retsys. A signal names a processor, and a byte of the console is one.
#[tactic(auto, unfolding(crate::specs::Calls::row_of))]
pub fn accesses_are_within_bounds()
    ensures few { (op : PalOp) (s : State) (cpus : ℕ) → length (asks_of op s cpus) ≤ MOST_ASKS }
    ensures direct { (op : PalOp) (s : State) (cpus : ℕ) → op ≢ RTI → op ≢ RETSYS
        → All (λ ask. ask.direct ≡ true) (asks_of op s cpus) }
    ensures signal { (op : PalOp) (s : State) (cpus : ℕ)
        → All (λ ask. ask.kind ≡ Signal → ask.value < cpus) (asks_of op s cpus) }
    ensures console { (op : PalOp) (s : State) (cpus : ℕ)
        → All (λ ask. ask.kind ≡ Console → ask.value < 2 ^ 8) (asks_of op s cpus) }
{}

/// swpctx saves SP, USP, the counter and the unique value to the block that PCBB names, and reads
/// the block that a0 names, at these places; all addresses are physical.
#[tactic(auto, unfolding(crate::specs::Calls::row_of))]
pub fn contexts_lie_in_their_blocks()
    ensures addresses { (s : State) (cpus : ℕ)
        → map (λ ask. ask.address) ((row_of SWPCTX s cpus).asks)
        ≡ add (pcbb_of s) 0 ∷ add (pcbb_of s) 8 ∷ add (pcbb_of s) 24 ∷ add (pcbb_of s) 32
        ∷ add (register s A0 / 128 * 128) 0 ∷ add (register s A0 / 128 * 128) 8
        ∷ add (register s A0 / 128 * 128) 16 ∷ add (register s A0 / 128 * 128) 24
        ∷ add (register s A0 / 128 * 128) 32 ∷ add (register s A0 / 128 * 128) 40 ∷ [] }
    ensures sizes { (s : State) (cpus : ℕ) → map (λ ask. ask.size) ((row_of SWPCTX s cpus).asks)
        ≡ 8 ∷ 8 ∷ 4 ∷ 8 ∷ 8 ∷ 8 ∷ 8 ∷ 8 ∷ 8 ∷ 8 ∷ [] }
    ensures saved { (s : State) (cpus : ℕ) → map (λ ask. ask.value) ((row_of SWPCTX s cpus).asks)
        ≡ register s SP ∷ usp_of s ∷ counter_of s ∷ unique_of s ∷ 0 ∷ 0 ∷ 0 ∷ 0 ∷ 0 ∷ 0 ∷ [] }
{}

/// What swpctx makes of the words of the new block: the counter goes on from the low half of the
/// quadword at 24, whose high half is the address space number. v0 has the old block, PCBB the new
/// one.
#[tactic(auto, unfolding(crate::specs::Calls::finished))]
pub fn contexts_go_on_from_their_blocks()
    ensures old { (s : State) (values : List ℕ) → IsWhole s
        → register (finished SWPCTX s values) V0 ≡ pcbb_of s }
    ensures new { (s : State) (values : List ℕ)
        → pcbb_of (finished SWPCTX s values) ≡ register s A0 / 128 * 128 }
    ensures stack { (s : State) (values : List ℕ) → IsWhole s
        → register (finished SWPCTX s values) SP ≡ slice_index values 4 }
    ensures user_stack { (s : State) (values : List ℕ)
        → usp_of (finished SWPCTX s values) ≡ slice_index values 5 }
    ensures table { (s : State) (values : List ℕ)
        → ptbr_of (finished SWPCTX s values) ≡ slice_index values 6 }
    ensures counter { (s : State) (values : List ℕ) → fetched_of s < 2 ^ 32
        → counter_of (finished SWPCTX s values) ≡ slice_index values 7 % 2 ^ 32 }
    ensures space { (s : State) (values : List ℕ)
        → asn_of (finished SWPCTX s values) ≡ slice_index values 7 / 2 ^ 32 }
    ensures unique { (s : State) (values : List ℕ)
        → unique_of (finished SWPCTX s values) ≡ slice_index values 8 }
    ensures floating { (s : State) (values : List ℕ)
        → fen_of (finished SWPCTX s values) ≡ has_bit (slice_index values 9) 0 }
{}

/// What tbi invalidates, by a0: all (-2), the entries of processes (-1), and the page of a1 in the
/// instruction buffer (1), in the data buffer (2) or in both (3). Nothing else is a request, and no
/// other call changes a buffer.
#[tactic(auto, unfolding(crate::specs::Calls::instruction_buffer, crate::specs::Calls::data_buffer))]
pub fn buffers_change_by_tbi()
    ensures all { (s : State) (entries : List TbEntry) → register s A0 ≡ 2 ^ 64 - 2
        → (instruction_buffer TBI s entries ≡ []) × (data_buffer TBI s entries ≡ []) }
    ensures processes { (s : State) (entries : List TbEntry) → register s A0 ≡ 2 ^ 64 - 1
        → (instruction_buffer TBI s entries ≡ without_process entries)
        × (data_buffer TBI s entries ≡ without_process entries) }
    ensures instruction_page { (s : State) (entries : List TbEntry) → register s A0 ≡ 1
        → (instruction_buffer TBI s entries
        ≡ without_page entries (page_of (register s A1)) (asn_of s))
        × (data_buffer TBI s entries ≡ entries) }
    ensures data_page { (s : State) (entries : List TbEntry) → register s A0 ≡ 2
        → (instruction_buffer TBI s entries ≡ entries)
        × (data_buffer TBI s entries ≡ without_page entries (page_of (register s A1)) (asn_of s)) }
    ensures both { (s : State) (entries : List TbEntry) → register s A0 ≡ 3
        → (instruction_buffer TBI s entries
        ≡ without_page entries (page_of (register s A1)) (asn_of s))
        × (data_buffer TBI s entries ≡ without_page entries (page_of (register s A1)) (asn_of s)) }
    ensures nothing { (s : State) (entries : List TbEntry) → register s A0 < 2 ^ 64 - 2
        → register s A0 ≢ 1 → register s A0 ≢ 2 → register s A0 ≢ 3
        → (instruction_buffer TBI s entries ≡ entries) × (data_buffer TBI s entries ≡ entries) }
    ensures others { (op : PalOp) (s : State) (entries : List TbEntry) → op ≢ TBI
        → (instruction_buffer op s entries ≡ entries) × (data_buffer op s entries ≡ entries) }
{}

/// A call of the operating system from user mode and retsys at once give back the state before: but
/// for the interrupt level, which is 0 then, the lock flag, which is cleared, and USP, which has no
/// meaning in user mode and holds SP then. retsys reads the program counter and the global pointer
/// from where they were saved, and touches neither v0 nor an argument.
#[tactic(auto, unfolding(crate::specs::Calls::finished), using(crate::proofs::RoundTrip::call_returns, crate::proofs::RoundTrip::call_frame_is_read))]
pub fn system_calls_return()
    ensures back { (s : State) → IsWhole s → mode_of (ps_of s) ≡ User → pc_of s % 4 ≡ 0
        → ksp_of s < 2 ^ 64
        → finished RETSYS (entered Sys s) (drop 1 (map (λ ask. ask.value) (frame_of Sys s)))
        ≡ with_locked (with_ps (with_usp s (register s SP)) 8) false }
    ensures reads { (s : State) (cpus : ℕ) → IsWhole s
        → map (λ ask. ask.address) (asks_of RETSYS (entered Sys s) cpus)
        ≡ drop 1 (map (λ ask. ask.address) (frame_of Sys s)) }
    ensures registers { (s : State) (values : List ℕ) (n : ℕ) → n ≢ GP → n ≢ SP
        → register (finished RETSYS s values) n ≡ register s n }
{}

/// Any other entry and rti at once give back the state before: from kernel mode but for the lock
/// flag, which is cleared, and bits of the status above the mode; from user mode but for the
/// interrupt level, which is 0 then, the lock flag, and USP, which holds SP then. rti reads each
/// word from where it was saved.
#[tactic(auto, unfolding(crate::specs::Calls::finished), using(crate::proofs::RoundTrip::entry_returns_to_kernel, crate::proofs::RoundTrip::entry_returns_to_user, crate::proofs::RoundTrip::frame_is_read))]
pub fn entries_return()
    ensures to_kernel { (cause : Cause) (s : State) → cause ≢ Sys → IsWhole s
        → mode_of (ps_of s) ≡ Kernel → pc_of s % 4 ≡ 0 → register s SP < 2 ^ 64
        → finished RTI (entered cause s) (map (λ ask. ask.value) (frame_of cause s))
        ≡ with_locked (with_ps s (ps_of s % 16)) false }
    ensures to_user { (cause : Cause) (s : State) → cause ≢ Sys → IsWhole s
        → mode_of (ps_of s) ≡ User → pc_of s % 4 ≡ 0 → ksp_of s < 2 ^ 64
        → finished RTI (entered cause s) (map (λ ask. ask.value) (frame_of cause s))
        ≡ with_locked (with_ps (with_usp s (register s SP)) 8) false }
    ensures reads { (cause : Cause) (s : State) (cpus : ℕ) → cause ≢ Sys → IsWhole s
        → map (λ ask. ask.address) (asks_of RTI (entered cause s) cpus)
        ≡ map (λ ask. ask.address) (frame_of cause s) }
{}
