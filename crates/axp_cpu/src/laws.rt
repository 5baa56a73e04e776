//! Laws of the instruction table, each proved as the contract of a function that does nothing.
ghost use Rattle.std.specs.Prelude.{ℕ, ◌+◌, ◌*◌, ◌==◌, true, false, not, ◌≡◌, ◌≢◌, [], ◌∷◌, List};
ghost use Rattle.std.specs.Prelude.{length, Option, Some, None, Ok, IfNone, IfSome};
ghost use Rattle.std.specs.Prelude.{if◌then◌else◌};
ghost use Rattle.axp_access.specs.declared.Access.{Access};
ghost use Rattle.axp_access.specs.declared.Record.{Record};
ghost use Rattle.axp_access.specs.declared.Wanted.{Wanted};
ghost use Rattle.axp_cpu.specs.declared.cpu_states.CpuState.{CpuState};
ghost use Rattle.axp_cpu.specs.Following.{seat_in};
ghost use Rattle.axp_cpu.specs.Halting.{Leaves};
ghost use Rattle.axp_cpu.specs.Plans.{Plan, End, along, table_in};
ghost use Rattle.axp_cpu.specs.Rows.{arrived, group};
ghost use Rattle.axp_cpu.specs.Seats.{Seat, table_now, wanted_by};
ghost use Rattle.axp_cpu.specs.Showing.{IsAccessOf, lock_flag, register_value, seat_shown};
ghost use Rattle.axp_cpu.specs.Showing.{state_shown};
ghost use Rattle.axp_cpu.specs.CpuStates.{next_pc};
ghost use Rattle.axp_trap.specs.Status.{mode_of};
ghost use Rattle.axp_cpu.specs.declared.translation.Origin.TheVariants.{Instruction};
ghost use Rattle.axp_cpu.specs.Stands.{HasSameRegisters};
ghost use Rattle.axp_cpu.specs.Translation.{buffer_for, entry_address, entry_wanted, frame_of};
ghost use Rattle.axp_cpu.specs.Translation.{mapped_plan, mode_in, reach_plan, walk_plan, wanted_at};
ghost use Rattle.axp_cpu.specs.Translation.{way_of, with_kept};
ghost use Rattle.axp_cpu.specs.Translation.{with_page_kept};
ghost use Rattle.axp_cpu.specs.declared.translation.MappedAsk.{MappedAsk};
ghost use Rattle.axp_decode.specs.declared.names.MemOp.{MemOp};
ghost use Rattle.axp_image.specs.Contents.{Contents};
ghost use Rattle.axp_base.specs.Masks.{has_bit};
ghost use Rattle.axp_image.specs.declared.limits.TheConstants.{PAGE_BYTES};
ghost use Rattle.axp_pte.specs.Addresses.{is_kseg};
ghost use Rattle.axp_pte.specs.Entries.{is_valid, pfn_of};
ghost use Rattle.axp_pte.specs.Protection.{allows, fault_bit};
ghost use Rattle.axp_pte.specs.declared.entries.Pte.{Pte};
ghost use Rattle.axp_pte.specs.declared.faults.Mode.TheVariants.{User};
ghost use Rattle.axp_pte.specs.declared.faults.Way.{Way};
ghost use Rattle.axp_pte.specs.declared.faults.Way.TheVariants as way;
ghost use Rattle.axp_regs.specs.declared.asks.Ask.{Ask};
ghost use Rattle.axp_regs.specs.declared.asks.Kind.TheVariants as kind;
ghost use Rattle.axp_tb.specs.declared.buffers.TheConstants.{TB_ENTRIES};
ghost use Rattle.axp_regs.specs.States.{locked_of, pc_of, ps_of, ptbr_of, register};
ghost use Rattle.axp_regs.specs.declared.states.TheConstants.{REGISTERS, ZERO_REGISTER};

/// What a walk reads: the entry of the address's index in the table that the page-table base names,
/// then that of its next index in the table that this entry leads to, and so on; then the access is
/// made in the page that the third entry names, at the address's offset. Whatever is wanted is
/// this.
pub fn walks_go_by_three_entries()
    ensures first { (size : ℕ) (t : CpuState) (far : MappedAsk) (k : CpuState → ℕ → Plan)
        → IfSome (wanted_by (walk_plan size t far k))
        (λ w. w ≡ entry_wanted (entry_address (ptbr_of t.state) far.parts.l1)) }
    ensures second { (size : ℕ) (t : CpuState) (far : MappedAsk) (k : CpuState → ℕ → Plan)
        (one : ℕ) → IfSome (wanted_by (along (one ∷ []) (walk_plan size t far k)))
        (λ w. w ≡ entry_wanted (entry_address (pfn_of one) far.parts.l2)) }
    ensures third { (size : ℕ) (t : CpuState) (far : MappedAsk) (k : CpuState → ℕ → Plan)
        (one two : ℕ) → IfSome (wanted_by (along (one ∷ two ∷ []) (walk_plan size t far k)))
        (λ w. w ≡ entry_wanted (entry_address (pfn_of two) far.parts.l3)) }
    ensures page { (size : ℕ) (t : CpuState) (far : MappedAsk) (k : CpuState → ℕ → Plan)
        (one two three : ℕ)
        → IfSome (wanted_by (along (one ∷ two ∷ three ∷ []) (walk_plan size t far k)))
        (λ w. w ≡ wanted_at far.ask (pfn_of three * PAGE_BYTES + far.parts.offset)) }
{}

/// A translation that a walk found is kept, and leads where the walk led: the same access to the
/// same address wants the same physical address and makes no walk, whatever follows. A full buffer
/// is emptied before the entry is put, so that it then keeps this one alone.
pub fn kept_translations_lead_where_walks_led()
    ensures keeps { (size : ℕ) (t : CpuState) (far : MappedAsk) (k : CpuState → ℕ → Plan)
        (one two three : ℕ) (w : Wanted)
        → wanted_by (along (one ∷ two ∷ three ∷ []) (walk_plan size t far k)) ≡ Some w
        → table_in t (along (one ∷ two ∷ three ∷ []) (walk_plan size t far k))
        ≡ with_page_kept far three t }
    ensures leads { (size : ℕ) (t : CpuState) (far : MappedAsk) (k l : CpuState → ℕ → Plan)
        (one two three : ℕ) (w : Wanted)
        → wanted_by (along (one ∷ two ∷ three ∷ []) (walk_plan size t far k)) ≡ Some w
        → wanted_by (mapped_plan size (with_page_kept far three t) far l) ≡ Some w }
    ensures length { (way : Way) (page : ℕ) (pte : Pte) (t : CpuState)
        → length (buffer_for way (with_kept way page pte t))
        ≡ (if length (buffer_for way t) == TB_ENTRIES then 0 else length (buffer_for way t)) + 1 }
{}

/// What allows an access: its page's entry has the right of the mode to what the access does, is
/// valid, and does not ask for a fault at such an access. A load-locked does what a load does, a
/// store-conditional what a store does. User mode reaches no address of the kernel segment.
pub fn accesses_need_their_right()
    ensures right { (t : CpuState) (far : MappedAsk) (word frame : ℕ) → frame_of t far word ≡ Ok frame
        → (allows word (mode_in far.origin t) (way_of far.ask.kind) ≡ true) × (is_valid word ≡ true)
        × (has_bit word (fault_bit (way_of far.ask.kind)) ≡ false) × (frame ≡ pfn_of word) }
    ensures ways { (way_of kind.Fetch ≡ way.Fetch) × (way_of kind.Read ≡ way.Load)
        × (way_of kind.Locked ≡ way.Load) × (way_of kind.Write ≡ way.Store)
        × (way_of kind.Conditional ≡ way.Store) }
    ensures kernel_segment { (size : ℕ) (t : CpuState) (ask : Ask) (k : CpuState → ℕ → Plan)
        → mode_of (ps_of t.state) ≡ User → is_kseg ask.address ≡ true
        → wanted_by (reach_plan size t Instruction ask k) ≡ None }
{}

/// Until its end a group changes no register and no halt code: the count of fetched instructions
/// rises with the fetch, and translations are kept as they are found.
pub fn groups_change_registers_at_their_end()
    ensures { (s : Seat) → HasSameRegisters s.start (table_now s) }
{}

/// A group that halts the processor leaves the state as it was at the group's start, but for the
/// count of fetched instructions: of its registers, its other parts and its program counter none
/// has changed, and only halt leaves the program counter behind itself. So it is where the frame
/// of an entry cannot be written, at its first word or at a later one, and where an access of a
/// call or an instruction comes beyond memory. The codes are 1 to 4.
pub fn halts_leave_the_state()
    ensures groups { (s : Seat) (values : List ℕ) (t : CpuState) → s.start.halted ≡ None
        → along values (group s.size s.cpus s.start) ≡ End t → Leaves s.start.state t }
    ensures entries { (size : ℕ) (t : CpuState) → t.halted ≡ None
        → Leaves t.state (arrived size t) }
{}

/// The instruction gets what its access shows. After the Step of a load's access, Ra (but for R31)
/// has the value that is shown, a longword sign-extended; after that of a store-conditional, 1
/// where it succeeded and else 0; no other register changes, and none by a store. A load-locked
/// sets the lock flag, a store-conditional clears it. The instruction ends there, and the next one
/// follows. After every history each processor has all its registers.
pub fn registers_get_what_is_shown()
    ensures register { (s : Seat) (op : MemOp) (a : ℕ) (x : Access) → IsAccessOf s op a x
        → a ≢ ZERO_REGISTER
        → IfSome (register_value op x) (λ v. register (state_shown s x) a ≡ v) }
    ensures others { (s : Seat) (op : MemOp) (a : ℕ) (x : Access) → IsAccessOf s op a x
        → (n : ℕ) → n ≢ a → register (state_shown s x) n ≡ register s.start.state n }
    ensures stores { (s : Seat) (op : MemOp) (a : ℕ) (x : Access) → IsAccessOf s op a x
        → IfNone (register_value op x)
        ((n : ℕ) → register (state_shown s x) n ≡ register s.start.state n) }
    ensures flag { (s : Seat) (op : MemOp) (a : ℕ) (x : Access) → IsAccessOf s op a x
        → locked_of (state_shown s x) ≡ lock_flag op (locked_of s.start.state) }
    ensures ends { (s : Seat) (op : MemOp) (a : ℕ) (x : Access) → IsAccessOf s op a x
        → (seat_shown s x).values ≡ [] }
    ensures next { (s : Seat) (op : MemOp) (a : ℕ) (x : Access) → IsAccessOf s op a x
        → pc_of (state_shown s x) ≡ next_pc s.start }
    ensures whole { (image : Contents) (cpus budget p : ℕ) (h : List Record)
        → length (seat_in image cpus budget p h).start.state.registers ≡ REGISTERS }
{}
