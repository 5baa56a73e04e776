//! Laws of the lines of a source, each proved as the contract of a function that does nothing.
ghost use Rattle.std.specs.Prelude.{ℕ, List, ◌≡◌, ◌≢◌, ◌↔◌, ◌<◌, Some, None, codes};
ghost use Rattle.std.specs.List.{All};
ghost use Rattle.axp_trace.specs.declared.files.TheConstants.{LINE_FEED};
ghost use Rattle.axp_decode.specs.declared.instructions.Instr.TheVariants as instr;
ghost use Rattle.axp_decode.specs.declared.instructions.Operand.TheVariants.{Literal, Reg};
ghost use Rattle.axp_decode.specs.declared.names.BranchOp.{BranchOp};
ghost use Rattle.axp_decode.specs.declared.names.BranchOp.TheVariants.{BEQ, BNE};
ghost use Rattle.axp_decode.specs.declared.names.MemOp.{MemOp};
ghost use Rattle.axp_decode.specs.declared.names.MemOp.TheVariants.{LDQ_L, STQ};
ghost use Rattle.axp_decode.specs.declared.names.MiscOp.{MiscOp};
ghost use Rattle.axp_decode.specs.declared.names.Op.{Op};
ghost use Rattle.axp_decode.specs.declared.names.Op.TheVariants.{ADDLV, ADDQ};
ghost use Rattle.axp_decode.specs.declared.names.PalOp.{PalOp};
ghost use Rattle.axp_source.specs.Items.{Item, Fits, Directs, Label, Instruction, BranchTo};
ghost use Rattle.axp_source.specs.Names.{memory_name, memory_named, branch_name, branch_named};
ghost use Rattle.axp_source.specs.Names.{operate_name, operate_named, misc_name, misc_named};
ghost use Rattle.axp_source.specs.Names.{pal_name, pal_named, jump_name, jump_named};
ghost use Rattle.axp_source.specs.Reading.{item_of};
ghost use Rattle.axp_source.specs.Texts.{item_text};
ghost use Rattle.axp_source.specs.declared.statements.Directive.TheVariants as directive;

/// A line is read as a statement exactly where it is the statement's text, and the statement's
/// fields fit in their places; so what is written is read back.
pub fn statements_are_their_lines()
    ensures exactly { (line : List ℕ) (s : Item)
        → (item_of line ≡ Some s) ↔ ((line ≡ item_text s) × Fits s) }
    ensures back { (s : Item) → Fits s → item_of (item_text s) ≡ Some s }
{}

/// No line of a statement has a line feed in it.
pub fn lines_of_statements_are_whole()
    ensures { (s : Item) → Fits s → All (λ b. b ≢ LINE_FEED) (item_text s) }
{}

/// Each name is found in its table, so no two instructions of a table have one name.
pub fn names_are_told_apart()
    ensures memory { (op : MemOp) → memory_named (memory_name op) ≡ Some op }
    ensures branch { (op : BranchOp) → branch_named (branch_name op) ≡ Some op }
    ensures operate { (op : Op) → operate_named (operate_name op) ≡ Some op }
    ensures misc { (op : MiscOp) → misc_named (misc_name op) ≡ Some op }
    ensures pal { (op : PalOp) → pal_named (pal_name op) ≡ Some op }
    ensures jump { (kind : ℕ) → kind < 4 → jump_named (jump_name kind) ≡ Some kind }
{}

/// Lines worked out by hand.
pub fn lines_are_worked_out()
    ensures entry { item_of (codes ".entry FFFFFC0000002000")
        ≡ Some (Directs (directive.Entry 18446739675663048704)) }
    ensures label { item_of (codes "again:") ≡ Some (Label (codes "again")) }
    ensures memory { item_of (codes "LDQ_L R1,0(R30)")
        ≡ Some (Instruction (instr.Memory LDQ_L 1 30 0)) }
    ensures negative { item_of (codes "STQ R2,-8(R30)")
        ≡ Some (Instruction (instr.Memory STQ 2 30 65528)) }
    ensures branch { item_of (codes "BEQ R1,-5") ≡ Some (Instruction (instr.Branch BEQ 1 2097147)) }
    ensures branch_to { item_of (codes "BNE R1,again") ≡ Some (BranchTo BNE 1 (codes "again")) }
    ensures jump { item_of (codes "RET R31,(R26),1") ≡ Some (Instruction (instr.Jump 2 31 26 1)) }
    ensures literal { item_of (codes "ADDQ R1,#1,R1")
        ≡ Some (Instruction (instr.Operate ADDQ 1 (Literal 1) 1)) }
    ensures operate { item_of (codes "ADDL/V R1,R2,R3")
        ≡ Some (Instruction (instr.Operate ADDLV 1 (Reg 2 0) 3)) }
    ensures leading_zero { item_of (codes "ADDQ R01,R2,R3") ≡ None }
    ensures minus_zero { item_of (codes "STQ R2,-0(R30)") ≡ None }
    ensures two_blanks { item_of (codes "BEQ  R1,-5") ≡ None }
{}
