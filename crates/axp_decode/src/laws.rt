//! Laws of the tables and formats, each proved as the contract of a function that does nothing.
//! `decode` returns `instr_of` of its word, and `encode` returns `word_of` of its instruction, so
//! the laws are theirs.
ghost use Rattle.std.specs.Prelude.{ℕ, ◌≡◌, ◌↔◌, ◌<◌, ◌^◌, Some, true};
ghost use Rattle.axp_decode.specs.Table.{memory_number, memory_of, branch_number, branch_of};
ghost use Rattle.axp_decode.specs.Table.{misc_number, misc_of, pal_number, pal_of, operate_opcode};
ghost use Rattle.axp_decode.specs.Table.{operate_function, operate_of};
ghost use Rattle.axp_decode.specs.Format.{instr_of, word_of, opcode_of, is_floating, FieldsFit};
ghost use Rattle.axp_decode.specs.Words.{StandsFor, IsInNoTable};
ghost use Rattle.axp_decode.specs.declared.instructions.Instr.{Instr};
ghost use Rattle.axp_decode.specs.declared.instructions.Instr.TheVariants.{Floating, Reserved};
ghost use Rattle.axp_decode.specs.declared.names.MemOp.{MemOp};
ghost use Rattle.axp_decode.specs.declared.names.BranchOp.{BranchOp};
ghost use Rattle.axp_decode.specs.declared.names.MiscOp.{MiscOp};
ghost use Rattle.axp_decode.specs.declared.names.PalOp.{PalOp};
ghost use Rattle.axp_decode.specs.declared.names.Op.{Op};

/// Encoding takes back decoding, and decoding takes back encoding of each instruction that a word
/// stands for.
pub fn words_and_instructions()
    ensures word { (w : ℕ) → w < 2 ^ 32 → word_of (instr_of w) ≡ w }
    ensures instruction { (w : ℕ) → w < 2 ^ 32 → instr_of (word_of (instr_of w)) ≡ instr_of w }
{}

/// Each instruction of the memory format is found by its opcode.
#[tactic(auto, unfolding(crate::specs::Table::memory_of))]
pub fn memory_rows()
    ensures { (op : MemOp) → memory_of (memory_number op) ≡ Some op }
{}

/// Each instruction of the branch format is found by its opcode.
#[tactic(auto, unfolding(crate::specs::Table::branch_of))]
pub fn branch_rows()
    ensures { (op : BranchOp) → branch_of (branch_number op) ≡ Some op }
{}

/// Each miscellaneous instruction is found by its function code.
#[tactic(auto, unfolding(crate::specs::Table::misc_of))]
pub fn misc_rows()
    ensures { (op : MiscOp) → misc_of (misc_number op) ≡ Some op }
{}

/// Each call of PALcode is found by its function.
#[tactic(auto, unfolding(crate::specs::Table::pal_of))]
pub fn pal_rows()
    ensures { (op : PalOp) → pal_of (pal_number op) ≡ Some op }
{}

/// Each instruction of the operate format is found by its opcode and function.
#[tactic(auto, unfolding(crate::specs::Table::operate_of))]
pub fn operate_rows()
    ensures { (op : Op) → operate_of (operate_opcode op) (operate_function op) ≡ Some op }
{}

/// Decoding takes back encoding where the fields of the instruction fit in their places.
pub fn fields_are_kept()
    ensures { (i : Instr) → FieldsFit i → instr_of (word_of i) ≡ i }
{}

/// The instruction of a word is the one that the word stands for by the numbers of the tables,
/// whatever the order in which they are searched.
pub fn words_stand_for_instructions()
    ensures { (w : ℕ) (i : Instr) → (instr_of w ≡ i) ↔ StandsFor w i }
{}

/// Exactly the words with an opcode of floating point are Floating, and each is kept whole.
pub fn floating_words()
    ensures exactly { (w : ℕ) → (instr_of w ≡ Floating w) ↔ (is_floating (opcode_of w) ≡ true) }
    ensures whole { (w word : ℕ) → instr_of w ≡ Floating word → word ≡ w }
{}

/// Exactly the words that stand in no table are Reserved, and each is kept whole.
pub fn reserved_words()
    ensures exactly { (w : ℕ) → (instr_of w ≡ Reserved w) ↔ IsInNoTable w }
    ensures whole { (w word : ℕ) → instr_of w ≡ Reserved word → word ≡ w }
{}
