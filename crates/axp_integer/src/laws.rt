//! Laws of the rows, each proved as the contract of a function that does nothing.
ghost use Rattle.std.specs.Prelude.{ℕ, FitsSigned, ◌≡◌, ◌↔◌, ◌<◌, ◌+◌, ◌-◌, ◌*◌, ◌%◌, ◌^◌, ◌+ℤ◌};
ghost use Rattle.std.specs.Prelude.{◌-ℤ◌, ◌*ℤ◌, true, false, not, ◌&&◌, ◌||◌, nat_le, int_lt, pos};
ghost use Rattle.std.specs.Prelude.{if◌then◌else◌};
ghost use Rattle.std.specs.Int.{w32, w64};
ghost use Rattle.axp_base.specs.Masks.{has_bit};
ghost use Rattle.axp_base.specs.Numbers.{complement, signed};
ghost use Rattle.axp_base.specs.Parts.{byte};
ghost use Rattle.axp_decode.specs.declared.names.Op.TheVariants.{ADDL, SUBL, S4ADDL, S8ADDL};
ghost use Rattle.axp_decode.specs.declared.names.Op.TheVariants.{S4SUBL, S8SUBL, ADDQ, SUBQ};
ghost use Rattle.axp_decode.specs.declared.names.Op.TheVariants.{S4ADDQ, S8ADDQ, S4SUBQ, S8SUBQ};
ghost use Rattle.axp_decode.specs.declared.names.Op.TheVariants.{ADDLV, SUBLV, ADDQV, SUBQV};
ghost use Rattle.axp_decode.specs.declared.names.Op.TheVariants.{CMPBGE, AND, BIC, BIS, ORNOT, XOR};
ghost use Rattle.axp_decode.specs.declared.names.Op.TheVariants.{EQV, CMOVLBS, CMOVLBC, CMOVEQ};
ghost use Rattle.axp_decode.specs.declared.names.Op.TheVariants.{CMOVNE, CMOVLT, CMOVGE, CMOVLE};
ghost use Rattle.axp_decode.specs.declared.names.Op.TheVariants.{CMOVGT, AMASK, MULL, MULQ, UMULH};
ghost use Rattle.axp_decode.specs.declared.names.Op.TheVariants.{MULLV, MULQV};
ghost use Rattle.axp_integer.specs.Longwords.{IsSignExtended};
ghost use Rattle.axp_integer.specs.Moves.{AreOpposite};
ghost use Rattle.axp_integer.specs.Results.{signed_longword};
ghost use Rattle.axp_integer.specs.Rows.{value_of, overflow_of};

/// UMULH and MULQ give the high and the low half of the whole product of two quadwords.
pub fn whole_product()
    ensures { (a b old : ℕ) → value_of UMULH a b old * 2 ^ 64 + value_of MULQ a b old ≡ a * b }
{}

/// SUBQ takes back ADDQ, also where the sum passes 2 ^ 64.
pub fn difference_takes_back_sum()
    ensures { (a b old : ℕ) → a < 2 ^ 64 → b < 2 ^ 64
        → value_of SUBQ (value_of ADDQ a b old) b old ≡ a }
{}

/// The low longword of what a longword instruction writes is that of the exact sum or product. Of a
/// difference: with the subtrahend added, the low longword is that of the minuend.
pub fn low_longwords()
    ensures addl { (a b old : ℕ) → value_of ADDL a b old % 2 ^ 32 ≡ (a + b) % 2 ^ 32 }
    ensures s4addl { (a b old : ℕ) → value_of S4ADDL a b old % 2 ^ 32 ≡ (4 * a + b) % 2 ^ 32 }
    ensures s8addl { (a b old : ℕ) → value_of S8ADDL a b old % 2 ^ 32 ≡ (8 * a + b) % 2 ^ 32 }
    ensures subl { (a b old : ℕ) → b < 2 ^ 64 → (value_of SUBL a b old + b) % 2 ^ 32 ≡ a % 2 ^ 32 }
    ensures s4subl { (a b old : ℕ) → b < 2 ^ 64
        → (value_of S4SUBL a b old + b) % 2 ^ 32 ≡ 4 * a % 2 ^ 32 }
    ensures s8subl { (a b old : ℕ) → b < 2 ^ 64
        → (value_of S8SUBL a b old + b) % 2 ^ 32 ≡ 8 * a % 2 ^ 32 }
    ensures mull { (a b old : ℕ) → value_of MULL a b old % 2 ^ 32 ≡ a * b % 2 ^ 32 }
{}

/// Every longword instruction writes a sign-extended longword.
pub fn longwords_are_sign_extended()
    ensures addl { IsSignExtended ADDL }
    ensures subl { IsSignExtended SUBL }
    ensures s4addl { IsSignExtended S4ADDL }
    ensures s8addl { IsSignExtended S8ADDL }
    ensures s4subl { IsSignExtended S4SUBL }
    ensures s8subl { IsSignExtended S8SUBL }
    ensures addlv { IsSignExtended ADDLV }
    ensures sublv { IsSignExtended SUBLV }
    ensures mull { IsSignExtended MULL }
    ensures mullv { IsSignExtended MULLV }
{}

/// The scaled sums and differences of quadwords, modulo 2 ^ 64.
pub fn scaled_quadwords()
    ensures s4addq { (a b old : ℕ) → value_of S4ADDQ a b old ≡ (4 * a + b) % 2 ^ 64 }
    ensures s8addq { (a b old : ℕ) → value_of S8ADDQ a b old ≡ (8 * a + b) % 2 ^ 64 }
    ensures s4subq { (a b old : ℕ) → b < 2 ^ 64
        → (value_of S4SUBQ a b old + b) % 2 ^ 64 ≡ 4 * a % 2 ^ 64 }
    ensures s8subq { (a b old : ℕ) → b < 2 ^ 64
        → (value_of S8SUBQ a b old + b) % 2 ^ 64 ≡ 8 * a % 2 ^ 64 }
{}

/// A /V instruction overflows exactly where the exact result does not fit: that of the low
/// longwords in 32 bits, that of quadwords in 64.
pub fn overflow_is_no_fit()
    ensures addl { (a b : ℕ) → (overflow_of ADDLV a b ≡ true)
        ↔ (FitsSigned w32 (signed_longword a +ℤ signed_longword b) → ⊥) }
    ensures subl { (a b : ℕ) → (overflow_of SUBLV a b ≡ true)
        ↔ (FitsSigned w32 (signed_longword a -ℤ signed_longword b) → ⊥) }
    ensures mull { (a b : ℕ) → (overflow_of MULLV a b ≡ true)
        ↔ (FitsSigned w32 (signed_longword a *ℤ signed_longword b) → ⊥) }
    ensures addq { (a b : ℕ)
        → (overflow_of ADDQV a b ≡ true) ↔ (FitsSigned w64 (signed a +ℤ signed b) → ⊥) }
    ensures subq { (a b : ℕ)
        → (overflow_of SUBQV a b ≡ true) ↔ (FitsSigned w64 (signed a -ℤ signed b) → ⊥) }
    ensures mulq { (a b : ℕ)
        → (overflow_of MULQV a b ≡ true) ↔ (FitsSigned w64 (signed a *ℤ signed b) → ⊥) }
{}

/// A /V instruction writes what the instruction without /V writes, also where it overflows.
#[tactic(auto, unfolding(crate::specs::Rows::value_of))]
pub fn overflow_keeps_the_value()
    ensures addl { (a b old : ℕ) → value_of ADDLV a b old ≡ value_of ADDL a b old }
    ensures subl { (a b old : ℕ) → value_of SUBLV a b old ≡ value_of SUBL a b old }
    ensures mull { (a b old : ℕ) → value_of MULLV a b old ≡ value_of MULL a b old }
    ensures addq { (a b old : ℕ) → value_of ADDQV a b old ≡ value_of ADDQ a b old }
    ensures subq { (a b old : ℕ) → value_of SUBQV a b old ≡ value_of SUBQ a b old }
    ensures mulq { (a b old : ℕ) → value_of MULQV a b old ≡ value_of MULQ a b old }
{}

/// Where a /V instruction does not overflow, the integer that it writes is the exact result.
pub fn exact_without_overflow()
    ensures addl { (a b old : ℕ) → overflow_of ADDLV a b ≡ false
        → signed (value_of ADDLV a b old) ≡ signed_longword a +ℤ signed_longword b }
    ensures subl { (a b old : ℕ) → b < 2 ^ 64 → overflow_of SUBLV a b ≡ false
        → signed (value_of SUBLV a b old) ≡ signed_longword a -ℤ signed_longword b }
    ensures mull { (a b old : ℕ) → overflow_of MULLV a b ≡ false
        → signed (value_of MULLV a b old) ≡ signed_longword a *ℤ signed_longword b }
    ensures addq { (a b old : ℕ) → a < 2 ^ 64 → b < 2 ^ 64 → overflow_of ADDQV a b ≡ false
        → signed (value_of ADDQV a b old) ≡ signed a +ℤ signed b }
    ensures subq { (a b old : ℕ) → a < 2 ^ 64 → b < 2 ^ 64 → overflow_of SUBQV a b ≡ false
        → signed (value_of SUBQV a b old) ≡ signed a -ℤ signed b }
    ensures mulq { (a b old : ℕ) → a < 2 ^ 64 → b < 2 ^ 64 → overflow_of MULQV a b ≡ false
        → signed (value_of MULQV a b old) ≡ signed a *ℤ signed b }
{}

/// Bit `n` of what CMPBGE writes is 1 exactly where byte `n` of Ra is at least that of Rb, and the
/// other bits are 0.
pub fn bytes_compared()
    ensures each { (a b old n : ℕ) → n < 8
        → has_bit (value_of CMPBGE a b old) n ≡ nat_le (byte b n) (byte a n) }
    ensures others { (a b old : ℕ) → value_of CMPBGE a b old < 2 ^ 8 }
{}

/// What the logical instructions do with each bit.
pub fn logic_by_bits()
    ensures and { (a b old n : ℕ)
        → has_bit (value_of AND a b old) n ≡ (has_bit a n && has_bit b n) }
    ensures bis { (a b old n : ℕ)
        → has_bit (value_of BIS a b old) n ≡ (has_bit a n || has_bit b n) }
    ensures xor { (a b old n : ℕ) → has_bit (value_of XOR a b old) n
        ≡ (if has_bit a n then not (has_bit b n) else has_bit b n) }
    ensures bic { (a b old n : ℕ) → b < 2 ^ 64 → n < 64
        → has_bit (value_of BIC a b old) n ≡ (has_bit a n && not (has_bit b n)) }
    ensures ornot { (a b old n : ℕ) → b < 2 ^ 64 → n < 64
        → has_bit (value_of ORNOT a b old) n ≡ (has_bit a n || not (has_bit b n)) }
    ensures eqv { (a b old n : ℕ) → b < 2 ^ 64 → n < 64 → has_bit (value_of EQV a b old) n
        ≡ (if has_bit a n then has_bit b n else not (has_bit b n)) }
{}

/// EQV is the complement of XOR, and BIC that of ORNOT with the operands the other way round.
pub fn logic_by_complements()
    ensures eqv { (a b old : ℕ) → a < 2 ^ 64 → b < 2 ^ 64
        → value_of EQV a b old ≡ complement (value_of XOR a b old) }
    ensures bic { (a b old : ℕ) → a < 2 ^ 64 → b < 2 ^ 64
        → value_of BIC a b old ≡ complement (value_of ORNOT b a old) }
{}

/// Of two conditional moves with opposite conditions one writes Rb to Rc, and the other leaves Rc.
pub fn opposite_moves()
    ensures low_bit { AreOpposite CMOVLBS CMOVLBC }
    ensures equal { AreOpposite CMOVEQ CMOVNE }
    ensures less { AreOpposite CMOVLT CMOVGE }
    ensures less_or_equal { AreOpposite CMOVLE CMOVGT }
{}

/// The conditional moves that test the sign compare the integer that Ra is with 0.
pub fn moves_by_sign()
    ensures less { (a b old : ℕ) → a < 2 ^ 64
        → value_of CMOVLT a b old ≡ (if int_lt (signed a) (pos 0) then b else old) }
    ensures greater_or_equal { (a b old : ℕ) → a < 2 ^ 64
        → value_of CMOVGE a b old ≡ (if int_lt (signed a) (pos 0) then old else b) }
    ensures less_or_equal { (a b old : ℕ) → a < 2 ^ 64
        → value_of CMOVLE a b old ≡ (if int_lt (pos 0) (signed a) then old else b) }
    ensures greater { (a b old : ℕ) → a < 2 ^ 64
        → value_of CMOVGT a b old ≡ (if int_lt (pos 0) (signed a) then b else old) }
{}

/// AMASK clears bit 0, that of the byte and word extension, and no other.
pub fn amask_clears_the_lowest_bit()
    ensures lowest { (a b old : ℕ) → has_bit (value_of AMASK a b old) 0 ≡ false }
    ensures others { (a b old n : ℕ) → 0 < n → has_bit (value_of AMASK a b old) n ≡ has_bit b n }
{}
