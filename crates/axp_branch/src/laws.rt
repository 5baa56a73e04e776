//! Laws of branches, each proved as the contract of a function that does nothing.
ghost use Rattle.std.specs.Prelude.{ℕ, pos, int_lt, not, ◌≡◌, ◌+◌, ◌-◌, ◌*◌, ◌%◌, ◌^◌, ◌<◌, ◌≤◌};
ghost use Rattle.std.specs.Prelude.{◌==◌};
ghost use Rattle.axp_base.specs.Numbers.{add, sub, signed};
ghost use Rattle.axp_branch.specs.Branches.{is_taken, target_of};
ghost use Rattle.axp_decode.specs.declared.names.BranchOp.TheVariants.{BLBC, BLBS, BEQ, BNE, BLT};
ghost use Rattle.axp_decode.specs.declared.names.BranchOp.TheVariants.{BLE, BGE, BGT};

/// Of two opposite branches exactly one is taken.
pub fn opposite_branches()
    ensures low_bit { (a : ℕ) → is_taken BLBS a ≡ not (is_taken BLBC a) }
    ensures equal { (a : ℕ) → is_taken BNE a ≡ not (is_taken BEQ a) }
    ensures less { (a : ℕ) → is_taken BGE a ≡ not (is_taken BLT a) }
    ensures less_or_equal { (a : ℕ) → is_taken BGT a ≡ not (is_taken BLE a) }
{}

/// The branches on the sign compare the integer that Ra is with 0.
pub fn branches_by_sign()
    ensures less { (a : ℕ) → a < 2 ^ 64 → is_taken BLT a ≡ int_lt (signed a) (pos 0) }
    ensures greater { (a : ℕ) → a < 2 ^ 64 → is_taken BGT a ≡ int_lt (pos 0) (signed a) }
    ensures less_or_equal { (a : ℕ) → a < 2 ^ 64
        → is_taken BLE a ≡ not (int_lt (pos 0) (signed a)) }
    ensures greater_or_equal { (a : ℕ) → a < 2 ^ 64
        → is_taken BGE a ≡ not (int_lt (signed a) (pos 0)) }
{}

/// A displacement counts instructions of 4 bytes: of its 21 bits the lower half of the numbers goes
/// forward, the upper half backward. Higher bits are ignored, and a target is where instructions
/// are.
pub fn targets()
    ensures forward { (next disp : ℕ) → disp < 2 ^ 20 → target_of next disp ≡ add next (disp * 4) }
    ensures backward { (next disp : ℕ) → 2 ^ 20 ≤ disp → disp < 2 ^ 21
        → target_of next disp ≡ sub next ((2 ^ 21 - disp) * 4) }
    ensures high_bits { (next disp : ℕ) → target_of next (disp % 2 ^ 21) ≡ target_of next disp }
    ensures aligned { (next disp : ℕ) → next % 4 ≡ 0 → target_of next disp % 4 ≡ 0 }
{}
