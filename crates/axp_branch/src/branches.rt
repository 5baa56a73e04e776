ghost use Rattle.std.specs.Prelude.{◌≡◌};
ghost use Rattle.axp_branch.specs.Branches.{is_taken, target_of};

use axp_base::sext;
use axp_decode::BranchOp;

/// Whether a branch is taken, where Ra has this value.
#[tactic(auto, unfolding(crate::specs::Branches::is_taken))]
pub fn taken(op: BranchOp, a: u64) -> bool
    ensures { result ≡ is_taken op a }
{
    match op {
        BranchOp::BR | BranchOp::BSR => true,
        BranchOp::BLBC => a & 1 == 0,
        BranchOp::BLBS => a & 1 == 1,
        BranchOp::BEQ => a == 0,
        BranchOp::BNE => a != 0,
        BranchOp::BLT => a.cast_signed() < 0,
        BranchOp::BLE => a.cast_signed() <= 0,
        BranchOp::BGE => a.cast_signed() >= 0,
        BranchOp::BGT => a.cast_signed() > 0,
    }
}

/// The target of a branch: the updated program counter and 4 times the displacement, a signed
/// number of 21 bits, whose higher bits are ignored.
pub fn target(next: u64, disp: u32) -> u64
    ensures { result ≡ target_of next disp }
{
    next.wrapping_add(sext(u64::from(disp), 21).wrapping_mul(4))
}
