ghost use Rattle.std.specs.Prelude.{◌≡◌, ◌≤◌};
ghost use Rattle.axp_base.specs.Numbers.{sign_extended};

/// The low `bits` of a value, 1 to 64, with the highest of them repeated above.
#[tactic(auto, unfolding(crate::specs::Numbers::sign_extended), using(crate::proofs::NumberLemmas::low_mask, crate::proofs::NumberLemmas::low_small, crate::proofs::NumberLemmas::one_moved_up))]
pub fn sext(value: u64, bits: u32) -> u64
    requires low { 1 ≤ bits }
    requires high { bits ≤ 64 }
    ensures { result ≡ sign_extended bits value }
{
    if bits == 64 {
        return value;
    }
    let mask = (1u64 << bits) - 1;
    let low = value & mask;
    if low < 1 << (bits - 1) {
        low
    } else {
        low + (u64::MAX - mask)
    }
}
