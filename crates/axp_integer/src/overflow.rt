ghost use Rattle.std.specs.Prelude.{◌≡◌};
ghost use Rattle.axp_integer.specs.Results.{signed_longword};
ghost use Rattle.axp_integer.specs.Rows.{overflow_of};

use axp_decode::Op;

/// The integer that the low longword is.
fn low_long(x: u64) -> i32
    ensures { result ≡ signed_longword x }
{
    ((x & 0xFFFF_FFFF) as u32).cast_signed()
}

/// Whether the exact result of a /V instruction does not fit in its longword or quadword. No other
/// instruction overflows.
#[tactic(auto, unfolding(crate::specs::Rows::overflow_of), using(crate::proofs::Flags::flag))]
pub fn overflows(op: Op, a: u64, b: u64) -> bool
    ensures { result ≡ overflow_of op a b }
{
    match op {
        Op::ADDLV => low_long(a).overflowing_add(low_long(b)).1,
        Op::SUBLV => low_long(a).overflowing_sub(low_long(b)).1,
        Op::MULLV => low_long(a).overflowing_mul(low_long(b)).1,
        Op::ADDQV => a.cast_signed().overflowing_add(b.cast_signed()).1,
        Op::SUBQV => a.cast_signed().overflowing_sub(b.cast_signed()).1,
        Op::MULQV => a.cast_signed().overflowing_mul(b.cast_signed()).1,
        _ => false,
    }
}
