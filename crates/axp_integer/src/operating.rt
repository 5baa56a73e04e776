ghost use Rattle.std.specs.Prelude.{◌≡◌};
ghost use Rattle.axp_integer.specs.Results.{longword};
ghost use Rattle.axp_integer.specs.Rows.{IsInteger, value_of, overflow_of};

use crate::comparing::bytes_at_least;
use crate::overflow::overflows;
use axp_base::sext;
use axp_decode::Op;

/// What an integer instruction writes to Rc, and whether it overflows, which a /V instruction alone
/// does. `a` is the value of Ra, `b` that of Rb or the literal, and `old` that of Rc before, which
/// a conditional move may leave. Every value of 64 bits is allowed.
pub fn operate(op: Op, a: u64, b: u64, old: u64) -> (u64, bool)
    requires { IsInteger op }
    ensures value { result.0 ≡ value_of op a b old }
    ensures overflow { result.1 ≡ overflow_of op a b }
{
    (value(op, a, b, old), overflows(op, a, b))
}

/// The low longword, sign-extended.
fn long(x: u64) -> u64
    ensures { result ≡ longword x }
{
    sext(x, 32)
}

/// What an integer instruction writes to Rc.
#[tactic(auto, unfolding(crate::specs::Rows::value_of))]
fn value(op: Op, a: u64, b: u64, old: u64) -> u64
    requires { IsInteger op }
    ensures { result ≡ value_of op a b old }
{
    match op {
        Op::ADDL | Op::ADDLV => long(a.wrapping_add(b)),
        Op::SUBL | Op::SUBLV => long(a.wrapping_sub(b)),
        Op::S4ADDL => long(a.wrapping_mul(4).wrapping_add(b)),
        Op::S8ADDL => long(a.wrapping_mul(8).wrapping_add(b)),
        Op::S4SUBL => long(a.wrapping_mul(4).wrapping_sub(b)),
        Op::S8SUBL => long(a.wrapping_mul(8).wrapping_sub(b)),
        Op::ADDQ | Op::ADDQV => a.wrapping_add(b),
        Op::SUBQ | Op::SUBQV => a.wrapping_sub(b),
        Op::S4ADDQ => a.wrapping_mul(4).wrapping_add(b),
        Op::S8ADDQ => a.wrapping_mul(8).wrapping_add(b),
        Op::S4SUBQ => a.wrapping_mul(4).wrapping_sub(b),
        Op::S8SUBQ => a.wrapping_mul(8).wrapping_sub(b),
        Op::CMPBGE => bytes_at_least(a, b),
        Op::CMPULT => u64::from(a < b),
        Op::CMPULE => u64::from(a <= b),
        Op::CMPEQ => u64::from(a == b),
        Op::CMPLT => u64::from(a.cast_signed() < b.cast_signed()),
        Op::CMPLE => u64::from(a.cast_signed() <= b.cast_signed()),
        Op::AND => a & b,
        Op::BIC => a & !b,
        Op::BIS => a | b,
        Op::ORNOT => a | !b,
        Op::XOR => a ^ b,
        Op::EQV => a ^ !b,
        Op::CMOVLBS => if a & 1 == 1 { b } else { old },
        Op::CMOVLBC => if a & 1 == 0 { b } else { old },
        Op::CMOVEQ => if a == 0 { b } else { old },
        Op::CMOVNE => if a != 0 { b } else { old },
        Op::CMOVLT => if a.cast_signed() < 0 { b } else { old },
        Op::CMOVGE => if a.cast_signed() >= 0 { b } else { old },
        Op::CMOVLE => if a.cast_signed() <= 0 { b } else { old },
        Op::CMOVGT => if a.cast_signed() > 0 { b } else { old },
        Op::AMASK => b & !1,
        Op::IMPLVER => 2,
        Op::MULL | Op::MULLV => long(a.wrapping_mul(b)),
        Op::MULQ | Op::MULQV => a.wrapping_mul(b),
        Op::UMULH => (u128::from(a) * u128::from(b) >> 64) as u64,
        Op::SEXTB => sext(b, 8),
        Op::SEXTW => sext(b, 16),
        _ => unreachable!(),
    }
}
