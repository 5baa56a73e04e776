//! Clearing bytes by a mask of eight bits.
ghost use Rattle.std.specs.Prelude.{◌≡◌, ◌<◌, ◌*◌, ◌^◌, if◌then◌else◌};
ghost use Rattle.axp_base.specs.Masks.{has_bit};
ghost use Rattle.axp_base.specs.Parts.{byte};
ghost use Rattle.axp_bytes.specs.Results.{zapped};

use axp_base::{byte_moved_up, byte_of};

/// Byte `n` of `a` in its place, or 0 where bit `n` of `b` is 1.
fn byte_unless(a: u64, b: u64, n: u8) -> u64
    requires { n < 8 }
    ensures { result ≡ (if has_bit b n then 0 else byte a n * 2 ^ (8 * n)) }
{
    if b >> n & 1 == 1 {
        0
    } else {
        byte_moved_up(byte_of(a, n), n)
    }
}

/// `a` with byte `n` cleared where bit `n` of `b` is 1, for `n` from 0 to 7.
#[tactic(auto, using(crate::proofs::ZappedBytes::zapped_none, crate::proofs::ZappedBytes::zapped_more, crate::proofs::ZappedBytes::zapped_fits))]
pub fn zap(a: u64, b: u64) -> u64
    ensures { result ≡ zapped 8 a b }
{
    let mut kept = 0;
    for n in 0..8 {
        kept += byte_unless(a, b, n);
    }
    kept
}
