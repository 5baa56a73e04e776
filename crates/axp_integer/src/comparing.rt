ghost use Rattle.std.specs.Prelude.{◌≡◌, ◌<◌, ◌^◌, nat_le, if◌then◌else◌};
ghost use Rattle.axp_base.specs.Parts.{byte};
ghost use Rattle.axp_integer.specs.Results.{bytes_at_least};

use axp_base::byte_of;

/// Bit `n`, where byte `n` of `a` is at least that of `b`.
fn bit_of_byte(a: u64, b: u64, n: u8) -> u64
    requires { n < 8 }
    ensures { result ≡ (if nat_le (byte b n) (byte a n) then 2 ^ n else 0) }
{
    if byte_of(a, n) >= byte_of(b, n) {
        1 << n
    } else {
        0
    }
}

/// Bit `n`, for each byte `n` of `a` that is at least that of `b`.
#[tactic(auto, using(crate::proofs::ByteComparisons::bytes_at_least_none, crate::proofs::ByteComparisons::bytes_at_least_more, crate::proofs::ByteComparisons::bytes_at_least_fits))]
pub fn bytes_at_least(a: u64, b: u64) -> u64
    ensures { result ≡ bytes_at_least 8 a b }
{
    let mut bits = 0;
    for n in 0..8 {
        bits += bit_of_byte(a, b, n);
    }
    bits
}
