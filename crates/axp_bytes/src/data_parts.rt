//! Data of 1, 2, 4 or 8 bytes in a quadword, `n` bytes up, and what of them reaches into the next.
ghost use Rattle.std.specs.Prelude.{◌≡◌, ◌<◌};
ghost use Rattle.axp_bytes.specs.Results.{extracted_low, extracted_high, moved_up, inserted_low};
ghost use Rattle.axp_bytes.specs.Results.{inserted_high, below_byte, from_byte, masked_low};
ghost use Rattle.axp_bytes.specs.Results.{masked_high};

use axp_base::Size;

/// The low part of the datum that stands `n` bytes up in `a`.
pub fn extract_low(a: u64, n: u8, size: Size) -> u64
    requires { n < 8 }
    ensures { result ≡ extracted_low size a n }
{
    size.low(a >> (8 * n))
}

/// The high part of the datum that stands `n` bytes up in the quadword before `a`.
pub fn extract_high(a: u64, n: u8, size: Size) -> u64
    requires { n < 8 }
    ensures { result ≡ extracted_high size a n }
{
    size.low(a << ((64 - 8 * n) % 64))
}

/// The low datum of `a`, `n` bytes up.
#[tactic(auto, using(crate::proofs::DataParts::moved_up_whole))]
fn move_up(a: u64, n: u8, size: Size) -> u128
    requires { n < 8 }
    ensures { result ≡ moved_up size a n }
{
    u128::from(size.low(a)) << (8 * n)
}

/// The part of the datum `n` bytes up that stands in its first quadword.
pub fn insert_low(a: u64, n: u8, size: Size) -> u64
    requires { n < 8 }
    ensures { result ≡ inserted_low size a n }
{
    (move_up(a, n, size) & 0xFFFF_FFFF_FFFF_FFFF) as u64
}

/// The part of the datum `n` bytes up that stands in the quadword after the first.
pub fn insert_high(a: u64, n: u8, size: Size) -> u64
    requires { n < 8 }
    ensures { result ≡ inserted_high size a n }
{
    (move_up(a, n, size) >> 64) as u64
}

/// The bytes below byte `n`.
#[tactic(auto, using(crate::proofs::DataParts::below_mask))]
fn below(a: u64, n: u8) -> u64
    requires { n < 8 }
    ensures { result ≡ below_byte a n }
{
    a & ((1 << (8 * n)) - 1)
}

/// The bytes from byte `n` on.
#[tactic(auto, using(crate::proofs::DataParts::from_whole, crate::proofs::DataParts::from_none))]
fn from(a: u64, n: u8) -> u64
    ensures { result ≡ from_byte a n }
{
    if n < 8 { a >> (8 * n) << (8 * n) } else { 0 }
}

/// `a` with the bytes of a datum `n` bytes up cleared.
#[tactic(auto, using(crate::proofs::DataParts::parts_fit))]
pub fn mask_low(a: u64, n: u8, size: Size) -> u64
    requires { n < 8 }
    ensures { result ≡ masked_low size a n }
{
    from(a, n + size.bytes()) + below(a, n)
}

/// `a` with the bytes cleared of a datum that begins `n` bytes up in the quadword before it.
pub fn mask_high(a: u64, n: u8, size: Size) -> u64
    requires { n < 8 }
    ensures { result ≡ masked_high size a n }
{
    from(a, (n + size.bytes()).saturating_sub(8))
}
