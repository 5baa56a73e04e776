ghost use Rattle.std.specs.Prelude.{◌≡◌, ◌+◌, ◌*◌, ◌^◌, ◌≤◌, ◌<◌, length};
ghost use Rattle.axp_base.specs.Parts.{byte, part, with_part};

/// The bytes of a quadword: every access lies inside of one that is aligned.
pub const QUADWORD_BYTES: u64 = 8;

/// Byte `n` of a number, 0 the lowest.
pub fn byte_of(value: u64, n: u8) -> u8
    requires { n < 8 }
    ensures { result ≡ byte value n }
{
    (value >> (8 * n) & 0xFF) as u8
}

/// The number that has this byte as byte `n`, and 0 in every other.
#[tactic(auto, using(crate::proofs::PartLemmas::byte_whole))]
pub fn byte_moved_up(byte: u8, n: u8) -> u64
    requires { n < 8 }
    ensures { result ≡ byte * 2 ^ (8 * n) }
{
    u64::from(byte) << (8 * n)
}

/// The little-endian number of `size` bytes, at most 8, from an offset on.
#[tactic(auto, using(crate::proofs::PartLemmas::number_at_none, crate::proofs::PartLemmas::number_at_more, crate::proofs::PartLemmas::number_at_fits, crate::proofs::PartLemmas::number_at_small))]
pub fn number_in(bytes: &[u8], offset: usize, size: u8) -> u64
    requires few { size ≤ 8 }
    requires inside { offset + size ≤ length bytes.now }
    ensures value { result ≡ part bytes.now offset size }
    ensures small { result < 2 ^ (8 * size) }
{
    let mut value = 0;
    for n in 0..size {
        value += byte_moved_up(bytes[offset + usize::from(n)], n);
    }
    value
}

/// Puts the low `size` bytes of a value, at most 8, from an offset on, the lowest first.
#[tactic(auto, using(crate::proofs::PartLemmas::with_part_none, crate::proofs::PartLemmas::with_part_more))]
pub fn put_number(bytes: &mut [u8], offset: usize, size: u8, value: u64)
    requires few { size ≤ 8 }
    requires inside { offset + size ≤ length bytes.old }
    ensures { bytes.new ≡ with_part bytes.old offset size value }
{
    for n in 0..size {
        bytes[offset + usize::from(n)] = byte_of(value, n);
    }
}
