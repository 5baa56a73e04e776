ghost use Rattle.std.specs.Prelude.{◌≡◌, ◌%◌, ◌<◌, bit_or, IsTrue, ◌↔◌};
ghost use Rattle.axp_base.specs.declared.lines.TheConstants.{LINE_BYTES};
ghost use Rattle.axp_base.specs.Masks.{mask_bits, span_of, has_bit, IsSize};

use crate::LINE_BYTES;

/// One bit for each byte of a line, the lowest for the first byte.
#[derive(Clone, Copy, Debug, Default, PartialEq, Eq)]
pub struct Mask(u64);

/// The bytes that an access of 1, 2, 4 or 8 bytes at a multiple of its size takes of its line.
#[tactic(auto, using(crate::proofs::MaskLemmas::span_whole))]
pub fn span(address: u64, size: u8) -> Mask
    requires sized { IsSize size }
    requires aligned { address % size ≡ 0 }
    ensures { mask_bits result ≡ span_of address size }
{
    Mask(((1 << size) - 1) << (address % LINE_BYTES))
}

impl Mask {
    /// The bytes of both.
    pub fn join(self, other: Mask) -> Mask
        ensures { mask_bits result ≡ bit_or (mask_bits self) (mask_bits other) }
    {
        Mask(self.0 | other.0)
    }

    /// Whether the mask has byte `n` of the line.
    pub fn has(self, n: u8) -> bool
        requires { n < LINE_BYTES }
        ensures { result ≡ has_bit (mask_bits self) n }
    {
        (self.0 >> n) & 1 == 1
    }
}
