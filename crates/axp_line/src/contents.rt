ghost use Rattle.std.specs.Prelude.{◌≡◌, ◌+◌, ◌*◌, ◌^◌, ◌≤◌, ◌<◌, length, replicate};
ghost use Rattle.axp_base.specs.Masks.{mask_bits};
ghost use Rattle.axp_base.specs.Parts.{part, with_part};
ghost use Rattle.axp_base.specs.declared.lines.TheConstants.{LINE_BYTES};

use axp_base::{LINE_BYTES, Mask, number_in, put_number};

/// The number of a line's bytes, as the length of an array.
const LENGTH: usize = LINE_BYTES as usize;

/// Every copy of a bank is of another line.
#[derive(Clone, Copy, Debug, PartialEq, Eq)]
pub struct NoRoom;

/// The data of a line: [`LINE_BYTES`] bytes.
#[derive(Clone, Copy, Debug, PartialEq, Eq)]
pub struct LineData {
    bytes: [u8; LENGTH],
    ghost whole: { length bytes ≡ LINE_BYTES },
}

impl LineData {
    ghost use Rattle.axp_line.specs.Lines.{bytes_of_line, merged};

    /// The line whose bytes are all 0.
    pub fn zero() -> LineData
        ensures { bytes_of_line result ≡ replicate LINE_BYTES 0 }
    {
        LineData { bytes: [0; LENGTH] }
    }

    /// The little-endian number of `size` bytes, at most 8, from an offset on.
    pub fn get(&self, offset: u8, size: u8) -> u64
        requires few { size ≤ 8 }
        requires inside { offset + size ≤ LINE_BYTES }
        ensures value { result ≡ part (bytes_of_line self.now) offset size }
        ensures small { result < 2 ^ (8 * size) }
    {
        number_in(&self.bytes, usize::from(offset), size)
    }

    /// Puts the low `size` bytes of a value, at most 8, from an offset on, the lowest first.
    pub fn set(&mut self, offset: u8, size: u8, value: u64)
        requires few { size ≤ 8 }
        requires inside { offset + size ≤ LINE_BYTES }
        ensures { bytes_of_line self.new ≡ with_part (bytes_of_line self.old) offset size value }
    {
        put_number(&mut self.bytes, usize::from(offset), size, value);
    }

    /// Takes the bytes of another line that the mask has; every other byte stays.
    #[tactic(auto, using(crate::proofs::MergeLemmas::merged_none, crate::proofs::MergeLemmas::merged_more))]
    pub fn merge(&mut self, mask: Mask, from: &LineData)
        ensures { bytes_of_line self.new
            ≡ merged (mask_bits mask) (bytes_of_line from.now) (bytes_of_line self.old) }
    {
        for n in 0..LENGTH {
            if mask.has(n as u8) {
                self.bytes[n] = from.bytes[n];
            }
        }
    }
}

impl Default for LineData {
    ghost use Rattle.axp_line.specs.Lines.{bytes_of_line};

    /// The line whose bytes are all 0.
    fn default() -> LineData
        ensures { bytes_of_line result ≡ replicate LINE_BYTES 0 }
    {
        LineData::zero()
    }
}
