ghost use Rattle.std.specs.Prelude.{◌≡◌, ◌+◌, ◌*◌, ◌<◌, ◌≤◌, IfOk, length, slice_index, slice_set};
ghost use Rattle.axp_base.specs.Lines.{line_number};
ghost use Rattle.axp_base.specs.Masks.{mask_bits};
ghost use Rattle.axp_base.specs.declared.lines.TheConstants.{LINE_BYTES};
ghost use Rattle.axp_line.specs.Lines.{bytes_of_line};
ghost use Rattle.axp_memory.specs.Bytes.{AreLines, IsLoaded, PutsPiece, bytes_at, line_in};
ghost use Rattle.axp_memory.specs.Bytes.{merged_at, written};

use axp_base::{LINE_BYTES, Line, Mask, NoMemory};
use axp_image::Image;
use axp_line::LineData;
use std::alloc::Global;
use std::marker::Model;

/// The number of a line's bytes, as an offset.
const LENGTH: usize = LINE_BYTES as usize;

/// Physical memory, a whole number of lines.
#[derive(Debug, Drop)]
pub struct Ram {
    bytes: Vec<u8>,
}

impl Model for Ram {
    ghost use Rattle.std.specs.Prelude.{ℕ, List};

    ghost Value = { List ℕ };

    ghost use Rattle.axp_memory.specs.RamParts.{bytes_of, IsWhole};

    ghost view = { bytes_of };

    ghost invariant = { IsWhole };
}

impl Ram {
    /// The memory that an image describes; [`NoMemory`] where memory was not found for it.
    pub fn load(alloc: Global, image: &Image) -> Result<Ram, NoMemory>
        ensures { IfOk result (IsLoaded image.now) }
    {
        let size = image.size() as usize;
        let mut bytes = vec![in alloc; 0; size]?;
        for n in (0..image.segments()).rev() {
            let (address, piece) = image.segment(n);
            put_piece(bytes.as_mut_slice(), address as usize, piece);
        }
        Ok(Ram { bytes })
    }

    /// The size in bytes, a whole number of lines.
    pub fn size(&self) -> u64
        ensures value { result ≡ length self.now }
        ensures whole { AreLines self.now }
    {
        self.bytes.len() as u64
    }

    /// The bytes of a line.
    pub fn line(&self, line: Line) -> LineData
        requires { line_number line * LINE_BYTES < length self.now }
        ensures { bytes_of_line result ≡ line_in (line_number line) self.now }
    {
        read_line(self.bytes.as_slice(), line.address() as usize)
    }

    /// Writes the bytes that the mask has to a line. Every other byte stays.
    #[tactic(auto, using(crate::proofs::MergingLemmas::length_merged_at))]
    pub fn write(&mut self, line: Line, mask: Mask, bytes: &LineData)
        requires { line_number line * LINE_BYTES < length self.old }
        ensures bytes { self.new
            ≡ written (line_number line) (mask_bits mask) (bytes_of_line bytes.now) self.old }
        ensures size { length self.new ≡ length self.old }
    {
        let at = line.address() as usize;
        put_line(self.bytes.as_mut_slice(), at, mask, bytes);
    }
}

/// Puts a piece into a list of bytes from an offset on.
fn put_piece(bytes: &mut [u8], at: usize, piece: &[u8])
    requires { at + length piece.now ≤ length bytes.old }
    ensures { PutsPiece bytes.old bytes.new at piece.now }
{
    bytes[at..at + piece.len()].copy_from_slice(piece);
}

/// The bytes of a line from an offset on.
#[tactic(auto, using(crate::proofs::ReadingLemmas::filled_none, crate::proofs::ReadingLemmas::filled_more, crate::proofs::ReadingLemmas::filled_all))]
fn read_line(bytes: &[u8], at: usize) -> LineData
    requires { at + LINE_BYTES ≤ length bytes.now }
    ensures { bytes_of_line result ≡ bytes_at at bytes.now }
{
    let mut line = LineData::zero();
    for n in 0..LENGTH {
        put_byte(&mut line, n as u8, bytes[at + n]);
    }
    line
}

/// Merges the bytes of a line that the mask has into those from an offset on.
#[tactic(auto, using(crate::proofs::MergingLemmas::merging_none, crate::proofs::MergingLemmas::merging_more, crate::proofs::MergingLemmas::merging_all))]
fn put_line(bytes: &mut [u8], at: usize, mask: Mask, from: &LineData)
    requires { at + LINE_BYTES ≤ length bytes.old }
    ensures { bytes.new ≡ merged_at at (mask_bits mask) (bytes_of_line from.now) bytes.old }
{
    for n in 0..LENGTH {
        if mask.has(n as u8) {
            bytes[at + n] = byte_in_line(from, n as u8);
        }
    }
}

/// Puts byte `n` of a line.
#[tactic(auto, using(crate::proofs::ReadingLemmas::one_byte_put))]
fn put_byte(line: &mut LineData, n: u8, byte: u8)
    requires { n < LINE_BYTES }
    ensures { bytes_of_line line.new ≡ slice_set (bytes_of_line line.old) n byte }
{
    line.set(n, 1, u64::from(byte));
}

/// Byte `n` of a line.
#[tactic(auto, using(crate::proofs::ReadingLemmas::one_byte_read))]
fn byte_in_line(line: &LineData, n: u8) -> u8
    requires { n < LINE_BYTES }
    ensures { result ≡ slice_index (bytes_of_line line.now) n }
{
    line.get(n, 1) as u8
}
