ghost use Rattle.std.specs.Prelude.{◌≡◌, ◌+◌, ◌^◌, ◌<◌, ◌≤◌, true, false, length, Some, None};
ghost use Rattle.std.specs.Prelude.{IfOk, IfErr, OnOk, OnErr};
ghost use Rattle.axp_image.specs.Contents.{IsValid};
ghost use Rattle.axp_image.specs.Faults.{Names, fault_of, first_of, header_parts, record_part};
ghost use Rattle.axp_image.specs.Faults.{record_parts, body_parts, extents_in, extent_in, first_fault};
ghost use Rattle.axp_image.specs.Faults.{record_at};
ghost use Rattle.axp_image.specs.Grammar.{piece_at, number_at, is_memory_size, is_entry, header_of};
ghost use Rattle.axp_image.specs.Grammar.{is_extent, extent_at, extents_at, segments_at, image_of};
ghost use Rattle.axp_image.specs.declared.faults.ImageError.TheVariants.{Bad};
ghost use Rattle.axp_image.specs.declared.faults.ImageKind.TheVariants.{Short};

use crate::faults::{ImageError, ImageKind};
use crate::images::{Image, Segment};
use crate::layout::{
    ADDRESS_AT, COUNT_AT, ENTRY_AT, HEADER_BYTES, LENGTH_AT, MAGIC, MAGIC_AT, RECORD_BYTES,
    SIZE_AT, STACK_AT, TABLE_AT, VERSION, VERSION_AT, ZERO_AT,
};
use crate::limits::{INSTRUCTION_BYTES, KSEG, MAX_MEMORY, MAX_SEGMENTS, PAGE_BYTES};
use axp_base::Bytes;
use byteorder::{ByteOrder, LittleEndian};
use std::alloc::Global;

/// The numbers before the segments' records.
#[derive(Clone, Copy)]
struct Header {
    count: u16,
    size: u64,
    entry: u64,
    stack: u64,
    table: u64,
}

/// Where a segment stands in memory: its first address and its number of bytes.
#[derive(Clone, Copy)]
struct Extent {
    address: u64,
    length: u32,
}

/// The `n` bytes from an offset; an error where the file ends before.
#[tactic(auto, unfolding(crate::specs::Grammar::piece_at))]
fn piece_at(bytes: &[u8], at: usize, n: usize) -> Result<&[u8], ImageError>
    ensures value { IfOk result (λ piece. piece_at bytes.now at n ≡ Some piece.now) }
    ensures length { IfOk result (λ piece. length piece.now ≡ n) }
    ensures within { OnOk result (at + n ≤ length bytes.now) }
    ensures short { IfErr result (λ e. e ≡ Bad Short (length bytes.now)) }
    ensures lacks { OnErr result (length bytes.now < at + n) }
{
    if bytes.len() < at || bytes.len() - at < n {
        return Err(ImageError::Bad {
            kind: ImageKind::Short,
            offset: bytes.len() as u64,
        });
    }
    Ok(&bytes[at..at + n])
}

/// The number of two bytes at an offset; an error where the file ends before.
#[tactic(auto, unfolding(crate::specs::Grammar::number_at))]
fn u16_at(bytes: &[u8], at: usize) -> Result<u16, ImageError>
    ensures value { IfOk result (λ n. number_at bytes.now at 2 ≡ Some n) }
    ensures within { OnOk result (at + 2 ≤ length bytes.now) }
    ensures short { IfErr result (λ e. e ≡ Bad Short (length bytes.now)) }
    ensures lacks { OnErr result (length bytes.now < at + 2) }
{
    Ok(LittleEndian::read_u16(piece_at(bytes, at, 2)?))
}

/// The number of four bytes at an offset; an error where the file ends before.
#[tactic(auto, unfolding(crate::specs::Grammar::number_at))]
fn u32_at(bytes: &[u8], at: usize) -> Result<u32, ImageError>
    ensures value { IfOk result (λ n. number_at bytes.now at 4 ≡ Some n) }
    ensures within { OnOk result (at + 4 ≤ length bytes.now) }
    ensures short { IfErr result (λ e. e ≡ Bad Short (length bytes.now)) }
    ensures lacks { OnErr result (length bytes.now < at + 4) }
{
    Ok(LittleEndian::read_u32(piece_at(bytes, at, 4)?))
}

/// The number of eight bytes at an offset; an error where the file ends before.
#[tactic(auto, unfolding(crate::specs::Grammar::number_at))]
fn u64_at(bytes: &[u8], at: usize) -> Result<u64, ImageError>
    ensures value { IfOk result (λ n. number_at bytes.now at 8 ≡ Some n) }
    ensures within { OnOk result (at + 8 ≤ length bytes.now) }
    ensures short { IfErr result (λ e. e ≡ Bad Short (length bytes.now)) }
    ensures lacks { OnErr result (length bytes.now < at + 8) }
{
    Ok(LittleEndian::read_u64(piece_at(bytes, at, 8)?))
}

/// The fault of the part at an offset, unless the part passed its test.
fn check(passes: bool, kind: ImageKind, at: usize) -> Result<(), ImageError>
    ensures ok { OnOk result (passes ≡ true) }
    ensures err { IfErr result (λ e. e ≡ Bad kind at) }
    ensures fails { OnErr result (passes ≡ false) }
{
    if passes {
        Ok(())
    } else {
        let offset = at as u64;
        Err(ImageError::Bad { kind, offset })
    }
}

/// Whether memory may have this many bytes.
fn is_memory_size(size: u64) -> bool
    ensures { result ≡ is_memory_size size }
{
    size % PAGE_BYTES == 0 && PAGE_BYTES <= size && size <= MAX_MEMORY
}

/// Whether processors may start at this address of a memory of `size` bytes.
fn is_entry(size: u64, entry: u64) -> bool
    requires least { PAGE_BYTES ≤ size }
    requires most { size ≤ MAX_MEMORY }
    ensures { result ≡ is_entry size entry }
{
    entry % INSTRUCTION_BYTES == 0 && KSEG <= entry && entry <= KSEG + size - INSTRUCTION_BYTES
}

/// The fields before the records, each in its limits; an error for the first at fault.
#[tactic(auto, unfolding(crate::specs::Grammar::header_of))]
fn read_header(bytes: &[u8]) -> Result<Header, ImageError>
    ensures value { IfOk result (λ header. header_of bytes.now ≡ Some header) }
    ensures within { OnOk result (HEADER_BYTES ≤ length bytes.now) }
    ensures sound { OnOk result (first_of (length bytes.now) (header_parts bytes.now) ≡ None) }
    ensures fault { IfErr result (Names (first_of (length bytes.now) (header_parts bytes.now))) }
{
    let magic = u32_at(bytes, MAGIC_AT)?;
    check(magic == MAGIC, ImageKind::Magic, MAGIC_AT)?;
    let version = u16_at(bytes, VERSION_AT)?;
    check(version == VERSION, ImageKind::Version, VERSION_AT)?;
    let count = u16_at(bytes, COUNT_AT)?;
    check(u32::from(count) <= MAX_SEGMENTS, ImageKind::Count, COUNT_AT)?;
    let size = u64_at(bytes, SIZE_AT)?;
    check(is_memory_size(size), ImageKind::Size, SIZE_AT)?;
    let entry = u64_at(bytes, ENTRY_AT)?;
    check(is_entry(size, entry), ImageKind::Entry, ENTRY_AT)?;
    let stack = u64_at(bytes, STACK_AT)?;
    let table = u64_at(bytes, TABLE_AT)?;
    check(table < size / PAGE_BYTES, ImageKind::Table, TABLE_AT)?;
    Ok(Header {
        count,
        size,
        entry,
        stack,
        table,
    })
}

/// Whether a record's segment has bytes and lies in a memory of `size` bytes, at or above `from`,
/// and the record's last word is zero.
fn is_extent(size: u64, from: u64, extent: Extent, last: u32) -> bool
    ensures { result ≡ is_extent size from extent last }
{
    from <= extent.address
        && 1 <= extent.length
        && extent.address <= size
        && u64::from(extent.length) <= size - extent.address
        && last == 0
}

/// Where the record at an offset puts its segment, at or above `from` in a memory of `size` bytes;
/// an error where the record is cut or at fault.
#[tactic(auto, using(crate::proofs::RecordLemmas::extent_there))]
fn read_extent(bytes: &[u8], size: u64, from: u64, at: usize) -> Result<Extent, ImageError>
    requires { at + RECORD_BYTES < 2 ^ 63 }
    ensures value { IfOk result (λ e. extent_at bytes.now size from at ≡ Some e) }
    ensures said { IfOk result (λ e. e ≡ extent_in bytes.now at) }
    ensures placed { IfOk result (λ e. e.address + e.length ≤ size) }
    ensures within { OnOk result (at + RECORD_BYTES ≤ length bytes.now) }
    ensures sound { OnOk result
        (fault_of (length bytes.now) (record_part bytes.now size from at) ≡ None) }
    ensures fault { IfErr result
        (Names (fault_of (length bytes.now) (record_part bytes.now size from at))) }
{
    let address = u64_at(bytes, at + ADDRESS_AT)?;
    let length = u32_at(bytes, at + LENGTH_AT)?;
    let last = u32_at(bytes, at + ZERO_AT)?;
    let extent = Extent { address, length };
    let is_extent = is_extent(size, from, extent, last);
    check(is_extent, ImageKind::Segment, at)?;
    Ok(extent)
}

/// What `count` records say, each segment at or above the end of the one before it; an error for
/// the first record that is cut or at fault.
#[tactic(auto, using(crate::proofs::ReadingLoopLemmas::record_fails))]
fn read_extents(
    alloc: Global,
    bytes: &[u8],
    size: u64,
    count: u16,
) -> Result<Vec<Extent>, ImageError>
    requires { HEADER_BYTES ≤ length bytes.now }
    ensures value { IfOk result
        (λ v. extents_at bytes.now size count 0 HEADER_BYTES ≡ Some v.items) }
    ensures said { IfOk result (λ v. v.items ≡ extents_in bytes.now 0 count) }
    ensures within { OnOk result (record_at count ≤ length bytes.now) }
    ensures sound { OnOk result
        (first_of (length bytes.now) (record_parts bytes.now size 0 count) ≡ None) }
    ensures fault { IfErr result
        (Names (first_of (length bytes.now) (record_parts bytes.now size 0 count))) }
{
    let mut extents = Vec::with_capacity(alloc, count as usize)?;
    let mut from = 0;
    for n in 0..count {
        let at = HEADER_BYTES + n as usize * RECORD_BYTES;
        let extent = read_extent(bytes, size, from, at)?;
        from = extent.address + u64::from(extent.length);
        extents.push_reserved(extent);
    }
    Ok(extents)
}

/// The segments whose bytes stand in the file from an offset on; an error where the file ends before
/// the last of them or goes on behind it.
fn read_segments(
    alloc: Global,
    bytes: &[u8],
    start: usize,
    extents: &[Extent],
) -> Result<Vec<Segment>, ImageError>
    requires { start ≤ length bytes.now }
    ensures value { IfOk result (λ v. segments_at bytes.now start extents.now ≡ Some v.items) }
    ensures sound { OnOk result
        (first_of (length bytes.now) (body_parts (length bytes.now) start extents.now) ≡ None) }
    ensures fault { IfErr result
        (Names (first_of (length bytes.now) (body_parts (length bytes.now) start extents.now))) }
{
    let mut segments = Vec::with_capacity(alloc, extents.len())?;
    let mut at = start;
    for extent in extents {
        let piece = piece_at(bytes, at, extent.length as usize)?;
        let own = Bytes::copy(alloc, piece)?;
        segments.push_reserved(Segment::new(extent.address, own));
        at += piece.len();
    }
    check(bytes.len() <= at, ImageKind::Extra, at)?;
    Ok(segments)
}

/// Reads an image file, whose form `docs/FORMATS.md` has under "The image file". A file that is no
/// image is answered by its first fault, the parts of the file taken in order of their offsets.
#[tactic(auto, unfolding(crate::specs::Grammar::image_of), using(crate::proofs::FaultLemmas::header_fails, crate::proofs::FaultLemmas::records_fail, crate::proofs::FaultLemmas::body_fails, crate::proofs::FaultLemmas::none_left))]
pub fn read_image(alloc: Global, bytes: &[u8]) -> Result<Image, ImageError>
    ensures read { IfOk result (λ image. image_of bytes.now ≡ Some image) }
    ensures valid { IfOk result IsValid }
    ensures sound { OnOk result (first_fault bytes.now ≡ None) }
    ensures fault { IfErr result (Names (first_fault bytes.now)) }
{
    let header = read_header(bytes)?;
    let extents = read_extents(alloc, bytes, header.size, header.count)?;
    let start = HEADER_BYTES + header.count as usize * RECORD_BYTES;
    let segments = read_segments(alloc, bytes, start, &extents)?;
    Ok(Image::new(
        header.size,
        header.entry,
        header.stack,
        header.table,
        segments,
    ))
}
