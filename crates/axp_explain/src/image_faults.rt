//! What is wrong with an image file, in a person's words (`docs/FORMATS.md`, "The image file").
ghost use Rattle.std.specs.Prelude.{◌≡◌, ◌+◌, ◌≤◌, ◌++◌, length, IfSome, IfOk, IsNone, None, Some};
ghost use Rattle.axp_image.specs.Faults.{number_in};
ghost use Rattle.axp_image.specs.Grammar.{number_at, piece_at};
ghost use Rattle.axp_explain.specs.ImageWords.{count_words, entry_words, extra_words, image_words};
ghost use Rattle.axp_explain.specs.ImageWords.{extent_words, limit_words, place_words};
ghost use Rattle.axp_explain.specs.ImageWords.{segment_words, short_words, size_words, table_words};
ghost use Rattle.axp_explain.specs.ImageWords.{version_words};

use crate::texts::{decimal, hex, joined};
use axp_base::{Bytes, NoMemory};
use axp_image::{ImageKind, PAGE_BYTES};
use byteorder::{ByteOrder, LittleEndian};
use std::alloc::Global;

/// Where an image file has the size of memory.
const SIZE_AT: usize = 8;

/// Where a record has the segment's length.
const LENGTH_BEHIND: usize = 8;

/// Where a record has the word that is zero.
const ZERO_BEHIND: usize = 12;

/// What is wrong with an image file that has a fault of this kind at this offset.
#[tactic(auto, unfolding(crate::specs::ImageWords::image_words))]
pub fn image_words(
    alloc: Global,
    bytes: &[u8],
    kind: ImageKind,
    offset: u64,
) -> Result<Bytes, NoMemory>
    ensures { IfOk result (λ text. text ≡ image_words bytes.now kind offset) }
{
    let at = offset as usize;
    match kind {
        ImageKind::Magic => {
            Bytes::copy(
                alloc,
                b"the file does not begin with AXPI, as an image does",
            )
        }
        ImageKind::Version => version_words(alloc, u16_at(bytes, at)),
        ImageKind::Count => count_words(alloc, u16_at(bytes, at)),
        ImageKind::Size => size_words(alloc, u64_at(bytes, at)),
        ImageKind::Entry => entry_words(alloc, u64_at(bytes, at), u64_at(bytes, SIZE_AT)),
        ImageKind::Table => table_words(
            alloc,
            u64_at(bytes, at),
            u64_at(bytes, SIZE_AT) / PAGE_BYTES,
        ),
        ImageKind::Segment => segment_words(alloc, bytes, at),
        ImageKind::Short => short_words(alloc, offset),
        ImageKind::Extra => extra_words(alloc, offset),
    }
}

fn version_words(alloc: Global, version: u16) -> Result<Bytes, NoMemory>
    ensures { IfOk result (λ text. text ≡ version_words version) }
{
    let version = decimal(alloc, u64::from(version))?;
    joined(
        alloc,
        &[b"the version is ", version.as_slice(), b": it must be 1"],
    )
}

fn count_words(alloc: Global, count: u16) -> Result<Bytes, NoMemory>
    ensures { IfOk result (λ text. text ≡ count_words count) }
{
    let count = decimal(alloc, u64::from(count))?;
    joined(
        alloc,
        &[
            b"the number of segments is ",
            count.as_slice(),
            b": it must be at most 64",
        ],
    )
}

fn size_words(alloc: Global, size: u64) -> Result<Bytes, NoMemory>
    ensures { IfOk result (λ text. text ≡ size_words size) }
{
    let size = decimal(alloc, size)?;
    joined(
        alloc,
        &[
            b"the size of memory is ",
            size.as_slice(),
            b": it must be a multiple of 8192 from 8192 to 16777216",
        ],
    )
}

fn entry_words(alloc: Global, entry: u64, size: u64) -> Result<Bytes, NoMemory>
    ensures { IfOk result (λ text. text ≡ entry_words entry size) }
{
    let entry = hex(alloc, entry)?;
    let size = decimal(alloc, size)?;
    with_two(
        alloc,
        b"the entry address is ",
        entry.as_slice(),
        b": it must be a multiple of 4 within the ",
        size.as_slice(),
        b" bytes from FFFFFC0000000000 on",
    )
}

fn table_words(alloc: Global, table: u64, pages: u64) -> Result<Bytes, NoMemory>
    ensures { IfOk result (λ text. text ≡ table_words table pages) }
{
    let table = decimal(alloc, table)?;
    let pages = decimal(alloc, pages)?;
    with_two(
        alloc,
        b"the page table begins on page ",
        table.as_slice(),
        b": it must be one of the ",
        pages.as_slice(),
        b" pages of memory, counted from 0",
    )
}

/// Two numbers with words around them.
fn with_two(
    alloc: Global,
    before: &[u8],
    first: &[u8],
    between: &[u8],
    second: &[u8],
    behind: &[u8],
) -> Result<Bytes, NoMemory>
    ensures { IfOk result (λ text. text
        ≡ before.now ++ first.now ++ between.now ++ second.now ++ behind.now) }
{
    joined(alloc, &[before, first, between, second, behind])
}

fn place_words(alloc: Global, at: u64, address: u64) -> Result<Bytes, NoMemory>
    ensures { IfOk result (λ text. text ≡ place_words at address) }
{
    let at = decimal(alloc, at)?;
    let address = hex(alloc, address)?;
    with_two(
        alloc,
        b"the segment of the record at byte ",
        at.as_slice(),
        b" is at ",
        address.as_slice(),
        b", ",
    )
}

fn extent_words(alloc: Global, length: u32, last: u32) -> Result<Bytes, NoMemory>
    ensures { IfOk result (λ text. text ≡ extent_words length last) }
{
    let length = decimal(alloc, u64::from(length))?;
    let last = decimal(alloc, u64::from(last))?;
    with_two(
        alloc,
        b"has the length ",
        length.as_slice(),
        b" and the last word ",
        last.as_slice(),
        b": ",
    )
}

fn limit_words(alloc: Global, size: u64) -> Result<Bytes, NoMemory>
    ensures { IfOk result (λ text. text ≡ limit_words size) }
{
    let size = decimal(alloc, size)?;
    joined(
        alloc,
        &[
            b"it must begin at or behind the end of the segment before it, have a length of at least 1, end at ",
            size.as_slice(),
            b" or before, and have the last word 0",
        ],
    )
}

/// Of the record at an offset.
fn segment_words(alloc: Global, bytes: &[u8], at: usize) -> Result<Bytes, NoMemory>
    ensures { IfOk result (λ text. text ≡ segment_words at (number_in bytes.now at 8)
        (number_in bytes.now (at + LENGTH_BEHIND) 4) (number_in bytes.now (at + ZERO_BEHIND) 4)
        (number_in bytes.now SIZE_AT 8)) }
{
    let length = u32_behind(bytes, at, LENGTH_BEHIND);
    let last = u32_behind(bytes, at, ZERO_BEHIND);
    let mut words = place_words(alloc, at as u64, u64_at(bytes, at))?;
    words.append(alloc, extent_words(alloc, length, last)?.as_slice())?;
    words.append(
        alloc,
        limit_words(alloc, u64_at(bytes, SIZE_AT))?.as_slice(),
    )?;
    Ok(words)
}

fn short_words(alloc: Global, length: u64) -> Result<Bytes, NoMemory>
    ensures { IfOk result (λ text. text ≡ short_words length) }
{
    let length = decimal(alloc, length)?;
    joined(
        alloc,
        &[
            b"the file ends after ",
            length.as_slice(),
            b" bytes, inside of a field, a record or the segments' bytes",
        ],
    )
}

fn extra_words(alloc: Global, end: u64) -> Result<Bytes, NoMemory>
    ensures { IfOk result (λ text. text ≡ extra_words end) }
{
    let end = decimal(alloc, end)?;
    joined(
        alloc,
        &[
            b"the file goes on behind the segments' bytes, which end at byte ",
            end.as_slice(),
        ],
    )
}

/// The bytes of a field that lies in the file.
#[tactic(auto, unfolding(axp_image::specs::Grammar::piece_at))]
fn piece_at(bytes: &[u8], at: usize, size: usize) -> Option<&[u8]>
    ensures value { IfSome result (λ piece. piece_at bytes.now at size ≡ Some piece.now) }
    ensures length { IfSome result (λ piece. length piece.now ≡ size) }
    ensures none { IsNone result → piece_at bytes.now at size ≡ None }
{
    if bytes.len() < at || bytes.len() - at < size {
        None
    } else {
        Some(&bytes[at..at + size])
    }
}

/// The number of two bytes at an offset; 0 where the file ends before.
#[tactic(auto, unfolding(axp_image::specs::Grammar::number_at))]
fn u16_at(bytes: &[u8], at: usize) -> u16
    ensures { result ≡ number_in bytes.now at 2 }
{
    match piece_at(bytes, at, 2) {
        Some(piece) => LittleEndian::read_u16(piece),
        None => 0,
    }
}

/// The number of four bytes at an offset; 0 where the file ends before.
#[tactic(auto, unfolding(axp_image::specs::Grammar::number_at))]
fn u32_at(bytes: &[u8], at: usize) -> u32
    ensures { result ≡ number_in bytes.now at 4 }
{
    match piece_at(bytes, at, 4) {
        Some(piece) => LittleEndian::read_u32(piece),
        None => 0,
    }
}

/// The same so many bytes behind an offset.
#[tactic(auto, using(crate::proofs::FieldLemmas::none_past))]
fn u32_behind(bytes: &[u8], at: usize, behind: usize) -> u32
    requires { behind ≤ ZERO_BEHIND }
    ensures { result ≡ number_in bytes.now (at + behind) 4 }
{
    if bytes.len() < at {
        0
    } else {
        u32_at(bytes, at + behind)
    }
}

/// The number of eight bytes at an offset; 0 where the file ends before.
#[tactic(auto, unfolding(axp_image::specs::Grammar::number_at))]
fn u64_at(bytes: &[u8], at: usize) -> u64
    ensures { result ≡ number_in bytes.now at 8 }
{
    match piece_at(bytes, at, 8) {
        Some(piece) => LittleEndian::read_u64(piece),
        None => 0,
    }
}
