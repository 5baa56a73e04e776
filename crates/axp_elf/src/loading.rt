//! The program headers in order: each is tested, and its bytes put into the image.
ghost use Rattle.std.specs.Prelude.{◌≡◌, ◌+◌, ◌*◌, ◌/◌, ◌%◌, ◌<◌, ◌≤◌, true, length, Some, None};
ghost use Rattle.std.specs.Prelude.{IfOk, IfErr, OnOk};
ghost use Rattle.axp_image.specs.Contents.{IsValid, last_end, with_segment};
ghost use Rattle.axp_image.specs.declared.limits.TheConstants.{KSEG, MAX_SEGMENTS};
ghost use Rattle.axp_elf.specs.Headers.{end_past, header_at, header_in, physical, segment_in};
ghost use Rattle.axp_elf.specs.Faults.{Names, fault_of, first_fault, untested_part};
ghost use Rattle.axp_elf.specs.Executables.{image_of, parts_fault, with_header};
ghost use Rattle.axp_elf.specs.declared.layout.TheConstants.{MAX_HEADERS};

use crate::faults::ElfError;
use crate::fields::{check_within, read_file_header};
use crate::headers::{ProgramHeader, read_header};
use crate::layout::HEADER_BYTES;
use axp_image::{Image, MAX_MEMORY, PAGE_BYTES};
use std::alloc::Global;

/// Puts the bytes of a header into the image; an error where the file ends before.
#[tactic(auto, unfolding(crate::specs::Headers::segment_in))]
fn add_bytes(
    alloc: Global,
    image: &mut Image,
    bytes: &[u8],
    header: ProgramHeader,
) -> Result<(), ElfError>
    requires not_empty { 1 ≤ header.file_size }
    requires room { length image.old.segments < MAX_SEGMENTS }
    requires in_kernel { KSEG ≤ header.address }
    requires behind { last_end image.old.segments ≤ physical header }
    requires within { physical header + header.file_size ≤ image.old.size }
    ensures added { OnOk result
        (image.new ≡ with_segment image.old (segment_in bytes.now header)) }
    ensures in_file { OnOk result (header.offset + header.file_size ≤ length bytes.now) }
    ensures fault { IfErr result
        (Names (fault_of (length bytes.now) (untested_part header.offset header.file_size))) }
{
    check_within(bytes, header.offset, header.file_size)?;
    let start = header.offset as usize;
    let own = &bytes[start..start + header.file_size as usize];
    image.add(alloc, header.physical(), own)?;
    Ok(())
}

/// Tests header `n` and puts its bytes into the image, behind headers that end at `from`. Gives the
/// end of the last loaded header.
fn load_header(
    alloc: Global,
    image: &mut Image,
    bytes: &[u8],
    start: u64,
    n: u64,
    from: u64,
) -> Result<u64, ElfError>
    requires few { n < MAX_HEADERS }
    requires behind { last_end image.old.segments ≤ from }
    ensures loaded { OnOk result
        (image.new ≡ with_header bytes.now image.old (header_in bytes.now (header_at start n))) }
    ensures end { IfOk result
        (λ end. end ≡ end_past from (header_in bytes.now (header_at start n))) }
    ensures sound { OnOk result (parts_fault bytes.now image.old from (header_at start n) ≡ None) }
    ensures fault { IfErr result
        (Names (parts_fault bytes.now image.old from (header_at start n))) }
{
    let header = read_header(bytes, start, n)?;
    let memory = image.size();
    let before = image.segments();
    header.check(memory, from, before, start + n * HEADER_BYTES)?;
    if header.has_bytes() {
        add_bytes(alloc, image, bytes, header)?;
    }
    Ok(header.end_past(memory, from, before))
}

/// Reads an executable as an image of a memory of `memory` bytes, with this stack word and page of
/// the page table. `docs/FORMATS.md` has its form under "ELF executables". A file that is none is
/// answered by its first fault.
pub fn read_elf(
    alloc: Global,
    bytes: &[u8],
    memory: u64,
    stack: u64,
    table: u64,
) -> Result<Image, ElfError>
    requires whole_pages { memory % PAGE_BYTES ≡ 0 }
    requires least_memory { PAGE_BYTES ≤ memory }
    requires most_memory { memory ≤ MAX_MEMORY }
    requires table_page { table < memory / PAGE_BYTES }
    ensures read { IfOk result (λ image. image_of bytes.now memory stack table ≡ Some image) }
    ensures valid { IfOk result IsValid }
    ensures fault { IfErr result (Names (first_fault bytes.now memory)) }
{
    let header = read_file_header(bytes, memory)?;
    let mut image = Image::start(alloc, memory, header.entry, stack, table)?;
    let mut from = 0;
    for n in 0..header.count {
        from = load_header(alloc, &mut image, bytes, header.start, n, from)?;
    }
    Ok(image)
}
