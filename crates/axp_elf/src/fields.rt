//! The fields of an executable's file header, each tested where it is read.
ghost use Rattle.std.specs.Prelude.{◌≡◌, ◌+◌, ◌<◌, ◌≤◌, true, false, length, None};
ghost use Rattle.std.specs.Prelude.{IfOk, IfErr, OnOk, OnErr};
ghost use Rattle.axp_image.specs.Faults.{number_in};
ghost use Rattle.axp_image.specs.Grammar.{is_entry};
ghost use Rattle.axp_elf.specs.Faults.{Names, exact_part, fault_of, file_parts, first_of};
ghost use Rattle.axp_elf.specs.declared.faults.ElfError.TheVariants.{Bad};
ghost use Rattle.axp_elf.specs.declared.faults.ElfField.TheVariants.{Short};

use crate::faults::{ElfError, ElfField};
use crate::layout::{
    CLASS, CLASS_AT, COUNT_AT, DATA, DATA_AT, ENTRY_AT, EXECUTABLE, HEADER_BYTES, HEADER_SIZE_AT,
    IDENTITY_AT, MACHINE, MACHINE_AT, MAGIC, MAGIC_AT, MAX_HEADERS, START_AT, TYPE_AT, VERSION,
    VERSION_AT,
};
use axp_image::{INSTRUCTION_BYTES, KSEG, MAX_MEMORY, PAGE_BYTES};
use byteorder::{ByteOrder, LittleEndian};

/// What the file header says of a program.
#[derive(Clone, Copy)]
pub(crate) struct FileHeader {
    /// Where every processor starts.
    pub(crate) entry: u64,
    /// The offset of the first program header.
    pub(crate) start: u64,
    /// The number of program headers.
    pub(crate) count: u64,
}

/// An error where the `size` bytes from an offset are not all in the file.
pub(crate) fn check_within(bytes: &[u8], at: u64, size: u64) -> Result<(), ElfError>
    ensures within { OnOk result (at + size ≤ length bytes.now) }
    ensures short { IfErr result (λ e. e ≡ Bad Short (length bytes.now)) }
    ensures lacks { OnErr result (length bytes.now < at + size) }
{
    let length = bytes.len() as u64;
    if length < at || length - at < size {
        return Err(ElfError::Bad {
            field: ElfField::Short,
            offset: length,
        });
    }
    Ok(())
}

/// The number of `size` bytes at an offset.
#[tactic(auto, unfolding(axp_image::specs::Grammar::number_at, axp_image::specs::Grammar::piece_at))]
pub(crate) fn number_in(bytes: &[u8], at: usize, size: usize) -> u64
    requires least { 1 ≤ size }
    requires most { size ≤ 8 }
    requires within { at + size ≤ length bytes.now }
    ensures { result ≡ number_in bytes.now at size }
{
    LittleEndian::read_uint(&bytes[at..at + size], size)
}

/// The fault of what stands at an offset, unless it passed its test.
pub(crate) fn check(passes: bool, field: ElfField, at: u64) -> Result<(), ElfError>
    ensures ok { OnOk result (passes ≡ true) }
    ensures err { IfErr result (λ e. e ≡ Bad field at) }
    ensures fails { OnErr result (passes ≡ false) }
{
    if passes {
        Ok(())
    } else {
        Err(ElfError::Bad { field, offset: at })
    }
}

/// The number of `size` bytes at an offset; an error where the file ends before.
fn read_number(bytes: &[u8], at: usize, size: usize) -> Result<u64, ElfError>
    requires least { 1 ≤ size }
    requires most { size ≤ 8 }
    ensures value { IfOk result (λ n. n ≡ number_in bytes.now at size) }
    ensures within { OnOk result (at + size ≤ length bytes.now) }
    ensures short { IfErr result (λ e. e ≡ Bad Short (length bytes.now)) }
    ensures lacks { OnErr result (length bytes.now < at + size) }
{
    check_within(bytes, at as u64, size as u64)?;
    Ok(number_in(bytes, at, size))
}

/// An error where the field of `size` bytes at an offset is another number, or cut.
fn check_exact(
    bytes: &[u8],
    at: usize,
    size: usize,
    field: ElfField,
    wanted: u64,
) -> Result<(), ElfError>
    requires least { 1 ≤ size }
    requires most { size ≤ 8 }
    ensures sound { OnOk result
        (fault_of (length bytes.now) (exact_part bytes.now at size field wanted) ≡ None) }
    ensures fault { IfErr result
        (Names (fault_of (length bytes.now) (exact_part bytes.now at size field wanted))) }
{
    let number = read_number(bytes, at, size)?;
    check(number == wanted, field, at as u64)
}

/// Whether processors may start at this address of a memory of `memory` bytes.
fn is_entry(memory: u64, entry: u64) -> bool
    requires least { PAGE_BYTES ≤ memory }
    requires most { memory ≤ MAX_MEMORY }
    ensures { result ≡ is_entry memory entry }
{
    entry % INSTRUCTION_BYTES == 0 && KSEG <= entry && entry <= KSEG + memory - INSTRUCTION_BYTES
}

/// The file header of an executable for a memory of `memory` bytes; an error for its first field at
/// fault.
pub(crate) fn read_file_header(bytes: &[u8], memory: u64) -> Result<FileHeader, ElfError>
    requires least { PAGE_BYTES ≤ memory }
    requires most { memory ≤ MAX_MEMORY }
    ensures entry { IfOk result (λ header. header.entry ≡ number_in bytes.now ENTRY_AT 8) }
    ensures start { IfOk result (λ header. header.start ≡ number_in bytes.now START_AT 8) }
    ensures count { IfOk result (λ header. header.count ≡ number_in bytes.now COUNT_AT 2) }
    ensures entry_good { IfOk result (λ header. is_entry memory header.entry ≡ true) }
    ensures few { IfOk result (λ header. header.count ≤ MAX_HEADERS) }
    ensures sound { OnOk result (first_of (length bytes.now) (file_parts bytes.now memory) ≡ None) }
    ensures fault { IfErr result
        (Names (first_of (length bytes.now) (file_parts bytes.now memory))) }
{
    check_exact(bytes, MAGIC_AT, 4, ElfField::Magic, MAGIC)?;
    check_exact(bytes, CLASS_AT, 1, ElfField::Class, CLASS)?;
    check_exact(bytes, DATA_AT, 1, ElfField::Data, DATA)?;
    check_exact(bytes, IDENTITY_AT, 1, ElfField::Version, VERSION)?;
    check_exact(bytes, TYPE_AT, 2, ElfField::Type, EXECUTABLE)?;
    check_exact(bytes, MACHINE_AT, 2, ElfField::Machine, MACHINE)?;
    check_exact(bytes, VERSION_AT, 4, ElfField::Version, VERSION)?;
    let entry = read_number(bytes, ENTRY_AT, 8)?;
    check(is_entry(memory, entry), ElfField::Entry, ENTRY_AT as u64)?;
    let start = read_number(bytes, START_AT, 8)?;
    check_exact(bytes, HEADER_SIZE_AT, 2, ElfField::Headers, HEADER_BYTES)?;
    let count = read_number(bytes, COUNT_AT, 2)?;
    check(count <= MAX_HEADERS, ElfField::Headers, COUNT_AT as u64)?;
    Ok(FileHeader {
        entry,
        start,
        count,
    })
}
