//! What a program header says, and whether a memory has room for it.
ghost use Rattle.std.specs.Prelude.{◌≡◌, ◌+◌, ◌*◌, ◌<◌, ◌≤◌, length, None, IfOk, IfErr, OnOk, OnErr};
ghost use Rattle.std.specs.Option.{option_map};
ghost use Rattle.axp_elf.specs.Headers.{end_past, has_bytes, header_at, header_in, is_dynamic};
ghost use Rattle.axp_elf.specs.Headers.{is_loaded, is_placed, physical};
ghost use Rattle.axp_elf.specs.Faults.{Names, fault_at, header_fault};
ghost use Rattle.axp_elf.specs.declared.faults.ElfError.TheVariants.{Bad};
ghost use Rattle.axp_elf.specs.declared.faults.ElfField.TheVariants.{Short};
ghost use Rattle.axp_elf.specs.declared.layout.TheConstants.{HEADER_BYTES, MAX_HEADERS};

use crate::faults::{ElfError, ElfField};
use crate::fields::{check, check_within, number_in};
use crate::layout::{
    ADDRESS_AT, DYNAMIC, FILE_SIZE_AT, HEADER_BYTES, INTERPRETER, KIND_AT, LOAD, MEMORY_SIZE_AT,
    OFFSET_AT,
};
use axp_image::{KSEG, MAX_SEGMENTS};

/// What a program header says.
#[derive(Clone, Copy)]
pub(crate) struct ProgramHeader {
    kind: u64,
    /// Where its bytes stand in the file.
    pub(crate) offset: u64,
    address: u64,
    /// How many bytes it has in the file.
    pub(crate) file_size: u64,
    memory_size: u64,
}

impl ProgramHeader {
    /// Whether it asks for dynamic linking or a program interpreter.
    fn is_dynamic(self) -> bool
        ensures { result ≡ is_dynamic self }
    {
        self.kind == DYNAMIC || self.kind == INTERPRETER
    }

    /// Whether it stands for bytes of memory.
    fn is_loaded(self) -> bool
        ensures { result ≡ is_loaded self }
    {
        self.kind == LOAD && 0 < self.memory_size
    }

    /// Whether it stands for bytes of memory of which the file has some.
    pub(crate) fn has_bytes(self) -> bool
        ensures { result ≡ has_bytes self }
    {
        self.is_loaded() && 0 < self.file_size
    }

    /// The physical address of its first byte.
    pub(crate) fn physical(self) -> u64
        requires { KSEG ≤ self.address }
        ensures { result ≡ physical self }
    {
        self.address - KSEG
    }

    /// Whether it may stand in a memory of `memory` bytes at or above `from`, behind `before` loaded
    /// headers that have bytes in the file.
    fn is_placed(self, memory: u64, from: u64, before: u32) -> bool
        ensures { result ≡ is_placed memory from before self }
    {
        self.file_size <= self.memory_size
            && KSEG <= self.address
            && self.physical() <= memory
            && self.memory_size <= memory - self.physical()
            && from <= self.physical()
            && (before < MAX_SEGMENTS || self.file_size == 0)
    }

    /// An error at this offset where no header may be like this in a memory of `memory` bytes, behind
    /// headers that end at `from` and of which `before` have bytes in the file.
    pub(crate) fn check(self, memory: u64, from: u64, before: u32, at: u64) -> Result<(), ElfError>
        ensures sound { OnOk result (header_fault memory from before self ≡ None) }
        ensures fault { IfErr result (Names (fault_at at (header_fault memory from before self))) }
    {
        check(!self.is_dynamic(), ElfField::Dynamic, at)?;
        let is_sound = !self.is_loaded() || self.is_placed(memory, from, before);
        check(is_sound, ElfField::Segment, at)
    }

    /// The end in memory of the last loaded header up to this one, where those before it end at
    /// `from`.
    pub(crate) fn end_past(self, memory: u64, from: u64, before: u32) -> u64
        requires { header_fault memory from before self ≡ None }
        ensures { result ≡ end_past from self }
    {
        if self.is_loaded() {
            self.physical() + self.memory_size
        } else {
            from
        }
    }
}

/// Program header `n`, where the first stands at `start`; an error where the file ends before its
/// end.
#[tactic(auto, unfolding(crate::specs::Headers::header_in))]
pub(crate) fn read_header(bytes: &[u8], start: u64, n: u64) -> Result<ProgramHeader, ElfError>
    requires { n < MAX_HEADERS }
    ensures value { IfOk result (λ header. header ≡ header_in bytes.now (header_at start n)) }
    ensures within { OnOk result (header_at start n + HEADER_BYTES ≤ length bytes.now) }
    ensures short { IfErr result (λ e. e ≡ Bad Short (length bytes.now)) }
    ensures lacks { OnErr result (length bytes.now < header_at start n + HEADER_BYTES) }
{
    check_within(bytes, start, (n + 1) * HEADER_BYTES)?;
    let at = (start + n * HEADER_BYTES) as usize;
    Ok(ProgramHeader {
        kind: number_in(bytes, at + KIND_AT, 4),
        offset: number_in(bytes, at + OFFSET_AT, 8),
        address: number_in(bytes, at + ADDRESS_AT, 8),
        file_size: number_in(bytes, at + FILE_SIZE_AT, 8),
        memory_size: number_in(bytes, at + MEMORY_SIZE_AT, 8),
    })
}
