//! The image of an executable: its file, or the line of the executable's first fault.
ghost use Rattle.axp_elf.specs.Executables.{IsSetting};
ghost use Rattle.axp_top.specs.ImageFiles.{bad_elf, elf_answer};
ghost use Rattle.axp_top.specs.Outside.{sink_state};
ghost use Rattle.axp_top.specs.Printing.{Ends};

use crate::Status;
use crate::image_files::print_image;
use crate::printing::refuse;
use axp_elf::{ElfError, ElfField, read_elf};
use axp_io::Sink;
use axp_trace::write_bad_elf;
use std::alloc::Global;

/// Refuses an executable with this first fault.
fn refuse_elf<K: Sink>(alloc: Global, sink: &mut K, field: ElfField, offset: u64) -> Status
    ensures { let seen = sink_state K.taken K.faults K.puts in
        Ends (seen sink.old) (seen sink.new) (bad_elf (field, offset)) result }
{
    let line = write_bad_elf(field.name().as_bytes(), offset);
    refuse(alloc, sink, line, Status::BadElf { field, offset })
}

/// Prints the image that an executable is read as, for these numbers: the size of memory, the stack
/// word, and the page of the page table.
pub fn print_executable<K: Sink>(
    alloc: Global,
    sink: &mut K,
    bytes: &[u8],
    numbers: (u64, u64, u64),
) -> Status
    requires { IsSetting numbers.0 numbers.1 numbers.2 }
    ensures { let seen = sink_state K.taken K.faults K.puts in
        Ends (seen sink.old) (seen sink.new)
        (elf_answer bytes.now numbers.0 numbers.1 numbers.2) result }
{
    let (memory, stack, table) = numbers;
    match read_elf(alloc, bytes, memory, stack, table) {
        Ok(image) => print_image(alloc, sink, &image),
        Err(ElfError::Bad { field, offset }) => refuse_elf(alloc, sink, field, offset),
        Err(ElfError::Memory) => Status::Memory,
    }
}
