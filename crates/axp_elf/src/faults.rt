ghost use Rattle.std.specs.Prelude.{◌≡◌};
ghost use Rattle.axp_elf.specs.declared.faults.ElfError.TheVariants.{Memory};
ghost use Rattle.axp_elf.specs.Faults.{field_name};

use axp_base::NoMemory;
use thiserror::Error;

/// What is wrong with an executable. `docs/FORMATS.md`, "ELF executables", has the parts of a file,
/// each with its fault.
#[derive(Clone, Copy, Debug, PartialEq, Eq)]
pub enum ElfField {
    /// The file does not begin as an ELF file.
    Magic,
    /// Its words are not of 64 bits.
    Class,
    /// Its numbers do not have their lowest byte first.
    Data,
    /// The version, of the identification or of the format, is not 1.
    Version,
    /// The file is no executable.
    Type,
    /// The executable is for another machine.
    Machine,
    /// The entry address is no address of an instruction in memory.
    Entry,
    /// A program header has another size, or there are too many.
    Headers,
    /// A program header asks for dynamic linking or a program interpreter.
    Dynamic,
    /// A segment has more bytes in the file than in memory, is not in memory or out of order, or is
    /// one too many.
    Segment,
    /// The file ends inside a field, a program header or a segment's bytes.
    Short,
}

impl ElfField {
    /// The word by which the field is printed.
    pub fn name(self) -> &'static str
        ensures { result.now ≡ field_name self }
    {
        match self {
            ElfField::Magic => "magic",
            ElfField::Class => "class",
            ElfField::Data => "data",
            ElfField::Version => "version",
            ElfField::Type => "type",
            ElfField::Machine => "machine",
            ElfField::Entry => "entry",
            ElfField::Headers => "headers",
            ElfField::Dynamic => "dynamic",
            ElfField::Segment => "segment",
            ElfField::Short => "short",
        }
    }
}

/// Why an executable was not read.
#[derive(Debug, Drop, PartialEq, Eq, Error)]
pub enum ElfError {
    /// The file is no executable that can be loaded. This is its first fault, with the offset in
    /// bytes at which it lies: a field's or program header's own, or the file's length where the
    /// file is short.
    #[error("bad executable {} at {offset}", .field.name())]
    Bad { field: ElfField, offset: u64 },
    /// Memory was not found.
    #[error("out of memory")]
    Memory,
}

impl From<NoMemory> for ElfError {
    ghost from_gives = { λ _ e. e ≡ Memory };

    fn from(_error: NoMemory) -> ElfError {
        ElfError::Memory
    }
}
