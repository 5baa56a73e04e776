ghost use Rattle.std.specs.Prelude.{◌≡◌};
ghost use Rattle.axp_image.specs.declared.faults.ImageError.TheVariants.{Memory};
ghost use Rattle.axp_image.specs.Faults.{kind_name};

use axp_base::NoMemory;
use std::alloc::AllocError;
use thiserror::Error;

/// What is wrong with an image file. `docs/FORMATS.md`, "The image file", has the parts of a file,
/// each with the kind of its fault.
#[derive(Clone, Copy, Debug, PartialEq, Eq)]
pub enum ImageKind {
    /// The magic number is another.
    Magic,
    /// The version is not 1.
    Version,
    /// There are too many segments.
    Count,
    /// Memory may not have this size.
    Size,
    /// The entry address is no address of an instruction in memory.
    Entry,
    /// The page table's page is not in memory.
    Table,
    /// A segment is empty, out of order or not in memory, or its record does not end with zeros.
    Segment,
    /// The file ends inside a field, a record or the segments' bytes.
    Short,
    /// The file goes on behind the segments' bytes.
    Extra,
}

impl ImageKind {
    /// The word by which the kind is printed.
    pub fn name(self) -> &'static str
        ensures { result.now ≡ kind_name self }
    {
        match self {
            ImageKind::Magic => "magic",
            ImageKind::Version => "version",
            ImageKind::Count => "count",
            ImageKind::Size => "size",
            ImageKind::Entry => "entry",
            ImageKind::Table => "table",
            ImageKind::Segment => "segment",
            ImageKind::Short => "short",
            ImageKind::Extra => "extra",
        }
    }
}

/// Why an image file was not read.
#[derive(Debug, Drop, PartialEq, Eq, Error)]
pub enum ImageError {
    /// The file is no image. This is its first fault, with the offset in bytes at which it lies: a
    /// field's or record's own; the file's length where the file is short; the end of the segments'
    /// bytes where the file goes on.
    #[error("bad image {} at {offset}", .kind.name())]
    Bad { kind: ImageKind, offset: u64 },
    /// Memory was not found.
    #[error("out of memory")]
    Memory,
}

impl From<AllocError> for ImageError {
    ghost from_gives = { λ _ e. e ≡ Memory };

    fn from(_error: AllocError) -> ImageError {
        ImageError::Memory
    }
}

impl From<NoMemory> for ImageError {
    ghost from_gives = { λ _ e. e ≡ Memory };

    fn from(_error: NoMemory) -> ImageError {
        ImageError::Memory
    }
}
