ghost use Rattle.std.specs.Prelude.{◌≡◌};

use axp_check::Rule;
use axp_elf::ElfField;
use axp_image::ImageKind;

/// How the work ended, and the number that the process ends with (docs/FORMATS.md, "The status").
#[derive(Clone, Copy, Debug, PartialEq, Eq)]
pub enum Status {
    /// The work was done, and all of its text was taken.
    Done,
    /// The words are no command; the line `axp: usage` was taken, and nothing before it.
    Usage,
    /// The desk failed; the line `axp: read fault` was taken, and nothing before it.
    ReadFault,
    /// The sink failed; what it took is a front of the text or, where the desk had failed, of the
    /// line of a read fault.
    WriteFault,
    /// The image file is no image; a line with this was taken, and nothing before it.
    BadImage {
        /// What its first fault is.
        kind: ImageKind,
        /// Where that lies, in bytes from the file's start.
        offset: u64,
    },
    /// The line of this number, from 1, is the first that is outside the grammar. What comes of the
    /// lines before it was taken, nothing where it is the first line, and a line that says so.
    BadTrace {
        /// The number of the line.
        line: u32,
    },
    /// The event of this number, from 1, is the first that is not legal; the trace of those before
    /// it was taken, and a line that says so.
    NotLegal {
        /// The number of the event.
        event: u32,
    },
    /// The line of this number, from 1, is the first of a trace that is another than the right one.
    /// The header and the lines of the events before it were taken, and three lines: that it
    /// differs, the trace's line, and the right one.
    Differs {
        /// The number of the line.
        line: u32,
    },
    /// The accesses of a trace break a rule of shared memory; a line with this was taken, and nothing
    /// before it.
    Violated {
        /// The least rule that is broken.
        rule: Rule,
        /// The number of the first access, 0 where there is none ([`axp_check::Verdict`]).
        first: u32,
        /// The number of the second.
        second: u32,
    },
    /// The events end, so many of them, and the machine is not complete: a processor is not
    /// finished, or a write waits in its buffer. The trace of the events was taken, and a line that
    /// says so.
    Incomplete {
        /// How many events there are.
        event: u32,
    },
    /// A file is longer than it may be; the line `axp: too long` was taken, and nothing before it.
    TooLong,
    /// The file is no executable that can be loaded; a line with this was taken, and nothing before
    /// it.
    BadElf {
        /// What its first fault is.
        field: ElfField,
        /// Where that lies, in bytes from the file's start.
        offset: u64,
    },
    /// The file is no assembler source that gives an image: the line of this number, from 1, is at
    /// fault. A line with this was taken, and nothing before it.
    BadSource {
        /// The number of the line.
        line: u32,
    },
    /// Memory was not found; what was taken is a front of the text or, where the desk had failed,
    /// of the line of a read fault.
    Memory,
}

impl Status {
    ghost use Rattle.axp_top.specs.Statuses.{number_of_status};

    /// The number that the process ends with.
    pub fn number(&self) -> u8
        ensures { result ≡ number_of_status self.now }
    {
        match self {
            Status::Done => 0,
            Status::Usage => 1,
            Status::ReadFault => 2,
            Status::WriteFault => 3,
            Status::BadImage { .. } => 4,
            Status::BadTrace { .. } => 5,
            Status::NotLegal { .. } => 6,
            Status::Differs { .. } => 7,
            Status::Violated { .. } => 8,
            Status::Incomplete { .. } => 9,
            Status::TooLong => 10,
            Status::Memory => 11,
            Status::BadElf { .. } => 14,
            Status::BadSource { .. } => 15,
        }
    }
}
