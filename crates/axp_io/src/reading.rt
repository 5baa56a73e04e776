ghost use Rattle.std.specs.Prelude.{◌≡◌, ◌≤◌, ℕ, List, length, Option, None, IfOk, IfSome};
ghost use Rattle.std.specs.Io.{ReadsAtMost};
ghost use Rattle.std.specs.Io.KnownBytes.{ReadConsumes};
ghost use Rattle.axp_io.specs.Causes.{FetchGiven, FetchTold};
ghost use Rattle.axp_io.specs.Courses.{ReadCourse, ReadRuns, read_of};
ghost use Rattle.axp_io.specs.Courses.{UnlessMemory, IsBelowTurns, TakesOff};

use crate::FetchFault;
use crate::troubles::{Trouble, trouble_in};
use axp_base::Bytes;
use std::alloc::Global;
use std::io::Read;

/// The number of bytes that one read asks for at most.
pub(crate) const CHUNK: usize = 4096;

/// What bytes are read from.
///
/// - `remaining`: the bytes that are still to come, where they are known.
/// - `course`: what its calls will answer, in order, where that is known.
pub(crate) trait Reader {
    ghost remaining: { Self → Option (List ℕ) };

    ghost course: { Self → Option ReadCourse };

    /// Puts bytes that come next at the start of `buf` and answers how many: none only at the end,
    /// or where there is no room.
    fn read(&mut self, buf: &mut [u8]) -> Result<usize, Trouble>
        ensures bound { ReadsAtMost result buf.new }
        ensures bytes { ReadConsumes (remaining self.old) (remaining self.new) result buf.new }
        ensures course { ReadRuns (course self.old) (course self.new) result buf.new };
}

/// A reader of the standard library, whose course is not known.
#[derive(Drop)]
pub(crate) struct StandardReader<F> {
    pub(crate) inner: F,
}

impl<F: Read> Reader for StandardReader<F> {
    ghost remaining = { λ r. F.remaining r.inner };

    ghost course = { λ _. None };

    fn read(&mut self, buf: &mut [u8]) -> Result<usize, Trouble> {
        match self.inner.read(buf) {
            Ok(count) => Ok(count),
            Err(error) => Err(trouble_in(error)),
        }
    }
}

/// Reads to the end, or until one byte more than `most` came, and counts the bytes given.
///
/// A read that was interrupted is tried again; every other trouble ends the reading.
pub(crate) fn read_whole<F: Reader>(
    alloc: Global,
    file: &mut F,
    most: u64,
    given: &mut u64,
) -> Result<Bytes, FetchFault>
    ensures told { IfSome (F.remaining file.old) (λ list. FetchTold list most result) }
    ensures course { IfSome (F.course file.old)
        (λ course. IsBelowTurns course → UnlessMemory (read_of course most) result) }
    ensures most { IfOk result (λ bytes. length bytes ≤ most) }
    ensures grows { given.old ≤ given.new }
    ensures given { FetchGiven given.old given.new most result }
    ensures taken { TakesOff (F.remaining file.old) (F.remaining file.new)
        given.old given.new most }
{
    // The proof knows from this read that the count is in the range of its type.
    let _before = *given;
    let mut bytes = Bytes::empty(alloc);
    let mut chunk = [0; CHUNK];
    let mut left = most;
    // The end of the range is met only by a reader that is interrupted for ever: each other turn
    // reads a byte or more, or ends.
    for turn in 0..u64::MAX {
        // One byte more than may still come would show that the list is too long.
        let room = left.min(CHUNK as u64 - 1) as usize + 1;
        let count = match file.read(&mut chunk[..room]) {
            Ok(count) => count,
            Err(Trouble::Interrupted) => continue,
            Err(Trouble::Memory) => return Err(FetchFault::Memory),
            Err(Trouble::Fault) => return Err(FetchFault::Failed),
        };
        if count == 0 {
            return Ok(bytes);
        }
        *given = given.saturating_add(count as u64);
        if count as u64 > left {
            return Err(FetchFault::TooLong);
        }
        let Ok(()) = bytes.append(alloc, &chunk[..count]) else {
            return Err(FetchFault::Memory);
        };
        left -= count as u64;
    }
    Err(FetchFault::Failed)
}

#[cfg(test)]
mod tests {
    use super::*;
    use std::io;
    use std::io::ErrorKind;

    /// What one call of a scripted reader answers.
    #[derive(Clone, Copy)]
    enum Answer {
        Piece(&'static [u8]),
        Fails(ErrorKind),
    }

    /// A reader that gives these answers in order, and is then at its end.
    #[derive(Drop)]
    struct Script<'a> {
        answers: &'a [Answer],
        calls: usize,
    }

    impl Read for Script<'_> {
        fn read(&mut self, buf: &mut [u8]) -> io::Result<usize> {
            let answer = self.answers.get(self.calls).copied();
            self.calls = self.calls.saturating_add(1);
            match answer {
                Some(Answer::Piece(piece)) => {
                    let count = piece.len().min(buf.len());
                    buf[..count].copy_from_slice(&piece[..count]);
                    Ok(count)
                }
                Some(Answer::Fails(kind)) => Err(io::Error::from(kind)),
                None => Ok(0),
            }
        }
    }

    /// A reader whose course is known: it gives one byte a call.
    #[derive(Drop)]
    struct Course<'a> {
        rest: &'a [Result<u8, Trouble>],
    }

    impl Reader for Course<'_> {
        ghost use Rattle.std.specs.Prelude.{Some, None};

        ghost remaining = { λ _. None };

        ghost course = { λ r. Some r.rest.now };

        fn read(&mut self, buf: &mut [u8]) -> Result<usize, Trouble> {
            if buf.is_empty() {
                return Ok(0);
            }
            let Some((answer, rest)) = self.rest.split_first() else {
                return Ok(0);
            };
            self.rest = rest;
            match *answer {
                Ok(byte) => {
                    buf[0] = byte;
                    Ok(1)
                }
                Err(trouble) => Err(trouble),
            }
        }
    }

    /// Whether a script read with this limit gives the answer, and the counts of bytes and calls.
    fn reads(
        alloc: Global,
        answers: &[Answer],
        most: u64,
        want: Result<&[u8], FetchFault>,
        counts: (u64, usize),
    ) -> bool {
        let mut reader = StandardReader {
            inner: Script { answers, calls: 0 },
        };
        let mut given = 0;
        let answer = match (read_whole(alloc, &mut reader, most, &mut given), want) {
            (Ok(bytes), Ok(list)) => bytes.as_slice() == list,
            (Err(fault), Err(wanted)) => fault == wanted,
            _ => false,
        };
        answer && (given, reader.inner.calls) == counts
    }

    #[test]
    fn a_course_is_read(rt: HostRuntime) {
        let mut reader = Course {
            rest: &[Err(Trouble::Interrupted), Ok(1), Err(Trouble::Fault), Ok(2)],
        };
        let mut given = 0;
        let answer = read_whole(rt.alloc(), &mut reader, 9, &mut given);
        assert!(rt; matches!(answer, Err(FetchFault::Failed)));
        assert_eq!(rt; (given, reader.rest.len()), (1, 1));
    }

    #[test]
    fn a_script_is_read_to_its_end(rt: HostRuntime) {
        let alloc = rt.alloc();
        let interrupted = Answer::Fails(ErrorKind::Interrupted);
        let (first, second) = (Answer::Piece(b"ab"), Answer::Piece(b"c"));
        let whole = [interrupted, first, interrupted, interrupted, second];
        let broken = [first, Answer::Fails(ErrorKind::IsADirectory), second];
        let full = [first, Answer::Fails(ErrorKind::OutOfMemory), second];

        assert!(rt; reads(alloc, &whole, 3, Ok(b"abc"), (3, 6)), "to the end");
        assert!(rt;
            reads(alloc, &whole, 2, Err(FetchFault::TooLong), (3, 5)),
            "one byte more"
        );
        assert!(rt;
            reads(alloc, &whole, 0, Err(FetchFault::TooLong), (1, 2)),
            "no bytes wanted"
        );
        assert!(rt;
            reads(alloc, &broken, 9, Err(FetchFault::Failed), (2, 2)),
            "an error ends"
        );
        assert!(rt;
            reads(alloc, &full, 9, Err(FetchFault::Memory), (2, 2)),
            "memory"
        );
    }
}
