ghost use Rattle.std.specs.Prelude.{◌≡◌, ◌≤◌, ℕ, List, length, Option, None, IfSome, OnOk};
ghost use Rattle.std.specs.Io.{WritesAtMost};
ghost use Rattle.std.specs.Io.KnownBytes.{WriteAppends};
ghost use Rattle.axp_io.specs.Causes.{raised, PutCount, PutTaken};
ghost use Rattle.axp_io.specs.Courses.{WriteCourse, WriteRuns, WritesSo, IsBelowTurns, CourseAfter};
ghost use Rattle.axp_io.specs.Streams.{fresh_stream};

use crate::SinkFault;
use crate::troubles::{Trouble, trouble_in};
use std::io::Write;
use std::marker::Model;

/// What bytes are written to.
///
/// - `contents`: the bytes that it holds, where they are known.
/// - `course`: what its calls will answer, in order, where that is known.
pub(crate) trait Writer {
    ghost contents: { Self → Option (List ℕ) };

    ghost course: { Self → Option WriteCourse };

    /// Takes bytes from the start of `buf`, after those that it holds, and answers how many.
    fn write(&mut self, buf: &[u8]) -> Result<usize, Trouble>
        ensures bound { WritesAtMost result buf.now }
        ensures bytes { WriteAppends (contents self.old) (contents self.new) result buf.now }
        ensures course { WriteRuns (course self.old) (course self.new) result buf.now };
}

/// A writer of the standard library, whose course is not known.
#[derive(Drop)]
pub(crate) struct StandardWriter<W> {
    pub(crate) inner: W,
}

impl<W: Write> Writer for StandardWriter<W> {
    ghost contents = { λ w. W.contents w.inner };

    ghost course = { λ _. None };

    fn write(&mut self, buf: &[u8]) -> Result<usize, Trouble> {
        match self.inner.write(buf) {
            Ok(count) => Ok(count),
            Err(error) => Err(trouble_in(error)),
        }
    }
}

/// What a sink over a writer counts.
#[derive(Drop)]
pub(crate) struct Tally {
    pub(crate) faults: u64,
    pub(crate) puts: u64,
}

impl Model for Tally {
    ghost use Rattle.axp_io.specs.Streams.{StreamView};

    ghost Value = { StreamView };

    ghost view = { λ t. record { faults = t.faults; puts = t.puts } };
}

impl Tally {
    /// Nothing was put yet.
    pub(crate) fn new() -> Tally
        ensures { result ≡ fresh_stream }
    {
        Tally { faults: 0, puts: 0 }
    }

    /// Counts a put that begins.
    pub(crate) fn begin_put(&mut self)
        ensures { self.new ≡ record self.old { puts = raised self.old.puts 1 } }
    {
        self.puts = self.puts.saturating_add(1);
    }

    /// Counts the fault where an answer is a failure, and gives the answer back.
    pub(crate) fn answer(&mut self, answer: Result<(), SinkFault>) -> Result<(), SinkFault>
        ensures same { result ≡ answer }
        ensures faults_grow { self.old.faults ≤ self.new.faults }
        ensures count { PutCount self.old.faults self.new.faults answer }
        ensures puts { self.new.puts ≡ self.old.puts }
    {
        if let Err(SinkFault::Failed) = answer {
            self.faults = self.faults.saturating_add(1);
        }
        answer
    }
}

/// Writes a piece; after a failure a front of it may have been written.
///
/// A write that was interrupted is tried again; every other trouble is a failure, and so is a write
/// that takes nothing.
pub(crate) fn write_whole<W: Writer>(to: &mut W, piece: &[u8]) -> Result<(), SinkFault>
    ensures taken { PutTaken (W.contents to.old) (W.contents to.new) piece.now result }
    ensures course { IfSome (W.course to.old)
        (λ course. IsBelowTurns course → WritesSo course (length piece.now) result) }
    ensures left { OnOk result (CourseAfter (W.course to.old) (W.course to.new) (length piece.now)) }
{
    let mut rest = piece;
    // The end of the range is met only by a writer that is interrupted for ever: each other turn
    // writes a byte or more, or ends.
    for turn in 0..u64::MAX {
        if rest.is_empty() {
            return Ok(());
        }
        let count = match to.write(rest) {
            Ok(count) => count,
            Err(Trouble::Interrupted) => continue,
            Err(Trouble::Memory) => return Err(SinkFault::Failed),
            Err(Trouble::Fault) => return Err(SinkFault::Failed),
        };
        if count == 0 {
            return Err(SinkFault::Failed);
        }
        rest = &rest[count..];
    }
    Err(SinkFault::Failed)
}

#[cfg(test)]
mod tests {
    use super::*;
    use std::io;
    use std::io::ErrorKind;

    /// What one call of a scripted writer answers.
    #[derive(Clone, Copy)]
    enum Answer {
        /// Takes so many bytes at most.
        Takes(usize),
        Fails(ErrorKind),
    }

    /// A writer that gives these answers in order, and then takes nothing.
    #[derive(Drop)]
    struct Script<'a> {
        answers: &'a [Answer],
        calls: usize,
        taken: [u8; 8],
        length: usize,
    }

    impl Write for Script<'_> {
        fn write(&mut self, buf: &[u8]) -> io::Result<usize> {
            let answer = self.answers.get(self.calls).copied();
            self.calls = self.calls.saturating_add(1);
            match answer {
                Some(Answer::Takes(most)) => {
                    let count = most.min(buf.len());
                    for byte in &buf[..count] {
                        if self.length < self.taken.len() {
                            self.taken[self.length] = *byte;
                            self.length += 1;
                        }
                    }
                    Ok(count)
                }
                Some(Answer::Fails(kind)) => Err(io::Error::from(kind)),
                None => Ok(0),
            }
        }

        fn flush(&mut self) -> io::Result<()> {
            Ok(())
        }
    }

    /// Whether writing `abc` gives the answer, the bytes taken, the faults and the calls.
    fn writes(
        answers: &[Answer],
        want: Result<(), SinkFault>,
        taken: &[u8],
        counts: (u64, usize),
    ) -> bool {
        let inner = Script {
            answers,
            calls: 0,
            taken: [0; 8],
            length: 0,
        };
        let mut writer = StandardWriter { inner };
        let mut tally = Tally::new();
        let answer = tally.answer(write_whole(&mut writer, b"abc"));
        let length = writer.inner.length.min(8);
        answer == want
            && &writer.inner.taken[..length] == taken
            && (tally.faults, writer.inner.calls) == counts
    }

    #[test]
    fn a_piece_goes_to_a_script(rt: HostRuntime) {
        let interrupted = Answer::Fails(ErrorKind::Interrupted);
        let (two, nothing) = (Answer::Takes(2), Answer::Takes(0));
        let broken = Answer::Fails(ErrorKind::BrokenPipe);
        let failed = Err(SinkFault::Failed);

        assert!(rt;
            writes(
                &[interrupted, two, interrupted, two],
                Ok(()),
                b"abc",
                (0, 4)
            ),
            "whole"
        );
        assert!(rt;
            writes(&[two, broken, two], failed, b"ab", (1, 2)),
            "an error ends"
        );
        assert!(rt;
            writes(&[two, nothing, two], failed, b"ab", (1, 2)),
            "no byte taken"
        );
    }
}
