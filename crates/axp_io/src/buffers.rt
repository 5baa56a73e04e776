ghost use Rattle.std.specs.Prelude.{◌≡◌, ◌≤◌, ◌++◌, ◌+◌, [], length, IfSome, OnOk, OnErr};
ghost use Rattle.std.specs.Io.KnownBytes.{Appends, append_known};
ghost use Rattle.axp_io.specs.Causes.{AppendsFront, PutTaken};
ghost use Rattle.axp_io.specs.Courses.{WritesSo, IsBelowTurns, CourseAfter, FailsOnlySo};
ghost use Rattle.axp_io.specs.Streams.{Kept};
ghost use Rattle.axp_io.specs.declared.buffers.TheConstants.{OUT_BUFFER_BYTES};

use crate::SinkFault;
use crate::writing::{Writer, write_whole};
use std::alloc::Global;
use std::marker::Model;

/// How many bytes wait at most.
pub(crate) const OUT_BUFFER_BYTES: usize = 65_536;

/// Bytes that wait so that they are written together.
#[derive(Drop)]
pub(crate) struct OutBuffer {
    waiting: Vec<u8>,
}

impl Model for OutBuffer {
    ghost use Rattle.std.specs.Prelude.{◌≤◌, List, ℕ, length};
    ghost use Rattle.axp_io.specs.declared.buffers.TheConstants.{OUT_BUFFER_BYTES};

    ghost Value = { List ℕ };

    ghost view = { λ b. b.waiting.items };

    ghost invariant = { λ b. length b.waiting.items ≤ OUT_BUFFER_BYTES };
}

impl OutBuffer {
    /// Nothing waits yet.
    pub(crate) fn new(alloc: Global) -> OutBuffer
        ensures { result ≡ [] }
    {
        OutBuffer {
            waiting: Vec::new(alloc),
        }
    }

    /// Takes a piece after what waits. Where it does not fit, or memory is not found for it, what
    /// waits is written first, and a piece that cannot wait even then is written at once.
    pub(crate) fn put<W: Writer>(&mut self, to: &mut W, piece: &[u8]) -> Result<(), SinkFault>
        ensures taken { OnOk result (Appends (append_known (W.contents to.old) self.old)
            (append_known (W.contents to.new) self.new) piece.now) }
        ensures failed { OnErr result
            (AppendsFront (W.contents to.old) (W.contents to.new) (self.old ++ piece.now)) }
        ensures none_waits { OnErr result (self.new ≡ []) }
        ensures course { IfSome (W.course to.old)
            (λ course. FailsOnlySo course (length self.old + length piece.now) result) }
        ensures bound { length self.new ≤ OUT_BUFFER_BYTES }
    {
        if self.keep(piece) {
            return Ok(());
        }
        self.flush(to)?;
        if self.keep(piece) {
            return Ok(());
        }
        write_whole(to, piece)
    }

    /// Writes what waits. Nothing waits then, also where a front of it alone was written.
    pub(crate) fn flush<W: Writer>(&mut self, to: &mut W) -> Result<(), SinkFault>
        ensures taken { PutTaken (W.contents to.old) (W.contents to.new) self.old result }
        ensures course { IfSome (W.course to.old)
            (λ course. IsBelowTurns course → WritesSo course (length self.old) result) }
        ensures left { OnOk result (CourseAfter (W.course to.old) (W.course to.new) (length self.old)) }
        ensures none_waits { self.new ≡ [] }
    {
        let result = write_whole(to, self.waiting.as_slice());
        self.waiting.clear();
        result
    }

    /// Lets a piece wait where it fits and memory is found for it, and answers whether it does.
    fn keep(&mut self, piece: &[u8]) -> bool
        ensures kept { Kept self.old self.new piece.now result }
        ensures bound { length self.new ≤ OUT_BUFFER_BYTES }
    {
        if piece.len() > OUT_BUFFER_BYTES - self.waiting.len() {
            return false;
        }
        let Ok(()) = self.waiting.extend_from_slice(piece) else {
            return false;
        };
        true
    }
}

#[cfg(test)]
mod tests {
    use super::*;
    use crate::writing::StandardWriter;
    use std::test::Fail;

    #[test]
    fn pieces_wait_in_order(rt: HostRuntime) -> Result<(), Fail> {
        let alloc = rt.alloc();
        let mut writer = StandardWriter {
            inner: Vec::new(alloc),
        };
        let mut buffer = OutBuffer::new(alloc);
        let fits = vec![in alloc; b'b'; OUT_BUFFER_BYTES - 1]?;
        let long = vec![in alloc; b'c'; OUT_BUFFER_BYTES + 1]?;

        assert_eq!(rt; buffer.put(&mut writer, b"a"), Ok(()));
        assert_eq!(rt; buffer.put(&mut writer, fits.as_slice()), Ok(()));
        assert_eq!(rt; writer.inner.len(), 0);

        assert_eq!(rt; buffer.put(&mut writer, b"d"), Ok(()));
        assert_eq!(rt; writer.inner.len(), 65_536);

        assert_eq!(rt; buffer.put(&mut writer, long.as_slice()), Ok(()));
        assert_eq!(rt; writer.inner.len(), 65_536 + 1 + 65_537);
        assert_eq!(rt; buffer.put(&mut writer, b"e"), Ok(()));
        assert_eq!(rt; buffer.flush(&mut writer), Ok(()));
        assert_eq!(rt; writer.inner.as_slice().first(), Some(&b'a'));
        assert_eq!(rt; writer.inner.as_slice().get(65_536), Some(&b'd'));
        assert_eq!(rt; writer.inner.as_slice().last(), Some(&b'e'));
        Ok(())
    }
}
