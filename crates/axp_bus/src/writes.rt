//! What a call writes to memory.
ghost use Rattle.std.specs.Prelude.{◌≡◌, ◌*◌, ◌/◌, ◌%◌, ◌<◌, ◌⊎◌};
ghost use Rattle.axp_base.specs.Lines.{line_number};
ghost use Rattle.axp_base.specs.Masks.{span_of};
ghost use Rattle.axp_base.specs.declared.lines.TheConstants.{LINE_BYTES};
ghost use Rattle.axp_line.specs.BusCalls.{is_turn, line_written, write_made, stored_bytes};
ghost use Rattle.axp_base.specs.Lines.{line_at};
ghost use Rattle.axp_bus.specs.Writes.{written_of};

use axp_base::{LINE_BYTES, Line, Mask, span};
use axp_line::{LineData, Reply, Request};

/// The bytes of one line that a call writes.
#[derive(Clone, Copy, Debug, PartialEq, Eq)]
pub(crate) struct Write {
    pub(crate) line: Line,
    pub(crate) mask: Mask,
    pub(crate) bytes: LineData,
}

/// What a store-conditional writes where it succeeds.
pub(crate) fn conditional_write(address: u64, size: u8, value: u64) -> Write
    requires sized { (size ≡ 4) ⊎ (size ≡ 8) }
    requires aligned { address % size ≡ 0 }
    ensures line { result.line ≡ line_at address }
    ensures number { line_number result.line ≡ address / LINE_BYTES }
    ensures value { written_of result
        ≡ record {
          line = line_at address;
          bits = span_of address size;
          bytes = stored_bytes address size value;
        } }
{
    let mut bytes = LineData::zero();
    bytes.set((address % LINE_BYTES) as u8, size, value);
    Write {
        line: Line::of(address),
        mask: span(address, size),
        bytes,
    }
}

/// The line that a call wrote, if it wrote one.
pub(crate) fn line_written(request: &Request, reply: Reply) -> Option<Line>
    ensures { result ≡ line_written (write_made request.now reply) }
{
    let Reply::Stored { .. } = reply else {
        return None;
    };
    match request {
        Request::Drain { line, .. } => Some(*line),
        Request::Conditional { address, .. } => Some(Line::of(*address)),
        _ => None,
    }
}

/// Whether the reply tells of a turn.
pub(crate) fn is_turn(reply: Reply) -> bool
    ensures { result ≡ is_turn reply }
{
    matches!(reply, Reply::Stored { .. } | Reply::Signalled { .. })
}
