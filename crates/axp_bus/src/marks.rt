//! The marks of the aligned quadwords of memory that were written, one for each quadword.
ghost use Rattle.std.specs.Prelude.{◌≡◌, ◌+◌, ◌*◌, ◌/◌, ◌%◌, ◌<◌, ℕ, Some, List};
ghost use Rattle.std.specs.Prelude.{length};
ghost use Rattle.axp_base.specs.Lines.{line_number};
ghost use Rattle.axp_base.specs.Masks.{mask_bits};
ghost use Rattle.axp_base.specs.declared.lines.TheConstants.{LINE_BYTES};
ghost use Rattle.axp_base.specs.declared.parts.TheConstants.{QUADWORD_BYTES};
ghost use Rattle.axp_line.specs.BusCalls.{write_made};
ghost use Rattle.axp_bus.specs.Buses.{MayAsk};
ghost use Rattle.axp_bus.specs.Marks.{LINE_QUADWORDS, Marked, has_part};

use axp_base::{LINE_BYTES, Line, Mask, QUADWORD_BYTES, span};
use axp_line::{Reply, Request};

/// The number of a quadword's bytes, as an offset in a line.
const LENGTH: u8 = QUADWORD_BYTES as u8;

/// How many quadwords a line has.
const QUADWORDS: u8 = (LINE_BYTES / QUADWORD_BYTES) as u8;

/// Whether a mask has a byte of quadword `n` of its line.
fn has_part(mask: Mask, n: u8) -> bool
    requires { n < LINE_QUADWORDS }
    ensures { result ≡ has_part (mask_bits mask) n }
{
    let mut some = false;
    for k in 0..LENGTH {
        some |= mask.has(n * LENGTH + k);
    }
    some
}

/// Marks the quadwords of a line that a mask has a byte of.
fn mark_line(marks: &mut [bool], line: Line, mask: Mask)
    requires whole { length marks.old * QUADWORD_BYTES % LINE_BYTES ≡ 0 }
    requires inside { line_number line * LINE_BYTES < length marks.old * QUADWORD_BYTES }
    ensures { (bytes : List ℕ)
        → Marked (Some (record { line = line; bits = mask_bits mask; bytes = bytes })) marks.old
        marks.new }
{
    let first = (line.address() / QUADWORD_BYTES) as usize;
    for n in 0..QUADWORDS {
        marks[first + usize::from(n)] |= has_part(mask, n);
    }
}

/// Marks the quadwords of memory that a call wrote a byte of.
pub(crate) fn mark_down(marks: &mut [bool], request: &Request, reply: Reply)
    requires asks { (cpus : ℕ) × MayAsk (length marks.old * QUADWORD_BYTES) cpus request.now }
    requires whole { length marks.old * QUADWORD_BYTES % LINE_BYTES ≡ 0 }
    ensures { Marked (write_made request.now reply) marks.old marks.new }
{
    let Reply::Stored { .. } = reply else { return };
    match request {
        Request::Drain { line, mask, .. } => mark_line(marks, *line, *mask),
        Request::Conditional { address, size, .. } => {
            mark_line(marks, Line::of(*address), span(*address, *size));
        }
        _ => (),
    }
}
