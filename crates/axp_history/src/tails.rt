//! The lines of a trace's tail, by their grammar alone.
ghost use Rattle.std.specs.Prelude.{◌≡◌, ◌+◌, ◌<◌, ◌^◌, length};
ghost use Rattle.axp_trace.specs.Files.{lines_of};
ghost use Rattle.axp_trace.specs.TraceLines.{line_of};
ghost use Rattle.axp_history.specs.Traces.{is_end_line, is_tail_line, tail_fault};

use axp_trace::{Header, TraceLine, first_line, read_line};

/// Whether a line is one of the tail of a trace.
fn is_tail_line(line: &[u8], header: &Header) -> bool
    ensures { result ≡ is_tail_line (line_of header.now line.now) }
{
    match read_line(line, header) {
        Some(TraceLine::Tail) => true,
        Some(TraceLine::Bare(_) | TraceLine::Full(..)) | None => false,
    }
}

/// Whether a line of a tail is the one that ends it.
fn is_end_line(line: &[u8]) -> bool
    ensures { result ≡ is_end_line line.now }
{
    line.starts_with(b"end ")
}

/// The number of the first line outside the grammar, of a tail whose first line has the number
/// `first`; `None` where each line is one of a tail, and the last alone ends it.
pub(crate) fn tail_fault(header: &Header, lines: &[u8], first: u32) -> Option<u32>
    requires { first + length lines.now < 2 ^ 31 }
    ensures { result ≡ tail_fault header.now first (lines_of lines.now) }
{
    let mut rest = lines;
    let mut number = first;
    while let Some((line, more)) = first_line(rest) {
        if !is_tail_line(line, header) {
            return Some(number);
        }
        number += 1;
        if is_end_line(line) {
            return if more.is_empty() { None } else { Some(number) };
        }
        rest = more;
    }
    Some(number)
}
