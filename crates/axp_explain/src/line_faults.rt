//! What is wrong with a line of an event list or a trace that is outside the grammar, in a person's
//! words (`docs/FORMATS.md`).
ghost use Rattle.std.specs.Prelude.{◌≡◌, ◌-◌, ◌≤◌, ◌+◌, slice_get, drop, option_map, Option, List, ℕ};
ghost use Rattle.axp_trace.specs.Files.{lines_of};
ghost use Rattle.axp_explain.specs.LineWords.{ends_with, fault_words, is_digit, line_fault};
ghost use Rattle.axp_explain.specs.LineWords.{names_other, other_fault, text_fault};
ghost use Rattle.axp_explain.specs.LinePlaces.{file_line};

use axp_trace::first_line;

/// What is wrong with a line.
#[derive(Clone, Copy, Debug, PartialEq, Eq)]
pub enum LineFault {
    /// The file ends before it.
    Missing,
    /// It does not end with a line feed.
    NoLineFeed,
    /// It ends with a carriage return.
    CarriageReturn,
    /// It ends with a space.
    TrailingBlank,
    /// It is the first line, and no header.
    NoHeader,
    /// It names a processor that the header does not have.
    NoSuchProcessor,
    /// It is in no form that may stand there.
    OutOfForm,
}

/// The line at a place of a file.
#[derive(Clone, Copy, Debug, PartialEq, Eq)]
pub enum LineAt<'a> {
    /// The file ends before it.
    Missing,
    /// It has no line feed.
    Unended,
    /// Its bytes without the line feed.
    Whole(&'a [u8]),
}

/// What is wrong, in a person's words.
#[tactic(auto, unfolding(crate::specs::LineWords::fault_words))]
pub fn fault_words(fault: LineFault) -> &'static str
    ensures { result.now ≡ fault_words fault }
{
    match fault {
        LineFault::Missing => "the file ends before this line, which it must have",
        LineFault::NoLineFeed => "the last line does not end with a line feed",
        LineFault::CarriageReturn => {
            "the line ends with a carriage return: lines end with a line feed alone"
        }
        LineFault::TrailingBlank => "a space stands at the end of the line",
        LineFault::NoHeader => {
            "the first line is no header: an event list begins with axp-events 1 cpus N budget B, a trace with axp-trace 1 cpus N budget B memory M"
        }
        LineFault::NoSuchProcessor => {
            "the first line has fewer processors than this: they are numbered from 0"
        }
        LineFault::OutOfForm => {
            "this is no line of the form (docs/FORMATS.md), or none that may stand here"
        }
    }
}

/// The last byte is this one.
fn ends_with(line: &[u8], byte: u8) -> bool
    ensures { result ≡ ends_with byte line.now }
{
    !line.is_empty() && line[line.len() - 1] == byte
}

/// A decimal digit.
fn is_digit(byte: u8) -> bool
    ensures { result ≡ is_digit byte }
{
    b'0' <= byte && byte <= b'9'
}

/// Whether a line begins with the number of a processor that is not one of so many.
fn names_other(cpus: u8, line: &[u8]) -> bool
    ensures { result ≡ names_other cpus line.now }
{
    match line {
        [first, second, ..] => {
            is_digit(*first)
                && ((*second == b' ' && cpus <= *first - b'0')
                    || (b'0' < *first && is_digit(*second)))
        }
        _ => false,
    }
}

/// What is wrong with a line that has its line feed; without a number of processors it is the first.
fn text_fault(cpus: Option<u8>, line: &[u8]) -> LineFault
    ensures { result ≡ text_fault cpus line.now }
{
    if ends_with(line, b'\r') {
        LineFault::CarriageReturn
    } else if ends_with(line, b' ') {
        LineFault::TrailingBlank
    } else {
        other_fault(cpus, line)
    }
}

fn other_fault(cpus: Option<u8>, line: &[u8]) -> LineFault
    ensures { result ≡ other_fault cpus line.now }
{
    match cpus {
        None => LineFault::NoHeader,
        Some(cpus) => {
            if names_other(cpus, line) {
                LineFault::NoSuchProcessor
            } else {
                LineFault::OutOfForm
            }
        }
    }
}

/// What is wrong with the line at a place.
pub fn line_fault(cpus: Option<u8>, line: LineAt<'_>) -> LineFault
    ensures { result ≡ line_fault cpus (file_line line.entry) }
{
    match line {
        LineAt::Missing => LineFault::Missing,
        LineAt::Unended => LineFault::NoLineFeed,
        LineAt::Whole(line) => text_fault(cpus, line),
    }
}

/// The line of this number of a file, counted from 1; the first line also for 0.
pub fn line_at(text: &[u8], number: u32) -> LineAt<'_>
    ensures { file_line result ≡ slice_get (lines_of text.now) (number - 1) }
{
    let mut rest = text;
    for _passed in 0..number.saturating_sub(1) {
        match first_line(rest) {
            Some((_, more)) => rest = more,
            None => return LineAt::Missing,
        }
    }
    match first_line(rest) {
        Some((line, _)) => LineAt::Whole(line),
        None if rest.is_empty() => LineAt::Missing,
        None => LineAt::Unended,
    }
}
