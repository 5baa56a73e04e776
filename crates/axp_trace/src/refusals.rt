//! The lines that say why nothing more is printed, without their line feeds (`docs/FORMATS.md`, "Where
//! the trace ends early").
ghost use Rattle.std.specs.Prelude.{◌≡◌, ◌+◌, ◌≤◌, ◌<◌, ◌++◌, codes, decimal, length, IfOk};
ghost use Rattle.arrayvec.specs.ArrayVec.{array_vec_len};
ghost use Rattle.axp_trace.specs.declared.lines.TheConstants.{LINE_ROOM};
ghost use Rattle.axp_trace.specs.declared.refusals.TheConstants.{MOST_KIND};
ghost use Rattle.axp_trace.specs.Executables.{bad_elf_line};
ghost use Rattle.axp_trace.specs.Lines.{usage_line, read_fault_line, too_long_line, bad_image_line};
ghost use Rattle.axp_trace.specs.Lines.{bad_trace_line, not_legal_line, incomplete_line};
ghost use Rattle.axp_trace.specs.Lines.{differs_line, given_line, right_line};
ghost use Rattle.axp_trace.specs.Sources.{bad_source_line};
ghost use Rattle.axp_trace.specs.Verdicts.{violated_line};

use crate::LineText;
use crate::digits::{push_all, push_decimal, push_long};
use axp_access::Bytes;
use axp_base::NoMemory;
use std::alloc::Global;

/// The most bytes in front of a line's number.
const MOST_WORDS: usize = 32;

/// The most bytes of the name of a fault or a rule.
pub const MOST_KIND: usize = 16;

/// A line without a number.
pub(crate) fn fixed(words: &[u8]) -> LineText
    requires { length words.now ≤ MOST_WORDS }
    ensures text { result.items ≡ words.now }
    ensures short { array_vec_len result < LINE_ROOM }
{
    let mut line = LineText::new();
    push_all(&mut line, words);
    line
}

/// A line that ends with a number.
fn numbered(words: &[u8], number: u32) -> LineText
    requires { length words.now ≤ MOST_WORDS }
    ensures text { result.items ≡ words.now ++ decimal number }
    ensures short { array_vec_len result < LINE_ROOM }
{
    let mut line = LineText::new();
    push_all(&mut line, words);
    push_decimal(&mut line, number);
    line
}

/// A line that names a fault and where it lies.
fn located(words: &[u8], name: &[u8], offset: u64) -> LineText
    requires words { length words.now ≤ MOST_WORDS }
    requires name { length name.now ≤ MOST_KIND }
    ensures text { result.items ≡ words.now ++ name.now ++ codes " at " ++ decimal offset }
    ensures short { array_vec_len result < LINE_ROOM }
{
    let mut line = LineText::new();
    push_all(&mut line, words);
    push_all(&mut line, name);
    push_all(&mut line, b" at ");
    push_long(&mut line, offset);
    line
}

/// The line for words of the command line that have no meaning.
#[tactic(auto, unfolding(crate::specs::Lines::usage_line))]
pub fn write_usage() -> LineText
    ensures text { result.items ≡ usage_line }
    ensures short { array_vec_len result < LINE_ROOM }
{
    fixed(b"axp: usage")
}

/// The line of a file that could not be read.
#[tactic(auto, unfolding(crate::specs::Lines::read_fault_line))]
pub fn write_read_fault() -> LineText
    ensures text { result.items ≡ read_fault_line }
    ensures short { array_vec_len result < LINE_ROOM }
{
    fixed(b"axp: read fault")
}

/// The line of a file that is too long.
#[tactic(auto, unfolding(crate::specs::Lines::too_long_line))]
pub fn write_too_long() -> LineText
    ensures text { result.items ≡ too_long_line }
    ensures short { array_vec_len result < LINE_ROOM }
{
    fixed(b"axp: too long")
}

/// The line of an image file with a fault of this kind, of which the name is given, in at most
/// [`MOST_KIND`] bytes, at this offset in bytes.
#[tactic(auto, unfolding(crate::specs::Lines::bad_image_line))]
pub fn write_bad_image(kind: &[u8], offset: u64) -> LineText
    requires { length kind.now ≤ MOST_KIND }
    ensures text { result.items ≡ bad_image_line kind.now offset }
    ensures short { array_vec_len result < LINE_ROOM }
{
    located(b"axp: bad image ", kind, offset)
}

/// The line of an executable with this field at fault, of which the name is given, in at most
/// [`MOST_KIND`] bytes, at this offset in bytes.
#[tactic(auto, unfolding(crate::specs::Executables::bad_elf_line))]
pub fn write_bad_elf(field: &[u8], offset: u64) -> LineText
    requires { length field.now ≤ MOST_KIND }
    ensures text { result.items ≡ bad_elf_line field.now offset }
    ensures short { array_vec_len result < LINE_ROOM }
{
    located(b"axp: bad elf ", field, offset)
}

/// The line of an assembler source whose line of this number, from 1, is at fault.
#[tactic(auto, unfolding(crate::specs::Sources::bad_source_line))]
pub fn write_bad_source(line: u32) -> LineText
    ensures text { result.items ≡ bad_source_line line }
    ensures short { array_vec_len result < LINE_ROOM }
{
    numbered(b"axp: bad source at line ", line)
}

/// The line of a list or a trace whose line of this number, from 1, is outside the grammar.
#[tactic(auto, unfolding(crate::specs::Lines::bad_trace_line))]
pub fn write_bad_trace(line: u32) -> LineText
    ensures text { result.items ≡ bad_trace_line line }
    ensures short { array_vec_len result < LINE_ROOM }
{
    numbered(b"axp: bad trace at line ", line)
}

/// The line of a list or a trace whose event of this number, from 1, is not legal.
#[tactic(auto, unfolding(crate::specs::Lines::not_legal_line))]
pub fn write_not_legal(event: u32) -> LineText
    ensures text { result.items ≡ not_legal_line event }
    ensures short { array_vec_len result < LINE_ROOM }
{
    numbered(b"axp: not legal at event ", event)
}

/// The line of a list or a trace that ends after so many events, before the machine is complete.
#[tactic(auto, unfolding(crate::specs::Lines::incomplete_line))]
pub fn write_incomplete(events: u32) -> LineText
    ensures text { result.items ≡ incomplete_line events }
    ensures short { array_vec_len result < LINE_ROOM }
{
    numbered(b"axp: incomplete after event ", events)
}

/// The first of three lines of a trace whose line of this number, from 1, is not the right one.
#[tactic(auto, unfolding(crate::specs::Lines::differs_line))]
pub fn write_differs(line: u32) -> LineText
    ensures text { result.items ≡ differs_line line }
    ensures short { array_vec_len result < LINE_ROOM }
{
    numbered(b"axp: differs at line ", line)
}

/// The line of a trace in which the accesses of these two numbers break a rule of shared memory, of
/// which the name is given, in at most [`MOST_KIND`] bytes.
#[tactic(auto, unfolding(crate::specs::Verdicts::violated_line))]
pub fn write_violated(rule: &[u8], first: u32, second: u32) -> LineText
    requires { length rule.now ≤ MOST_KIND }
    ensures text { result.items ≡ violated_line rule.now first second }
    ensures short { array_vec_len result < LINE_ROOM }
{
    let mut line = LineText::new();
    push_all(&mut line, b"axp: violated ");
    push_all(&mut line, rule);
    push_all(&mut line, b" ");
    push_decimal(&mut line, first);
    push_all(&mut line, b" ");
    push_decimal(&mut line, second);
    line
}

/// Words and a line behind them; an `Err` says that memory was not found for it.
fn shown(alloc: Global, words: &[u8], line: &[u8]) -> Result<Bytes, NoMemory>
    ensures { IfOk result (λ text. text ≡ words.now ++ line.now) }
{
    let mut text = Bytes::copy(alloc, words)?;
    text.append(alloc, line)?;
    Ok(text)
}

/// The second of these lines: the line that the trace has; an `Err` says that memory was not found.
#[tactic(auto, unfolding(crate::specs::Lines::given_line))]
pub fn write_given(alloc: Global, line: &[u8]) -> Result<Bytes, NoMemory>
    ensures { IfOk result (λ text. text ≡ given_line line.now) }
{
    shown(alloc, b"trace: ", line)
}

/// The third of these lines: the right one; an `Err` says that memory was not found.
#[tactic(auto, unfolding(crate::specs::Lines::right_line))]
pub fn write_right(alloc: Global, line: &[u8]) -> Result<Bytes, NoMemory>
    ensures { IfOk result (λ text. text ≡ right_line line.now) }
{
    shown(alloc, b"right: ", line)
}
