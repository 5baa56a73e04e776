//! The lines of a summary of runs, without their line feeds (`docs/FORMATS.md`, "The summary").
ghost use Rattle.std.specs.Prelude.{◌≡◌, ◌≤◌, ◌<◌, length};
ghost use Rattle.arrayvec.specs.ArrayVec.{array_vec_len};
ghost use Rattle.axp_trace.specs.declared.lines.TheConstants.{LINE_ROOM};
ghost use Rattle.axp_trace.specs.declared.summaries.TheConstants.{MOST_LABEL};
ghost use Rattle.axp_trace.specs.Summaries.{count_line, events_line, summary_header};

use crate::LineText;
use crate::digits::{push_all, push_decimal, push_long};

/// The most bytes of the name of a litmus test, or of a label for what a run of it showed.
pub const MOST_LABEL: usize = 8;

/// The first line of the summary that a number defines: the number, the litmus test's name, of at
/// most [`MOST_LABEL`] bytes, and how many rounds there were.
#[tactic(auto, unfolding(crate::specs::Summaries::summary_header))]
pub fn write_summary_header(number: u64, name: &[u8], rounds: u32) -> LineText
    requires { length name.now ≤ MOST_LABEL }
    ensures text { result.items ≡ summary_header number name.now rounds }
    ensures short { array_vec_len result < LINE_ROOM }
{
    let mut line = LineText::new();
    push_all(&mut line, b"gen ");
    push_long(&mut line, number);
    push_all(&mut line, b" ");
    push_all(&mut line, name);
    push_all(&mut line, b" rounds ");
    push_decimal(&mut line, rounds);
    line
}

/// The line of a label, of at most [`MOST_LABEL`] bytes: in how many rounds the run had it.
#[tactic(auto, unfolding(crate::specs::Summaries::count_line))]
pub fn write_count(label: &[u8], count: u32) -> LineText
    requires { length label.now ≤ MOST_LABEL }
    ensures text { result.items ≡ count_line label.now count }
    ensures short { array_vec_len result < LINE_ROOM }
{
    let mut line = LineText::new();
    push_all(&mut line, label);
    push_all(&mut line, b" ");
    push_decimal(&mut line, count);
    line
}

/// The last line: how many events all rounds had.
#[tactic(auto, unfolding(crate::specs::Summaries::events_line))]
pub fn write_events(events: u64) -> LineText
    ensures text { result.items ≡ events_line events }
    ensures short { array_vec_len result < LINE_ROOM }
{
    let mut line = LineText::new();
    push_all(&mut line, b"events ");
    push_long(&mut line, events);
    line
}
