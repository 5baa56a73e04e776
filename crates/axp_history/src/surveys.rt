//! The first pass over a trace: how many accesses it shows, and where it leaves the grammar.
ghost use Rattle.std.specs.Prelude.{◌≡◌, ◌+◌, ◌*◌, ◌<◌, ◌≤◌, ◌^◌, ◌∷◌, ℕ, List, [], Option, length, IfOk};
ghost use Rattle.axp_base.specs.declared.processors.TheConstants.{MAX_CPUS};
ghost use Rattle.axp_access.specs.declared.Record.{Record};
ghost use Rattle.axp_trace.specs.Files.{lines_of};
ghost use Rattle.axp_trace.specs.TraceLines.{line_of};
ghost use Rattle.axp_history.specs.declared.entries.TheConstants.{ROW};
ghost use Rattle.axp_history.specs.Traces.{fault_behind, front_of, shown_by};
ghost use Rattle.axp_history.specs.Surveys.{IsSurvey, KeepsTable, Means, accesses_of, count_in};
ghost use Rattle.axp_history.specs.Tables.{Tells};

use crate::entries::{admit, no_entries};
use crate::tails::tail_fault;
use axp_access::{EntryState, Event, Outcome};
use axp_base::NoMemory;
use axp_trace::{Header, TraceLine, first_line, read_line};
use std::alloc::Global;

/// What a line of a trace shows behind the lines before it.
#[derive(Clone, Copy, Debug, PartialEq, Eq)]
pub(crate) enum Line {
    /// An event, and what came of it.
    OfRecord(Event, Outcome),
    /// The first line of the tail.
    OfTail,
    /// Nothing that the grammar has.
    Outside,
}

/// What the events' lines of a trace come to.
#[derive(Clone, Copy, Debug, PartialEq, Eq)]
pub(crate) struct Survey<'a> {
    /// How many lines show records.
    pub records: u32,
    /// How many of these show accesses.
    pub accesses: u32,
    /// The lines behind them.
    pub rest: &'a [u8],
    /// Whether these are none, or begin with one of the tail.
    pub good: bool,
}

/// What a line shows, which is kept of the entry that it names.
fn read_shown(states: &mut Vec<EntryState>, header: &Header, line: &[u8]) -> Line
    requires { length states.old.items ≡ MAX_CPUS * ROW }
    ensures means { (h : List Record) → Tells h states.old.items
        → Means (shown_by h (line_of header.now line.now)) result }
    ensures kept { (h : List Record) → Tells h states.old.items → KeepsTable h states.new.items result }
{
    match read_line(line, header) {
        Some(TraceLine::Full(event, outcome)) => {
            if admit(states, event.cpu, &outcome) {
                Line::OfRecord(event, outcome)
            } else {
                Line::Outside
            }
        }
        Some(TraceLine::Tail) => Line::OfTail,
        Some(TraceLine::Bare(_)) | None => Line::Outside,
    }
}

/// How many accesses an outcome shows: one or none.
fn count_in(outcome: &Outcome) -> u32
    ensures { result ≡ count_in outcome.now }
{
    match outcome {
        Outcome::Access(_) | Outcome::Polled { .. } => 1,
        Outcome::NoAccess
        | Outcome::Filled { .. }
        | Outcome::Drained { .. }
        | Outcome::Taken { .. }
        | Outcome::Done => 0,
    }
}

/// Goes through the events' lines of a trace.
pub(crate) fn go_through<'a>(
    alloc: Global,
    header: &Header,
    lines: &'a [u8],
) -> Result<Survey<'a>, NoMemory>
    requires { length lines.now < 2 ^ 30 }
    ensures survey { IfOk result (λ s. IsSurvey (front_of header.now [] (lines_of lines.now)) s) }
    ensures short { IfOk result (λ s. s.records + length s.rest.now ≤ length lines.now) }
{
    let mut states = no_entries(alloc)?;
    let mut seen = Survey {
        records: 0,
        accesses: 0,
        rest: lines,
        good: false,
    };
    while let Some((line, more)) = first_line(seen.rest) {
        match read_shown(&mut states, header, line) {
            Line::OfRecord(_, outcome) => {
                seen.records += 1;
                seen.accesses += count_in(&outcome);
                seen.rest = more;
            }
            Line::OfTail => {
                seen.good = true;
                return Ok(seen);
            }
            Line::Outside => return Ok(seen),
        }
    }
    seen.good = seen.rest.is_empty();
    Ok(seen)
}

impl Survey<'_> {
    /// The number of the first line outside the grammar, with the tail's lines.
    pub(crate) fn fault(&self, header: &Header) -> Option<u32>
        requires { self.now.records + length self.now.rest.now < 2 ^ 30 }
        ensures { (lines : List (Option (List ℕ))) → IsSurvey (front_of header.now [] lines) self.now
            → result ≡ fault_behind header.now (front_of header.now [] lines) }
    {
        let behind = self.records + 2;
        if !self.good {
            return Some(behind);
        }
        if self.rest.is_empty() {
            return None;
        }
        tail_fault(header, self.rest, behind)
    }
}
