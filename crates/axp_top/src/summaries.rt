//! The summary of the seeded runs that a number defines: its text.
ghost use Rattle.std.specs.Prelude.{◌≡◌, [], ◌∷◌};
ghost use Rattle.axp_top.specs.Outside.{sink_state};
ghost use Rattle.axp_top.specs.Printing.{Ends, Prints};
ghost use Rattle.axp_top.specs.SummaryTexts.{all_count_lines, count_lines, count_text};
ghost use Rattle.axp_top.specs.SummaryTexts.{events_text, title_text, summary_answer};
ghost use Rattle.axp_top.specs.SummaryTexts.{whole_summary};
ghost use Rattle.axp_top.specs.Walks.{PrintsAnswer};

use crate::Status;
use crate::printing::{Stop, print_line};
use axp_io::Sink;
use axp_summary::{Label, Summary, labels_of, summarize};
use axp_trace::{write_count, write_events, write_summary_header};
use std::alloc::Global;

/// Prints how many rounds have a label.
fn print_count<K: Sink>(
    alloc: Global,
    sink: &mut K,
    summary: &Summary,
    label: Label,
) -> Result<(), Stop>
    ensures { let seen = sink_state K.taken K.faults K.puts in
        Prints (seen sink.old) (seen sink.new) (count_text summary.now.labels label ∷ []) result }
{
    let line = write_count(label.name().as_bytes(), summary.count(label));
    print_line(alloc, sink, line)
}

/// Prints a line for each of these labels.
fn print_counts<K: Sink>(
    alloc: Global,
    sink: &mut K,
    summary: &Summary,
    labels: &[Label],
) -> Result<(), Stop>
    ensures { let seen = sink_state K.taken K.faults K.puts in
        Prints (seen sink.old) (seen sink.new) (count_lines labels.now summary.now.labels) result }
{
    for label in labels {
        print_count(alloc, sink, summary, *label)?;
    }
    Ok(())
}

/// Prints a line for each label of the litmus test.
fn print_all_counts<K: Sink>(alloc: Global, sink: &mut K, summary: &Summary) -> Result<(), Stop>
    ensures { let seen = sink_state K.taken K.faults K.puts in
        Prints (seen sink.old) (seen sink.new) (all_count_lines summary.now) result }
{
    print_counts(alloc, sink, summary, labels_of(summary.shape()))
}

/// Prints the first line.
fn print_title<K: Sink>(
    alloc: Global,
    sink: &mut K,
    number: u64,
    summary: &Summary,
) -> Result<(), Stop>
    ensures { let seen = sink_state K.taken K.faults K.puts in
        Prints (seen sink.old) (seen sink.new) (title_text number summary.now ∷ []) result }
{
    let name = summary.shape().name();
    let line = write_summary_header(number, name.as_bytes(), summary.rounds());
    print_line(alloc, sink, line)
}

/// Prints the last line.
fn print_events<K: Sink>(alloc: Global, sink: &mut K, summary: &Summary) -> Result<(), Stop>
    ensures { let seen = sink_state K.taken K.faults K.puts in
        Prints (seen sink.old) (seen sink.new) (events_text summary.now ∷ []) result }
{
    print_line(alloc, sink, write_events(summary.events()))
}

/// Prints all lines of a summary.
fn print_lines<K: Sink>(
    alloc: Global,
    sink: &mut K,
    number: u64,
    summary: &Summary,
) -> Result<Status, Stop>
    ensures { let seen = sink_state K.taken K.faults K.puts in
        PrintsAnswer (seen sink.old) (seen sink.new) (whole_summary number summary.now) result }
{
    print_title(alloc, sink, number, summary)?;
    print_all_counts(alloc, sink, summary)?;
    print_events(alloc, sink, summary)?;
    Ok(Status::Done)
}

/// Prints the summary of the seeded runs that a number, any of 64 bits, defines.
pub fn print_summary<K: Sink>(alloc: Global, sink: &mut K, number: u64) -> Status
    ensures { let seen = sink_state K.taken K.faults K.puts in
        Ends (seen sink.old) (seen sink.new) (summary_answer number) result }
{
    let Ok(summary) = summarize(alloc, number) else {
        return Status::Memory;
    };
    match print_lines(alloc, sink, number, &summary) {
        Ok(status) => status,
        Err(stop) => stop.status(),
    }
}
