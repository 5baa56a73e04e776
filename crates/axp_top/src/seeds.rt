//! The run that a seed defines: its whole text.
ghost use Rattle.std.specs.Prelude.{◌≡◌, ◌≤◌, [], OnOk};
ghost use Rattle.axp_base.specs.declared.processors.TheConstants.{MAX_BUDGET, MAX_CPUS, MIN_CPUS};
ghost use Rattle.axp_top.specs.Outside.{sink_state};
ghost use Rattle.axp_top.specs.Printing.{Ends, Prints};
ghost use Rattle.axp_seed.specs.Seeds.{end_of};
ghost use Rattle.axp_top.specs.SeededRuns.{seeded_answer, whole_answer};
ghost use Rattle.axp_top.specs.Texts.{record_lines};
ghost use Rattle.axp_top.specs.Walks.{PrintsAnswer};

use crate::Status;
use crate::printing::{Stop, print_line};
use crate::replay::right_header;
use crate::tail::print_tail;
use axp_image::Image;
use axp_io::Sink;
use axp_seed::SeededRun;
use axp_trace::write_event;
use std::alloc::Global;

/// Makes all events of a run, and prints a line for each.
fn print_records<K: Sink>(alloc: Global, sink: &mut K, run: &mut SeededRun) -> Result<(), Stop>
    requires start { run.old.machine.records ≡ [] }
    ensures printed { let seen = sink_state K.taken K.faults K.puts in
        Prints (seen sink.old) (seen sink.new) (record_lines (end_of run.old).records) result }
    ensures end { OnOk result (run.new.machine ≡ end_of run.old) }
{
    while let Some(record) = run.next() {
        print_line(alloc, sink, write_event(record.event, record.outcome))?;
    }
    Ok(())
}

/// Prints a run from its start to its end.
fn print_seeded<K: Sink>(alloc: Global, sink: &mut K, run: &mut SeededRun) -> Result<Status, Stop>
    requires start { run.old.machine.records ≡ [] }
    ensures { let seen = sink_state K.taken K.faults K.puts in
        PrintsAnswer (seen sink.old) (seen sink.new) (whole_answer (end_of run.old)) result }
{
    print_line(alloc, sink, right_header(run.machine()))?;
    print_records(alloc, sink, run)?;
    print_tail(alloc, sink, run.machine())?;
    Ok(Status::Done)
}

/// Prints the run that a seed defines over an image: `cpus` processors, 2 to 8, each with a budget
/// of steps, 1 to 32,768.
pub fn print_seed<K: Sink>(
    alloc: Global,
    sink: &mut K,
    image: &Image,
    cpus: u8,
    budget: u32,
    seed: u64,
) -> Status
    requires least_cpus { MIN_CPUS ≤ cpus }
    requires most_cpus { cpus ≤ MAX_CPUS }
    requires least_budget { 1 ≤ budget }
    requires most_budget { budget ≤ MAX_BUDGET }
    ensures { let seen = sink_state K.taken K.faults K.puts in
        Ends (seen sink.old) (seen sink.new) (seeded_answer image.now cpus budget seed) result }
{
    let Ok(mut run) = SeededRun::start(alloc, image, cpus, budget, seed) else {
        return Status::Memory;
    };
    match print_seeded(alloc, sink, &mut run) {
        Ok(status) => status,
        Err(stop) => stop.status(),
    }
}
