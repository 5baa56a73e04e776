ghost use Rattle.std.specs.Prelude.{ℕ, List, ◌≡◌, IfErr, IfOk, IfSome, Some};
ghost use Rattle.axp_elf.specs.Executables.{IsSetting};
ghost use Rattle.axp_image.specs.Contents.{AreBytes};
ghost use Rattle.axp_top.specs.declared.limits.TheConstants.{MAX_TRACE_BYTES};
ghost use Rattle.axp_top.specs.Answers.{answer_of, asks_by, asks_of, bad_image, read_fault};
ghost use Rattle.axp_top.specs.Answers.{too_long, usage};
ghost use Rattle.axp_top.specs.Answers.{image_in, image_told, trace_told};
ghost use Rattle.axp_top.specs.Lawful.{image_of_file, lines_of_file};
ghost use Rattle.axp_top.specs.Outside.{desk_state, outside_at, sink_state};
ghost use Rattle.axp_top.specs.Printing.{Ends};
ghost use Rattle.axp_top.specs.Serving.{FetchesImage, Serves, ServesEach, ServesTrace};
ghost use Rattle.axp_words.specs.Commands as commands;
ghost use Rattle.axp_top.specs.Statuses.{AsksInTurn, AsksNeeded, DeskCount, PutsEach, SinkCount};
ghost use Rattle.axp_top.specs.Statuses.{Settles, SettlesLawfully, SettlesSome};
ghost use Rattle.axp_top.specs.SeededRuns.{AreInRange, IsInRange};
ghost use Rattle.axp_top.specs.Words.{Asm, Elf, From, Listing, Over, Seed, Traced};
ghost use Rattle.axp_top.specs.Words.{order_in, order_of};

use crate::Status;
use crate::executables::print_executable;
use crate::limits::{MAX_IMAGE_BYTES, MAX_TRACE_BYTES};
use crate::printing::refuse;
use crate::seeds::print_seed;
use crate::sources::{print_assembled, print_listing};
use crate::summaries::print_summary;
use crate::trace_tasks::{TraceTask, do_task};
use axp_asm::MAX_SOURCE;
use axp_image::{Image, ImageError, ImageKind, read_image};
use axp_io::{Desk, FetchFault, Sink};
use axp_trace::{write_bad_image, write_read_fault, write_too_long, write_usage};
use axp_words::{Command, Usage, Word, read_words};
use std::alloc::Global;

/// Does what the words say, and answers how it ended.
///
/// The words are `replay IMAGE TRACE`, where TRACE names an event list or a trace, `check IMAGE TRACE`,
/// where it names a trace, `seed IMAGE CPUS BUDGET SEED`, `gen NUMBER`, `elf FILE MEMORY STACK TABLE`, `asm FILE` or `list IMAGE`. An image is
/// fetched and read before a second file is asked for. Each line with its line feed is one put; an
/// image file and a listing are one put each. What each status means is [`Status`]'s to say, and
/// `docs/FORMATS.md` has the command line, the forms of the files and of the text.
pub fn serve_plain<D: Desk, K: Sink>(
    alloc: Global,
    words: &[Word],
    desk: &mut D,
    sink: &mut K,
) -> Status
    // Where the desk tells the files, the text and the status are those of the words and the files;
    // or a front of the text was printed before the sink failed or memory was not found.
    ensures answer { let at = outside_at D.faults D.asks K.taken K.faults K.puts in
        IfSome (answer_of (order_of words.now) (D.told desk.old))
        (λ a. Settles (at desk.old sink.old) (at desk.new sink.new) a result) }
    // Each line of that text is one put.
    ensures puts { let at = outside_at D.faults D.asks K.taken K.faults K.puts in
        IfSome (answer_of (order_of words.now) (D.told desk.old))
        (λ a. PutsEach (at desk.old sink.old) (at desk.new sink.new) a result) }
    // Where the image told is of bytes, what is settled so is the whole text of a run of the
    // machine over it by the events of the list: the records keep the constraints of shared memory
    // in the order of the printed places, and the ending has its cause in the memory model. Or all
    // is refused.
    ensures constraints { let at = outside_at D.faults D.asks K.taken K.faults K.puts in
        let image = image_told (order_of words.now) (D.told desk.old) in
        let trace = trace_told (order_of words.now) (D.told desk.old) in
        IfSome image AreBytes → IfSome (answer_of (order_of words.now) (D.told desk.old))
        (SettlesLawfully (at desk.old sink.old) (at desk.new sink.new) (order_of words.now)
        (image_of_file image) (lines_of_file trace) result) }
    // Where the desk does not tell a file, all this holds by a list that it may have handed over.
    ensures some_files { let at = outside_at D.faults D.asks K.taken K.faults K.puts in
        SettlesSome (D.told desk.old) (at desk.old sink.old) (at desk.new sink.new)
        (order_of words.now) result }
    // A fault is answered only where one came in this call, and then at once.
    ensures sink_count { SinkCount (K.faults sink.old) (K.faults sink.new) result }
    ensures desk_count { DeskCount (D.faults desk.old) (D.faults desk.new) result }
    // Each file is asked for once at most, the image first.
    ensures asks { AsksInTurn (D.asks desk.old) (D.asks desk.new)
        (asks_of (order_of words.now)) result }
    // The second only where the first is an image.
    ensures second_ask { let asked = desk_state D.faults D.asks in
        IfSome (image_told (order_of words.now) (D.told desk.old)) (λ bytes. AsksNeeded
        (asked desk.old) (asked desk.new) (asks_by (order_of words.now) (image_in bytes)) result) }
{
    serve_command(alloc, read_words(words), desk, sink)
}

/// Does what a command says; words outside the grammar are refused.
fn serve_command<D: Desk, K: Sink>(
    alloc: Global,
    command: Result<Command<'_>, Usage>,
    desk: &mut D,
    sink: &mut K,
) -> Status
    requires { IsInRange (commands.order_by command) }
    ensures { let at = outside_at D.faults D.asks K.taken K.faults K.puts in
        Serves (D.told desk.old) (order_in (commands.order_by command.entry))
        (at desk.old sink.old) (at desk.new sink.new) result }
{
    match command {
        Ok(Command::Replay { image, trace }) => {
            trace_files(alloc, desk, sink, TraceTask::Replay, image, trace)
        }
        Ok(Command::Check { image, trace }) => {
            trace_files(alloc, desk, sink, TraceTask::Check, image, trace)
        }
        Ok(
            Command::Seed {
                image,
                cpus,
                budget,
                seed,
            },
        ) => seed_file(alloc, desk, sink, image, (cpus, budget, seed)),
        Ok(Command::Gen { number }) => print_summary(alloc, sink, number),
        Ok(
            Command::Elf {
                file,
                memory,
                stack,
                table,
            },
        ) => elf_file(alloc, desk, sink, file, (memory, stack, table)),
        Ok(Command::Asm { file }) => asm_file(alloc, desk, sink, file),
        Ok(Command::List { image }) => list_file(alloc, desk, sink, image),
        Err(Usage) => refuse_usage(alloc, sink),
    }
}

/// Fetches and reads the image of a name. Where there is none, the work is done: it ended with this
/// status.
fn fetch_image<D: Desk, K: Sink>(
    alloc: Global,
    desk: &mut D,
    sink: &mut K,
    name: &str,
) -> Result<Image, Status>
    ensures fetched { let at = outside_at D.faults D.asks K.taken K.faults K.puts in
        IfOk result (FetchesImage (D.told desk.old) name.now (at desk.old sink.old) (at desk.new sink.new)) }
    ensures stays { (name : List ℕ) → D.told desk.new name ≡ D.told desk.old name }
    ensures served { let at = outside_at D.faults D.asks K.taken K.faults K.puts in
        IfErr result (ServesEach (D.told desk.old) name.now (at desk.old sink.old) (at desk.new sink.new)) }
{
    match desk.fetch(alloc, name, MAX_IMAGE_BYTES) {
        Ok(bytes) => match read_image(alloc, bytes.as_slice()) {
            Ok(image) => Ok(image),
            Err(ImageError::Bad { kind, offset }) => Err(refuse_image(alloc, sink, kind, offset)),
            Err(ImageError::Memory) => Err(Status::Memory),
        },
        Err(FetchFault::Failed) => Err(refuse_read_fault(alloc, sink)),
        Err(FetchFault::TooLong) => Err(refuse_long(alloc, sink)),
        Err(FetchFault::Memory) => Err(Status::Memory),
    }
}

/// Does a task with the list or trace of one name over the image of another.
fn trace_files<D: Desk, K: Sink>(
    alloc: Global,
    desk: &mut D,
    sink: &mut K,
    task: TraceTask,
    image: &str,
    trace: &str,
) -> Status
    ensures { let at = outside_at D.faults D.asks K.taken K.faults K.puts in
        Serves (D.told desk.old) (Some (Over (Traced task image.now trace.now)))
        (at desk.old sink.old) (at desk.new sink.new) result }
{
    match fetch_image(alloc, desk, sink, image) {
        Ok(image) => trace_file(alloc, desk, sink, task, &image, trace),
        Err(status) => status,
    }
}

/// Prints the run that a seed defines over the image of a name: the numbers are how many processors
/// there are, the budget of steps of each, and the seed.
fn seed_file<D: Desk, K: Sink>(
    alloc: Global,
    desk: &mut D,
    sink: &mut K,
    image: &str,
    numbers: (u8, u32, u64),
) -> Status
    requires { AreInRange numbers.0 numbers.1 }
    ensures { let at = outside_at D.faults D.asks K.taken K.faults K.puts in
        Serves (D.told desk.old) (Some (Over (Seed image.now numbers.0 numbers.1 numbers.2)))
        (at desk.old sink.old) (at desk.new sink.new) result }
{
    let (cpus, budget, seed) = numbers;
    match fetch_image(alloc, desk, sink, image) {
        Ok(image) => print_seed(alloc, sink, &image, cpus, budget, seed),
        Err(status) => status,
    }
}

/// Prints the listing of the image of a name.
fn list_file<D: Desk, K: Sink>(alloc: Global, desk: &mut D, sink: &mut K, image: &str) -> Status
    ensures { let at = outside_at D.faults D.asks K.taken K.faults K.puts in
        Serves (D.told desk.old) (Some (Over (Listing image.now)))
        (at desk.old sink.old) (at desk.new sink.new) result }
{
    match fetch_image(alloc, desk, sink, image) {
        Ok(image) => print_listing(alloc, sink, &image),
        Err(status) => status,
    }
}

/// Prints the image of the executable of a name: the numbers are the size of memory, the stack word,
/// and the page of the page table.
fn elf_file<D: Desk, K: Sink>(
    alloc: Global,
    desk: &mut D,
    sink: &mut K,
    file: &str,
    numbers: (u64, u64, u64),
) -> Status
    requires { IsSetting numbers.0 numbers.1 numbers.2 }
    ensures { let at = outside_at D.faults D.asks K.taken K.faults K.puts in
        Serves (D.told desk.old) (Some (From (Elf file.now numbers.0 numbers.1 numbers.2)))
        (at desk.old sink.old) (at desk.new sink.new) result }
{
    match desk.fetch(alloc, file, MAX_IMAGE_BYTES) {
        Ok(bytes) => print_executable(alloc, sink, bytes.as_slice(), numbers),
        Err(FetchFault::Failed) => refuse_read_fault(alloc, sink),
        Err(FetchFault::TooLong) => refuse_long(alloc, sink),
        Err(FetchFault::Memory) => Status::Memory,
    }
}

/// Prints the image of the assembler source of a name.
fn asm_file<D: Desk, K: Sink>(alloc: Global, desk: &mut D, sink: &mut K, file: &str) -> Status
    ensures { let at = outside_at D.faults D.asks K.taken K.faults K.puts in
        Serves (D.told desk.old) (Some (From (Asm file.now)))
        (at desk.old sink.old) (at desk.new sink.new) result }
{
    match desk.fetch(alloc, file, MAX_SOURCE) {
        Ok(text) => print_assembled(alloc, sink, text.as_slice()),
        Err(FetchFault::Failed) => refuse_read_fault(alloc, sink),
        Err(FetchFault::TooLong) => refuse_long(alloc, sink),
        Err(FetchFault::Memory) => Status::Memory,
    }
}

/// Does a task with the list or trace of this name over an image.
fn trace_file<D: Desk, K: Sink>(
    alloc: Global,
    desk: &mut D,
    sink: &mut K,
    task: TraceTask,
    image: &Image,
    trace: &str,
) -> Status
    ensures { let at = outside_at D.faults D.asks K.taken K.faults K.puts in
        ServesTrace task (D.told desk.old trace.now) (trace.now, MAX_TRACE_BYTES) image.now
        (at desk.old sink.old) (at desk.new sink.new) result }
{
    match desk.fetch(alloc, trace, MAX_TRACE_BYTES) {
        Ok(file) => do_task(alloc, sink, task, image, file.as_slice()),
        Err(FetchFault::Failed) => refuse_read_fault(alloc, sink),
        Err(FetchFault::TooLong) => refuse_long(alloc, sink),
        Err(FetchFault::Memory) => Status::Memory,
    }
}

/// Refuses words that are no command.
fn refuse_usage<K: Sink>(alloc: Global, sink: &mut K) -> Status
    ensures { let seen = sink_state K.taken K.faults K.puts in
        Ends (seen sink.old) (seen sink.new) usage result }
{
    refuse(alloc, sink, write_usage(), Status::Usage)
}

/// Refuses a file that is too long.
fn refuse_long<K: Sink>(alloc: Global, sink: &mut K) -> Status
    ensures { let seen = sink_state K.taken K.faults K.puts in
        Ends (seen sink.old) (seen sink.new) too_long result }
{
    refuse(alloc, sink, write_too_long(), Status::TooLong)
}

/// Refuses an image file with this first fault.
fn refuse_image<K: Sink>(alloc: Global, sink: &mut K, kind: ImageKind, offset: u64) -> Status
    ensures { let seen = sink_state K.taken K.faults K.puts in
        Ends (seen sink.old) (seen sink.new) (bad_image (kind, offset)) result }
{
    let line = write_bad_image(kind.name().as_bytes(), offset);
    refuse(alloc, sink, line, Status::BadImage { kind, offset })
}

/// Ends with a read fault, with nothing printed before.
fn refuse_read_fault<K: Sink>(alloc: Global, sink: &mut K) -> Status
    ensures { let seen = sink_state K.taken K.faults K.puts in
        Ends (seen sink.old) (seen sink.new) read_fault result }
{
    refuse(alloc, sink, write_read_fault(), Status::ReadFault)
}
