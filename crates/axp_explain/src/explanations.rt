//! What a person is told of a refusal.
ghost use Rattle.std.specs.Prelude.{◌≡◌, ℕ, List, [], IfOk, Ok, None, false};
ghost use Rattle.axp_trace.specs.Files.{lines_of};
ghost use Rattle.axp_top.specs.Outside.{desk_state};
ghost use Rattle.axp_top.specs.Words.{Asm, order_of};
ghost use Rattle.axp_top.specs.declared.status.Status.TheVariants.{BadTrace, NotLegal};
ghost use Rattle.axp_asm.specs.declared.layout.TheConstants.{MAX_SOURCE};
ghost use Rattle.axp_explain.specs.Explanations.{Explains, ExplainsAlone, ExplainsLine};
ghost use Rattle.axp_explain.specs.Explanations.{ExplainsTrace, ExplainsSource, cpus_in};
ghost use Rattle.axp_explain.specs.Explanations.{line_words};
ghost use Rattle.axp_explain.specs.Explanations.{alone_explanation, explanation, line_explained};
ghost use Rattle.axp_explain.specs.Explanations.{fetch_explained, image_explained, is_refusal};
ghost use Rattle.axp_explain.specs.Explanations.{is_told, too_long_words, trace_explained};
ghost use Rattle.axp_explain.specs.Explanations.{source_explained, trace_file_explained};
ghost use Rattle.axp_explain.specs.ImageWords.{image_words};
ghost use Rattle.axp_explain.specs.Texts.{of_file, of_line};

use crate::elf_faults::elf_words;
use crate::image_faults::image_words;
use crate::line_faults::{fault_words, line_at, line_fault};
use crate::reasons::reason_words;
use crate::refusals::reason_of_files;
use crate::rules::rule_words;
use crate::source_faults::source_words;
use crate::texts::{decimal, joined, of_file, of_line};
use axp_asm::MAX_SOURCE;
use axp_base::{Bytes, NoMemory};
use axp_io::{Desk, FetchFault};
use axp_top::{MAX_IMAGE_BYTES, MAX_TRACE_BYTES, Status};
use axp_trace::{first_line, read_header};
use axp_words::{Command, Word, read_words};
use std::alloc::Global;

/// The line for a person that says where and why the work of these words was refused, which ended
/// with this status: the file, the line of the file, and what is wrong there. `None` where nothing
/// was refused.
///
/// The files are fetched once more, so it is of the files as they are now.
pub fn explain<D: Desk>(
    alloc: Global,
    words: &[Word],
    desk: &mut D,
    status: Status,
) -> Result<Option<Bytes>, NoMemory>
    ensures text { IfOk result (λ text. Explains (D.told desk.old)
        (desk_state D.faults D.asks desk.old) (desk_state D.faults D.asks desk.new)
        (order_of words.now) status text) }
    // Where there is nothing to tell, no memory is needed for it.
    ensures silent { is_told (order_of words.now) status ≡ false → result ≡ Ok None }
    ensures stays { (n : List ℕ) → D.told desk.new n ≡ D.told desk.old n }
{
    match read_words(words) {
        Ok(Command::Replay { image, trace } | Command::Check { image, trace })
            if is_refusal(status) => { explain_trace_files(alloc, desk, image, trace, status) }
        Ok(Command::Seed { image, .. }) if is_refusal(status) => {
            explain_alone(alloc, desk, image, status)
        }
        Ok(Command::List { image }) if is_refusal(status) => {
            explain_alone(alloc, desk, image, status)
        }
        Ok(Command::Elf { file, .. }) => explain_source(alloc, file, MAX_IMAGE_BYTES, status),
        Ok(Command::Asm { file }) => explain_asm(alloc, desk, file, status),
        _ => Ok(None),
    }
}

/// Whether a status refuses.
fn is_refusal(status: Status) -> bool
    ensures { result ≡ is_refusal status }
{
    match status {
        Status::Done | Status::Usage | Status::WriteFault | Status::Memory => false,
        Status::ReadFault
        | Status::BadImage { .. }
        | Status::BadTrace { .. }
        | Status::NotLegal { .. }
        | Status::Differs { .. }
        | Status::Violated { .. }
        | Status::Incomplete { .. }
        | Status::TooLong
        | Status::BadElf { .. }
        | Status::BadSource { .. } => true,
    }
}

fn explain_trace_files<D: Desk>(
    alloc: Global,
    desk: &mut D,
    image_path: &str,
    trace_path: &str,
    status: Status,
) -> Result<Option<Bytes>, NoMemory>
    ensures text { IfOk result (λ text. ExplainsTrace (D.told desk.old)
        (desk_state D.faults D.asks desk.old) (desk_state D.faults D.asks desk.new)
        image_path.now trace_path.now status text) }
    ensures stays { (n : List ℕ) → D.told desk.new n ≡ D.told desk.old n }
{
    let image = desk.fetch(alloc, image_path, MAX_IMAGE_BYTES);
    let trace = desk.fetch(alloc, trace_path, MAX_TRACE_BYTES);
    explanation(alloc, image_path, image, trace_path, trace, status)
}

fn explain_alone<D: Desk>(
    alloc: Global,
    desk: &mut D,
    path: &str,
    status: Status,
) -> Result<Option<Bytes>, NoMemory>
    ensures text { IfOk result (λ text. ExplainsAlone (D.told desk.old)
        (desk_state D.faults D.asks desk.old) (desk_state D.faults D.asks desk.new)
        path.now status text) }
    ensures stays { (n : List ℕ) → D.told desk.new n ≡ D.told desk.old n }
{
    let image = desk.fetch(alloc, path, MAX_IMAGE_BYTES);
    alone_explanation(alloc, path, image, status)
}

fn explain_asm<D: Desk>(
    alloc: Global,
    desk: &mut D,
    path: &str,
    status: Status,
) -> Result<Option<Bytes>, NoMemory>
    ensures text { IfOk result (λ text. ExplainsSource (D.told desk.old)
        (desk_state D.faults D.asks desk.old) (desk_state D.faults D.asks desk.new)
        (Asm path.now) status text) }
    ensures silent { is_refusal status ≡ false → result ≡ Ok None }
    ensures stays { (n : List ℕ) → D.told desk.new n ≡ D.told desk.old n }
{
    match status {
        Status::BadSource { line } => explain_source_line(alloc, desk, path, line),
        _ => explain_source(alloc, path, MAX_SOURCE, status),
    }
}

/// Of an assembler source with this line at fault.
fn explain_source_line<D: Desk>(
    alloc: Global,
    desk: &mut D,
    path: &str,
    line: u32,
) -> Result<Option<Bytes>, NoMemory>
    ensures text { IfOk result (λ text. ExplainsLine (D.told desk.old)
        (desk_state D.faults D.asks desk.old) (desk_state D.faults D.asks desk.new)
        path.now line text) }
    ensures stays { (n : List ℕ) → D.told desk.new n ≡ D.told desk.old n }
{
    let text = desk.fetch(alloc, path, MAX_SOURCE);
    line_explanation(alloc, path, text, line)
}

/// What is told of the line at fault, by what was handed over of the source.
#[tactic(auto, unfolding(crate::specs::Explanations::line_explained))]
fn line_explanation(
    alloc: Global,
    path: &str,
    text: Result<Bytes, FetchFault>,
    line: u32,
) -> Result<Option<Bytes>, NoMemory>
    ensures { IfOk result (λ told. told ≡ line_explained path.now line text) }
{
    match text {
        Ok(text) => {
            let words = source_words(line, line_at(text.as_slice(), line));
            Ok(Some(of_line(alloc, path, u64::from(line), words.as_bytes())?))
        }
        Err(fault) => explain_fetch(alloc, path, MAX_SOURCE, fault),
    }
}

/// What is told of a status of a command over a source, which may have so many bytes.
#[tactic(auto, unfolding(crate::specs::Explanations::source_explained))]
fn explain_source(
    alloc: Global,
    path: &str,
    most: u64,
    status: Status,
) -> Result<Option<Bytes>, NoMemory>
    ensures text { IfOk result (λ text. text ≡ source_explained path.now most status) }
    ensures silent { is_refusal status ≡ false → result ≡ Ok None }
{
    match status {
        Status::ReadFault => explain_fetch(alloc, path, most, FetchFault::Failed),
        Status::TooLong => explain_fetch(alloc, path, most, FetchFault::TooLong),
        Status::BadElf { field, .. } => {
            Ok(Some(of_file(alloc, path, elf_words(field).as_bytes())?))
        }
        _ => Ok(None),
    }
}

/// What is told of a status of a command over an image alone, by what was handed over of its file.
#[tactic(auto, unfolding(crate::specs::Explanations::alone_explanation))]
fn alone_explanation(
    alloc: Global,
    path: &str,
    image: Result<Bytes, FetchFault>,
    status: Status,
) -> Result<Option<Bytes>, NoMemory>
    ensures { IfOk result (λ text. text ≡ alone_explanation path.now image status) }
{
    match image {
        Ok(image) => explain_bad_image(alloc, path, image.as_slice(), status),
        Err(fault) => explain_fetch(alloc, path, MAX_IMAGE_BYTES, fault),
    }
}

/// Of an image file that has a fault.
fn explain_bad_image(
    alloc: Global,
    path: &str,
    image: &[u8],
    status: Status,
) -> Result<Option<Bytes>, NoMemory>
    ensures { IfOk result (λ text. text ≡ image_explained path.now image.now status None) }
{
    match status {
        Status::BadImage { kind, offset } => {
            let words = image_words(alloc, image, kind, offset)?;
            Ok(Some(of_file(alloc, path, words.as_slice())?))
        }
        _ => Ok(None),
    }
}

/// What is told of a status of a command over a list or a trace, by what was handed over of both files.
#[tactic(auto, unfolding(crate::specs::Explanations::explanation))]
pub fn explanation(
    alloc: Global,
    image_path: &str,
    image: Result<Bytes, FetchFault>,
    trace_path: &str,
    trace: Result<Bytes, FetchFault>,
    status: Status,
) -> Result<Option<Bytes>, NoMemory>
    ensures { IfOk result (λ text. text
        ≡ explanation image_path.now image trace_path.now trace status) }
{
    match image {
        Ok(image) => explain_image(
            alloc,
            image_path,
            image.as_slice(),
            trace_path,
            trace,
            status,
        ),
        Err(fault) => explain_fetch(alloc, image_path, MAX_IMAGE_BYTES, fault),
    }
}

/// Where the image file was fetched.
fn explain_image(
    alloc: Global,
    image_path: &str,
    image: &[u8],
    trace_path: &str,
    trace: Result<Bytes, FetchFault>,
    status: Status,
) -> Result<Option<Bytes>, NoMemory>
    ensures { IfOk result (λ text. text ≡ image_explained image_path.now image.now status
        (trace_file_explained image.now trace_path.now trace status)) }
{
    match status {
        Status::BadImage { kind, offset } => {
            let words = image_words(alloc, image, kind, offset)?;
            Ok(Some(of_file(alloc, image_path, words.as_slice())?))
        }
        _ => explain_trace_file(alloc, image, trace_path, trace, status),
    }
}

/// Where it may be the second file that was refused.
fn explain_trace_file(
    alloc: Global,
    image: &[u8],
    path: &str,
    trace: Result<Bytes, FetchFault>,
    status: Status,
) -> Result<Option<Bytes>, NoMemory>
    ensures { IfOk result (λ text. text
        ≡ trace_file_explained image.now path.now trace status) }
{
    match trace {
        Ok(trace) => explain_trace(alloc, image, path, trace.as_slice(), status),
        Err(fault) => explain_fetch(alloc, path, MAX_TRACE_BYTES, fault),
    }
}

/// Of a file that could not be fetched.
fn explain_fetch(
    alloc: Global,
    path: &str,
    most: u64,
    fault: FetchFault,
) -> Result<Option<Bytes>, NoMemory>
    ensures { IfOk result (λ text. text ≡ fetch_explained path.now most fault) }
{
    match fault {
        FetchFault::Failed => Ok(Some(of_file(
            alloc,
            path,
            b"the file could not be opened or read",
        )?)),
        FetchFault::TooLong => {
            let words = too_long_words(alloc, most)?;
            Ok(Some(of_file(alloc, path, words.as_slice())?))
        }
        FetchFault::Memory => Err(NoMemory),
    }
}

fn too_long_words(alloc: Global, most: u64) -> Result<Bytes, NoMemory>
    ensures { IfOk result (λ text. text ≡ too_long_words most) }
{
    let most = decimal(alloc, most)?;
    joined(
        alloc,
        &[b"the file is longer than ", most.as_slice(), b" bytes"],
    )
}

/// Of a list or a trace over an image file.
fn explain_trace(
    alloc: Global,
    image: &[u8],
    path: &str,
    trace: &[u8],
    status: Status,
) -> Result<Option<Bytes>, NoMemory>
    ensures { IfOk result (λ text. text
        ≡ trace_explained image.now path.now (lines_of trace.now) status) }
{
    match status {
        Status::BadTrace { line } => explain_line(alloc, path, trace, line),
        Status::NotLegal { event } => explain_event(alloc, image, path, trace, event),
        Status::Differs { line } => Ok(Some(of_line(
            alloc,
            path,
            u64::from(line),
            b"the trace has another line here than the right one",
        )?)),
        Status::Incomplete { event } => Ok(Some(of_line(
            alloc,
            path,
            u64::from(event) + 1,
            b"the events end here, and a processor is not finished or a write waits in its buffer",
        )?)),
        Status::Violated { rule, .. } => {
            Ok(Some(of_file(alloc, path, rule_words(rule).as_bytes())?))
        }
        _ => Ok(None),
    }
}

/// Of a line that is outside the grammar.
fn explain_line(
    alloc: Global,
    path: &str,
    trace: &[u8],
    line: u32,
) -> Result<Option<Bytes>, NoMemory>
    ensures { IfOk result (λ text. text
        ≡ trace_explained [] path.now (lines_of trace.now) (BadTrace line)) }
{
    let words = line_words(trace, line);
    Ok(Some(of_line(alloc, path, u64::from(line), words.as_bytes())?))
}

/// What is wrong with a line that is outside the grammar.
fn line_words(trace: &[u8], line: u32) -> &'static str
    ensures { result.now ≡ line_words (lines_of trace.now) line }
{
    let cpus = cpus_in(trace);
    if line == 1 && cpus.is_some() {
        "this is an event list, and a trace is needed: replay prints the trace of a list"
    } else {
        fault_words(line_fault(cpus, line_at(trace, line)))
    }
}

/// Of an event that is not legal.
fn explain_event(
    alloc: Global,
    image: &[u8],
    path: &str,
    trace: &[u8],
    event: u32,
) -> Result<Option<Bytes>, NoMemory>
    ensures { IfOk result (λ text. text
        ≡ trace_explained image.now path.now (lines_of trace.now) (NotLegal event)) }
{
    match reason_of_files(alloc, image, trace)? {
        Some(reason) => Ok(Some(of_line(
            alloc,
            path,
            u64::from(event) + 1,
            reason_words(reason).as_bytes(),
        )?)),
        None => Ok(None),
    }
}

/// How many processors the first line of a file names, where it is a header.
fn cpus_in(trace: &[u8]) -> Option<u8>
    ensures { result ≡ cpus_in (lines_of trace.now) }
{
    let (first, _) = first_line(trace)?;
    Some(read_header(first)?.cpus)
}
