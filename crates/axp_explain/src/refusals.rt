//! Why an event of a file is refused: the file is run once more, up to it.
ghost use Rattle.std.specs.Prelude.{◌≡◌, IfOk};
ghost use Rattle.axp_trace.specs.Files.{lines_of};
ghost use Rattle.axp_image.specs.Grammar.{image_of};
ghost use Rattle.axp_explain.specs.Reasons.{event_in, reason_among, reason_of_files};
ghost use Rattle.axp_explain.specs.Reasons.{reason_of_lines};

use axp_access::Event;
use axp_base::NoMemory;
use axp_image::{Image, ImageError, read_image};
use axp_machine::{Machine, NotLegal, Reason};
use axp_trace::{Header, TraceLine, first_line, read_header, read_line};
use std::alloc::Global;

/// Why the first event of a file that is not legal is refused, over an image file; `None` where
/// there is none such.
pub fn reason_of_files(
    alloc: Global,
    image: &[u8],
    trace: &[u8],
) -> Result<Option<Reason>, NoMemory>
    ensures { IfOk result (λ r. r ≡ reason_of_files (image_of image.now) (lines_of trace.now)) }
{
    match read_image(alloc, image) {
        Ok(image) => reason_of_lines(alloc, &image, trace),
        Err(ImageError::Bad { .. }) => Ok(None),
        Err(ImageError::Memory) => Err(NoMemory),
    }
}

/// The same over an image.
fn reason_of_lines(alloc: Global, image: &Image, trace: &[u8]) -> Result<Option<Reason>, NoMemory>
    ensures { IfOk result (λ r. r ≡ reason_of_lines image.now (lines_of trace.now)) }
{
    let Some((first, lines)) = first_line(trace) else {
        return Ok(None);
    };
    let Some(header) = read_header(first) else {
        return Ok(None);
    };
    let mut machine = Machine::load(alloc, image, header.cpus, header.budget)?;
    Ok(reason_among(&header, &mut machine, lines))
}

/// Does the events of these lines up to the first that is not legal, and tells why it is not.
fn reason_among(header: &Header, machine: &mut Machine, lines: &[u8]) -> Option<Reason>
    ensures { result ≡ reason_among header.now machine.old (lines_of lines.now) }
{
    let mut rest = lines;
    while let Some((line, more)) = first_line(rest) {
        let Some(event) = event_in(read_line(line, header)) else {
            return None;
        };
        match machine.event(event) {
            Ok(_) => rest = more,
            Err(NotLegal) => return machine.reason(event),
        }
    }
    None
}

/// The event of a line.
fn event_in(line: Option<TraceLine>) -> Option<Event>
    ensures { result ≡ event_in line }
{
    match line {
        Some(TraceLine::Bare(event) | TraceLine::Full(event, _)) => Some(event),
        Some(TraceLine::Tail) | None => None,
    }
}
