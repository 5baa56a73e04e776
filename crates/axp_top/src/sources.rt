//! The image of an assembler source: its file, or the line of its fault; and the listing of an image.
ghost use Rattle.std.specs.Prelude.{◌≤◌, length};
ghost use Rattle.axp_asm.specs.declared.layout.TheConstants.{MAX_SOURCE};
ghost use Rattle.axp_top.specs.ImageFiles.{asm_answer, bad_source, listing_answer};
ghost use Rattle.axp_top.specs.Outside.{sink_state};
ghost use Rattle.axp_top.specs.Printing.{Ends};

use crate::Status;
use crate::image_files::print_image;
use crate::printing::{print, refuse};
use axp_asm::{AsmError, assemble, listing};
use axp_image::Image;
use axp_io::Sink;
use axp_trace::write_bad_source;
use std::alloc::Global;

/// Refuses a source with this line at fault.
fn refuse_source<K: Sink>(alloc: Global, sink: &mut K, line: u32) -> Status
    ensures { let seen = sink_state K.taken K.faults K.puts in
        Ends (seen sink.old) (seen sink.new) (bad_source line) result }
{
    refuse(
        alloc,
        sink,
        write_bad_source(line),
        Status::BadSource { line },
    )
}

/// Prints the image that a source gives.
pub fn print_assembled<K: Sink>(alloc: Global, sink: &mut K, text: &[u8]) -> Status
    requires { length text.now ≤ MAX_SOURCE }
    ensures { let seen = sink_state K.taken K.faults K.puts in
        Ends (seen sink.old) (seen sink.new) (asm_answer text.now) result }
{
    match assemble(alloc, text) {
        Ok(image) => print_image(alloc, sink, &image),
        Err(AsmError::Bad { line }) => refuse_source(alloc, sink, line),
        Err(AsmError::Memory) => Status::Memory,
    }
}

/// Prints the listing of an image, as one piece.
#[tactic(auto, using(crate::proofs::ServingLemmas::listing_has_bytes))]
pub fn print_listing<K: Sink>(alloc: Global, sink: &mut K, image: &Image) -> Status
    ensures { let seen = sink_state K.taken K.faults K.puts in
        Ends (seen sink.old) (seen sink.new) (listing_answer image.now) result }
{
    let Ok(text) = listing(alloc, image) else {
        return Status::Memory;
    };
    match print(alloc, sink, text.as_slice()) {
        Ok(()) => Status::Done,
        Err(stop) => stop.status(),
    }
}
