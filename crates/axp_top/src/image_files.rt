//! The file of an image.
ghost use Rattle.axp_top.specs.ImageFiles.{image_answer};
ghost use Rattle.axp_top.specs.Outside.{sink_state};
ghost use Rattle.axp_top.specs.Printing.{Ends};

use crate::Status;
use crate::printing::print;
use axp_image::{Image, write_image};
use axp_io::Sink;
use std::alloc::Global;

/// Prints the file of an image, as one piece.
#[tactic(auto, using(crate::proofs::ServingLemmas::image_has_bytes))]
pub fn print_image<K: Sink>(alloc: Global, sink: &mut K, image: &Image) -> Status
    ensures { let seen = sink_state K.taken K.faults K.puts in
        Ends (seen sink.old) (seen sink.new) (image_answer image.now) result }
{
    let Ok(file) = write_image(alloc, image) else {
        return Status::Memory;
    };
    match print(alloc, sink, file.as_slice()) {
        Ok(()) => Status::Done,
        Err(stop) => stop.status(),
    }
}
