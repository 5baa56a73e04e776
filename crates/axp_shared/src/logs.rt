//! The bus with the list of its calls.
ghost use Rattle.std.specs.Prelude.{◌≡◌, ◌^◌, ◌<◌, ◌≤◌, length};
ghost use Rattle.axp_base.specs.declared.processors.TheConstants.{MAX_CPUS};
ghost use Rattle.axp_call.specs.Calls.{EachRight};
ghost use Rattle.axp_shared.specs.Answers.{IsBusAnswer, start_of};
ghost use Rattle.axp_shared.specs.Standing.{StandsFor, StandsFor-prop};

use axp_bus::{Bus, CallList};
use axp_image::Image;
use std::snapshot::Snapshot;

mod serving;

/// What a bus begins with: the image that describes its memory, and the number of its processors.
/// No value of it is made.
#[derive(Drop)]
pub struct BusStart {
    /// The image.
    pub image: Image,
    /// How many processors there are.
    pub cpus: u8,
}

/// The bus with the calls that it answered. It has room for as many turns, and for as many bytes to
/// the console, as the list has for calls.
#[derive(Drop)]
pub struct BusLog {
    bus: Bus,
    calls: CallList,
    image: Snapshot<Image>,
    ghost few: { length bus.ports ≤ MAX_CPUS },
    ghost size: { length bus.memory ≡ image.value.size },
    ghost room: { bus.room ≡ calls.room },
    ghost small: { calls.room < 2 ^ 32 },
    ghost stands: { StandsFor bus image.value calls } by { StandsFor-prop bus image.value calls },
    ghost right: { EachRight IsBusAnswer (start_of image.value (length bus.ports)) calls.items },
}
