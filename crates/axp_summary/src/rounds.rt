//! The rounds of a summary: each is a seeded run of the same litmus test.
ghost use Rattle.std.specs.Prelude.{◌≡◌, ◌<◌, ◌≤◌, IfOk};
ghost use Rattle.axp_base.specs.declared.processors.TheConstants.{MAX_BUDGET};
ghost use Rattle.axp_gen.specs.Litmus.{litmus_image};
ghost use Rattle.axp_gen.specs.Shapes.{shape_of};
ghost use Rattle.axp_summary.specs.Rounds.{budget_of, end_of_round, rounds_of};
ghost use Rattle.axp_summary.specs.declared.rounds.TheConstants.{CPUS, ROUNDS};

use axp_base::NoMemory;
use axp_gen::{Shape, shape_of};
use axp_image::Image;
use axp_seed::SeededRun;
use std::alloc::Global;

/// The number of processors of a round.
const CPUS: u8 = 2;

/// The number of rounds of a short test.
const ROUNDS: u32 = 1_024;

/// The number of rounds of the spin lock, whose runs are long.
const LOCK_ROUNDS: u32 = 64;

/// The steps that each processor of a short test may make.
const BUDGET: u32 = 64;

/// The steps that each processor of the spin lock may make.
const LOCK_BUDGET: u32 = 4_000;

/// How many rounds a litmus test has.
pub(crate) fn rounds_of(shape: Shape) -> u32
    ensures value { result ≡ rounds_of shape }
    ensures most { result ≤ ROUNDS }
{
    match shape {
        Shape::Lock => LOCK_ROUNDS,
        Shape::Sb | Shape::Dl | Shape::Dm => ROUNDS,
    }
}

/// The steps that each of its processors may make.
fn budget_of(shape: Shape) -> u32
    ensures value { result ≡ budget_of shape }
    ensures least { 1 ≤ result }
    ensures most { result ≤ MAX_BUDGET }
{
    match shape {
        Shape::Lock => LOCK_BUDGET,
        Shape::Sb | Shape::Dl | Shape::Dm => BUDGET,
    }
}

/// A round of the summary of a number, counted from 0, at its end.
pub(crate) fn run_round(
    alloc: Global,
    image: &Image,
    number: u64,
    round: u32,
) -> Result<SeededRun, NoMemory>
    requires { image.now ≡ litmus_image (shape_of number) }
    ensures end { IfOk result (λ run. run.machine ≡ end_of_round number round) }
    ensures image { IfOk result (λ run. run.machine.image ≡ litmus_image (shape_of number)) }
    ensures cpus { IfOk result (λ run. run.machine.cpus ≡ CPUS) }
{
    let seed = number.wrapping_add(round as u64);
    let mut run = SeededRun::start(alloc, image, CPUS, budget_of(shape_of(number)), seed)?;
    run.finish();
    Ok(run)
}
