//! The program `axp` once more, for its stored run alone: the summary of the spin lock, in which no
//! addition is lost.
#![tactic(auto)]

use axp_program::run;
use std::process::ExitCode;

fn main(rt: HostRuntime) -> ExitCode {
    run(&rt)
}
