//! The program `axp` once more, for its stored run alone: an event is not legal, so that the lines
//! of the events before it are printed and the process ends with status 6.
#![tactic(auto)]

use axp_program::run;
use std::process::ExitCode;

fn main(rt: HostRuntime) -> ExitCode {
    run(&rt)
}
