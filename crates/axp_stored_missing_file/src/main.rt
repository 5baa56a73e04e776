//! The program `axp` once more, for its stored run alone: the image is missing, so that the line of
//! a read fault is printed and the process ends with status 2.
#![tactic(auto)]

use axp_program::run;
use std::process::ExitCode;

fn main(rt: HostRuntime) -> ExitCode {
    run(&rt)
}
