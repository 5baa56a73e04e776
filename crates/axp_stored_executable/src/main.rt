//! The program `axp` once more, for its stored run alone: the image of an executable that gcc made. It is
//! that of `examples/from_c`, whose README says how it was made.
#![tactic(auto)]

use axp_program::run;
use std::process::ExitCode;

fn main(rt: HostRuntime) -> ExitCode {
    run(&rt)
}
