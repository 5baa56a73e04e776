//! `axp`: an emulator of Alpha AXP processors that share memory.
//!
//! Its stored run replays an example to its end, with status 0.
#![tactic(auto)]

use axp_program::run;
use std::process::ExitCode;

fn main(rt: HostRuntime) -> ExitCode {
    run(&rt)
}
