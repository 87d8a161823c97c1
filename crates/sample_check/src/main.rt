//! The program with a sample: an image of one file is checked.
#![tactic(auto)]

use denova_main::run;
use std::process::ExitCode;

fn main(rt: HostRuntime) -> ExitCode {
    ExitCode::from(run(&rt))
}
