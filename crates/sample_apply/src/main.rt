//! The program with a sample: a job is run on an image of one file.
#![tactic(auto)]

use denova_main::run;
use std::process::ExitCode;

fn main(rt: HostRuntime) -> ExitCode {
    ExitCode::from(run(&rt))
}
