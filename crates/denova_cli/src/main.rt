//! The program: commands on an image of the file system.
#![tactic(auto)]

use denova_main::run;
use std::process::ExitCode;

fn main(rt: HostRuntime) -> ExitCode {
    ExitCode::from(run(&rt))
}
