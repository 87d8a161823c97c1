//! Whole runs: the image of a device is mounted, scripts are run on it, and all work is drained.
#![tactic(auto)]

pub mod run;

pub use run::{RunEnd, end_of, open_volume, run_scripts};
