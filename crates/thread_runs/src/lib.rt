//! The clients of a job run in threads on one volume, beside the daemon and reclaim.
#![tactic(auto)]

mod client;
mod gather;
mod part;
pub mod reading;
pub mod running;
mod task;

pub use reading::{Reading, Readings};
pub use running::run_in_threads;
