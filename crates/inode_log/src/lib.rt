//! Logs of inodes grow, and the flags and masks of their items change.
#![tactic(auto)]

pub mod flag;
pub mod laws;
pub mod log;
pub mod prepare;

pub use flag::{set_flag, set_mask};
pub use log::commit_log;
