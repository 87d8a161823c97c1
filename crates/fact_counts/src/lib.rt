//! The counts of a row of the table of fingerprints become others.
//!
//! One word decides, so that a crash leaves the counts of before or those of after.
#![tactic(auto)]

pub mod counts;

pub use counts::{raise, recount, settle_down, settle_up};
