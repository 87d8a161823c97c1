//! Laws of logs that say the same in other words: each place of the file is on the page that it had, the size is the
//! same, and each name leads where it led.
//!
//! Each function states laws of all disks; it does nothing.
#![tactic(auto)]

pub mod replaced;
pub mod same_places;
