//! Changes of the table of fingerprints: rows come in and go, and stale pointers are cleared.
//!
//! Each change is decided by one word, so that a crash leaves the table of before or the table of after.
#![tactic(auto)]

pub mod insertion;
pub mod removal;
pub mod stale;

pub use insertion::insert;
pub use removal::{remove_zero, slot_before_of};
pub use stale::clear_stale;
