//! A row of a table of fingerprints is put into a given slot and taken out of it, with the pointer of its page.
//!
//! Each change is decided by one word, so that a crash leaves the table of before or the table of after.
#![tactic(auto)]

pub mod put;
pub mod remove;

pub use put::{insert_chained, insert_direct};
pub use remove::{remove_chained, remove_direct};
