//! A table of fingerprints is settled: each row counts the mappings of its page, rows without mappings go, and stale
//! pointers are cleared.
//!
//! Nothing else of the device changes, and a stop at any moment leaves a file system without a fault that has the same
//! files.
#![tactic(auto)]

pub mod settle;

pub use settle::settle_table;
