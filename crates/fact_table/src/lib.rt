//! The table of fingerprints: a list of rows, each with a slot, a fingerprint, a page and its counts. No two rows
//! have one fingerprint, or one page.
//!
//! The rows stand in the device's words. What is kept in ordinary memory is which indirect slots have no row.
#![tactic(auto)]

pub mod chain;
pub mod fact;
pub mod laws;
pub mod load;
pub mod row;

pub use fact::Fact;
pub use fact_scan::{Row, direct_of};
pub use load::FactFault;
