//! The table of fingerprints is read from its words: all its rows, or the slot of its first fault.
#![tactic(auto)]

mod found;
pub mod row;
pub mod scan;

pub use row::{Row, direct_of};
pub use scan::{ScanFault, scan_rows};
