//! Logs are cleaned, as in NOVA (FAST 2016): what a log still says is copied to fresh pages, a page an event, and the copy
//! replaces the log by one commit. A cleaning holds its inode while it runs.
//!
//! `clean` makes one event of a cleaning at a call, where nothing waits to be released. Its actor is reclaim, number 16.
#![tactic(auto)]

pub mod begin;
pub mod finish;
pub mod order;
pub mod page;
pub mod plan;
pub mod worth;

pub use order::clean;
