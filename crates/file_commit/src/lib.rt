//! The commit of a change of a file's data: its items become part of the file's log, once the pages that they map were
//! filled and flushed.
#![tactic(auto)]

pub mod append;

pub use append::append_items;
