//! The items of a cleaned log, from the items of the log as they are read, and from what is kept of the file in memory.
//! Log cleaning is that of NOVA (FAST 2016), where what a log still says is copied to fresh pages.
#![tactic(auto)]

pub mod cleaned;
pub mod names;
pub mod parts;

pub use cleaned::cleaned_items;
use std::alloc::AllocError;

/// Memory is wanting.
pub type NoMemory = AllocError;
