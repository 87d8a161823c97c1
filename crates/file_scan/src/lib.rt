//! The size of a file and the pages of its places, and the names of a directory, from the items of a log.
#![tactic(auto)]

pub mod index;
pub mod names;

pub use index::{FileIndex, index_items};
pub use names::index_names;
use std::alloc::AllocError;

/// Memory is wanting.
pub type NoMemory = AllocError;
