//! Indexes in ordinary memory: where each page of a file is, and which inode each name leads to.
#![tactic(auto)]

pub mod name_map;
mod node;
pub mod page_map;
mod room;
mod run_count;

pub use name_map::NameMap;
pub use page_map::{MOST_PLACES, Mapping, PageMap};
