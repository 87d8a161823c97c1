//! The log of an inode is read from an image: its items, or the place of its first fault.
#![tactic(auto)]

pub mod items;
pub mod laws;
pub mod log;
pub mod pages;
pub mod slots;

pub use items::Placed;
pub use log::{LogRead, WalkFault, walk, walk_log};
