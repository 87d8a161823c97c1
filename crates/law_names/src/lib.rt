//! Laws of names that come and go: an operation on names appends to the root's log, and one inode comes to life or is
//! dying. The root's tail and the inode's state change together, or neither does.
#![tactic(auto)]

pub mod all_or_none;
pub mod names;
