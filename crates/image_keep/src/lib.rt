//! What a mount keeps of an inode's log: the places of its file, and the items that wait for the daemon.
#![tactic(auto)]

pub mod free;
pub mod inode;
pub mod keep;
pub mod work;
