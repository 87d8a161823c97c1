//! The logs of an image are read once, each by itself: the first fault of a log, how often each page is used, how
//! many files there are, and the inodes that names lead to.
#![tactic(auto)]

pub mod logs;
mod usage;

pub use logs::{FileLog, LogsFault, LogsRead, UsedInode, read_logs};
