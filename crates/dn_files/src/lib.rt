//! What each operation answers and makes of files, done plainly on a list of files in memory.
//!
//! There are no pages, logs or counts here: a program that stores files may be compared with this one.
#![tactic(auto)]

pub mod applying;
pub mod files;

pub use applying::apply;
pub use files::{FileText, Files};
