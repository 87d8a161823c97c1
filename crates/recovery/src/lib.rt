//! The ways to a file system that is in order: one without files is made.
//!
//! An image is a list of words of 64 bits, in pages of 512 words. It is one only where its first word is the magic,
//! so that the magic is the first word to go and the last one to come.
#![tactic(auto)]

pub mod empty;
pub mod laws;
mod tables;

pub use empty::{FormatFault, format};
