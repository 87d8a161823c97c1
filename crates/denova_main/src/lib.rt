//! The program: what `main` does for the words after its name, over the image file and the standard streams.
#![tactic(auto)]

pub mod entry;
pub mod streams;

pub use entry::run;
