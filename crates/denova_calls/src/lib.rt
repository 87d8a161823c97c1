//! What the program does for the words after its name, over any device, source and sink.
#![tactic(auto)]

pub mod check;
pub mod endings;
pub mod laws;
pub mod look;
pub mod make;
mod mounted;
pub mod plan;
pub mod run;
pub mod tool;
pub mod trials;
pub mod words;
