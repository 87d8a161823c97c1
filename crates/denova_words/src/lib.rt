//! The words after the program's name, and the command that they give.
#![tactic(auto)]

mod arguments;
pub mod words;

pub use words::{Command, command_of};
