//! What a call of the program comes to, and how that is told.
#![tactic(auto)]

pub mod ending;

pub use ending::Ending;
