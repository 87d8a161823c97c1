//! Two threads and more take turns with a small value, and read its count words.
#![tactic(auto)]

mod events;
pub mod looks;
pub mod many;
pub mod site;
pub mod tally;
#[cfg(test)]
mod tests;
pub mod turns;
