//! The check of an image: its first fault by the twelve rules, whatever its words are, or what it holds.
//!
//! The image is read as it is once its journal is rolled back, and nothing of it is changed. `check` copies the words;
//! `check_words` takes them, and makes no further copy.
#![tactic(auto)]

pub mod checks;
pub mod finding;
pub mod judge;
pub mod read;
mod rows;

pub use checks::{check, check_words};
pub use finding::{Finding, RowList};
