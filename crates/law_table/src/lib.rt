//! Laws of single changes of the table of fingerprints by itself: which one word decides, and which rows there are.
#![tactic(auto)]

pub mod one_word;
pub mod row_changes;
