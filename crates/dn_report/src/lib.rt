//! The texts that the program writes: replies, ends of runs, causes of refusals, lists of files,
//! and what is found of an image.
//!
//! Each function appends to a text. Where memory runs out it has appended an unknown part, and the text is of no use any
//! more.
#![tactic(auto)]

pub mod found;
pub mod listing;
pub mod report;
