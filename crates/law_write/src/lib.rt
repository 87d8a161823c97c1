//! Laws of single changes of an image.
#![tactic(auto)]

pub mod data_pages;
pub mod writes;
