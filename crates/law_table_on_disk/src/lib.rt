//! Laws of single changes of the table of fingerprints.
#![tactic(auto)]

pub mod balance;
pub mod counted;
pub mod counts;
pub mod one_word;
pub mod row_changes;
pub mod table_laws;
