//! Fingerprints of pages, the counts of a fingerprint's row, and the slot that holds the row.
#![tactic(auto)]

pub mod count;
pub mod print;
pub mod slot;

pub use count::CountWord;
pub use print::{Fingerprint, Sha1Print, SumPrint};
pub use slot::FactSlot;
