//! The undo journal: up to four words of inodes change together, whatever moment a stop comes.
//!
//! The journal's page is the second of the image. Its word 512 is the gate: 0 while the journal is closed, else the
//! number of pairs. The words 520 + 2i and 521 + 2i are the address and the old value of pair i. An image whose gate
//! is open stands for the one that has the old values put back, and the gate closed.
#![tactic(auto)]

pub mod change;
pub mod commit;
mod pairs;
pub mod undo;
mod values;

pub use change::Change;
pub use commit::commit_all;
pub use undo::{RollFault, roll_back};
