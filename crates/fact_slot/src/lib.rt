//! A slot of the table of fingerprints on a device: its words are read, stored and set.
#![tactic(auto)]

pub mod slot;
pub mod steps;

pub use slot::{load_field, peek_slot, read_slot, set_field, store_fields};
pub use steps::Steps;
