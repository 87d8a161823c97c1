//! A device whose words are an image without a fault is mounted: its journal is rolled back, its table is settled, and
//! what was read of it is put into the parts of a volume.
#![tactic(auto)]

pub mod fault;
pub mod finish;
pub mod mount;
pub mod parts;
pub mod prepare;
pub mod read;
pub mod repair;
pub mod undo;
