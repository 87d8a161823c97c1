//! Cuts of files, each a row of events of which the last makes it part of the image, and the sizes of files.
#![tactic(auto)]

mod advance;
mod begin;
mod commit;
mod ending;
mod plan;
mod sizes;
mod taking;

pub use advance::advance_cut;
pub use begin::begin_cut;
pub use sizes::size;
