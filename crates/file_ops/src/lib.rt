//! Changes of a file's data: writes and cuts, each a row of events of which the last makes it part of the image.
#![tactic(auto)]

pub mod advance;
pub mod begin;
pub mod commit;
pub mod ending;
pub mod fill;
pub mod giving;
pub mod reading;

pub use advance::{DataStep, advance_write, next_step};
pub use begin::begin_write;
pub use commit::commit_write;
pub use fill::fill_page;
pub use reading::read;
