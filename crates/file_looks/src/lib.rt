//! Looks at the files of a mounted volume: the bytes of one, and a list of all. Nothing is stored, and nothing enters the
//! history.
#![tactic(auto)]

pub mod listing;
pub mod reading;

pub use listing::list_text;
pub use reading::file_bytes;
