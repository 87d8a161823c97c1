//! A log is written anew on fresh pages and replaces the old one, as log cleaning in NOVA (FAST 2016): page by page,
//! each settled before the next, and at last its head and tail together.
#![tactic(auto)]

pub mod laws;
pub mod page;
pub mod replace;
mod slots;

pub use page::store_log_page;
pub use replace::replace_log;
