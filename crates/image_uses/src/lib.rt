//! What the logs of an image say of pages and names is looked through: the first page that is used twice, the first
//! inode whose names are wrong, and how many pages are free or mapped.
#![tactic(auto)]

pub mod counts;
pub mod doubles;
pub mod links;

pub use counts::{free_count, mapped_count};
pub use doubles::double_fault;
pub use links::link_fault;
