//! Work that operations leave behind: the counts of rows that have lost mappings are settled, rows without counts go,
//! and removed files go place by place.
//!
//! `reclaim` makes one event of that work at a call. Reclaim is actor 16.
#![tactic(auto)]

pub mod dying;
pub mod end;
pub mod fall;
pub mod order;
pub mod zero;

pub use order::reclaim;
