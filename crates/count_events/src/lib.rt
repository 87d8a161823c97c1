//! Events that change the count word of one row: a client's operation raises the row of a page that it is to leave, the
//! daemon settles a row whose page got a mapping more, and reclaim settles a row whose page has lost one.
//!
//! The reference count and the update count of a row stand in one word (DeNova, IPDPS 2022): each event stores it once.
#![tactic(auto)]

pub mod raise;
pub mod release;
pub mod share;

pub use raise::raise_row;
pub use release::{left_to_reclaim, settle_release};
pub use share::settle_share;
