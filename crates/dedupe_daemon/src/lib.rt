//! The daemon that shares equal pages: written items are taken from the queue one by one, and each of their places is
//! looked at (DeNova, IPDPS 2022).
//!
//! `daemon` makes one event of that work at a call. The daemon is actor 15. `copy_ahead` copies the pages that it is to
//! look at next, so that their prints can be taken while others use the volume, and `hand_in` brings the prints back.
#![tactic(auto)]

pub mod ahead;
pub mod begin;
pub mod copies;
pub mod end;
pub mod find;
pub mod front;
pub mod insert;
pub mod mask;
pub mod order;
pub mod page;
pub mod pass;
pub mod place;
pub mod raise;
pub mod remap;
pub mod step;

pub use copies::{copy_ahead, hand_in};
pub use order::daemon;
