//! Events of clients, of the daemon that shares pages and of reclaim, on a mounted volume: each by one call, in any order.
//!
//! `step` carries what all of it is for: after every list of events the replies are those of one history on a file system
//! that never shares, and a crash inside any event leaves the files after the acknowledged operations, or after one more.
#![tactic(auto)]

pub mod draining;
pub mod event;
pub mod running;
pub mod stepping;

pub use draining::drain;
pub use event::{DrainFault, Event};
pub use running::run_events;
pub use stepping::step;
