//! A mounted volume: a device, what is kept in memory of its image, and the work that is under way.
//!
//! Clients are the actors 1 to 14, the daemon that shares pages is actor 15, and reclaim is actor 16. The fields are
//! for the machines, each of whose calls is one event: it leads from one state of the image to the next.
#![tactic(auto)]

pub mod background;
pub mod batch;
pub mod flight;
pub mod kind;
pub mod laws;
pub mod outcome;
pub mod rest;
pub mod units;
pub mod volume;

pub use background::{Cleaning, DyingPlace, Reclaiming, Sharing, SharingStep};
pub use batch::{Batch, BatchPage};
pub use dn_model::{CLIENTS, DAEMON, MOST_RELEASES, RECLAIM};
pub use flight::{Change, DataChange, Flight, NameChange, Turn};
pub use kind::FlightKind;
pub use outcome::{CountChange, Outcome};
pub use volume::{InodeState, InodeUse, Parts, Room, Volume};
