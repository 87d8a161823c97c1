//! The parts of a write and of a read of a file that lie around its commit: the bytes of its pages, the slots of the
//! items that map new pages, and the file's index and the free pages after it.
//!
//! A page is 4,096 bytes or 512 words, also of a file. The slots of a log have eight words.
#![tactic(auto)]

pub mod fill;
pub mod place;
pub mod read;
pub mod remap;
pub mod runs;

pub use fill::{FILL_UNITS, fill_place, fill_places};
pub use place::read_place;
pub use read::{MOST_BYTES, read_bytes};
pub use remap::{give_back_overwritten, map_runs, slot_after};
pub use runs::{Run, cut_into_runs, run_slots};
use std::alloc::AllocError;

/// Memory is wanting.
pub type NoMemory = AllocError;
