//! Items of a log, and how they are spelled.
#![tactic(auto)]

pub mod item;
pub mod laws;
pub mod name;
pub mod read;
pub mod write;

pub use item::{
    FILE_PAGES, FOOTER, Flag, LOG_SLOTS, LogItem, MOST_COUNT, MOST_SIZE, SLOT_WORDS, is_spelled,
};
pub use name::{MOST_NAME, Name, NameFault, is_legal};
pub use read::{Front, read_front, read_item};
pub use write::{slots_of, write_item};
