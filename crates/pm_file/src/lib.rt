//! A device of words that is an image file held in memory. A fence writes the lines that its actor flushed to the
//! file and syncs it.
//!
//! In the file a word is eight bytes, the least significant first, and a page is 512 words, 4,096 bytes. What a
//! file gives or takes can't be proved: this crate is proved against the device trait, and its test opens a file
//! again after a run.
#![tactic(auto)]

use thiserror::Error;

mod device;
mod transfer;

pub use device::FilePm;

/// Why an image file wasn't opened.
#[derive(Clone, Copy, Debug, PartialEq, Eq, Error)]
pub enum OpenFault {
    /// The file couldn't be opened, read or made.
    #[error("cannot open image")]
    Refused,
    /// The file's length is 0, no multiple of 4,096 bytes, or more than 268,435,456 bytes.
    #[error("bad length {bytes}")]
    BadLength {
        /// The length in bytes; 18,446,744,073,709,551,615 for any that is more.
        bytes: u64,
    },
    /// There is no memory for the image.
    #[error("no memory")]
    NoMemory,
}
