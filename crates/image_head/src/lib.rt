//! The head of an image, its journal and its inodes: the first five rules of an image, asked of any words.
//!
//! An image is a slice of words here, or a device, and its words may be any. The head is the superblock, in words 0 to 3: the
//! magic, the version, the pages and the inodes. The journal's gate and pairs stand in the second page. Where the
//! head and the journal are without fault, the image stands for its rolled copy: the old values of the journal's
//! pairs are put back, and its gate is closed. The inodes are read of a device that holds
//! it.
#![tactic(auto)]

pub mod device;
pub mod head;
pub mod inodes;
pub mod journal;

pub use device::device_geometry;
pub use head::{geometry_of, head_fault};
pub use inodes::{InodeUse, inode_fault, use_of_inode};
pub use journal::{roll, rolled_copy};
