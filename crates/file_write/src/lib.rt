//! What a write to a file takes: fresh pages for its bytes and for the file's log, and the plan of its items.
//!
//! No page that the file has is stored to, so that a stop on the way leaves the file as before or as after (NOVA, FAST
//! 2016). The pages are filled by `file_content`, and become part of the file by `file_commit`.
#![tactic(auto)]

pub mod plan;
pub mod take;

use std::alloc::AllocError;

/// Memory is wanting.
pub type NoMemory = AllocError;
