//! Pages as bytes: reading a page of a device, and filling one.
//!
//! A page is 512 words, 4,096 bytes. Byte k of a page is byte k mod 8 of its word k / 8, counted from the least
//! significant.
#![tactic(auto)]

pub mod page;

pub use page::{fill_page_bytes, read_page};
