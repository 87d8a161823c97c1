//! A job of several clients that run in threads, on the image of a device.
#![tactic(auto)]

pub mod call;
pub mod laws;
mod reads;
mod run;
mod threads;

pub use call::session;
