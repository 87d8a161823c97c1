//! Laws that the definitions of `dn_model` have: that they mean one thing.
//!
//! Each function states a law; it does nothing.
#![tactic(auto)]

pub mod counts;
pub mod faults;
pub mod images;
pub mod replies;
