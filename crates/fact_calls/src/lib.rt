//! Calls of the table of fingerprints, one after another.
//!
//! What a call makes of the rows is told by a relation of lists of rows alone. A run of calls leaves the rows after its
//! calls, and a crash inside leaves those after the calls that were made, or after one more.
#![tactic(auto)]

pub mod call;
pub mod calls;

pub use call::TableCall;
pub use calls::{make, make_all};
