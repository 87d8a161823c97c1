//! A volume that threads share: one event a turn, and counts that are read without a turn.
#![tactic(auto)]

pub mod ahead;
pub mod call;
pub mod calls;
pub mod gate;
pub mod loops;
pub mod made;
pub mod opening;
pub mod shared;
pub mod site;

pub use call::CallFault;
pub use gate::{Gate, Open};
pub use made::Made;
pub use shared::Shared;
pub use site::Site;
