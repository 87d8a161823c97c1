//! Scripts of clients are run on a volume, by a schedule or in rounds.
#![tactic(auto)]

pub mod laws;
pub mod plan;
mod player;
pub mod running;
pub mod script;
mod turn;

pub use plan::{Order, Script, Scripts};
pub use running::play;
pub use script::{RunFault, run_script};
