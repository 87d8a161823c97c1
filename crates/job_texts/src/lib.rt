//! Jobs as scripts, and the texts of their runs.
#![tactic(auto)]

pub mod counting;
pub mod laws;
pub mod plan;
pub mod told;
pub mod work;

pub use plan::{JobPlan, LineNumbers, plan_of};
pub use told::{history_lines, run_text, stopped_text};
pub use work::{work_numbers, work_plan, work_text};
