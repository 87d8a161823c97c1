//! The texts of runs in threads: the counts before, the replies, the changes of counts, and the counts that were read.
#![tactic(auto)]

pub mod lines;
pub mod numbers;
pub mod text;

pub use lines::CountRead;
pub use numbers::line_numbers;
pub use text::thread_text;
