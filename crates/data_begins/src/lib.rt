//! What the begins of writes and cuts have in common: the rows of the pages that a file loses are found, and whether
//! anything stands in the way is told.
#![tactic(auto)]

pub mod asks;
pub mod hindrance;
pub mod lookup;
pub mod places;
pub mod ready;

pub use asks::{DataAsk, in_the_way};
pub use hindrance::{Hindrance, find_hindrance};
pub use lookup::find_file;
pub use places::{count_rows, rows_of};
pub use ready::{Ready, make_ready, start_data};
