//! Job texts, and the sources and sinks that they come from and replies go to.
#![tactic(auto)]

mod draft;
pub mod job;
pub mod line;
pub mod memory;
pub mod reading;
pub mod spelling;
pub mod stream;
pub mod text;
pub mod work;

pub use job::{Clients, Command, Job, JobFault, Line, Lines, Turns};
pub use line::{JobForm, LineMeaning, Numbers, line_meaning};
pub use memory::{MemSink, MemSource};
pub use reading::read_job;
pub use spelling::number_of;
pub use stream::{MOST_BYTES, ReadFault, Sink, Source, read_to_end, write_all};
pub use text::first_line;
pub use work::{MOST_WORK, generated};
