// What an event answers, and what it tells of counts.
pub use dn_model::CountChange;
use dn_model::Reply;

/// The answer of an event.
#[derive(Debug, Drop)]
pub enum Outcome {
    /// So many events more end the work.
    Running {
        /// The events that are left.
        left: u64,
    },
    /// The operation is answered.
    Done(Reply),
    /// The root or a file that is wanted is held by this actor.
    Busy {
        /// The actor that holds it.
        holder: u32,
    },
    /// Nothing was begun, since an inode or room is wanting while pages wait to be released.
    Released {
        /// The units of reclaim's work that are left.
        waiting: u64,
    },
    /// There is nothing to do.
    Idle,
    /// The actor is no client, or has an operation in flight, or has none.
    NotYours,
    /// Memory is wanting.
    NoMemory,
    /// A fence of the device failed, now or before.
    Stopped,
}
