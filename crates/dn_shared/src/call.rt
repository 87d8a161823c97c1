// Why a call of a shared volume wasn't answered.
use thiserror::Error;

/// Why an operation wasn't answered, or a loop didn't come to its end.
#[derive(Clone, Copy, Debug, PartialEq, Eq, Error)]
pub enum CallFault {
    /// Memory ran out.
    #[error("out of memory")]
    NoMemory,
    /// A fence of the device failed.
    #[error("the device failed")]
    Stopped,
}
