// What clients read.
use fingerprint::CountWord;

/// A count word that a client read.
#[derive(Clone, Copy, Debug)]
pub struct Reading {
    /// The number of the line in the job, from 1.
    pub line: u64,
    /// The slot.
    pub slot: u64,
    /// The word, None where the slot isn't below the slots of the table.
    pub count: Option<CountWord>,
}

/// What a client read, in the order of its lines.
#[derive(Debug, Drop)]
pub struct Readings {
    /// The number of the client.
    pub who: u32,
    /// One for each line that reads a count.
    pub readings: Vec<Reading>,
}
