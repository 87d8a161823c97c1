// What a turn made.
use dn_volume::Outcome;

/// One event of a shared volume.
#[derive(Debug, Drop)]
pub struct Made {
    /// What it answered.
    pub outcome: Outcome,
    /// Whether every client has left.
    pub deserted: bool,
    /// How many events the pass has made, up to the last number there is.
    pub events: u32,
}
