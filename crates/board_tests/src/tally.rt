//! A value for a board: entries, and as many changes of count words.
use count_board::CountChange;
use dn_model::Entry;

/// Entries, and as many changes of count words.
#[derive(Drop)]
pub struct Tally {
    /// One for each event.
    pub entries: Vec<Entry>,
    /// One for each event.
    pub changes: Vec<CountChange>,
    /// How many events were made.
    pub made: u64,
}
