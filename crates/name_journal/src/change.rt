// Changes of words, and which of them a journal may hold.
ghost use Rattle.std.specs.Prelude.{◌≡◌, ◌≢◌, ◌+◌, ◌*◌, ◌<◌, ◌≤◌, ◌↔◌, ℕ, List, length, take, IsTrue};
ghost use Rattle.dn_model.specs.Rolled.{IsJournaled};
ghost use Rattle.name_journal.specs.Changes.{address, AreChanges, IsNewAt};

use pm_layout::Geometry;

/// The most changes that one journal holds.
pub const MOST_CHANGES: u64 = 4;

/// A word and a value for it.
#[derive(Clone, Copy, Debug, PartialEq, Eq)]
pub struct Change {
    /// The number of the word in the image.
    pub at: u64,
    pub value: u64,
}

/// Whether the word is the state, the head or the tail of an inode.
pub fn is_journaled(g: &Geometry, at: u64) -> bool
    ensures { IsTrue result ↔ IsJournaled g.now.inodes at }
{
    if at < 1024 {
        return false;
    }
    let word = at - 1024;
    word / 16 < g.inodes && word % 16 < 3
}

// Whether no change before this one is of the same word.
fn is_new_at(changes: &[Change], i: usize) -> bool
    requires { i < length changes.now }
    ensures { IsTrue result ↔ IsNewAt changes.now i }
{
    for j in 0..i {
        if changes[j].at == changes[i].at {
            return false;
        }
    }
    true
}

/// Whether these are changes of different words, each the state, the head or the tail of an inode.
pub fn are_changes(g: &Geometry, changes: &[Change]) -> bool
    ensures { IsTrue result ↔ AreChanges g.now.inodes changes.now }
{
    for i in 0..changes.len() {
        if !is_journaled(g, changes[i].at) {
            return false;
        }
        if !is_new_at(changes, i) {
            return false;
        }
    }
    true
}
