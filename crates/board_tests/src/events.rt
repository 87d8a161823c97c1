//! What is told of a tally, and its events.
ghost use Rattle.std.specs.Prelude.{◌≡◌, true, false};
ghost use Rattle.board_tests.specs.Kinds.{IsOneMore, IsSame};

use crate::tally::Tally;
use count_board::{CountChange, Held};
use dn_model::{Entry, Op, Reply};

impl Held for Tally {
    ghost use Rattle.std.specs.Prelude.{[], ◌∷◌};
    ghost use Rattle.board_tests.specs.Kinds.{told_of, IsEven};

    ghost words = { λ t. 0 ∷ 0 ∷ [] };

    ghost told = { λ t. told_of t.entries.items t.changes.items t.made };

    ghost fact = { λ base t. IsEven t };

    fn trace(&self) -> &[CountChange] {
        self.changes.as_slice()
    }
}

impl Tally {
    /// Adds an entry of this number and a change, where there is memory for them.
    pub fn add(&mut self, who: u32, change: CountChange) -> bool
        ensures added { result ≡ true → IsOneMore who change self.old self.new }
        ensures unchanged { result ≡ false → IsSame self.old self.new }
    {
        if self.made == u64::MAX {
            return false;
        }
        if self.entries.reserve(1).is_err() {
            return false;
        }
        if self.changes.reserve(1).is_err() {
            return false;
        }
        self.entries.push_reserved(Entry {
            who,
            op: Op::List,
            reply: Reply::Done,
        });
        self.changes.push_reserved(change);
        self.made += 1;
        true
    }
}
