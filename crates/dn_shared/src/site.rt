// What the threads take turns with.
ghost use Rattle.std.specs.Prelude.{◌≡◌};
ghost use Rattle.dn_shared.specs.Left.{all_left};

use count_board::{CountChange, Held};
use dn_volume::Volume;
use fingerprint::Fingerprint;
use pm_device::Pm;

/// A volume, together with the clients that have left.
#[derive(Drop)]
pub struct Site<D: Pm, F: Fingerprint> {
    /// The volume.
    pub volume: Volume<D, F>,
    /// Whether each client has left, that of number 1 first.
    pub gone: Vec<bool>,
    /// The count word of each slot as the threads began, 0 without a row.
    pub opening: Vec<u64>,
    /// How many events the pass of each number has made, from number 0 on, which no pass has.
    pub events: Vec<u32>,
}

impl<D: Pm, F: Fingerprint> Held for Site<D, F> {
    ghost use Rattle.dn_shared.specs.Sites.{told_of, IsShared};

    ghost words = { λ x. x.opening.items };

    ghost told = { λ x. told_of x };

    ghost fact = { λ base x. IsShared D.state F.print base x };

    fn trace(&self) -> &[CountChange] {
        self.volume.trace()
    }
}

impl<D: Pm, F: Fingerprint> Site<D, F> {
    // Whether every client has left.
    pub(crate) fn is_deserted(&self) -> bool
        ensures { result ≡ all_left self.now.gone.items }
    {
        self.gone.iter().all(|gone| *gone)
    }

    // Counts an event of a pass: how many it has made.
    pub(crate) fn count_event(&mut self, number: u32) -> u32
        ensures { self.new ≡ record self.old { events = self.new.events } }
    {
        match self.events.get_mut(number as usize) {
            Some(count) => {
                *count = count.saturating_add(1);
                *count
            }
            None => 0,
        }
    }
}
