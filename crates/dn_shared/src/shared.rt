// A volume that threads share.
ghost use Rattle.std.specs.Prelude.{◌≡◌, ◌<◌, length};
ghost use Rattle.pm_layout.specs.Geometry.{slots};
ghost use Rattle.fingerprint.specs.Count.{count_word};
ghost use Rattle.count_board.specs.declared.view.Seen.TheVariants.{Count, Front};
ghost use Rattle.count_board.specs.Boards.{base_of, slots_of, IsPassOf};
ghost use Rattle.count_board.specs.Passes.{account, IsAway, Notes};
ghost use Rattle.dn_shared.specs.Turns.{MayMake, IsAgain, TurnTells};

use crate::made::Made;
use crate::site::Site;
use count_board::{Board, Pass};
use dn_core::{Event, step};
use fingerprint::{CountWord, Fingerprint};
use pm_device::Pm;
use std::alloc::Global;
use std::sync::Wait;

/// A volume that threads take turns with, and the counts of its rows, which they read without a
/// turn.
pub struct Shared<D: Pm, F: Fingerprint> {
    /// The board.
    pub board: Board<Site<D, F>>,
    ghost counted: { slots_of board ≡ slots (base_of board).volume.parts.geometry },
}

impl<D: Pm, F: Fingerprint> Shared<D, F> {
    // One event, in a turn of the pass.
    pub(crate) fn turn<R: Wait>(
        &self,
        alloc: Global,
        rt: &R,
        pass: &mut Pass<Site<D, F>>,
        event: Event,
    ) -> Made
        requires own { IsPassOf self.now.board pass.old }
        requires away { IsAway pass.old }
        requires may { MayMake (length (base_of self.now.board).gone.items) (account pass.old)
            event }
        ensures again { IsAgain self.now.board pass.old pass.new }
        ensures tells { TurnTells event result (account pass.old) (account pass.new) }
    {
        let number = pass.number();
        let mut site = self.board.take_turn(rt, pass);
        let from = site.volume.trace().len();
        let outcome = step(alloc, &mut site.volume, event);
        let events = site.count_event(number);
        let deserted = site.is_deserted();
        self.board.pass_turn(pass, site, from);
        Made {
            outcome,
            deserted,
            events,
        }
    }

    /// How many slots have a count word.
    pub fn slots(&self) -> u64
        ensures { result ≡ slots (base_of self.now.board).volume.parts.geometry }
    {
        self.board.slots()
    }

    /// Reads the count word of a slot: one load, with no turn, no memory and no wait.
    pub fn read_count(&self, pass: &mut Pass<Site<D, F>>, slot: u64) -> CountWord
        requires own { IsPassOf self.now.board pass.old }
        requires inside { slot < slots (base_of self.now.board).volume.parts.geometry }
        ensures { Notes pass.old (Count slot (count_word result.rfc result.uc)) pass.new }
    {
        self.board.read_count(pass, slot)
    }

    /// Reads how many changes of count words were published: one load, with no turn, no memory and
    /// no wait.
    pub fn read_front(&self, pass: &mut Pass<Site<D, F>>) -> u64
        requires { IsPassOf self.now.board pass.old }
        ensures { Notes pass.old (Front result) pass.new }
    {
        self.board.read_front(pass)
    }
}
