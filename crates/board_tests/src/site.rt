//! A value that is generic in its device, as the volume is.
ghost use Rattle.std.specs.Prelude.{◌≡◌};
ghost use Rattle.count_board.specs.Passes.{known, account, IsAway};
ghost use Rattle.count_board.specs.Boards.{IsPassOf};

use count_board::{Board, CountChange, Held, Pass};
use dn_model::Entry;
use pm_device::Pm;
use std::sync::Wait;

/// A device with the entries and changes of a run on it.
pub struct Site<D: Pm> {
    /// The device.
    pub device: D,
    /// The operations that were answered.
    pub entries: Vec<Entry>,
    /// The count words that changed.
    pub changes: Vec<CountChange>,
}

impl<D: Pm> Held for Site<D> {
    ghost use Rattle.std.specs.Prelude.{◌≤◌, []};
    ghost use Rattle.board_tests.specs.Kinds.{told_of};

    ghost words = { λ s. [] };

    ghost told = { λ s. told_of s.entries.items s.changes.items 0 };

    ghost fact = { λ first s. (D.state first.device).faults ≤ (D.state s.device).faults };

    fn trace(&self) -> &[CountChange] {
        self.changes.as_slice()
    }
}

/// One turn, in which the device is looked at. It answers how many words the device has.
pub fn look<D: Pm, R: Wait>(rt: &R, board: &Board<Site<D>>, pass: &mut Pass<Site<D>>) -> u64
    requires own { IsPassOf board.now pass.old }
    requires away { IsAway pass.old }
    ensures own { IsPassOf board.now pass.new }
    ensures away { IsAway pass.new }
    ensures calls { (account pass.new).calls ≡ (account pass.old).calls }
{
    let site = board.take_turn(rt, pass);
    let words = site.device.words();
    board.give_turn(pass, site, &[]);
    words
}
