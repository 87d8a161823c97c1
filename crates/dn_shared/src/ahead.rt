// Turns of the daemon, which copies pages in them and takes their prints between them.
ghost use Rattle.std.specs.Prelude.{◌≡◌};
ghost use Rattle.count_board.specs.Boards.{IsPassOf};
ghost use Rattle.count_board.specs.Passes.{account, IsAway};
ghost use Rattle.dn_volume.specs.Agrees.{Agrees};
ghost use Rattle.dn_core.specs.declared.event.Event.TheVariants.{Daemon};
ghost use Rattle.dn_shared.specs.Turns.{IsAgain, TurnTells};

use crate::made::Made;
use crate::shared::Shared;
use crate::site::Site;
use count_board::Pass;
use dedupe_daemon::{copy_ahead, hand_in};
use dn_core::{Event, step};
use dn_volume::{Batch, Outcome, Volume};
use fingerprint::Fingerprint;
use pm_device::Pm;
use std::alloc::Global;
use std::sync::Wait;

// Copies that were taken before are handed in.
fn take_copies<D: Pm, F: Fingerprint>(v: &mut Volume<D, F>, copies: Option<Batch<F>>)
    ensures { v.new ≡ record v.old { kept = v.new.kept } }
{
    if let Some(batch) = copies {
        hand_in(v, batch);
    }
}

// Whether pages are to be copied: no item is begun, or one is of whose pages no copies were handed
// in.
fn is_to_copy<D: Pm, F: Fingerprint>(v: &Volume<D, F>) -> bool {
    match v.parts.sharing {
        Some(item) => item.done == 0 && v.kept.pages().is_empty(),
        None => true,
    }
}

// Copies of the pages of the item that is begun and of the next one. None after an event that
// changed nothing, where they are there already, and where there is no memory for them.
fn copy_next<D: Pm, F: Fingerprint>(
    alloc: Global,
    v: &Volume<D, F>,
    outcome: &Outcome,
) -> Option<Batch<F>>
    requires { Agrees D.state v.now }
{
    if matches!(outcome, Outcome::Running { .. }) && is_to_copy(v) {
        return copy_ahead(alloc, v, 1).ok();
    }
    None
}

/// Copies with their prints.
pub(crate) fn hash_copies<F: Fingerprint>(copies: Option<Batch<F>>) -> Option<Batch<F>> {
    let mut batch = copies?;
    batch.hash();
    Some(batch)
}

impl<D: Pm, F: Fingerprint> Shared<D, F> {
    // One event of the daemon, in a turn of the pass: copies are handed in before it, and further
    // ones are taken after it.
    pub(crate) fn daemon_turn<R: Wait>(
        &self,
        alloc: Global,
        rt: &R,
        pass: &mut Pass<Site<D, F>>,
        copies: Option<Batch<F>>,
    ) -> (Made, Option<Batch<F>>)
        requires own { IsPassOf self.now.board pass.old }
        requires away { IsAway pass.old }
        ensures again { IsAgain self.now.board pass.old pass.new }
        ensures tells { TurnTells Daemon result.0 (account pass.old) (account pass.new) }
    {
        let number = pass.number();
        let mut site = self.board.take_turn(rt, pass);
        let from = site.volume.trace().len();
        take_copies(&mut site.volume, copies);
        let outcome = step(alloc, &mut site.volume, Event::Daemon);
        let taken = copy_next(alloc, &site.volume, &outcome);
        let events = site.count_event(number);
        let deserted = site.is_deserted();
        self.board.pass_turn(pass, site, from);
        let made = Made {
            outcome,
            deserted,
            events,
        };
        (made, taken)
    }
}
