// The threads of the daemon and of reclaim.
ghost use Rattle.count_board.specs.Boards.{IsPassOf};
ghost use Rattle.count_board.specs.Passes.{account, IsAway};
ghost use Rattle.dn_core.specs.declared.event.Event.TheVariants.{Daemon, Reclaim};
ghost use Rattle.dn_shared.specs.Turns.{IsAgain, IsOver};
ghost use Rattle.dn_shared.specs.Calls.{Loops};

use crate::ahead::hash_copies;
use crate::call::CallFault;
use crate::gate::Gate;
use crate::shared::Shared;
use crate::site::Site;
use count_board::Pass;
use dn_core::Event;
use dn_volume::Outcome;
use fingerprint::Fingerprint;
use pm_device::Pm;
use std::alloc::Global;
use std::sync::Wait;

impl<D: Pm, F: Fingerprint> Shared<D, F> {
    /// Events of the daemon, one a turn, until one has nothing to do after every client has left.
    /// It isn't promised that a turn comes, or that the clients leave.
    ///
    /// In the turn of an event it copies pages that it is to look at next; it takes their prints
    /// once it gave the turn back, and hands them in at its next turn. Without memory for copies it
    /// makes its events alone, and takes prints in its turns.
    ///
    /// # Errors
    /// `NoMemory` where an event finds no memory. `Stopped` where a fence of the device failed, in
    /// this call or before.
    pub fn daemon_loop<R: Wait, G: Gate>(
        &self,
        alloc: Global,
        rt: &R,
        pass: &mut Pass<Site<D, F>>,
        gate: &G,
    ) -> Result<(), CallFault>
        requires own { IsPassOf self.now.board pass.old }
        requires away { IsAway pass.old }
        ensures again { IsAgain self.now.board pass.old pass.new }
        ensures loops { Loops (IsOver Daemon) (account pass.old) (account pass.new) result }
    {
        let mut copies = None;
        for _ in rt.forever() {
            let (made, taken) = self.daemon_turn(alloc, rt, pass, copies);
            gate.between(15, made.events);
            match made.outcome {
                Outcome::NoMemory => return Err(CallFault::NoMemory),
                Outcome::Stopped => return Err(CallFault::Stopped),
                Outcome::Idle if made.deserted => return Ok(()),
                _ => {}
            }
            copies = hash_copies(taken);
        }
        unreachable!()
    }

    /// Events of reclaim, one a turn, until one has nothing to do after every client has left. It
    /// isn't promised that a turn comes, or that the clients leave.
    ///
    /// # Errors
    /// `NoMemory` where an event finds no memory. `Stopped` where a fence of the device failed, in
    /// this call or before.
    pub fn reclaim_loop<R: Wait, G: Gate>(
        &self,
        alloc: Global,
        rt: &R,
        pass: &mut Pass<Site<D, F>>,
        gate: &G,
    ) -> Result<(), CallFault>
        requires own { IsPassOf self.now.board pass.old }
        requires away { IsAway pass.old }
        ensures again { IsAgain self.now.board pass.old pass.new }
        ensures loops { Loops (IsOver Reclaim) (account pass.old) (account pass.new) result }
    {
        for _ in rt.forever() {
            let made = self.turn(alloc, rt, pass, Event::Reclaim);
            gate.between(16, made.events);
            match made.outcome {
                Outcome::NoMemory => return Err(CallFault::NoMemory),
                Outcome::Stopped => return Err(CallFault::Stopped),
                Outcome::Idle if made.deserted => return Ok(()),
                _ => {}
            }
        }
        unreachable!()
    }
}
