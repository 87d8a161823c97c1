// Calls of clients.
ghost use Rattle.std.specs.Prelude.{◌≡◌, true, None, Some};
ghost use Rattle.dn_model.specs.declared.op.Op.{Op as KeptOp};
ghost use Rattle.count_board.specs.declared.told.Hand.TheVariants.{Fly};
ghost use Rattle.count_board.specs.Boards.{IsPassOf};
ghost use Rattle.count_board.specs.Passes.{account, IsAway};
ghost use Rattle.dn_shared.specs.Marks.{SaysLast, SaysStopped};
ghost use Rattle.dn_shared.specs.Turns.{IsAgain, Keeps, AdvanceTells, Begun, SaysAsAnswered};
ghost use Rattle.dn_shared.specs.Calls.{IsClientPass, MayCall, Calls, Starts, Finishes, Leaves};

use crate::call::CallFault;
use crate::gate::Gate;
use crate::shared::Shared;
use crate::site::Site;
use count_board::Pass;
use dn_core::Event;
use dn_model::{Op, Reply};
use dn_volume::Outcome;
use fingerprint::Fingerprint;
use pm_device::Pm;
use std::alloc::Global;
use std::sync::Wait;

impl<D: Pm, F: Fingerprint> Shared<D, F> {
    // Whether the volume is stopped, as a turn without an event finds it.
    fn is_stopped<R: Wait>(&self, rt: &R, pass: &mut Pass<Site<D, F>>) -> bool
        requires own { IsPassOf self.now.board pass.old }
        requires away { IsAway pass.old }
        ensures again { IsAgain self.now.board pass.old pass.new }
        ensures keeps { Keeps (account pass.old) (account pass.new) }
        ensures says { SaysLast (account pass.new) (λ mark. mark.stopped ≡ result) }
        ensures past { SaysStopped (account pass.old) → result ≡ true }
    {
        let site = self.board.take_turn(rt, pass);
        let stopped = site.volume.stopped();
        self.board.give_turn(pass, site, &[]);
        stopped
    }

    // Begins an operation of a client once. Where there is no memory for a copy of it, a turn tells
    // whether the volume is stopped.
    fn begin_once<R: Wait, G: Gate>(
        &self,
        alloc: Global,
        rt: &R,
        pass: &mut Pass<Site<D, F>>,
        op: &Op,
        gate: &G,
    ) -> Outcome
        requires own { IsPassOf self.now.board pass.old }
        requires away { IsAway pass.old }
        requires client { IsClientPass self.now.board pass.old }
        requires may { MayCall (account pass.old) }
        ensures again { IsAgain self.now.board pass.old pass.new }
        ensures begun { Begun op.now (account pass.old) (account pass.new) result }
        ensures says { SaysAsAnswered result (account pass.new) }
    {
        let who = pass.number();
        let Ok(copy) = op.copy(alloc) else {
            return if self.is_stopped(rt, pass) {
                Outcome::Stopped
            } else {
                Outcome::NoMemory
            };
        };
        let made = self.turn(alloc, rt, pass, Event::Begin { who, op: copy });
        gate.between(who, made.events);
        made.outcome
    }

    // Begins an operation of a client, again for as long as it is held up or waits for releases:
    // its reply, if it has one already.
    fn begin<R: Wait, G: Gate>(
        &self,
        alloc: Global,
        rt: &R,
        pass: &mut Pass<Site<D, F>>,
        op: &Op,
        gate: &G,
    ) -> Result<Option<Reply>, CallFault>
        requires own { IsPassOf self.now.board pass.old }
        requires away { IsAway pass.old }
        requires client { IsClientPass self.now.board pass.old }
        requires may { MayCall (account pass.old) }
        ensures again { IsAgain self.now.board pass.old pass.new }
        ensures starts { Starts op.now (account pass.old) (account pass.new) result }
    {
        for _ in rt.forever() {
            match self.begin_once(alloc, rt, pass, op, gate) {
                Outcome::Running { .. } => return Ok(None),
                Outcome::Done(reply) => return Ok(Some(reply)),
                Outcome::NoMemory => return Err(CallFault::NoMemory),
                Outcome::Stopped => return Err(CallFault::Stopped),
                _ => {}
            }
        }
        unreachable!()
    }

    // Goes on with a client's operation once.
    fn advance_once<R: Wait, G: Gate>(
        &self,
        alloc: Global,
        rt: &R,
        pass: &mut Pass<Site<D, F>>,
        gate: &G,
    ) -> Outcome
        requires own { IsPassOf self.now.board pass.old }
        requires away { IsAway pass.old }
        requires client { IsClientPass self.now.board pass.old }
        requires flies { (op : KeptOp) × ((account pass.old).hand ≡ Some (Fly op)) }
        ensures again { IsAgain self.now.board pass.old pass.new }
        ensures tells { AdvanceTells (account pass.old) (account pass.new) result }
        ensures says { SaysAsAnswered result (account pass.new) }
    {
        let who = pass.number();
        let made = self.turn(alloc, rt, pass, Event::Advance { who });
        gate.between(who, made.events);
        made.outcome
    }

    // Goes on with a client's operation until it is answered.
    fn finish<R: Wait, G: Gate>(
        &self,
        alloc: Global,
        rt: &R,
        pass: &mut Pass<Site<D, F>>,
        gate: &G,
    ) -> Result<Reply, CallFault>
        requires own { IsPassOf self.now.board pass.old }
        requires away { IsAway pass.old }
        requires client { IsClientPass self.now.board pass.old }
        requires flies { (op : KeptOp) × ((account pass.old).hand ≡ Some (Fly op)) }
        ensures again { IsAgain self.now.board pass.old pass.new }
        ensures finishes { (op : KeptOp) → (account pass.old).hand ≡ Some (Fly op)
            → Finishes op (account pass.old) (account pass.new) result }
    {
        for _ in rt.forever() {
            match self.advance_once(alloc, rt, pass, gate) {
                Outcome::Done(reply) => return Ok(reply),
                Outcome::Stopped => return Err(CallFault::Stopped),
                _ => {}
            }
        }
        unreachable!()
    }

    /// One operation of a client, one event a turn. A begin that is held up or waits for releases
    /// is made again. It isn't promised that a turn comes.
    ///
    /// # Errors
    /// `NoMemory` where memory is wanting: the operation wasn't begun. `Stopped` where a fence of
    /// the device failed, in this call or before.
    pub fn call<R: Wait, G: Gate>(
        &self,
        alloc: Global,
        rt: &R,
        pass: &mut Pass<Site<D, F>>,
        op: Op,
        gate: &G,
    ) -> Result<Reply, CallFault>
        requires own { IsPassOf self.now.board pass.old }
        requires away { IsAway pass.old }
        requires client { IsClientPass self.now.board pass.old }
        requires may { MayCall (account pass.old) }
        ensures again { IsAgain self.now.board pass.old pass.new }
        ensures calls { Calls op (account pass.old) (account pass.new) result }
    {
        match self.begin(alloc, rt, pass, &op, gate) {
            Ok(Some(reply)) => Ok(reply),
            Ok(None) => self.finish(alloc, rt, pass, gate),
            Err(fault) => Err(fault),
        }
    }

    /// This client makes no more calls. It has nothing in flight.
    pub fn leave<R: Wait>(&self, rt: &R, pass: &mut Pass<Site<D, F>>)
        requires own { IsPassOf self.now.board pass.old }
        requires away { IsAway pass.old }
        requires client { IsClientPass self.now.board pass.old }
        requires none { (account pass.old).hand ≡ None }
        ensures again { IsAgain self.now.board pass.old pass.new }
        ensures leaves { Leaves (account pass.old) (account pass.new) }
    {
        let place = pass.number() as usize - 1;
        let mut site = self.board.take_turn(rt, pass);
        site.gone[place] = true;
        self.board.give_turn(pass, site, &[]);
    }
}
