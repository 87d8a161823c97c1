// Whose turn is next while scripts are run, by what was answered so far.
ghost use Rattle.std.specs.Prelude.{◌≡◌, ℕ, ◌<◌, ◌&&◌, slice_get, slice_set, OnOk, IfOk, IfNone, ◌++◌, ◌∷◌, [], if◌then◌else◌};
ghost use Rattle.std.specs.Option.{option_copied};
ghost use Rattle.job_runs.specs.Turns.{Played, script_of, event_of as event_in_turn, first_in, upcoming, at_start, is_answered as are_answered, is_over as is_run_over, round_of};
ghost use Rattle.job_runs.specs.Scripts.{Rises};

use crate::plan::{Order, Scripts};
use crate::turn::{Turn, has_rest, is_idle};
use dn_core::Event;
use dn_model::{DAEMON, Op, RECLAIM};
use dn_volume::Outcome;
use std::alloc::{AllocError, Global};
use std::collections::VecDeque;
use std::marker::Model;

// The number behind the last client's.
const PLACES: usize = 15;

// A client's operation of this number, counted from 0.
fn operation_of(scripts: &Scripts, who: u32, number: usize) -> Option<&Op>
    ensures { option_copied result ≡ slice_get (script_of scripts.now who) number }
{
    for (client, script) in scripts.scripts() {
        if *client == who {
            return script.ops().get(number);
        }
    }
    None
}

/// How far a run of scripts is: the counts that the turns need, seen as a `Standing`.
#[derive(Debug, Drop)]
pub(crate) struct Player {
    // how many operations each client has answered, by its number
    answered: [usize; 15],
    // whether it has one in flight
    flying: [bool; 15],
    // whose turns are due
    due: VecDeque<u32>,
    // whether this is a whole round in which the daemon and reclaim were idle so far
    idle: bool,
}

impl Model for Player {
    ghost use Rattle.job_runs.specs.Player.{Standing};

    ghost Value = { Standing };

    ghost view = { λ t. record { answered = t.answered; flying = t.flying; due = t.due.items; idle = t.idle } };
}

impl Player {
    ghost use Rattle.job_runs.specs.Player.{HasCounts, IsPlayer, GoesTo, HasPlace, Notes, answers_then, flights_then, noted};

    /// Before anything is played, with these turns due.
    ///
    /// # Errors
    /// Where there is no memory for the turns.
    pub(crate) fn new(alloc: Global, turns: &[u32]) -> Result<Player, AllocError>
        ensures { IfOk result (λ player. IsPlayer (at_start turns.now) player) }
    {
        let mut due = VecDeque::with_capacity(alloc, turns.len())?;
        for who in turns {
            due.push_back(*who)?;
        }
        Ok(Player {
            answered: [0; 15],
            flying: [false; 15],
            due,
            idle: false,
        })
    }

    // What a client does in its turn.
    fn client_event(
        &self,
        alloc: Global,
        scripts: &Scripts,
        who: u32,
    ) -> Result<Option<Event>, AllocError>
        requires clients { Rises 0 scripts.now }
        requires client { (who ≡ 15 → ⊥) × (who ≡ 16 → ⊥) }
        ensures { IfOk result (λ event. (p : Played) → HasCounts p self.now.answered self.now.flying
            → event ≡ event_in_turn scripts.now p who) }
    {
        let place = who as usize;
        if place >= PLACES {
            return Ok(None);
        }
        if self.flying[place] {
            return Ok(Some(Event::Advance { who }));
        }
        match operation_of(scripts, who, self.answered[place]) {
            Some(op) => Ok(Some(Event::Begin {
                who,
                op: op.copy(alloc)?,
            })),
            None => Ok(None),
        }
    }

    // What an actor does in its turn.
    fn event_of(
        &self,
        alloc: Global,
        scripts: &Scripts,
        who: u32,
    ) -> Result<Option<Event>, AllocError>
        requires { Rises 0 scripts.now }
        ensures { IfOk result (λ event. (p : Played) → HasCounts p self.now.answered self.now.flying
            → event ≡ event_in_turn scripts.now p who) }
    {
        match who {
            DAEMON => Ok(Some(Event::Daemon)),
            RECLAIM => Ok(Some(Event::Reclaim)),
            _ => self.client_event(alloc, scripts, who),
        }
    }

    // The event of the first of the turns that are due in which anything happens.
    fn take_due(&mut self, alloc: Global, scripts: &Scripts) -> Result<Option<Event>, AllocError>
        requires { Rises 0 scripts.now }
        ensures goes { IfOk result (λ event. (p : Played) → HasCounts p self.old.answered self.old.flying
            → GoesTo (first_in scripts.now p self.old.idle self.old.due) p self.new event) }
        ensures none { IfOk result (λ event. IfNone event (self.new ≡ record self.old { due = [] })) }
    {
        while let Some(who) = self.due.pop_front() {
            if let Some(event) = self.event_of(alloc, scripts, who)? {
                return Ok(Some(event));
            }
        }
        Ok(None)
    }

    // Whether every script is answered.
    fn is_answered(&self, scripts: &Scripts) -> bool
        requires { Rises 0 scripts.now }
        ensures { (p : Played) → HasCounts p self.now.answered self.now.flying
            → result ≡ are_answered scripts.now p.entries }
    {
        for (client, script) in scripts.scripts() {
            if self.answered[*client as usize] != script.ops().len() {
                return false;
            }
        }
        true
    }

    // Whether no round follows.
    fn is_over(&self, scripts: &Scripts, order: Order) -> bool
        requires { Rises 0 scripts.now }
        ensures { (p : Played) → HasCounts p self.now.answered self.now.flying
            → self.now.idle ≡ p.idle
            → result ≡ is_run_over order scripts.now p }
    {
        match order {
            Order::InTurns => self.is_answered(scripts) && self.idle,
            Order::Alone | Order::WithRest => self.is_answered(scripts),
        }
    }

    // Puts the turns of a whole round behind those that are due.
    fn push_round(&mut self, scripts: &Scripts, order: Order) -> Result<(), AllocError>
        ensures { OnOk result (self.new ≡ record self.old {
          due = self.old.due ++ round_of order scripts.now;
        }) }
    {
        if order != Order::InTurns {
            return Ok(self.due.push_back(1)?);
        }
        for (client, _) in scripts.scripts() {
            self.due.push_back(*client)?;
        }
        self.due.push_back(DAEMON)?;
        self.due.push_back(RECLAIM)?;
        Ok(())
    }

    /// Goes on to the next event of the run. `None` where it is over.
    ///
    /// # Errors
    /// Where there is no memory for the turns or for the operation.
    pub(crate) fn next(
        &mut self,
        alloc: Global,
        scripts: &Scripts,
        order: Order,
    ) -> Result<Option<Event>, AllocError>
        requires { Rises 0 scripts.now }
        ensures { IfOk result (λ event. (p : Played) → IsPlayer p self.old
            → GoesTo (upcoming order scripts.now p) p self.new event) }
    {
        if let Some(event) = self.take_due(alloc, scripts)? {
            return Ok(Some(event));
        }
        if self.is_over(scripts, order) {
            return Ok(None);
        }
        self.push_round(scripts, order)?;
        self.idle = true;
        self.take_due(alloc, scripts)
    }

    // Notes in a client's counts what it was answered.
    fn note_client(&mut self, who: u32, outcome: &Outcome)
        requires place { HasPlace (Turn.Begin who) self.old }
        ensures { self.new ≡ record self.old {
          answered = answers_then who outcome.now self.old.answered;
          flying = flights_then who outcome.now self.old.flying;
        } }
    {
        let place = who as usize;
        match outcome {
            Outcome::Running { left } => self.flying[place] = *left > 0,
            Outcome::Done(_) => {
                self.answered[place] += 1;
                self.flying[place] = false;
            }
            Outcome::Idle => self.flying[place] = false,
            _ => {}
        }
    }

    // Notes what the event of a turn was answered.
    fn note_turn(&mut self, turn: Turn, outcome: &Outcome)
        requires { HasPlace turn self.old }
        ensures { self.new ≡ noted turn outcome.now self.old }
    {
        match turn {
            Turn::Begin { who } => self.note_client(who, outcome),
            Turn::Advance { who } => self.note_client(who, outcome),
            Turn::Daemon | Turn::Reclaim => self.idle = self.idle && is_idle(outcome),
        }
    }

    // Puts an event of the daemon and one of reclaim before the turns that are due.
    fn push_rest(&mut self) -> Result<(), AllocError>
        ensures { OnOk result (self.new ≡ record self.old { due = 15 ∷ 16 ∷ self.old.due }) }
    {
        self.due.push_front(RECLAIM)?;
        self.due.push_front(DAEMON)?;
        Ok(())
    }

    /// Notes how the event of this turn went.
    ///
    /// # Errors
    /// Where there is no memory for the turns that are due now.
    pub(crate) fn note(
        &mut self,
        order: Order,
        turn: Turn,
        outcome: &Outcome,
    ) -> Result<(), AllocError>
        requires { HasPlace turn self.old }
        ensures { OnOk result (Notes order turn outcome.now self.old self.new) }
    {
        self.note_turn(turn, outcome);
        if has_rest(order, turn, outcome) {
            self.push_rest()?;
        }
        Ok(())
    }
}
