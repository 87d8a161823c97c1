// Events on a volume, with the moments at which operations were answered.
ghost use Rattle.dn_volume.specs.Agrees.{Agrees};

use crate::asks::{Ask, op_of};
use dn_core::{Event, step};
use dn_model::Reply;
use dn_volume::{Outcome, Volume};
use fingerprint::Fingerprint;
use pm_device::{MemPm, Pm};
use std::alloc::Global;
use std::test::Fail;

// More events than any work here takes.
const MOST_EVENTS: u32 = 2000;

// A device that tells the present moment.
pub trait Moments {
    fn present(&self) -> u64;
}

impl Moments for MemPm {
    fn present(&self) -> u64 {
        self.moment()
    }
}

// An operation that was answered: the moment at which the event began that answered it, and the one at which that ended.
#[derive(Clone, Copy, Debug)]
pub struct Mark {
    pub begun: u64,
    pub answered: u64,
}

// How an event went.
#[derive(Clone, Copy, Debug, PartialEq, Eq)]
pub enum Went {
    On,
    Done,
    Idle,
    Refused,
    // what it needs is held, or not yet released
    Waits,
    Stopped,
}

// Makes an event, and marks it if it answers an operation. One that is cut short by a fence is marked as never answered.
pub fn make<D: Pm + Moments, F: Fingerprint>(
    alloc: Global,
    v: &mut Volume<D, F>,
    event: Event,
    marks: &mut Vec<Mark>,
) -> Result<Went, Fail>
    requires { Agrees D.state v.old }
    ensures { Agrees D.state v.new }
{
    let begun = v.device().present();
    match step(alloc, v, event) {
        Outcome::Running { .. } => Ok(Went::On),
        Outcome::Idle => Ok(Went::Idle),
        Outcome::Busy { .. } | Outcome::Released { .. } => Ok(Went::Waits),
        Outcome::Done(Reply::Done) => {
            let answered = v.device().present();
            marks.push(Mark { begun, answered })?;
            Ok(Went::Done)
        }
        Outcome::Done(Reply::Refused(_)) => Ok(Went::Refused),
        Outcome::Stopped => {
            let answered = u64::MAX;
            marks.push(Mark { begun, answered })?;
            Ok(Went::Stopped)
        }
        _ => Err(Fail::from("another outcome")),
    }
}

// Goes on with the operation of client 1 until it is answered or the volume has stopped.
pub fn finish<D: Pm + Moments, F: Fingerprint>(
    alloc: Global,
    v: &mut Volume<D, F>,
    marks: &mut Vec<Mark>,
) -> Result<Went, Fail>
    requires { Agrees D.state v.old }
    ensures { Agrees D.state v.new }
{
    for _ in 0..MOST_EVENTS {
        match make(alloc, v, Event::Advance { who: 1 }, marks)? {
            Went::On => {}
            went => return Ok(went),
        }
    }
    Err(Fail::from("too many events"))
}

// Runs an operation of client 1 until it is answered or the volume has stopped.
pub fn run<D: Pm + Moments, F: Fingerprint>(
    alloc: Global,
    v: &mut Volume<D, F>,
    ask: &Ask,
    marks: &mut Vec<Mark>,
) -> Result<Went, Fail>
    requires { Agrees D.state v.old }
    ensures { Agrees D.state v.new }
{
    let op = op_of(alloc, ask)?;
    match make(alloc, v, Event::Begin { who: 1, op }, marks)? {
        Went::On => finish(alloc, v, marks),
        went => Ok(went),
    }
}

// One event of reclaim and one of the daemon: whether neither had anything to do, or the volume has stopped.
pub fn work<D: Pm + Moments, F: Fingerprint>(
    alloc: Global,
    v: &mut Volume<D, F>,
    marks: &mut Vec<Mark>,
) -> Result<bool, Fail>
    requires { Agrees D.state v.old }
    ensures { Agrees D.state v.new }
{
    let reclaim = make(alloc, v, Event::Reclaim, marks)?;
    if reclaim == Went::Stopped {
        return Ok(true);
    }
    let daemon = make(alloc, v, Event::Daemon, marks)?;
    Ok(daemon == Went::Stopped || (reclaim == Went::Idle && daemon == Went::Idle))
}

// All work of reclaim and of the daemon, until nothing is left or the volume has stopped.
pub fn work_all<D: Pm + Moments, F: Fingerprint>(
    alloc: Global,
    v: &mut Volume<D, F>,
    marks: &mut Vec<Mark>,
) -> Result<(), Fail>
    requires { Agrees D.state v.old }
    ensures { Agrees D.state v.new }
{
    for _ in 0..MOST_EVENTS {
        if work(alloc, v, marks)? {
            return Ok(());
        }
    }
    Err(Fail::from("too many events"))
}

// The turn of a client: it goes on with its operation, or begins the first that is left. One that waits is left for its
// next turn. Answers whether there was any.
fn turn<D: Pm + Moments, F: Fingerprint>(
    alloc: Global,
    v: &mut Volume<D, F>,
    who: u32,
    asks: &mut &[Ask],
    marks: &mut Vec<Mark>,
) -> Result<bool, Fail>
    requires { Agrees D.state v.old }
    ensures { Agrees D.state v.new }
{
    if v.in_flight(who) {
        make(alloc, v, Event::Advance { who }, marks)?;
        return Ok(true);
    }
    let Some((ask, rest)) = asks.split_first() else {
        return Ok(false);
    };
    let op = op_of(alloc, ask)?;
    if make(alloc, v, Event::Begin { who, op }, marks)? != Went::Waits {
        *asks = rest;
    }
    Ok(true)
}

// Two clients, reclaim and the daemon in turn, until all is done.
pub fn run_both<D: Pm + Moments, F: Fingerprint>(
    alloc: Global,
    v: &mut Volume<D, F>,
    asks: [&[Ask]; 2],
    marks: &mut Vec<Mark>,
) -> Result<(), Fail>
    requires { Agrees D.state v.old }
    ensures { Agrees D.state v.new }
{
    let [mut first, mut second] = asks;
    for _ in 0..MOST_EVENTS {
        let one = turn(alloc, v, 1, &mut first, marks)?;
        let two = turn(alloc, v, 2, &mut second, marks)?;
        let idle = work(alloc, v, marks)?;
        if idle && !one && !two {
            return Ok(());
        }
    }
    Err(Fail::from("too many events"))
}
