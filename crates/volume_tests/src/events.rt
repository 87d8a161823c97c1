// Events of several actors on an image of 64 pages and 8 inodes.
ghost use Rattle.pm_device.specs.Settled.{Still};
ghost use Rattle.dn_volume.specs.Agrees.{Agrees};
ghost use Rattle.job_runs.specs.Scripts.{Rises, Suits};

use crate::harness::{device_of, expect_text, found, plan_of_job, run_job, words_after, words_of};
use denova_runs::{RunEnd, run_scripts};
use dn_core::{Event, run_events};
use dn_model::{CountChange, ImageFault, Op};
use dn_volume::{Outcome, Volume};
use fingerprint::{CountWord, Fingerprint, Sha1Print};
use job_runs::Order;
use job_texts::{JobPlan, stopped_text};
use pm_device::{MemPm, Pm};
use std::alloc::{AllocError, Global};
use std::process::Abort;
use std::test::Fail;

// Whose event is next. A line of a job tells the operation that a client begins.
#[derive(Clone, Copy, Debug)]
enum Turn {
    Begin(u32, &'static str),
    Advance(u32),
    Daemon,
    Reclaim,
}

// What an event answers, without the reply.
#[derive(Clone, Copy, Debug, PartialEq, Eq)]
enum Told {
    Running(u64),
    Done,
    Busy(u32),
    Released,
    Idle,
    NotYours,
    NoMemory,
    Stopped,
}

// Events on what a job left, and what is told of them.
struct Played {
    // what they are about
    name: &'static str,
    // the job of before
    start: &'static str,
    // the events, with what each answers
    turns: &'static [(Turn, Told)],
    // the changes of count words: slot, references, updates
    trace: &'static [(u64, u32, u32)],
    // what is found of the words that are left
    found: &'static str,
}

use Told::{Busy, Done, Idle, NotYours, Running};
use Turn::{Advance, Begin, Daemon, Reclaim};

const PLAYED: [Played; 3] = [
    Played {
        name: "what is being written isn't read",
        start: "create f\nwrite f 0 61616161\n",
        turns: &[
            (Begin(1, "write f 0 62626262"), Running(3)),
            (Advance(1), Running(2)),
            (Begin(2, "read f 0 4"), Done),
            (Advance(1), Running(1)),
            (Advance(1), Done),
            (Daemon, Running(4)),
            (Reclaim, Running(1)),
            (Daemon, Running(3)),
            (Reclaim, Running(0)),
            (Daemon, Running(1)),
            (Reclaim, Idle),
            (Daemon, Running(0)),
            (Reclaim, Idle),
            (Daemon, Idle),
            (Reclaim, Idle),
        ],
        trace: &[(20, 1, 1), (20, 0, 0), (43, 0, 1), (43, 1, 0)],
        found: "ok files 1 dying 0 rows 1 mapped 1 free 55 exact\nrow 43 9 1 0\n",
    },
    Played {
        name: "a page is shared while it is written over",
        start: "create f\nwrite f 0 61\n",
        turns: &[
            (Begin(1, "create g"), Running(2)),
            (Advance(1), Running(1)),
            (Advance(1), Done),
            (Begin(1, "write g 0 61"), Running(2)),
            (Advance(1), Running(1)),
            (Advance(1), Done),
            (Begin(2, "write f 0 62"), Running(3)),
            (Advance(2), Running(2)),
            (Advance(2), Running(1)),
            (Daemon, Running(4)),
            (Daemon, Running(3)),
            (Advance(2), Done),
            (Reclaim, Running(0)),
            (Daemon, Running(2)),
            (Daemon, Running(1)),
            (Daemon, Running(0)),
            (Reclaim, Idle),
            (Daemon, Running(4)),
            (Reclaim, Idle),
            (Daemon, Running(3)),
            (Reclaim, Idle),
            (Daemon, Running(1)),
            (Reclaim, Idle),
            (Daemon, Running(0)),
            (Reclaim, Idle),
            (Daemon, Idle),
            (Reclaim, Idle),
        ],
        trace: &[
            (37, 1, 1),
            (37, 1, 2),
            (37, 0, 1),
            (37, 1, 0),
            (33, 0, 1),
            (33, 1, 0),
        ],
        found: "ok files 2 dying 0 rows 2 mapped 2 free 53 exact\nrow 33 11 1 0\nrow 37 8 1 0\n",
    },
    Played {
        name: "one operation at a time holds a file",
        start: "create f\ncreate g\n",
        turns: &[
            (Begin(1, "write f 0 61"), Running(2)),
            (Begin(2, "write f 0 62"), Busy(1)),
            (Begin(3, "write g 0 63"), Running(2)),
            (Advance(3), Running(1)),
            (Advance(3), Done),
            (Begin(1, "list"), NotYours),
            (Begin(1, "create h"), NotYours),
            (Begin(15, "list"), NotYours),
            (Begin(15, "write f 0 61"), NotYours),
            (Advance(2), NotYours),
        ],
        trace: &[],
        found: "ok files 2 dying 0 rows 0 mapped 1 free 55 exact\n",
    },
];

// The operation of a line.
fn op_of(alloc: Global, line: &str) -> Result<Op, Fail> {
    let plan = plan_of_job(alloc, line.as_bytes(), Order::Alone)?;
    let Some((_who, script)) = plan.scripts.scripts().first() else {
        return Err(Fail::from("no script"));
    };
    match script.ops().first() {
        Some(op) => Ok(op.copy(alloc)?),
        None => Err(Fail::from("no operation")),
    }
}

// The event of a turn.
fn event_of(alloc: Global, turn: Turn) -> Result<Event, Fail> {
    Ok(match turn {
        Begin(who, line) => Event::Begin {
            who,
            op: op_of(alloc, line)?,
        },
        Advance(who) => Event::Advance { who },
        Daemon => Event::Daemon,
        Reclaim => Event::Reclaim,
    })
}

fn told_of(outcome: &Outcome) -> Told {
    match outcome {
        Outcome::Running { left } => Running(*left),
        Outcome::Done(_) => Done,
        Outcome::Busy { holder } => Busy(*holder),
        Outcome::Released { .. } => Told::Released,
        Outcome::Idle => Idle,
        Outcome::NotYours => NotYours,
        Outcome::NoMemory => Told::NoMemory,
        Outcome::Stopped => Told::Stopped,
    }
}

// The events of turns.
fn events_of(alloc: Global, turns: &[(Turn, Told)]) -> Result<Vec<Event>, Fail> {
    let mut events = Vec::new(alloc);
    for (turn, _) in turns {
        events.push(event_of(alloc, *turn)?)?;
    }
    Ok(events)
}

// Makes the events of turns, and compares what they answer.
fn play<D: Pm, F: Fingerprint>(
    rt: &impl Abort,
    alloc: Global,
    v: &mut Volume<D, F>,
    played: &Played,
) -> Result<(), Fail>
    requires { Agrees D.state v.old }
{
    let events = events_of(alloc, played.turns)?;
    let outcomes = run_events(alloc, v, events)?;
    assert_eq!(rt; outcomes.len(), played.turns.len());
    for (k, (outcome, (_, want))) in outcomes.iter().zip(played.turns).enumerate() {
        let told = told_of(outcome);
        assert_eq!(rt; told, *want, "{}: event {k}", played.name);
    }
    Ok(())
}

// The changes of count words that a row tells.
fn trace_of(alloc: Global, played: &Played) -> Result<Vec<CountChange>, AllocError> {
    let mut trace = Vec::new(alloc);
    for (slot, rfc, uc) in played.trace {
        let count = CountWord { rfc: *rfc, uc: *uc };
        trace.push(CountChange {
            slot: *slot,
            word: count.word(),
        })?;
    }
    Ok(trace)
}

fn check_played(rt: &impl Abort, alloc: Global, played: &Played) -> Result<(), Fail> {
    let before = words_after(alloc, Sha1Print, played.start)?;
    let (mut v, _told) = run_job(alloc, before, Sha1Print, "", Order::Alone)?;
    play(rt, alloc, &mut v, played)?;
    let trace = trace_of(alloc, played)?;
    assert_eq!(rt; v.trace(), trace.as_slice(), "{}", played.name);
    let left = found(alloc, words_of(alloc, v.device())?)?;
    expect_text(rt, played.name, left, played.found);
    Ok(())
}

#[test]
fn events_are_answered(rt: HostRuntime) -> Result<(), Fail> {
    for played in &PLAYED {
        check_played(&rt, rt.alloc(), played)?;
    }
    Ok(())
}

// An image of a stop is mounted, and its file is empty or has the one byte.
fn check_left(rt: &impl Abort, alloc: Global, words: Vec<u64>) -> Result<(), Fail> {
    let (_v, told) = run_job(alloc, words, Sha1Print, "read f 0 8\n", Order::Alone)?;
    let text = told.as_slice();
    let empty: &[u8] = b"1 1 bytes 0\nend 1 57\n";
    let written: &[u8] = b"1 1 bytes 1 61\nend 1 55\n";
    assert!(rt; text == empty || text == written, "{told:?}");
    Ok(())
}

// Why a run didn't come to its end, with its device.
fn end_of(alloc: Global, device: MemPm, plan: &JobPlan) -> Result<(RunEnd, MemPm), Fail>
    requires still { Still (⟦<MemPm as Pm>⟧.state device) }
    requires clients { Rises 0 plan.now.scripts }
    requires suits { Suits Order.Alone plan.now.scripts }
{
    match run_scripts(
        alloc,
        device,
        Sha1Print,
        &plan.scripts,
        &plan.turns,
        Order::Alone,
    ) {
        Ok(_v) => Err(Fail::from("a whole run")),
        Err(back) => Ok(back),
    }
}

// The device on which a write was stopped, since the fence of this number failed.
fn stopped_device(rt: &impl Abort, alloc: Global, fence: u64) -> Result<MemPm, Fail> {
    let before = words_after(alloc, Sha1Print, "create f\n")?;
    let device = device_of(alloc, before, vec![in alloc; fence]?)?;
    let job = b"size f\nwrite f 0 61\nsize f\n";
    let plan = plan_of_job(alloc, job, Order::Alone)?;
    let (end, device) = end_of(alloc, device, &plan)?;
    match end {
        RunEnd::Stopped(history) => {
            let told = stopped_text(alloc, &plan.numbers, &history)?;
            expect_text(rt, "a stop", told, "1 1 number 0\nstopped\n");
            Ok(device)
        }
        other => Err(other)?,
    }
}

// Each image of the stop is mounted.
fn check_stop(rt: &impl Abort, alloc: Global, fence: u64) -> Result<(), Fail> {
    let device = stopped_device(rt, alloc, fence)?;
    for pick in 0..8 {
        let image = device.image_at(alloc, device.moment(), pick)?;
        check_left(rt, alloc, image)?;
    }
    Ok(())
}

#[test]
fn a_run_stops_where_a_fence_fails(rt: HostRuntime) -> Result<(), Fail> {
    for fence in 1..3 {
        check_stop(&rt, rt.alloc(), fence)?;
    }
    Ok(())
}

#[test]
fn a_run_doesnt_begin_where_there_is_no_image(rt: HostRuntime) -> Result<(), Fail> {
    let alloc = rt.alloc();
    let zeros = vec![in alloc; 0u64; 32768]?;
    let device = device_of(alloc, zeros, Vec::new(alloc))?;
    let plan = plan_of_job(alloc, b"create f\n", Order::Alone)?;
    let (end, device) = end_of(alloc, device, &plan)?;
    match end {
        RunEnd::Faulty(fault) => assert_eq!(rt; fault, ImageFault::NotAnImage),
        other => Err(other)?,
    }
    assert_eq!(rt; device.moment(), 0);
    Ok(())
}
