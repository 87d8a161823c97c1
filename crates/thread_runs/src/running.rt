// The clients of a job in threads.
ghost use Rattle.std.specs.Prelude.{◌≡◌, ◌≤◌, ◌<◌, ◌+◌, ◌-◌, ℕ, [], length, vec_len, vec_capacity, IfOk};
ghost use Rattle.std.specs.Thread.{IsSync};
ghost use Rattle.pm_layout.specs.Geometry.{slots};
ghost use Rattle.dn_model.specs.Course.{Base};
ghost use Rattle.dn_volume.specs.Agrees.{Agrees};
ghost use Rattle.dn_volume.specs.Sound.{Sound};
ghost use Rattle.count_board.specs.Boards.{base_of, AreNewPasses};
ghost use Rattle.dn_shared.specs.Ends.{AreCountWords, KeepsSound};
ghost use Rattle.job_runs.specs.Playing.{IsNew};
ghost use Rattle.job_runs.specs.Scripts.{Rises};
ghost use Rattle.job_texts.specs.Plan.{scripts_in};
ghost use Rattle.thread_runs.specs.Parts.{Each, IsStart, IsRun, RisesTo, end_from};
ghost use Rattle.thread_runs.specs.Threads.{EndsThreads};

use crate::gather::{Gathered, gather};
use crate::part::run_task;
use crate::reading::Readings;
use crate::task::{Task, make_tasks};
use count_board::Pass;
use dn_script::Lines;
use dn_shared::{Gate, Shared, Site};
use dn_volume::Volume;
use fingerprint::Fingerprint;
use job_runs::RunFault;
use pm_device::Pm;
use std::alloc::{AllocError, Global};
use std::sync::Wait;
use std::thread;
use std::thread::Threads;

// The greatest number of a client, 0 without one.
fn last_number(clients: &[(u32, Lines)]) -> u32
    requires { Rises 0 (scripts_in clients.now) }
    ensures few { result ≤ 14 }
    ensures last { RisesTo result 0 clients.now }
{
    match clients.last() {
        Some((who, _)) => *who,
        None => 0,
    }
}

// The tasks, each in a thread.
fn run_all<R: Threads + Wait + Sync, D: Pm + Send, F: Fingerprint + Send, G: Gate + Sync>(
    rt: &R,
    alloc: Global,
    shared: &Shared<D, F>,
    clients: &[(u32, Lines)],
    last: u32,
    gate: &G,
    tasks: &mut [Task<D, F>],
)
    requires few { (last ≤ 14) × (last ≡ length (base_of shared.now.board).gone.items) }
    requires rises { RisesTo last 0 clients.now }
    requires many { length tasks.old ≡ last + 2 }
    requires start { Each (λ i t. IsStart shared.now.board (last + 2) (last + 2 - i) t) tasks.old }
    ensures many { length tasks.new ≡ last + 2 }
    ensures ran { Each (λ i t. IsRun shared.now.board
        (slots (base_of shared.now.board).volume.parts.geometry) last clients.now (last + 2 - i) t)
        tasks.new }
{
    thread::for_each_mut(
        rt,
        tasks,
        16,
        &|_, task: &mut Task<D, F>|
            requires { IsSync R.row × IsSync G.row × (last ≤ 14) × (last ≡ length (base_of shared.now.board).gone.items) × RisesTo last 0 clients.now
                × ((k : ℕ) × (1 ≤ k) × IsStart shared.now.board (last + 2) k task.now) }
            ensures { (k : ℕ) → IsStart shared.entry.now.board (last + 2) k task.entry.now
                → IsRun shared.entry.now.board (slots (base_of shared.entry.now.board).volume.parts.geometry)
                last clients.entry.now k task.exit.now }
        {
            run_task(alloc, rt, shared, clients, last, gate, task);
        },
    );
}

// Places for so many tasks, and for what so many clients read.
fn make_room<D: Pm, F: Fingerprint>(
    alloc: Global,
    tasks: u32,
    clients: usize,
) -> Result<(Vec<Task<D, F>>, Vec<Readings>), AllocError>
    ensures tasks { IfOk result (λ r. (r.0.items ≡ []) × (tasks ≤ vec_capacity r.0)) }
    ensures readings { IfOk result (λ r. (r.1.items ≡ []) × (clients ≤ vec_capacity r.1)) }
{
    let readings = Vec::with_capacity(alloc, clients)?;
    let tasks = Vec::with_capacity(alloc, tasks as usize)?;
    Ok((tasks, readings))
}

// How a run on this volume ended: the volume tells whether it stopped.
fn end_of<D: Pm, F: Fingerprint>(
    volume: &Volume<D, F>,
    whole: bool,
    readings: Vec<Readings>,
) -> Result<Vec<Readings>, RunFault>
    ensures { result ≡ end_from volume.now.parts.stopped whole readings }
{
    if volume.stopped() {
        Err(RunFault::Stopped)
    } else if whole {
        Ok(readings)
    } else {
        Err(RunFault::NoMemory)
    }
}

// The clients on a volume that is shared.
fn run_shared<R: Threads + Wait + Sync, D: Pm + Send, F: Fingerprint + Send, G: Gate + Sync>(
    rt: &R,
    alloc: Global,
    shared: Shared<D, F>,
    passes: Vec<Pass<Site<D, F>>>,
    room: (Vec<Task<D, F>>, Vec<Readings>),
    clients: &[(u32, Lines)],
    last: u32,
    gate: &G,
) -> (Result<Vec<Readings>, RunFault>, Volume<D, F>)
    requires few { (last ≤ 14) × (last ≡ length (base_of shared.board).gone.items) }
    requires rises { RisesTo last 0 clients.now }
    requires passes { AreNewPasses shared.board (last + 2) passes.items }
    requires tasks { (room.0.items ≡ []) × (last + 2 ≤ vec_capacity room.0) }
    requires readings { (room.1.items ≡ []) × (length clients.now ≤ vec_capacity room.1) }
    requires words { AreCountWords D.state (base_of shared.board).volume
        (base_of shared.board).opening.items }
    ensures agrees { Agrees D.state result.1 }
    ensures keeps { KeepsSound D.state F.print (base_of shared.board).volume result.1 }
    ensures faults { (D.state (base_of shared.board).volume.device).faults
        ≤ (D.state result.1.device).faults }
    ensures ends { EndsThreads D.state clients.now (base_of shared.board).volume result.1
        result.0 }
{
    let (tasks, readings) = room;
    let (mut tasks, place) = make_tasks(alloc, &shared.board, passes, tasks, last + 2);
    run_all(
        rt,
        alloc,
        &shared,
        clients,
        last,
        gate,
        tasks.as_mut_slice(),
    );
    let Gathered {
        passes,
        readings,
        whole,
    } = gather(clients, last, tasks, place, readings);
    let volume = shared.close(passes);
    let result = end_of(&volume, whole, readings);
    (result, volume)
}

/// Runs the lines of a job's clients on a volume that was just mounted: each client in a thread of
/// its own, in the order of its lines, the daemon in another and reclaim in another, until all
/// work is done. The volume comes back in any case, and the readings of each client, in the order
/// of the clients. Where a thread can't be started, the calling thread does its work after the
/// others', one after the other. It isn't promised that a thread gets on.
///
/// # Errors
/// `NoMemory` where memory is wanting: what was answered is a front of each client's operations,
/// and nothing is in flight. `Stopped` where a fence of the device failed, also where memory was
/// wanting too.
pub fn run_in_threads<
    R: Threads + Wait + Sync,
    D: Pm + Send,
    F: Fingerprint + Send,
    G: Gate + Sync,
>(
    rt: &R,
    alloc: Global,
    volume: Volume<D, F>,
    clients: &[(u32, Lines)],
    gate: &G,
) -> (Result<Vec<Readings>, RunFault>, Volume<D, F>)
    requires agrees { Agrees D.state volume }
    requires new { IsNew volume.parts }
    requires trace { volume.parts.trace.items ≡ [] }
    requires clients { Rises 0 (scripts_in clients.now) }
    ensures agrees { Agrees D.state result.1 }
    ensures keeps { (base : Base) → Sound D.state F.print base volume
        → Sound D.state F.print base result.1 }
    ensures faults { (D.state volume.device).faults ≤ (D.state result.1.device).faults }
    ensures ends { EndsThreads D.state clients.now volume result.1 result.0 }
{
    let last = last_number(clients);
    let Ok(room) = make_room(alloc, last + 2, clients.len()) else {
        return (Err(RunFault::NoMemory), volume);
    };
    match Shared::open(alloc, volume, last) {
        Ok((shared, passes)) => run_shared(rt, alloc, shared, passes, room, clients, last, gate),
        Err((_, volume)) => (Err(RunFault::NoMemory), volume),
    }
}
