// A volume is mounted and run by threads.
ghost use Rattle.std.specs.Prelude.{◌≡◌, ◌⊎◌, ◌≤◌, ℕ, List, [], true, IfOk, IfErr, OnOk};
ghost use Rattle.pm_device.specs.State.{State, Rose};
ghost use Rattle.pm_device.specs.Settled.{Still};
ghost use Rattle.dn_model.specs.Course.{Base};
ghost use Rattle.dn_model.specs.declared.op.Op.{Op as MadeOp};
ghost use Rattle.dn_volume.specs.Agrees.{Agrees};
ghost use Rattle.dn_volume.specs.Resting.{AllLanded};
ghost use Rattle.dn_volume.specs.Sound.{Sound};
ghost use Rattle.dn_core.specs.Rest.{KeepsCounts, Drained};
ghost use Rattle.job_runs.specs.declared.script.RunFault.TheVariants.{Stopped};
ghost use Rattle.job_runs.specs.Playing.{IsNew};
ghost use Rattle.job_runs.specs.Scripts.{Rises};
ghost use Rattle.job_texts.specs.Plan.{scripts_in};
ghost use Rattle.denova_runs.specs.Opened.{IsBegun};
ghost use Rattle.denova_runs.specs.Ran.{RunFails};
ghost use Rattle.denova_session.specs.Steps.{IsOpened, EndsThreaded, HasRanThreads, opened_device, ran_device};

use denova_runs::{RunEnd, end_of, open_volume};
use dn_core::{DrainFault, drain};
use dn_script::Lines;
use dn_shared::Gate;
use dn_shared::opening::words_of_rows;
use dn_volume::Volume;
use fingerprint::Fingerprint;
use job_runs::RunFault;
use pm_device::Pm;
use std::alloc::Global;
use std::sync::Wait;
use std::thread::Threads;
use thread_runs::{Readings, run_in_threads};

/// What a run in threads leaves.
#[derive(Drop)]
pub(crate) struct Ran<D: Pm, F: Fingerprint> {
    /// The volume, on which nothing waits.
    pub volume: Volume<D, F>,
    /// The count word of each slot as the threads began, 0 without a row.
    pub opening: Vec<u64>,
    /// What each client read.
    pub readings: Vec<Readings>,
}

// Drains the volume that threads leave.
fn drain_rest<D: Pm, F: Fingerprint>(alloc: Global, v: &mut Volume<D, F>) -> Result<(), RunFault>
    requires agrees { Agrees D.state v.old }
    requires landed { AllLanded v.old.parts }
    ensures agrees { Agrees D.state v.new }
    ensures sound { (base : Base) → Sound D.state F.print base v.old
        → Sound D.state F.print base v.new }
    ensures history { v.new.parts.history.items ≡ v.old.parts.history.items }
    ensures landed { AllLanded v.new.parts }
    ensures faults { (D.state v.old.device).faults ≤ (D.state v.new.device).faults }
    ensures keeps { OnOk result (KeepsCounts v.old.parts v.new.parts) }
    ensures drained { OnOk result (Drained D.state F.print v.new) }
    ensures stopped { IfErr result (λ fault. fault ≡ Stopped → (v.old.parts.stopped ≡ true)
        ⊎ Rose (D.state v.old.device).faults (D.state v.new.device).faults) }
{
    match drain(alloc, v) {
        Ok(()) => Ok(()),
        Err(DrainFault::NoMemory) => Err(RunFault::NoMemory),
        Err(DrainFault::Stopped) => Err(RunFault::Stopped),
    }
}

// Runs the lines of clients in threads, on a volume that was just mounted, and drains what is left.
fn run_out<R: Threads + Wait + Sync, D: Pm + Send, F: Fingerprint + Drop + Send, G: Gate + Sync>(
    rt: &R,
    alloc: Global,
    volume: Volume<D, F>,
    clients: &[(u32, Lines)],
    gate: &G,
) -> (Result<Vec<Readings>, RunFault>, Volume<D, F>)
    requires agrees { Agrees D.state volume }
    requires new { IsNew volume.parts }
    requires trace { volume.parts.trace.items ≡ [] }
    requires clients { Rises 0 (scripts_in clients.now) }
    ensures ends { (s : State) → IsBegun D.state F.print s volume
        → EndsThreaded D.state F.print clients.now s volume result.1 result.0 }
    ensures faults { (D.state volume.device).faults ≤ (D.state result.1.device).faults }
{
    let (played, mut volume) = run_in_threads(rt, alloc, volume, clients, gate);
    let readings = match played {
        Ok(readings) => readings,
        Err(fault) => return (Err(fault), volume),
    };
    match drain_rest(alloc, &mut volume) {
        Ok(()) => (Ok(readings), volume),
        Err(fault) => (Err(fault), volume),
    }
}

// Mounts the image of a device, and looks at the count words of its rows.
fn open_counted<D: Pm, F: Fingerprint + Drop>(
    alloc: Global,
    device: D,
    print: F,
) -> Result<(Volume<D, F>, Vec<u64>), (RunEnd, D)>
    requires still { Still (D.state device) }
    ensures opened { IfOk result (λ r. IsOpened D.state F.print (D.state device) r.0 r.1.items) }
    ensures fails { IfErr result (λ back. (scripts : List (ℕ × List MadeOp)) → Rises 0 scripts
        → RunFails F.print scripts (D.state device) (D.state back.1) back.0) }
    ensures faults { (D.state device).faults ≤ (D.state (opened_device result)).faults }
{
    let volume = match open_volume(alloc, device, print) {
        Ok(volume) => volume,
        Err(back) => return Err(back),
    };
    match words_of_rows(alloc, &volume) {
        Ok(words) => Ok((volume, words)),
        Err(_) => Err((RunEnd::NoMemory, volume.into_device())),
    }
}

/// Mounts the image of a still device, runs the lines of clients in threads, and drains what is left. The device comes back
/// with the volume, or with the cause why the run didn't come to its end.
///
/// # Errors
/// `Faulty` exactly where the image has a fault, with the first. `Failed` and `Stopped` where a fence of the device failed.
/// `NoMemory` where memory ran out.
pub(crate) fn run_threads<
    R: Threads + Wait + Sync,
    D: Pm + Send,
    F: Fingerprint + Drop + Send,
    G: Gate + Sync,
>(
    rt: &R,
    alloc: Global,
    device: D,
    print: F,
    clients: &[(u32, Lines)],
    gate: &G,
) -> Result<Ran<D, F>, (RunEnd, D)>
    requires still { Still (D.state device) }
    requires clients { Rises 0 (scripts_in clients.now) }
    ensures ran { IfOk result (HasRanThreads D.state F.print clients.now (D.state device)) }
    ensures fails { IfErr result (λ back. RunFails F.print (scripts_in clients.now)
        (D.state device) (D.state back.1) back.0) }
    ensures faults { (D.state device).faults ≤ (D.state (ran_device result)).faults }
{
    let (volume, opening) = match open_counted(alloc, device, print) {
        Ok(opened) => opened,
        Err(back) => return Err(back),
    };
    let (ended, volume) = run_out(rt, alloc, volume, clients, gate);
    match ended {
        Ok(readings) => Ok(Ran {
            volume,
            opening,
            readings,
        }),
        Err(fault) => Err(end_of(volume, fault)),
    }
}
