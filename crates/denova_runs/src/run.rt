// Scripts are run on the image of a device.
ghost use Rattle.std.specs.Prelude.{◌≡◌, ◌≤◌, ℕ, List, [], false, IfOk, IfErr, OnOk};
ghost use Rattle.pm_device.specs.State.{State};
ghost use Rattle.pm_device.specs.Settled.{Still, Extends};
ghost use Rattle.dn_model.specs.Image.{HasNoFault};
ghost use Rattle.dn_model.specs.declared.op.Op.{Op as MadeOp};
ghost use Rattle.dn_volume.specs.Agrees.{Agrees};
ghost use Rattle.job_runs.specs.Playing.{IsNew};
ghost use Rattle.job_runs.specs.Scripts.{Rises, Suits};
ghost use Rattle.denova_runs.specs.Runs.{OfOpening};
ghost use Rattle.denova_runs.specs.Ran.{HasRunVolume, RunFails, device_after};
ghost use Rattle.denova_runs.specs.Opened.{IsBegun, EndsRun, end_of_run};

use dn_core::{DrainFault, drain};
use dn_model::{Entry, ImageFault};
use dn_mount::fault::MountFault;
use dn_mount::mount::mount;
use dn_volume::Volume;
use fingerprint::Fingerprint;
use job_runs::{Order, RunFault, Scripts, play};
use pm_device::Pm;
use std::alloc::Global;

/// Why a run didn't come to its end.
#[derive(Debug, Drop)]
pub enum RunEnd {
    /// The image has this fault. Nothing was done but the journal's rollback.
    Faulty(ImageFault),
    /// The device failed while the image was mounted.
    Failed,
    /// The device failed later: the operations that were answered before.
    Stopped(Vec<Entry>),
    /// Memory ran out.
    NoMemory,
}

impl From<MountFault> for RunEnd {
    ghost use Rattle.std.specs.Prelude.{◌≡◌};
    ghost use Rattle.denova_runs.specs.Opened.{end_of_mount};

    ghost from_gives = { λ fault end. end ≡ end_of_mount fault };

    fn from(fault: MountFault) -> RunEnd {
        match fault {
            MountFault::Image(fault) => RunEnd::Faulty(fault),
            MountFault::NoMemory => RunEnd::NoMemory,
            MountFault::Failed => RunEnd::Failed,
        }
    }
}

/// Mounts the image of a still device, for a run. Where that fails, why, and the device.
///
/// # Errors
/// `Faulty` exactly where the image has a fault, with the first. `Failed` where a fence of the device failed. `NoMemory`
/// where memory ran out.
pub fn open_volume<D: Pm, F: Fingerprint + Drop>(
    alloc: Global,
    device: D,
    print: F,
) -> Result<Volume<D, F>, (RunEnd, D)>
    requires still { Still (D.state device) }
    ensures agrees { IfOk result (λ v. Agrees D.state v) }
    ensures new { IfOk result (λ v. IsNew v.parts) }
    ensures trace { IfOk result (λ v. v.parts.trace.items ≡ []) }
    ensures sound { IfOk result (λ _. HasNoFault (D.state device).now) }
    ensures begun { IfOk result (IsBegun D.state F.print (D.state device)) }
    ensures fails { IfErr result (λ back. (scripts : List (ℕ × List MadeOp))
        → RunFails F.print scripts (D.state device) (D.state back.1) back.0) }
    ensures faults { (D.state device).faults ≤ (D.state (device_after result)).faults }
{
    match mount(alloc, device, print) {
        Ok(v) => Ok(v),
        Err((fault, device)) => Err((RunEnd::from(fault), device)),
    }
}

// Runs scripts on a volume that was just mounted, and drains all work that is left.
fn run_out<D: Pm, F: Fingerprint>(
    alloc: Global,
    v: &mut Volume<D, F>,
    scripts: &Scripts,
    turns: &[u32],
    order: Order,
) -> Result<(), RunFault>
    requires agrees { Agrees D.state v.old }
    requires new { IsNew v.old.parts }
    requires clients { Rises 0 scripts.now }
    requires suits { Suits order scripts.now }
    ensures agrees { Agrees D.state v.new }
    ensures ends { (s : State) → IsBegun D.state F.print s v.old
        → EndsRun D.state F.print order scripts.now turns.now s v.new result }
    ensures running { OnOk result (v.new.parts.stopped ≡ false) }
    ensures goes_on { (s : State) → IsBegun D.state F.print s v.old
        → OfOpening F.print s (λ _. Extends s.past (D.state v.new.device).past) }
    ensures faults { (D.state v.old.device).faults ≤ (D.state v.new.device).faults }
{
    play(alloc, v, scripts, turns, order)?;
    match drain(alloc, v) {
        Ok(()) => Ok(()),
        Err(DrainFault::NoMemory) => Err(RunFault::NoMemory),
        Err(DrainFault::Stopped) => Err(RunFault::Stopped),
    }
}

/// Why a run on a volume wasn't finished, with the volume's device.
pub fn end_of<D: Pm, F: Fingerprint + Drop>(v: Volume<D, F>, fault: RunFault) -> (RunEnd, D)
    ensures { result ≡ end_of_run v fault }
{
    let Volume { device, parts, .. } = v;
    match fault {
        RunFault::NoMemory => (RunEnd::NoMemory, device),
        RunFault::Stopped => (RunEnd::Stopped(parts.history), device),
    }
}

/// Mounts the image of a still device, runs the scripts of clients on it, each operation to its reply, and drains all work
/// that is left: equal pages are shared then, and nothing waits. The device comes back with the volume, or with the cause
/// why the run didn't come to its end.
///
/// A crash at any moment of the call leaves an image whose files are those after the operations so far, or after one more.
///
/// # Errors
/// `Faulty` exactly where the image has a fault, with the first. `Failed` and `Stopped` where a fence of the device failed.
/// `NoMemory` where memory ran out.
pub fn run_scripts<D: Pm, F: Fingerprint + Drop>(
    alloc: Global,
    device: D,
    print: F,
    scripts: &Scripts,
    turns: &[u32],
    order: Order,
) -> Result<Volume<D, F>, (RunEnd, D)>
    requires still { Still (D.state device) }
    requires clients { Rises 0 scripts.now }
    requires suits { Suits order scripts.now }
    ensures agrees { IfOk result (λ v. Agrees D.state v) }
    ensures run { IfOk result (HasRunVolume D.state F.print order scripts.now turns.now
        (D.state device)) }
    ensures running { IfOk result (λ v. v.parts.stopped ≡ false) }
    ensures goes_on { IfOk result (λ v. OfOpening F.print (D.state device)
        (λ _. Extends (D.state device).past (D.state v.device).past)) }
    ensures fails { IfErr result (λ back. RunFails F.print scripts.now (D.state device)
        (D.state back.1) back.0) }
    ensures faults { (D.state device).faults ≤ (D.state (device_after result)).faults }
{
    let mut v = match open_volume(alloc, device, print) {
        Ok(v) => v,
        Err(back) => return Err(back),
    };
    match run_out(alloc, &mut v, scripts, turns, order) {
        Ok(()) => Ok(v),
        Err(fault) => Err(end_of(v, fault)),
    }
}
