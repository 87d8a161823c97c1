// Dying files are finished.
ghost use Rattle.std.specs.Prelude.{◌≡◌, ◌≤◌, OnOk, IfErr};
ghost use Rattle.dn_model.specs.Disk.{Disk};
ghost use Rattle.dn_volume.specs.Agrees.{Agrees, IsVolume};
ghost use Rattle.dn_mount.specs.Mounted.{LeavesMounts};
ghost use Rattle.dn_mount.specs.Reading.{IsSettleFault};
ghost use Rattle.dn_mount.specs.Finishing.{result_of, IsIdle, Lowers, Finishes};

use crate::fault::MountFault;
use dn_volume::{Outcome, Volume};
use fingerprint::Fingerprint;
use pm_device::Pm;
use reclaim::reclaim;

// What the answer of an event of reclaim is to a mount.
fn as_result(outcome: Outcome) -> Result<(), MountFault>
    ensures { result ≡ result_of outcome }
{
    match outcome {
        Outcome::NoMemory => Err(MountFault::NoMemory),
        Outcome::Stopped => Err(MountFault::Failed),
        _ => Ok(()),
    }
}

// One event of reclaim, where something waits for it.
fn work_once<D: Pm, F: Fingerprint>(v: &mut Volume<D, F>) -> Result<(), MountFault>
    requires agrees { Agrees D.state v.old }
    requires idle { IsIdle v.old.parts }
    requires waits { 1 ≤ v.old.parts.reclaiming.waiting }
    ensures agrees { Agrees D.state v.new }
    ensures done { OnOk result ((d : Disk) → IsVolume d v.old.parts (D.state v.old.device)
        → Lowers D.state F.print v.old v.new d) }
    ensures images { (d : Disk) → IsVolume d v.old.parts (D.state v.old.device)
        → LeavesMounts F.print d (D.state v.old.device) (D.state v.new.device) }
    ensures fault { IfErr result (IsSettleFault (D.state v.old.device) (D.state v.new.device)) }
    ensures faults { (D.state v.old.device).faults ≤ (D.state v.new.device).faults }
{
    as_result(reclaim(v))
}

/// Makes the events of reclaim until none is left: no file is dying then. Neither a client nor the daemon has begun
/// anything. The files and the queue stay as they are. Where nothing waits, nothing is changed.
///
/// # Errors
/// `NoMemory` where memory runs out. `Failed` where a fence failed. Some of the events are made.
pub fn finish_dying<D: Pm, F: Fingerprint>(v: &mut Volume<D, F>) -> Result<(), MountFault>
    requires agrees { Agrees D.state v.old }
    requires idle { IsIdle v.old.parts }
    ensures agrees { Agrees D.state v.new }
    ensures done { OnOk result ((d : Disk) → IsVolume d v.old.parts (D.state v.old.device)
        → Finishes D.state F.print v.old v.new d) }
    ensures idle { OnOk result (IsIdle v.new.parts) }
    ensures none_waits { OnOk result (v.new.parts.reclaiming.waiting ≡ 0) }
    ensures images { (d : Disk) → IsVolume d v.old.parts (D.state v.old.device)
        → LeavesMounts F.print d (D.state v.old.device) (D.state v.new.device) }
    ensures same { v.old.parts.reclaiming.waiting ≡ 0 → v.new ≡ v.old }
    ensures fault { IfErr result (IsSettleFault (D.state v.old.device) (D.state v.new.device)) }
    ensures faults { (D.state v.old.device).faults ≤ (D.state v.new.device).faults }
{
    while v.parts.reclaiming.waiting != 0 {
        work_once(v)?;
    }
    Ok(())
}
