// A device is mounted.
ghost use Rattle.std.specs.Prelude.{◌≡◌, ◌≤◌, IfOk, IfErr};
ghost use Rattle.pm_device.specs.Settled.{Still};
ghost use Rattle.dn_model.specs.Disk.{Disk};
ghost use Rattle.dn_model.specs.Image.{StandsFor, HasNoFault};
ghost use Rattle.dn_volume.specs.Agrees.{Agrees, IsVolume};
ghost use Rattle.dn_mount.specs.Mounted.{IsMountFault, IsMounted, LeavesRepairs, LeavesMounts, IsClean, HasNoDying, StoresNothing};
ghost use Rattle.dn_mount.specs.Reading.{IsSettleFault};
ghost use Rattle.dn_mount.specs.Finishing.{IsIdle};
ghost use Rattle.dn_mount.specs.Opening.{IsOpened, IsReopened, device_after};

use crate::fault::MountFault;
use crate::finish::finish_dying;
use crate::parts::volume_of_scan;
use crate::repair::repair;
use dn_volume::{Batch, Parts, Volume};
use fingerprint::Fingerprint;
use pm_device::Pm;
use std::alloc::Global;

// A device is repaired, and what was read of it is put into the parts of a volume.
fn open_parts<D: Pm>(alloc: Global, device: &mut D) -> Result<Parts, MountFault>
    requires still { Still (D.state device.old) }
    ensures sound { IfOk result (λ _. HasNoFault (D.state device.old).now) }
    ensures opened { IfOk result (λ b. (d : Disk) → StandsFor (D.state device.old).now d
        → IsOpened d b (D.state device.new)) }
    ensures images { (d : Disk) → StandsFor (D.state device.old).now d
        → LeavesRepairs d (D.state device.old) (D.state device.new) }
    ensures quiet { (d : Disk) → StandsFor (D.state device.old).now d
        → IsClean d (D.state device.old).now
        → StoresNothing (D.state device.old) (D.state device.new) }
    ensures fault { IfErr result (IsMountFault (D.state device.old) (D.state device.new)) }
    ensures faults { (D.state device.old).faults ≤ (D.state device.new).faults }
{
    let scan = repair(alloc, device)?;
    Ok(volume_of_scan(alloc, scan)?)
}

// A volume over a device that is repaired. Its files may be dying still.
fn open<D: Pm, F: Fingerprint + Drop>(
    alloc: Global,
    device: D,
    print: F,
) -> Result<Volume<D, F>, (MountFault, D)>
    requires still { Still (D.state device) }
    ensures sound { IfOk result (λ _. HasNoFault (D.state device).now) }
    ensures opened { IfOk result (λ v. (d : Disk) → StandsFor (D.state device).now d
        → IsOpened d v.parts (D.state v.device)) }
    ensures images { (d : Disk) → StandsFor (D.state device).now d
        → LeavesRepairs d (D.state device) (D.state (device_after result)) }
    ensures quiet { (d : Disk) → StandsFor (D.state device).now d
        → IsClean d (D.state device).now
        → StoresNothing (D.state device) (D.state (device_after result)) }
    ensures fault { IfErr result (λ back. IsMountFault (D.state device) (D.state back.1) back.0) }
    ensures faults { (D.state device).faults ≤ (D.state (device_after result)).faults }
{
    let mut device = device;
    match open_parts(alloc, &mut device) {
        Ok(parts) => Ok(Volume {
            device,
            print,
            kept: Batch::new(alloc),
            parts,
        }),
        Err(fault) => Err((fault, device)),
    }
}

// The dying files of a volume are finished, and what is kept in memory is read anew.
fn reopen<D: Pm, F: Fingerprint + Drop>(
    alloc: Global,
    v: Volume<D, F>,
) -> Result<Volume<D, F>, (MountFault, D)>
    requires agrees { Agrees D.state v }
    requires idle { IsIdle v.parts }
    ensures reopened { IfOk result (λ w. (d : Disk) → IsVolume d v.parts (D.state v.device)
        → IsReopened F.print d w.parts (D.state w.device)) }
    ensures images { (d : Disk) → IsVolume d v.parts (D.state v.device)
        → LeavesMounts F.print d (D.state v.device) (D.state (device_after result)) }
    ensures fault { IfErr result
        (λ back. IsSettleFault (D.state v.device) (D.state back.1) back.0) }
    ensures faults { (D.state v.device).faults ≤ (D.state (device_after result)).faults }
{
    let mut v = v;
    match finish_dying(&mut v) {
        Ok(()) => {
            let Volume { device, print, .. } = v;
            open(alloc, device, print)
        }
        Err(fault) => Err((fault, v.into_device())),
    }
}

/// Mounts a still device: it is repaired, what it holds is read, and each dying file is finished by the ordinary events
/// of reclaim. Where a file was dying the words that are left are read anew. The volume keeps to the words that it was
/// mounted from: nothing is under way in it, and nothing was answered.
///
/// A stop at any moment leaves an image without a fault that has the same files, if the words had no fault. Where
/// nothing is to be repaired and no file is dying, nothing is stored.
///
/// # Errors
/// The device comes back with the fault. `Image` exactly where the words have a fault by the twelve rules, and which
/// comes first. `NoMemory` where memory runs out. `Failed` where a fence failed.
pub fn mount<D: Pm, F: Fingerprint + Drop>(
    alloc: Global,
    device: D,
    print: F,
) -> Result<Volume<D, F>, (MountFault, D)>
    requires still { Still (D.state device) }
    ensures sound { IfOk result (λ _. HasNoFault (D.state device).now) }
    ensures mounted { IfOk result (λ v. (d : Disk) → StandsFor (D.state device).now d
        → IsMounted D.state F.print d v) }
    ensures images { (d : Disk) → StandsFor (D.state device).now d
        → LeavesMounts F.print d (D.state device) (D.state (device_after result)) }
    ensures quiet { (d : Disk) → StandsFor (D.state device).now d
        → IsClean d (D.state device).now → HasNoDying d
        → StoresNothing (D.state device) (D.state (device_after result)) }
    ensures fault { IfErr result (λ back. IsMountFault (D.state device) (D.state back.1) back.0) }
    ensures faults { (D.state device).faults ≤ (D.state (device_after result)).faults }
{
    let v = match open(alloc, device, print) {
        Ok(v) => v,
        Err(back) => return Err(back),
    };
    if v.parts.reclaiming.waiting == 0 {
        return Ok(v);
    }
    reopen(alloc, v)
}
