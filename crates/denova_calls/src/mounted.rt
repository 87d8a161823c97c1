// The image of a device is mounted, for a call that reads its files.
ghost use Rattle.std.specs.Prelude.{◌≡◌, ◌≤◌, IfOk, IfErr};
ghost use Rattle.pm_device.specs.Settled.{Still};
ghost use Rattle.denova_calls.specs.LookSteps.{IsOpen, FaultyEnds, UnmountedEnds, MountEnds, device_after};

use call_endings::Ending;
use dn_model::ImageFault;
use dn_mount::fault::MountFault;
use dn_mount::mount::mount;
use dn_report::found::write_faulty;
use dn_volume::Volume;
use fingerprint::Fingerprint;
use pm_device::Pm;
use std::alloc::Global;

/// What a call comes to whose image has this fault.
pub(crate) fn faulty(alloc: Global, fault: ImageFault) -> Ending
    ensures { FaultyEnds fault result }
{
    let mut text = Vec::new(alloc);
    match write_faulty(&mut text, fault) {
        Ok(()) => Ending::Faulty(text),
        Err(_) => Ending::NoMemory,
    }
}

// What a call comes to whose image isn't mounted.
fn unmounted(alloc: Global, fault: MountFault) -> Ending
    ensures { UnmountedEnds fault result }
{
    match fault {
        MountFault::Image(fault) => faulty(alloc, fault),
        MountFault::NoMemory => Ending::NoMemory,
        MountFault::Failed => Ending::Failed,
    }
}

/// Mounts the image of a still device. Where that fails, what the call comes to, and the device.
///
/// # Errors
/// `Faulty` where the image has a fault. `Failed` where a fence of the device failed. `NoMemory` where memory ran out.
pub(crate) fn mounted<D: Pm, F: Fingerprint + Drop>(
    alloc: Global,
    device: D,
    print: F,
) -> Result<Volume<D, F>, (Ending, D)>
    requires still { Still (D.state device) }
    ensures open { IfOk result (IsOpen D.state F.print (D.state device)) }
    ensures fails { IfErr result
        (λ back. MountEnds F.print (D.state device) (D.state back.1) back.0) }
    ensures faults { (D.state device).faults ≤ (D.state (device_after result)).faults }
{
    match mount(alloc, device, print) {
        Ok(v) => Ok(v),
        Err((fault, device)) => Err((unmounted(alloc, fault), device)),
    }
}
