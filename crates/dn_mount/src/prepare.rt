// A device is made ready to be repaired: its head is read, and its journal is rolled back.
ghost use Rattle.std.specs.Prelude.{◌≡◌, ◌*◌, ◌+◌, ◌≤◌, slice_index, OnOk, IfOk, IfErr};
ghost use Rattle.pm_device.specs.State.{IsSame};
ghost use Rattle.pm_device.specs.Settled.{Still, LeavesOnly};
ghost use Rattle.pm_layout.specs.Geometry.{IsAccepted, gate_word};
ghost use Rattle.dn_model.specs.Disk.{Disk};
ghost use Rattle.dn_model.specs.Image.{StandsFor};
ghost use Rattle.dn_mount.specs.Mounted.{IsMountFault};
ghost use Rattle.dn_mount.specs.Reading.{IsPrepared};

use crate::fault::MountFault;
use crate::undo::undo;
use image_head::device_geometry;
use name_journal::undo::ROLL_BACK_UNITS;
use pm_device::Pm;
use pm_layout::Geometry;
use table_repair::settle::{PAGE_UNITS, ROW_UNITS};

// Room for all that a repair stores: the rollback, and what each row and each pointer takes.
fn make_room<D: Pm>(device: &mut D, g: &Geometry) -> Result<(), MountFault>
    requires accepted { IsAccepted g.now }
    ensures same { IsSame (D.state device.old) (D.state device.new) }
    ensures room { OnOk result (12 + 12 * g.now.pages ≤ (D.state device.new).spare) }
    ensures fault { IfErr result (λ fault. fault ≡ MountFault.NoMemory) }
{
    match device.ready(ROLL_BACK_UNITS + (ROW_UNITS + PAGE_UNITS) * g.pages) {
        Ok(()) => Ok(()),
        Err(_) => Err(MountFault::NoMemory),
    }
}

/// Reads the head of a device and rolls its journal back. A stop at any moment leaves an image that stands for the same.
/// Where the journal is closed, nothing is stored.
///
/// # Errors
/// `Image` where the head or the journal has a fault, and which comes first; then nothing was stored. `NoMemory` where
/// there is no memory for what a repair stores. `Failed` where a fence failed.
pub fn prepare<D: Pm>(device: &mut D) -> Result<Geometry, MountFault>
    requires still { Still (D.state device.old) }
    ensures ready { IfOk result (IsPrepared (D.state device.old) (D.state device.new)) }
    ensures images { (d : Disk) → StandsFor (D.state device.old).now d
        → LeavesOnly (D.state device.old) (D.state device.new) (λ c. StandsFor c d) }
    ensures closed { slice_index (D.state device.old).now gate_word ≡ 0
        → IsSame (D.state device.old) (D.state device.new) }
    ensures fault { IfErr result (IsMountFault (D.state device.old) (D.state device.new)) }
    ensures faults { (D.state device.old).faults ≤ (D.state device.new).faults }
{
    let g = match device_geometry(device) {
        Ok(g) => g,
        Err(fault) => return Err(MountFault::Image(fault)),
    };
    make_room(device, &g)?;
    undo(device, &g)?;
    Ok(g)
}
