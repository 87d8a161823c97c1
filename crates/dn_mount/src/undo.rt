// The journal is rolled back.
ghost use Rattle.std.specs.Prelude.{◌≡◌, ◌+◌, ◌≤◌, slice_index, OnOk, IfErr};
ghost use Rattle.pm_device.specs.State.{IsSame};
ghost use Rattle.pm_device.specs.Settled.{Still, LeavesOnly};
ghost use Rattle.pm_layout.specs.Geometry.{gate_word};
ghost use Rattle.dn_model.specs.Disk.{Disk};
ghost use Rattle.dn_model.specs.Image.{StandsFor};
ghost use Rattle.dn_model.specs.Faults.{HasGeometry, HasGate, geometry_of};
ghost use Rattle.dn_mount.specs.Mounted.{RollsBack, IsMountFault};

use crate::fault::MountFault;
use dn_model::ImageFault;
use name_journal::{RollFault, roll_back};
use pm_device::Pm;
use pm_layout::Geometry;

/// The actor that recovers.
pub const RECOVERY: u32 = 16;

/// Rolls back the journal of a device whose head has no fault. A stop at any moment leaves an image that stands for the
/// same. Where the journal is closed, nothing is stored.
///
/// # Errors
/// `Image` with `BadJournal` where the journal has a fault; then nothing was stored. `Failed` where a fence failed.
pub fn undo<D: Pm>(device: &mut D, g: &Geometry) -> Result<(), MountFault>
    requires head { HasGeometry (D.state device.old).now }
    requires geometry { g.now ≡ geometry_of (D.state device.old).now }
    requires still { Still (D.state device.old) }
    requires room { 12 ≤ (D.state device.old).spare }
    ensures images { (d : Disk) → StandsFor (D.state device.old).now d
        → LeavesOnly (D.state device.old) (D.state device.new) (λ c. StandsFor c d) }
    ensures gate { OnOk result (HasGate (D.state device.old).now) }
    ensures back { OnOk result (RollsBack (D.state device.old) (D.state device.new)) }
    ensures closed { slice_index (D.state device.old).now gate_word ≡ 0
        → IsSame (D.state device.old) (D.state device.new) }
    ensures fault { IfErr result (IsMountFault (D.state device.old) (D.state device.new)) }
    ensures spare { (D.state device.old).spare ≤ (D.state device.new).spare + 12 }
    ensures faults { (D.state device.old).faults ≤ (D.state device.new).faults }
{
    match roll_back(device, g, RECOVERY) {
        Ok(()) => Ok(()),
        Err(RollFault::BadJournal) => Err(MountFault::Image(ImageFault::BadJournal)),
        Err(RollFault::Failed) => Err(MountFault::Failed),
    }
}
