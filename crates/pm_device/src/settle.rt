// A fence, in the words of layers above a device.
ghost use Rattle.std.specs.Prelude.{◌≡◌, ◌+◌, ◌≤◌, OnOk, IsErr};
ghost use Rattle.pm_device.specs.State.{Rose};
ghost use Rattle.pm_device.specs.Settled.{StoresOnly, KeepsFlushed, Nowhere, Others, SettlesAll};
ghost use Rattle.pm_device.specs.Commit.{Settles};

use crate::{Failed, Pm};

/// The units of the device that `settle` uses: one fence.
pub const SETTLE_UNITS: u64 = 1;

/// Fences. After an `Ok` all that this actor had flushed is settled: a crash leaves it as it is read. It uses
/// `SETTLE_UNITS`.
///
/// # Errors
/// `Failed` where the device's fence failed. What was settled is so still, and what other actors had flushed is
/// flushed still; but what this actor had flushed is only stored.
pub fn settle<D: Pm>(device: &mut D, who: u32) -> Result<(), Failed>
    requires room { SETTLE_UNITS ≤ (D.state device.old).spare }
    ensures settled { OnOk result (Settles who (D.state device.old) (D.state device.new)) }
    ensures settles { OnOk result (SettlesAll who (D.state device.old) (D.state device.new)) }
    ensures only { StoresOnly Nowhere (D.state device.old) (D.state device.new) }
    ensures others { KeepsFlushed (Others who) Nowhere (D.state device.old) (D.state device.new) }
    ensures faults { (D.state device.old).faults ≤ (D.state device.new).faults }
    ensures failed { IsErr result → Rose (D.state device.old).faults (D.state device.new).faults }
    ensures spare { (D.state device.old).spare ≤ (D.state device.new).spare + SETTLE_UNITS }
{
    device.fence(who)
}
