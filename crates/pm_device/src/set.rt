// Makes one word new, with all that was flushed before.
ghost use Rattle.std.specs.Prelude.{◌≡◌, ◌+◌, ◌*◌, ◌/◌, ◌<◌, ◌≤◌, length, OnOk, IsErr};
ghost use Rattle.pm_device.specs.State.{Rose};
ghost use Rattle.pm_device.specs.Settled.{IsSettled, LeavesOnly, StoresOnly, KeepsFlushed, Others, SettlesAll};
ghost use Rattle.pm_device.specs.Commit.{IsDone, LeavesOneWord};

use crate::{Failed, Pm};

/// The units of the device that `set_word` uses: one word, its line and a fence.
pub const SET_UNITS: u64 = 3;

/// Makes one word new: stores it, flushes its line and fences, and so with it all that this actor flushed before. The
/// word's line lies in the device.
///
/// Where the word is settled before, at each moment on the way a crash leaves it old or new. Nothing orders it behind
/// what was flushed before; `commit` does.
///
/// # Errors
/// `Failed` where the fence failed. Then the word is stored, and a crash may leave either.
pub fn set_word<D: Pm>(device: &mut D, who: u32, at: u64, value: u64) -> Result<(), Failed>
    requires inside { at / 8 * 8 + 8 ≤ length (D.state device.old).now }
    requires room { SET_UNITS ≤ (D.state device.old).spare }
    ensures any_moment { IsSettled (D.state device.old) at → LeavesOnly (D.state device.old)
        (D.state device.new) (LeavesOneWord at value (D.state device.old)) }
    ensures done { OnOk result (IsDone who at value (D.state device.old) (D.state device.new)) }
    ensures settles { OnOk result (SettlesAll who (D.state device.old) (D.state device.new)) }
    ensures only { StoresOnly (λ a. a ≡ at) (D.state device.old) (D.state device.new) }
    ensures others { KeepsFlushed (Others who) (λ a. a ≡ at) (D.state device.old)
        (D.state device.new) }
    ensures spare { (D.state device.old).spare ≤ (D.state device.new).spare + SET_UNITS }
    ensures faults { (D.state device.old).faults ≤ (D.state device.new).faults }
    ensures failed { IsErr result → Rose (D.state device.old).faults (D.state device.new).faults }
{
    device.store(at, value);
    device.flush(who, at / 8, 1);
    device.fence(who)
}
