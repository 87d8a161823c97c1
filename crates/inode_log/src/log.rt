// The tail of a log moves.
ghost use Rattle.std.specs.Prelude.{◌≡◌, ◌+◌, ◌*◌, ◌<◌, ◌≤◌, [], length, OnOk, IsErr};
ghost use Rattle.pm_device.specs.Settled.{IsSettled, StoresOnly, LeavesOnly, KeepsFlushed, Others, SettlesAll};
ghost use Rattle.pm_device.specs.Commit.{IsCommitted, IsDone};
ghost use Rattle.pm_device.specs.State.{Rose};
ghost use Rattle.pm_layout.specs.Geometry.{IsAccepted, inode_word};
ghost use Rattle.inode_log.specs.Commits.{OldOrNewLog, NewLogStands};
ghost use Rattle.inode_log.specs.OtherLogs.{KeepsOtherLogs};

use inode_table::TAIL;
use pm_device::commit::{COMMIT_UNITS, commit};
use pm_device::{Failed, Pm};
use pm_layout::Geometry;

/// The units of the device that `commit_log` uses at most.
pub const COMMIT_LOG_UNITS: u64 = COMMIT_UNITS;

/// Moves the tail to where the prepared items end, after all that this actor had flushed. It uses at most
/// `COMMIT_LOG_UNITS`. No log of another inode changes.
///
/// # Errors
/// `Failed` where a fence failed. A stop may then leave the old list of items or the new one.
pub fn commit_log<D: Pm>(
    device: &mut D,
    g: &Geometry,
    who: u32,
    ino: u64,
    tail: u64,
) -> Result<(), Failed>
    requires accepted { IsAccepted g.now }
    requires size { length (D.state device.old).now ≡ 512 * g.now.pages }
    requires ino { ino < g.now.inodes }
    requires room { COMMIT_LOG_UNITS ≤ (D.state device.old).spare }
    ensures committed { IsSettled (D.state device.old) (inode_word ino 2)
        → LeavesOnly (D.state device.old) (D.state device.new)
        (IsCommitted who (inode_word ino 2) tail (D.state device.old)) }
    ensures done { OnOk result (IsDone who (inode_word ino 2) tail (D.state device.old)
        (D.state device.new)) }
    ensures any_moment { IsSettled (D.state device.old) (inode_word ino 2)
        → OldOrNewLog g.now who ino tail (D.state device.old) (D.state device.new) }
    ensures stands { OnOk result (NewLogStands g.now who ino tail (D.state device.old)
        (D.state device.new)) }
    ensures settles { OnOk result (SettlesAll who (D.state device.old) (D.state device.new)) }
    ensures other_logs { KeepsOtherLogs g.now ino [] (D.state device.old) (D.state device.new) }
    ensures only { StoresOnly (λ a. a ≡ inode_word ino 2) (D.state device.old) (D.state device.new) }
    ensures others { KeepsFlushed (Others who) (λ a. a ≡ inode_word ino 2) (D.state device.old)
        (D.state device.new) }
    ensures spare { (D.state device.old).spare ≤ (D.state device.new).spare + COMMIT_LOG_UNITS }
    ensures faults { (D.state device.old).faults ≤ (D.state device.new).faults }
    ensures failed { IsErr result → Rose (D.state device.old).faults (D.state device.new).faults }
{
    commit(device, who, g.inode_word(ino, TAIL), tail)
}
