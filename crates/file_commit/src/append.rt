// Items are appended to a file's log, once what they map was stored and flushed.
ghost use Rattle.std.specs.Prelude.{◌≡◌, ◌+◌, ◌*◌, ◌<◌, ◌≤◌, length, OnOk, IsErr};
ghost use Rattle.pm_device.specs.State.{Rose};
ghost use Rattle.pm_device.specs.Settled.{SettlesAll};
ghost use Rattle.pm_layout.specs.Geometry.{IsAccepted};
ghost use Rattle.file_commit.specs.Append.{CanAppend, AppendsBetween, AppendsNew, AppendsThere};

use inode_log::log::{COMMIT_LOG_UNITS, commit_log};
use inode_log::prepare::{PREPARE_UNITS, prepare};
use pm_device::{Failed, Pm};
use pm_layout::Geometry;

/// The units of the device that `append_items` uses beside `PREPARE_UNITS` for each slot and each fresh page.
pub const COMMIT_UNITS: u64 = COMMIT_LOG_UNITS;

/// Appends the slots of items to the log of a file, on these fresh pages where its last page has no room, and makes them
/// part of the log by one store of its tail (NOVA, FAST 2016).
///
/// The pages that the items map are filled before, and flushed by this actor: its first fence here settles them together
/// with the items. On the way a stop leaves an image of the disk of before or of the disk of after; in the end it leaves
/// that one alone. It uses at most `PREPARE_UNITS` for each slot and each fresh page, and `COMMIT_UNITS`.
///
/// # Errors
/// `Failed` where a fence of the device failed. A stop may then leave either.
pub fn append_items<D: Pm>(
    device: &mut D,
    g: &Geometry,
    who: u32,
    ino: u64,
    slots: &[[u64; 8]],
    fresh: &[u64],
) -> Result<(), Failed>
    requires accepted { IsAccepted g.now }
    requires size { length (D.state device.old).now ≡ 512 * g.now.pages }
    requires ino { ino < g.now.inodes }
    requires can { CanAppend g.now who ino fresh.now slots.now (D.state device.old) }
    requires room { PREPARE_UNITS * (length slots.now + length fresh.now) + COMMIT_UNITS ≤
        (D.state device.old).spare }
    ensures any_moment { AppendsBetween g.now who ino fresh.now slots.now (D.state device.old)
        (D.state device.new) }
    ensures done { OnOk result (AppendsNew g.now who ino fresh.now slots.now (D.state device.old)
        (D.state device.new)) }
    ensures only { AppendsThere g.now who ino fresh.now slots.now (D.state device.old)
        (D.state device.new) }
    ensures settles { OnOk result (SettlesAll who (D.state device.old) (D.state device.new)) }
    ensures spare { (D.state device.old).spare ≤ (D.state device.new).spare + PREPARE_UNITS
        * (length slots.now + length fresh.now) + COMMIT_UNITS }
    ensures faults { (D.state device.old).faults ≤ (D.state device.new).faults }
    ensures failed { IsErr result → Rose (D.state device.old).faults (D.state device.new).faults }
{
    let tail = prepare(device, g, who, ino, slots, fresh);
    commit_log(device, g, who, ino, tail)
}
