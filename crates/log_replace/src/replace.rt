// A log that was written whole comes in the place of an inode's log.
ghost use Rattle.std.specs.Prelude.{◌≡◌, ◌+◌, ◌*◌, ◌<◌, ◌≤◌, length, OnOk, IsErr};
ghost use Rattle.pm_device.specs.State.{Rose};
ghost use Rattle.pm_device.specs.Settled.{StoresOnly, KeepsFlushed, Others, SettlesAll};
ghost use Rattle.pm_layout.specs.Geometry.{IsAccepted};
ghost use Rattle.law_names.specs.AllOrNoneLaws.{IsShut};
ghost use Rattle.log_replace.specs.Replacing.{ReplacesBetween, ReplacesLog, end_changes, IsEndWord};

use inode_table::{HEAD, TAIL};
use name_journal::commit::COMMIT_ALL_UNITS;
use name_journal::{Change, commit_all};
use pm_device::{Failed, Pm};
use pm_layout::Geometry;

/// The units of the device that `replace_log` uses at most: those of one commit of the journal.
pub const REPLACE_UNITS: u64 = COMMIT_ALL_UNITS;

// The head and the tail of an inode's log are to be these.
fn end_changes(g: &Geometry, ino: u64, head: u64, tail: u64) -> [Change; 2]
    requires accepted { IsAccepted g.now }
    requires ino { ino < g.now.inodes }
    ensures { result ≡ end_changes ino head tail }
{
    [
        Change {
            at: g.inode_word(ino, HEAD),
            value: head,
        },
        Change {
            at: g.inode_word(ino, TAIL),
            value: tail,
        },
    ]
}

/// Gives an inode a log that was written whole: its head and its tail change together, by one commit of the journal. It
/// uses at most `REPLACE_UNITS`.
///
/// The head is the log's first page, and the tail 64 times its last page and the slot past its last; both are 0 for a log
/// without items. On the way a stop leaves an image of the disk of before or of the one with the new log; in the end the
/// device stands for that one.
///
/// # Errors
/// `Failed` where one of the device's four fences failed. A stop may then leave either; the device is to be opened
/// anew, and its journal rolled back.
pub fn replace_log<D: Pm>(
    device: &mut D,
    g: &Geometry,
    who: u32,
    ino: u64,
    head: u64,
    tail: u64,
) -> Result<(), Failed>
    requires accepted { IsAccepted g.now }
    requires size { length (D.state device.old).now ≡ 512 * g.now.pages }
    requires ino { ino < g.now.inodes }
    requires shut { IsShut (D.state device.old) }
    requires room { REPLACE_UNITS ≤ (D.state device.old).spare }
    ensures any_moment { ReplacesBetween g.now ino head tail (D.state device.old)
        (D.state device.new) }
    ensures done { OnOk result
        (ReplacesLog g.now ino head tail (D.state device.old) (D.state device.new)) }
    ensures only { StoresOnly (IsEndWord ino) (D.state device.old) (D.state device.new) }
    ensures others { KeepsFlushed (Others who) (IsEndWord ino) (D.state device.old)
        (D.state device.new) }
    ensures settles { OnOk result (SettlesAll who (D.state device.old) (D.state device.new)) }
    ensures spare { (D.state device.old).spare ≤ (D.state device.new).spare + REPLACE_UNITS }
    ensures faults { (D.state device.old).faults ≤ (D.state device.new).faults }
    ensures failed { IsErr result → Rose (D.state device.old).faults (D.state device.new).faults }
{
    let changes = end_changes(g, ino, head, tail);
    commit_all(device, g, who, &changes)
}
