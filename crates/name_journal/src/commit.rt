// Several words change together.
ghost use Rattle.std.specs.Prelude.{◌≡◌, ◌+◌, ◌*◌, ◌<◌, ◌≤◌, ℕ, List, length, slice_index, OnOk, IsErr};
ghost use Rattle.pm_device.specs.State.{Rose};
ghost use Rattle.pm_device.specs.Settled.{IsSettled, LeavesOnly, StoresOnly, KeepsFlushed, Others, SettlesAll};
ghost use Rattle.pm_layout.specs.Geometry.{IsAccepted, gate_word};
ghost use Rattle.name_journal.specs.Changes.{AreChanges, IsTouched};
ghost use Rattle.name_journal.specs.AllOrNone.{AllOrNone, IsAllDone};

use crate::change::{Change, MOST_CHANGES};
use crate::pairs::{GATE, PAIRS_UNITS, store_pairs};
use crate::values::{VALUE_UNITS, store_values};
use pm_device::commit::{COMMIT_UNITS, commit};
use pm_device::{Failed, Pm};
use pm_layout::Geometry;

/// The units of the device that `commit_all` uses at most: the pairs, four values, and two commits of the gate.
pub const COMMIT_ALL_UNITS: u64 = PAIRS_UNITS + MOST_CHANGES * VALUE_UNITS + 2 * COMMIT_UNITS;

/// Makes one to four changes of different words, each the state, the head or the tail of an inode: all of them or
/// none, whatever moment a stop comes.
///
/// The gate is closed and settled before. The old values are kept in the journal's pairs, the gate is opened, the new
/// values are stored, and the gate is closed: this store decides. At each moment on the way a stop leaves what rolls
/// to the old values, or to the new ones together with all that this actor had flushed before. In the end all that it
/// stored, the journal's page too, and all that this actor had flushed is settled.
///
/// # Errors
/// `Failed` where one of the device's four fences failed. A stop may then leave either; the device is to be opened
/// anew, and its journal rolled back.
pub fn commit_all<D: Pm>(
    device: &mut D,
    g: &Geometry,
    who: u32,
    changes: &[Change],
) -> Result<(), Failed>
    requires accepted { IsAccepted g.now }
    requires size { length (D.state device.old).now ≡ 512 * g.now.pages }
    requires some { 1 ≤ length changes.now }
    requires few { length changes.now ≤ 4 }
    requires changes { AreChanges g.now.inodes changes.now }
    requires closed { slice_index (D.state device.old).now gate_word ≡ 0 }
    requires settled { IsSettled (D.state device.old) gate_word }
    requires room { COMMIT_ALL_UNITS ≤ (D.state device.old).spare }
    ensures any_moment { LeavesOnly (D.state device.old) (D.state device.new)
        (AllOrNone g.now.inodes who changes.now (D.state device.old)) }
    ensures done { OnOk result (IsAllDone who changes.now (D.state device.old) (D.state device.new)) }
    ensures settles { OnOk result (SettlesAll who (D.state device.old) (D.state device.new)) }
    ensures only { StoresOnly (IsTouched changes.now) (D.state device.old) (D.state device.new) }
    ensures others { KeepsFlushed (Others who) (IsTouched changes.now) (D.state device.old)
        (D.state device.new) }
    ensures spare { (D.state device.old).spare ≤ (D.state device.new).spare + COMMIT_ALL_UNITS }
    ensures faults { (D.state device.old).faults ≤ (D.state device.new).faults }
    ensures failed { IsErr result → Rose (D.state device.old).faults (D.state device.new).faults }
{
    store_pairs(device, who, changes);
    commit(device, who, GATE, changes.len() as u64)?;
    store_values(device, who, changes);
    commit(device, who, GATE, 0)
}
