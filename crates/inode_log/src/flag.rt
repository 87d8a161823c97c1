// The flag and the mask of a Write change.
ghost use Rattle.std.specs.Prelude.{◌≡◌, ◌+◌, ◌*◌, ◌/◌, ◌<◌, ◌≤◌, length, OnOk, IsErr};
ghost use Rattle.pm_device.specs.Settled.{IsSettled, StoresOnly, LeavesOnly, KeepsFlushed, Others, SettlesAll};
ghost use Rattle.pm_device.specs.Commit.{IsDone, LeavesOneWord};
ghost use Rattle.pm_device.specs.State.{Rose};
ghost use Rattle.pm_layout.specs.Geometry.{IsAccepted, InData};
ghost use Rattle.log_entry.specs.Spelling.{flag_number};
ghost use Rattle.inode_log.specs.Reflags.{with_flag, with_mask, flag_word, mask_word, OldOrNewItem, NewItemStands, KeepsLogs};

use log_entry::Flag;
use pm_device::set::{SET_UNITS, set_word};
use pm_device::{Failed, Pm};
use pm_layout::Geometry;

// The words of a Write's slot that have its flag and its mask.
const FLAG_FIELD: u64 = 5;

const MASK_FIELD: u64 = 6;

/// The units of the device that `set_flag` and `set_mask` use, each.
pub const FLAG_UNITS: u64 = SET_UNITS;

/// Gives another flag to the Write at this slot, which is named as page * 64 + place and lies in the data area.
/// The flag's word is stored, flushed and fenced, and so is all that this actor had flushed before.
///
/// Where the flag's word is settled before, every image that a stop may leave has the log with the old flag or with
/// the new one. Nothing orders the word behind what was flushed before.
///
/// # Errors
/// `Failed` where the fence failed. A stop may then leave the old flag or the new one.
pub fn set_flag<D: Pm>(
    device: &mut D,
    g: &Geometry,
    who: u32,
    slot: u64,
    flag: Flag,
) -> Result<(), Failed>
    requires accepted { IsAccepted g.now }
    requires size { length (D.state device.old).now ≡ 512 * g.now.pages }
    requires slot { InData g.now (slot / 64) }
    requires room { FLAG_UNITS ≤ (D.state device.old).spare }
    ensures committed { IsSettled (D.state device.old) (flag_word slot)
        → LeavesOnly (D.state device.old) (D.state device.new)
        (LeavesOneWord (flag_word slot) (flag_number flag) (D.state device.old)) }
    ensures done { OnOk result (IsDone who (flag_word slot) (flag_number flag) (D.state device.old)
        (D.state device.new)) }
    ensures any_moment { IsSettled (D.state device.old) (flag_word slot)
        → OldOrNewItem g.now (with_flag flag) slot (D.state device.old) (D.state device.new) }
    ensures stands { OnOk result (NewItemStands g.now (with_flag flag) slot (D.state device.old)
        (D.state device.new)) }
    ensures settles { OnOk result (SettlesAll who (D.state device.old) (D.state device.new)) }
    ensures other_logs { KeepsLogs g.now slot (D.state device.old) (D.state device.new) }
    ensures only { StoresOnly (λ a. a ≡ flag_word slot) (D.state device.old) (D.state device.new) }
    ensures others { KeepsFlushed (Others who) (λ a. a ≡ flag_word slot) (D.state device.old)
        (D.state device.new) }
    ensures spare { (D.state device.old).spare ≤ (D.state device.new).spare + FLAG_UNITS }
    ensures faults { (D.state device.old).faults ≤ (D.state device.new).faults }
    ensures failed { IsErr result → Rose (D.state device.old).faults (D.state device.new).faults }
{
    set_word(device, who, 8 * slot + FLAG_FIELD, flag.number())
}

/// Gives another mask to the Write at this slot, which is named as page * 64 + place and lies in the data area.
/// The mask's word is stored, flushed and fenced, and so is all that this actor had flushed before.
///
/// Where the mask's word is settled before, every image that a stop may leave has the log with the old mask or with
/// the new one. Nothing orders the word behind what was flushed before.
///
/// # Errors
/// `Failed` where the fence failed. A stop may then leave the old mask or the new one.
pub fn set_mask<D: Pm>(
    device: &mut D,
    g: &Geometry,
    who: u32,
    slot: u64,
    mask: u64,
) -> Result<(), Failed>
    requires accepted { IsAccepted g.now }
    requires size { length (D.state device.old).now ≡ 512 * g.now.pages }
    requires slot { InData g.now (slot / 64) }
    requires room { FLAG_UNITS ≤ (D.state device.old).spare }
    ensures committed { IsSettled (D.state device.old) (mask_word slot)
        → LeavesOnly (D.state device.old) (D.state device.new)
        (LeavesOneWord (mask_word slot) mask (D.state device.old)) }
    ensures done { OnOk result (IsDone who (mask_word slot) mask (D.state device.old)
        (D.state device.new)) }
    ensures any_moment { IsSettled (D.state device.old) (mask_word slot)
        → OldOrNewItem g.now (with_mask mask) slot (D.state device.old) (D.state device.new) }
    ensures stands { OnOk result (NewItemStands g.now (with_mask mask) slot (D.state device.old)
        (D.state device.new)) }
    ensures settles { OnOk result (SettlesAll who (D.state device.old) (D.state device.new)) }
    ensures other_logs { KeepsLogs g.now slot (D.state device.old) (D.state device.new) }
    ensures only { StoresOnly (λ a. a ≡ mask_word slot) (D.state device.old) (D.state device.new) }
    ensures others { KeepsFlushed (Others who) (λ a. a ≡ mask_word slot) (D.state device.old)
        (D.state device.new) }
    ensures spare { (D.state device.old).spare ≤ (D.state device.new).spare + FLAG_UNITS }
    ensures faults { (D.state device.old).faults ≤ (D.state device.new).faults }
    ensures failed { IsErr result → Rose (D.state device.old).faults (D.state device.new).faults }
{
    set_word(device, who, 8 * slot + MASK_FIELD, mask)
}
