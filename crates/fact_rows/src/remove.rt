// A row goes out of the table.
ghost use Rattle.std.specs.Prelude.{◌≡◌, ◌+◌, ◌*◌, ◌≤◌, ◌<◌, length, OnOk, IsErr};
ghost use Rattle.pm_device.specs.State.{Rose};
ghost use Rattle.pm_device.specs.Settled.{StoresOnly, KeepsFlushed, Others, SettlesAll};
ghost use Rattle.pm_layout.specs.Geometry.{IsAccepted, slot_word, directs, slots};
ghost use Rattle.fact_rows.specs.Gone.{CanTakeOut, CanUnlink, IsGoneWord, MakesClosed, SettlesClosed, LeavesClosed, MakesUnlinked, SettlesUnlinked, LeavesUnlinked};

use delete_pointer::{POINTER_UNITS, store_pointer};
use fact_chain::unlink;
use fact_direct::close_direct;
use fact_slot::slot::FIELD_UNITS;
use pm_device::{Failed, Pm};
use pm_layout::Geometry;

/// The units of the device that `remove_direct` and `remove_chained` use, each: a word of the table decides, and a
/// pointer is stored.
pub const REMOVE_UNITS: u64 = FIELD_UNITS + POINTER_UNITS;

/// Takes a row out of its direct slot: closes the slot by a page word of 0, flushes and fences; then clears the page's
/// pointer, flushes and fences. The rows that are chained behind the slot stay.
///
/// Where the table is settled before, at each moment a crash leaves the rows of before, or those without this one, with
/// or without the pointer.
///
/// # Errors
/// `Failed` where a fence failed. The row is gone or it isn't, and a crash may leave either.
pub fn remove_direct<D: Pm>(
    device: &mut D,
    g: &Geometry,
    who: u32,
    direct: u64,
    page: u64,
) -> Result<(), Failed>
    requires accepted { IsAccepted g.now }
    requires size { length (D.state device.old).now ≡ 512 * g.now.pages }
    requires can { CanTakeOut (D.state device.old).now g.now direct direct page }
    requires room { REMOVE_UNITS ≤ (D.state device.old).spare }
    ensures images { LeavesClosed g.now direct page (D.state device.old) (D.state device.new) }
    ensures done { OnOk result (MakesClosed g.now direct page (D.state device.old)
        (D.state device.new)) }
    ensures settled { OnOk result (SettlesClosed g.now direct page (D.state device.old)
        (D.state device.new)) }
    ensures settles { OnOk result (SettlesAll who (D.state device.old) (D.state device.new)) }
    ensures only { StoresOnly (IsGoneWord g.now (slot_word g.now direct 0) page)
        (D.state device.old) (D.state device.new) }
    ensures others { KeepsFlushed (Others who) (IsGoneWord g.now (slot_word g.now direct 0) page)
        (D.state device.old) (D.state device.new) }
    ensures spare { (D.state device.old).spare ≤ (D.state device.new).spare + REMOVE_UNITS }
    ensures faults { (D.state device.old).faults ≤ (D.state device.new).faults }
    ensures failed { IsErr result → Rose (D.state device.old).faults (D.state device.new).faults }
{
    close_direct(device, g, who, direct)?;
    store_pointer(device, g, who, page, 0)
}

/// Takes a row out of its indirect slot, to which the next word of the slot `before` leads: that word becomes the next
/// word of the row's slot, so that the rest of the chain follows, and is flushed and fenced; then the page's pointer is
/// cleared, flushed and fenced.
///
/// Where the table is settled before, at each moment a crash leaves the rows of before, or those without this one, with
/// or without the pointer.
///
/// # Errors
/// `Failed` where a fence failed. The row is gone or it isn't, and a crash may leave either.
pub fn remove_chained<D: Pm>(
    device: &mut D,
    g: &Geometry,
    who: u32,
    before: u64,
    slot: u64,
    page: u64,
) -> Result<(), Failed>
    requires accepted { IsAccepted g.now }
    requires size { length (D.state device.old).now ≡ 512 * g.now.pages }
    requires indirect { directs g.now ≤ slot }
    requires slot { slot < slots g.now }
    requires can { CanUnlink (D.state device.old).now g.now before slot page }
    requires room { REMOVE_UNITS ≤ (D.state device.old).spare }
    ensures images { LeavesUnlinked g.now before slot page (D.state device.old) (D.state device.new) }
    ensures done { OnOk result (MakesUnlinked g.now before slot page (D.state device.old)
        (D.state device.new)) }
    ensures settled { OnOk result (SettlesUnlinked g.now before slot page (D.state device.old)
        (D.state device.new)) }
    ensures settles { OnOk result (SettlesAll who (D.state device.old) (D.state device.new)) }
    ensures only { StoresOnly (IsGoneWord g.now (slot_word g.now before 5) page)
        (D.state device.old) (D.state device.new) }
    ensures others { KeepsFlushed (Others who) (IsGoneWord g.now (slot_word g.now before 5) page)
        (D.state device.old) (D.state device.new) }
    ensures spare { (D.state device.old).spare ≤ (D.state device.new).spare + REMOVE_UNITS }
    ensures faults { (D.state device.old).faults ≤ (D.state device.new).faults }
    ensures failed { IsErr result → Rose (D.state device.old).faults (D.state device.new).faults }
{
    unlink(device, g, who, before, slot)?;
    store_pointer(device, g, who, page, 0)
}
