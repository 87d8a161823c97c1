//! The delete pointers: which slot of the table of fingerprints the row of a page stands in.
//!
//! A pointer is one word for each page. It is 0, or the number of a slot plus 1. It may be stale: the slot may have
//! no row, or the row of another page.
#![tactic(auto)]

ghost use Rattle.std.specs.Prelude.{◌≡◌, ◌+◌, ◌*◌, ◌<◌, ◌≤◌, ◌↔◌, length, slice_index, IsNone, IfSome, OnOk, IsErr};
ghost use Rattle.pm_device.specs.State.{Rose};
ghost use Rattle.pm_device.specs.Settled.{IsSettled, LeavesOnly, StoresOnly, KeepsFlushed, Others, SettlesAll};
ghost use Rattle.pm_device.specs.Commit.{IsDone, LeavesOneWord};
ghost use Rattle.pm_layout.specs.Geometry.{IsAccepted, pointer_word};

use pm_device::set::{SET_UNITS, set_word};
use pm_device::{Failed, Pm};
use pm_layout::Geometry;

/// The units of the device that `store_pointer` uses.
pub const POINTER_UNITS: u64 = SET_UNITS;

/// The slot that a page's pointer names, or None where the pointer is 0.
pub fn entry_of<D: Pm>(device: &D, g: &Geometry, page: u64) -> Option<u64>
    requires accepted { IsAccepted g.now }
    requires size { length (D.state device.now).now ≡ 512 * g.now.pages }
    requires page { page < g.now.pages }
    ensures none { IsNone result ↔ (slice_index (D.state device.now).now (pointer_word g.now page) ≡
        0) }
    ensures slot { IfSome result (λ slot. slice_index (D.state device.now).now
        (pointer_word g.now page) ≡ slot + 1) }
{
    match device.load(g.pointer_word(page)) {
        0 => None,
        word => Some(word - 1),
    }
}

/// Makes a page's pointer this word: 0, or a slot's number plus 1. It is stored, flushed and fenced, and so is all
/// that this actor had flushed before. It uses `POINTER_UNITS`.
///
/// Where the pointer is settled before, at each moment on the way a crash leaves it old or new.
///
/// # Errors
/// `Failed` where the fence failed. Then the pointer is stored, and a crash may leave either.
pub fn store_pointer<D: Pm>(
    device: &mut D,
    g: &Geometry,
    who: u32,
    page: u64,
    word: u64,
) -> Result<(), Failed>
    requires accepted { IsAccepted g.now }
    requires size { length (D.state device.old).now ≡ 512 * g.now.pages }
    requires page { page < g.now.pages }
    requires room { POINTER_UNITS ≤ (D.state device.old).spare }
    ensures any_moment { IsSettled (D.state device.old) (pointer_word g.now page)
        → LeavesOnly (D.state device.old) (D.state device.new)
        (LeavesOneWord (pointer_word g.now page) word (D.state device.old)) }
    ensures done { OnOk result (IsDone who (pointer_word g.now page) word (D.state device.old)
        (D.state device.new)) }
    ensures settles { OnOk result (SettlesAll who (D.state device.old) (D.state device.new)) }
    ensures only { StoresOnly (λ a. a ≡ pointer_word g.now page) (D.state device.old)
        (D.state device.new) }
    ensures others { KeepsFlushed (Others who) (λ a. a ≡ pointer_word g.now page)
        (D.state device.old) (D.state device.new) }
    ensures spare { (D.state device.old).spare ≤ (D.state device.new).spare + POINTER_UNITS }
    ensures faults { (D.state device.old).faults ≤ (D.state device.new).faults }
    ensures failed { IsErr result → Rose (D.state device.old).faults (D.state device.new).faults }
{
    set_word(device, who, g.pointer_word(page), word)
}
