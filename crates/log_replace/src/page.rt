// A page of a log is written whole.
ghost use Rattle.std.specs.Prelude.{◌≡◌, ◌+◌, ◌*◌, ◌<◌, ◌≤◌, ℕ, List, length, slice_index, OnOk, IsErr};
ghost use Rattle.pm_device.specs.State.{Rose};
ghost use Rattle.pm_device.specs.Settled.{StoresOnly, KeepsFlushed, Others, SettlesAll};
ghost use Rattle.pm_device.specs.Pages.{IsInPage};
ghost use Rattle.log_replace.specs.Bodies.{AddsPage, StoresPage, DisksStandStill};

use crate::slots::{end_of_page, store_link, store_slots};
use pm_device::line::{LINE_UNITS, WORD_UNITS};
use pm_device::settle::{SETTLE_UNITS, settle};
use pm_device::{Failed, Pm};

/// The slots of a page of a log, of eight words each.
pub const PAGE_SLOTS: usize = 63;

/// The units of the device that `store_log_page` uses at most: those of 63 lines, of the word that names the next page,
/// and of a fence.
pub const PAGE_UNITS: u64 = 63 * LINE_UNITS + WORD_UNITS + SETTLE_UNITS;

/// Stores page k of a log that is no inode's yet: its slots from the page's first word on, and in its last line the
/// page that follows, where there is one. Flushes what it stored and fences. `pages` are the log's pages and `slots`
/// all its slots, of which page k has those from 63 * k on. It uses at most `PAGE_UNITS`.
///
/// Nothing else is stored to, so that a stop on the way leaves all else as it was: on unused pages each image stands
/// for the disk of before. In the end the page stands in each image that a stop may leave from then on.
///
/// # Errors
/// `Failed` where the device's fence failed. Then the page's words may be old or new.
pub fn store_log_page<D: Pm>(
    device: &mut D,
    who: u32,
    pages: &[u64],
    k: usize,
    slots: &[[u64; 8]],
) -> Result<(), Failed>
    requires page { k < length pages.now }
    requires some { 63 * k < length slots.now }
    requires small { slice_index pages.now k < 65536 }
    requires inside { 512 * slice_index pages.now k + 512 ≤ length (D.state device.old).now }
    requires room { PAGE_UNITS ≤ (D.state device.old).spare }
    ensures stands { OnOk result
        (AddsPage pages.now slots.now k (D.state device.old) (D.state device.new)) }
    ensures still { DisksStandStill pages.now slots.now (D.state device.old) (D.state device.new) }
    ensures body { StoresPage pages.now slots.now k (D.state device.old) (D.state device.new) }
    ensures only { StoresOnly (IsInPage (slice_index pages.now k)) (D.state device.old)
        (D.state device.new) }
    ensures others { KeepsFlushed (Others who) (IsInPage (slice_index pages.now k))
        (D.state device.old) (D.state device.new) }
    ensures settles { OnOk result (SettlesAll who (D.state device.old) (D.state device.new)) }
    ensures spare { (D.state device.old).spare ≤ (D.state device.new).spare + PAGE_UNITS }
    ensures faults { (D.state device.old).faults ≤ (D.state device.new).faults }
    ensures failed { IsErr result → Rose (D.state device.old).faults (D.state device.new).faults }
{
    let end = end_of_page(slots, k);
    store_slots(device, who, pages[k], slots, PAGE_SLOTS * k, end);
    store_link(device, who, pages, k);
    settle(device, who)
}
