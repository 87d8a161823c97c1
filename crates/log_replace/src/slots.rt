// The words of one page of a log.
ghost use Rattle.std.specs.Prelude.{◌≡◌, ◌+◌, ◌-◌, ◌*◌, ◌<◌, ◌≤◌, ℕ, List, length, slice_index};
ghost use Rattle.pm_device.specs.Settled.{StoresOnly, KeepsFlushed, Anyone, FlushesAll};
ghost use Rattle.pm_device.specs.Reading.{IsReady};
ghost use Rattle.log_replace.specs.Slots.{SlotsSay, IsSlotWord, LinkSays, IsLinkWord};

use crate::page::PAGE_SLOTS;
use pm_device::Pm;
use pm_device::line::{LINE_UNITS, WORD_UNITS, store_line, store_word};

/// Where the slots of page k end: before those of the next page, or with the last slot.
pub(crate) fn end_of_page(slots: &[[u64; 8]], k: usize) -> usize
    requires some { 63 * k < length slots.now }
    ensures some { 63 * k < result }
    ensures high { result ≤ 63 * k + 63 }
    ensures there { result ≤ length slots.now }
    ensures all { (n : ℕ) → n < 63 * k + 63 → n < length slots.now → n < result }
{
    let first = PAGE_SLOTS * k;
    if slots.len() - first < PAGE_SLOTS {
        slots.len()
    } else {
        first + PAGE_SLOTS
    }
}

/// Stores the slots from `first` on, before `last`, into a page from its first word on, and flushes them.
pub(crate) fn store_slots<D: Pm>(
    device: &mut D,
    who: u32,
    page: u64,
    slots: &[[u64; 8]],
    first: usize,
    last: usize,
)
    requires some { first < last }
    requires few { last ≤ first + 63 }
    requires there { last ≤ length slots.now }
    requires small { page < 65536 }
    requires inside { 512 * page + 512 ≤ length (D.state device.old).now }
    requires room { LINE_UNITS * (last - first) ≤ (D.state device.old).spare }
    ensures only { StoresOnly (IsSlotWord page (last - first)) (D.state device.old)
        (D.state device.new) }
    ensures ready { IsReady who (SlotsSay page slots.now first last) (D.state device.new) }
    ensures keeps { KeepsFlushed Anyone (IsSlotWord page (last - first)) (D.state device.old)
        (D.state device.new) }
    ensures flushes { FlushesAll who (D.state device.old) (D.state device.new) }
    ensures spare { (D.state device.old).spare ≤ (D.state device.new).spare + LINE_UNITS
        * (last - first) }
    ensures faults { (D.state device.old).faults ≤ (D.state device.new).faults }
{
    for n in first..last {
        store_line(device, who, 64 * page + (n - first) as u64, &slots[n]);
    }
}

/// Where a page follows page k, stores its number into page k's last line and flushes it.
pub(crate) fn store_link<D: Pm>(device: &mut D, who: u32, pages: &[u64], k: usize)
    requires page { k < length pages.now }
    requires small { slice_index pages.now k < 65536 }
    requires inside { 512 * slice_index pages.now k + 512 ≤ length (D.state device.old).now }
    requires room { WORD_UNITS ≤ (D.state device.old).spare }
    ensures only { StoresOnly (IsLinkWord pages.now k) (D.state device.old) (D.state device.new) }
    ensures ready { IsReady who (LinkSays pages.now k) (D.state device.new) }
    ensures keeps { KeepsFlushed Anyone (IsLinkWord pages.now k) (D.state device.old)
        (D.state device.new) }
    ensures flushes { FlushesAll who (D.state device.old) (D.state device.new) }
    ensures spare { (D.state device.old).spare ≤ (D.state device.new).spare + WORD_UNITS }
    ensures faults { (D.state device.old).faults ≤ (D.state device.new).faults }
{
    if k + 1 < pages.len() {
        store_word(device, who, 512 * pages[k] + 504, pages[k + 1]);
    }
}
