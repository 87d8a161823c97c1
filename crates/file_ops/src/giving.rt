// What the end of a write or a cut gives back and leaves to do.
ghost use Rattle.std.specs.Prelude.{◌≡◌, ◌↔◌, ◌+◌, ◌<◌, ◌≤◌, ◌++◌, ℕ, length, Contains, All, IfSome, Some};
ghost use Rattle.std.specs.FinMap.{get};
ghost use Rattle.std.specs.VecDeque.{deque_len, deque_capacity};
ghost use Rattle.page_alloc.specs.Free.{IsInOrder};
ghost use Rattle.file_content.specs.Pages.{AreApart};
ghost use Rattle.fact_table.specs.Table.{HasTable, IsTable};
ghost use Rattle.dn_model.specs.Disk.{Disk};
ghost use Rattle.file_ops.specs.Giving.{Gives, IsUnshared, IsUnsharedAmong, CanGive, QueuesSlots};

use dedupe_queue::{Work, WorkQueue};
use fact_table::Fact;
use file_content::remap::slot_after;
use file_index::PageMap;
use page_alloc::FreeSet;
use pm_device::Pm;
use std::collections::VecDeque;

// Gives back a page, if there is one.
fn give_back_page(free: &mut FreeSet, page: Option<u64>)
    requires below { IfSome page (λ p. p < free.old.pages) }
    requires taken { IfSome page (λ p. ¬ Contains free.old.free p) }
    requires in_order { IsInOrder free.old }
    ensures { Gives (λ p. page ≡ Some p) free.old free.new }
{
    if let Some(p) = page {
        free.give_back(p);
    }
}

/// Gives back pages, which are different ones and not free.
pub fn give_back_pages(free: &mut FreeSet, pages: &[u64])
    requires below { (page : ℕ) → Contains pages.now page → page < free.old.pages }
    requires taken { (page : ℕ) → Contains pages.now page → ¬ Contains free.old.free page }
    requires apart { AreApart pages.now }
    requires in_order { IsInOrder free.old }
    ensures { Gives (Contains pages.now) free.old free.new }
{
    for i in 0..pages.len() {
        give_back_page(free, Some(pages[i]));
    }
}

// The page of a place, if it is mapped and no row has its page.
fn unshared_page<D: Pm>(fact: &Fact, device: &D, map: &PageMap, place: u64) -> Option<u64>
    requires table { HasTable (D.state device.now).now fact.now }
    requires inside { IfSome (get map.now.map place) (λ m. m.block < fact.now.geometry.pages) }
    ensures { (d : Disk) → IsTable d (D.state device.now).now fact.now → (page : ℕ)
        → (result ≡ Some page) ↔ IsUnshared d (get map.now.map place) page }
{
    let mapping = map.get(place)?;
    match fact.by_page(device, mapping.block) {
        Some(_) => None,
        None => Some(mapping.block),
    }
}

/// Gives back the pages of so many places of a file from `first` on, as far as these are mapped and no row has their
/// page.
pub fn give_back_unshared<D: Pm>(
    free: &mut FreeSet,
    fact: &Fact,
    device: &D,
    map: &PageMap,
    first: u64,
    places: u64,
)
    requires in_file { first + places ≤ 4096 }
    requires can { CanGive (D.state device.now).now fact.now map.now.map first places free.old }
    ensures { (d : Disk) → IsTable d (D.state device.now).now fact.now
        → Gives (IsUnsharedAmong d map.now.map first places) free.old free.new }
{
    for i in 0..places {
        let page = unshared_page(fact, device, map, first + i);
        give_back_page(free, page);
    }
}

/// Puts slots of rows behind those that wait to be released, into room that there is.
pub fn release_rows(releases: &mut VecDeque<u64>, rows: &[u64])
    requires { deque_len releases.old + length rows.now ≤ deque_capacity releases.old }
    ensures items { releases.new.items ≡ releases.old.items ++ rows.now }
    ensures len { deque_len releases.new ≡ deque_len releases.old + length rows.now }
    ensures capacity { deque_capacity releases.new ≡ deque_capacity releases.old }
{
    for row in rows {
        releases.push_back_reserved(*row);
    }
}

/// Puts the items of so many slots past a log's tail behind those that wait for the daemon, into room that there is.
pub fn queue_slots(queue: &mut WorkQueue, ino: u64, round: u64, tail: u64, fresh: &[u64], n: u64)
    requires room { n ≤ queue.old.room }
    requires tail { tail < 4194304 }
    requires fresh { All (λ page. page < 65536) fresh.now }
    ensures { QueuesSlots ino round tail fresh.now n queue.old queue.new }
{
    for j in 0..n {
        let slot = slot_after(tail, fresh, j);
        queue.push(Work { ino, round, slot });
    }
}
