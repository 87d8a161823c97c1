// Pages are taken for a write.
ghost use Rattle.std.specs.Prelude.{◌≡◌, ◌+◌, ◌<◌, ◌≤◌, ℕ, length, Contains, IfOk, IsErr, All};
ghost use Rattle.pm_layout.specs.declared.Geometry.{Geometry};
ghost use Rattle.page_alloc.specs.Free.{FreePages, IsInOrder, Takes};
ghost use Rattle.dn_model.specs.Log.{Log, IsPaged, count, tail_at};
ghost use Rattle.dn_model.specs.History.{room, touched};
ghost use Rattle.file_write.specs.Take.{TakesFirst};

use crate::NoMemory;
use page_alloc::FreeSet;
use std::alloc::Global;

/// The slots of a log page.
const PAGE_SLOTS: u64 = 63;

/// How many slots are left in the page of a log's tail; none where the tail is 0.
pub fn room_of(tail: u64) -> u64
    ensures room { (g : Geometry) (log : Log) → IsPaged g log → tail ≡ tail_at log.pages (count log)
        → result ≡ room log }
    ensures few { result ≤ 63 }
{
    if tail == 0 {
        0
    } else {
        PAGE_SLOTS.saturating_sub(tail % 64)
    }
}

/// How many pages of a file are touched by bytes from `at` on, of which there is at least one.
pub fn places_of(at: u64, count: u64) -> u64
    requires some { 1 ≤ count }
    requires fits { at + count ≤ 16777216 }
    ensures { result ≡ touched at count }
{
    (at + count + 4095) / 4096 - at / 4096
}

// Takes the least free page.
fn take_page(free: &mut FreeSet) -> u64
    requires { 1 ≤ length free.old.free }
    ensures { Takes result free.old free.new }
{
    free.take().unwrap()
}

/// Takes the least free pages, so many of them.
///
/// # Errors
/// `NoMemory` where there is no memory for their list. None is taken then.
pub fn take_pages(alloc: Global, free: &mut FreeSet, count: u64) -> Result<Vec<u64>, NoMemory>
    requires { count ≤ length free.old.free }
    ensures taken { IfOk result (λ pages. TakesFirst free.old free.new pages.items) }
    ensures count { IfOk result (λ pages. length pages.items ≡ count) }
    ensures no_memory { IsErr result → free.new ≡ free.old }
{
    let mut pages = Vec::with_capacity(alloc, count as usize)?;
    for _i in 0..count {
        pages.push_reserved(take_page(free));
    }
    Ok(pages)
}

/// Puts pages back that were just taken, so that all is as it was.
pub fn untake_pages(free: &mut FreeSet, pages: Vec<u64>)
    requires { (set : FreePages) × IsInOrder set × TakesFirst set free.old pages.items }
    ensures { (set : FreePages) → IsInOrder set → TakesFirst set free.old pages.items
        → free.new ≡ set }
{
    let mut left = pages;
    'pages: while let Some(page) = left.pop() {
        free.give_back(page);
    }
}
