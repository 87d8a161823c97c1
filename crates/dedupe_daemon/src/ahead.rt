// The pages that the daemon is to look at next.
ghost use Rattle.std.specs.Prelude.{◌≡◌, ℕ, ◌+◌, ◌^◌, ◌<◌, ◌++◌, [], false, take, flat_map, IfOk};
ghost use Rattle.std.specs.List.{cons_option};
ghost use Rattle.std.specs.FinMap.{get};
ghost use Rattle.dn_volume.specs.Agrees.{Agrees};
ghost use Rattle.dedupe_daemon.specs.Ahead.{page_by as kept_page, item_pages, begun_pages, work_pages, all_pages};

use crate::front::{is_fresh, item_at};
use dedupe_queue::Work;
use dn_model::NoMemory;
use dn_volume::{InodeState, Sharing, Volume};
use file_index::PageMap;
use fingerprint::Fingerprint;
use pm_device::Pm;
use std::alloc::Global;

// The page of a place that the item at this slot maps.
fn page_by(map: &PageMap, slot: u64, idx: u64) -> Option<u64>
    ensures { result ≡ kept_page slot (get map.now.map idx) }
{
    let mapping = map.get(idx)?;
    if mapping.slot == slot {
        Some(mapping.block)
    } else {
        None
    }
}

// The page of such a place is put behind the others.
fn push_place(pages: &mut Vec<u64>, map: &PageMap, slot: u64, idx: u64) -> Result<(), NoMemory>
    ensures { IfOk result (λ _. pages.new.items
        ≡ pages.old.items ++ cons_option (kept_page slot (get map.now.map idx)) []) }
{
    let Some(page) = page_by(map, slot, idx) else {
        return Ok(());
    };
    pages.push(page)?;
    Ok(())
}

// The pages that an item maps still, by place.
fn push_item(pages: &mut Vec<u64>, map: &PageMap, item: Sharing) -> Result<(), NoMemory>
    requires { item.first + item.count < 2 ^ 64 }
    ensures { IfOk result (λ _. pages.new.items ≡ pages.old.items ++ item_pages item map.now.map) }
{
    for k in 0..item.count {
        push_place(pages, map, item.work.slot, item.first + k)?;
    }
    Ok(())
}

// Those of the item that is begun.
fn push_begun<D: Pm, F: Fingerprint>(pages: &mut Vec<u64>, v: &Volume<D, F>) -> Result<(), NoMemory>
    requires agrees { Agrees D.state v.now }
    requires running { v.now.parts.stopped ≡ false }
    ensures { IfOk result (λ _. pages.new.items ≡ pages.old.items
        ++ begun_pages v.now.parts.inodes.items v.now.parts.sharing) }
{
    let Some(item) = v.parts.sharing else {
        return Ok(());
    };
    push_item(pages, &v.parts.inodes[item.work.ino as usize].map, item)
}

// Those of an item that waits, which maps none if it is stale.
fn push_work<D: Pm, F: Fingerprint>(
    pages: &mut Vec<u64>,
    v: &Volume<D, F>,
    work: Work,
) -> Result<(), NoMemory>
    requires agrees { Agrees D.state v.now }
    requires running { v.now.parts.stopped ≡ false }
    ensures { IfOk result (λ _. pages.new.items ≡ pages.old.items
        ++ work_pages (D.state v.now.device).now v.now.parts.inodes.items work) }
{
    if is_fresh(&v.parts.inodes, work) {
        let item = item_at(&v.device, work);
        push_item(pages, &v.parts.inodes[work.ino as usize].map, item)
    } else {
        Ok(())
    }
}

// Those of the first items that wait.
fn push_queue<D: Pm, F: Fingerprint>(
    pages: &mut Vec<u64>,
    v: &Volume<D, F>,
    most: u64,
) -> Result<(), NoMemory>
    requires agrees { Agrees D.state v.now }
    requires running { v.now.parts.stopped ≡ false }
    ensures { IfOk result (λ _. pages.new.items ≡ pages.old.items
        ++ flat_map (work_pages (D.state v.now.device).now v.now.parts.inodes.items)
        (take most v.now.parts.queue.items)) }
{
    for n in 0..most {
        let Some(work) = v.parts.queue.get(n) else {
            return Ok(());
        };
        push_work(pages, v, work)?;
    }
    Ok(())
}

// The pages that the item that is begun and the first items that wait map still, by item and then by place.
pub(crate) fn find_ahead<D: Pm, F: Fingerprint>(
    alloc: Global,
    v: &Volume<D, F>,
    most: u64,
) -> Result<Vec<u64>, NoMemory>
    requires agrees { Agrees D.state v.now }
    requires running { v.now.parts.stopped ≡ false }
    ensures { IfOk result
        (λ pages. pages.items ≡ all_pages most v.now.parts (D.state v.now.device).now) }
{
    let mut pages = Vec::new(alloc);
    push_begun(&mut pages, v)?;
    push_queue(&mut pages, v, most)?;
    Ok(pages)
}
