// Pages are copied ahead of the daemon, and their copies are handed in.
ghost use Rattle.std.specs.Prelude.{◌≡◌, ℕ, ◌+◌, ◌*◌, ◌<◌, ◌≤◌, List, [], false, length, map, IfOk};
ghost use Rattle.dn_volume.specs.Agrees.{Agrees};
ghost use Rattle.dedupe_daemon.specs.Ahead.{pages_ahead, and_once, with_page, copy_of};
ghost use Rattle.dedupe_daemon.specs.Copies.{AreInside, IsInside};

use crate::ahead::find_ahead;
use dn_model::NoMemory;
use dn_volume::{Batch, BatchPage, Volume};
use fingerprint::Fingerprint;
use page_bytes::read_page;
use pm_device::Pm;
use std::alloc::Global;

// The copy of a page.
fn copy_page<D: Pm, F: Fingerprint>(
    alloc: Global,
    device: &D,
    by: F,
    page: u64,
) -> Result<BatchPage<F>, NoMemory>
    requires { IsInside (D.state device.now).now page }
    ensures { IfOk result (λ copy. copy ≡ copy_of (D.state device.now).now page) }
{
    let bytes = read_page(alloc, device, page)?;
    Ok(BatchPage::new(page, bytes, by))
}

// A page is copied, unless it was.
fn push_copy<D: Pm, F: Fingerprint>(
    alloc: Global,
    v: &Volume<D, F>,
    batch: &mut Batch<F>,
    page: u64,
) -> Result<(), NoMemory>
    requires { IsInside (D.state v.now.device).now page }
    ensures { IfOk result (λ _. (pages : List ℕ)
        → batch.old ≡ map (copy_of (D.state v.now.device).now) pages
        → batch.new ≡ map (copy_of (D.state v.now.device).now) (with_page pages page)) }
{
    if batch.has(page) {
        return Ok(());
    }
    let copy = copy_page(alloc, &v.device, v.print, page)?;
    batch.push(copy)
}

// Each of these pages is copied once.
fn copy_pages<D: Pm, F: Fingerprint>(
    alloc: Global,
    v: &Volume<D, F>,
    pages: &[u64],
) -> Result<Batch<F>, NoMemory>
    requires { AreInside (D.state v.now.device).now pages.now }
    ensures { IfOk result (λ batch. batch
        ≡ map (copy_of (D.state v.now.device).now) (and_once [] pages.now)) }
{
    let mut batch = Batch::new(alloc);
    for page in pages {
        push_copy(alloc, v, &mut batch, *page)?;
    }
    Ok(batch)
}

/// Copies of the pages that the daemon is to look at next: those that the item that it has begun and the first `most`
/// items of its queue map still, by item and then by place, each page once, without prints. A stale item maps none. A
/// stopped volume gives no page.
///
/// # Errors
/// `NoMemory` where there is no memory for the copies.
pub fn copy_ahead<D: Pm, F: Fingerprint>(
    alloc: Global,
    v: &Volume<D, F>,
    most: u64,
) -> Result<Batch<F>, NoMemory>
    requires { Agrees D.state v.now }
    ensures { IfOk result (λ batch. batch ≡ map (copy_of (D.state v.now.device).now)
        (pages_ahead most v.now.parts (D.state v.now.device).now)) }
{
    if v.parts.stopped {
        return Ok(Batch::new(alloc));
    }
    let pages = find_ahead(alloc, v, most)?;
    copy_pages(alloc, v, &pages)
}

/// The volume keeps these copies in place of those before.
pub fn hand_in<D: Pm, F: Fingerprint>(v: &mut Volume<D, F>, batch: Batch<F>)
    ensures { v.new ≡ record v.old { kept = batch } }
{
    v.kept = batch;
}
