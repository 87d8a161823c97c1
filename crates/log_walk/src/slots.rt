// The slots of a log are read.
ghost use Rattle.std.specs.Prelude.{◌≡◌, ◌+◌, ◌*◌, ◌<◌, ◌≤◌, ℕ, List, length, IfOk, All};
ghost use Rattle.pm_layout.specs.Geometry.{IsAccepted};
ghost use Rattle.log_walk.specs.Slots.{slot_at, first_slots};

use log_entry::{LOG_SLOTS, SLOT_WORDS};
use pm_device::Pm;
use pm_layout::{Geometry, PAGE_WORDS};
use std::alloc::{AllocError, Global};

// Slot k of these pages.
fn read_slot<D: Pm>(device: &D, g: &Geometry, pages: &[u64], k: u64) -> [u64; 8]
    requires accepted { IsAccepted g.now }
    requires size { length (D.state device.now).now ≡ 512 * g.now.pages }
    requires pages { All (λ page. page < g.now.pages) pages.now }
    requires inside { k < 63 * length pages.now }
    ensures { result ≡ slot_at (D.state device.now).now pages.now k }
{
    let page = pages[(k / LOG_SLOTS) as usize];
    let at = PAGE_WORDS * page + SLOT_WORDS * (k % LOG_SLOTS);
    let mut slot = [0; 8];
    for (j, word) in slot.iter_mut().enumerate() {
        *word = device.load(at + j as u64);
    }
    slot
}

/// The first `count` slots of these pages, which have as many: 63 a page, of 8 words each.
///
/// # Errors
/// `AllocError` where there is no memory for them.
pub fn read_slots<D: Pm>(
    alloc: Global,
    device: &D,
    g: &Geometry,
    pages: &[u64],
    count: u64,
) -> Result<Vec<[u64; 8]>, AllocError>
    requires accepted { IsAccepted g.now }
    requires size { length (D.state device.now).now ≡ 512 * g.now.pages }
    requires pages { All (λ page. page < g.now.pages) pages.now }
    requires inside { count ≤ 63 * length pages.now }
    ensures { IfOk result (λ slots. slots.items ≡ first_slots (D.state device.now).now pages.now
        count) }
{
    let mut slots = Vec::new(alloc);
    for k in 0..count {
        slots.push(read_slot(device, g, pages, k))?;
    }
    Ok(slots)
}
