// The pages of a log are read.
ghost use Rattle.std.specs.Prelude.{◌≡◌, ◌+◌, ◌*◌, ◌<◌, ◌≤◌, ℕ, List, length, IfOk, IsTrue, IsFalse, Contains, ◌⊎◌};
ghost use Rattle.pm_layout.specs.Geometry.{IsAccepted, InData, first_data};
ghost use Rattle.log_walk.specs.Way.{IsWay};

use log_entry::FOOTER;
use page_alloc::FreeSet;
use pm_device::Pm;
use pm_layout::{Geometry, PAGE_WORDS};
use std::alloc::{AllocError, Global};

/// The pages of a log from its head on, as far as there are any.
#[derive(Debug, Drop)]
pub struct Way {
    /// Different pages of the data area, each named by the one before.
    pub pages: Vec<u64>,
    /// Whether the last of them is the tail's. Otherwise the page that comes next is outside the data area, or was
    /// met before.
    pub whole: bool,
}

// Whether the page is one of the data area that isn't in the set of pages met.
fn may_follow(met: &FreeSet, g: &Geometry, first: u64, page: u64) -> bool
    requires { first ≡ first_data g.now }
    ensures yes { IsTrue result → InData g.now page × (Contains met.now.free page → ⊥) }
    ensures no { IsFalse result → (InData g.now page → ⊥) ⊎ Contains met.now.free page }
{
    first <= page && page < g.pages && !met.is_free(page)
}

/// The pages from the head on to the tail's, or to the last one before a page that can't be the log's. The time
/// is linear in their number, and in the 64th of the image's pages.
///
/// # Errors
/// `AllocError` where there is no memory for the pages and a bit for each page of the image.
pub fn read_pages<D: Pm>(
    alloc: Global,
    device: &D,
    g: &Geometry,
    head: u64,
    last: u64,
) -> Result<Way, AllocError>
    requires accepted { IsAccepted g.now }
    requires size { length (D.state device.now).now ≡ 512 * g.now.pages }
    ensures { IfOk result (λ way. IsWay g.now (D.state device.now).now head last way.pages.items
        way.whole) }
{
    let first = g.first_data();
    let mut met = FreeSet::none(alloc, g.pages)?;
    let mut pages = Vec::new(alloc);
    let mut page = head;
    while may_follow(&met, g, first, page) {
        met.give_back(page);
        pages.push(page)?;
        if page == last {
            return Ok(Way { pages, whole: true });
        }
        page = device.load(PAGE_WORDS * page + FOOTER);
    }
    Ok(Way {
        pages,
        whole: false,
    })
}
