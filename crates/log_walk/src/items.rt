// Slots become the items of a log, each with its place.
ghost use Rattle.std.specs.Prelude.{◌≡◌, ◌+◌, ◌*◌, ◌-◌, ◌<◌, ◌≤◌, ◌↔◌, ℕ, List, length, IfOk, IsTrue, All};
ghost use Rattle.pm_layout.specs.Geometry.{IsAccepted, InData};
ghost use Rattle.log_entry.specs.Spelling.{IsSpelled};
ghost use Rattle.dn_model.specs.Log.{slot_name};
ghost use Rattle.dn_model.specs.Valid.{MayStand};
ghost use Rattle.log_walk.specs.Items.{IsNext, AreRead};

use log_entry::{Front, LOG_SLOTS, LogItem, read_front};
use pm_layout::Geometry;
use std::alloc::{AllocError, Global};

/// An item of a log and where it stands.
#[derive(Debug, Drop)]
pub struct Placed {
    /// The name of the item's first slot: the page * 64 + the place in the page, 0 to 62.
    pub slot: u64,
    /// The item.
    pub item: LogItem,
}

/// Why no more items were read.
#[derive(Clone, Copy, Debug, PartialEq, Eq)]
pub enum End {
    /// The items fill the slots.
    Filled,
    /// The slots that are left begin an item that takes more of them.
    Cut,
    /// The slots that are left spell no item, nor the beginning of one, or they spell one that may not stand in
    /// this log.
    Bad,
}

/// The items that slots begin with.
#[derive(Debug, Drop)]
pub struct Items {
    /// The items in order.
    pub items: Vec<Placed>,
    /// How many slots they take.
    pub taken: usize,
    /// Why there are no more.
    pub end: End,
}

/// What comes next in slots.
#[derive(Debug, Drop)]
pub enum Next {
    /// An item that may stand there, and how many slots it takes, 1 to 5.
    Item {
        /// The item.
        item: LogItem,
        /// The slots that it takes.
        slots: u64,
    },
    /// The beginning of an item.
    Cut,
    /// Neither, or an item that may not stand there.
    Bad,
}

// Whether the item may stand in the log of this inode: names in the root's, the rest in files', with blocks of
// the data area and inodes from 1 on.
fn may_stand(g: &Geometry, ino: u64, item: &LogItem) -> bool
    requires accepted { IsAccepted g.now }
    requires spelled { IsSpelled item.now }
    ensures { IsTrue result ↔ MayStand g.now ino item.now }
{
    match item {
        LogItem::Write { count, block, .. } => ino != 0 && has_blocks(g, *block, *count),
        LogItem::Size { .. } => ino != 0,
        LogItem::Add { ino: named, .. } => ino == 0 && 1 <= *named && *named < g.inodes,
        LogItem::Forget { .. } => ino == 0,
    }
}

// Whether so many pages from this one on lie in the data area.
fn has_blocks(g: &Geometry, block: u64, count: u64) -> bool
    requires accepted { IsAccepted g.now }
    requires some { 1 ≤ count }
    ensures { IsTrue result ↔ (InData g.now block × InData g.now (block + count - 1)) }
{
    g.first_data() <= block && block < g.pages && count <= g.pages - block
}

// What comes next in these slots.
fn next_item(alloc: Global, g: &Geometry, ino: u64, slots: &[[u64; 8]]) -> Result<Next, AllocError>
    requires { IsAccepted g.now }
    ensures { IfOk result (λ next. IsNext g.now ino slots.now next) }
{
    match read_front(alloc, slots)? {
        Front::Whole { item, slots } => {
            if may_stand(g, ino, &item) {
                Ok(Next::Item { item, slots })
            } else {
                Ok(Next::Bad)
            }
        }
        Front::Part => Ok(Next::Cut),
        Front::Nothing => Ok(Next::Bad),
    }
}

// The name of slot k of these pages.
fn name_of(pages: &[u64], k: usize) -> u64
    requires pages { All (λ page. page < 65536) pages.now }
    requires inside { k < 63 * length pages.now }
    ensures { result ≡ slot_name pages.now k }
{
    let slots = LOG_SLOTS as usize;
    pages[k / slots] * 64 + (k % slots) as u64
}

/// The items that these slots of these pages begin with, up to the first that may not stand in the log of this
/// inode.
///
/// # Errors
/// `AllocError` where there is no memory for the items.
pub fn read_items(
    alloc: Global,
    g: &Geometry,
    ino: u64,
    pages: &[u64],
    slots: &[[u64; 8]],
) -> Result<Items, AllocError>
    requires accepted { IsAccepted g.now }
    requires pages { All (λ page. page < 65536) pages.now }
    requires inside { length slots.now ≤ 63 * length pages.now }
    ensures { IfOk result (λ read. AreRead g.now ino pages.now slots.now read) }
{
    let mut items = Vec::new(alloc);
    let mut taken = 0;
    while taken < slots.len() {
        let (item, count) = match next_item(alloc, g, ino, &slots[taken..])? {
            Next::Item { item, slots } => (item, slots),
            Next::Cut => {
                return Ok(Items {
                    items,
                    taken,
                    end: End::Cut,
                });
            }
            Next::Bad => {
                return Ok(Items {
                    items,
                    taken,
                    end: End::Bad,
                });
            }
        };
        let slot = name_of(pages, taken);
        items.push(Placed { slot, item })?;
        taken += count as usize;
    }
    Ok(Items {
        items,
        taken,
        end: End::Filled,
    })
}
