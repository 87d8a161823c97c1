// What the log of an inode says still, and where its new log has it.
ghost use Rattle.std.specs.Prelude.{◌≡◌, ◌+◌, ◌*◌, ◌<◌, ◌≤◌, ◌∷◌, ◌++◌, [], ℕ, length, true, false, map, All, IfOk, OnOk};
ghost use Rattle.log_entry.specs.Spelling.{spelled};
ghost use Rattle.dn_model.specs.Disk.{Disk};
ghost use Rattle.dn_model.specs.Log.{Log, placed_from, slot_name};
ghost use Rattle.log_walk.specs.Items.{seen};
ghost use Rattle.dn_volume.specs.Agrees.{Agrees, IsVolume};
ghost use Rattle.dn_volume.specs.Cleans.{may_clean, is_due, due_slots};
ghost use Rattle.log_clean.specs.Planning.{AreRemains, MayBeLaid, IsLaidOut};

use clean_items::cleaned_items;
use dn_volume::Volume;
use file_index::PageMap;
use file_scan::index_items;
use fingerprint::Fingerprint;
use log_entry::write::{slots_of, write_item};
use log_entry::{Flag, LogItem};
use log_walk::{Placed, walk};
use pm_device::Pm;
use std::alloc::{AllocError, Global};

/// Memory is wanting.
pub type NoMemory = AllocError;

/// The slots of a log page.
const PAGE_SLOTS: u64 = 63;

/// What a log says still.
#[derive(Debug, Drop)]
pub struct Remains {
    /// The items of its new log.
    pub items: Vec<LogItem>,
    /// The slots of these items.
    pub slots: Vec<[u64; 8]>,
}

/// Where a new log has what it says.
#[derive(Debug, Drop)]
pub struct Layout {
    /// Where the pages of the file are, by the new log's items.
    pub map: PageMap,
    /// The slots of its items that wait for the daemon.
    pub due: Vec<u64>,
}

// The slots of items, one after the other.
fn spell(alloc: Global, items: &[LogItem]) -> Result<Vec<[u64; 8]>, NoMemory>
    requires { All MayBeLaid items.now }
    ensures { IfOk result (λ slots. spelled items.now ≡ slots.items) }
{
    let mut slots = Vec::new(alloc);
    for (i, item) in items.iter().enumerate() {
        write_item(item, &mut slots)?;
    }
    Ok(slots)
}

/// What the log of an inode says still, from its items and from what is kept of the inode.
///
/// # Errors
/// `NoMemory` where there is no memory for the items or their slots.
pub fn read_remains<D: Pm, F: Fingerprint>(
    alloc: Global,
    v: &Volume<D, F>,
    ino: u64,
) -> Result<Remains, NoMemory>
    requires agrees { Agrees D.state v.now }
    requires running { v.now.parts.stopped ≡ false }
    requires inside { ino < length v.now.parts.inodes.items }
    requires may { may_clean v.now.parts ino ≡ true }
    ensures remains { IfOk result (λ r. (d : Disk)
        → IsVolume d v.now.parts (D.state v.now.device) → AreRemains d ino r) }
    ensures laid { IfOk result (λ r. All MayBeLaid r.items.items) }
{
    let items = match walk(alloc, &v.device, &v.parts.geometry, ino) {
        Ok(items) => items,
        Err(_) => return Err(AllocError),
    };
    let node = &v.parts.inodes[ino as usize];
    let items = cleaned_items(alloc, ino, &items, node.size, &node.map)?;
    let slots = spell(alloc, &items)?;
    Ok(Remains { items, slots })
}

// The name of slot n of these pages.
fn slot_at(pages: &[u64], n: u64) -> u64
    requires small { All (λ page. page < 65536) pages.now }
    requires inside { n < 63 * length pages.now }
    ensures { result ≡ slot_name pages.now n }
{
    pages[(n / PAGE_SLOTS) as usize] * 64 + n % PAGE_SLOTS
}

// The items of a log on these pages, each at its first slot.
fn place_items(alloc: Global, pages: &[u64], items: Vec<LogItem>) -> Result<Vec<Placed>, NoMemory>
    requires small { All (λ page. page < 65536) pages.now }
    requires few { length pages.now ≤ 65536 }
    requires fits { length (spelled items.items) ≤ 63 * length pages.now }
    ensures { IfOk result (λ all. map seen all.items ≡ placed_from pages.now 0 items.items) }
{
    let mut all = Vec::with_capacity(alloc, items.len())?;
    let mut n = 0;
    for item in items {
        let slots = slots_of(&item);
        all.push_reserved(Placed {
            slot: slot_at(pages, n),
            item,
        });
        n += slots;
    }
    Ok(all)
}

// Whether the daemon has an item to do still.
fn is_due(item: &LogItem) -> bool
    ensures { result ≡ is_due item.now }
{
    matches!(
        item,
        LogItem::Write {
            flag: Flag::Needed | Flag::InProcess,
            ..
        }
    )
}

// Adds the slot of an item, if the daemon has it to do still.
fn push_due(due: &mut Vec<u64>, placed: &Placed) -> Result<(), NoMemory>
    ensures { OnOk result (due.new.items ≡ due.old.items ++ due_slots (seen placed.now ∷ [])) }
{
    if is_due(&placed.item) {
        due.push(placed.slot)?;
    }
    Ok(())
}

// The slots of the items that the daemon has to do still, in order.
fn due_slots(alloc: Global, items: &[Placed]) -> Result<Vec<u64>, NoMemory>
    ensures { IfOk result (λ due. due_slots (map seen items.now) ≡ due.items) }
{
    let mut due = Vec::new(alloc);
    for (i, placed) in items.iter().enumerate() {
        push_due(&mut due, placed)?;
    }
    Ok(due)
}

/// Where a log of these items on these pages has the places of its file, and which of its slots wait for the daemon.
///
/// # Errors
/// `NoMemory` where there is no memory for that.
pub fn lay_out(alloc: Global, pages: &[u64], items: Vec<LogItem>) -> Result<Layout, NoMemory>
    requires small { All (λ page. page < 65536) pages.now }
    requires few { length pages.now ≤ 65536 }
    requires fits { length (spelled items.items) ≤ 63 * length pages.now }
    requires laid { All MayBeLaid items.items }
    ensures { IfOk result (λ layout. (log : Log) → log.pages ≡ pages.now
        → log.items ≡ items.items → IsLaidOut log layout) }
{
    let placed = place_items(alloc, pages, items)?;
    let index = index_items(alloc, &placed)?;
    let due = due_slots(alloc, &placed)?;
    Ok(Layout {
        map: index.map,
        due,
    })
}
