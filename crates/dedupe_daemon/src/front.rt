// The front item of the queue.
ghost use Rattle.std.specs.Prelude.{◌≡◌, ◌+◌, ◌*◌, ◌^◌, ◌<◌, ◌≤◌, ◌↔◌, length, IsTrue};
ghost use Rattle.dedupe_daemon.specs.Fronts.{IsPlaceBy, HasPlaceBy, IsFreshIn, IsFreshWork, item_at as kept_item};

use dedupe_queue::Work;
use dn_volume::{InodeState, InodeUse, Sharing, SharingStep};
use file_index::PageMap;
use file_index::page_map::MOST_PLACES;
use pm_device::Pm;

// Whether this place is mapped by the item at this slot.
fn is_place_by(map: &PageMap, slot: u64, idx: u64) -> bool
    ensures { IsTrue result ↔ IsPlaceBy map.now.map slot idx }
{
    match map.get(idx) {
        Some(mapping) => mapping.slot == slot,
        None => false,
    }
}

// Whether some place is. It looks at 4,096 places at most.
fn has_place_by(map: &PageMap, slot: u64) -> bool
    ensures { IsTrue result ↔ HasPlaceBy map.now.map slot }
{
    for idx in 0..MOST_PLACES {
        if is_place_by(map, slot, idx) {
            return true;
        }
    }
    false
}

// Whether the inode is live, at the item's round, and the item maps a place of it.
fn is_fresh_in(work: Work, node: &InodeState) -> bool
    ensures { IsTrue result ↔ IsFreshIn work node.now }
{
    matches!(node.used, InodeUse::Live)
        && work.round == node.round
        && has_place_by(&node.map, work.slot)
}

/// Whether an item of the queue isn't stale: its inode is live, at its round, and a place is mapped by it.
pub fn is_fresh(inodes: &[InodeState], work: Work) -> bool
    ensures { IsTrue result ↔ IsFreshWork inodes.now work }
{
    let ino = work.ino as usize;
    ino < inodes.len() && is_fresh_in(work, &inodes[ino])
}

/// The item at its slot of the log, none of whose places is done.
pub fn item_at<D: Pm>(device: &D, work: Work) -> Sharing
    requires small { work.slot < 2 ^ 32 }
    requires inside { 8 * work.slot + 8 ≤ length (D.state device.now).now }
    ensures { result ≡ kept_item (D.state device.now).now work }
{
    Sharing {
        work,
        first: device.load(8 * work.slot + 1),
        count: device.load(8 * work.slot + 2),
        done: 0,
        step: SharingStep::Look,
    }
}
