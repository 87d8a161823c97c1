// Which log may be cleaned.
ghost use Rattle.std.specs.Prelude.{◌≡◌, ◌<◌, ◌&&◌, ℕ, length, true, is_none, nat_lt, IfSome, IfNone};
ghost use Rattle.dn_volume.specs.Cleans.{live_slots, is_live, may_clean_as, may_clean, none_may_clean};

use dn_volume::{InodeState, InodeUse, Parts};
use log_worth::{file_slots, is_worth_cleaning, pages_for, root_slots};

// How many slots the new log of an inode would take.
fn live_slots(parts: &Parts, ino: u64, node: &InodeState) -> u64
    ensures { result ≡ live_slots parts.now ino node.now }
{
    if ino == 0 {
        root_slots(&parts.names)
    } else {
        file_slots(node.size, &node.map)
    }
}

// Whether an inode is in use, and nobody holds it, and a round more of it can be told.
fn is_loose(node: &InodeState) -> bool
    ensures { result ≡ (is_live node.now.used && is_none node.now.holder && nat_lt node.now.round 18446744073709551615) }
{
    matches!(node.used, InodeUse::Live) && node.holder.is_none() && node.round < u64::MAX
}

// Whether the log of this inode may be cleaned: nobody holds it, its new log takes half of the old one's pages at most,
// and a page stays free once these are taken.
fn may_clean_as(parts: &Parts, ino: u64, node: &InodeState) -> bool
    ensures { result ≡ may_clean_as parts.now ino node.now }
{
    let slots = live_slots(parts, ino, node);
    is_loose(node)
        && is_worth_cleaning(node.log_pages, slots)
        && pages_for(slots) < parts.free.count()
}

/// The least inode whose log may be cleaned. It looks at the inodes from the first on, at most 4,096, in constant time
/// each.
pub fn first_worth(parts: &Parts) -> Option<u64>
    ensures inside { IfSome result (λ ino. ino < length parts.now.inodes.items) }
    ensures found { IfSome result (λ ino. may_clean parts.now ino ≡ true) }
    ensures none { IfNone result (none_may_clean parts.now ≡ true) }
{
    for i in 0..parts.inodes.len() {
        if may_clean_as(parts, i as u64, &parts.inodes[i]) {
            return Some(i as u64);
        }
    }
    None
}
