// The items of a file that wait for the daemon.
ghost use Rattle.std.specs.Prelude.{◌≡◌, ◌+◌, ◌^◌, ◌<◌, ◌↔◌, IsTrue};
ghost use Rattle.image_keep.specs.Needed.{IsBy, MapsStill};

use file_index::PageMap;

// Whether a place is mapped by the item at this slot.
fn is_by(map: &PageMap, slot: u64, idx: u64) -> bool
    ensures { IsTrue result ↔ IsBy map.now.map slot idx }
{
    match map.get(idx) {
        Some(mapping) => mapping.slot == slot,
        None => false,
    }
}

/// Whether one of these places is mapped by the item at this slot.
pub fn maps_still(map: &PageMap, slot: u64, first: u64, count: u64) -> bool
    requires { first + count < 2 ^ 64 }
    ensures { IsTrue result ↔ MapsStill map.now.map slot first count }
{
    for i in 0..count {
        if is_by(map, slot, first + i) {
            return true;
        }
    }
    false
}
