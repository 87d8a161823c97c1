// Room is made for an operation that begins.
ghost use Rattle.std.specs.Prelude.{◌≡◌, ◌⊎◌, ◌+◌, ◌<◌, ◌≤◌, true, length, IfSome};
ghost use Rattle.pm_device.specs.State.{IsSame};
ghost use Rattle.begin_steps.specs.Room.{add_room, FitsRoom, MakesRoom, HasRoomOf, HasRoomFor, HasMoreRoom, MakesPlaceRoom, HasPlaceRoom};

use dn_volume::{InodeState, Parts, Room, Volume};
use fingerprint::Fingerprint;
use pm_device::Pm;

// Two rooms together, unless a number is too great for 64 bits.
fn sum_of(owed: &Room, more: &Room) -> Option<Room>
    ensures sum { IfSome result (λ all. all ≡ add_room owed.now more.now) }
    ensures fits { IfSome result (λ all. FitsRoom (add_room owed.now more.now)) }
{
    Some(Room {
        units: owed.units.checked_add(more.units)?,
        trace: owed.trace.checked_add(more.trace)?,
        history: owed.history.checked_add(more.history)?,
        queue: owed.queue.checked_add(more.queue)?,
        releases: owed.releases.checked_add(more.releases)?,
    })
}

// Makes this room in memory.
fn reserve(parts: &mut Parts, all: &Room) -> bool
    ensures makes { MakesRoom parts.old parts.new }
    ensures room { result ≡ true → HasRoomOf all.now parts.new }
{
    if parts.trace.reserve(all.trace as usize).is_err() {
        return false;
    }
    if parts.history.reserve(all.history as usize).is_err() {
        return false;
    }
    if parts.queue.reserve(all.queue).is_err() {
        return false;
    }
    if parts.names.reserve(all.history).is_err() {
        return false;
    }
    let releases = &mut parts.reclaiming.releases;
    releases.reserve(all.releases as usize).is_ok()
}

/// Makes room for more beside what is owed: in memory, and of the device's units. Whether there was memory for it.
pub fn make_room<D: Pm, F: Fingerprint>(v: &mut Volume<D, F>, more: &Room) -> bool
    ensures device { IsSame (D.state v.old.device) (D.state v.new.device) }
    ensures spare { ((D.state v.new.device).spare ≡ (D.state v.old.device).spare)
        ⊎ (v.old.parts.owed.units ≤ (D.state v.new.device).spare) }
    ensures makes { MakesRoom v.old.parts v.new.parts }
    ensures room { result ≡ true → HasRoomFor more.now v.new.parts }
    ensures units { result ≡ true → v.new.parts.owed.units + more.now.units ≤ (D.state
        v.new.device).spare }
{
    let Some(all) = sum_of(&v.parts.owed, more) else {
        return false;
    };
    if v.device.ready(all.units).is_err() {
        return false;
    }
    reserve(&mut v.parts, &all)
}

// Makes room in the map of an inode for so many places more.
fn reserve_in(node: &mut InodeState, places: u64) -> bool
    ensures makes { HasMoreRoom 0 node.old node.new }
    ensures room { result ≡ true → places ≤ node.new.map.room }
{
    node.map.reserve(places).is_ok()
}

/// Makes room in the map of an inode for so many places more. Whether there was memory for it.
pub fn make_place_room(parts: &mut Parts, ino: u64, places: u64) -> bool
    requires { ino < length parts.old.inodes.items }
    ensures makes { MakesPlaceRoom parts.old parts.new }
    ensures room { result ≡ true → HasPlaceRoom ino places parts.new }
{
    reserve_in(&mut parts.inodes[ino as usize], places)
}
