// The front item of the queue is begun.
ghost use Rattle.std.specs.Prelude.{◌≡◌, ◌≢◌, ◌+◌, ◌*◌, ◌^◌, ◌<◌, ◌≤◌, ℕ, ◌∷◌, List, length, slice_get, true, false, Some, None, vec_len, vec_capacity};
ghost use Rattle.dn_model.specs.Disk.{Disk};
ghost use Rattle.dedupe_queue.specs.declared.Work.{Work as KeptWork};
ghost use Rattle.dn_volume.specs.declared.volume.InodeState.{InodeState as KeptState};
ghost use Rattle.dn_volume.specs.Agrees.{Agrees, IsVolume};
ghost use Rattle.dn_volume.specs.Works.{DaemonWorks};
ghost use Rattle.reclaim.specs.RoomMade.{MakesRoom};
ghost use Rattle.dedupe_daemon.specs.Daemon.{PopsStale, BeginsItem};
ghost use Rattle.dedupe_daemon.specs.Fronts.{IsFreshWork, item_at as kept_item, HasRoomToShare};

use crate::end::hold_inode;
use crate::front::{is_fresh, item_at};
use count_events::release::stop;
use dedupe_queue::Work;
use dn_volume::units::{END_UNITS, PLACE_UNITS};
use dn_volume::{DAEMON, Outcome, Parts, Sharing, Volume};
use fingerprint::Fingerprint;
use inode_log::flag::{FLAG_UNITS, set_flag};
use log_entry::Flag;
use pm_device::Pm;

// The front item is gone from the queue.
fn note_stale(parts: &mut Parts, work: Work)
    requires { slice_get parts.old.queue.items 0 ≡ Some work }
    ensures { PopsStale work parts.old parts.new }
{
    parts.queue.pop();
    parts.made = parts.made.saturating_add(1);
}

// The front item is begun.
fn note_begin(parts: &mut Parts, sharing: Sharing)
    requires front { slice_get parts.old.queue.items 0 ≡ Some sharing.work }
    requires there { sharing.work.ino < length parts.old.inodes.items }
    requires units { parts.old.owed.units + END_UNITS + PLACE_UNITS * sharing.count < 2 ^ 64 }
    requires changes { parts.old.owed.trace + 2 * sharing.count < 2 ^ 64 }
    ensures { BeginsItem sharing parts.old parts.new }
{
    parts.queue.pop();
    hold_inode(&mut parts.inodes, sharing.work.ino, Some(DAEMON));
    parts.sharing = Some(sharing);
    parts.made = parts.made.saturating_add(1);
    parts.owed.units += END_UNITS + PLACE_UNITS * sharing.count;
    parts.owed.trace += 2 * sharing.count;
}

// Makes room for an item of so many places, and for the store of its flag.
fn make_room<D: Pm, F: Fingerprint>(v: &mut Volume<D, F>, count: u64) -> bool
    requires { count < 2 ^ 32 }
    ensures makes { MakesRoom D.state v.old v.new }
    ensures room { result ≡ true → HasRoomToShare D.state v.new count }
{
    let item = END_UNITS + PLACE_UNITS * count + FLAG_UNITS;
    let Some(units) = v.parts.owed.units.checked_add(item) else {
        return false;
    };
    let Some(changes) = v.parts.owed.trace.checked_add(2 * count) else {
        return false;
    };
    if v.device.ready(units).is_err() {
        return false;
    }
    v.parts.trace.reserve(changes as usize).is_ok()
}

// The item, which isn't stale, is flagged as in process, and its inode is held.
fn take_item<D: Pm, F: Fingerprint>(v: &mut Volume<D, F>, sharing: Sharing) -> Outcome
    requires agrees { Agrees D.state v.old }
    requires running { v.old.parts.stopped ≡ false }
    requires none_begun { v.old.parts.sharing ≡ None }
    requires front { slice_get v.old.parts.queue.items 0 ≡ Some sharing.work }
    requires fresh { IsFreshWork v.old.parts.inodes.items sharing.work }
    requires item { sharing ≡ kept_item (D.state v.old.device).now sharing.work }
    requires loose { (n : KeptState) → slice_get v.old.parts.inodes.items sharing.work.ino ≡ Some n
        → n.holder ≡ None }
    requires room { HasRoomToShare D.state v.old sharing.count }
    ensures agrees { Agrees D.state v.new }
    ensures event { (d : Disk) → IsVolume d v.old.parts (D.state v.old.device)
        → DaemonWorks D.state F.print v.old v.new d result }
{
    let g = v.parts.geometry;
    match set_flag(
        &mut v.device,
        &g,
        DAEMON,
        sharing.work.slot,
        Flag::InProcess,
    ) {
        Ok(()) => {
            note_begin(&mut v.parts, sharing);
            Outcome::Running {
                left: 3 * sharing.count + 1,
            }
        }
        Err(_) => {
            stop(&mut v.parts);
            Outcome::Stopped
        }
    }
}

// The front item is begun, or its inode is held by another actor.
fn begin_fresh<D: Pm, F: Fingerprint>(v: &mut Volume<D, F>, work: Work) -> Outcome
    requires agrees { Agrees D.state v.old }
    requires running { v.old.parts.stopped ≡ false }
    requires none_begun { v.old.parts.sharing ≡ None }
    requires front { slice_get v.old.parts.queue.items 0 ≡ Some work }
    requires fresh { IsFreshWork v.old.parts.inodes.items work }
    ensures agrees { Agrees D.state v.new }
    ensures event { (d : Disk) → IsVolume d v.old.parts (D.state v.old.device)
        → DaemonWorks D.state F.print v.old v.new d result }
{
    if let Some(holder) = v.parts.inodes[work.ino as usize].holder {
        return Outcome::Busy { holder };
    }
    let sharing = item_at(&v.device, work);
    if make_room(v, sharing.count) {
        take_item(v, sharing)
    } else {
        Outcome::NoMemory
    }
}

/// The front item of the queue is begun: its inode is held, and it is flagged as in process. A stale one is taken out
/// of the queue, and `Running` tells that nothing is left of it. `Idle` where no item waits, `Busy` where another
/// actor holds the inode, `NoMemory` where there is no memory for what the item will need; nothing was changed then.
/// `Stopped` where a fence of the device failed.
pub fn begin_item<D: Pm, F: Fingerprint>(v: &mut Volume<D, F>) -> Outcome
    requires agrees { Agrees D.state v.old }
    requires running { v.old.parts.stopped ≡ false }
    requires none_begun { v.old.parts.sharing ≡ None }
    ensures agrees { Agrees D.state v.new }
    ensures event { (d : Disk) → IsVolume d v.old.parts (D.state v.old.device)
        → DaemonWorks D.state F.print v.old v.new d result }
{
    let Some(work) = v.parts.queue.front() else {
        return Outcome::Idle;
    };
    if is_fresh(&v.parts.inodes, work) {
        return begin_fresh(v, work);
    }
    note_stale(&mut v.parts, work);
    Outcome::Running { left: 0 }
}
