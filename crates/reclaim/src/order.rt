// The events of reclaim, in their order.
ghost use Rattle.std.specs.Prelude.{◌≡◌, ◌⊎◌, ◌≤◌, true, false, None, vec_len, vec_capacity};
ghost use Rattle.std.specs.VecDeque.{deque_len, deque_capacity};
ghost use Rattle.pm_device.specs.State.{IsSame};
ghost use Rattle.dn_model.specs.Disk.{Disk};
ghost use Rattle.dn_volume.specs.Agrees.{Agrees, IsVolume};
ghost use Rattle.dn_volume.specs.Works.{ReleaseWorks};
ghost use Rattle.reclaim.specs.RoomMade.{MakesRoom, HasRoomFor};

use crate::dying::next_dying;
use crate::fall::drop_place;
use crate::zero::check_zero;
use count_events::release::{RELEASE_UNITS, settle_release};
use dn_volume::{Outcome, Volume};
use fingerprint::Fingerprint;
use pm_device::Pm;

// Makes room for the next event that nothing was begun for.
fn make_room<D: Pm, F: Fingerprint>(v: &mut Volume<D, F>) -> bool
    ensures makes { MakesRoom D.state v.old v.new }
    ensures room { result ≡ true → HasRoomFor D.state v.new }
{
    let Some(units) = v.parts.owed.units.checked_add(RELEASE_UNITS) else {
        return false;
    };
    let Some(changes) = v.parts.owed.trace.checked_add(1) else {
        return false;
    };
    let Some(releases) = v.parts.owed.releases.checked_add(1) else {
        return false;
    };
    if v.device.ready(units).is_err() {
        return false;
    }
    if v.parts.trace.reserve(changes as usize).is_err() {
        return false;
    }
    v.parts
        .reclaiming
        .releases
        .reserve(releases as usize)
        .is_ok()
}

// A release waits, or the next event is one of a dying file.
fn begin_work<D: Pm, F: Fingerprint>(v: &mut Volume<D, F>) -> Outcome
    requires agrees { Agrees D.state v.old }
    requires running { v.old.parts.stopped ≡ false }
    requires unchecked { v.old.parts.reclaiming.zero_check ≡ None }
    requires unraised { v.old.parts.reclaiming.raised ≡ None }
    requires room { HasRoomFor D.state v.old }
    ensures agrees { Agrees D.state v.new }
    ensures event { (d : Disk) → IsVolume d v.old.parts (D.state v.old.device)
        → ReleaseWorks D.state F.print v.old v.new d result }
{
    if v.parts.reclaiming.releases.is_empty() {
        next_dying(v)
    } else {
        settle_release(v)
    }
}

/// One event of reclaim: the pending zero check, the raised place of a dying file, the first waiting release, or the next
/// event of the least dying inode, whichever comes first in this order. `Running` tells how many events are left, with
/// those of a cleaning that is begun, which is left as it is. `Idle` where nothing waits. Where a zero check or a raised
/// place is begun it takes no memory; `NoMemory` elsewhere, where nothing was changed. `Stopped` where a fence of the
/// device failed.
pub fn reclaim<D: Pm, F: Fingerprint>(v: &mut Volume<D, F>) -> Outcome
    requires agrees { Agrees D.state v.old }
    requires running { v.old.parts.stopped ≡ false }
    ensures agrees { Agrees D.state v.new }
    ensures event { (d : Disk) → IsVolume d v.old.parts (D.state v.old.device)
        → ReleaseWorks D.state F.print v.old v.new d result }
{
    if v.parts.reclaiming.zero_check.is_some() {
        return check_zero(v);
    }
    if v.parts.reclaiming.raised.is_some() {
        return drop_place(v);
    }
    if v.parts.reclaiming.waiting == 0 {
        return Outcome::Idle;
    }
    if make_room(v) {
        begin_work(v)
    } else {
        Outcome::NoMemory
    }
}
