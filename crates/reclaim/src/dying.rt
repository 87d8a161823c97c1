// The next place of a dying file.
ghost use Rattle.std.specs.Prelude.{◌≡◌, ◌+◌, ◌^◌, ◌≤◌, ◌<◌, ℕ, false, None, IsTrue, IfSome, IfNone, vec_len, vec_capacity, ◌↔◌};
ghost use Rattle.std.specs.VecDeque.{deque_len};
ghost use Rattle.dn_model.specs.Disk.{Disk};
ghost use Rattle.dn_volume.specs.Reclaims.{IsRaised};
ghost use Rattle.dn_volume.specs.Agrees.{Agrees, IsVolume};
ghost use Rattle.dn_volume.specs.Works.{ReleaseWorks};
ghost use Rattle.reclaim.specs.Worked.{RaisesPlace};
ghost use Rattle.reclaim.specs.RoomMade.{HasRoomFor};
ghost use Rattle.reclaim.specs.Dying.{IsDyingState, IsDying, IsLeastDying, IsLastOf, IsUnmapped};

use crate::end::end_inode;
use crate::fall::free_place;
use count_events::raise::raise_at;
use count_events::release::{left_to_reclaim, stop};
use dn_volume::units::FALL_UNITS;
use dn_volume::{CountChange, DyingPlace, InodeState, InodeUse, Outcome, Parts, RECLAIM, Volume};
use fingerprint::Fingerprint;
use pm_device::Pm;

// A place of a dying inode is raised, and its page's row has this word.
fn note_place(parts: &mut Parts, p: DyingPlace, word: u64)
    requires waiting { 1 ≤ parts.old.reclaiming.waiting }
    requires trace { vec_len parts.old.trace < vec_capacity parts.old.trace }
    requires units { parts.old.owed.units + FALL_UNITS < 2 ^ 64 }
    requires releases { parts.old.owed.releases + 1 < 2 ^ 64 }
    ensures { RaisesPlace p word parts.old parts.new }
{
    parts.reclaiming.raised = Some(p);
    parts.reclaiming.waiting -= 1;
    parts
        .trace
        .push_reserved(CountChange { slot: p.slot, word });
    parts.owed.units += FALL_UNITS;
    parts.owed.releases += 1;
    parts.made = parts.made.saturating_add(1);
}

/// The row of the page of a dying inode's last place is raised. `Stopped` where a fence of the device failed.
pub fn raise_place<D: Pm, F: Fingerprint>(v: &mut Volume<D, F>, p: DyingPlace) -> Outcome
    requires agrees { Agrees D.state v.old }
    requires running { v.old.parts.stopped ≡ false }
    requires unraised { v.old.parts.reclaiming.raised ≡ None }
    requires none_wait { deque_len v.old.parts.reclaiming.releases ≡ 0 }
    requires place { (d : Disk) → IsVolume d v.old.parts (D.state v.old.device) → IsRaised d p }
    requires room { HasRoomFor D.state v.old }
    ensures agrees { Agrees D.state v.new }
    ensures event { (d : Disk) → IsVolume d v.old.parts (D.state v.old.device)
        → ReleaseWorks D.state F.print v.old v.new d result }
{
    match raise_at(&v.parts.fact, &mut v.device, RECLAIM, p.slot) {
        Ok(word) => {
            note_place(&mut v.parts, p, word);
            Outcome::Running {
                left: left_to_reclaim(&v.parts),
            }
        }
        Err(_) => {
            stop(&mut v.parts);
            Outcome::Stopped
        }
    }
}

// Whether an inode is dying.
fn is_dying(node: &InodeState) -> bool
    ensures { IsTrue result ↔ IsDyingState node.now }
{
    matches!(node.used, InodeUse::Dying { .. })
}

// The least dying inode. It looks at the inodes from the first on, at most 4,096.
fn least_dying(inodes: &[InodeState]) -> Option<u64>
    ensures found { IfSome result (IsLeastDying inodes.now) }
    ensures none { IfNone result ((i : ℕ) → IsDying inodes.now i → ⊥) }
{
    for i in 0..inodes.len() {
        if is_dying(&inodes[i]) {
            return Some(i as u64);
        }
    }
    None
}

// The last mapped place of a dying inode, and its page.
fn last_place(node: &InodeState) -> Option<(u64, u64)>
    requires { IsDyingState node.now }
    ensures found { IfSome result (λ found. IsLastOf node.now found.0 found.1) }
    ensures none { IfNone result (IsUnmapped node.now) }
{
    let InodeUse::Dying { cut } = node.used else {
        unreachable!();
    };
    let place = node.map.last_below(cut)?;
    let mapping = node.map.get(place)?;
    Some((place, mapping.block))
}

// The next event of this dying inode.
fn go_on<D: Pm, F: Fingerprint>(v: &mut Volume<D, F>, ino: u64) -> Outcome
    requires agrees { Agrees D.state v.old }
    requires running { v.old.parts.stopped ≡ false }
    requires dying { IsDying v.old.parts.inodes.items ino }
    requires unraised { v.old.parts.reclaiming.raised ≡ None }
    requires none_wait { deque_len v.old.parts.reclaiming.releases ≡ 0 }
    requires room { HasRoomFor D.state v.old }
    ensures agrees { Agrees D.state v.new }
    ensures event { (d : Disk) → IsVolume d v.old.parts (D.state v.old.device)
        → ReleaseWorks D.state F.print v.old v.new d result }
{
    match last_place(&v.parts.inodes[ino as usize]) {
        None => end_inode(v, ino),
        Some((place, page)) => match v.parts.fact.by_page(&v.device, page) {
            None => free_place(v, ino, place, page),
            Some(row) => {
                let slot = row.slot;
                raise_place(v, DyingPlace { ino, place, slot })
            }
        },
    }
}

/// The next event of the least dying inode: the row of its last place's page is raised; or, where that page has no row,
/// the place is gone and the page is free; or, where no place is left, the inode and the pages of its log are free.
/// `Idle` where no inode is dying.
pub fn next_dying<D: Pm, F: Fingerprint>(v: &mut Volume<D, F>) -> Outcome
    requires agrees { Agrees D.state v.old }
    requires running { v.old.parts.stopped ≡ false }
    requires unchecked { v.old.parts.reclaiming.zero_check ≡ None }
    requires unraised { v.old.parts.reclaiming.raised ≡ None }
    requires none_wait { deque_len v.old.parts.reclaiming.releases ≡ 0 }
    requires room { HasRoomFor D.state v.old }
    ensures agrees { Agrees D.state v.new }
    ensures event { (d : Disk) → IsVolume d v.old.parts (D.state v.old.device)
        → ReleaseWorks D.state F.print v.old v.new d result }
{
    match least_dying(&v.parts.inodes) {
        Some(ino) => go_on(v, ino),
        None => Outcome::Idle,
    }
}
