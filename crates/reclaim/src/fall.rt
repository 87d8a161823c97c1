// A dying file loses its last place: its cut falls.
ghost use Rattle.std.specs.Prelude.{◌≡◌, ◌+◌, ◌≤◌, ◌<◌, ℕ, length, false, None, IsSome, Contains};
ghost use Rattle.std.specs.VecDeque.{deque_len, deque_capacity};
ghost use Rattle.dn_model.specs.Disk.{Disk};
ghost use Rattle.fact_table.specs.Table.{IsTable, HasNoneOf};
ghost use Rattle.dn_volume.specs.Agrees.{Agrees, IsVolume};
ghost use Rattle.dn_volume.specs.Works.{ReleaseWorks};
ghost use Rattle.reclaim.specs.Worked.{ChangesOne, FallsTo, DropsPlace, FreesPlace};
ghost use Rattle.reclaim.specs.Dying.{IsAt, IsLastOf};

use count_events::release::{left_to_reclaim, stop};
use dn_volume::units::FALL_UNITS;
use dn_volume::{DyingPlace, InodeState, InodeUse, Outcome, Parts, RECLAIM, Volume};
use fingerprint::Fingerprint;
use inode_table::CUT;
use pm_device::Pm;
use pm_device::set::{SET_UNITS, set_word};

// Nothing of a dying inode is mapped from this place on.
fn fall_state(node: &mut InodeState, place: u64)
    ensures { FallsTo place node.old node.new }
{
    node.used = InodeUse::Dying { cut: place };
    node.map.cut(place);
}

// So it is with that at a place of the list.
fn fall_inode(inodes: &mut Vec<InodeState>, ino: u64, place: u64)
    requires { ino < length inodes.old.items }
    ensures { ChangesOne (FallsTo place) ino inodes.old.items inodes.new.items }
{
    fall_state(&mut inodes[ino as usize], place);
}

// The raised place is gone, and its row waits to be released.
fn note_drop(parts: &mut Parts, p: DyingPlace)
    requires there { p.ino < length parts.old.inodes.items }
    requires room { deque_len parts.old.reclaiming.releases < deque_capacity
        parts.old.reclaiming.releases }
    requires waiting { 1 ≤ parts.old.reclaiming.waiting }
    requires units { FALL_UNITS ≤ parts.old.owed.units }
    requires releases { 1 ≤ parts.old.owed.releases }
    ensures { DropsPlace p parts.old parts.new }
{
    fall_inode(&mut parts.inodes, p.ino, p.place);
    parts.reclaiming.raised = None;
    parts.reclaiming.releases.push_back_reserved(p.slot);
    parts.reclaiming.waiting -= 1;
    parts.owed.units -= FALL_UNITS;
    parts.owed.releases -= 1;
    parts.made = parts.made.saturating_add(1);
}

// A place is gone, whose page is free.
fn note_freed(parts: &mut Parts, ino: u64, place: u64, page: u64)
    requires there { ino < length parts.old.inodes.items }
    requires below { page < parts.old.free.pages }
    requires taken { ¬ Contains parts.old.free.free page }
    requires waiting { 4 ≤ parts.old.reclaiming.waiting }
    ensures { FreesPlace ino place page parts.old parts.new }
{
    fall_inode(&mut parts.inodes, ino, place);
    parts.free.give_back(page);
    parts.reclaiming.waiting -= 4;
    parts.made = parts.made.saturating_add(1);
}

/// The cut of a dying inode falls to its raised place, and the row of the place's page waits to be released. It takes
/// no memory. `Stopped` where a fence of the device failed.
pub fn drop_place<D: Pm, F: Fingerprint>(v: &mut Volume<D, F>) -> Outcome
    requires agrees { Agrees D.state v.old }
    requires running { v.old.parts.stopped ≡ false }
    requires raised { IsSome v.old.parts.reclaiming.raised }
    ensures agrees { Agrees D.state v.new }
    ensures event { (d : Disk) → IsVolume d v.old.parts (D.state v.old.device)
        → ReleaseWorks D.state F.print v.old v.new d result }
{
    let Some(p) = v.parts.reclaiming.raised else {
        unreachable!();
    };
    let word = v.parts.geometry.inode_word(p.ino, CUT);
    match set_word(&mut v.device, RECLAIM, word, p.place) {
        Ok(()) => {
            note_drop(&mut v.parts, p);
            Outcome::Running {
                left: left_to_reclaim(&v.parts),
            }
        }
        Err(_) => {
            stop(&mut v.parts);
            Outcome::Stopped
        }
    }
}

/// The cut of a dying inode falls to its last place, which is on a page without a row: that page is free. `Stopped`
/// where a fence of the device failed.
pub fn free_place<D: Pm, F: Fingerprint>(
    v: &mut Volume<D, F>,
    ino: u64,
    place: u64,
    page: u64,
) -> Outcome
    requires agrees { Agrees D.state v.old }
    requires running { v.old.parts.stopped ≡ false }
    requires unraised { v.old.parts.reclaiming.raised ≡ None }
    requires place { IsAt (λ n. IsLastOf n place page) v.old.parts.inodes.items ino }
    requires no_row { (d : Disk) → IsTable d (D.state v.old.device).now v.old.parts.fact
        → HasNoneOf d page }
    requires units { v.old.parts.owed.units + SET_UNITS ≤ (D.state v.old.device).spare }
    ensures agrees { Agrees D.state v.new }
    ensures event { (d : Disk) → IsVolume d v.old.parts (D.state v.old.device)
        → ReleaseWorks D.state F.print v.old v.new d result }
{
    let word = v.parts.geometry.inode_word(ino, CUT);
    match set_word(&mut v.device, RECLAIM, word, place) {
        Ok(()) => {
            note_freed(&mut v.parts, ino, place, page);
            Outcome::Running {
                left: left_to_reclaim(&v.parts),
            }
        }
        Err(_) => {
            stop(&mut v.parts);
            Outcome::Stopped
        }
    }
}
