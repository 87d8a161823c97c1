// A dying file without places ends: its inode and the pages of its log are free.
ghost use Rattle.std.specs.Prelude.{◌≡◌, ◌+◌, ◌*◌, ◌≤◌, ◌<◌, ℕ, List, length, false, None, Contains};
ghost use Rattle.pm_layout.specs.Geometry.{IsAccepted};
ghost use Rattle.dn_model.specs.Disk.{Disk};
ghost use Rattle.dn_volume.specs.Agrees.{Agrees, IsVolume};
ghost use Rattle.dn_volume.specs.Works.{ReleaseWorks};
ghost use Rattle.reclaim.specs.Worked.{Gives, ChangesOne, EndsState, EndsInode};
ghost use Rattle.reclaim.specs.Walked.{LeadsThrough, CanGiveLog};
ghost use Rattle.reclaim.specs.Dying.{IsAt, IsUnmapped};

use count_events::release::{left_to_reclaim, stop};
use dn_volume::{InodeState, InodeUse, Outcome, Parts, RECLAIM, Volume};
use fingerprint::Fingerprint;
use inode_table::{HEAD, STATE, TAIL, read_field};
use page_alloc::FreeSet;
use pm_device::Pm;
use pm_device::set::{SET_UNITS, set_word};
use pm_layout::Geometry;

/// The place of the link to the next page among the words of a log page.
const LINK: u64 = 504;

/// Gives back the pages of an inode's log, from the head along the footers to the page of the tail.
pub fn give_back_log<D: Pm>(free: &mut FreeSet, device: &D, g: &Geometry, ino: u64)
    requires accepted { IsAccepted g.now }
    requires size { length (D.state device.now).now ≡ 512 * g.now.pages }
    requires ino { ino < g.now.inodes }
    requires can { CanGiveLog (D.state device.now).now g.now ino free.old }
    ensures gives { (pages : List ℕ) → LeadsThrough (D.state device.now).now g.now ino pages
        → Gives (Contains pages) free.old free.new }
    ensures counted { (pages : List ℕ) → LeadsThrough (D.state device.now).now g.now ino pages
        → length free.new.free ≡ length free.old.free + length pages }
{
    let tail = read_field(device, g, ino, TAIL);
    if tail == 0 {
        return;
    }
    let mut page = read_field(device, g, ino, HEAD);
    for _i in 0..g.pages {
        free.give_back(page);
        if page == tail / 64 {
            return;
        }
        page = device.load(512 * page + LINK);
    }
}

// A dying inode is free.
fn end_state(node: &mut InodeState)
    ensures { EndsState node.old node.new }
{
    node.used = InodeUse::Free;
}

// So it is with that at a place of the list.
fn end_at(inodes: &mut Vec<InodeState>, ino: u64)
    requires { ino < length inodes.old.items }
    ensures { ChangesOne EndsState ino inodes.old.items inodes.new.items }
{
    end_state(&mut inodes[ino as usize]);
}

// An inode is free, but for the pages of its log.
fn note_end(parts: &mut Parts, ino: u64)
    requires there { ino < length parts.old.inodes.items }
    requires waiting { 1 ≤ parts.old.reclaiming.waiting }
    ensures ends { EndsInode ino parts.old parts.new }
    ensures free { parts.new.free ≡ parts.old.free }
{
    end_at(&mut parts.inodes, ino);
    parts.reclaiming.waiting -= 1;
    parts.made = parts.made.saturating_add(1);
}

/// A dying inode of which no place is mapped is free, and so are the pages of its log. `Stopped` where a fence of the
/// device failed.
pub fn end_inode<D: Pm, F: Fingerprint>(v: &mut Volume<D, F>, ino: u64) -> Outcome
    requires agrees { Agrees D.state v.old }
    requires running { v.old.parts.stopped ≡ false }
    requires unraised { v.old.parts.reclaiming.raised ≡ None }
    requires none { IsAt IsUnmapped v.old.parts.inodes.items ino }
    requires units { v.old.parts.owed.units + SET_UNITS ≤ (D.state v.old.device).spare }
    ensures agrees { Agrees D.state v.new }
    ensures event { (d : Disk) → IsVolume d v.old.parts (D.state v.old.device)
        → ReleaseWorks D.state F.print v.old v.new d result }
{
    let g = v.parts.geometry;
    give_back_log(&mut v.parts.free, &v.device, &g, ino);
    match set_word(&mut v.device, RECLAIM, g.inode_word(ino, STATE), 0) {
        Ok(()) => {
            note_end(&mut v.parts, ino);
            Outcome::Running {
                left: left_to_reclaim(&v.parts),
            }
        }
        Err(_) => {
            stop(&mut v.parts);
            Outcome::Stopped
        }
    }
}
