// A cleaning ends: the new log replaces the old one.
ghost use Rattle.std.specs.Prelude.{◌≡◌, ◌+◌, ◌*◌, ◌≤◌, ◌<◌, ◌++◌, ℕ, length, false, IfSome, IsSome, All, OnOk, IsErr};
ghost use Rattle.pm_device.specs.State.{Rose};
ghost use Rattle.pm_device.specs.Settled.{StoresOnly, KeepsFlushed, Others, SettlesAll};
ghost use Rattle.pm_layout.specs.Geometry.{IsAccepted};
ghost use Rattle.law_names.specs.AllOrNoneLaws.{IsShut};
ghost use Rattle.log_replace.specs.Replacing.{ReplacesBetween, ReplacesLog, IsEndWord};
ghost use Rattle.dn_model.specs.Disk.{Disk};
ghost use Rattle.dn_model.specs.Log.{tail_at};
ghost use Rattle.dn_volume.specs.Agrees.{Agrees, IsVolume};
ghost use Rattle.dn_volume.specs.Works.{CleanWorks};
ghost use Rattle.log_clean.specs.Finishing.{HasNewLog, due_works, EndsCleaning};
ghost use Rattle.reclaim.specs.Worked.{ChangesOne};
ghost use Rattle.log_clean.specs.Swapping.{new_head, new_tail};

use count_events::release::stop;
use dedupe_queue::{Work, WorkQueue};
use dn_volume::units::REPLACE_UNITS;
use dn_volume::{Cleaning, InodeState, Outcome, Parts, RECLAIM, Volume};
use file_index::PageMap;
use fingerprint::Fingerprint;
use log_replace::replace_log;
use pm_device::{Failed, Pm};
use pm_layout::Geometry;
use reclaim::end::give_back_log;

/// The slots of a log page.
const PAGE_SLOTS: usize = 63;

// The tail of a log of so many slots on these pages.
fn tail_of(pages: &[u64], slots: usize) -> u64
    requires small { All (λ page. page < 65536) pages.now }
    requires fits { slots ≤ 63 * length pages.now }
    ensures { result ≡ tail_at pages.now slots }
{
    if slots == 0 {
        return 0;
    }
    let last = slots - 1;
    pages[last / PAGE_SLOTS] * 64 + (last % PAGE_SLOTS) as u64 + 1
}

// The new log of the cleaning replaces the old one on the device.
fn replace<D: Pm>(device: &mut D, g: &Geometry, cleaning: &Cleaning) -> Result<(), Failed>
    requires accepted { IsAccepted g.now }
    requires size { length (D.state device.old).now ≡ 512 * g.now.pages }
    requires ino { cleaning.now.ino < g.now.inodes }
    requires shut { IsShut (D.state device.old) }
    requires room { REPLACE_UNITS ≤ (D.state device.old).spare }
    requires small { All (λ page. page < 65536) cleaning.now.pages.items }
    requires fits { length cleaning.now.slots.items ≤ 63 * length cleaning.now.pages.items }
    ensures any_moment { ReplacesBetween g.now cleaning.now.ino (new_head cleaning.now)
        (new_tail cleaning.now) (D.state device.old) (D.state device.new) }
    ensures done { OnOk result (ReplacesLog g.now cleaning.now.ino (new_head cleaning.now)
        (new_tail cleaning.now) (D.state device.old) (D.state device.new)) }
    ensures only { StoresOnly (IsEndWord cleaning.now.ino) (D.state device.old)
        (D.state device.new) }
    ensures others { KeepsFlushed (Others 16) (IsEndWord cleaning.now.ino) (D.state device.old)
        (D.state device.new) }
    ensures settles { OnOk result (SettlesAll 16 (D.state device.old) (D.state device.new)) }
    ensures spare { (D.state device.old).spare ≤ (D.state device.new).spare + REPLACE_UNITS }
    ensures faults { (D.state device.old).faults ≤ (D.state device.new).faults }
    ensures failed { IsErr result → Rose (D.state device.old).faults (D.state device.new).faults }
{
    let head = cleaning.pages.first().copied().unwrap_or(0);
    let tail = tail_of(&cleaning.pages, cleaning.slots.len());
    replace_log(device, g, RECLAIM, cleaning.ino, head, tail)
}

// An inode has a new log of so many pages, whose items map its places so. Nobody holds it.
fn relog_state(node: &mut InodeState, pages: u64, map: PageMap)
    ensures { HasNewLog pages map node.old node.new }
{
    node.map = map;
    node.log_pages = pages;
    node.round = node.round.saturating_add(1);
    node.holder = None;
}

// The inode at this place has it.
fn relog_inode(inodes: &mut Vec<InodeState>, ino: u64, pages: u64, map: PageMap)
    requires { ino < length inodes.old.items }
    ensures { ChangesOne (HasNewLog pages map) ino inodes.old.items inodes.new.items }
{
    relog_state(&mut inodes[ino as usize], pages, map);
}

// The items at these slots of an inode's new log wait for the daemon.
fn queue_due(queue: &mut WorkQueue, ino: u64, round: u64, due: &[u64])
    requires { length due.now ≤ queue.old.room }
    ensures items { queue.new.items ≡ queue.old.items ++ due_works ino round due.now }
    ensures room { queue.new.room + length due.now ≡ queue.old.room }
{
    for slot in due {
        queue.push(Work {
            ino,
            slot: *slot,
            round,
        });
    }
}

// The cleaning is ended, but for the pages of the old log.
fn note_end(parts: &mut Parts, cleaning: Cleaning)
    requires inside { cleaning.ino < length parts.old.inodes.items }
    requires units { REPLACE_UNITS ≤ parts.old.owed.units }
    requires queue { length cleaning.due.items ≤ parts.old.owed.queue }
    requires room { length cleaning.due.items ≤ parts.old.queue.room }
    ensures { EndsCleaning cleaning parts.old parts.new }
{
    let ino = cleaning.ino;
    let pages = cleaning.pages.len() as u64;
    relog_inode(&mut parts.inodes, ino, pages, cleaning.map);
    let round = parts.inodes[ino as usize].round;
    queue_due(&mut parts.queue, ino, round, &cleaning.due);
    parts.owed.units -= REPLACE_UNITS;
    parts.owed.queue -= cleaning.due.len() as u64;
    parts.made = parts.made.saturating_add(1);
}

/// The new log, whose pages are all written, replaces the old one by one commit of its head and tail. The old log's pages
/// are free, and what the daemon has still to do of the inode waits anew. `Stopped` where a fence of the device failed.
pub fn finish_cleaning<D: Pm, F: Fingerprint>(v: &mut Volume<D, F>) -> Outcome
    requires agrees { Agrees D.state v.old }
    requires running { v.old.parts.stopped ≡ false }
    requires none_waits { v.old.parts.reclaiming.waiting ≡ 0 }
    requires begun { IsSome v.old.parts.reclaiming.cleaning }
    requires written { IfSome v.old.parts.reclaiming.cleaning (λ c. length c.pages.items ≤ c.written) }
    ensures agrees { Agrees D.state v.new }
    ensures event { (d : Disk) → IsVolume d v.old.parts (D.state v.old.device)
        → CleanWorks D.state F.print v.old v.new d result }
{
    let g = v.parts.geometry;
    let Some(cleaning) = v.parts.reclaiming.cleaning.take() else {
        unreachable!();
    };
    give_back_log(&mut v.parts.free, &v.device, &g, cleaning.ino);
    match replace(&mut v.device, &g, &cleaning) {
        Ok(()) => {
            note_end(&mut v.parts, cleaning);
            Outcome::Running { left: 0 }
        }
        Err(_) => {
            stop(&mut v.parts);
            Outcome::Stopped
        }
    }
}
