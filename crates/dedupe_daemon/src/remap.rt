// A place is mapped to the page of a row that has the same bytes.
ghost use Rattle.std.specs.Prelude.{◌≡◌, ◌≢◌, ◌+◌, ◌*◌, ◌^◌, ◌<◌, ◌≤◌, ℕ, [], ◌∷◌, length, false, Some, IsSome, Contains, IfSome, OnOk, IsErr, slice_get};
ghost use Rattle.std.specs.FinMap.{get};
ghost use Rattle.pm_device.specs.State.{Rose};
ghost use Rattle.pm_device.specs.Settled.{SettlesAll};
ghost use Rattle.pm_layout.specs.Geometry.{IsAccepted};
ghost use Rattle.dn_model.specs.Disk.{Disk};
ghost use Rattle.dn_volume.specs.declared.background.Sharing.{Sharing as KeptSharing};
ghost use Rattle.dn_volume.specs.declared.background.SharingStep.TheVariants.{Remap};
ghost use Rattle.dn_volume.specs.declared.volume.InodeState.{InodeState as KeptState};
ghost use Rattle.dn_volume.specs.Agrees.{Agrees, IsVolume};
ghost use Rattle.dn_volume.specs.Works.{DaemonWorks};
ghost use Rattle.reclaim.specs.Worked.{ChangesOne};
ghost use Rattle.dedupe_daemon.specs.Remapped.{IsNewPlace, taken_pages, TakesFor, IsItemSlot, ShareSlots, CanShare, SharesBetween, SharesNew, SharesThere, MapsPlace, RemapsPart};

use crate::step::{at_step, events_left};
use count_events::release::stop;
use dn_volume::units::REMAP_UNITS;
use dn_volume::{DAEMON, InodeState, Outcome, Parts, Sharing, SharingStep, Volume};
use file_content::remap::slot_after;
use file_index::Mapping;
use fingerprint::Fingerprint;
use inode_log::log::{COMMIT_LOG_UNITS, commit_log};
use inode_log::prepare::{PREPARE_UNITS, is_full, prepare};
use inode_table::{TAIL, read_field};
use log_entry::Flag;
use page_alloc::FreeSet;
use pm_device::{Failed, Pm};
use pm_layout::Geometry;

/// A place of a file, and the page that it is to be mapped to.
#[derive(Clone, Copy, Debug, PartialEq, Eq)]
pub struct NewPlace {
    /// The file's inode.
    pub ino: u64,
    /// The place in the file.
    pub idx: u64,
    /// The page that it is on.
    pub was: u64,
    /// The page that it gets.
    pub page: u64,
    /// The bytes of the file.
    pub size: u64,
    /// The tail of the file's log.
    pub tail: u64,
}

// The kind of a Write's slot.
const WRITE: u64 = 1;

// The slot of the item that maps one place of a file of this size to this page.
fn share_slot(idx: u64, page: u64, size: u64) -> [u64; 8]
    ensures { result ∷ [] ≡ ShareSlots idx page size }
{
    [WRITE, idx, 1, page, size, Flag::Complete.number(), 0, 0]
}

// Appends the item to the file's log, on these fresh pages where its last page has no room.
fn append_share<D: Pm>(
    device: &mut D,
    g: &Geometry,
    n: &NewPlace,
    fresh: &[u64],
) -> Result<(), Failed>
    requires accepted { IsAccepted g.now }
    requires size { length (D.state device.old).now ≡ 512 * g.now.pages }
    requires ino { n.now.ino < g.now.inodes }
    requires can { CanShare g.now n.now.ino n.now.idx n.now.size n.now.page fresh.now
        (D.state device.old) }
    requires room { PREPARE_UNITS * (1 + length fresh.now) + COMMIT_LOG_UNITS ≤
        (D.state device.old).spare }
    ensures images { SharesBetween g.now n.now.ino n.now.idx n.now.size n.now.page fresh.now
        (D.state device.old) (D.state device.new) }
    ensures done { OnOk result (SharesNew g.now n.now.ino n.now.idx n.now.size n.now.page fresh.now
        (D.state device.old) (D.state device.new)) }
    ensures only { SharesThere g.now n.now.ino n.now.idx n.now.size n.now.page fresh.now
        (D.state device.old) (D.state device.new) }
    ensures settles { OnOk result (SettlesAll 15 (D.state device.old) (D.state device.new)) }
    ensures spare { (D.state device.old).spare ≤ (D.state device.new).spare + PREPARE_UNITS
        * (1 + length fresh.now) + COMMIT_LOG_UNITS }
    ensures faults { (D.state device.old).faults ≤ (D.state device.new).faults }
    ensures failed { IsErr result → Rose (D.state device.old).faults (D.state device.new).faults }
{
    let slots = [share_slot(n.idx, n.page, n.size)];
    let tail = prepare(device, g, DAEMON, n.ino, &slots, fresh);
    commit_log(device, g, DAEMON, n.ino, tail)
}

// Appends it, on the page that was taken for it if one was.
fn append_with<D: Pm>(
    device: &mut D,
    g: &Geometry,
    n: &NewPlace,
    fresh: Option<u64>,
) -> Result<(), Failed>
    requires accepted { IsAccepted g.now }
    requires size { length (D.state device.old).now ≡ 512 * g.now.pages }
    requires ino { n.now.ino < g.now.inodes }
    requires can { CanShare g.now n.now.ino n.now.idx n.now.size n.now.page (taken_pages fresh)
        (D.state device.old) }
    requires room { REMAP_UNITS ≤ (D.state device.old).spare }
    ensures images { SharesBetween g.now n.now.ino n.now.idx n.now.size n.now.page
        (taken_pages fresh) (D.state device.old) (D.state device.new) }
    ensures done { OnOk result (SharesNew g.now n.now.ino n.now.idx n.now.size n.now.page
        (taken_pages fresh) (D.state device.old) (D.state device.new)) }
    ensures only { SharesThere g.now n.now.ino n.now.idx n.now.size n.now.page (taken_pages fresh)
        (D.state device.old) (D.state device.new) }
    ensures settles { OnOk result (SettlesAll 15 (D.state device.old) (D.state device.new)) }
    ensures spare { (D.state device.old).spare ≤ (D.state device.new).spare + REMAP_UNITS }
    ensures faults { (D.state device.old).faults ≤ (D.state device.new).faults }
    ensures failed { IsErr result → Rose (D.state device.old).faults (D.state device.new).faults }
{
    match fresh {
        Some(page) => append_share(device, g, n, &[page]),
        None => append_share(device, g, n, &[]),
    }
}

// Takes the least free page where the page of this tail has no room.
fn take_for(free: &mut FreeSet, tail: u64) -> Option<u64>
    requires some { free.old.free ≢ [] }
    ensures takes { TakesFor tail free.old free.new result }
{
    if is_full(tail) { free.take() } else { None }
}

// The slot of the item that comes after this tail.
fn item_slot(tail: u64, fresh: Option<u64>) -> u64
    requires tail { tail < 4194304 }
    requires fresh { IfSome fresh (λ page. page < 65536) }
    ensures { IsItemSlot tail (taken_pages fresh) result }
{
    match fresh {
        Some(page) => slot_after(tail, &[page], 0),
        None => slot_after(tail, &[], 0),
    }
}

// How many pages more a log has.
fn pages_more(fresh: Option<u64>) -> u64
    ensures { result ≡ length (taken_pages fresh) }
{
    match fresh {
        Some(_) => 1,
        None => 0,
    }
}

// The place leads there, and the inode's log has so many pages more.
fn map_place(node: &mut InodeState, idx: u64, mapping: Mapping, more: u64)
    requires below { idx < 4096 }
    requires there { IsSome (get node.old.map.map idx) }
    requires few { node.old.log_pages + more < 2 ^ 64 }
    ensures { MapsPlace idx mapping more node.old node.new }
{
    node.map.set(idx, mapping);
    node.log_pages += more;
}

// So it is with the inode at a place of the list.
fn map_inode(inodes: &mut Vec<InodeState>, ino: u64, idx: u64, mapping: Mapping, more: u64)
    requires ino { ino < length inodes.old.items }
    requires idx { idx < 4096 }
    requires there { (node : KeptState) → slice_get inodes.old.items ino ≡ Some node
        → IsSome (get node.map.map idx) }
    requires few { (node : KeptState) → slice_get inodes.old.items ino ≡ Some node
        → node.log_pages + more < 2 ^ 64 }
    ensures { ChangesOne (MapsPlace idx mapping more) ino inodes.old.items inodes.new.items }
{
    map_place(&mut inodes[ino as usize], idx, mapping, more);
}

// The place leads to its new page, its log has so many pages more, the old page is free, and the row is to be settled.
fn note_remapped(parts: &mut Parts, n: &NewPlace, mapping: Mapping, more: u64, slot: u64)
    requires begun { IsSome parts.old.sharing }
    requires ino { n.now.ino < length parts.old.inodes.items }
    requires idx { n.now.idx < 4096 }
    requires there { (node : KeptState) → slice_get parts.old.inodes.items n.now.ino ≡ Some node
        → IsSome (get node.map.map n.now.idx) }
    requires few { (node : KeptState) → slice_get parts.old.inodes.items n.now.ino ≡ Some node
        → node.log_pages + more < 2 ^ 64 }
    requires below { n.now.was < parts.old.free.pages }
    requires taken { ¬ Contains parts.old.free.free n.now.was }
    requires units { REMAP_UNITS ≤ parts.old.owed.units }
    ensures { RemapsPart n.now mapping more slot parts.old parts.new }
{
    if let Some(sharing) = parts.sharing {
        let step = SharingStep::Settle {
            slot,
            inserted: false,
        };
        parts.sharing = Some(at_step(sharing, step));
    }
    map_inode(&mut parts.inodes, n.ino, n.idx, mapping, more);
    parts.free.give_back(n.was);
    parts.made = parts.made.saturating_add(1);
    parts.owed.units -= REMAP_UNITS;
}

// The place that is to be mapped to the page of the row at this slot.
fn place_to_remap<D: Pm, F: Fingerprint>(v: &Volume<D, F>, sharing: Sharing, slot: u64) -> NewPlace
    requires agrees { Agrees D.state v.now }
    requires running { v.now.parts.stopped ≡ false }
    requires begun { v.now.parts.sharing ≡ Some sharing }
    requires step { sharing.step ≡ Remap slot }
    ensures { (d : Disk) → IsVolume d v.now.parts (D.state v.now.device)
        → IsNewPlace d sharing slot result }
{
    let ino = sharing.work.ino;
    let idx = sharing.first + sharing.done;
    let Some(row) = v.parts.fact.row_at(&v.device, slot) else {
        unreachable!();
    };
    let node = &v.parts.inodes[ino as usize];
    let Some(mapping) = node.map.get(idx) else {
        unreachable!();
    };
    NewPlace {
        ino,
        idx,
        was: mapping.block,
        page: row.page,
        size: node.size,
        tail: read_field(&v.device, &v.parts.geometry, ino, TAIL),
    }
}

/// The place that is looked at is mapped to the page of the row that was raised for it, by one item more in its file's
/// log, and the page that it was on is free (DeNova, IPDPS 2022). The row is to be settled next. It takes no memory.
/// `Stopped` where a fence of the device failed.
pub fn remap_place<D: Pm, F: Fingerprint>(
    v: &mut Volume<D, F>,
    sharing: Sharing,
    slot: u64,
) -> Outcome
    requires agrees { Agrees D.state v.old }
    requires running { v.old.parts.stopped ≡ false }
    requires begun { v.old.parts.sharing ≡ Some sharing }
    requires step { sharing.step ≡ Remap slot }
    ensures agrees { Agrees D.state v.new }
    ensures event { (d : Disk) → IsVolume d v.old.parts (D.state v.old.device)
        → DaemonWorks D.state F.print v.old v.new d result }
{
    let n = place_to_remap(v, sharing, slot);
    let fresh = take_for(&mut v.parts.free, n.tail);
    let g = v.parts.geometry;
    match append_with(&mut v.device, &g, &n, fresh) {
        Ok(()) => {
            let mapping = Mapping {
                block: n.page,
                slot: item_slot(n.tail, fresh),
                bit: 0,
            };
            let more = pages_more(fresh);
            note_remapped(&mut v.parts, &n, mapping, more, slot);
            Outcome::Running {
                left: events_left(&v.parts),
            }
        }
        Err(_) => {
            stop(&mut v.parts);
            Outcome::Stopped
        }
    }
}
