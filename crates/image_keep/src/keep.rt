// All inodes of an image are read, and what is needed of them is kept.
ghost use Rattle.std.specs.Prelude.{◌≡◌, ◌≢◌, ◌+◌, ◌*◌, ◌<◌, ◌≤◌, ◌↔◌, length, IsTrue, IfOk, IfErr, OnOk, All, Some, None};
ghost use Rattle.pm_layout.specs.Geometry.{IsAccepted};
ghost use Rattle.log_entry.specs.declared.item.Flag.TheVariants.{Complete};
ghost use Rattle.log_walk.specs.Items.{seen};
ghost use Rattle.file_scan.specs.Index.{MayBeIndexed};
ghost use Rattle.image_logs.specs.Logs.{AreRead, IsFirstFault, IsFaultOfEach};
ghost use Rattle.image_keep.specs.Waiting.{IsOpenBy};
ghost use Rattle.image_keep.specs.Keeping.{MayKeep, KeepsLive, KeepsDying, KeepsInode, AreKeptTo, QueuesOne, QueuesAll, place_hit, places_in};

use crate::inode::{unused_inode, used_inode};
use crate::work::maps_still;
use dedupe_queue::{Work, WorkQueue};
use dn_volume::{InodeState, InodeUse};
use file_index::PageMap;
use file_scan::FileIndex;
use image_logs::logs::{add_inode, empty_read};
use image_logs::{FileLog, LogsFault, LogsRead, UsedInode};
use log_entry::{FILE_PAGES, Flag, LogItem};
use log_walk::Placed;
use pm_device::Pm;
use pm_layout::{Geometry, LIVE};
use std::alloc::{AllocError, Global};

/// What is kept of all inodes of an image.
#[derive(Debug, Drop)]
pub struct Kept {
    /// What is kept of each inode.
    pub inodes: Vec<InodeState>,
    /// The items of live files that aren't complete and map a place still, by inode and by place in the log.
    pub work: WorkQueue,
    /// The units of work that the dying inodes are for.
    pub waiting: u64,
}

// Whether the daemon isn't done with an item.
fn is_incomplete(flag: Flag) -> bool
    ensures { IsTrue result ↔ (flag ≢ Complete) }
{
    match flag {
        Flag::Needed | Flag::InProcess => true,
        Flag::Complete => false,
    }
}

// Whether an item isn't complete, and maps a place still.
fn is_open(placed: &Placed, map: &PageMap) -> bool
    requires { MayBeIndexed placed.now }
    ensures { IsTrue result ↔ IsOpenBy map.now.map (seen placed.now) }
{
    match &placed.item {
        LogItem::Write {
            first,
            count,
            flag,
            ..
        } => is_incomplete(*flag) && maps_still(map, placed.slot, *first, *count),
        LogItem::Size { .. } => false,
        LogItem::Add { .. } => false,
        LogItem::Forget { .. } => false,
    }
}

// An item waits, if it is open.
fn queue_item(
    work: &mut WorkQueue,
    ino: u64,
    placed: &Placed,
    map: &PageMap,
) -> Result<(), AllocError>
    requires { MayBeIndexed placed.now }
    ensures { OnOk result (QueuesOne ino placed.now map.now.map work.old work.new) }
{
    if is_open(placed, map) {
        work.reserve(1)?;
        work.push(Work {
            ino,
            round: 0,
            slot: placed.slot,
        });
    }
    Ok(())
}

// The open ones of these items wait, in their order.
fn queue_items(
    work: &mut WorkQueue,
    ino: u64,
    items: &[Placed],
    map: &PageMap,
) -> Result<(), AllocError>
    requires { All MayBeIndexed items.now }
    ensures { OnOk result (QueuesAll ino items.now map.now.map work.old work.new) }
{
    for (i, placed) in items.iter().enumerate() {
        queue_item(work, ino, placed, map)?;
    }
    Ok(())
}

// 1 where the place is mapped, and else 0.
fn place_hit(map: &PageMap, idx: u64) -> u64
    ensures hit { result ≡ place_hit map.now.map idx }
    ensures few { result ≤ 1 }
{
    match map.get(idx) {
        Some(_) => 1,
        None => 0,
    }
}

// How many places are mapped.
fn count_places(map: &PageMap) -> u64
    ensures places { result ≡ places_in map.now.map }
    ensures few { result ≤ 4096 }
{
    let mut count = 0;
    for idx in 0..FILE_PAGES {
        count += place_hit(map, idx);
    }
    count
}

// A live inode is kept, and those of its items that are open wait.
fn keep_live(
    kept: &mut Kept,
    ino: u64,
    index: FileIndex,
    pages: u64,
    items: &[Placed],
) -> Result<(), AllocError>
    requires indexed { All MayBeIndexed items.now }
    requires small { index.size ≤ 16777216 }
    ensures { OnOk result (KeepsLive ino index pages items.now kept.old kept.new) }
{
    queue_items(&mut kept.work, ino, items, &index.map)?;
    kept.inodes.push(used_inode(InodeUse::Live, index, pages))?;
    Ok(())
}

// A dying inode is kept, and its places below the cut are counted.
fn keep_dying(kept: &mut Kept, cut: u64, index: FileIndex, pages: u64) -> Result<(), AllocError>
    requires small { index.size ≤ 16777216 }
    requires room { kept.old.waiting ≤ 67112960 }
    ensures { OnOk result (KeepsDying cut index pages kept.old kept.new) }
{
    let node = used_inode(InodeUse::Dying { cut }, index, pages);
    kept.waiting += 1 + 4 * count_places(&node.map);
    kept.inodes.push(node)?;
    Ok(())
}

// A used inode is kept, by what was read of it.
fn keep_used(kept: &mut Kept, ino: u64, used: UsedInode) -> Result<(), AllocError>
    requires may { MayKeep (Some used) }
    requires room { kept.old.waiting ≤ 67112960 }
    ensures { OnOk result (KeepsInode ino (Some used) kept.old kept.new) }
{
    let UsedInode { slot, log } = used;
    let FileLog {
        index,
        pages,
        items,
    } = log;
    if slot.state == LIVE {
        return keep_live(kept, ino, index, pages, &items);
    }
    keep_dying(kept, slot.cut, index, pages)
}

// An inode that isn't used is kept.
fn keep_free(alloc: Global, kept: &mut Kept, ino: u64) -> Result<(), AllocError>
    ensures { OnOk result (KeepsInode ino None kept.old kept.new) }
{
    kept.inodes.push(unused_inode(alloc))?;
    Ok(())
}

// An inode is kept, by what was read of it.
fn keep_found(
    alloc: Global,
    kept: &mut Kept,
    ino: u64,
    found: Option<UsedInode>,
) -> Result<(), AllocError>
    requires may { MayKeep found }
    requires room { kept.old.waiting ≤ 67112960 }
    ensures { OnOk result (KeepsInode ino found kept.old kept.new) }
{
    match found {
        Some(used) => keep_used(kept, ino, used),
        None => keep_free(alloc, kept, ino),
    }
}

// An inode is kept, by what was read of it.
fn keep_inode(
    alloc: Global,
    kept: &mut Kept,
    ino: u64,
    found: Option<UsedInode>,
) -> Result<(), LogsFault>
    requires may { MayKeep found }
    requires room { kept.old.waiting ≤ 67112960 }
    ensures keeps { OnOk result (KeepsInode ino found kept.old kept.new) }
    ensures fault { IfErr result (λ fault. fault ≡ LogsFault.NoMemory) }
{
    match keep_found(alloc, kept, ino, found) {
        Ok(()) => Ok(()),
        Err(_) => Err(LogsFault::NoMemory),
    }
}

/// Reads the logs of all inodes, as `image_logs::read_logs`, and keeps what a volume needs of them: the uses, sizes,
/// places and log pages of inodes, the items that wait for the daemon, and the units of work of dying inodes. No log is read twice.
///
/// # Errors
/// `BadLog` where a log has a fault: the first such inode, and how many slots of its log come before the fault.
/// `NoMemory` where memory runs out.
pub fn keep_logs<D: Pm>(
    alloc: Global,
    device: &D,
    g: &Geometry,
) -> Result<(LogsRead, Kept), LogsFault>
    requires accepted { IsAccepted g.now }
    requires size { length (D.state device.now).now ≡ 512 * g.now.pages }
    ensures read { IfOk result (λ both. AreRead g.now (D.state device.now).now both.0) }
    ensures kept { IfOk result
        (λ both. AreKeptTo g.now (D.state device.now).now g.now.inodes both.1) }
    ensures fault { IfErr result (IsFirstFault g.now (D.state device.now).now) }
    ensures state { IfErr result (IsFaultOfEach g.now (D.state device.now).now) }
{
    let mut read = empty_read(alloc, g)?;
    let mut kept = Kept {
        inodes: Vec::new(alloc),
        work: WorkQueue::new(alloc),
        waiting: 0,
    };
    for ino in 0..g.inodes {
        let found = add_inode(alloc, device, g, ino, &mut read)?;
        keep_inode(alloc, &mut kept, ino, found)?;
    }
    Ok((read, kept))
}
