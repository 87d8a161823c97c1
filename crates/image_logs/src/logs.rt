// All logs of an image are read, one after another.
ghost use Rattle.std.specs.Prelude.{◌≡◌, ◌≢◌, ◌+◌, ◌*◌, ◌<◌, ◌≤◌, ℕ, List, length, slice_index, map, All, IfOk, IfErr, OnOk};
ghost use Rattle.pm_layout.specs.Geometry.{IsAccepted, inode_word};
ghost use Rattle.dn_model.specs.Log.{Log, placed};
ghost use Rattle.dn_model.specs.LogFault.{LogFault};
ghost use Rattle.log_walk.specs.Items.{seen};
ghost use Rattle.log_walk.specs.Walk.{HasWholeLog};
ghost use Rattle.file_scan.specs.Index.{MayBeIndexed, IsIndexOf};
ghost use Rattle.file_scan.specs.Names.{IsNamesOf};
ghost use Rattle.image_logs.specs.Logs.{AreRead, IsFirstFault, IsFaultOfEach, AddsLog, HasRoom, IsOneFault, IsInUse, AddsInode, IsEmptyRead, IsEnd, CountsUse, IsLogOf, IsFoundAt};

use crate::usage::{count_pages, count_places};
use file_index::NameMap;
use file_scan::{FileIndex, index_items, index_names};
use inode_table::{InodeSlot, read_inode};
use log_entry::FILE_PAGES;
use log_walk::{LogRead, Placed, WalkFault, walk_log};
use pm_device::Pm;
use pm_layout::{FREE, Geometry, LIVE};
use std::alloc::Global;
use thiserror::Error;

/// Why the logs of an image can't be read.
#[derive(Clone, Copy, Debug, PartialEq, Eq, Error)]
pub enum LogsFault {
    /// The log of a live or dying inode has a fault, and those of the inodes before it have none.
    #[error("the log of inode {ino} has a fault after {place} slots")]
    BadLog {
        /// The inode.
        ino: u64,
        /// How many slots come before the fault.
        place: u64,
    },
    /// Memory ran out.
    #[error("out of memory")]
    NoMemory,
}

/// What the logs of an image say of its pages, its inodes and its names.
#[derive(Debug, Drop)]
pub struct LogsRead {
    /// For each page of the image, how many logs of live or dying inodes have it.
    pub in_logs: Vec<u32>,
    /// For each page of the image, how many places are mapped to it, those of dying inodes only below their cuts.
    pub mapped: Vec<u32>,
    /// How many inodes but the root are live.
    pub files: u64,
    /// How many inodes are dying.
    pub dying: u64,
    /// The inodes that names lead to.
    pub names: NameMap,
}

/// What is read of the log of a used inode.
#[derive(Debug, Drop)]
pub struct FileLog {
    /// The size of its file, and where its places are; of a dying one also those from its cut on.
    pub index: FileIndex,
    /// How many pages the log has.
    pub pages: u64,
    /// Its items, in order.
    pub items: Vec<Placed>,
}

/// A used inode, and what is read of its log.
#[derive(Debug, Drop)]
pub struct UsedInode {
    /// Its fields: its state is 1, live, or 2, dying.
    pub slot: InodeSlot,
    /// What is read of its log.
    pub log: FileLog,
}

// The log of an inode.
fn read_log<D: Pm>(alloc: Global, device: &D, g: &Geometry, ino: u64) -> Result<LogRead, LogsFault>
    requires accepted { IsAccepted g.now }
    requires size { length (D.state device.now).now ≡ 512 * g.now.pages }
    requires ino { ino < g.now.inodes }
    ensures log { IfOk result (λ read. HasWholeLog g.now (D.state device.now).now ino
        read.pages.items read.items.items) }
    ensures fault { IfErr result (IsOneFault g.now (D.state device.now).now ino) }
{
    match walk_log(alloc, device, g, ino) {
        Ok(log) => Ok(log),
        Err(WalkFault::Bad { place }) => Err(LogsFault::BadLog { ino, place }),
        Err(WalkFault::NoMemory) => Err(LogsFault::NoMemory),
    }
}

// The places of a log's file.
fn index_log(alloc: Global, items: &[Placed]) -> Result<FileIndex, LogsFault>
    requires { All MayBeIndexed items.now }
    ensures index { IfOk result (λ index. (log : Log) → map seen items.now ≡ placed log
        → IsIndexOf log index) }
    ensures fault { IfErr result (λ fault. fault ≡ LogsFault.NoMemory) }
{
    match index_items(alloc, items) {
        Ok(index) => Ok(index),
        Err(_) => Err(LogsFault::NoMemory),
    }
}

// The names, if this is the root's log; otherwise they stay.
fn add_names(
    alloc: Global,
    names: &mut NameMap,
    ino: u64,
    items: &[Placed],
) -> Result<(), LogsFault>
    ensures same { OnOk result (ino ≢ 0 → names.new.map ≡ names.old.map) }
    ensures root { OnOk result (ino ≡ 0 → (log : Log) → map seen items.now ≡ placed log
        → IsNamesOf log names.new.map) }
    ensures fault { IfErr result (λ fault. fault ≡ LogsFault.NoMemory) }
{
    if ino != 0 {
        return Ok(());
    }
    match index_names(alloc, items) {
        Ok(found) => {
            *names = found;
            Ok(())
        }
        Err(_) => Err(LogsFault::NoMemory),
    }
}

// Counts what the log of this inode says, of which the places below the end are mapped.
fn add_log<D: Pm>(
    alloc: Global,
    device: &D,
    g: &Geometry,
    ino: u64,
    end: u64,
    read: &mut LogsRead,
) -> Result<FileLog, LogsFault>
    requires accepted { IsAccepted g.now }
    requires size { length (D.state device.now).now ≡ 512 * g.now.pages }
    requires ino { ino < g.now.inodes }
    requires end { end ≤ 4096 }
    requires room { HasRoom g.now read.old }
    ensures log { IfOk result (IsLogOf g.now (D.state device.now).now ino) }
    ensures adds { OnOk result (AddsLog g.now (D.state device.now).now ino end read.old read.new) }
    ensures fault { IfErr result (IsOneFault g.now (D.state device.now).now ino) }
{
    let log = read_log(alloc, device, g, ino)?;
    let index = index_log(alloc, &log.items)?;
    add_names(alloc, &mut read.names, ino, &log.items)?;
    count_pages(&mut read.in_logs, &log.pages);
    count_places(&mut read.mapped, &index.map, end);
    Ok(FileLog {
        index,
        pages: log.pages.len() as u64,
        items: log.items,
    })
}

// The end of the places of a used inode that are mapped: a dying one has them only below its cut.
fn places_end(slot: &InodeSlot) -> u64
    ensures { IsEnd slot.now.state slot.now.cut result }
{
    if slot.state == LIVE || slot.cut > FILE_PAGES {
        FILE_PAGES
    } else {
        slot.cut
    }
}

// Counts a used inode: as dying, if it isn't live, and else as a file, if it isn't the root.
fn count_use(read: &mut LogsRead, ino: u64, state: u64)
    requires files { read.old.files ≤ ino }
    requires dying { read.old.dying ≤ ino }
    requires small { ino < 4096 }
    ensures { CountsUse ino state read.old read.new }
{
    if state != LIVE {
        read.dying += 1;
    } else if ino != 0 {
        read.files += 1;
    }
}

/// Counts what this inode and its log say, and answers them, if it is used. The inodes before it were counted, each once.
///
/// # Errors
/// `BadLog` where its log has a fault, and how many slots of it come before the fault. `NoMemory` where memory runs out.
pub fn add_inode<D: Pm>(
    alloc: Global,
    device: &D,
    g: &Geometry,
    ino: u64,
    read: &mut LogsRead,
) -> Result<Option<UsedInode>, LogsFault>
    requires accepted { IsAccepted g.now }
    requires size { length (D.state device.now).now ≡ 512 * g.now.pages }
    requires ino { ino < g.now.inodes }
    requires room { HasRoom g.now read.old }
    requires files { read.old.files ≤ ino }
    requires dying { read.old.dying ≤ ino }
    ensures adds { OnOk result (AddsInode g.now (D.state device.now).now ino read.old read.new) }
    ensures found { IfOk result (IsFoundAt g.now (D.state device.now).now ino) }
    ensures used { IfErr result (λ fault. fault ≢ LogsFault.NoMemory
        → IsInUse (D.state device.now).now ino) }
    ensures fault { IfErr result (IsOneFault g.now (D.state device.now).now ino) }
{
    let slot = read_inode(device, g, ino);
    if slot.state == FREE {
        return Ok(None);
    }
    let log = add_log(alloc, device, g, ino, places_end(&slot), read)?;
    count_use(read, ino, slot.state);
    Ok(Some(UsedInode { slot, log }))
}

/// Nothing is counted yet.
///
/// # Errors
/// `NoMemory` where there is no memory for two counts for each page.
pub fn empty_read(alloc: Global, g: &Geometry) -> Result<LogsRead, LogsFault>
    requires { IsAccepted g.now }
    ensures read { IfOk result (IsEmptyRead g.now) }
    ensures fault { IfErr result (λ fault. fault ≡ LogsFault.NoMemory) }
{
    let Ok(in_logs) = vec![in alloc; 0u32; g.pages as usize] else {
        return Err(LogsFault::NoMemory);
    };
    let Ok(mapped) = vec![in alloc; 0u32; g.pages as usize] else {
        return Err(LogsFault::NoMemory);
    };
    Ok(LogsRead {
        in_logs,
        mapped,
        files: 0,
        dying: 0,
        names: NameMap::new(alloc),
    })
}

/// Reads the logs of all live and dying inodes, one after another, and counts what they say. The words of the device
/// may be any. The memory is two counts for each page of the image, the names, and what one log takes; the time is
/// that of walking each log, and linear in the places that are mapped, but for logarithms.
///
/// # Errors
/// `BadLog` where a log has a fault: the first such inode, and how many slots of its log come before the fault.
/// `NoMemory` where memory runs out.
pub fn read_logs<D: Pm>(alloc: Global, device: &D, g: &Geometry) -> Result<LogsRead, LogsFault>
    requires accepted { IsAccepted g.now }
    requires size { length (D.state device.now).now ≡ 512 * g.now.pages }
    ensures read { IfOk result (AreRead g.now (D.state device.now).now) }
    ensures fault { IfErr result (IsFirstFault g.now (D.state device.now).now) }
    ensures state { IfErr result (IsFaultOfEach g.now (D.state device.now).now) }
{
    let mut read = empty_read(alloc, g)?;
    for ino in 0..g.inodes {
        add_inode(alloc, device, g, ino, &mut read)?;
    }
    Ok(read)
}
