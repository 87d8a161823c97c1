// A log is read, or its first fault found.
ghost use Rattle.std.specs.Prelude.{◌≡◌, ◌+◌, ◌*◌, ◌-◌, ◌%◌, ◌<◌, ◌≤◌, ℕ, List, length, slice_index, IfOk, IfErr, IfSome, IfNone};
ghost use Rattle.pm_layout.specs.Geometry.{IsAccepted, inode_word};
ghost use Rattle.dn_model.specs.LogFault.{LogFault};
ghost use Rattle.log_walk.specs.Walk.{HasLog, HasWholeLog, IsFaultOf, fault_place, slots_before};

use crate::items::{End, Items, Placed, read_items};
use crate::pages::{Way, read_pages};
use crate::slots::read_slots;
use log_entry::LOG_SLOTS;
use pm_device::Pm;
use pm_layout::{Geometry, HEAD, TAIL};
use std::alloc::{AllocError, Global};
use thiserror::Error;

/// Why a log can't be read.
#[derive(Clone, Copy, Debug, PartialEq, Eq, Error)]
pub enum WalkFault {
    /// The log has a fault.
    #[error("the log has a fault after {place} slots")]
    Bad {
        /// How many slots come before the fault.
        place: u64,
    },
    /// Memory ran out.
    #[error("out of memory")]
    NoMemory,
}

/// A log that was read.
#[derive(Debug, Drop)]
pub struct LogRead {
    /// The pages in order.
    pub pages: Vec<u64>,
    /// The items in order, each with the place of its first slot.
    pub items: Vec<Placed>,
}

// How many slots of these pages lie before the tail.
fn slots_before(way: &Way, tail: u64) -> u64
    requires { length way.now.pages.items ≤ 65536 }
    ensures { result ≡ slots_before (length way.now.pages.items) way.now.whole tail }
{
    let pages = way.pages.len() as u64;
    if way.whole {
        LOG_SLOTS * pages.saturating_sub(1) + tail % 64
    } else {
        LOG_SLOTS * pages
    }
}

// The place of the log's fault, if it has one, where so many slots were to be read.
fn fault_place(read: &Items, whole: bool, tail: u64, all: u64) -> Option<u64>
    ensures { result ≡ fault_place read.now.end whole (tail % 64) read.now.taken all }
{
    match (read.end, whole) {
        (End::Bad, _) => Some(read.taken as u64),
        (End::Cut, true) => Some(read.taken as u64),
        (End::Cut, false) => Some(all),
        (End::Filled, false) => Some(all),
        (End::Filled, true) => { if tail % 64 == 0 { Some(all) } else { None } }
    }
}

// The pages and items of a log whose tail this is, which isn't 0, up to its first fault, and the place of that.
fn read_log<D: Pm>(
    alloc: Global,
    device: &D,
    g: &Geometry,
    ino: u64,
    tail: u64,
) -> Result<(LogRead, Option<u64>), AllocError>
    requires accepted { IsAccepted g.now }
    requires size { length (D.state device.now).now ≡ 512 * g.now.pages }
    requires ino { ino < g.now.inodes }
    requires tail { tail ≡ slice_index (D.state device.now).now (inode_word ino 2) }
    requires some { 0 < tail }
    ensures log { IfOk result
        (λ read. IfNone read.1 (HasWholeLog g.now (D.state device.now).now ino read.0.pages.items
        read.0.items.items)) }
    ensures fault { IfOk result
        (λ read. IfSome read.1 (λ place. LogFault g.now (D.state device.now).now ino place)) }
{
    let head = device.load(g.inode_word(ino, HEAD));
    let way = read_pages(alloc, device, g, head, tail / 64)?;
    let all = slots_before(&way, tail);
    let slots = read_slots(alloc, device, g, &way.pages, all)?;
    let read = read_items(alloc, g, ino, &way.pages, &slots)?;
    let place = fault_place(&read, way.whole, tail, all);
    let log = LogRead {
        pages: way.pages,
        items: read.items,
    };
    Ok((log, place))
}

/// The pages and the items of an inode's log. A log whose tail is 0 has none. The time is linear in the slots of the
/// log, and in the 64th of the image's pages.
///
/// # Errors
/// `Bad` where the log has a fault, and after how many slots: a page outside the data area or met before, a tail
/// at no slot, slots that spell no item, an item that the tail cuts off, or one that may not stand in this log.
/// `NoMemory` where there is no memory for the log's slots and items.
pub fn walk_log<D: Pm>(
    alloc: Global,
    device: &D,
    g: &Geometry,
    ino: u64,
) -> Result<LogRead, WalkFault>
    requires accepted { IsAccepted g.now }
    requires size { length (D.state device.now).now ≡ 512 * g.now.pages }
    requires ino { ino < g.now.inodes }
    ensures log { IfOk result (λ read. HasWholeLog g.now (D.state device.now).now ino
        read.pages.items read.items.items) }
    ensures fault { IfErr result (λ fault. IsFaultOf g.now (D.state device.now).now ino fault) }
{
    let tail = device.load(g.inode_word(ino, TAIL));
    if tail == 0 {
        return Ok(LogRead {
            pages: Vec::new(alloc),
            items: Vec::new(alloc),
        });
    }
    match read_log(alloc, device, g, ino, tail) {
        Ok((log, None)) => Ok(log),
        Ok((_, Some(place))) => Err(WalkFault::Bad { place }),
        Err(_) => Err(WalkFault::NoMemory),
    }
}

/// The items of an inode's log in order, each with the place of its first slot, as `walk_log` reads them.
///
/// # Errors
/// As `walk_log`.
pub fn walk<D: Pm>(
    alloc: Global,
    device: &D,
    g: &Geometry,
    ino: u64,
) -> Result<Vec<Placed>, WalkFault>
    requires accepted { IsAccepted g.now }
    requires size { length (D.state device.now).now ≡ 512 * g.now.pages }
    requires ino { ino < g.now.inodes }
    ensures log { IfOk result (λ items. HasLog g.now (D.state device.now).now ino items.items) }
    ensures fault { IfErr result (λ fault. IsFaultOf g.now (D.state device.now).now ino fault) }
{
    let log = walk_log(alloc, device, g, ino)?;
    Ok(log.items)
}
