// A mounted volume.
ghost use Rattle.std.specs.Prelude.{◌≡◌, ◌↔◌, ◌<◌, length, slice_get, false, IsTrue, IsSome, IfSome, IfNone, Some};
ghost use Rattle.pm_layout.specs.Geometry.{slots};
ghost use Rattle.dn_model.specs.Disk.{Disk};
ghost use Rattle.fact_table.specs.Seen.{as_row};
ghost use Rattle.fact_table.specs.Table.{IsAtSlot, HasNoneAt};
ghost use Rattle.dn_volume.specs.declared.volume.InodeState.{InodeState};
ghost use Rattle.dn_volume.specs.Parties.{flight_of};
ghost use Rattle.dn_volume.specs.Agrees.{Agrees, IsVolume};

use crate::background::{Reclaiming, Sharing};
use crate::batch::Batch;
use crate::flight::Flight;
use crate::outcome::CountChange;
use dedupe_queue::WorkQueue;
use dn_model::Entry;
use fact_scan::Row;
use fact_table::Fact;
use file_index::{NameMap, PageMap};
use fingerprint::Fingerprint;
use page_alloc::FreeSet;
use pm_device::Pm;
use pm_layout::Geometry;

/// A device with a file system, and all that is kept of it in memory.
#[derive(Drop)]
pub struct Volume<D: Pm, F: Fingerprint> {
    /// The device.
    pub device: D,
    /// The fingerprint of pages.
    pub print: F,
    /// Copies of pages, with prints that were taken before.
    pub kept: Batch<F>,
    /// What is kept in memory.
    pub parts: Parts,
}

/// What is kept in memory of a volume.
#[derive(Debug, Drop)]
pub struct Parts {
    /// The pages and inodes of the image.
    pub geometry: Geometry,
    /// The pages of the data area that nothing uses and nobody has taken.
    pub free: FreeSet,
    /// The names, with the inodes that they lead to.
    pub names: NameMap,
    /// What is kept of each inode.
    pub inodes: Vec<InodeState>,
    /// The table of fingerprints.
    pub fact: Fact,
    /// The written items that wait for the daemon.
    pub queue: WorkQueue,
    /// The operations in flight, that of client 1 first.
    pub flights: Vec<Option<Flight>>,
    /// The item that the daemon has begun.
    pub sharing: Option<Sharing>,
    /// What reclaim has to do.
    pub reclaiming: Reclaiming,
    /// The operations that were answered since the mount, with their replies.
    pub history: Vec<Entry>,
    /// The changes of count words since the mount.
    pub trace: Vec<CountChange>,
    /// How many calls of machines got on, up to the last number there is.
    pub made: u64,
    /// Whether a fence failed since the mount.
    pub stopped: bool,
    /// The room that is owed to all that is begun.
    pub owed: Room,
}

/// What is kept of an inode.
#[derive(Debug, Drop)]
pub struct InodeState {
    /// What it is used for.
    pub used: InodeUse,
    /// The bytes of its file.
    pub size: u64,
    /// Where the pages of its file are; of a dying one, those below its cut.
    pub map: PageMap,
    /// How many pages its log has.
    pub log_pages: u64,
    /// How often its log was replaced since the mount.
    pub round: u64,
    /// The actor that holds it.
    pub holder: Option<u32>,
}

/// What an inode is used for.
#[derive(Clone, Copy, Debug, PartialEq, Eq)]
pub enum InodeUse {
    /// Nothing.
    Free,
    /// A file, or the root.
    Live,
    /// A removed file, whose places from the cut on are gone.
    Dying {
        /// The cut.
        cut: u64,
    },
}

/// How much is owed of each kind of room.
#[derive(Clone, Copy, Debug, PartialEq, Eq)]
pub struct Room {
    /// Units of the device.
    pub units: u64,
    /// Changes of count words.
    pub trace: u64,
    /// Entries of the history.
    pub history: u64,
    /// Items of the queue.
    pub queue: u64,
    /// Waiting releases.
    pub releases: u64,
}

impl<D: Pm, F: Fingerprint> Volume<D, F> {
    /// The device.
    pub fn device(&self) -> &D
        ensures { result.now ≡ self.now.device }
    {
        &self.device
    }

    /// The pages and inodes of the image.
    pub fn geometry(&self) -> Geometry
        ensures { result ≡ self.now.parts.geometry }
    {
        self.parts.geometry
    }

    /// How many pages of the data area nothing uses and nobody has taken.
    pub fn free_pages(&self) -> u64
        ensures { result ≡ length self.now.parts.free.free }
    {
        self.parts.free.count()
    }

    /// The operations that were answered since the mount.
    pub fn history(&self) -> &[Entry]
        ensures { result.now ≡ self.now.parts.history.items }
    {
        &self.parts.history
    }

    /// The changes of count words since the mount.
    pub fn trace(&self) -> &[CountChange]
        ensures { result.now ≡ self.now.parts.trace.items }
    {
        &self.parts.trace
    }

    /// Whether a client has an operation in flight.
    pub fn in_flight(&self, who: u32) -> bool
        ensures { IsTrue result ↔ IsSome (flight_of self.now.parts who) }
    {
        if who == 0 {
            return false;
        }
        matches!(self.parts.flights.get(who as usize - 1), Some(Some(_)))
    }

    /// The actor that holds an inode, if one does.
    pub fn holder_of(&self, ino: u64) -> Option<u32>
        requires { ino < length self.now.parts.inodes.items }
        ensures { (n : InodeState) → slice_get self.now.parts.inodes.items ino ≡ Some n
            → result ≡ n.holder }
    {
        self.parts.inodes[ino as usize].holder
    }

    /// The row at a slot, if there is one.
    pub fn row_at(&self, slot: u64) -> Option<Row>
        requires agrees { Agrees D.state self.now }
        requires running { self.now.parts.stopped ≡ false }
        requires slot { slot < slots self.now.parts.geometry }
        ensures found { IfSome result (λ r. (d : Disk)
            → IsVolume d self.now.parts (D.state self.now.device) → IsAtSlot d slot (as_row r)) }
        ensures none { IfNone result
            ((d : Disk) → IsVolume d self.now.parts (D.state self.now.device) → HasNoneAt d slot) }
    {
        self.parts.fact.row_at(&self.device, slot)
    }

    /// The print of a page's bytes: that of a kept copy of this page with the same bytes, where there is one with a
    /// print, and else it is taken.
    pub fn print(&self, page: u64, bytes: &[u8]) -> [u8; 20]
        ensures { result ≡ F.print bytes.now }
    {
        match self.kept.print_of(page, bytes) {
            Some(print) => print,
            None => self.print.of(bytes),
        }
    }

    /// The units of reclaim's work that are left.
    pub fn waiting(&self) -> u64
        ensures { result ≡ self.now.parts.reclaiming.waiting }
    {
        self.parts.reclaiming.waiting
    }

    /// How many written items wait for the daemon.
    pub fn queued(&self) -> u64
        ensures { result ≡ length self.now.parts.queue.items }
    {
        self.parts.queue.len()
    }

    /// How many calls of machines got on.
    pub fn made(&self) -> u64
        ensures { result ≡ self.now.parts.made }
    {
        self.parts.made
    }

    /// Whether a fence failed since the mount.
    pub fn stopped(&self) -> bool
        ensures { result ≡ self.now.parts.stopped }
    {
        self.parts.stopped
    }
}

impl<D: Pm, F: Fingerprint + Drop> Volume<D, F> {
    /// The device, without the rest.
    pub fn into_device(self) -> D
        ensures { result ≡ self.device }
    {
        self.device
    }
}
