// The work of the daemon that shares pages, and of reclaim.
use dedupe_queue::Work;
use file_index::PageMap;
use std::collections::VecDeque;

/// A written item that the daemon has begun.
#[derive(Clone, Copy, Debug, PartialEq, Eq)]
pub struct Sharing {
    /// The item.
    pub work: Work,
    /// The first place of the file that it maps.
    pub first: u64,
    /// How many places it maps.
    pub count: u64,
    /// How many of them are done.
    pub done: u64,
    /// What comes next at the place after those.
    pub step: SharingStep,
}

/// What the daemon does next at a place.
#[derive(Clone, Copy, Debug, PartialEq, Eq)]
pub enum SharingStep {
    /// Its page is looked up, or the item is ended where no place is left.
    Look,
    /// The row at this slot is raised: the place is mapped to its page.
    Remap {
        /// The slot of the row.
        slot: u64,
    },
    /// The row at this slot has one mapping more: its counts are settled.
    Settle {
        /// The slot of the row.
        slot: u64,
        /// Whether the row was inserted for the place: nothing was mapped anew between its look and this.
        inserted: bool,
    },
}

/// What reclaim has to do.
#[derive(Debug, Drop)]
pub struct Reclaiming {
    /// The slot of a row whose counts became 0: it goes, if they are still.
    pub zero_check: Option<u64>,
    /// A place of a dying inode whose page's row was raised.
    pub raised: Option<DyingPlace>,
    /// The slots of the rows that have lost a mapping, each of which is to be settled.
    pub releases: VecDeque<u64>,
    /// The units of work left, but for a cleaning.
    pub waiting: u64,
    /// The log that is being cleaned.
    pub cleaning: Option<Cleaning>,
}

/// A log whose cleaning has begun: what it still says is copied to fresh pages, a page an event, and the copy replaces it
/// in the end. Reclaim holds the inode until then. All that the end needs is here, so that it takes no memory.
#[derive(Debug, Drop)]
pub struct Cleaning {
    /// The inode of the log.
    pub ino: u64,
    /// The slots of the new log's items.
    pub slots: Vec<[u64; 8]>,
    /// The pages that the new log gets, in order.
    pub pages: Vec<u64>,
    /// How many of these pages are written.
    pub written: u64,
    /// Where the pages of the file are, by the new log's items.
    pub map: PageMap,
    /// The slots of the new log's items that wait for the daemon then.
    pub due: Vec<u64>,
}

/// A place of a dying inode.
#[derive(Clone, Copy, Debug, PartialEq, Eq)]
pub struct DyingPlace {
    /// The inode.
    pub ino: u64,
    /// The place in the file.
    pub place: u64,
    /// The slot of its page's row.
    pub slot: u64,
}
