// Items of a log.
ghost use Rattle.std.specs.Prelude.{◌≡◌, ◌≢◌, ◌+◌, ◌*◌, ◌^◌, ◌<◌, ◌≤◌, ◌↔◌, IsTrue, IsNone, IfSome, IfOk};
ghost use Rattle.log_entry.specs.Spelling.{flag_number, pages_of, IsSpelled};

use crate::name::{Name, is_legal};
use pm_layout::PAGE_BYTES;
use std::alloc::AllocError;

/// The most pages that a file has.
pub const FILE_PAGES: u64 = 4096;

/// The most bytes that a file has: those of as many pages.
pub const MOST_SIZE: u64 = 16_777_216;

/// The most pages of one Write: those that 65,536 bytes touch, the most that are written at once.
pub const MOST_COUNT: u64 = 17;

/// The words of a slot of a log.
pub const SLOT_WORDS: u64 = 8;

/// The slots of a page of a log. The words of one more are its footer.
pub const LOG_SLOTS: u64 = 63;

/// The word of a page of a log that names the page after it.
pub const FOOTER: u64 = 504;

/// How far the daemon that shares equal pages is with the pages of a Write, as in DeNova (IPDPS 2022).
#[derive(Clone, Copy, Debug, PartialEq, Eq)]
pub enum Flag {
    /// The pages are still to be compared with those that are shared.
    Needed,
    /// The daemon has begun with them.
    InProcess,
    /// The daemon is done with them.
    Complete,
}

impl Flag {
    /// The flag's word in a log: 1 needed, 2 in process, 3 complete.
    pub fn number(self) -> u64
        ensures { result ≡ flag_number self }
    {
        match self {
            Flag::Needed => 1,
            Flag::InProcess => 2,
            Flag::Complete => 3,
        }
    }

    /// The flag of this word, or None where the word stands for no flag.
    pub fn of_number(number: u64) -> Option<Flag>
        ensures some { IfSome result (λ flag. flag_number flag ≡ number) }
        ensures none { IsNone result → (flag : Flag) → flag_number flag ≢ number }
    {
        match number {
            1 => Some(Flag::Needed),
            2 => Some(Flag::InProcess),
            3 => Some(Flag::Complete),
            _ => None,
        }
    }
}

/// One item of an inode's log. What a file or the root holds is what the items of its log say, in
/// order: each inode has a log of its own, as in the log-structured file system NOVA (FAST 2016).
#[derive(Debug, Drop)]
pub enum LogItem {
    /// Pages of a file have new bytes.
    Write {
        /// The first page of the file that is written.
        first: u64,
        /// How many pages, 1 to 17.
        count: u64,
        /// The page of the image that holds the first; the others follow it.
        block: u64,
        /// The size of the file from now on, in bytes, at most 16,777,216.
        size: u64,
        /// How far the daemon is with these pages.
        flag: Flag,
        /// Bit i says that the daemon left page `first + i` alone.
        mask: u64,
    },
    /// A file has a new size.
    Size {
        /// The size of the file from now on, in bytes, at most 16,777,216.
        size: u64,
    },
    /// A name stands for an inode from now on.
    Add {
        /// The number of the inode.
        ino: u64,
        /// The name.
        name: Name,
    },
    /// A name stands for nothing from now on.
    Forget {
        /// The name.
        name: Name,
    },
}

impl Clone for LogItem {
    ghost is_clone = { λ item copy. copy ≡ item };

    fn clone(&self) -> Result<LogItem, AllocError>
        ensures { IfOk result (λ copy. copy ≡ self.now) }
    {
        match self {
            LogItem::Write {
                first,
                count,
                block,
                size,
                flag,
                mask,
            } => Ok(LogItem::Write {
                first: *first,
                count: *count,
                block: *block,
                size: *size,
                flag: *flag,
                mask: *mask,
            }),
            LogItem::Size { size } => Ok(LogItem::Size { size: *size }),
            LogItem::Add { ino, name } => Ok(LogItem::Add {
                ino: *ino,
                name: name.clone()?,
            }),
            LogItem::Forget { name } => Ok(LogItem::Forget {
                name: name.clone()?,
            }),
        }
    }
}

/// Whether the fields of the item are in the ranges that a log spells: a Write of 1 to 17 pages that
/// lie within its size, with mask bits of these pages alone, and a size of at most 16,777,216 bytes.
pub fn is_spelled(item: &LogItem) -> bool
    ensures { IsTrue result ↔ IsSpelled item.now }
{
    match item {
        LogItem::Write {
            first,
            count,
            size,
            mask,
            ..
        } => *size <= MOST_SIZE && is_run(*first, *count, *size) && is_mask(*mask, *count),
        LogItem::Size { size } => *size <= MOST_SIZE,
        LogItem::Add { name, .. } => is_legal(name.bytes()),
        LogItem::Forget { name } => is_legal(name.bytes()),
    }
}

// Whether a Write may have these pages of a file of this size.
fn is_run(first: u64, count: u64, size: u64) -> bool
    ensures { IsTrue result ↔ (1 ≤ count) × (count ≤ 17) × (first + count ≤ pages_of size) }
{
    1 <= count
        && count <= MOST_COUNT
        && count <= size.div_ceil(PAGE_BYTES)
        && first <= size.div_ceil(PAGE_BYTES) - count
}

// Whether the mask has bits of so many pages alone.
fn is_mask(mask: u64, count: u64) -> bool
    requires { count ≤ 17 }
    ensures { IsTrue result ↔ (mask < 2 ^ count) }
{
    mask < 1 << count
}
