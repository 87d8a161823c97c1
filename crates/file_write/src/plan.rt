// What a write takes and will store.
ghost use Rattle.std.specs.Prelude.{◌≡◌, ◌+◌, ◌-◌, ◌<◌, ◌≤◌, length, IfOk, IsErr, if◌then◌else◌, nat_lt};
ghost use Rattle.page_alloc.specs.Free.{IsInOrder};
ghost use Rattle.log_entry.specs.Spelling.{pages_of};
ghost use Rattle.dn_model.specs.History.{touched};
ghost use Rattle.file_write.specs.Plan.{SplitsLog, IsPlanOf, IsPlan};

use crate::NoMemory;
use crate::take::{places_of, take_pages, untake_pages};
use file_content::runs::{Run, cut_into_runs, run_slots};
use page_alloc::FreeSet;
use std::alloc::Global;

/// The free pages that a write leaves for removals and the daemon.
pub const RESERVE: u64 = 4;

/// A write that has its pages.
#[derive(Debug, Drop)]
pub struct WritePlan {
    /// The place of the first page of the file that is filled.
    pub first: u64,
    /// The size of the file afterwards, in bytes.
    pub size: u64,
    /// The page of the image for each place from the first on.
    pub blocks: Vec<u64>,
    /// The page that the file's log takes, where its items have no room on its last one.
    pub fresh: Vec<u64>,
    /// A page that was taken for the log and isn't needed.
    pub spare: Vec<u64>,
    /// The runs that these places are cut into.
    pub runs: Vec<Run>,
    /// The slots of their items.
    pub slots: Vec<[u64; 8]>,
}

/// How many pages a write needs that touches so many places, where the log has so much room.
pub fn pages_needed(places: u64, room: u64) -> u64
    requires { places ≤ 17 }
    ensures { result ≡ places + (if nat_lt room places then 1 else 0) }
{
    if room < places { places + 1 } else { places }
}

// Pages in a list of their own.
fn copy_of(alloc: Global, pages: &[u64]) -> Result<Vec<u64>, NoMemory>
    ensures { IfOk result (λ copy. copy.items ≡ pages.now) }
{
    let mut copy = Vec::new(alloc);
    copy.extend_from_slice(pages)?;
    Ok(copy)
}

// A page that was taken for a log, and where it is needed.
fn split_log(alloc: Global, log: &[u64], used: bool) -> Result<(Vec<u64>, Vec<u64>), NoMemory>
    ensures { IfOk result (λ r. SplitsLog used log.now r.0.items r.1.items) }
{
    let taken = copy_of(alloc, log)?;
    let none = Vec::new(alloc);
    if used {
        Ok((taken, none))
    } else {
        Ok((none, taken))
    }
}

// The plan of a write that has these pages, of which the first `extra` are for the log.
fn plan_pages(
    alloc: Global,
    pages: &[u64],
    extra: u64,
    room: u64,
    first: u64,
    size: u64,
) -> Result<WritePlan, NoMemory>
    requires some { extra < length pages.now }
    requires few { length pages.now - extra ≤ 17 }
    requires in_size { first + (length pages.now - extra) ≤ pages_of size }
    requires small { size ≤ 16777216 }
    ensures { IfOk result (IsPlanOf room first size pages.now (length pages.now - extra)) }
{
    let (log, places) = pages.split_at(extra as usize);
    let blocks = copy_of(alloc, places)?;
    let runs = cut_into_runs(alloc, first, &blocks)?;
    let slots = run_slots(alloc, &runs, size)?;
    let (fresh, spare) = split_log(alloc, log, room < runs.len() as u64)?;
    Ok(WritePlan {
        first,
        size,
        blocks,
        fresh,
        spare,
        runs,
        slots,
    })
}

/// Takes the pages for a write of so many bytes from byte `at` on, to a file of this size whose log has so much room:
/// first the page for the log, then those for the bytes, each the least free one. The log's page is spare where the
/// items, one for each run of consecutive pages, have room without it; it is given back once the write is committed.
///
/// # Errors
/// `NoMemory` where memory is wanting. The free pages are as they were then.
pub fn plan_write(
    alloc: Global,
    free: &mut FreeSet,
    room: u64,
    size: u64,
    at: u64,
    count: u64,
) -> Result<WritePlan, NoMemory>
    requires some { 1 ≤ count }
    requires few { count ≤ 65536 }
    requires fits { at + count ≤ 16777216 }
    requires small { size ≤ 16777216 }
    requires in_order { IsInOrder free.old }
    requires enough { touched at count + (if nat_lt room (touched at count) then 1 else 0) ≤ length
        free.old.free }
    ensures plan { IfOk result (IsPlan size at count room free.old free.new) }
    ensures no_memory { IsErr result → free.new ≡ free.old }
{
    let places = places_of(at, count);
    let needed = pages_needed(places, room);
    let pages = take_pages(alloc, free, needed)?;
    match plan_pages(
        alloc,
        &pages,
        needed - places,
        room,
        at / 4096,
        size.max(at + count),
    ) {
        Ok(plan) => Ok(plan),
        Err(fault) => {
            untake_pages(free, pages);
            Err(fault)
        }
    }
}
