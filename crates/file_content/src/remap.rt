// The index of a file after a write.
ghost use Rattle.std.specs.Prelude.{◌≡◌, ◌+◌, ◌-◌, ◌%◌, ◌<◌, ◌≤◌, ℕ, ◌++◌, All, IfSome, Contains};
ghost use Rattle.std.specs.FinMap.{get};
ghost use Rattle.pm_layout.specs.declared.Geometry.{Geometry};
ghost use Rattle.dn_model.specs.Log.{Log, IsPaged, count, tail_at, slot_name};
ghost use Rattle.dn_model.specs.Disk.{Disk};
ghost use Rattle.law_write.specs.Runs.{places_in};
ghost use Rattle.law_write.specs.MayWrite.{MayWrite, written_disk};
ghost use Rattle.file_content.specs.Content.{IsFileOf};
ghost use Rattle.file_content.specs.Runs.{all_seen};
ghost use Rattle.file_content.specs.RemapLoop.{MapsRun};
ghost use Rattle.file_content.specs.Overwritten.{IsBlockOf, GivesBlock, GivesBlocks};

use crate::runs::Run;
use file_index::{Mapping, PageMap};
use page_alloc::FreeSet;

// How many slots more the page of this tail has.
fn slots_left(tail: u64) -> u64
    ensures no_page { tail ≡ 0 → result ≡ 0 }
    ensures on_page { 0 < tail → result ≡ 63 - tail % 64 }
{
    if tail == 0 {
        0
    } else {
        63u64.saturating_sub(tail % 64)
    }
}

// The name of slot k, from 0, of these pages.
fn slot_of_pages(pages: &[u64], k: u64) -> u64
    requires pages { All (λ page. page < 65536) pages.now }
    ensures { result ≡ slot_name pages.now k }
{
    let page = pages.get((k / 63) as usize).copied().unwrap_or(0);
    page * 64 + k % 63
}

/// The name of the slot j places past a log's tail, from 0: the number of its page times 64, plus its place on that
/// page. The slots go on from the tail to the end of its page, which has 63, and then on the fresh pages. A log without
/// items has the tail 0, and its first slot is the first one of the fresh pages.
pub fn slot_after(tail: u64, fresh: &[u64], j: u64) -> u64
    requires tail { tail < 4194304 }
    requires fresh { All (λ page. page < 65536) fresh.now }
    ensures { (g : Geometry) (old : Log) → IsPaged g old → tail ≡ tail_at old.pages (count old)
        → result ≡ slot_name (old.pages ++ fresh.now) (count old + j) }
{
    let left = slots_left(tail);
    if j < left {
        tail + j
    } else {
        slot_of_pages(fresh, j - left)
    }
}

// Maps the places of a run, whose item is at this slot.
fn map_run(map: &mut PageMap, run: &Run, slot: u64)
    requires room { run.now.count ≤ map.old.room }
    requires places { run.now.first + run.now.count ≤ 4096 }
    requires blocks { run.now.block + run.now.count ≤ 65536 }
    ensures { MapsRun run.now.first run.now.count run.now.block slot map.old map.new }
{
    for i in 0..run.count {
        let mapping = Mapping {
            block: run.block + i,
            slot,
            bit: i,
        };
        map.set(run.first + i, mapping);
    }
}

/// Maps the places of runs to their pages, once the Write items of the runs stand in the log past this tail, one after
/// another, where its page has room and then on the fresh pages. It takes no memory: the map has room for all places
/// of the runs. Each run lies within the 4,096 places that a file has and the 65,536 pages that an image has at most.
pub fn map_runs(map: &mut PageMap, runs: &[Run], tail: u64, fresh: &[u64])
    requires room { places_in (all_seen runs.now) ≤ map.old.room }
    requires places { All (λ run. run.first + run.count ≤ 4096) runs.now }
    requires blocks { All (λ run. run.block + run.count ≤ 65536) runs.now }
    requires tail { tail < 4194304 }
    requires fresh { All (λ page. page < 65536) fresh.now }
    ensures file { (d : Disk) (ino old_size size first : ℕ) (word : ℕ → ℕ → ℕ)
        → IsFileOf d ino old_size map.old.map → MayWrite d ino fresh.now first size
        (all_seen runs.now) word → tail ≡ tail_at (d.inode ino).log.pages (count (d.inode ino).log)
        → old_size ≤ size → IsFileOf (written_disk d ino fresh.now size (all_seen runs.now) word)
        ino size map.new.map }
    ensures room { map.old.room ≤ map.new.room + places_in (all_seen runs.now) }
{
    for (j, run) in runs.iter().enumerate() {
        map_run(map, run, slot_after(tail, fresh, j as u64));
    }
}

// Gives back the page of a place that is mapped so, if it is mapped.
fn give_back_block(free: &mut FreeSet, mapping: Option<Mapping>)
    requires below { IfSome mapping (λ m. m.block < free.old.pages) }
    requires taken { IfSome mapping (λ m. ¬ Contains free.old.free m.block) }
    ensures { GivesBlock mapping free.old free.new }
{
    if let Some(m) = mapping {
        free.give_back(m.block);
    }
}

/// Gives back the pages of so many places of a file from `first` on, as far as these are mapped: those that a write
/// of these places leaves, by the map as it was before. The places are mapped to different pages, none of which is free.
pub fn give_back_overwritten(free: &mut FreeSet, map: &PageMap, first: u64, places: u64)
    requires in_file { first + places ≤ 4096 }
    requires below { (i : ℕ) → i < places → IfSome (get map.now.map (first + i))
        (λ m. m.block < free.old.pages) }
    requires taken { (i : ℕ) → i < places → IfSome (get map.now.map (first + i))
        (λ m. ¬ Contains free.old.free m.block) }
    requires apart { (i j page : ℕ) → i < places → j < places
        → IsBlockOf (get map.now.map (first + i)) page → IsBlockOf (get map.now.map (first + j))
        page → i ≡ j }
    ensures { GivesBlocks map.now.map first places free.old free.new }
{
    for i in 0..places {
        give_back_block(free, map.get(first + i));
    }
}
