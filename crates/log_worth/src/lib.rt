//! Whether the log of an inode is worth cleaning, told in constant time from what is kept of the inode in memory. Log
//! cleaning is that of NOVA (FAST 2016), which copies what a log still says where that takes half of its pages at most.
#![tactic(auto)]

ghost use Rattle.std.specs.Prelude.{◌≡◌, ℕ, ◌*◌, ◌≤◌, ◌↔◌, IsTrue, length};
ghost use Rattle.pm_layout.specs.declared.Geometry.{Geometry};
ghost use Rattle.dn_model.specs.Log.{Log};
ghost use Rattle.dn_model.specs.Maps.{size_of};
ghost use Rattle.dn_model.specs.Valid.{IsLog};
ghost use Rattle.file_index.specs.Runs.{runs_of};
ghost use Rattle.file_index.specs.Slots.{add_slots_of};
ghost use Rattle.law_clean.specs.Cleaned.{pages_for, cleaned_slots, IsWorthCleaning};
ghost use Rattle.law_clean_count.specs.CountLaws.{or_size_slots, KeepsPlaces, KeepsNames};

use file_index::{NameMap, PageMap};
use log_entry::LOG_SLOTS;

// One slot for each of so many runs, or for a size that isn't 0.
fn or_size(size: u64, runs: u64) -> u64
    ensures { result ≡ or_size_slots size runs }
{
    if runs != 0 {
        return runs;
    }
    if size == 0 { 0 } else { 1 }
}

/// How many slots the cleaned log of a file takes, by the file's size in bytes and the places that are kept of it: 1 for
/// each run of places that one item maps. Without runs it takes 1 for a size that isn't 0.
pub fn file_slots(size: u64, places: &PageMap) -> u64
    ensures is { result ≡ or_size_slots size (runs_of places.now.map) }
    ensures cleaned { (g : Geometry) (ino : ℕ) (log : Log) → 1 ≤ ino → IsLog g ino log
        → size_of log ≡ size → KeepsPlaces log places.now.map → cleaned_slots ino log ≡ result }
{
    or_size(size, places.runs())
}

/// How many slots the cleaned log of the root takes, by the names that are kept: those of an Add of each.
pub fn root_slots(names: &NameMap) -> u64
    ensures is { result ≡ add_slots_of names.now.map }
    ensures cleaned { (log : Log) → KeepsNames log names.now.map → cleaned_slots 0 log ≡ result }
{
    names.add_slots()
}

/// How many pages a log of so many slots takes, of 63 slots each.
pub fn pages_for(slots: u64) -> u64
    ensures { result ≡ pages_for slots }
{
    slots.div_ceil(LOG_SLOTS)
}

/// Whether a log of so many pages is worth cleaning, where the cleaned one takes so many slots: there are two pages or
/// more, and the cleaned log takes no more than half of them.
pub fn is_worth_cleaning(pages: u64, slots: u64) -> bool
    ensures test { IsTrue result ↔ ((2 ≤ pages) × (2 * pages_for slots ≤ pages)) }
    ensures log { (ino : ℕ) (log : Log) → length log.pages ≡ pages → cleaned_slots ino log ≡ slots
        → (IsTrue result ↔ IsWorthCleaning ino log) }
{
    2 <= pages && 2 * pages_for(slots) <= pages
}

/// Whether the log of a file is worth cleaning, which has so many pages, by the file's size in bytes and the places that
/// are kept of it.
pub fn is_file_worth_cleaning(pages: u64, size: u64, places: &PageMap) -> bool
    ensures { (g : Geometry) (ino : ℕ) (log : Log) → 1 ≤ ino → IsLog g ino log
        → length log.pages ≡ pages → size_of log ≡ size → KeepsPlaces log places.now.map
        → (IsTrue result ↔ IsWorthCleaning ino log) }
{
    is_worth_cleaning(pages, file_slots(size, places))
}

/// Whether the log of the root is worth cleaning, which has so many pages, by the names that are kept.
pub fn is_root_worth_cleaning(pages: u64, names: &NameMap) -> bool
    ensures { (log : Log) → length log.pages ≡ pages → KeepsNames log names.now.map
        → (IsTrue result ↔ IsWorthCleaning 0 log) }
{
    is_worth_cleaning(pages, root_slots(names))
}
