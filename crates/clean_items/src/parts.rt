// Of a file's log the places that each Write still maps stay, one Write for each run of them.
ghost use Rattle.std.specs.Prelude.{◌≡◌, ◌+◌, ◌-◌, ◌^◌, ◌<◌, ◌≤◌, ◌++◌, ℕ, All, IfOk, OnOk};
ghost use Rattle.std.specs.FinMap.{get};
ghost use Rattle.log_entry.specs.declared.item.LogItem.TheVariants.{Write};
ghost use Rattle.file_scan.specs.Index.{MayBeIndexed};
ghost use Rattle.law_clean.specs.Cleaned.{begins_run, run_len, part_of, parts_of, or_size};
ghost use Rattle.clean_items.specs.Cleaning.{is_kept_by, maps_still, part_at, parts_by, IsFew};

use crate::NoMemory;
use file_index::PageMap;
use log_entry::{Flag, LogItem};
use log_walk::Placed;
use std::alloc::Global;

// A Write of a log, and its slot.
#[derive(Clone, Copy, Debug)]
struct Written {
    slot: u64,
    first: u64,
    count: u64,
    block: u64,
    flag: Flag,
    mask: u64,
}

// Whether a place is mapped by the item at this slot.
fn maps_still(places: &PageMap, slot: u64, idx: u64) -> bool
    ensures { result ≡ maps_still places.now.map slot idx }
{
    match places.get(idx) {
        Some(mapping) => mapping.slot == slot,
        None => false,
    }
}

// Whether a run of places that the item at this slot maps begins here.
fn begins_run(places: &PageMap, slot: u64, first: u64, idx: u64) -> bool
    ensures { result ≡ begins_run (maps_still places.now.map slot) first idx }
{
    maps_still(places, slot, idx) && !(first < idx && maps_still(places, slot, idx - 1))
}

// How many of n places from this one on the item at this slot maps, one after another.
fn run_len(places: &PageMap, slot: u64, idx: u64, n: u64) -> u64
    requires { idx + n < 2 ^ 64 }
    ensures len { result ≡ run_len (maps_still places.now.map slot) idx n }
    ensures few { result ≤ n }
{
    for k in 0..n {
        if !maps_still(places, slot, idx + k) {
            return k;
        }
    }
    n
}

// The part of a Write for n places from this one on, with this size of the file.
fn part_of(write: Written, size: u64, from: u64, n: u64) -> LogItem
    requires low { write.first ≤ from }
    requires block { write.block + (from - write.first) < 2 ^ 64 }
    requires from_bit { from - write.first < 64 }
    requires bits { n < 64 }
    ensures { result ≡ part_of size write.first write.block write.flag write.mask from n }
{
    LogItem::Write {
        first: from,
        count: n,
        block: write.block + (from - write.first),
        size,
        flag: write.flag,
        mask: (write.mask >> (from - write.first)) % (1 << n),
    }
}

// Adds the part for the run that begins at a place, if one does.
fn push_run(
    parts: &mut Vec<LogItem>,
    places: &PageMap,
    size: u64,
    write: Written,
    from: u64,
) -> Result<(), NoMemory>
    requires few { IsFew write.first write.count write.block }
    requires low { write.first ≤ from }
    requires high { from < write.first + write.count }
    ensures { OnOk result (parts.new.items ≡ parts.old.items ++ part_at
        (maps_still places.now.map write.slot) size write.first write.count write.block write.flag
        write.mask from) }
{
    if !begins_run(places, write.slot, write.first, from) {
        return Ok(());
    }
    let n = run_len(places, write.slot, from, write.first + write.count - from);
    parts.push(part_of(write, size, from, n))?;
    Ok(())
}

// Adds the parts of a Write.
fn push_parts(
    parts: &mut Vec<LogItem>,
    places: &PageMap,
    size: u64,
    write: Written,
) -> Result<(), NoMemory>
    requires { IsFew write.first write.count write.block }
    ensures { (was : ℕ) → OnOk result (parts.new.items ≡ parts.old.items ++ parts_of
        (maps_still places.now.map write.slot) size
        (Write write.first write.count write.block was write.flag write.mask)) }
{
    for from in write.first..write.first + write.count {
        push_run(parts, places, size, write, from)?;
    }
    Ok(())
}

// Adds the parts of an item.
fn push_item(
    parts: &mut Vec<LogItem>,
    places: &PageMap,
    size: u64,
    placed: &Placed,
) -> Result<(), NoMemory>
    requires { MayBeIndexed placed.now }
    ensures { OnOk result (parts.new.items ≡ parts.old.items ++ parts_of
        (maps_still places.now.map placed.now.slot) size placed.now.item) }
{
    match &placed.item {
        LogItem::Write {
            first,
            count,
            block,
            flag,
            mask,
            ..
        } => {
            let write = Written {
                slot: placed.slot,
                first: *first,
                count: *count,
                block: *block,
                flag: *flag,
                mask: *mask,
            };
            push_parts(parts, places, size, write)
        }
        LogItem::Size { .. } | LogItem::Add { .. } | LogItem::Forget { .. } => Ok(()),
    }
}

// The parts of the items, in order.
fn parts_by(
    alloc: Global,
    items: &[Placed],
    size: u64,
    places: &PageMap,
) -> Result<Vec<LogItem>, NoMemory>
    requires { All MayBeIndexed items.now }
    ensures { IfOk result (λ parts. parts.items ≡ parts_by places.now.map size items.now) }
{
    let mut parts = Vec::new(alloc);
    for (i, placed) in items.iter().enumerate() {
        push_item(&mut parts, places, size, placed)?;
    }
    Ok(parts)
}

// With no item, a Size says a size that isn't 0.
fn add_size(items: &mut Vec<LogItem>, size: u64) -> Result<(), NoMemory>
    ensures { OnOk result (items.new.items ≡ or_size size items.old.items) }
{
    if items.is_empty() && size != 0 {
        items.push(LogItem::Size { size })?;
    }
    Ok(())
}

/// The items of the cleaned log of a file, from the items of its log, its size in bytes and where its places are. Each
/// Write stays in as many parts as there are runs of places that it still maps. The time is linear in the places that
/// the items write.
///
/// # Errors
/// `NoMemory` where there is no memory for the items.
pub fn cleaned_file(
    alloc: Global,
    items: &[Placed],
    size: u64,
    places: &PageMap,
) -> Result<Vec<LogItem>, NoMemory>
    requires { All MayBeIndexed items.now }
    ensures { IfOk result
        (λ cleaned. cleaned.items ≡ or_size size (parts_by places.now.map size items.now)) }
{
    let mut cleaned = parts_by(alloc, items, size, places)?;
    add_size(&mut cleaned, size)?;
    Ok(cleaned)
}
