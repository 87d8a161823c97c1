// The items of a file's log become an index of the file.
ghost use Rattle.std.specs.Prelude.{◌≡◌, ◌+◌, ◌<◌, ◌≤◌, ℕ, map, All, IfOk, OnOk};
ghost use Rattle.log_entry.specs.Spelling.{pages_of};
ghost use Rattle.log_entry.specs.declared.item.Flag.{Flag};
ghost use Rattle.log_entry.specs.declared.item.LogItem.TheVariants.{Write};
ghost use Rattle.file_index.specs.Index.{CutsOff};
ghost use Rattle.dn_model.specs.Log.{Log, placed};
ghost use Rattle.log_walk.specs.Items.{seen};
ghost use Rattle.file_scan.specs.Index.{MayBeIndexed, SetsPlaces, Remaps, IsIndexOf};

use crate::NoMemory;
use file_index::{Mapping, PageMap};
use log_entry::LogItem;
use log_walk::Placed;
use pm_layout::PAGE_BYTES;
use std::alloc::Global;

/// How long a file is, and where its places are.
#[derive(Debug, Drop)]
pub struct FileIndex {
    /// The file's size, in bytes.
    pub size: u64,
    /// The page of the image for each place that is mapped, with the item that maps it.
    pub map: PageMap,
}

// The pages of a size in bytes.
fn pages_of(size: u64) -> u64
    requires { size ≤ 16777216 }
    ensures { result ≡ pages_of size }
{
    size.div_ceil(PAGE_BYTES)
}

// Maps so many places from `first` on to the pages from `block` on, one after another, by the item at this slot.
fn set_places(map: &mut PageMap, slot: u64, first: u64, count: u64, block: u64)
    requires places { first + count ≤ 4096 }
    requires blocks { block + count ≤ 65536 }
    requires room { count ≤ map.old.room }
    ensures { SetsPlaces slot first count block map.old map.new }
{
    for k in 0..count {
        map.set(
            first + k,
            Mapping {
                block: block + k,
                slot,
                bit: k,
            },
        );
    }
}

// Cuts the file at a size, and lets it have this size.
fn cut_at(index: &mut FileIndex, size: u64)
    requires { size ≤ 16777216 }
    ensures size { index.new.size ≡ size }
    ensures cuts { CutsOff (pages_of size) index.old.map index.new.map }
{
    index.map.cut(pages_of(size));
    index.size = size;
}

// What a Write at this slot makes of an index.
fn add_write(
    index: &mut FileIndex,
    slot: u64,
    first: u64,
    count: u64,
    block: u64,
    size: u64,
) -> Result<(), NoMemory>
    requires places { first + count ≤ 4096 }
    requires blocks { block + count ≤ 65536 }
    requires size { size ≤ 16777216 }
    ensures { (flag : Flag) (mask : ℕ)
        → OnOk result (Remaps (record {
          slot = slot;
          item = Write first count block size flag mask;
        }) index.old index.new) }
{
    index.map.reserve(count)?;
    set_places(&mut index.map, slot, first, count, block);
    cut_at(index, size);
    Ok(())
}

// What an item makes of an index.
fn add_item(index: &mut FileIndex, placed: &Placed) -> Result<(), NoMemory>
    requires { MayBeIndexed placed.now }
    ensures { OnOk result (Remaps (seen placed.now) index.old index.new) }
{
    match &placed.item {
        LogItem::Write {
            first,
            count,
            block,
            size,
            ..
        } => add_write(index, placed.slot, *first, *count, *block, *size),
        LogItem::Size { size } => {
            cut_at(index, *size);
            Ok(())
        }
        LogItem::Add { .. } | LogItem::Forget { .. } => Ok(()),
    }
}

/// The size of a file and the mappings of its places, from the items of its log, in order. The time is linear in the
/// items and in the places that they map, where a file is written from its start to its end.
///
/// # Errors
/// `NoMemory` where there is no memory for the mappings.
pub fn index_items(alloc: Global, items: &[Placed]) -> Result<FileIndex, NoMemory>
    requires { All MayBeIndexed items.now }
    ensures { IfOk result (λ index. (log : Log) → map seen items.now ≡ placed log
        → IsIndexOf log index) }
{
    let mut index = FileIndex {
        size: 0,
        map: PageMap::new(alloc),
    };
    for (i, placed) in items.iter().enumerate() {
        add_item(&mut index, placed)?;
    }
    Ok(index)
}
