ghost use Rattle.std.specs.Prelude.{◌+◌, ◌^◌, ◌<◌, ◌≤◌, All, ◌≡◌};
ghost use Rattle.file_scan.specs.Index.{MayBeIndexed};

use clean_items::{NoMemory, cleaned_items};
use file_index::{Mapping, PageMap};
use file_scan::index_items;
use log_entry::{Flag, LogItem};
use log_walk::Placed;
use log_worth::{file_slots, is_file_worth_cleaning, is_worth_cleaning};
use std::alloc::Global;
use std::test::Fail;

// A Write of a file of four pages.
fn write(slot: u64, first: u64, count: u64, block: u64, mask: u64) -> Placed
    requires some { 1 ≤ count }
    requires few { count ≤ 4 }
    requires places { first + count ≤ 4 }
    requires blocks { block + count ≤ 65536 }
    requires mask { mask < 2 ^ count }
    ensures { MayBeIndexed result }
{
    Placed {
        slot,
        item: LogItem::Write {
            first,
            count,
            block,
            size: 16384,
            flag: Flag::Needed,
            mask,
        },
    }
}

// The items of the cleaned log of a file.
fn cleaned_file(alloc: Global, items: &[Placed]) -> Result<Vec<LogItem>, NoMemory>
    requires { All MayBeIndexed items.now }
{
    let index = index_items(alloc, items)?;
    cleaned_items(alloc, 1, items, index.size, &index.map)
}

// The places, the page and the mask of a Write that keeps its size and its flag.
fn fields(item: &LogItem) -> Option<(u64, u64, u64, u64)> {
    match item {
        LogItem::Write {
            first,
            count,
            block,
            size: 16384,
            flag: Flag::Needed,
            mask,
        } => Some((*first, *count, *block, *mask)),
        _ => None,
    }
}

#[test]
fn splits_an_overwritten_write(rt: HostRuntime) -> Result<(), Fail> {
    let alloc = rt.alloc();
    let mut items = Vec::new(alloc);
    items.push(write(641, 0, 4, 20, 10))?;
    items.push(write(642, 1, 1, 30, 0))?;
    let cleaned = cleaned_file(alloc, &items)?;
    assert_eq!(rt; cleaned.len(), 3);
    for (item, parts) in cleaned
        .iter()
        .zip(&[(0, 1, 20, 0), (2, 2, 22, 2), (1, 1, 30, 0)])
    {
        assert_eq!(rt; fields(item), Some(*parts));
    }
    let index = index_items(alloc, &items)?;
    assert_eq!(rt; file_slots(index.size, &index.map), 3);
    Ok(())
}

#[test]
fn takes_no_page_for_no_item(rt: HostRuntime) -> Result<(), Fail> {
    let cleaned = cleaned_file(rt.alloc(), &[])?;
    assert!(rt; cleaned.is_empty());
    assert_eq!(rt; file_slots(0, &PageMap::new(rt.alloc())), 0);
    Ok(())
}

#[test]
fn half_of_the_pages_is_few_enough(rt: HostRuntime) -> Result<(), Fail> {
    for (pages, slots, worth) in [
        (0, 0, false),
        (1, 0, false),
        (2, 0, true),
        (2, 63, true),
        (2, 64, false),
        (3, 64, false),
        (4, 126, true),
        (4, 127, false),
    ] {
        assert_eq!(rt; is_worth_cleaning(pages, slots), worth);
    }
    Ok(())
}

#[test]
fn counts_runs_of_a_file(rt: HostRuntime) -> Result<(), Fail> {
    let mut map = PageMap::new(rt.alloc());
    assert!(rt; is_file_worth_cleaning(2, 4096, &map));
    for bit in 0..64 {
        map.reserve(1)?;
        let mapping = Mapping {
            block: 100 + bit,
            slot: 65 + bit,
            bit: 0,
        };
        map.set(bit, mapping);
        assert_eq!(rt; is_file_worth_cleaning(2, 262144, &map), bit < 63);
    }
    Ok(())
}
