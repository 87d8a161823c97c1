// The items of a cleaned log.
ghost use Rattle.std.specs.Prelude.{◌≡◌, map, All, IfOk};
ghost use Rattle.dn_model.specs.Log.{Log, placed};
ghost use Rattle.log_walk.specs.Items.{seen};
ghost use Rattle.file_scan.specs.Index.{MayBeIndexed};
ghost use Rattle.law_clean.specs.Cleaned.{cleaned_items};
ghost use Rattle.clean_items.specs.Cleaning.{IsKeptOf};

use crate::NoMemory;
use crate::names::cleaned_names;
use crate::parts::cleaned_file;
use file_index::PageMap;
use log_entry::LogItem;
use log_walk::Placed;
use std::alloc::Global;

/// The items of the cleaned log of an inode, from the items of its log, the size of its file in bytes and where the
/// file's places are. Inode 0 is the root, whose log has names.
///
/// # Errors
/// `NoMemory` where there is no memory for the items, or for the names of the root.
pub fn cleaned_items(
    alloc: Global,
    ino: u64,
    items: &[Placed],
    size: u64,
    places: &PageMap,
) -> Result<Vec<LogItem>, NoMemory>
    requires { All MayBeIndexed items.now }
    ensures { IfOk result (λ cleaned. (log : Log) → map seen items.now ≡ placed log
        → IsKeptOf log size places.now.map → cleaned.items ≡ cleaned_items ino log) }
{
    if ino == 0 {
        cleaned_names(alloc, items)
    } else {
        cleaned_file(alloc, items, size, places)
    }
}
