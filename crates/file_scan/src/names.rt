// The items of the root's log become an index of names.
ghost use Rattle.std.specs.Prelude.{◌≡◌, ℕ, map, OnOk, IfOk};
ghost use Rattle.log_entry.specs.declared.item.LogItem.TheVariants.{Add};
ghost use Rattle.dn_model.specs.Log.{Log, placed};
ghost use Rattle.log_walk.specs.Items.{seen};
ghost use Rattle.file_scan.specs.Names.{Renames, IsNamesOf};

use crate::NoMemory;
use file_index::NameMap;
use log_entry::{LogItem, Name};
use log_walk::Placed;
use std::alloc::Global;

// Lets a name lead to this inode.
fn put_name(names: &mut NameMap, name: &Name, ino: u64) -> Result<(), NoMemory>
    ensures { OnOk result (Renames (Add ino name.now) names.old.map names.new.map) }
{
    let name = name.clone()?;
    names.reserve(1)?;
    names.put(name, ino);
    Ok(())
}

// What an item makes of an index of names.
fn add_name(names: &mut NameMap, item: &LogItem) -> Result<(), NoMemory>
    ensures { OnOk result (Renames item.now names.old.map names.new.map) }
{
    match item {
        LogItem::Add { ino, name } => put_name(names, name, *ino),
        LogItem::Forget { name } => {
            names.drop_name(name);
            Ok(())
        }
        LogItem::Write { .. } | LogItem::Size { .. } => Ok(()),
    }
}

/// The inodes that names lead to, from the items of the root's log, in order.
///
/// # Errors
/// `NoMemory` where there is no memory for the names.
pub fn index_names(alloc: Global, items: &[Placed]) -> Result<NameMap, NoMemory>
    ensures { IfOk result (λ names. (log : Log) → map seen items.now ≡ placed log
        → IsNamesOf log names.map) }
{
    let mut names = NameMap::new(alloc);
    for (i, placed) in items.iter().enumerate() {
        add_name(&mut names, &placed.item)?;
    }
    Ok(names)
}
